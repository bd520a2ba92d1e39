//! The types of messages (OpenFlow 1.0.0, OpenFlow header).

/// The highest version that its sender speaks. Both sides send it first.
pub const HELLO: u8 = 0;

/// A message that was refused, or failed.
pub const ERROR: u8 = 1;

/// Asks whether the other side is alive.
pub const ECHO_REQUEST: u8 = 2;

/// Answers an echo request with its bytes.
pub const ECHO_REPLY: u8 = 3;

/// A message outside the standard.
pub const VENDOR: u8 = 4;

/// Asks a switch for its datapath and its ports.
pub const FEATURES_REQUEST: u8 = 5;

/// The datapath and the ports of a switch.
pub const FEATURES_REPLY: u8 = 6;

/// Asks a switch for its flags and its miss length.
pub const GET_CONFIG_REQUEST: u8 = 7;

/// The flags and the miss length of a switch.
pub const GET_CONFIG_REPLY: u8 = 8;

/// Sets the flags and the miss length of a switch.
pub const SET_CONFIG: u8 = 9;

/// A packet that a switch sends to its controller.
pub const PACKET_IN: u8 = 10;

/// An entry went out of the flow table.
pub const FLOW_REMOVED: u8 = 11;

/// A port came, went or changed.
pub const PORT_STATUS: u8 = 12;

/// A packet that a switch is to send.
pub const PACKET_OUT: u8 = 13;

/// A change of the flow table.
pub const FLOW_MOD: u8 = 14;

/// A change of a port.
pub const PORT_MOD: u8 = 15;

/// Asks a switch for counters and descriptions.
pub const STATS_REQUEST: u8 = 16;

/// Counters and descriptions of a switch.
pub const STATS_REPLY: u8 = 17;

/// Asks a switch to finish what came before.
pub const BARRIER_REQUEST: u8 = 18;

/// What came before the barrier request is finished.
pub const BARRIER_REPLY: u8 = 19;

/// Asks a switch for the queues of a port.
pub const QUEUE_GET_CONFIG_REQUEST: u8 = 20;

/// The queues of a port.
pub const QUEUE_GET_CONFIG_REPLY: u8 = 21;

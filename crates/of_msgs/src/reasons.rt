//! Why a switch sends a PACKET_IN (OpenFlow 1.0.0, packet-in message).

/// No entry matched.
pub const NO_MATCH: u8 = 0;
/// An entry's action sends it.
pub const ACTION: u8 = 1;

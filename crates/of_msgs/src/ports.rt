//! Numbers of ports that are no physical port (OpenFlow 1.0.0, port structures).

/// The highest number of a physical port.
pub const MAX: u16 = 0xff00;
/// The port at which the packet came.
pub const IN_PORT: u16 = 0xfff8;
/// The flow table, in a PACKET_OUT alone.
pub const TABLE: u16 = 0xfff9;
/// The switch's own forwarding.
pub const NORMAL: u16 = 0xfffa;
/// All physical ports of the spanning tree but the one at which the packet came.
pub const FLOOD: u16 = 0xfffb;
/// All physical ports but the one at which the packet came.
pub const ALL: u16 = 0xfffc;
/// The controller.
pub const CONTROLLER: u16 = 0xfffd;
/// The switch's own stack.
pub const LOCAL: u16 = 0xfffe;
/// No port.
pub const NONE: u16 = 0xffff;

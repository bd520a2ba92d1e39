//! What a PACKET_IN shows.

use mon_header::Header;

/// A packet that a switch sent to the controller (OpenFlow 1.0.0, packet-in message): the switch's datapath id, the port
/// at which the packet came in there, the reason (0 is OFPR_NO_MATCH, 1 is OFPR_ACTION), and the packet's header.
#[derive(Clone, Copy, Debug, PartialEq, Eq)]
pub struct Seen {
    pub switch: u64,
    pub port: u16,
    pub reason: u8,
    pub header: Header,
}

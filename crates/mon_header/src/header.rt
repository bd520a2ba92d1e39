//! A header: twelve numbers.

/// The twelve fields that a switch compares (OpenFlow 1.0.0, flow table, header fields). A field that a packet lacks
/// is 0, and `dl_vlan` of an untagged packet is 0xffff. Both `dl_` addresses are below 2^48.
#[derive(Clone, Copy, Debug, PartialEq, Eq)]
pub struct Header {
    pub in_port: u16,
    pub dl_src: u64,
    pub dl_dst: u64,
    pub dl_vlan: u16,
    pub dl_vlan_pcp: u8,
    pub dl_type: u16,
    pub nw_tos: u8,
    pub nw_proto: u8,
    pub nw_src: u32,
    pub nw_dst: u32,
    pub tp_src: u16,
    pub tp_dst: u16,
}

/// A header of zeros, from which others are made. It is in no class, since no frame has the Ethernet type 0.
pub const BLANK: Header = Header {
    in_port: 0,
    dl_src: 0,
    dl_dst: 0,
    dl_vlan: 0,
    dl_vlan_pcp: 0,
    dl_type: 0,
    nw_tos: 0,
    nw_proto: 0,
    nw_src: 0,
    nw_dst: 0,
    tp_src: 0,
    tp_dst: 0,
};

/// A datagram from 10.0.0.1 to 10.0.0.2 with the tag 100, on port 1: a header for examples and tests.
pub const DATAGRAM: Header = Header {
    in_port: 1,
    dl_src: 0x020000000001,
    dl_dst: 0x020000000002,
    dl_vlan: 100,
    dl_type: 0x0800,
    nw_proto: 17,
    nw_src: 0x0a000001,
    nw_dst: 0x0a000002,
    tp_src: 1,
    tp_dst: 2,
    ..BLANK
};

//! Headers.

use mon_header::{BLANK, Header};

/// A header of zeros that is IPv4 by its Ethernet type.
pub const IPV4: Header = Header {
    dl_type: 0x0800,
    ..BLANK
};

/// A datagram from 0.0.0.0 to 10.0.0.1 that comes in at port 1 with the tag 100.
pub const PACKET: Header = Header {
    in_port: 1,
    dl_src: 0x020000000001,
    dl_dst: 0x020000000002,
    dl_vlan: 100,
    nw_proto: 17,
    nw_dst: 0x0a000001,
    ..IPV4
};

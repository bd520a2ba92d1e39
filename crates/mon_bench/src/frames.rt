//! Probe frames for another program to read: a line for each, with the fields of its header and then its bytes.

use mon_header::{BLANK, Header};
use mon_packet::{Nonce, in_class, render};
use std::alloc::Global;

/// A datagram with a tag, whose fields the others change.
const DATAGRAM: Header = Header {
    in_port: 1,
    dl_src: 0x020000000001,
    dl_dst: 0x0200000000a2,
    dl_vlan: 100,
    dl_vlan_pcp: 5,
    dl_type: 0x0800,
    nw_tos: 0x28,
    nw_proto: 17,
    nw_src: 0x0a000001,
    nw_dst: 0xc0a8fe02,
    tp_src: 4000,
    tp_dst: 65_000,
};

/// A header of each class, with a tag and without.
fn headers() -> [Header; 7] {
    [
        DATAGRAM,
        Header {
            nw_proto: 6,
            ..DATAGRAM
        },
        Header {
            nw_proto: 1,
            tp_src: 8,
            tp_dst: 0,
            ..DATAGRAM
        },
        Header {
            nw_proto: 47,
            tp_src: 0,
            tp_dst: 0,
            ..DATAGRAM
        },
        Header {
            in_port: 1,
            dl_src: 0x020000000001,
            dl_dst: 0x0200000000a2,
            dl_vlan: 100,
            dl_vlan_pcp: 5,
            dl_type: 0x88b5,
            ..BLANK
        },
        Header {
            dl_type: 0x0806,
            nw_tos: 0,
            nw_proto: 2,
            tp_src: 0,
            tp_dst: 0,
            ..DATAGRAM
        },
        Header {
            dl_vlan: 0xffff,
            dl_vlan_pcp: 0,
            ..DATAGRAM
        },
    ]
}

/// Prints one line for each header that is in a class, with a few serials.
pub fn print(rt: &impl Print, alloc: Global) -> anyhow::Result<()> {
    for serial in 1..5_u64 {
        for h in headers() {
            if in_class(&h) {
                let frame = render(alloc, &h, Nonce { key: 1, serial })?;
                print!(rt;
                    "{} {} {} {} {} {} {} {} {} {} {} ",
                    h.dl_src,
                    h.dl_dst,
                    h.dl_vlan,
                    h.dl_vlan_pcp,
                    h.dl_type,
                    h.nw_tos,
                    h.nw_proto,
                    h.nw_src,
                    h.nw_dst,
                    h.tp_src,
                    h.tp_dst
                )?;
                for byte in &frame {
                    print!(rt; "{byte:02x}")?;
                }
                println!(rt)?;
            }
        }
    }
    Ok(())
}

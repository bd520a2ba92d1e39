//! Matches whose bytes were written by hand.

use crate::codec::{read_match, write_match};
use mon_header::{BLANK, Header, same_header};

/// The bytes of hexadecimal digits; what is no digit is skipped.
fn bytes(text: &str) -> [u8; 40] {
    let mut out = [0_u8; 40];
    let mut place = 0;
    for digit in text.chars().filter_map(|c| c.to_digit(16)) {
        if place < 80 {
            out[place / 2] = (out[place / 2] << 4) + (digit % 16) as u8;
            place += 1;
        }
    }
    out
}

#[test]
fn normalised_matches_are_written_as_they_were_read(rt: HostRuntime) {
    let cases = [
        // Everything is ignored.
        "003820ff 0000 000000000000 000000000000 0000 00 00 0000 00 00 0000 00000000 00000000 0000 0000",
        // IPv4 to 10.0.0.0/24.
        "003220ef 0000 000000000000 000000000000 0000 00 00 0800 00 00 0000 00000000 0a000000 0000 0000",
        // IPv4.
        "003820ef 0000 000000000000 000000000000 0000 00 00 0800 00 00 0000 00000000 00000000 0000 0000",
        // IPv4 on port 1.
        "003820ee 0001 000000000000 000000000000 0000 00 00 0800 00 00 0000 00000000 00000000 0000 0000",
        // IPv4 from 10.0.0.0/8.
        "003818ef 0000 000000000000 000000000000 0000 00 00 0800 00 00 0000 0a000000 00000000 0000 0000",
        // IPv4 to 10.0.0.0/8.
        "003620ef 0000 000000000000 000000000000 0000 00 00 0800 00 00 0000 00000000 0a000000 0000 0000",
        // Port 1.
        "003820fe 0001 000000000000 000000000000 0000 00 00 0000 00 00 0000 00000000 00000000 0000 0000",
        // One packet.
        "00000000 0001 020000000001 020000000002 0064 00 00 0800 00 11 0000 0a000001 0a000002 0001 0002",
    ];
    for text in cases {
        assert!(rt;
            write_match(&read_match(&bytes(text))) == bytes(text),
            "{text}"
        );
    }
}

#[test]
fn a_match_is_read_into_its_fields(rt: HostRuntime) {
    let text =
        "00000000 0001 020000000003 020000000004 0005 06 00 0800 1c 11 0000 0a000007 0a000008 0009 000a";
    let m = read_match(&bytes(text));
    let fields = Header {
        in_port: 1,
        dl_src: 0x020000000003,
        dl_dst: 0x020000000004,
        dl_vlan: 5,
        dl_vlan_pcp: 6,
        dl_type: 0x0800,
        nw_tos: 0x1c,
        nw_proto: 17,
        nw_src: 0x0a000007,
        nw_dst: 0x0a000008,
        tp_src: 9,
        tp_dst: 10,
    };
    assert!(rt; m.wildcards() == 0 && same_header(m.fields(), &fields));
}

#[test]
fn what_says_nothing_is_dropped(rt: HostRuntime) {
    // Unused bits are set, the source's count is 40 and the destination's 12, pads and ignored fields bear junk, and
    // the two low bits of nw_tos too.
    let text =
        "ffc328ef ffff ffffffffffff ffffffffffff ffff ff ff 0800 ff ff ffff ffffffff 0a0b0c0d ffff ffff";
    let normal =
        "000320ef 0000 000000000000 000000000000 0000 ff 00 0800 fc 00 0000 00000000 0a0b0000 0000 0000";
    let m = read_match(&bytes(text));
    let fields = Header {
        dl_vlan_pcp: 0xff,
        dl_type: 0x0800,
        nw_tos: 0xfc,
        nw_dst: 0x0a0b0000,
        ..BLANK
    };
    assert!(rt; m.wildcards() == 0x000320ef && same_header(m.fields(), &fields));
    assert!(rt; write_match(&m) == bytes(normal));
}

//! Matches, headers and actions whose answers were worked out by hand.

use crate::action::{Action, RawAction, same_action};
use crate::actions::{Actions, same_actions};
use crate::class::{CLASSES, Class, in_class, is_in_class};
use crate::header::{BLANK, DATAGRAM, Header};
use crate::matching::{Match, covers, effective, matches, overlaps};
use crate::order::{match_before, same_header, same_match};
use crate::places::{bit, from_bits};
use std::test::Fail;

/// A match of IPv4, with these wildcards and addresses.
fn ipv4(wildcards: u32, nw_src: u32, nw_dst: u32) -> Match {
    Match::normal(
        wildcards,
        Header {
            dl_type: 0x0800,
            nw_src,
            nw_dst,
            ..BLANK
        },
    )
}

/// A match of a port.
fn on_port(wildcards: u32, in_port: u16, dl_type: u16) -> Match {
    Match::normal(
        wildcards,
        Header {
            in_port,
            dl_type,
            ..BLANK
        },
    )
}

#[test]
fn matches_cover_and_overlap_as_by_hand(rt: HostRuntime) {
    let all = Match::normal(0xffffffff, DATAGRAM);
    let near = ipv4(0x003220ef, 0, 0x0a000000);
    let any_ipv4 = ipv4(0x003820ef, 0, 0);
    let ipv4_on_one = on_port(0x003820ee, 1, 0x0800);
    let from_ten = ipv4(0x003818ef, 0x0a000000, 0);
    let to_ten = ipv4(0x003620ef, 0, 0x0a000000);
    let on_one = on_port(0x003820fe, 1, 0);
    let exact = Match::normal(0, DATAGRAM);
    let beside = ipv4(0x003220ef, 0, 0x0a000100);
    let on_two = on_port(0x003820fe, 2, 0);
    let table = [
        (all, "1111111111", "1111111111"),
        (near, "0100000100", "1111111101"),
        (any_ipv4, "0111110110", "1111111111"),
        (ipv4_on_one, "0001000100", "1111111110"),
        (from_ten, "0000100100", "1111111111"),
        (to_ten, "0100010110", "1111111111"),
        (on_one, "0001001100", "1111111110"),
        (exact, "0000000100", "1111111100"),
        (beside, "0000000010", "1011111011"),
        (on_two, "0000000001", "1110110011"),
    ];
    for (a, covered, overlapped) in &table {
        let marks = covered.chars().zip(overlapped.chars());
        for ((b, _, _), (cover, overlap)) in table.iter().zip(marks) {
            assert!(rt; covers(a, b) == (cover == '1'), "{covered}");
            assert!(rt; overlaps(a, b) == (overlap == '1'), "{overlapped}");
            assert!(rt; same_match(a, b) == (!match_before(a, b) && !match_before(b, a)));
        }
    }
}

#[test]
fn a_match_takes_headers_by_their_prefix(rt: HostRuntime) {
    let near = ipv4(0x003220ef, 0, 0x0a000000);
    let cases = [
        (0x0a000000, true),
        (0x0a0000ff, true),
        (0x0a000100, false),
        (0x09ffffff, false),
    ];
    for (nw_dst, taken) in cases {
        assert!(rt;
            matches(&near, &Header { nw_dst, ..DATAGRAM }) == taken,
            "{nw_dst}"
        );
    }
    assert!(rt;
        !matches(
            &near,
            &Header {
                dl_type: 0x0806,
                ..DATAGRAM
            }
        )
    );
    assert!(rt; effective(&near, 100) == 100);
    assert!(rt; effective(&Match::normal(0, DATAGRAM), 0) == 65536);
    assert!(rt; effective(&Match::normal(1, DATAGRAM), 65535) == 65535);
}

#[test]
fn bits_stand_at_their_places(rt: HostRuntime) {
    let h = Header {
        in_port: 0x8000,
        dl_src: 1,
        dl_dst: 0x800000000000,
        dl_vlan: 1,
        dl_vlan_pcp: 0x80,
        dl_type: 1,
        nw_tos: 0x80,
        nw_proto: 1,
        nw_src: 0x80000000,
        nw_dst: 1,
        tp_src: 0x8000,
        tp_dst: 1,
    };
    let set = [0, 63, 64, 127, 128, 151, 152, 167, 168, 231, 232, 263];
    let mut bits = [false; 264];
    for place in 0..264_u16 {
        bits[usize::from(place)] = bit(&h, place);
        assert!(rt; bit(&h, place) == set.contains(&place), "{place}");
    }
    assert!(rt; same_header(&from_bits(&bits), &h));
}

#[test]
fn headers_are_in_their_classes(rt: HostRuntime) {
    let udp = DATAGRAM;
    let plain = Header {
        dl_src: 1,
        dl_vlan: 0xffff,
        dl_type: 0x88b5,
        ..BLANK
    };
    let arp = Header {
        dl_type: 0x0806,
        tp_src: 0,
        tp_dst: 0,
        ..udp
    };
    let cases = [
        (udp, Some(Class::Udp)),
        (Header { nw_proto: 6, ..udp }, Some(Class::Tcp)),
        (Header { nw_proto: 1, ..udp }, Some(Class::Icmp)),
        (
            Header {
                nw_proto: 1,
                tp_dst: 256,
                ..udp
            },
            None,
        ),
        (
            Header {
                nw_proto: 47,
                ..udp
            },
            None,
        ),
        (
            Header {
                nw_proto: 47,
                tp_src: 0,
                tp_dst: 0,
                ..udp
            },
            Some(Class::OtherIpv4),
        ),
        (
            Header {
                dl_vlan: 4096,
                ..udp
            },
            None,
        ),
        (plain, Some(Class::Plain)),
        (arp, Some(Class::Arp)),
        (
            Header {
                dl_type: 0x0806,
                ..plain
            },
            Some(Class::Arp),
        ),
        (Header { nw_tos: 4, ..arp }, None),
        (Header { tp_src: 1, ..arp }, None),
        (Header { tp_dst: 1, ..arp }, None),
        (
            Header {
                dl_type: 0x88b5,
                ..arp
            },
            None,
        ),
    ];
    for (i, (h, class)) in cases.iter().enumerate() {
        assert!(rt; in_class(h) == class.is_some(), "{i}");
        for other in CLASSES {
            assert!(rt; is_in_class(other, h) == (*class == Some(other)), "{i}");
        }
    }
}

#[test]
fn actions_are_copied(rt: HostRuntime) -> Result<(), Fail> {
    let alloc = rt.alloc();
    let vendor = [0xff, 0xff, 0, 8, 0, 0x4d, 0x4f, 0x4e];
    let mut actions = Actions::new(alloc);
    actions.push(Action::SetDlDst(0x024d4f4e4f00))?;
    actions.push(Action::Unknown(RawAction::new(alloc, &vendor)?))?;
    let copy = actions.copied(alloc)?;
    assert!(rt; same_actions(&actions, &copy));
    actions.push(Action::Output {
        port: 1,
        max_len: 0,
    })?;
    assert!(rt; !same_actions(&actions, &copy));
    assert!(rt; actions.items().len() == 3 && copy.items().len() == 2);
    assert!(rt; !same_action(&Action::SetTpSrc(1), &Action::SetTpDst(1)));
    Ok(())
}

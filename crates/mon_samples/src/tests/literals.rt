//! Headers, matches and rewrites as literals.

use crate::{IPV4, PACKET, two_neighbours};
use mon_cnf::{Formula, Lit, OutOfMemory, holds};
use mon_header::{Class, HEADER_BITS, Header, Match, bit, same_header};
use mon_literals::{borne, differ, pattern, push_class};
use mon_outcome::{COPIED, Rewrite};
use mon_shows::View;
use std::alloc::Global;
use std::test::Fail;

/// A frame of the local experimental type.
const FRAME: Header = Header {
    dl_type: 0x88b5,
    nw_proto: 0,
    nw_dst: 0,
    ..PACKET
};

fn bits(h: &Header) -> [bool; HEADER_BITS as usize] {
    let mut bits = [false; HEADER_BITS as usize];
    for place in 0..HEADER_BITS {
        bits[usize::from(place)] = bit(h, place);
    }
    bits
}

#[test]
fn a_match_is_the_bits_that_it_compares(rt: HostRuntime) -> Result<(), Fail> {
    // IPv4 to 10.0.0.0/24.
    let m = Match::normal(
        0x003220ef,
        Header {
            nw_dst: 0x0a000000,
            ..IPV4
        },
    );
    let set = [140, 204, 206];
    let literals = pattern(rt.alloc(), &m)?;
    assert!(rt; literals.items().len() == 40);
    for i in 0..40_u32 {
        let var = if i < 16 { 136 + i } else { 184 + i };
        let positive = set.contains(&var);
        assert!(rt;
            literals.items().get(i as usize) == Some(&Lit { var, positive }),
            "{i}"
        );
    }
    Ok(())
}

/// Whether the bits of a header satisfy the clauses of a class at port 1.
fn is_asked(alloc: Global, view: &View, class: Class, h: &Header) -> Result<bool, OutOfMemory> {
    let mut f = Formula::new(alloc, u32::from(HEADER_BITS));
    push_class(alloc, &mut f, view, class, 1)?;
    Ok(holds(&f, &bits(h)))
}

#[test]
fn classes_have_headers_of_probes(rt: HostRuntime) -> Result<(), Fail> {
    let view = two_neighbours(rt.alloc())?;
    let ipv4 = |nw_proto| Header { nw_proto, ..PACKET };
    let to = |dl_dst| Header { dl_dst, ..PACKET };
    let frame = |dl_type| Header { dl_type, ..FRAME };
    let arp = |nw_tos| Header {
        dl_type: 0x0806,
        nw_tos,
        ..PACKET
    };
    for (class, h, wanted) in [
        (Class::Tcp, ipv4(6), true),
        (Class::Tcp, PACKET, false),
        (Class::Udp, PACKET, true),
        (Class::Icmp, ipv4(1), true),
        (Class::OtherIpv4, ipv4(47), true),
        (Class::OtherIpv4, PACKET, false),
        (Class::Udp, to(0x024d4f4e4f00), false),
        (Class::Udp, to(0x0180c200000f), false),
        (Class::Udp, to(0x0180c2000010), true),
        (Class::Plain, frame(0x05ff), false),
        (Class::Plain, frame(0x0600), true),
        (Class::Plain, frame(0x8100), false),
        (Class::Plain, frame(0x0806), false),
        (Class::Arp, arp(0), true),
        (Class::Arp, arp(4), false),
        (Class::Arp, frame(0x0800), false),
    ] {
        let asked = is_asked(rt.alloc(), &view, class, &h)?;
        assert!(rt; asked == wanted, "{class:?} {h:?}");
    }
    Ok(())
}

#[test]
fn rewrites_differ_by_what_they_fix(rt: HostRuntime) -> Result<(), Fail> {
    let fixed = |nw_dst| Rewrite {
        nw_dst: Some(nw_dst),
        ..COPIED
    };
    assert!(rt; differ(rt.alloc(), &fixed(1), &fixed(2))?.is_none());
    let same = differ(rt.alloc(), &fixed(1), &fixed(1))?.expect(&rt, "one value");
    assert!(rt; same.items().is_empty());
    // The header's own address is 10.0.0.1.
    for (nw_dst, wanted) in [(0x0a000001, false), (0x0a000003, true)] {
        let clause = differ(rt.alloc(), &COPIED, &fixed(nw_dst))?.expect(&rt, "one value");
        let values = bits(&PACKET);
        let is_true = clause
            .items()
            .iter()
            .any(|l| values.get(l.var as usize) == Some(&l.positive));
        assert!(rt; is_true == wanted, "{nw_dst}");
    }
    Ok(())
}

#[test]
fn values_bear_the_header_of_their_bits(rt: HostRuntime) {
    assert!(rt; same_header(&borne(&bits(&PACKET)), &PACKET));
}

//! Views, and packets that tell two tables apart.

use crate::{IPV4, PACKET, ipv4, neighbours, sending, wide, with_neighbours};
use mon_header::{BLANK, Header, Match, OutOfMemory};
use mon_outcome::Emission;
use mon_shows::{Seen, Target, View, caught, craftable, observed, separates};
use mon_table::{Rule, Table};
use std::alloc::Global;
use std::test::Fail;

/// The switch 1 between its neighbours, which sends so many bytes of what it misses.
fn view(alloc: Global, miss: u16) -> Result<View, OutOfMemory> {
    with_neighbours(alloc, neighbours(alloc)?, miss)
}

#[test]
fn views_show_what_was_worked_out(rt: HostRuntime) -> Result<(), Fail> {
    let v = view(rt.alloc(), 128)?;
    let to = |dl_dst| Header { dl_dst, ..PACKET };
    let from = |in_port| Header { in_port, ..PACKET };
    for (h, wanted) in [
        (from(2), true),
        (from(3), false),
        (to(0x024d4f4e4f00), false),
        (to(0x0180c1ffffff), true),
        (to(0x0180c2000000), false),
        (to(0x0180c200000f), false),
        (to(0x0180c2000010), true),
    ] {
        assert!(rt; craftable(&v, &h) == wanted, "{h:?}");
    }
    let by_2 = |dl_vlan| Emission::Port(2, Header { dl_vlan, ..PACKET });
    let seen = |switch, port, reason| {
        let header = Header {
            in_port: port,
            ..PACKET
        };
        Some(Seen {
            switch,
            port,
            reason,
            header,
        })
    };
    let second = Header {
        in_port: 2,
        ..PACKET
    };
    let there = Seen {
        switch: 3,
        port: 1,
        reason: 1,
        header: PACKET,
    };
    for (e, back, shown) in [
        (by_2(100), true, Some(there)),
        (
            by_2(101),
            false,
            Some(Seen {
                header: Header {
                    dl_vlan: 101,
                    ..PACKET
                },
                ..there
            }),
        ),
        (Emission::Port(3, PACKET), false, None),
        (Emission::Controller(second), true, seen(1, 2, 1)),
        (Emission::Miss(second), true, seen(1, 2, 0)),
    ] {
        assert!(rt; caught(&v, &e) == back, "{e:?}");
        assert!(rt; observed(&v, &e) == shown, "{e:?}");
    }
    assert!(rt; !caught(&view(rt.alloc(), 127)?, &Emission::Miss(PACKET)));
    Ok(())
}

/// A rule for IPv4 to 10.0.0.0/24 of the priority 100.
fn to_24(alloc: Global, ports: &[u16]) -> Result<Rule, OutOfMemory> {
    let fields = Header {
        nw_dst: 0x0a000000,
        ..IPV4
    };
    sending(alloc, Match::normal(0x003220ef, fields), 100, ports)
}

/// The rule that catches the probes of the neighbours, and the one that drops what is marked.
fn catching(alloc: Global) -> Result<Table, OutOfMemory> {
    let mut table = Table::new(alloc);
    let tagged = Header {
        dl_vlan: 101,
        ..BLANK
    };
    let marked = Header {
        dl_dst: 0x024d4f4e4f00,
        ..BLANK
    };
    let _ = table.put(sending(alloc, Match::normal(0x003820fd, tagged), 65535, &[0xfffd])?)?;
    let _ = table.put(sending(alloc, Match::normal(0x003820f7, marked), 65534, &[])?)?;
    Ok(table)
}

/// Updates of the rule for 10.0.0.0/24.
#[derive(Clone, Copy, Debug)]
enum Update {
    /// It outputs to port 2 and is put, watched or cut.
    Put,
    Watch,
    Cut,
    /// It outputs to port 2 in place of the ports 1 to 3.
    Narrowed,
    /// It outputs to port 1 in place of port 2.
    Moved,
    /// It drops packets.
    Dropping,
}

/// The rule that is put, watched or cut.
fn rule_of(alloc: Global, update: Update) -> Result<Rule, OutOfMemory> {
    match update {
        Update::Put | Update::Watch | Update::Cut | Update::Narrowed => to_24(alloc, &[2]),
        Update::Moved => to_24(alloc, &[1]),
        Update::Dropping => to_24(alloc, &[]),
    }
}

fn target(alloc: Global, update: Update) -> Result<Target, OutOfMemory> {
    let rule = rule_of(alloc, update)?;
    match update {
        Update::Put | Update::Dropping => Ok(Target::Put { rule, old: None }),
        Update::Watch => Ok(Target::Watch { rule }),
        Update::Cut => Ok(Target::Cut { rule }),
        Update::Narrowed => with_old(alloc, rule, &[1, 2, 3]),
        Update::Moved => with_old(alloc, rule, &[2]),
    }
}

fn with_old(alloc: Global, rule: Rule, ports: &[u16]) -> Result<Target, OutOfMemory> {
    let old = Some(to_24(alloc, ports)?);
    Ok(Target::Put { rule, old })
}

/// The catching rules, the rule where it wasn't cut, and a lower rule that outputs to port 2 where one is asked
/// for.
fn table_after(alloc: Global, update: Update, lower: bool) -> Result<Table, OutOfMemory> {
    let mut table = catching(alloc)?;
    if !matches!(update, Update::Cut) {
        let _ = table.put(rule_of(alloc, update)?)?;
    }
    if lower {
        let _ = table.put(wide(alloc)?)?;
    }
    Ok(table)
}

/// Whether the header and the emission separate, in the view with this miss length.
fn does_separate(
    alloc: Global,
    miss: u16,
    table: &Table,
    update: Update,
    h: &Header,
    e: &Emission,
) -> Result<bool, OutOfMemory> {
    let x = target(alloc, update)?;
    let v = view(alloc, miss)?;
    Ok(separates(&v, table, &x, h, e))
}

#[test]
fn packets_separate_as_worked_out(rt: HostRuntime) -> Result<(), Fail> {
    let alloc = rt.alloc();
    let back = Header {
        in_port: 2,
        ..PACKET
    };
    let (by_2, miss) = (Emission::Port(2, PACKET), Emission::Miss(PACKET));
    let (back_1, back_2) = (Emission::Port(1, back), Emission::Port(2, back));
    for (update, lower, miss_length, h, e, wanted) in [
        (Update::Put, false, 128, PACKET, by_2, true),
        (Update::Put, false, 128, back, back_2, false),
        (Update::Put, true, 128, PACKET, by_2, false),
        (Update::Watch, false, 128, PACKET, by_2, true),
        (Update::Cut, false, 128, PACKET, miss, true),
        (Update::Cut, false, 127, PACKET, miss, false),
        (Update::Cut, true, 128, PACKET, by_2, false),
        (Update::Narrowed, false, 128, PACKET, by_2, false),
        (Update::Moved, false, 128, back, back_1, true),
        (Update::Dropping, false, 128, PACKET, by_2, false),
        (Update::Dropping, false, 128, PACKET, miss, false),
    ] {
        let table = table_after(alloc, update, lower)?;
        let answer = does_separate(alloc, miss_length, &table, update, &h, &e)?;
        assert!(rt; answer == wanted, "{update:?} {lower} {miss_length}");
    }
    Ok(())
}

/// Two rules of the priority 100, from 10.0.0.0/8 and to 10.0.0.0/8.
fn from_8(alloc: Global) -> Result<Rule, OutOfMemory> {
    ipv4(alloc, 0x003818ef, 0x0a000000, 0, 100)
}

fn to_8(alloc: Global) -> Result<Rule, OutOfMemory> {
    ipv4(alloc, 0x003620ef, 0, 0x0a000000, 100)
}

fn is_shown(alloc: Global, table: &Table, h: &Header) -> Result<bool, OutOfMemory> {
    let x = Target::Put {
        rule: from_8(alloc)?,
        old: None,
    };
    let v = view(alloc, 128)?;
    Ok(separates(&v, table, &x, h, &Emission::Port(2, *h)))
}

#[test]
fn tied_rules_are_never_sure(rt: HostRuntime) -> Result<(), Fail> {
    let alloc = rt.alloc();
    let mut table = catching(alloc)?;
    let _ = table.put(from_8(alloc)?)?;
    let h = Header {
        nw_src: 0x0a000001,
        ..PACKET
    };
    assert!(rt; is_shown(alloc, &table, &h)?);
    assert!(rt; table.tied(&to_8(alloc)?));
    let _ = table.put(to_8(alloc)?)?;
    assert!(rt; table.tied(&to_8(alloc)?));
    assert!(rt; !is_shown(alloc, &table, &h)?);
    Ok(())
}

/// The catching rules, and two for all IPv4 packets, of the priorities 50 and 10: each with its port, and whether it is
/// unsure.
fn over(alloc: Global, high: (u16, bool), low: (u16, bool)) -> Result<Table, OutOfMemory> {
    let mut table = catching(alloc)?;
    for (priority, port, unsure) in [(50, high.0, high.1), (10, low.0, low.1)] {
        let mut rule = sending(alloc, Match::normal(0x003820ef, IPV4), priority, &[port])?;
        rule.unsure = unsure;
        let _ = table.put(rule)?;
    }
    Ok(table)
}

/// Whether a put of the rule for 10.0.0.0/24, which may be unsure, is shown over these two.
fn shows_put(
    alloc: Global,
    unsure: bool,
    high: (u16, bool),
    low: (u16, bool),
) -> Result<bool, OutOfMemory> {
    let mut rule = to_24(alloc, &[2])?;
    rule.unsure = unsure;
    let mut table = over(alloc, high, low)?;
    let _ = table.put(rule.copied(alloc)?)?;
    let x = Target::Put { rule, old: None };
    let v = view(alloc, 128)?;
    Ok(separates(&v, &table, &x, &PACKET, &Emission::Port(2, PACKET)))
}

#[test]
fn what_may_be_gone_hides_nothing(rt: HostRuntime) -> Result<(), Fail> {
    let alloc = rt.alloc();
    for (unsure, high, low, wanted) in [
        (false, (1, false), (2, false), true),
        (true, (1, false), (2, false), true),
        // The lower one shows where the higher one is gone.
        (false, (1, true), (2, false), false),
        (false, (1, true), (1, true), true),
        (false, (2, true), (1, false), false),
    ] {
        assert!(rt;
            shows_put(alloc, unsure, high, low)? == wanted,
            "{unsure} {high:?} {low:?}"
        );
    }
    Ok(())
}

/// Whether the cut of the rule for 10.0.0.0/24 is shown by a miss, or a put of it over one with the same actions by its
/// own emission.
fn shows_change(alloc: Global, cut: bool, unsure: bool) -> Result<bool, OutOfMemory> {
    let mut old = to_24(alloc, &[2])?;
    old.unsure = unsure;
    let mut table = catching(alloc)?;
    let v = view(alloc, 128)?;
    if cut {
        let x = Target::Cut { rule: old };
        return Ok(separates(&v, &table, &x, &PACKET, &Emission::Miss(PACKET)));
    }
    let rule = to_24(alloc, &[2])?;
    let _ = table.put(rule.copied(alloc)?)?;
    let x = Target::Put {
        rule,
        old: Some(old),
    };
    Ok(separates(&v, &table, &x, &PACKET, &Emission::Port(2, PACKET)))
}

#[test]
fn what_looks_like_vanishing_is_not_shown(rt: HostRuntime) -> Result<(), Fail> {
    let alloc = rt.alloc();
    assert!(rt; shows_change(alloc, true, false)?);
    assert!(rt; !shows_change(alloc, true, true)?);
    assert!(rt; !shows_change(alloc, false, false)?);
    assert!(rt; !shows_change(alloc, false, true)?);
    Ok(())
}

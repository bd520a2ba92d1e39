//! Tables whose order and lookups were worked out by hand.

use crate::edit::Edit;
use crate::rule::Rule;
use crate::table::Table;
use mon_header::{Action, Actions, BLANK, DATAGRAM, Header, Match, OutOfMemory};
use std::alloc::Global;
use std::test::Fail;

fn exact() -> Match {
    Match::normal(0, DATAGRAM)
}

/// All packets that come in at this port.
fn from_port(wildcards: u32, in_port: u16) -> Match {
    Match::normal(wildcards, Header { in_port, ..BLANK })
}

fn port_1() -> Match {
    from_port(0x003820fe, 1)
}

/// IPv4 with this source and this destination, of which some low bits are ignored.
fn ipv4(wildcards: u32, nw_src: u32, nw_dst: u32) -> Match {
    Match::normal(
        wildcards,
        Header {
            dl_type: 0x0800,
            nw_src,
            nw_dst,
            ..BLANK
        },
    )
}

fn to_24() -> Match {
    ipv4(0x003220ef, 0, 0x0a000000)
}

fn to_8() -> Match {
    ipv4(0x003620ef, 0, 0x0a000000)
}

fn from_8() -> Match {
    ipv4(0x003818ef, 0x0a000000, 0)
}

fn any_ipv4() -> Match {
    ipv4(0x003820ef, 0, 0)
}

/// A rule that outputs to a port.
fn rule(alloc: Global, matching: Match, priority: u16, port: u16) -> Result<Rule, OutOfMemory> {
    let mut actions = Actions::new(alloc);
    actions.push(Action::Output { port, max_len: 0 })?;
    Ok(Rule {
        matching,
        priority,
        actions,
        unsure: false,
    })
}

/// Six rules, put in the order of the numbers that are given; the first is to stand first.
fn table(alloc: Global, order: &[u8]) -> Result<Table, OutOfMemory> {
    let mut table = Table::new(alloc);
    for number in order {
        let new = match *number {
            0 => rule(alloc, exact(), 0, 2)?,
            1 => rule(alloc, port_1(), 65000, 2)?,
            2 => rule(alloc, to_24(), 100, 2)?,
            3 => rule(alloc, to_8(), 100, 2)?,
            4 => rule(alloc, from_8(), 100, 2)?,
            _ => rule(alloc, any_ipv4(), 50, 2)?,
        };
        let _ = table.put(new)?;
    }
    Ok(table)
}

/// The port of a rule's only output.
fn output(rule: &Rule) -> u16 {
    match rule.actions.items() {
        [Action::Output { port, .. }] => *port,
        _ => 0,
    }
}

#[test]
fn rules_stand_in_table_order_in_whatever_order_they_come(rt: HostRuntime) -> Result<(), Fail> {
    let places = [
        (exact(), 0),
        (port_1(), 65000),
        (to_24(), 100),
        (to_8(), 100),
        (from_8(), 100),
        (any_ipv4(), 50),
    ];
    for order in [[0, 1, 2, 3, 4, 5], [5, 4, 3, 2, 1, 0], [3, 5, 0, 4, 1, 2]] {
        let table = table(rt.alloc(), &order)?;
        assert_eq!(rt; table.len(), 6);
        for (place, (m, priority)) in places.iter().enumerate() {
            assert_eq!(rt;
                table.place(m, *priority),
                Some(place as u32),
                "place {place}"
            );
        }
        assert_eq!(rt; table.place(&to_24(), 99), None);
        // Without wildcards the priority field does not count.
        assert_eq!(rt; table.place(&exact(), 7), Some(0));
    }
    Ok(())
}

#[test]
fn lookups_give_all_that_they_name(rt: HostRuntime) -> Result<(), Fail> {
    let alloc = rt.alloc();
    let mut table = table(alloc, &[5, 1, 3, 0, 2, 4])?;
    assert_eq!(rt;
        table.named(alloc, &any_ipv4())?.as_slice(),
        [0, 2, 3, 4, 5].as_slice()
    );
    assert_eq!(rt;
        table.slice(alloc, &ipv4(0x003220ef, 0, 0xc0000200))?.len(),
        3
    );
    assert!(rt; table.tied(&rule(alloc, from_8(), 100, 2)?));
    assert!(rt; table.tied(&rule(alloc, to_8(), 100, 2)?));
    assert!(rt; !table.tied(&rule(alloc, to_8(), 50000, 2)?));
    assert!(rt; !table.tied(&rule(alloc, any_ipv4(), 50, 2)?));
    // The entry without wildcards wins, whatever its priority field; then the higher one; then all three alike.
    assert_eq!(rt; table.winners(alloc, &DATAGRAM)?.as_slice(), [0].as_slice());
    assert!(rt; table.cut(&exact(), 9)?.is_some());
    assert_eq!(rt; table.winners(alloc, &DATAGRAM)?.as_slice(), [0].as_slice());
    assert!(rt; table.cut(&port_1(), 65000)?.is_some());
    assert_eq!(rt;
        table.winners(alloc, &DATAGRAM)?.as_slice(),
        [0, 1, 2].as_slice()
    );
    assert_eq!(rt; table.winners(alloc, &BLANK)?.len(), 0);
    Ok(())
}

#[test]
fn edits_give_what_stood_there(rt: HostRuntime) -> Result<(), Fail> {
    let alloc = rt.alloc();
    let mut table = Table::new(alloc);
    assert!(rt; table.put(rule(alloc, to_24(), 100, 2)?)?.is_none());
    assert!(rt; table.put(rule(alloc, to_24(), 99, 3)?)?.is_none());
    let Some(old) = table.put(rule(alloc, to_24(), 100, 1)?)? else {
        return Err(Fail::new("no old rule"));
    };
    assert_eq!(rt; output(&old), 2);
    assert_eq!(rt; table.len(), 2);
    if table.len() == 2 {
        assert_eq!(rt; output(table.rule(0)), 1);
        assert_eq!(rt; output(table.rule(1)), 3);
    }
    let Some(old) = table.cut(&to_24(), 100)? else {
        return Err(Fail::new("no rule to cut"));
    };
    assert_eq!(rt; output(&old), 1);
    assert_eq!(rt; output(Edit::Cut { rule: old }.rule()), 1);
    assert!(rt; table.cut(&to_24(), 100)?.is_none());
    assert_eq!(rt; table.len(), 1);
    Ok(())
}

/// A rule that a timeout may take.
fn unsure(alloc: Global, matching: Match, priority: u16) -> Result<Rule, OutOfMemory> {
    let mut rule = rule(alloc, matching, priority, 2)?;
    rule.unsure = true;
    Ok(rule)
}

#[test]
fn unsure_rules_hide_nothing(rt: HostRuntime) -> Result<(), Fail> {
    let alloc = rt.alloc();
    let mut table = Table::new(alloc);
    assert!(rt; table.may_miss(&DATAGRAM));
    let _ = table.put(unsure(alloc, port_1(), 200)?)?;
    let _ = table.put(unsure(alloc, to_24(), 100)?)?;
    let _ = table.put(rule(alloc, to_8(), 100, 2)?)?;
    let _ = table.put(rule(alloc, any_ipv4(), 50, 2)?)?;
    // Both unsure rules may be gone, and the sure one of priority 100 hides the last.
    assert_eq!(rt;
        table.winners(alloc, &DATAGRAM)?.as_slice(),
        [0, 1, 2].as_slice()
    );
    assert!(rt; table.cut(&to_8(), 100)?.is_some());
    assert_eq!(rt;
        table.winners(alloc, &DATAGRAM)?.as_slice(),
        [0, 1, 2].as_slice()
    );
    assert!(rt; !table.may_miss(&DATAGRAM));
    assert!(rt; table.cut(&any_ipv4(), 50)?.is_some());
    assert_eq!(rt;
        table.winners(alloc, &DATAGRAM)?.as_slice(),
        [0, 1].as_slice()
    );
    assert!(rt; table.may_miss(&DATAGRAM));
    Ok(())
}

/// The match of the packets that come in at a port.
fn numbered(number: u16) -> Match {
    from_port(0x003820fe, number)
}

/// A table of 300 rules of one priority, each put behind the last or before it, or a step away.
fn filled(alloc: Global, step: u16) -> Result<Table, OutOfMemory> {
    let mut table = Table::new(alloc);
    for turn in 0..300_u16 {
        let number = (u32::from(turn) * u32::from(step) % 300) as u16;
        let _ = table.put(rule(alloc, numbered(number), 100, 2)?)?;
    }
    Ok(table)
}

/// Whether each rule of the table stands at the place of its number.
fn stands_by_number(table: &Table) -> bool {
    for number in 0..300_u16 {
        if table.place(&numbered(number), 100) != Some(u32::from(number)) {
            return false;
        }
    }
    true
}

#[test]
fn many_rules_stand_in_order_however_they_come(rt: HostRuntime) -> Result<(), Fail> {
    let alloc = rt.alloc();
    // Rising, falling and shuffled.
    for step in [1, 299, 7] {
        let mut table = filled(alloc, step)?;
        assert_eq!(rt; table.len(), 300);
        assert!(rt; stands_by_number(&table));
        assert_eq!(rt; table.slice(alloc, &numbered(77))?.len(), 1);
        for number in 1..300_u16 {
            assert!(rt; table.cut(&numbered(number), 100)?.is_some());
        }
        assert_eq!(rt; table.len(), 1);
    }
    Ok(())
}

#[test]
fn a_slice_keeps_its_rules_when_the_table_changes(rt: HostRuntime) -> Result<(), Fail> {
    let alloc = rt.alloc();
    let mut table = filled(alloc, 1)?;
    let part = table.slice(alloc, &from_port(0x003820ff, 0))?;
    assert!(rt; table.cut(&numbered(5), 100)?.is_some());
    let _ = table.put(rule(alloc, numbered(6), 100, 9)?)?;
    assert_eq!(rt; part.len(), 300);
    assert!(rt; stands_by_number(&part));
    Ok(())
}

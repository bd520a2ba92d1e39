//! FLOW_MODs through a replay, with the bytes written by hand.

use crate::tests::replays;
use std::alloc::Global;
use std::test::Fail;
use std::thread::Threads;

/// The match of IPv4 packets to 10.0.0.0/24.
const TO_24: &str =
    "003220ef 0000 000000000000 000000000000 0000 00 00 0800 00 00 0000 00000000 0a000000 0000 0000";

/// IPv4 packets from 10.0.0.0/8.
const FROM_8: &str =
    "003818ef 0000 000000000000 000000000000 0000 00 00 0800 00 00 0000 0a000000 00000000 0000 0000";

/// IPv4 packets to 10.0.0.0/8.
const TO_8: &str =
    "003620ef 0000 000000000000 000000000000 0000 00 00 0800 00 00 0000 00000000 0a000000 0000 0000";

/// All IPv4 packets.
const IPV4: &str =
    "003820ef 0000 000000000000 000000000000 0000 00 00 0800 00 00 0000 00000000 00000000 0000 0000";

/// All packets.
const ALL: &str =
    "003820ff 0000 000000000000 000000000000 0000 00 00 0000 00 00 0000 00000000 00000000 0000 0000";

/// A FLOW_MOD: the eight bytes of its header, its match, its fields up to its 64th byte, and the rest.
type FlowMod = (&'static str, &'static str, &'static str, &'static str);

/// An ADD for `TO_24` at priority 100, with an OUTPUT to port 2.
const ADD: FlowMod = (
    "010e005000000011",
    TO_24,
    "0000000000000000 0000 0000 0000 0064",
    "ffffffff ffff 0000 0000000800020000",
);

/// An ADD for `IPV4` at priority 50, with an OUTPUT to port 1.
const LOW_ADD: FlowMod = (
    "010e005000000012",
    IPV4,
    "0000000000000000 0000 0000 0000 0032",
    "ffffffff ffff 0000 0000000800010000",
);

/// Adds a text without its spaces.
fn push_digits(text: &mut String, digits: &str) -> Result<(), Fail> {
    for field in digits.split_ascii_whitespace() {
        text.push_str(field)?;
    }
    Ok(())
}

/// Adds a line that begins with a text and goes on with the digits of a FLOW_MOD.
fn push_line(text: &mut String, start: &str, flow_mod: &FlowMod) -> Result<(), Fail> {
    let (header, matching, fields, rest) = *flow_mod;
    text.push_str(start)?;
    push_digits(text, header)?;
    push_digits(text, matching)?;
    push_digits(text, fields)?;
    push_digits(text, rest)?;
    text.push_str("\n")?;
    Ok(())
}

/// Records in which the controller sends these FLOW_MODs. The first is record 2.
fn records_of(alloc: Global, sent: &[FlowMod]) -> Result<String, Fail> {
    let mut records = String::from_str(alloc, "open\n")?;
    for flow_mod in sent {
        push_line(&mut records, "from controller 0 ", flow_mod)?;
    }
    Ok(records)
}

/// The lines of the frames that are put, each with its start, and those of the table, each with its priority, match and
/// actions.
fn lines_of(
    alloc: Global,
    put: &[(&str, FlowMod)],
    table: &[(&str, &str, &str)],
) -> Result<String, Fail> {
    let mut lines = String::new(alloc);
    for (start, flow_mod) in put {
        push_line(&mut lines, start, flow_mod)?;
    }
    for (priority, matching, actions) in table {
        lines.push_str("table 0 ")?;
        lines.push_str(priority)?;
        lines.push_str(" ")?;
        push_digits(&mut lines, matching)?;
        lines.push_str(" ")?;
        lines.push_str(actions)?;
        lines.push_str("\n")?;
    }
    Ok(lines)
}

/// FLOW_MODs that the controller sends, the frames that are put, and the table at the end.
type Row = (
    &'static [FlowMod],
    &'static [(&'static str, FlowMod)],
    &'static [(&'static str, &'static str, &'static str)],
);

/// Whether a replay of these FLOW_MODs writes these lines.
fn is_written<R: Threads + Sync>(rt: &R, alloc: Global, row: &Row) -> Result<bool, Fail> {
    let (sent, put, table) = *row;
    let records = records_of(alloc, sent)?;
    let lines = lines_of(alloc, put, table)?;
    replays(rt, alloc, records.as_str(), lines.as_str())
}

const DELETE_ALL: FlowMod = (
    "010e004800000011",
    ALL,
    "0000000000000000 0003 0000 0000 8000",
    "ffffffff ffff 0000",
);

const DELETE_ADDED: FlowMod = (
    "010e004800000011",
    TO_24,
    "0000000000000000 0004 0000 0000 0064",
    "ffffffff ffff 0000",
);

const DELETE_TO_PORT_1: FlowMod = (
    "010e004800000017",
    ALL,
    "0000000000000000 0003 0000 0000 0000",
    "ffffffff 0001 0000",
);

const DELETE_LOW: FlowMod = (
    "010e004800000017",
    IPV4,
    "0000000000000000 0004 0000 0000 0032",
    "ffffffff ffff 0000",
);

/// An ADD to the emergency table.
const EMERGENCY: FlowMod = (
    "010e005000000011",
    TO_24,
    "0000000000000000 0000 0000 0000 0064",
    "ffffffff ffff 0004 0000000800020000",
);

/// A frame that is too short to be one.
const FAULTY: FlowMod = ("0100000700000001", "", "", "");

const NOTHING: FlowMod = ("", "", "", "");

/// An entry that is left has a line; a deletion goes on as one frame for each entry; it looks at the port that it names;
/// the emergency table isn't followed; a session that ended has no lines.
const PASSED: [Row; 5] = [
    (
        &[ADD],
        &[("2 put 0 switch ", ADD)],
        &[("100", TO_24, "0000000800020000")],
    ),
    (
        &[ADD, DELETE_ALL],
        &[("2 put 0 switch ", ADD), ("3 put 0 switch ", DELETE_ADDED)],
        &[],
    ),
    (
        &[LOW_ADD, ADD, DELETE_TO_PORT_1],
        &[
            ("2 put 0 switch ", LOW_ADD),
            ("3 put 0 switch ", ADD),
            ("4 put 0 switch ", DELETE_LOW),
        ],
        &[("100", TO_24, "0000000800020000")],
    ),
    (&[EMERGENCY], &[("2 put 0 switch ", EMERGENCY)], &[]),
    (
        &[ADD, FAULTY, ADD],
        &[("2 put 0 switch ", ADD), ("3 end 0", NOTHING)],
        &[],
    ),
];

#[test]
fn edits_go_on_and_are_followed(rt: HostRuntime) -> Result<(), Fail> {
    for (number, row) in PASSED.iter().enumerate() {
        assert!(rt; is_written(&rt, rt.alloc(), row)?, "at {number}");
    }
    Ok(())
}

/// A modification of `TO_24` that names nothing. Its cookie, buffer and flags are kept, its out_port is not.
const MODIFY: FlowMod = (
    "010e005000000015",
    TO_24,
    "0000000000000007 0001 0000 0000 0064",
    "00000009 0002 0001 0000000800010000",
);

const ADDED: FlowMod = (
    "010e005000000015",
    TO_24,
    "0000000000000007 0000 0000 0000 0064",
    "00000009 ffff 0001 0000000800010000",
);

/// To port 3, with a buffered packet.
const MODIFY_IPV4: FlowMod = (
    "010e005000000016",
    IPV4,
    "0000000000000000 0001 0000 0000 8000",
    "00000009 ffff 0000 0000000800030000",
);

const OF_HIGH: FlowMod = (
    "010e005000000016",
    TO_24,
    "0000000000000000 0002 0000 0000 0064",
    "00000009 ffff 0000 0000000800030000",
);

const OF_LOW: FlowMod = (
    "010e005000000016",
    IPV4,
    "0000000000000000 0002 0000 0000 0032",
    "ffffffff ffff 0000 0000000800030000",
);

/// An ADD with an idle timeout, and the same with SEND_FLOW_REM.
const TIMED: FlowMod = (
    "010e005000000011",
    TO_24,
    "0000000000000000 0000 000a 0000 0064",
    "ffffffff ffff 0000 0000000800020000",
);

const ASKED: FlowMod = (
    "010e005000000011",
    TO_24,
    "0000000000000000 0000 000a 0000 0064",
    "ffffffff ffff 0001 0000000800020000",
);

/// A modification that names nothing adds its rule; one goes to each entry that it covers. An entry with a timeout is
/// asked for, and marked.
const MODIFIED: [Row; 3] = [
    (
        &[TIMED],
        &[("2 put 0 switch ", ASKED)],
        &[("100", TO_24, "0000000800020000 unsure")],
    ),
    (
        &[MODIFY],
        &[("2 put 0 switch ", ADDED)],
        &[("100", TO_24, "0000000800010000")],
    ),
    (
        &[LOW_ADD, ADD, MODIFY_IPV4],
        &[
            ("2 put 0 switch ", LOW_ADD),
            ("3 put 0 switch ", ADD),
            ("4 put 0 switch ", OF_HIGH),
            ("4 put 0 switch ", OF_LOW),
        ],
        &[
            ("100", TO_24, "0000000800030000"),
            ("50", IPV4, "0000000800030000"),
        ],
    ),
];

#[test]
fn modifications_add_or_change(rt: HostRuntime) -> Result<(), Fail> {
    for (number, row) in MODIFIED.iter().enumerate() {
        assert!(rt; is_written(&rt, rt.alloc(), row)?, "at {number}");
    }
    Ok(())
}

/// Causes, and FLOW_MODs for `TO_24` that are answered by an ERROR: one of 71 bytes, a command that is none, an action of
/// four bytes, and one whose actions are of 520 bytes.
const REFUSED: [(&str, &str, &str, &str, u32); 4] = [
    (
        "00010006",
        "010e004700000011",
        "0000000000000000 0000 0000 0000 0064",
        "ffffffff ffff 00",
        0,
    ),
    (
        "00030004",
        "010e005000000011",
        "0000000000000000 0005 0000 0000 0064",
        "ffffffff ffff 0000",
        1,
    ),
    (
        "00020001",
        "010e005000000011",
        "0000000000000000 0000 0000 0000 0064",
        "ffffffff ffff 0000 0000000400020000",
        0,
    ),
    (
        "00030002",
        "010e025000000011",
        "0000000000000000 0000 0000 0000 0064",
        "ffffffff ffff 0000",
        65,
    ),
];

/// Whether a FLOW_MOD for `TO_24` with this header, these fields, this rest and so many OUTPUT actions behind it is
/// answered by an ERROR of this type and code alone.
fn is_refused<R: Threads + Sync>(
    rt: &R,
    alloc: Global,
    cause: &str,
    header: &str,
    fields: &str,
    rest: &str,
    actions: u32,
) -> Result<bool, Fail> {
    let mut kept = String::new(alloc);
    push_digits(&mut kept, header)?;
    push_digits(&mut kept, TO_24)?;
    push_digits(&mut kept, fields)?;
    let mut records = format!(in alloc; "open\nfrom controller 0 {kept}")?;
    push_digits(&mut records, rest)?;
    for _ in 0..actions {
        records.push_str("0000000800020000")?;
    }
    records.push_str("\n")?;
    let line = format!(in alloc; "2 put 0 controller 0101004c00000011{cause}{kept}\n")?;
    replays(rt, alloc, records.as_str(), line.as_str())
}

#[test]
fn what_cannot_be_followed_is_answered_by_an_error(rt: HostRuntime) -> Result<(), Fail> {
    for (cause, header, fields, rest, actions) in REFUSED {
        assert!(rt;
            is_refused(&rt, rt.alloc(), cause, header, fields, rest, actions)?,
            "at {cause}"
        );
    }
    Ok(())
}

const ADD_FROM_8: FlowMod = (
    "010e005000000011",
    FROM_8,
    "0000000000000000 0000 0000 0000 0064",
    "ffffffff ffff 0000 0000000800020000",
);

/// It asks that no entry of its priority overlaps it.
const ADD_TO_8: FlowMod = (
    "010e005000000011",
    TO_8,
    "0000000000000000 0000 0000 0000 0064",
    "ffffffff ffff 0002 0000000800020000",
);

const OVERLAP: FlowMod = (
    "0101004c00000011 0003 0001 010e005000000011",
    TO_8,
    "0000000000000000 0000 0000 0000 0064",
    "",
);

const OVERLAPPING: Row = (
    &[ADD_FROM_8, ADD_TO_8],
    &[
        ("2 put 0 switch ", ADD_FROM_8),
        ("3 put 0 controller ", OVERLAP),
    ],
    &[("100", FROM_8, "0000000800020000")],
);

#[test]
fn an_overlap_is_refused_where_it_is_asked_for(rt: HostRuntime) -> Result<(), Fail> {
    assert!(rt; is_written(&rt, rt.alloc(), &OVERLAPPING)?);
    Ok(())
}

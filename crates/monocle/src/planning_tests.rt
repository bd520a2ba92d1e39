//! Plans and checks over a desk in memory.

use crate::runs::{Failing, ends, files_of, writes};
use std::alloc::Global;
use std::test::Fail;
use std::thread::Threads;

/// Switch 1 with the tag 100, and links at the ports 1 and 2 to switches of the tag 101.
const SWITCH: &str =
    "monocle-table 1\nswitch 0000000000000001 100\ntags 100 101\nmiss 128\nlink 1 0000000000000002 1 101\nlink 2 0000000000000003 1 101\n";

/// IPv4 packets to 10.0.0.0/24 go to port 2.
const TO_24: &str =
    "rule 100 003220ef000000000000000000000000000000000000080000000000000000000a00000000000000 0000000800020000\n";

/// So do all IPv4 packets, at a lower priority.
const IPV4: &str =
    "rule 50 003820ef000000000000000000000000000000000000080000000000000000000000000000000000 0000000800020000\n";

/// Packets from 10.0.0.0/8, and those to it, go to port 2 at one priority.
const FROM_8: &str =
    "rule 100 003818ef0000000000000000000000000000000000000800000000000a0000000000000000000000 0000000800020000\n";

const TO_8: &str =
    "rule 100 003620ef000000000000000000000000000000000000080000000000000000000a00000000000000 0000000800020000\n";

/// What is said of two tied rules.
const TIES: &str = "monocle-certificates 1\nrules 2\noverlap 0\noverlap 1\n";

/// A text of several lines.
fn joined(alloc: Global, lines: &[&str]) -> Result<String, Fail> {
    let mut text = String::new(alloc);
    for line in lines {
        text.push_str(line)?;
    }
    Ok(text)
}

/// Words, the lines of a table, certificates, what fails, and the status, and what is written and said.
type Row = (
    &'static str,
    &'static [&'static str],
    &'static str,
    Failing,
    u8,
    &'static str,
    &'static str,
);

/// Whether a run over this table and these certificates ends with this status, and writes and says this alone.
fn ends_so<R: Threads + Sync>(rt: &R, alloc: Global, row: &Row) -> Result<bool, Fail> {
    let (words, table, certificates, failing, status, written, said) = *row;
    let table = joined(alloc, table)?;
    let other = "one.certificates";
    let files = files_of(alloc, "one.table", table.as_str(), other, certificates)?;
    ends(rt, alloc, words, files, failing, status, written, said)
}

/// Whether all runs end so.
fn all_end_so<R: Threads + Sync>(rt: &R, alloc: Global, rows: &[Row]) -> Result<bool, Fail> {
    for row in rows {
        if !ends_so(rt, alloc, row)? {
            return Ok(false);
        }
    }
    Ok(true)
}

const CHECK: &str = "check one.table one.certificates";

const PLAN: &str = "plan one.table";

const PLAN_CERTIFICATES: &str = "plan one.table --certificates";

/// A probe of the first rule at port 1, and the same with one bit of its header turned.
const PROBE: &str =
    "monocle-certificates 1\nrules 1\nprobe 0 000100000000000000000000000000640008000006000000000a00000100000000 port 2 000100000000000000000000000000640008000006000000000a00000100000000\n";

const TURNED: &str =
    "monocle-certificates 1\nrules 1\nprobe 0 000100000000000000000000000000640008000006000000000a00010100000000 port 2 000100000000000000000000000000640008000006000000000a00000100000000\n";

/// The same switch in a file of the second version, in which a rule may be unsure.
const SWITCH_2: &str =
    "monocle-table 2\nswitch 0000000000000001 100\ntags 100 101\nmiss 128\nlink 1 0000000000000002 1 101\nlink 2 0000000000000003 1 101\n";

/// All IPv4 packets go to port 1, above and below the rule for 10.0.0.0/24, by rules that may be gone.
const ABOVE: &str =
    "rule 200 003820ef000000000000000000000000000000000000080000000000000000000000000000000000 0000000800010000 unsure\n";

const BELOW: &str =
    "rule 50 003820ef000000000000000000000000000000000000080000000000000000000000000000000000 0000000800010000 unsure\n";

/// All IPv4 packets go to port 2, below all others.
const LOWEST: &str =
    "rule 10 003820ef000000000000000000000000000000000000080000000000000000000000000000000000 0000000800020000\n";

/// ARP packets go to port 2.
const ARP: &str =
    "rule 100 003820ef000000000000000000000000000000000000080600000000000000000000000000000000 0000000800020000\n";

/// Generated rules; one that does the same as a lower one; ties; a lower rule that may be gone, so that a still lower one
/// does the same as the first, and is never alone; a higher one that may be gone, so that the lower is never alone; and a
/// rule for ARP.
const PLANS: [Row; 6] = [
    (
        "plan --generate 4 --seed 7",
        &[],
        "",
        Failing::Nothing,
        0,
        "rules 4\nprobes 2\nindistinguishable 2\noverlap 0\n",
        "",
    ),
    (
        "plan one.table --workers=8",
        &[SWITCH, TO_24, IPV4],
        "",
        Failing::Nothing,
        0,
        "rules 2\nprobes 1\nindistinguishable 1\noverlap 0\n",
        "",
    ),
    (
        PLAN_CERTIFICATES,
        &[SWITCH, FROM_8, TO_8],
        "",
        Failing::Nothing,
        0,
        TIES,
        "",
    ),
    (
        PLAN,
        &[SWITCH_2, TO_24, BELOW, LOWEST],
        "",
        Failing::Nothing,
        0,
        "rules 3\nprobes 1\nindistinguishable 2\noverlap 0\n",
        "",
    ),
    (
        PLAN,
        &[SWITCH_2, ABOVE, TO_24],
        "",
        Failing::Nothing,
        0,
        "rules 2\nprobes 1\nindistinguishable 1\noverlap 0\n",
        "",
    ),
    (
        PLAN,
        &[SWITCH, ARP],
        "",
        Failing::Nothing,
        0,
        "rules 1\nprobes 1\nindistinguishable 0\noverlap 0\n",
        "",
    ),
];

const CHECKS: [Row; 4] = [
    (
        CHECK,
        &[SWITCH, FROM_8, TO_8],
        TIES,
        Failing::Nothing,
        0,
        "accepted 2\n",
        "",
    ),
    (
        CHECK,
        &[SWITCH, TO_24, IPV4],
        TIES,
        Failing::Nothing,
        1,
        "refused 0\n",
        "",
    ),
    (
        CHECK,
        &[SWITCH, TO_24],
        PROBE,
        Failing::Nothing,
        0,
        "accepted 1\n",
        "",
    ),
    (
        CHECK,
        &[SWITCH, TO_24],
        TURNED,
        Failing::Nothing,
        1,
        "refused 0\n",
        "",
    ),
];

#[test]
fn tables_are_planned_and_certificates_checked(rt: HostRuntime) -> Result<(), Fail> {
    assert!(rt; all_end_so(&rt, rt.alloc(), &PLANS)?);
    assert!(rt; all_end_so(&rt, rt.alloc(), &CHECKS)?);
    Ok(())
}

#[test]
fn a_plan_is_accepted(rt: HostRuntime) -> Result<(), Fail> {
    let alloc = rt.alloc();
    let plan = writes(&rt, alloc, "plan --certificates --generate=20 --seed 7")?;
    let files = files_of(alloc, "one.table", "", "one.certificates", plan.as_str())?;
    let words = "check --generate 20 --seed=7 one.certificates";
    assert!(rt;
        ends(
            &rt,
            alloc,
            words,
            files,
            Failing::Nothing,
            0,
            "accepted 19\n",
            ""
        )?
    );
    Ok(())
}

/// A word of the second version in a file of the first.
const UNSURE: &str =
    "rule 50 003820ef000000000000000000000000000000000000080000000000000000000000000000000000 0000000800020000 unsure\n";

/// Certificates that break off; an unsure rule where there are none; a line without its end; two rules of one identity; a
/// tag that isn't listed; ports out of order; no certificates; and a table that is judged before the certificates are
/// read.
const OUT_OF_FORM: [Row; 9] = [
    (
        CHECK,
        &[SWITCH, FROM_8, TO_8],
        "monocle-certificates 1\nrules 2\noverlap 0\n",
        Failing::Nothing,
        5,
        "",
        "monocle: certificates: offset 41\n",
    ),
    (
        PLAN,
        &[SWITCH, TO_24, UNSURE],
        "",
        Failing::Nothing,
        5,
        "",
        "monocle: table: offset 233\n",
    ),
    (
        PLAN,
        &[SWITCH, TO_24, "rule 7"],
        "",
        Failing::Nothing,
        5,
        "",
        "monocle: table: offset 233\n",
    ),
    (
        PLAN,
        &[SWITCH, TO_24, TO_24],
        TIES,
        Failing::Nothing,
        5,
        "",
        "monocle: table: offset 233\n",
    ),
    (
        CHECK,
        &[SWITCH, TO_24, TO_24],
        TIES,
        Failing::Nothing,
        5,
        "",
        "monocle: table: offset 233\n",
    ),
    (
        CHECK,
        &[SWITCH, "link 3 0000000000000004 1 102\n"],
        TIES,
        Failing::Nothing,
        5,
        "",
        "monocle: table: offset 126\n",
    ),
    (
        PLAN,
        &[SWITCH, "link 1 0000000000000004 1 101\n"],
        TIES,
        Failing::Nothing,
        5,
        "",
        "monocle: table: offset 126\n",
    ),
    (
        CHECK,
        &[SWITCH, TO_24],
        "monocle-certificates 1\nrules 1\n",
        Failing::Nothing,
        5,
        "",
        "monocle: certificates: offset 31\n",
    ),
    (
        CHECK,
        &["monocle-table 1\n"],
        TIES,
        Failing::Read(1),
        5,
        "",
        "monocle: table: offset 16\n",
    ),
];

const UNWRITTEN: &str = "monocle: cannot write\n";

/// Two tied rules, of which a read or a write fails. A second write would fail.
const FAULTS: [Row; 7] = [
    (
        PLAN,
        &[SWITCH, FROM_8, TO_8],
        TIES,
        Failing::Read(0),
        3,
        "",
        "monocle: cannot read one.table\n",
    ),
    (
        CHECK,
        &[SWITCH, FROM_8, TO_8],
        TIES,
        Failing::Read(0),
        3,
        "",
        "monocle: cannot read one.table\n",
    ),
    (
        CHECK,
        &[SWITCH, FROM_8, TO_8],
        TIES,
        Failing::Read(1),
        3,
        "",
        "monocle: cannot read one.certificates\n",
    ),
    (
        CHECK,
        &[SWITCH, FROM_8, TO_8],
        TIES,
        Failing::Write(0),
        6,
        "",
        UNWRITTEN,
    ),
    (
        PLAN,
        &[SWITCH, FROM_8, TO_8],
        TIES,
        Failing::Write(0),
        6,
        "",
        UNWRITTEN,
    ),
    (
        PLAN_CERTIFICATES,
        &[SWITCH, FROM_8, TO_8],
        TIES,
        Failing::Write(0),
        6,
        "",
        UNWRITTEN,
    ),
    (
        CHECK,
        &[SWITCH, FROM_8, TO_8],
        TIES,
        Failing::Write(1),
        0,
        "accepted 2\n",
        "",
    ),
];

#[test]
fn what_is_out_of_form_and_what_fails_is_said(rt: HostRuntime) -> Result<(), Fail> {
    assert!(rt; all_end_so(&rt, rt.alloc(), &OUT_OF_FORM)?);
    assert!(rt; all_end_so(&rt, rt.alloc(), &FAULTS)?);
    Ok(())
}

//! Worked replays.

use crate::runs::{Failing, ends, files_of};
use mon_world::NamedFiles;
use std::alloc::Global;
use std::test::Fail;
use std::thread::Threads;

const REPLAY: &str = "replay settings.json one.trace";

/// Settings, and a trace with these records.
fn traced(alloc: Global, records: &str) -> Result<NamedFiles, Fail> {
    let trace = format!(in alloc; "monocle-trace 1 0000000000000001\n{records}")?;
    files_of(alloc, "settings.json", "{}", "one.trace", trace.as_str())
}

/// Whether a replay of these records writes this alone.
pub(crate) fn replays<R: Threads + Sync>(
    rt: &R,
    alloc: Global,
    records: &str,
    written: &str,
) -> Result<bool, Fail> {
    let files = traced(alloc, records)?;
    ends(rt, alloc, REPLAY, files, Failing::Nothing, 0, written, "")
}

/// Records of one frame, and its line.
const RECORDS: &str = "open\nfrom controller 0 0100000800000001\n";

const LINE: &str = "2 put 0 switch 0100000800000001\n";

/// Records and what is written of them: a faulty frame ends the session, and what comes later is ignored; then both
/// directions, a frame in two pieces, and frames before a fault in one piece; two sessions, of which one ends.
const REPLAYS: [(&str, &str); 5] = [
    ("", ""),
    (RECORDS, LINE),
    (
        "open\nfrom controller 0 0100000700000001\nfrom controller 0 0100000800000001\n",
        "2 end 0\n",
    ),
    (
        "open\nfrom switch 0 01000008000000\nfrom controller 0 0100000800000001\nfrom switch 0 02\nfrom switch 0 0102000800000003020200080000000401020008\n",
        "3 put 0 switch 0100000800000001\n4 put 0 controller 0100000800000002\n5 put 0 controller 0102000800000003\n5 end 0\n",
    ),
    (
        "open\nopen\nfrom controller 1 0100000800000001\nfrom switch 0 0100000700000001\nfrom controller 0 0100000800000002\nfrom controller 1 0100000800000003\n",
        "3 put 1 switch 0100000800000001\n4 end 0\n6 put 1 switch 0100000800000003\n",
    ),
];

#[test]
fn frames_are_passed_on_up_to_a_faulty_one(rt: HostRuntime) -> Result<(), Fail> {
    for (records, written) in REPLAYS {
        assert!(rt; replays(&rt, rt.alloc(), records, written)?, "at {records}");
    }
    Ok(())
}

/// Records in which the switch sends a frame of these digits, in pieces of 4096 bytes.
fn pieces_of(alloc: Global, digits: &str) -> Result<String, Fail> {
    let mut records = String::from_str(alloc, "open\n")?;
    for piece in digits.as_bytes().chunks(8192) {
        records.push_str("from switch 0 ")?;
        for digit in piece {
            records.push(char::from(*digit))?;
        }
        records.push_str("\n")?;
    }
    Ok(records)
}

#[test]
fn the_largest_frame_comes_with_its_last_byte(rt: HostRuntime) -> Result<(), Fail> {
    let alloc = rt.alloc();
    // a VENDOR frame of 65,535 bytes, in 15 pieces of 4096 bytes and one of 4095
    let mut digits = String::from_str(alloc, "0104ffff00000001")?;
    for _ in 0..65_527 {
        digits.push_str("5a")?;
    }
    let records = pieces_of(alloc, digits.as_str())?;
    let written = format!(in alloc; "17 put 0 controller {digits}\n")?;
    assert!(rt; replays(&rt, alloc, records.as_str(), written.as_str())?);
    Ok(())
}

const BAD: [&str; 11] = [
    "",
    "replay",
    "replay settings.json",
    "replay settings.json one.trace more",
    "replays settings.json one.trace",
    "replay -s one.trace",
    "replay settings.json --trace",
    "serve settings.json",
    "plan",
    "plan one.trace --workers 65",
    "check one.trace",
];

#[test]
fn words_that_ask_for_nothing_are_refused(rt: HostRuntime) -> Result<(), Fail> {
    let alloc = rt.alloc();
    for words in BAD {
        let files = traced(alloc, RECORDS)?;
        let said = "monocle: bad words\n";
        assert!(rt;
            ends(&rt, alloc, words, files, Failing::Nothing, 2, "", said)?,
            "at {words}"
        );
    }
    Ok(())
}

/// What fails, the status, and what is written and said. A second write would fail.
const FAULTS: [(Failing, u8, &str, &str); 4] = [
    (
        Failing::Read(0),
        3,
        "",
        "monocle: cannot read settings.json\n",
    ),
    (Failing::Read(1), 3, "", "monocle: cannot read one.trace\n"),
    (Failing::Write(0), 6, "", "monocle: cannot write\n"),
    (Failing::Write(1), 0, LINE, ""),
];

#[test]
fn failing_reads_and_writes_are_said(rt: HostRuntime) -> Result<(), Fail> {
    let alloc = rt.alloc();
    for (failing, status, written, said) in FAULTS {
        let files = traced(alloc, RECORDS)?;
        assert!(rt;
            ends(&rt, alloc, REPLAY, files, failing, status, written, said)?,
            "at {said}"
        );
    }
    Ok(())
}

/// Whether a replay of a trace with this text, by this name, ends with this status and says this.
fn is_refused<R: Threads + Sync>(
    rt: &R,
    alloc: Global,
    text: &str,
    name: &str,
    status: u8,
    said: &str,
) -> Result<bool, Fail> {
    let files = files_of(alloc, "settings.json", "{}", name, text)?;
    ends(rt, alloc, REPLAY, files, Failing::Nothing, status, "", said)
}

#[test]
fn what_is_no_trace_is_refused(rt: HostRuntime) -> Result<(), Fail> {
    let alloc = rt.alloc();
    assert!(rt; is_refused(&rt, alloc, "", "one.trace", 5, "monocle: trace: offset 0\n")?);
    let text = "monocle-trace 1 0000000000000001\nanswer 0\n";
    assert!(rt;
        is_refused(
            &rt,
            alloc,
            text,
            "one.trace",
            5,
            "monocle: trace: offset 33\n"
        )?
    );
    let text = "monocle-trace 1 0000000000000001\nopen\nlose\nfrom controller 0 00\n";
    assert!(rt;
        is_refused(
            &rt,
            alloc,
            text,
            "one.trace",
            5,
            "monocle: trace: offset 43\n"
        )?
    );
    let missing = "monocle: cannot read one.trace\n";
    assert!(rt; is_refused(&rt, alloc, text, "two.trace", 3, missing)?);
    Ok(())
}

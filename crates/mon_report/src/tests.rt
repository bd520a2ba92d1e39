//! A line of each kind, and each of its words.

use crate::{Cause, Line, OutOfMemory, WatchWhat, What, text};
use std::alloc::Global;
use std::test::Fail;

/// Bytes in the place of a match: zeros but for the second and the last.
fn matching() -> [u8; 40] {
    let mut matching = [0; 40];
    matching[1] = 0x32;
    matching[39] = 0xef;
    matching
}

/// Whether the line has this text.
fn is(alloc: Global, line: &Line, json: &str) -> Result<bool, OutOfMemory> {
    Ok(text(alloc, line)?.as_str() == json)
}

#[test]
fn a_line_of_each_kind(rt: HostRuntime) -> Result<(), Fail> {
    let alloc = rt.alloc();
    let armed = Line::Armed {
        session: 63,
        datapath: 0xfedc_ba98_7654_3210,
        tag: 4094,
    };
    let json = r#"{"datapath":"fedcba9876543210","event":"armed","session":63,"tag":4094}"#;
    assert!(rt; is(alloc, &armed, json)?);
    let confirmed = Line::Confirmed {
        session: 0,
        edit: 1,
        serial: u64::MAX,
    };
    let json = r#"{"edit":1,"event":"confirmed","serial":18446744073709551615,"session":0}"#;
    assert!(rt; is(alloc, &confirmed, json)?);
    let seen = Line::Watch {
        session: 0,
        matching: matching(),
        priority: 100,
        serial: Some(2),
        what: WatchWhat::Seen,
    };
    let json =
        r#"{"event":"seen","match":"003200000000000000000000000000000000000000000000000000000000000000000000000000ef","priority":100,"serial":2,"session":0}"#;
    assert!(rt; is(alloc, &seen, json)?);
    let missing = Line::Watch {
        session: 1,
        matching: matching(),
        priority: 65535,
        serial: None,
        what: WatchWhat::Missing,
    };
    let json =
        r#"{"event":"missing","match":"003200000000000000000000000000000000000000000000000000000000000000000000000000ef","priority":65535,"session":1}"#;
    assert!(rt; is(alloc, &missing, json)?);
    Ok(())
}

/// Whether the end of a session for this cause has this word.
fn closed(alloc: Global, cause: Cause, word: &str) -> Result<bool, OutOfMemory> {
    let json = format!(in alloc; r#"{{"cause":"{word}","event":"closed","session":7}}"#)?;
    is(alloc, &Line::Closed { session: 7, cause }, json.as_str())
}

/// Whether this fact of an edit has this word.
fn fact(alloc: Global, what: What, word: &str) -> Result<bool, OutOfMemory> {
    let json = format!(in alloc; r#"{{"edit":2,"event":"{word}","session":0}}"#)?;
    let line = Line::Fact {
        session: 0,
        edit: 2,
        what,
    };
    is(alloc, &line, json.as_str())
}

#[test]
fn each_word_is_the_one_of_the_format(rt: HostRuntime) -> Result<(), Fail> {
    let alloc = rt.alloc();
    assert!(rt; closed(alloc, Cause::Peer, "peer")?);
    assert!(rt; closed(alloc, Cause::BadLength, "bad-length")?);
    assert!(rt; closed(alloc, Cause::BadVersion, "bad-version")?);
    assert!(rt; closed(alloc, Cause::Lost, "lost")?);
    assert!(rt; closed(alloc, Cause::TooMany, "too-many")?);
    assert!(rt; closed(alloc, Cause::Features, "features")?);
    assert!(rt; closed(alloc, Cause::UnknownSwitch, "unknown-switch")?);
    assert!(rt; closed(alloc, Cause::SameSwitch, "same-switch")?);
    assert!(rt; closed(alloc, Cause::NotArmed, "not-armed")?);
    assert!(rt; fact(alloc, What::NoChange, "nochange")?);
    assert!(rt; fact(alloc, What::Overlap, "overlap")?);
    assert!(rt; fact(alloc, What::Indistinguishable, "indistinguishable")?);
    assert!(rt; fact(alloc, What::Closing, "closing")?);
    assert!(rt; fact(alloc, What::Settled, "settled")?);
    assert!(rt; fact(alloc, What::Rejected, "rejected")?);
    assert!(rt; fact(alloc, What::Silent, "silent")?);
    Ok(())
}

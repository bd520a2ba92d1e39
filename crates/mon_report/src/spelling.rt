//! The text of a line.

ghost use Rattle.std.specs.Prelude.{◌≡◌, string_bytes, IfOk, Some, None};
ghost use Rattle.serde_json.specs.Read.{read};
ghost use Rattle.serde_json.specs.View.{view};
ghost use Rattle.mon_report.specs.Lines.{fact_word, watch_word, cause_word, value_of, text_of};

use crate::line::{Cause, Line, WatchWhat, What};
use mon_list::OutOfMemory;
use serde_json::{Value, json};
use std::alloc::Global;

fn fact_word(what: What) -> &'static str
    ensures { result.now ≡ fact_word what }
{
    match what {
        What::NoChange => "nochange",
        What::Overlap => "overlap",
        What::Indistinguishable => "indistinguishable",
        What::Closing => "closing",
        What::Settled => "settled",
        What::Rejected => "rejected",
        What::Silent => "silent",
    }
}

fn watch_word(what: WatchWhat) -> &'static str
    ensures { result.now ≡ watch_word what }
{
    match what {
        WatchWhat::Seen => "seen",
        WatchWhat::Missing => "missing",
        WatchWhat::Unwatchable => "unwatchable",
    }
}

fn cause_word(cause: Cause) -> &'static str
    ensures { result.now ≡ cause_word cause }
{
    match cause {
        Cause::Peer => "peer",
        Cause::BadLength => "bad-length",
        Cause::BadVersion => "bad-version",
        Cause::Lost => "lost",
        Cause::TooMany => "too-many",
        Cause::Features => "features",
        Cause::UnknownSwitch => "unknown-switch",
        Cause::SameSwitch => "same-switch",
        Cause::NotArmed => "not-armed",
    }
}

fn armed(alloc: Global, session: u64, datapath: u64, tag: u16) -> Result<Value, OutOfMemory>
    ensures { IfOk result (λ v. view v ≡ value_of (Line.Armed session datapath tag)) }
{
    let digits = hex::encode(alloc, datapath.to_be_bytes())?;
    let value =
        json!(in alloc; {"datapath": digits, "event": "armed", "session": session, "tag": tag})?;
    Ok(value)
}

fn closed(alloc: Global, session: u64, cause: Cause) -> Result<Value, OutOfMemory>
    ensures { IfOk result (λ v. view v ≡ value_of (Line.Closed session cause)) }
{
    let cause = cause_word(cause);
    let value = json!(in alloc; {"cause": cause, "event": "closed", "session": session})?;
    Ok(value)
}

fn confirmed(alloc: Global, session: u64, edit: u64, serial: u64) -> Result<Value, OutOfMemory>
    ensures { IfOk result (λ v. view v ≡ value_of (Line.Confirmed session edit serial)) }
{
    let value =
        json!(in alloc; {"edit": edit, "event": "confirmed", "serial": serial, "session": session})?;
    Ok(value)
}

fn fact(alloc: Global, session: u64, edit: u64, what: What) -> Result<Value, OutOfMemory>
    ensures { IfOk result (λ v. view v ≡ value_of (Line.Fact session edit what)) }
{
    let event = fact_word(what);
    let value = json!(in alloc; {"edit": edit, "event": event, "session": session})?;
    Ok(value)
}

fn seen(
    alloc: Global,
    session: u64,
    matching: &[u8; 40],
    priority: u16,
    serial: u64,
    what: WatchWhat,
) -> Result<Value, OutOfMemory>
    ensures { IfOk result (λ v. view v ≡ value_of (Line.Watch session matching.now priority (Some serial) what)) }
{
    let event = watch_word(what);
    let digits = hex::encode(alloc, *matching)?;
    let value =
        json!(in alloc; {"event": event, "match": digits, "priority": priority, "serial": serial, "session": session})?;
    Ok(value)
}

fn unseen(
    alloc: Global,
    session: u64,
    matching: &[u8; 40],
    priority: u16,
    what: WatchWhat,
) -> Result<Value, OutOfMemory>
    ensures { IfOk result (λ v. view v ≡ value_of (Line.Watch session matching.now priority None what)) }
{
    let event = watch_word(what);
    let digits = hex::encode(alloc, *matching)?;
    let value =
        json!(in alloc; {"event": event, "match": digits, "priority": priority, "session": session})?;
    Ok(value)
}

fn watch(
    alloc: Global,
    session: u64,
    matching: &[u8; 40],
    priority: u16,
    serial: Option<u64>,
    what: WatchWhat,
) -> Result<Value, OutOfMemory>
    ensures { IfOk result (λ v. view v ≡ value_of (Line.Watch session matching.now priority serial what)) }
{
    match serial {
        Some(serial) => seen(alloc, session, matching, priority, serial, what),
        None => unseen(alloc, session, matching, priority, what),
    }
}

/// The line as a value of JSON.
fn value(alloc: Global, line: &Line) -> Result<Value, OutOfMemory>
    ensures { IfOk result (λ v. view v ≡ value_of line.now) }
{
    match *line {
        Line::Armed {
            session,
            datapath,
            tag,
        } => armed(alloc, session, datapath, tag),
        Line::Closed { session, cause } => closed(alloc, session, cause),
        Line::Confirmed {
            session,
            edit,
            serial,
        } => confirmed(alloc, session, edit, serial),
        Line::Fact {
            session,
            edit,
            what,
        } => fact(alloc, session, edit, what),
        Line::Watch {
            session,
            matching,
            priority,
            serial,
            what,
        } => watch(alloc, session, &matching, priority, serial, what),
    }
}

/// The line as JSON, without a line feed: read as JSON it is the line's value. A watch has the member `serial` where the
/// line has a serial.
pub fn text(alloc: Global, line: &Line) -> Result<String, OutOfMemory>
    ensures text { IfOk result (λ s. string_bytes s ≡ text_of line.now) }
    ensures json { IfOk result (λ s. read (string_bytes s) ≡ Some (value_of line.now)) }
{
    let value = value(alloc, line)?;
    let text = value.to_string(alloc)?;
    Ok(text)
}

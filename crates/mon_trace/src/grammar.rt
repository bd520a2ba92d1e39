//! The text of a trace.

ghost use Rattle.std.specs.Prelude.{◌≡◌, ◌<◌, ◌^◌, ◌+◌, length};
ghost use Rattle.mon_text.specs.Reads.{Reads};
ghost use Rattle.mon_trace.specs.Grammar.{key_of, trace_of};
ghost use Rattle.mon_trace.specs.Reading.{Gives, records_of};
ghost use Rattle.mon_trace.specs.Run.{events_of};
ghost use Rattle.mon_trace.specs.ToCome.{first_other};
ghost use Rattle.mon_world.specs.Logs.{AllNamed, NoStop};

use crate::events::Events;
use crate::hexadecimal::push_bytes;
use crate::lines::{before, behind, end_of_line};
use crate::records::Reading;
use byteorder::{BigEndian, ByteOrder};
use mon_text::{FileFault, TextFault};
use std::alloc::Global;
use std::marker::Model;

/// The key and the records of a trace. Of its events none is Stop, and each names a session that was opened by then.
#[derive(Drop)]
pub struct Trace {
    key: u64,
    events: Events,
    losing: u64,
}

impl Model for Trace {
    ghost use Rattle.mon_trace.specs.Grammar.{Traced};
    ghost use Rattle.mon_trace.specs.Run.{the_event};
    ghost use Rattle.std.specs.Prelude.{map, ◌<◌, ◌^◌};
    ghost use Rattle.mon_world.specs.Logs.{AllNamed, NoStop};

    ghost Value = { Traced };

    ghost view = { λ t. record { key = t.key; events = t.events; losing = t.losing } };

    ghost invariant = { λ t. record {
      named : AllNamed 0 (map the_event t.events);
      unstopped : NoStop (map the_event t.events);
      few : t.losing < 2 ^ 63;
    } };
}

impl Trace {
    /// The key of the first line.
    pub fn key(&self) -> u64
        ensures { result ≡ self.now.key }
    {
        self.key
    }

    /// The number of records: those that are events, and the `lose` records.
    pub fn records(&self) -> u64
        ensures value { result ≡ length self.now.events + self.now.losing }
        ensures small { result + 1 < 2 ^ 64 }
    {
        self.events.len() as u64 + self.losing
    }

    /// The number of `lose` records.
    pub(crate) fn losing(&self) -> u64
        ensures { result ≡ self.now.losing }
    {
        self.losing
    }

    /// Where the first record begins that a replay does not follow yet: one that is neither an opening nor a piece, or
    /// that stands behind a `lose` record.
    pub fn first_other(&self) -> Option<u64>
        ensures { result ≡ first_other self.now.events }
    {
        match self.events.first_other() {
            Some(offset) => Some(offset as u64),
            None => None,
        }
    }

    /// Does nothing: its clauses are what the type keeps.
    pub(crate) fn keeps(&self)
        ensures named { AllNamed 0 (events_of self.now) }
        ensures unstopped { NoStop (events_of self.now) }
    {
        let _ = &self.events;
    }

    pub(crate) fn events(&self) -> &Events
        ensures value { result.now ≡ self.now.events }
    {
        &self.events
    }
}

/// Reads the records of a text that begins at this offset.
fn read_records(alloc: Global, text: &[u8], offset: usize) -> Result<(Events, u64), FileFault>
    requires { offset + length text.now < 2 ^ 63 }
    ensures { Gives (λ x. x) result (records_of offset 0 0 text.now) }
{
    // A piece of n bytes has a line of more than 2 n.
    let events = Events::new(alloc, text.len() / 2)?;
    let mut reading = Reading::new(events, offset);
    let mut rest = text;
    while !rest.is_empty() {
        let Some(end) = end_of_line(rest) else {
            return Err(FileFault::Bad {
                offset: reading.offset() as u64,
            });
        };
        match reading.take(before(rest, end)) {
            Ok(()) => {}
            Err(fault) => return Err(fault),
        }
        rest = behind(rest, end);
    }
    Ok(reading.into_parts())
}

/// The key of the first line.
#[tactic(auto, unfolding(crate::specs::Grammar::key_of))]
fn read_key(alloc: Global, line: &[u8]) -> Result<u64, TextFault>
    ensures { Reads (λ key. key) result (key_of line.now) }
{
    if !line.starts_with(b"monocle-trace 1 ") || line.len() != 32 {
        return Err(TextFault::Bad);
    }
    let mut bytes = Vec::with_capacity(alloc, 8)?;
    push_bytes(&line[16..], &mut bytes)?;
    Ok(BigEndian::read_u64(&bytes))
}

/// The trace that a text is, or where it is none.
pub fn read_trace(alloc: Global, text: &[u8]) -> Result<Trace, FileFault>
    ensures { Gives (λ t. t) result (trace_of text.now) }
{
    if text.is_empty() {
        return Err(FileFault::Bad { offset: 0 });
    }
    let Some(end) = end_of_line(text) else {
        return Err(FileFault::Bad { offset: 0 });
    };
    let key = match read_key(alloc, before(text, end)) {
        Ok(key) => key,
        Err(TextFault::Bad) => return Err(FileFault::Bad { offset: 0 }),
        Err(TextFault::OutOfMemory) => return Err(FileFault::OutOfMemory),
    };
    let (events, losing) = read_records(alloc, behind(text, end), end + 1)?;
    // No text in memory has so many records.
    if losing >= 1 << 63 {
        return Err(FileFault::OutOfMemory);
    }
    Ok(Trace {
        key,
        events,
        losing,
    })
}

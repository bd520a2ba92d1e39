//! The records of a trace, line by line.

ghost use Rattle.std.specs.Prelude.{◌≡◌, ◌<◌, ◌≤◌, ◌+◌, ◌^◌, ℕ, true, false, Err, List, [], ◌∷◌, length, option_map, IfSome, IfOk, OnOk};
ghost use Rattle.mon_text.specs.Reads.{Reads};
ghost use Rattle.mon_trace.specs.Grammar.{event_of, later_event, switch_event, closing_event, answer_event, tick_event, is_word, is_lose, is_open, number_below, opened_behind, piece_with, closing_of, answer_of, whole};
ghost use Rattle.mon_trace.specs.Reading.{onto, one, GoesOn};
ghost use Rattle.mon_trace.specs.SoFar.{with_lines};

use crate::events::{Deed, Events};
use mon_text::{FileFault, TextFault, behind, number_at};
use mon_world::Side;
use std::alloc::Global;
use std::marker::Model;

/// Whether a line is just this word.
fn is_word(word: &[u8], line: &[u8]) -> bool
    ensures { result ≡ is_word word.now line.now }
{
    line.starts_with(word) && line.len() == word.len()
}

/// The number below a bound that stands at the front, and what stands behind it.
#[tactic(auto, unfolding(crate::specs::Grammar::number_below))]
fn number_below(bound: u64, text: &[u8]) -> Option<(u64, &[u8])>
    ensures value { option_map (λ p. (p.0, p.1.now)) result ≡ number_below bound text.now }
    ensures low { IfSome result (λ p. p.0 < bound) }
{
    let (n, rest) = number_at(text)?;
    if n < bound { Some((n, rest)) } else { None }
}

/// The number below a bound that is the whole text.
fn whole_number(bound: u64, text: &[u8]) -> Option<u64>
    ensures value { result ≡ whole (number_below bound text.now) }
    ensures low { IfSome result (λ n. n < bound) }
{
    let (n, rest) = number_below(bound, text)?;
    if rest.is_empty() { Some(n) } else { None }
}

/// Where a record begins, and how many `lose` records stand before it.
#[derive(Clone, Copy)]
pub(crate) struct Mark {
    pub offset: usize,
    pub losing: u64,
}

/// Reads what stands behind `from` and a side.
fn read_piece(
    side: Side,
    opened: u64,
    text: &[u8],
    mark: Mark,
    events: &mut Events,
) -> Result<(), TextFault>
    ensures { Reads (λ _. events.new) result (onto events.old (one mark.offset mark.losing (piece_with side (number_below opened text.now)))) }
{
    let Some((session, rest)) = number_below(opened, text) else {
        return Err(TextFault::Bad);
    };
    let Some(digits) = behind(b" ", rest) else {
        return Err(TextFault::Bad);
    };
    events.push_piece(mark.offset, mark.losing, side, session, digits)
}

#[tactic(auto, unfolding(crate::specs::Grammar::tick_event))]
fn read_tick(line: &[u8], mark: Mark, events: &mut Events) -> Result<(), TextFault>
    ensures { Reads (λ _. events.new) result (onto events.old (one mark.offset mark.losing (tick_event line.now))) }
{
    if !is_word(b"tick", line) {
        return Err(TextFault::Bad);
    }
    events.push(mark.offset, mark.losing, Deed::Ticking)?;
    Ok(())
}

#[tactic(auto, unfolding(crate::specs::Grammar::answer_event))]
fn read_answer(line: &[u8], mark: Mark, events: &mut Events) -> Result<(), TextFault>
    ensures { Reads (λ _. events.new) result (onto events.old (one mark.offset mark.losing (answer_event line.now))) }
{
    let Some(rest) = behind(b"answer ", line) else {
        return read_tick(line, mark, events);
    };
    let Some(index) = whole_number(1 << 32, rest) else {
        return Err(TextFault::Bad);
    };
    let index = index as u32;
    events.push(mark.offset, mark.losing, Deed::Answering { index })?;
    Ok(())
}

#[tactic(auto, unfolding(crate::specs::Grammar::closing_event))]
fn read_closing(opened: u64, line: &[u8], mark: Mark, events: &mut Events) -> Result<(), TextFault>
    ensures { Reads (λ _. events.new) result (onto events.old (one mark.offset mark.losing (closing_event opened line.now))) }
{
    let Some(rest) = behind(b"close ", line) else {
        return read_answer(line, mark, events);
    };
    let Some(session) = whole_number(opened, rest) else {
        return Err(TextFault::Bad);
    };
    events.push(mark.offset, mark.losing, Deed::Closing { session })?;
    Ok(())
}

#[tactic(auto, unfolding(crate::specs::Grammar::switch_event))]
fn read_switch(opened: u64, line: &[u8], mark: Mark, events: &mut Events) -> Result<(), TextFault>
    ensures { Reads (λ _. events.new) result (onto events.old (one mark.offset mark.losing (switch_event opened line.now))) }
{
    match behind(b"from switch ", line) {
        Some(rest) => read_piece(Side::Switch, opened, rest, mark, events),
        None => read_closing(opened, line, mark, events),
    }
}

/// Reads a record other than `open` and `lose`. The session that it names must be one of those that were opened.
#[tactic(auto, unfolding(crate::specs::Grammar::later_event))]
fn read_later(opened: u64, line: &[u8], mark: Mark, events: &mut Events) -> Result<(), TextFault>
    ensures { Reads (λ _. events.new) result (onto events.old (one mark.offset mark.losing (later_event opened line.now))) }
{
    match behind(b"from controller ", line) {
        Some(rest) => read_piece(Side::Controller, opened, rest, mark, events),
        None => read_switch(opened, line, mark, events),
    }
}

/// The records so far, how many sessions they open and how many outputs they lose, and where the next line begins.
#[derive(Drop)]
pub(crate) struct Reading {
    events: Events,
    opened: u64,
    losing: u64,
    offset: usize,
}

impl Model for Reading {
    ghost use Rattle.mon_trace.specs.SoFar.{SoFar};

    ghost Value = { SoFar };

    ghost view = { λ r. record { events = r.events; opened = r.opened; losing = r.losing; offset = r.offset } };
}

impl Reading {
    /// No records yet. The first line begins at this offset.
    pub(crate) fn new(events: Events, offset: usize) -> Reading
        ensures { result ≡ record { events = events; opened = 0; losing = 0; offset = offset } }
    {
        Reading {
            events,
            opened: 0,
            losing: 0,
            offset,
        }
    }

    /// Where the next line begins.
    pub(crate) fn offset(&self) -> usize
        ensures { result ≡ self.now.offset }
    {
        self.offset
    }

    /// The records, and how many of them lose an output.
    pub(crate) fn into_parts(self) -> (Events, u64)
        ensures { (result.0 ≡ self.events) × (result.1 ≡ self.losing) }
    {
        (self.events, self.losing)
    }

    /// Reads a record that is an event.
    fn take_event(&mut self, line: &[u8]) -> Result<(), TextFault>
        ensures events { Reads (λ _. self.new.events) result (onto self.old.events (one self.old.offset self.old.losing (event_of self.old.opened line.now))) }
        ensures opened { OnOk result (self.new.opened ≡ opened_behind false (is_open line.now) self.old.opened) }
        ensures losing { self.new.losing ≡ self.old.losing }
        ensures offset { self.new.offset ≡ self.old.offset }
    {
        let mark = Mark {
            offset: self.offset,
            losing: self.losing,
        };
        if is_word(b"open", line) {
            self.events.push(mark.offset, mark.losing, Deed::Opening)?;
            self.opened = self.opened.saturating_add(1);
            return Ok(());
        }
        read_later(self.opened, line, mark, &mut self.events)
    }

    /// Reads a record. `lose` records are counted in 64 bits: where these are used up there is no room for one more.
    fn take_record(&mut self, line: &[u8]) -> Result<(), TextFault>
        ensures lose { is_lose line.now ≡ true → OnOk result (self.new ≡ record self.old { losing = self.old.losing + 1 }) }
        ensures bad { is_lose line.now ≡ true → result ≡ Err TextFault.Bad → ⊥ }
        ensures events { is_lose line.now ≡ false → Reads (λ _. self.new.events) result (onto self.old.events (one self.old.offset self.old.losing (event_of self.old.opened line.now))) }
        ensures opened { is_lose line.now ≡ false → OnOk result (self.new.opened ≡ opened_behind false (is_open line.now) self.old.opened) }
        ensures losing { is_lose line.now ≡ false → self.new.losing ≡ self.old.losing }
        ensures offset { self.new.offset ≡ self.old.offset }
    {
        if is_word(b"lose", line) {
            let Some(losing) = self.losing.checked_add(1) else {
                return Err(TextFault::OutOfMemory);
            };
            self.losing = losing;
            return Ok(());
        }
        self.take_event(line)
    }

    /// Reads the next line, which a line feed ends.
    pub(crate) fn take(&mut self, line: &[u8]) -> Result<(), FileFault>
        requires { self.old.offset + length line.now < 2 ^ 63 }
        ensures value { (lines : List (List ℕ)) (rest : List ℕ) → GoesOn result (with_lines self.new lines rest) (with_lines self.old (line.now ∷ lines) rest) }
        ensures offset { OnOk result (self.new.offset ≡ self.old.offset + (length line.now + 1)) }
    {
        match self.take_record(line) {
            Ok(()) => {
                self.offset += line.len() + 1;
                Ok(())
            }
            Err(TextFault::Bad) => Err(FileFault::Bad {
                offset: self.offset as u64,
            }),
            Err(TextFault::OutOfMemory) => Err(FileFault::OutOfMemory),
        }
    }
}

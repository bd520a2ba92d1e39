//! FLOW_REMOVEDs of the switch: one may tell that an entry vanished.

ghost use Rattle.std.specs.Prelude.{◌≡◌, ◌++◌, ◌∷◌, [], ◌≤◌, ◌<◌, ◌+◌, ◌||◌, ℕ, List, length, take, drop, Some, None, Err, false, is_some, option_copied, if◌then◌else◌, OnOk, IsTrue, ◌≢◌};
ghost use Rattle.std.specs.List.{list_any};
ghost use Rattle.mon_fields.specs.Fields.{number_at};
ghost use Rattle.of_match.specs.Layout.{match_of};
ghost use Rattle.mon_table.specs.Rules.{identity};
ghost use Rattle.mon_table.specs.Tables.{rule_of};
ghost use Rattle.of_frame.specs.Header.{kind_of};
ghost use Rattle.mon_report.specs.declared.line.Cause.{Cause};
ghost use Rattle.mon_world.specs.declared.event.Side.TheVariants.{Controller};
ghost use Rattle.mon_session.specs.declared.step.SessionEnd.TheVariants as ends;
ghost use Rattle.mon_legal.specs.Runs.{Run};
ghost use Rattle.mon_legal.specs.Changing.{plus_if};
ghost use Rattle.mon_legal.specs.Owns.Own.{From_switch, Sends};
ghost use Rattle.mon_legal.specs.Messages.{is_vanished, identity_gone};
ghost use Rattle.mon_legal.specs.Edits.{is_guarded, is_identity, unsure_at};
ghost use Rattle.mon_session.specs.Now.{without_rule};
ghost use Rattle.mon_session.specs.Entries.{with_now};
ghost use Rattle.mon_session.specs.Entering.{greets, vanishing, vanishes};
ghost use Rattle.mon_session.specs.Walks.{walks, steps_of};

use crate::name::Name;
use crate::session::Session;
use crate::step::{Outs, SessionEnd};
use mon_fields::u16_at;
use mon_header::Match;
use mon_list::OutOfMemory;
use mon_table::{Rule, Table};
use of_frame::{Frame, kinds};
use of_match::read_match;
use std::alloc::Global;
use std::collections::VecDeque;

/// The match of a FLOW_REMOVED.
fn match_gone(bytes: &[u8]) -> Match
    requires { 48 ≤ length bytes.now }
    ensures { result ≡ match_of (take 40 (drop 8 bytes.now)) }
{
    let mut spelled = [0; 40];
    spelled.copy_from_slice(&bytes[8..48]);
    read_match(&spelled)
}

/// The byte at a place.
fn byte_at(bytes: &[u8], place: usize) -> u8
    requires { place < length bytes.now }
    ensures { result ≡ number_at 1 place bytes.now }
{
    bytes[place]
}

/// Whether a FLOW_REMOVED tells of a timeout (OpenFlow 1.0.0, flow removed message: reasons 0 and 1).
fn is_vanished(frame: &Frame) -> bool
    ensures value { result ≡ is_vanished frame.now }
    ensures long { IsTrue result → 88 ≤ length frame.now }
{
    let bytes = frame.bytes();
    frame.kind() == kinds::FLOW_REMOVED && bytes.len() >= 88 && byte_at(bytes, 58) <= 1
}

/// The rule of a match and a priority field.
fn rule_at<'a>(table: &'a Table, m: &Match, priority: u16) -> Option<&'a Rule>
    ensures { option_copied result ≡ rule_of (identity m.now priority) table.now }
{
    let place = table.place(m, priority)?;
    Some(table.rule(place))
}

/// Whether one of these entries is held so.
fn is_held(guards: &VecDeque<Option<Name>>, name: &Name) -> bool
    ensures { result ≡ list_any (is_identity name.now) guards.now.items }
{
    for place in 0..guards.len() {
        if is_one(guards[place].as_ref(), name) {
            return true;
        }
    }
    false
}

/// Whether it is this one.
fn is_one(guard: Option<&Name>, name: &Name) -> bool
    ensures { result ≡ is_identity name.now (option_copied guard.entry) }
{
    match guard {
        None => false,
        Some(other) => other.is(name),
    }
}

impl Session {
    /// Whether an unsettled edit has this identity, or an own barrier behind the report of one has no answer yet.
    fn is_guarded(&self, name: &Name) -> bool
        ensures { result ≡ is_guarded name.now self.now.now.unsettled self.now.now.guards }
    {
        self.unsettled.has_name(name) || is_held(&self.guards, name)
    }

    /// Whether the entry of a match and a priority field may have vanished: it is unsure, and nothing holds that off.
    fn may_vanish(&self, m: &Match, priority: u16) -> bool
        ensures { result ≡ is_some (unsure_at (identity m.now priority) self.now.now.unsettled self.now.now.guards (rule_of (identity m.now priority) self.now.now.table)) }
    {
        match rule_at(&self.table, m, priority) {
            None => false,
            Some(rule) => rule.unsure && !self.is_guarded(&Name::at(*m, priority)),
        }
    }

    /// The switch tells that an entry timed out.
    fn vanish(&mut self, m: &Match, priority: u16) -> Result<(), SessionEnd>
        ensures gone { OnOk result (self.new ≡ with_now self.old (vanishes (unsure_at (identity m.now priority) self.old.now.unsettled self.old.now.guards (rule_of (identity m.now priority) self.old.now.table)) self.old.now)) }
        ensures going { (c : Cause) → result ≢ Err (ends.Ended c) }
    {
        if !self.may_vanish(m, priority) {
            return Ok(());
        }
        self.raise()?;
        self.table.cut(m, priority)?;
        Ok(())
    }

    /// What a FLOW_REMOVED tells: that an entry timed out, or nothing.
    fn lose(&mut self, frame: &Frame) -> Result<(), SessionEnd>
        ensures lost { OnOk result (self.new ≡ with_now self.old (vanishes (vanishing self.old.now frame.now) self.old.now)) }
        ensures going { (c : Cause) → result ≢ Err (ends.Ended c) }
    {
        if !self.armed {
            return Ok(());
        }
        if !is_vanished(frame) {
            return Ok(());
        }
        let bytes = frame.bytes();
        let m = match_gone(bytes);
        let priority = u16_at(bytes, 56);
        self.vanish(&m, priority)
    }

    /// A FLOW_REMOVED: it goes on, and may tell that an entry vanished.
    pub(crate) fn removal(&mut self, frame: Frame, outs: &mut Outs) -> Result<(), SessionEnd>
        requires kind { kind_of frame ≡ 11 }
        ensures walk { OnOk result ((run : Run) (others : List ℕ) → self.new ≡ walks run self.old (From_switch frame others ∷ Sends Controller frame false ∷ [])) }
        ensures outs { OnOk result (outs.new ≡ outs.old ++ steps_of self.old.number (Sends Controller frame false ∷ [])) }
        ensures going { (c : Cause) → result ≢ Err (ends.Ended c) }
    {
        self.greet();
        self.lose(&frame)?;
        self.send_back(frame, outs)?;
        Ok(())
    }
}

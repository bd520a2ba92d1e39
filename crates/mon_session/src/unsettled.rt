//! The edits of a session that are not settled yet.

ghost use Rattle.std.specs.Prelude.{◌≡◌, ℕ, [], not, ◌&&◌, ◌++◌, take, map, option_copied, OnOk, IfOk};
ghost use Rattle.std.specs.Str.{bytes_eq};
ghost use Rattle.mon_table.specs.Rules.{identity_of, same_identity};
ghost use Rattle.mon_table.specs.Edits.{edited};
ghost use Rattle.mon_legal.specs.Messages.{is_error_for};
ghost use Rattle.std.specs.List.{list_any};
ghost use Rattle.mon_legal.specs.Edits.{Passed, is_number, older, changes_nothing, may_pass, cuts, oldest, rejected_by};
ghost use Rattle.mon_edits.specs.Frames.{is_cut};
ghost use Rattle.mon_session.specs.Now.{edit_numbered, identity_in};
ghost use Rattle.mon_legal.specs.Actions.{same_actions};
ghost use Rattle.mon_session.specs.Ticking.{silent_step, silent_in};
ghost use Rattle.mon_session.specs.Passing.{Falls, newer, without_edit, marked, passed};

use crate::in_flight::InFlight;
use crate::name::Name;
use crate::step::{Outs, Step};
use mon_header::{Actions, Match, overlaps};
use mon_list::OutOfMemory;
use mon_report::{Line, What};
use mon_table::{Edit, Rule};
use mon_world::Note;
use of_frame::{Frame, kinds};
use std::alloc::Global;
use std::collections::VecDeque;
use std::marker::Model;

/// How many edits were passed, and those of them that are neither settled nor rejected, the newest first.
#[derive(Drop)]
pub struct Unsettled {
    count: u64,
    edits: VecDeque<InFlight>,
}

impl Model for Unsettled {
    ghost use Rattle.std.specs.Prelude.{◌+◌};
    ghost use Rattle.mon_session.specs.Passing.{Passing, Falls};

    ghost Value = { Passing };

    ghost view = { λ u. record { count = u.count; edits = u.edits.items } };

    ghost invariant = { λ u. Falls (u.count + 1) u.edits.items };
}

impl Unsettled {
    /// No edit was passed. It takes no memory yet.
    pub fn new(alloc: Global) -> Unsettled
        ensures { result ≡ record { count = 0; edits = [] } }
    {
        Unsettled {
            count: 0,
            edits: VecDeque::new(alloc),
        }
    }

    /// How many edits were passed.
    pub fn count(&self) -> u64
        ensures { result ≡ self.now.count }
    {
        self.count
    }

    /// Whether the match overlaps that of no edit.
    pub fn may_pass(&self, m: &Match) -> bool
        ensures { result ≡ may_pass m.now self.now.edits }
    {
        for place in 0..self.edits.len() {
            if overlaps(m, &self.edits[place].edit.rule().matching) {
                return false;
            }
        }
        true
    }

    /// The number of the oldest edit.
    #[tactic(auto, using(crate::proofs::Passings::oldest_last))]
    pub fn oldest(&self) -> Option<u64>
        ensures { result ≡ oldest self.now.edits }
    {
        let len = self.edits.len();
        if len == 0 {
            return None;
        }
        Some(self.edits[len - 1].number)
    }

    /// How many edits take an entry out. More than a `u32` counts are more than any memory holds.
    pub fn cuts(&self) -> Result<u32, OutOfMemory>
        ensures { IfOk result (λ count. count ≡ cuts self.now.edits) }
    {
        let mut count: u32 = 0;
        for place in 0..self.edits.len() {
            if is_cut(&self.edits[place].edit) {
                let Some(more) = count.checked_add(1) else {
                    return Err(OutOfMemory);
                };
                count = more;
            }
        }
        Ok(count)
    }

    /// The number of the edit to whose frame the switch answers by this ERROR.
    pub fn rejected(&self, error: &Frame) -> Option<u64>
        ensures { result ≡ rejected_by error.now self.now.edits }
    {
        for place in 0..self.edits.len() {
            if is_error_for(error, &self.edits[place].frame) {
                return Some(self.edits[place].number);
            }
        }
        None
    }

    /// Whether an edit has this identity.
    pub fn has_name(&self, name: &Name) -> bool
        ensures { result ≡ list_any (λ p. not p.settled && same_identity (identity_of (edited p.edit)) name.now) self.now.edits }
    {
        for place in 0..self.edits.len() {
            if Name::of(self.edits[place].edit.rule()).is(name) {
                return true;
            }
        }
        false
    }

    /// Whether the edit of a number is here.
    pub fn has(&self, number: u64) -> bool
        ensures { result ≡ list_any (is_number number) self.now.edits }
    {
        self.edits.iter().any(|passed| passed.number == number)
    }

    /// The edit of a number, where it is here.
    #[tactic(auto, using(crate::proofs::Passings::numbered_at, crate::proofs::Passings::numbered_none))]
    pub fn get(&self, number: u64) -> Option<&InFlight>
        ensures { option_copied result ≡ edit_numbered number self.now.edits }
    {
        let place = newer(&self.edits, number);
        if place >= self.edits.len() {
            return None;
        }
        Some(&self.edits[place])
    }

    /// Takes the edit of a number out.
    #[tactic(auto, using(crate::proofs::Passings::falls_without))]
    pub fn take(&mut self, number: u64) -> Option<InFlight>
        ensures taken { result ≡ edit_numbered number self.old.edits }
        ensures left { self.new ≡ record self.old { edits = without_edit number self.old.edits } }
    {
        take_out(&mut self.edits, number)
    }

    /// The edit of a number was reported as one that no probe is to show. Its identity, where it is here.
    #[tactic(auto, using(crate::proofs::Passings::falls_marked))]
    pub fn mark(&mut self, number: u64) -> Option<Name>
        ensures name { result ≡ identity_in (edit_numbered number self.old.edits) }
        ensures marked { self.new ≡ record self.old { edits = marked number self.old.edits } }
    {
        mark_in(&mut self.edits, number)
    }

    /// Tells the edits that are silent after so many ticks, at the next one, the oldest first.
    pub fn silent(&self, session: u64, alarm: u32, outs: &mut Outs) -> Result<(), OutOfMemory>
        ensures { OnOk result (outs.new ≡ outs.old ++ map (silent_step session) (silent_in alarm self.now.edits)) }
    {
        for place in (0..self.edits.len()).rev() {
            if self.edits[place].is_silent(alarm) {
                outs.push(silent(session, self.edits[place].number))?;
            }
        }
        Ok(())
    }

    /// A tick later.
    pub fn age(&mut self) -> Result<(), OutOfMemory>
        ensures { OnOk result (self.new ≡ record self.old { edits = map older self.old.edits }) }
    {
        age_in(&mut self.edits)
    }

    /// The edit that goes out in this frame is the next one; where it changes nothing it is settled at once. `stood` is what
    /// stood in its place.
    #[tactic(auto, using(crate::proofs::Passings::falls_below))]
    pub fn pass(
        &mut self,
        alloc: Global,
        edit: Edit,
        stood: Option<Rule>,
        frame: &Frame,
    ) -> Result<(), OutOfMemory>
        ensures { OnOk result (self.new ≡ passed edit stood frame.now self.old) }
    {
        let Some(number) = self.count.checked_add(1) else {
            return Err(OutOfMemory);
        };
        if changes_nothing(&edit) {
            self.count = number;
            return Ok(());
        }
        let frame = copied(alloc, frame)?;
        self.edits.push_front(InFlight {
            number,
            edit,
            stood,
            frame,
            reported: false,
            ticks: 0,
        })?;
        self.count = number;
        Ok(())
    }
}

/// The line that tells an edit as silent.
fn silent(session: u64, edit: u64) -> Step
    ensures { result ≡ silent_step session edit }
{
    Step::Note(Note::Report(Line::Fact {
        session,
        edit,
        what: What::Silent,
    }))
}

/// A tick later for each of these edits.
fn age_in(edits: &mut VecDeque<InFlight>) -> Result<(), OutOfMemory>
    ensures later { OnOk result (edits.new.items ≡ map older edits.old.items) }
    ensures falls { (n : ℕ) → Falls n edits.old.items → Falls n edits.new.items }
{
    for place in 0..edits.len() {
        edits[place].age()?;
    }
    Ok(())
}

/// Whether an ERROR is for a frame: it bears the frame's xid and its first 64 bytes (OpenFlow 1.0.0, error message).
fn is_error_for(error: &Frame, frame: &Frame) -> bool
    ensures { result ≡ is_error_for error.now frame.now }
{
    if error.kind() != kinds::ERROR {
        return false;
    }
    let bytes = error.bytes();
    if bytes.len() < 12 {
        return false;
    }
    if error.xid() != frame.xid() {
        return false;
    }
    same_bytes(front(&bytes[12..]), front(frame.bytes()))
}

/// The first 64 bytes.
fn front(bytes: &[u8]) -> &[u8]
    ensures { result.now ≡ take 64 bytes.now }
{
    if bytes.len() > 64 {
        return &bytes[..64];
    }
    bytes
}

/// Whether two texts have the same bytes.
#[tactic(auto, using(crate::proofs::Erring::bytes_test))]
fn same_bytes(a: &[u8], b: &[u8]) -> bool
    ensures { result ≡ bytes_eq a.now b.now }
{
    a == b
}

/// How many of these edits are newer than the one of a number, or how many there are, where it is not among them.
fn newer(edits: &VecDeque<InFlight>, number: u64) -> usize
    ensures { result ≡ newer number edits.now.items }
{
    for place in 0..edits.len() {
        if edits[place].number == number {
            return place;
        }
    }
    edits.len()
}

/// Takes the edit of a number out.
fn take_out(edits: &mut VecDeque<InFlight>, number: u64) -> Option<InFlight>
    requires { (n : ℕ) × Falls n edits.old.items }
    ensures taken { result ≡ edit_numbered number edits.old.items }
    ensures left { edits.new.items ≡ without_edit number edits.old.items }
{
    let place = newer(edits, number);
    edits.remove(place)
}

/// Notes of the edit of a number that it was reported.
#[tactic(auto, using(crate::proofs::Passings::numbered_at, crate::proofs::Passings::numbered_none, crate::proofs::Passings::marked_at, crate::proofs::Passings::marked_none))]
fn mark_in(edits: &mut VecDeque<InFlight>, number: u64) -> Option<Name>
    requires { (n : ℕ) × Falls n edits.old.items }
    ensures name { result ≡ identity_in (edit_numbered number edits.old.items) }
    ensures marked { edits.new.items ≡ marked number edits.old.items }
{
    let place = newer(edits, number);
    if place >= edits.len() {
        return None;
    }
    let name = Name::of(edits[place].edit.rule());
    edits[place].reported = true;
    Some(name)
}

/// The same frame once more.
pub fn copied(alloc: Global, frame: &Frame) -> Result<Frame, OutOfMemory>
    ensures { IfOk result (λ copy. copy ≡ frame.now) }
{
    Ok(Frame::of_bytes(Vec::from_slice(alloc, frame.bytes())?))
}

/// Whether the edit puts the actions that stand there already, in an entry that cannot vanish.
pub fn changes_nothing(edit: &Edit) -> bool
    ensures { result ≡ changes_nothing edit.now }
{
    match edit {
        Edit::Put {
            rule,
            old: Some(old),
        } => !old.unsure && same(&rule.actions, &old.actions),
        Edit::Put { old: None, .. } => false,
        Edit::Cut { .. } => false,
    }
}

/// Whether two lists have the same actions.
fn same(a: &Actions, b: &Actions) -> bool
    ensures { result ≡ same_actions a.now b.now }
{
    mon_header::same_actions(a, b)
}

/// Whether an edit takes an entry out.
fn is_cut(edit: &Edit) -> bool
    ensures { result ≡ is_cut edit.now }
{
    match edit {
        Edit::Put { .. } => false,
        Edit::Cut { .. } => true,
    }
}

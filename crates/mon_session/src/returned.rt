//! Probes that came back: one may confirm an edit.

ghost use Rattle.std.specs.Prelude.{◌≡◌, ◌++◌, ◌∷◌, [], Some, option_copied, OnOk, IfOk, IsOkUnless};
ghost use Rattle.mon_report.specs.declared.line.Line.TheVariants.{Confirmed};
ghost use Rattle.mon_world.specs.declared.event.Note.TheVariants.{Report};
ghost use Rattle.mon_legal.specs.Runs.{Run};
ghost use Rattle.mon_legal.specs.Owns.Own.{Reports};
ghost use Rattle.mon_legal.specs.Edits.{is_over_unsure};
ghost use Rattle.mon_legal.specs.Directly.{is_over};
ghost use Rattle.mon_session.specs.declared.step.Step.TheVariants as step;
ghost use Rattle.mon_session.specs.declared.step.SessionEnd.TheVariants as ends;
ghost use Rattle.mon_session.specs.Now.{edit_numbered, identity_in};
ghost use Rattle.mon_session.specs.Dues.{met};
ghost use Rattle.mon_session.specs.Probing.{confirms, return_entries};
ghost use Rattle.mon_session.specs.Walks.{takes, walks, steps_of};

use crate::in_flight::InFlight;
use crate::name::Name;
use crate::session::Session;
use crate::step::{Outs, SessionEnd, Step};
use mon_list::OutOfMemory;
use mon_report::Line;
use mon_shows::Seen;
use mon_table::Edit;
use mon_world::Note;
use std::alloc::Global;

/// The identity of an edit's entry.
fn name_of(passed: Option<&InFlight>) -> Option<Name>
    ensures { result ≡ identity_in (option_copied passed.entry) }
{
    match passed {
        None => None,
        Some(passed) => Some(Name::of(passed.edit.rule())),
    }
}

/// Whether an edit puts a rule over one that may be gone.
fn is_over_unsure(edit: &Edit) -> bool
    ensures { result ≡ is_over_unsure edit.now }
{
    match edit {
        Edit::Put { old: Some(old), .. } => old.unsure,
        Edit::Put { old: None, .. } => false,
        Edit::Cut { .. } => false,
    }
}

/// The same of an edit that was passed, where there is one.
fn is_over(passed: Option<&InFlight>) -> bool
    ensures { result ≡ is_over (option_copied passed.entry) }
{
    match passed {
        None => false,
        Some(passed) => is_over_unsure(&passed.edit),
    }
}

impl Session {
    /// An edit is told as confirmed. Whether its old rule may be gone.
    fn tell_confirmed(
        &mut self,
        edit: u64,
        serial: u64,
        outs: &mut Outs,
    ) -> Result<bool, OutOfMemory>
        ensures walk { OnOk result ((run : Run) → self.new ≡ takes run self.old (Reports (Confirmed self.old.number edit serial))) }
        ensures outs { OnOk result (outs.new ≡ outs.old ++ step.Note (Report (Confirmed self.old.number edit serial)) ∷ []) }
        ensures over { IfOk result (λ over. over ≡ is_over (edit_numbered edit self.old.now.unsettled)) }
    {
        let passed = self.unsettled.take(edit);
        self.tracks.end(edit);
        self.forget();
        self.reported = Some(edit);
        self.name = name_of(passed.as_ref());
        outs.push(Step::Note(Note::Report(Line::Confirmed {
            session: self.number,
            edit,
            serial,
        })))?;
        Ok(is_over(passed.as_ref()))
    }

    /// An edit is confirmed. Where its old rule may be gone, an own barrier follows at once.
    fn confirm(
        &mut self,
        alloc: Global,
        edit: u64,
        serial: u64,
        outs: &mut Outs,
    ) -> Result<(), OutOfMemory>
        ensures walk { OnOk result ((run : Run) → self.new ≡ walks run self.old (met (confirms self.old.number self.old.now serial (Some edit)))) }
        ensures outs { OnOk result (outs.new ≡ outs.old ++ steps_of self.old.number (met (confirms self.old.number self.old.now serial (Some edit)))) }
    {
        if !self.tell_confirmed(edit, serial, outs)? {
            return Ok(());
        }
        self.send_barrier(alloc, outs)
    }

    /// A probe of this serial came back to one of the sessions, and shows this. It confirms the unsettled edit of which it is
    /// among the 16 probes that are kept, where it shows just what that is to show; and then an own barrier follows at once
    /// where the edit put a rule over one that may be gone. A session that keeps no such probe does nothing.
    #[tactic(auto, using(crate::proofs::Returning::none_confirmed, crate::proofs::Returning::one_confirmed))]
    pub fn returned(
        &mut self,
        alloc: Global,
        serial: u64,
        seen: &Seen,
        outs: &mut Outs,
    ) -> Result<(), SessionEnd>
        ensures walk { OnOk result ((run : Run) → self.new ≡ walks run self.old (return_entries self.old.number self.old.now serial seen.now)) }
        ensures outs { OnOk result (outs.new ≡ outs.old ++ steps_of self.old.number (return_entries self.old.number self.old.now serial seen.now)) }
        ensures only { IsOkUnless result ends.OutOfMemory }
    {
        self.forget();
        let Some(edit) = self.tracks.confirmed(serial, seen) else {
            return Ok(());
        };
        self.confirm(alloc, edit, serial, outs)?;
        Ok(())
    }
}

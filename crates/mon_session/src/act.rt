//! What a session does by itself: replies that are due, and frames that may meet their fates.

ghost use Rattle.std.specs.Prelude.{◌≡◌, ◌++◌, ◌∷◌, [], true, false, is_some, option_copied, Some, None, OnOk, IfOk, ◌≢◌, Err};
ghost use Rattle.mon_report.specs.declared.line.Cause.{Cause};
ghost use Rattle.mon_session.specs.declared.step.SessionEnd.TheVariants as ends;
ghost use Rattle.mon_legal.specs.Runs.{Run};
ghost use Rattle.mon_legal.specs.Held.{due_reply, may_if, is_empty};
ghost use Rattle.mon_session.specs.Walks.{walks, steps_of};
ghost use Rattle.mon_session.specs.Acting.{entries_if, frames_due, due_in, Acted};
ghost use Rattle.mon_session.specs.Runs.{run_of};
ghost use Rattle.mon_session.specs.Entries.{with_now};
ghost use Rattle.mon_session.specs.Outputs.{act_of, steps_out, behind_act, OutputHasItsOld};

use crate::around::Around;
use crate::change::Output;
use crate::fate::awaited;
use crate::session::Session;
use crate::step::{Outs, SessionEnd};
use mon_header::Match;
use mon_list::OutOfMemory;
use mon_world::Side;
use std::alloc::Global;

impl Session {
    /// The oldest kept reply goes, where no edit is unsettled that was passed before its request.
    #[tactic(auto, using(crate::proofs::Releasing::none_goes, crate::proofs::Releasing::one_goes))]
    fn release(&mut self, outs: &mut Outs) -> Result<bool, OutOfMemory>
        ensures done { IfOk result (λ done. done ≡ is_some (due_reply self.old.now.unsettled self.old.now.kept)) }
        ensures walk { OnOk result ((run : Run) → self.new ≡ walks run self.old (entries_if self.old.number self.old.now (due_reply self.old.now.unsettled self.old.now.kept))) }
        ensures outs { OnOk result (outs.new ≡ outs.old ++ steps_of self.old.number (entries_if self.old.number self.old.now (due_reply self.old.now.unsettled self.old.now.kept))) }
    {
        let oldest = self.unsettled.oldest();
        let Some(frame) = self.barriers.release(oldest) else {
            return Ok(false);
        };
        self.send_back(frame, outs)?;
        Ok(true)
    }

    /// Whether what awaits this match may go on: it overlaps that of no unsettled edit.
    fn is_free(&self, awaited: Option<&Match>) -> bool
        ensures { result ≡ may_if (option_copied awaited.entry) self.now.now.unsettled }
    {
        match awaited {
            None => true,
            Some(m) => self.unsettled.may_pass(m),
        }
    }

    /// The next part of the planned frame goes out.
    fn put_out(&mut self, alloc: Global, output: Output, outs: &mut Outs) -> Result<(), SessionEnd>
        requires old { OutputHasItsOld (Some output) }
        ensures walk { OnOk result ((run : Run) → self.new ≡ walks run (with_now self.old (steps_out (act_of output) self.old.now)) (behind_act self.old.number self.old.now output)) }
        ensures outs { OnOk result (outs.new ≡ outs.old ++ steps_of self.old.number (behind_act self.old.number self.old.now output)) }
        ensures going { (c : Cause) → result ≢ Err (ends.Ended c) }
    {
        self.forget();
        match output {
            Output::Plain {
                to: Side::Controller,
                frame,
            } => {
                self.send_back(frame, outs)?;
                Ok(())
            }
            Output::Plain {
                to: Side::Switch,
                frame,
            } => {
                self.send_on(alloc, frame, outs)?;
                Ok(())
            }
            Output::Edited { frame, edit } => {
                self.pass_edit(alloc, frame, edit, outs)?;
                Ok(())
            }
        }
    }

    /// What is left of the planned frame goes on, where its next edit overlaps no unsettled one.
    #[tactic(auto, using(crate::proofs::Doing::due_some, crate::proofs::Doing::due_none, crate::proofs::Doing::went_on, crate::proofs::Doing::steps_on_due))]
    fn go_on(&mut self, alloc: Global, outs: &mut Outs) -> Result<bool, SessionEnd>
        requires some { is_empty self.old.now.under_way ≡ false }
        ensures done { IfOk result (λ done. done ≡ is_some (frames_due self.old.now)) }
        ensures walk { OnOk result ((run : Run) → self.new ≡ walks run self.old (entries_if self.old.number self.old.now (frames_due self.old.now))) }
        ensures outs { OnOk result (outs.new ≡ outs.old ++ steps_of self.old.number (entries_if self.old.number self.old.now (frames_due self.old.now))) }
        ensures going { (c : Cause) → result ≢ Err (ends.Ended c) }
    {
        if !self.is_free(self.ordered.awaited()) {
            return Ok(false);
        }
        let Some(output) = self.ordered.next(alloc)? else {
            return Ok(false);
        };
        self.put_out(alloc, output, outs)?;
        Ok(true)
    }

    /// The first frame that waits is planned, where its match overlaps no unsettled edit.
    #[tactic(auto, using(crate::proofs::Doing::plan_due, crate::proofs::Doing::none_waits, crate::proofs::Doing::planned_is))]
    fn plan(&mut self, alloc: Global) -> Result<bool, OutOfMemory>
        requires idle { is_empty self.old.now.under_way ≡ true }
        ensures done { IfOk result (λ done. done ≡ is_some (frames_due self.old.now)) }
        ensures walk { OnOk result ((run : Run) → self.new ≡ walks run self.old (entries_if self.old.number self.old.now (frames_due self.old.now))) }
    {
        let Some(frame) = self.ordered.head() else {
            return Ok(false);
        };
        let awaited = awaited(alloc, frame)?;
        if !self.is_free(awaited.as_ref()) {
            return Ok(false);
        }
        let cuts = self.unsettled.cuts()?;
        self.forget();
        self.ordered.plan(alloc, &self.table, &self.catching, cuts)?;
        Ok(true)
    }

    /// What its frames let the session do.
    fn take_frames(&mut self, alloc: Global, outs: &mut Outs) -> Result<bool, SessionEnd>
        ensures done { IfOk result (λ done. done ≡ is_some (frames_due self.old.now)) }
        ensures walk { OnOk result ((run : Run) → self.new ≡ walks run self.old (entries_if self.old.number self.old.now (frames_due self.old.now))) }
        ensures outs { OnOk result (outs.new ≡ outs.old ++ steps_of self.old.number (entries_if self.old.number self.old.now (frames_due self.old.now))) }
        ensures going { (c : Cause) → result ≢ Err (ends.Ended c) }
    {
        if !self.ordered.is_idle() {
            return self.go_on(alloc, outs);
        }
        let done = self.plan(alloc)?;
        Ok(done)
    }

    /// The session does what is due next, where anything is.
    #[tactic(auto, using(crate::proofs::Doing::unarmed_due, crate::proofs::Doing::reply_first, crate::proofs::Doing::frames_last))]
    fn act_once(&mut self, alloc: Global, outs: &mut Outs) -> Result<bool, SessionEnd>
        ensures done { IfOk result (λ done. done ≡ is_some (due_in self.old.now)) }
        ensures walk { OnOk result ((run : Run) → self.new ≡ walks run self.old (entries_if self.old.number self.old.now (due_in self.old.now))) }
        ensures outs { OnOk result (outs.new ≡ outs.old ++ steps_of self.old.number (entries_if self.old.number self.old.now (due_in self.old.now))) }
        ensures going { (c : Cause) → result ≢ Err (ends.Ended c) }
    {
        if !self.armed {
            return Ok(false);
        }
        if self.release(outs)? {
            return Ok(true);
        }
        self.take_frames(alloc, outs)
    }

    /// What the session does by itself, until nothing is due: replies that may go, and frames of the controller that may meet
    /// their fates. More of it than a `u64` counts is more than any memory holds.
    pub fn act(&mut self, alloc: Global, around: &Around, outs: &mut Outs) -> Result<(), SessionEnd>
        ensures acted { OnOk result (Acted (run_of around.now) self.old self.new outs.old outs.new) }
        ensures done { OnOk result (due_in self.new.now ≡ None) }
        ensures going { (c : Cause) → result ≢ Err (ends.Ended c) }
    {
        for _ in 0..u64::MAX {
            if !self.act_once(alloc, outs)? {
                return Ok(());
            }
        }
        Err(SessionEnd::OutOfMemory)
    }
}

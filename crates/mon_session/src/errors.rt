//! ERRORs of the switch: one for the frame of an unsettled edit rejects that edit.

ghost use Rattle.std.specs.Prelude.{◌≡◌, ◌++◌, ◌∷◌, [], ℕ, List, ◌+◌, true, false, Err, Some, None, option_map, OnOk, IfOk, ◌≢◌};
ghost use Rattle.std.specs.List.{list_any};
ghost use Rattle.of_frame.specs.Header.{kind_of};
ghost use Rattle.mon_report.specs.declared.line.Cause.{Cause};
ghost use Rattle.mon_report.specs.declared.line.What.TheVariants as what;
ghost use Rattle.mon_world.specs.declared.event.Side.TheVariants.{Controller};
ghost use Rattle.mon_legal.specs.Runs.{Run};
ghost use Rattle.mon_legal.specs.Owns.Own.{From_switch};
ghost use Rattle.mon_legal.specs.Messages.{is_own_error};
ghost use Rattle.mon_legal.specs.Edits.{rejected_by};
ghost use Rattle.mon_legal.specs.Directly.{ends_in, fact};
ghost use Rattle.mon_legal.specs.Directly.Due.{Ending, Frame as Frame_due};
ghost use Rattle.mon_session.specs.declared.step.SessionEnd.TheVariants as ends;
ghost use Rattle.mon_session.specs.Now.{taken_back};
ghost use Rattle.mon_session.specs.Dues.{error_dues, met};
ghost use Rattle.mon_session.specs.Walks.{walks, steps_of};
ghost use Rattle.mon_session.specs.Entering.{greets, rejects_edit};
ghost use Rattle.mon_session.specs.Entries.{with_now};

use crate::in_flight::InFlight;
use crate::session::Session;
use crate::step::{Outs, SessionEnd};
use mon_list::OutOfMemory;
use mon_report::{Cause, Line, What};
use mon_table::{Rule, Table};
use of_frame::Frame;
use of_msgs::OWN_XID;
use std::alloc::Global;

/// Takes an edit back: what stood in its place comes back, or its rule is cut where nothing stood there.
#[tactic(auto, unfolding(mon_table::specs::Edits::after))]
fn take_back(alloc: Global, table: &mut Table, passed: Option<InFlight>) -> Result<(), OutOfMemory>
    ensures { OnOk result (table.new ≡ taken_back passed table.old) }
{
    let Some(passed) = passed else {
        return Ok(());
    };
    let InFlight { edit, stood, .. } = passed;
    match stood {
        Some(old) => {
            table.put(old)?;
            Ok(())
        }
        None => {
            let rule = edit.rule();
            table.cut(&rule.matching, rule.priority)?;
            Ok(())
        }
    }
}

impl Session {
    /// The edit of a number is rejected.
    fn reject(&mut self, alloc: Global, edit: u64) -> Result<(), SessionEnd>
        ensures rejected { OnOk result (self.new ≡ with_now self.old (rejects_edit edit self.old.now)) }
        ensures going { (c : Cause) → result ≢ Err (ends.Ended c) }
    {
        self.raise()?;
        self.tracks.end(edit);
        let passed = self.unsettled.take(edit);
        take_back(alloc, &mut self.table, passed)?;
        Ok(())
    }

    /// An ERROR that rejects nothing: one with the proxy's own xid goes no further, and ends a session that is not armed.
    fn pass_error(&mut self, frame: Frame, outs: &mut Outs) -> Result<(), SessionEnd>
        requires kind { kind_of frame ≡ 1 }
        ensures walk { OnOk result ((run : Run) → self.new ≡ walks run self.old (met (error_dues self.old.number self.old.now.armed frame None))) }
        ensures outs { OnOk result (outs.new ≡ outs.old ++ steps_of self.old.number (met (error_dues self.old.number self.old.now.armed frame None))) }
        ensures calm { OnOk result (ends_in (error_dues self.old.number self.old.now.armed frame None) ≡ false) }
        ensures ended { (c : Cause) → result ≡ Err (ends.Ended c) → (error_dues self.old.number self.old.now.armed frame None ≡ Ending c ∷ []) × (outs.new ≡ outs.old) }
    {
        if frame.xid() != OWN_XID {
            self.send_back(frame, outs)?;
            return Ok(());
        }
        if !self.armed {
            return Err(SessionEnd::Ended(Cause::NotArmed));
        }
        Ok(())
    }

    /// An ERROR rejects the edit of a number.
    fn pass_rejection(
        &mut self,
        frame: Frame,
        edit: u64,
        outs: &mut Outs,
    ) -> Result<(), OutOfMemory>
        ensures walk { OnOk result ((run : Run) → self.new ≡ walks run self.old (met (error_dues self.old.number self.old.now.armed frame (Some edit)))) }
        ensures outs { OnOk result (outs.new ≡ outs.old ++ steps_of self.old.number (met (error_dues self.old.number self.old.now.armed frame (Some edit)))) }
    {
        self.send_back(frame, outs)?;
        let line = Line::Fact {
            session: self.number,
            edit,
            what: What::Rejected,
        };
        self.tell(line, outs)
    }

    /// An ERROR.
    pub(crate) fn error(
        &mut self,
        alloc: Global,
        frame: Frame,
        outs: &mut Outs,
    ) -> Result<(), SessionEnd>
        requires kind { kind_of frame ≡ 1 }
        ensures walk { OnOk result ((run : Run) (others : List ℕ) → self.new ≡ walks run self.old (From_switch frame others ∷ met (error_dues self.old.number self.old.now.armed frame (rejected_by frame self.old.now.unsettled)))) }
        ensures outs { OnOk result (outs.new ≡ outs.old ++ steps_of self.old.number (met (error_dues self.old.number self.old.now.armed frame (rejected_by frame self.old.now.unsettled)))) }
        ensures calm { OnOk result (ends_in (error_dues self.old.number self.old.now.armed frame (rejected_by frame self.old.now.unsettled)) ≡ false) }
        ensures ended { (c : Cause) → result ≡ Err (ends.Ended c) → (error_dues self.old.number self.old.now.armed frame (rejected_by frame self.old.now.unsettled) ≡ Ending c ∷ []) × (outs.new ≡ outs.old) }
    {
        self.greet();
        let Some(edit) = self.unsettled.rejected(&frame) else {
            return self.pass_error(frame, outs);
        };
        self.reject(alloc, edit)?;
        self.pass_rejection(frame, edit, outs)?;
        Ok(())
    }
}

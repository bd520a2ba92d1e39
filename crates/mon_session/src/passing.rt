//! Edits that go out, and what is told of them at once.

ghost use Rattle.std.specs.Prelude.{◌≡◌, ◌+◌, ◌++◌, ◌∷◌, [], true, false, Some, OnOk, IfOk, ◌≢◌, Err};
ghost use Rattle.mon_report.specs.declared.line.Cause.{Cause};
ghost use Rattle.mon_session.specs.declared.step.SessionEnd.TheVariants as ends;
ghost use Rattle.mon_report.specs.declared.line.What.{What};
ghost use Rattle.mon_report.specs.declared.line.Line.TheVariants.{Fact};
ghost use Rattle.mon_world.specs.declared.event.Note.TheVariants.{Report};
ghost use Rattle.mon_world.specs.declared.event.Side.TheVariants.{Switch};
ghost use Rattle.mon_legal.specs.Runs.{Run};
ghost use Rattle.mon_legal.specs.Owns.Own.{Reports, Sends};
ghost use Rattle.mon_legal.specs.Barriers.{is_barriered};
ghost use Rattle.mon_legal.specs.Directly.{on_edit};
ghost use Rattle.mon_session.specs.declared.step.Step.TheVariants as step;
ghost use Rattle.mon_session.specs.Now.{made_if};
ghost use Rattle.mon_session.specs.Walks.{takes, walks, steps_of};
ghost use Rattle.mon_session.specs.Entries.{with_now};
ghost use Rattle.mon_session.specs.UnderWay.{HasItsOld};
ghost use Rattle.mon_session.specs.Outputs.{dues_of, passing};
ghost use Rattle.mon_session.specs.Dues.{met};

use crate::arming::own_barrier;
use crate::session::Session;
use crate::step::{Outs, SessionEnd, Step};
use crate::unsettled::changes_nothing;
use mon_list::OutOfMemory;
use mon_report::{Line, What};
use mon_table::Edit;
use mon_world::Note;
use of_frame::Frame;
use std::alloc::Global;

impl Session {
    /// A line goes out by which no probe is to show an edit. An own barrier is to follow at once.
    #[tactic(auto, using(crate::proofs::Plain::barriered_tells))]
    pub(crate) fn tell_barriered(
        &mut self,
        edit: u64,
        what: What,
        outs: &mut Outs,
    ) -> Result<(), OutOfMemory>
        requires { is_barriered what ≡ true }
        ensures walk { OnOk result ((run : Run) → self.new ≡ takes run self.old (Reports (Fact self.old.number edit what))) }
        ensures outs { OnOk result (outs.new ≡ outs.old ++ step.Note (Report (Fact self.old.number edit what)) ∷ []) }
    {
        self.forget();
        self.name = self.unsettled.mark(edit);
        self.tracks.mark(edit);
        self.reported = Some(edit);
        outs.push(Step::Note(Note::Report(Line::Fact {
            session: self.number,
            edit,
            what,
        })))
    }

    /// An edit is told to overlap, and an own barrier follows.
    fn tell_overlap(&mut self, alloc: Global, edit: u64, outs: &mut Outs) -> Result<(), SessionEnd>
        ensures walk { OnOk result ((run : Run) → self.new ≡ walks run self.old (met (dues_of self.old.number edit false true))) }
        ensures outs { OnOk result (outs.new ≡ outs.old ++ steps_of self.old.number (met (dues_of self.old.number edit false true))) }
        ensures going { (c : Cause) → result ≢ Err (ends.Ended c) }
    {
        self.tell_barriered(edit, What::Overlap, outs)?;
        let barrier = own_barrier(alloc)?;
        self.send_on(alloc, barrier, outs)?;
        Ok(())
    }

    /// What is told of an edit that just went out: it changed nothing, or its rule is tied.
    fn tell_of(
        &mut self,
        alloc: Global,
        edit: u64,
        nothing: bool,
        tied: bool,
        outs: &mut Outs,
    ) -> Result<(), SessionEnd>
        ensures walk { OnOk result ((run : Run) → self.new ≡ walks run self.old (met (dues_of self.old.number edit nothing tied))) }
        ensures outs { OnOk result (outs.new ≡ outs.old ++ steps_of self.old.number (met (dues_of self.old.number edit nothing tied))) }
        ensures going { (c : Cause) → result ≢ Err (ends.Ended c) }
    {
        if nothing {
            let line = Line::Fact {
                session: self.number,
                edit,
                what: What::NoChange,
            };
            self.tell(line, outs)?;
            return Ok(());
        }
        if tied {
            self.tell_overlap(alloc, edit, outs)?;
        }
        Ok(())
    }

    /// An edit goes out in this frame.
    #[tactic(auto, using(crate::proofs::Tying::tie_behind))]
    pub(crate) fn pass_edit(
        &mut self,
        alloc: Global,
        frame: Frame,
        edit: Edit,
        outs: &mut Outs,
    ) -> Result<(), SessionEnd>
        requires { HasItsOld edit }
        ensures walk { OnOk result ((run : Run) → self.new ≡ walks run (with_now self.old (record self.old.now { out = Some edit })) (passing self.old.number self.old.now frame edit)) }
        ensures outs { OnOk result (outs.new ≡ outs.old ++ steps_of self.old.number (passing self.old.number self.old.now frame edit)) }
        ensures going { (c : Cause) → result ≢ Err (ends.Ended c) }
    {
        let nothing = changes_nothing(&edit);
        let tied = self.table.tied(edit.rule());
        // (the version rises with each edit, and is used up first)
        let Some(number) = self.unsettled.count().checked_add(1) else {
            return Err(SessionEnd::OutOfMemory);
        };
        self.out = Some(edit);
        self.send_on(alloc, frame, outs)?;
        self.tell_of(alloc, number, nothing, tied, outs)?;
        Ok(())
    }
}

//! Frames that go out to the two sides, and what a session notes of them.

ghost use Rattle.std.specs.Prelude.{◌≡◌, ◌+◌, ◌++◌, ◌∷◌, [], ◌<◌, ◌^◌, true, false, not, ◌==◌, Some, None, OnOk, OnErr, IfOk, ◌≢◌, Err, IsOkUnless};
ghost use Rattle.mon_report.specs.declared.line.Cause.{Cause};
ghost use Rattle.mon_session.specs.declared.step.SessionEnd.TheVariants as ends;
ghost use Rattle.mon_table.specs.Rules.{identity_of};
ghost use Rattle.mon_table.specs.Tables.{rule_of};
ghost use Rattle.mon_table.specs.Edits.{after, edited};
ghost use Rattle.mon_world.specs.declared.event.Side.TheVariants.{Controller, Switch};
ghost use Rattle.mon_world.specs.declared.event.Out.TheVariants.{Send};
ghost use Rattle.mon_legal.specs.Runs.{Run};
ghost use Rattle.mon_legal.specs.Owns.Own.{Sends};
ghost use Rattle.mon_legal.specs.Messages.{own_barrier};
ghost use Rattle.mon_legal.specs.Versions.{miss_after};
ghost use Rattle.mon_session.specs.declared.step.Step.TheVariants as step;
ghost use Rattle.mon_session.specs.Now.{asker_of};
ghost use Rattle.mon_session.specs.Tracks.{with_track};
ghost use Rattle.mon_session.specs.Walks.{takes};
ghost use Rattle.mon_session.specs.Entries.{with_now, forgotten, asks, passes, follows};

use crate::arming::own_barrier;
use crate::session::Session;
use crate::step::{Outs, SessionEnd, Step};
use crate::unsettled::changes_nothing;
use mon_barriers::Asker;
use mon_list::OutOfMemory;
use mon_table::{Edit, Rule, Table};
use mon_world::{Out, Side};
use of_frame::{Frame, kinds};
use of_msgs::read_miss_length;
use std::alloc::Global;

/// Brings a table on by an edit, and gives what stood in its place.
#[tactic(auto, unfolding(mon_table::specs::Edits::after))]
fn follow(alloc: Global, table: &mut Table, edit: &Edit) -> Result<Option<Rule>, OutOfMemory>
    ensures table { OnOk result (table.new ≡ after table.old edit.now) }
    ensures stood { IfOk result (λ stood. stood ≡ rule_of (identity_of (edited edit.now)) table.old) }
{
    match edit {
        Edit::Put { rule, .. } => table.put(rule.copied(alloc)?),
        Edit::Cut { rule } => table.cut(&rule.matching, rule.priority),
    }
}

impl Session {
    /// The slot's version rises by one.
    pub(crate) fn raise(&mut self) -> Result<(), SessionEnd>
        ensures raised { OnOk result (self.new ≡ with_now self.old (record self.old.now { version = self.old.now.version + 1 })) }
        ensures same { OnErr result (self.new ≡ self.old) }
        ensures last { OnErr result (self.old.now.version + 1 ≡ 2 ^ 64) }
        ensures only { IsOkUnless result ends.NumbersUsed }
    {
        let Some(version) = self.version.checked_add(1) else {
            return Err(SessionEnd::NumbersUsed);
        };
        self.version = version;
        Ok(())
    }

    /// Nothing was just reported, and no edit is on its way out.
    pub(crate) fn forget(&mut self)
        ensures { self.new ≡ with_now self.old (forgotten self.old.now) }
    {
        self.reported = None;
        self.out = None;
        self.name = None;
    }

    /// Whose a barrier request is that goes out now.
    fn asker(&self) -> Asker
        ensures { result ≡ asker_of self.now.now }
    {
        if !self.asked {
            return Asker::Arming;
        }
        match self.reported {
            Some(edit) => Asker::Own { edit },
            None => Asker::Controller {
                edits: self.unsettled.count(),
            },
        }
    }

    /// A barrier request goes out.
    fn ask(&mut self) -> Result<(), OutOfMemory>
        ensures { OnOk result (self.new ≡ with_now self.old (asks self.old.now)) }
    {
        let who = self.asker();
        self.barriers.ask(who)?;
        let name = self.name.take();
        self.guards.push_back(name)?;
        self.asked = true;
        Ok(())
    }

    /// The frame may set the miss length. Whether that changed.
    fn follow_miss(&mut self, frame: &Frame) -> bool
        ensures miss { self.new ≡ with_now self.old (record self.old.now { miss = miss_after frame.now self.old.now.miss }) }
        ensures changed { result ≡ not (miss_after frame.now self.old.now.miss == self.old.now.miss) }
    {
        if frame.kind() != kinds::SET_CONFIG {
            return false;
        }
        let Some(miss) = read_miss_length(frame) else {
            return false;
        };
        let changed = miss != self.miss;
        self.miss = miss;
        changed
    }

    /// A frame goes out to the controller.
    pub(crate) fn send_back(&mut self, frame: Frame, outs: &mut Outs) -> Result<(), OutOfMemory>
        ensures walk { OnOk result ((run : Run) → self.new ≡ takes run self.old (Sends Controller frame false)) }
        ensures outs { OnOk result (outs.new ≡ outs.old ++ step.Out (Send self.old.number Controller frame) ∷ []) }
    {
        self.forget();
        outs.push(Step::Out(Out::Send {
            session: self.number,
            to: Side::Controller,
            frame,
        }))
    }

    /// The jobs and probes of an edit that goes out are followed, where it changes something.
    fn track(&mut self, alloc: Global, edit: &Edit) -> Result<(), OutOfMemory>
        ensures { OnOk result (self.new ≡ with_now self.old (record self.old.now { tracks = with_track (Some edit.now) self.old.now.count self.old.now.tracks })) }
    {
        if changes_nothing(edit) {
            return Ok(());
        }
        let Some(number) = self.unsettled.count().checked_add(1) else {
            return Err(OutOfMemory);
        };
        self.tracks.begin(alloc, number)
    }

    /// The edit that the last step let out is passed in this frame.
    fn pass(&mut self, alloc: Global, frame: &Frame) -> Result<(), OutOfMemory>
        ensures { OnOk result (self.new ≡ with_now self.old (passes self.old.now frame.now)) }
    {
        let Some(edit) = self.out.take() else {
            return Ok(());
        };
        self.track(alloc, &edit)?;
        let stood = follow(alloc, &mut self.table, &edit)?;
        self.unsettled.pass(alloc, edit, stood, frame)
    }

    /// Whether the frame changes the version: an edit goes out in it, or it sets another miss length.
    fn follow_version(&mut self, frame: &Frame) -> Result<(), SessionEnd>
        ensures followed { OnOk result (self.new ≡ with_now self.old (follows self.old.now frame.now)) }
        ensures going { (c : Cause) → result ≢ Err (ends.Ended c) }
    {
        let passes = self.out.is_some();
        let changed = self.follow_miss(frame);
        if passes || changed {
            self.raise()?;
        }
        Ok(())
    }

    /// A frame goes out to the switch. Where the last step let an edit out, it is that one's.
    pub(crate) fn send_on(
        &mut self,
        alloc: Global,
        frame: Frame,
        outs: &mut Outs,
    ) -> Result<(), SessionEnd>
        ensures walk { OnOk result ((run : Run) → self.new ≡ takes run self.old (Sends Switch frame false)) }
        ensures outs { OnOk result (outs.new ≡ outs.old ++ step.Out (Send self.old.number Switch frame) ∷ []) }
        ensures going { (c : Cause) → result ≢ Err (ends.Ended c) }
    {
        self.follow_version(&frame)?;
        if frame.kind() == kinds::BARRIER_REQUEST {
            self.ask()?;
        }
        self.pass(alloc, &frame)?;
        self.forget();
        outs.push(Step::Out(Out::Send {
            session: self.number,
            to: Side::Switch,
            frame,
        }))?;
        Ok(())
    }

    /// A barrier request of the proxy's own goes out, behind a report. No edit is on its way out then.
    pub(crate) fn send_barrier(&mut self, alloc: Global, outs: &mut Outs) -> Result<(), OutOfMemory>
        requires none { self.old.now.out ≡ None }
        ensures walk { OnOk result ((run : Run) → self.new ≡ takes run self.old (Sends Switch own_barrier false)) }
        ensures outs { OnOk result (outs.new ≡ outs.old ++ step.Out (Send self.old.number Switch own_barrier) ∷ []) }
    {
        let frame = own_barrier(alloc)?;
        self.ask()?;
        self.forget();
        outs.push(Step::Out(Out::Send {
            session: self.number,
            to: Side::Switch,
            frame,
        }))
    }
}

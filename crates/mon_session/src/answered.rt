//! The answers of the switch to barriers (OpenFlow 1.0.0, barrier messages).

ghost use Rattle.std.specs.Prelude.{◌≡◌, ◌++◌, ◌∷◌, [], ℕ, List, true, OnOk, IfOk};
ghost use Rattle.std.specs.List.{list_any};
ghost use Rattle.of_frame.specs.Header.{kind_of};
ghost use Rattle.mon_barriers.specs.Barriers.{asked_of};
ghost use Rattle.mon_legal.specs.Runs.{Run};
ghost use Rattle.mon_legal.specs.Owns.Own.{From_switch};
ghost use Rattle.mon_legal.specs.Edits.{is_number};
ghost use Rattle.mon_legal.specs.Directly.{armed_line};
ghost use Rattle.mon_session.specs.Now.{answered};
ghost use Rattle.mon_session.specs.Runs.{run_of};
ghost use Rattle.mon_session.specs.Walks.{walks, steps_of};
ghost use Rattle.mon_session.specs.Entries.{with_now, settles};
ghost use Rattle.mon_session.specs.Entering.{answered_by};
ghost use Rattle.mon_session.specs.Dues.{met, barrier_dues, settled_dues};

use crate::around::Around;
use crate::session::Session;
use crate::step::Outs;
use mon_barriers::{Asked, Asker};
use mon_list::OutOfMemory;
use mon_report::{Line, What};
use of_frame::Frame;

impl Session {
    /// A barrier reply came: the oldest request is answered.
    fn take_answer(&mut self, frame: Frame) -> Result<Asked, OutOfMemory>
        ensures asked { IfOk result (λ asked. asked ≡ asked_of self.old.now.askers frame) }
        ensures taken { OnOk result (self.new ≡ with_now self.old (answered_by frame self.old.now)) }
    {
        self.greet();
        let asked = self.barriers.reply(frame)?;
        self.guards.pop_front();
        Ok(asked)
    }

    /// The edit of a number is unsettled no more. Whether it was.
    fn settle(&mut self, edit: u64) -> bool
        ensures settled { self.new ≡ with_now self.old (settles edit self.old.now) }
        ensures was { result ≡ list_any (is_number edit) self.old.now.unsettled }
    {
        let was = self.unsettled.has(edit);
        self.unsettled.take(edit);
        self.tracks.end(edit);
        was
    }

    /// The barrier that arms the switch was answered.
    fn arm(&mut self, around: &Around, outs: &mut Outs) -> Result<(), OutOfMemory>
        ensures walk { OnOk result (self.new ≡ walks (run_of around.now) (with_now self.old (record self.old.now { armed = true })) (met (armed_line (run_of around.now) self.old.number self.old.now.datapath))) }
        ensures outs { OnOk result (outs.new ≡ outs.old ++ steps_of self.old.number (met (armed_line (run_of around.now) self.old.number self.old.now.datapath))) }
    {
        self.armed = true;
        let Some(datapath) = self.datapath else {
            return Ok(());
        };
        let Some(tag) = around.tags.tag_of(datapath) else {
            return Ok(());
        };
        let line = Line::Armed {
            session: self.number,
            datapath,
            tag,
        };
        self.tell(line, outs)
    }

    /// The barrier behind the report of an edit was answered: where the edit is unsettled it is settled.
    fn settle_behind(&mut self, edit: u64, outs: &mut Outs) -> Result<(), OutOfMemory>
        ensures walk { OnOk result ((run : Run) → self.new ≡ walks run (with_now self.old (settles edit self.old.now)) (met (settled_dues self.old.number edit (list_any (is_number edit) self.old.now.unsettled)))) }
        ensures outs { OnOk result (outs.new ≡ outs.old ++ steps_of self.old.number (met (settled_dues self.old.number edit (list_any (is_number edit) self.old.now.unsettled)))) }
    {
        if !self.settle(edit) {
            return Ok(());
        }
        let line = Line::Fact {
            session: self.number,
            edit,
            what: What::Settled,
        };
        self.tell(line, outs)
    }

    /// A barrier reply came. The one to the arming's request arms the switch, one to an own request settles the edit that was
    /// reported, one to the controller's is kept, and one that answers nothing goes on.
    pub(crate) fn barrier_reply(
        &mut self,
        frame: Frame,
        around: &Around,
        outs: &mut Outs,
    ) -> Result<(), OutOfMemory>
        requires { kind_of frame ≡ 19 }
        ensures walk { OnOk result ((others : List ℕ) → self.new ≡ walks (run_of around.now) self.old (From_switch frame others ∷ met (barrier_dues (run_of around.now) self.old.number self.old.now frame (answered self.old.now frame)))) }
        ensures outs { OnOk result (outs.new ≡ outs.old ++ steps_of self.old.number (met (barrier_dues (run_of around.now) self.old.number self.old.now frame (answered self.old.now frame)))) }
    {
        match self.take_answer(frame)? {
            Asked::Own(Asker::Arming) => self.arm(around, outs),
            Asked::Own(Asker::Own { edit }) => self.settle_behind(edit, outs),
            Asked::Own(Asker::Controller { .. }) => unreachable!(),
            Asked::Kept => Ok(()),
            Asked::Stray(frame) => self.send_back(frame, outs),
        }
    }
}

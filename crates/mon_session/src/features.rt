//! The switch's own FEATURES_REPLY (OpenFlow 1.0.0, switch features), which tells which switch it is.

ghost use Rattle.std.specs.Prelude.{◌≡◌, ◌++◌, ◌∷◌, [], ℕ, List, true, false, ◌==◌, Err, OnOk, ◌≢◌};
ghost use Rattle.std.specs.List.{list_any};
ghost use Rattle.mon_report.specs.declared.line.Cause.{Cause};
ghost use Rattle.mon_world.specs.declared.event.Side.TheVariants.{Switch};
ghost use Rattle.mon_legal.specs.Runs.{Run};
ghost use Rattle.mon_legal.specs.Owns.Own.{From_switch};
ghost use Rattle.mon_legal.specs.Directly.{frames_to, ends_in};
ghost use Rattle.mon_legal.specs.Directly.Due.{Ending};
ghost use Rattle.mon_session.specs.declared.step.SessionEnd.TheVariants as ends;
ghost use Rattle.mon_session.specs.Now.{is_reply};
ghost use Rattle.mon_session.specs.Runs.{run_of};
ghost use Rattle.mon_session.specs.Walks.{walks, steps_of};
ghost use Rattle.mon_session.specs.Entries.{with_now};
ghost use Rattle.mon_session.specs.Entering.{knows};
ghost use Rattle.mon_session.specs.Dues.{met, reply_dues};

use crate::arming::{arming_frames, catching_table};
use crate::around::Around;
use crate::session::Session;
use crate::step::{Outs, SessionEnd};
use mon_list::OutOfMemory;
use mon_report::Cause;
use mon_topo::Datapaths;
use of_frame::{Frame, Frames, kinds};
use of_msgs::read_features;
use std::alloc::Global;

impl Session {
    /// Whether a frame is the switch's own FEATURES_REPLY.
    pub(crate) fn is_reply(&self, frame: &Frame) -> bool
        ensures { result ≡ is_reply self.now.now frame.now }
    {
        !self.known && self.greeted && frame.kind() == kinds::FEATURES_REPLY
    }

    /// Frames go out to the switch, in order.
    #[tactic(auto, using(crate::proofs::Walking::sends_more, crate::proofs::Walking::steps_more))]
    fn send_all(&mut self, alloc: Global, frames: Frames, outs: &mut Outs) -> Result<(), SessionEnd>
        ensures walk { OnOk result ((run : Run) → self.new ≡ walks run self.old (met (frames_to Switch frames))) }
        ensures outs { OnOk result (outs.new ≡ outs.old ++ steps_of self.old.number (met (frames_to Switch frames))) }
        ensures going { (c : Cause) → result ≢ Err (ends.Ended c) }
    {
        for frame in frames.into_items() {
            self.send_on(alloc, frame, outs)?;
        }
        Ok(())
    }

    /// The switch's own FEATURES_REPLY names this datapath, and its tag is this one.
    fn know(
        &mut self,
        alloc: Global,
        datapath: u64,
        tag: u16,
        in_use: &[u16],
    ) -> Result<(), OutOfMemory>
        ensures { OnOk result (self.new ≡ with_now self.old (knows datapath tag in_use.now self.old.now)) }
    {
        self.greet();
        self.known = true;
        self.datapath = Some(datapath);
        self.catching = catching_table(alloc, tag, in_use)?;
        Ok(())
    }

    /// The switch's own FEATURES_REPLY ends the session, or leads to the frames that arm the switch.
    #[tactic(auto, using(crate::proofs::Framed::as_reply))]
    pub(crate) fn own_reply(
        &mut self,
        alloc: Global,
        frame: &Frame,
        around: &Around,
        outs: &mut Outs,
    ) -> Result<(), SessionEnd>
        requires reply { is_reply self.old.now frame.now ≡ true }
        ensures walk { OnOk result ((others : List ℕ) → self.new ≡ walks (run_of around.now) self.old (From_switch frame.now others ∷ met (reply_dues (run_of around.now) around.now.taken.now frame.now))) }
        ensures calm { OnOk result (ends_in (reply_dues (run_of around.now) around.now.taken.now frame.now) ≡ false) }
        ensures outs { OnOk result (outs.new ≡ outs.old ++ steps_of self.old.number (met (reply_dues (run_of around.now) around.now.taken.now frame.now))) }
        ensures ended { (c : Cause) → result ≡ Err (ends.Ended c) → (reply_dues (run_of around.now) around.now.taken.now frame.now ≡ Ending c ∷ []) × (outs.new ≡ outs.old) }
    {
        let Some(datapath) = read_features(frame) else {
            return Err(SessionEnd::Ended(Cause::Features));
        };
        let Some(tag) = around.tags.tag_of(datapath) else {
            return Err(SessionEnd::Ended(Cause::UnknownSwitch));
        };
        if is_among(datapath, around.taken) {
            return Err(SessionEnd::Ended(Cause::SameSwitch));
        }
        self.know(alloc, datapath, tag, around.tags.in_use())?;
        let frames = arming_frames(alloc, tag, around.tags.in_use())?;
        self.send_all(alloc, frames, outs)
    }
}

/// Whether a datapath id is one of these.
fn is_among(datapath: u64, taken: &Datapaths) -> bool
    ensures { result ≡ list_any (λ other. other == datapath) taken.now }
{
    taken.items().iter().any(|other| *other == datapath)
}

//! What each frame of the switch leads to.

ghost use Rattle.std.specs.Prelude.{◌≡◌, ◌++◌, ◌∷◌, [], ℕ, List, false, Err, OnOk};
ghost use Rattle.mon_report.specs.declared.line.Cause.{Cause};
ghost use Rattle.mon_legal.specs.Owns.Own.{From_switch};
ghost use Rattle.mon_legal.specs.Directly.{ends_in, is_return};
ghost use Rattle.mon_legal.specs.Directly.Due.{Ending};
ghost use Rattle.mon_session.specs.declared.step.SessionEnd.TheVariants as ends;
ghost use Rattle.mon_session.specs.Runs.{run_of};
ghost use Rattle.mon_session.specs.Walks.{walks, steps_of};
ghost use Rattle.mon_session.specs.Dues.{met, switch_dues, others_at, dues_at};
ghost use Rattle.mon_session.specs.Returning.{return_steps};

use crate::around::Around;
use crate::carried::own_probe;
use crate::session::Session;
use crate::step::{Outs, SessionEnd};
use of_frame::{Frame, kinds};
use std::alloc::Global;

impl Session {
    /// A frame that bears no probe of this run is handled by its kind.
    fn handle(
        &mut self,
        alloc: Global,
        frame: Frame,
        around: &Around,
        outs: &mut Outs,
    ) -> Result<(), SessionEnd>
        requires no_return { is_return (run_of around.now) frame ≡ false }
        ensures walk { OnOk result ((others : List ℕ) → self.new ≡ walks (run_of around.now) self.old (From_switch frame others ∷ met (switch_dues (run_of around.now) self.old.number around.now.taken.now self.old.now frame))) }
        ensures calm { OnOk result (ends_in (switch_dues (run_of around.now) self.old.number around.now.taken.now self.old.now frame) ≡ false) }
        ensures outs { OnOk result (outs.new ≡ outs.old ++ steps_of self.old.number (met (switch_dues (run_of around.now) self.old.number around.now.taken.now self.old.now frame))) }
        ensures ended { (c : Cause) → result ≡ Err (ends.Ended c) → (switch_dues (run_of around.now) self.old.number around.now.taken.now self.old.now frame ≡ Ending c ∷ []) × (outs.new ≡ outs.old) }
    {
        if self.is_reply(&frame) {
            return self.own_reply(alloc, &frame, around, outs);
        }
        let kind = frame.kind();
        if kind == kinds::BARRIER_REPLY {
            self.barrier_reply(frame, around, outs)?;
            return Ok(());
        }
        if kind == kinds::ERROR {
            return self.error(alloc, frame, outs);
        }
        if kind == kinds::FLOW_REMOVED {
            self.removal(frame, outs)?;
            return Ok(());
        }
        self.pass_back(frame, outs)?;
        Ok(())
    }

    /// A frame of the switch came.
    ///
    /// Its own FEATURES_REPLY ends the session where it is too short (`Features`), names no switch of the topology
    /// (`UnknownSwitch`) or that of another open session (`SameSwitch`), or leads to the frames that arm the switch. A barrier
    /// reply arms it, settles an edit, waits, or goes on. An ERROR for an unsettled edit rejects that and goes on; any other
    /// with the proxy's own xid goes no further, and ends a session that is not armed (`NotArmed`). A probe of this run goes no
    /// further either. All else goes on. Behind its first frame the switch is asked for its features.
    pub fn from_switch(
        &mut self,
        alloc: Global,
        frame: Frame,
        around: &Around,
        outs: &mut Outs,
    ) -> Result<(), SessionEnd>
        ensures walk { OnOk result (self.new ≡ walks (run_of around.now) self.old (From_switch frame (others_at around.now.taken.now frame) ∷ met (dues_at (run_of around.now) self.old around.now.taken.now frame))) }
        ensures calm { OnOk result (ends_in (dues_at (run_of around.now) self.old around.now.taken.now frame) ≡ false) }
        ensures outs { OnOk result (outs.new ≡ outs.old ++ (steps_of self.old.number (met (dues_at (run_of around.now) self.old around.now.taken.now frame)) ++ return_steps (run_of around.now) self.old.now frame)) }
        ensures ended { (c : Cause) → result ≡ Err (ends.Ended c) → (dues_at (run_of around.now) self.old around.now.taken.now frame ≡ Ending c ∷ []) × (outs.new ≡ outs.old) }
    {
        if let Some((serial, header)) = own_probe(around.key, &frame) {
            return self.come_back(alloc, &frame, serial, header, outs);
        }
        let first = !self.greeted;
        self.handle(alloc, frame, around, outs)?;
        self.ask_features(alloc, first, outs)
    }
}

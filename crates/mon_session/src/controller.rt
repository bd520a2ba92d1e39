//! Frames of the controller.

ghost use Rattle.std.specs.Prelude.{◌≡◌, ◌++◌, ◌∷◌, true, false, OnOk, ◌≢◌, Err};
ghost use Rattle.mon_report.specs.declared.line.Cause.{Cause};
ghost use Rattle.mon_session.specs.declared.step.SessionEnd.TheVariants as ends;
ghost use Rattle.mon_legal.specs.Runs.{Run};
ghost use Rattle.mon_legal.specs.Owns.Own.{From_controller};
ghost use Rattle.mon_legal.specs.Messages.{is_light};
ghost use Rattle.mon_session.specs.Walks.{takes, walks, steps_of};
ghost use Rattle.mon_session.specs.Dues.{met, controller_dues};

use crate::session::Session;
use crate::step::{Outs, SessionEnd};
use mon_list::OutOfMemory;
use of_frame::{Frame, kinds};
use std::alloc::Global;

/// Whether a frame of the controller may overtake those that wait: HELLO, ECHO_REQUEST or ECHO_REPLY.
fn is_light(frame: &Frame) -> bool
    ensures { result ≡ is_light frame.now }
{
    let kind = frame.kind();
    kind == kinds::HELLO || kind == kinds::ECHO_REQUEST || kind == kinds::ECHO_REPLY
}

impl Session {
    /// Every other frame waits.
    #[tactic(auto, using(crate::proofs::Overtaking::other_waits))]
    fn keep(&mut self, frame: Frame) -> Result<(), OutOfMemory>
        requires other { is_light frame ≡ false }
        ensures { OnOk result ((run : Run) → self.new ≡ takes run self.old (From_controller frame)) }
    {
        self.forget();
        self.ordered.push(frame)
    }

    /// One that may overtake others goes on at once.
    #[tactic(auto, using(crate::proofs::Overtaking::light_walk, crate::proofs::Overtaking::light_dues))]
    fn pass_light(&mut self, alloc: Global, frame: Frame, outs: &mut Outs) -> Result<(), SessionEnd>
        requires light { is_light frame ≡ true }
        ensures walk { OnOk result ((run : Run) → self.new ≡ walks run self.old (From_controller frame ∷ met (controller_dues frame))) }
        ensures outs { OnOk result (outs.new ≡ outs.old ++ steps_of self.old.number (met (controller_dues frame))) }
        ensures going { (c : Cause) → result ≢ Err (ends.Ended c) }
    {
        self.forget();
        self.send_on(alloc, frame, outs)
    }

    /// A frame of the controller came. HELLO, ECHO_REQUEST and ECHO_REPLY go on at once; every other one waits for those
    /// before it, and for the switch to be armed.
    #[tactic(auto, using(crate::proofs::Overtaking::heavy_dues))]
    pub fn from_controller(
        &mut self,
        alloc: Global,
        frame: Frame,
        outs: &mut Outs,
    ) -> Result<(), SessionEnd>
        ensures walk { OnOk result ((run : Run) → self.new ≡ walks run self.old (From_controller frame ∷ met (controller_dues frame))) }
        ensures outs { OnOk result (outs.new ≡ outs.old ++ steps_of self.old.number (met (controller_dues frame))) }
        ensures going { (c : Cause) → result ≢ Err (ends.Ended c) }
    {
        if is_light(&frame) {
            return self.pass_light(alloc, frame, outs);
        }
        self.keep(frame)?;
        Ok(())
    }
}

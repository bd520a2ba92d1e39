//! Frames of the switch.

ghost use Rattle.std.specs.Prelude.{◌≡◌, ◌++◌, ◌∷◌, [], ℕ, List, false, Some, OnOk, IfOk, ◌≢◌, Err, ◌≤◌, length};
ghost use Rattle.mon_report.specs.declared.line.Cause.{Cause};
ghost use Rattle.mon_session.specs.declared.step.SessionEnd.TheVariants as ends;
ghost use Rattle.mon_world.specs.declared.event.Side.TheVariants.{Controller};
ghost use Rattle.mon_legal.specs.Runs.{Run};
ghost use Rattle.mon_legal.specs.Owns.Own.{From_switch, Sends};
ghost use Rattle.mon_legal.specs.Messages.{features_request, is_barrier_reply, is_error, is_flow_removed, carried_in};
ghost use Rattle.mon_session.specs.Now.{is_reply};
ghost use Rattle.mon_session.specs.Walks.{walks, steps_of};
ghost use Rattle.mon_session.specs.Entries.{with_now};
ghost use Rattle.mon_session.specs.Entering.{greets};
ghost use Rattle.mon_session.specs.Dues.{met, request_if, with_request};
ghost use Rattle.mon_session.specs.Returning.{own_in, return_of};

use crate::carried::seen_at;
use crate::session::Session;
use crate::step::{Outs, SessionEnd, Step};
use mon_header::Header;
use mon_list::OutOfMemory;
use of_frame::{Frame, kinds};
use of_msgs::OWN_XID;
use std::alloc::Global;

/// The proxy's own FEATURES_REQUEST.
fn features_request(alloc: Global) -> Result<Frame, OutOfMemory>
    ensures { IfOk result (λ frame. frame ≡ features_request) }
{
    Frame::make(alloc, kinds::FEATURES_REQUEST, OWN_XID, &[])
}

/// Where the switch is known, each session is to be told of a probe that came back.
fn tell_return(
    datapath: Option<u64>,
    frame: &Frame,
    serial: u64,
    header: Header,
    outs: &mut Outs,
) -> Result<(), OutOfMemory>
    requires { 18 ≤ length frame.now }
    ensures { OnOk result (outs.new ≡ outs.old ++ return_of datapath frame.now (Some (serial, header))) }
{
    let Some(datapath) = datapath else {
        return Ok(());
    };
    let seen = seen_at(datapath, frame, header);
    outs.push(Step::Return { serial, seen })
}

impl Session {
    /// A frame of the switch came that changes nothing else.
    pub(crate) fn greet(&mut self)
        ensures { self.new ≡ with_now self.old (greets self.old.now) }
    {
        self.greeted = true;
        self.forget();
    }

    /// A frame that changes nothing goes on.
    #[tactic(auto, using(crate::proofs::Framed::as_other))]
    pub(crate) fn pass_back(&mut self, frame: Frame, outs: &mut Outs) -> Result<(), OutOfMemory>
        requires reply { is_reply self.old.now frame ≡ false }
        requires answer { is_barrier_reply frame ≡ false }
        requires error { is_error frame ≡ false }
        requires removal { is_flow_removed frame ≡ false }
        ensures walk { OnOk result ((run : Run) (others : List ℕ) → self.new ≡ walks run self.old (From_switch frame others ∷ Sends Controller frame false ∷ [])) }
        ensures outs { OnOk result (outs.new ≡ outs.old ++ steps_of self.old.number (Sends Controller frame false ∷ [])) }
    {
        self.greet();
        self.send_back(frame, outs)
    }

    /// Behind its first frame the switch is asked for its features.
    pub(crate) fn ask_features(
        &mut self,
        alloc: Global,
        first: bool,
        outs: &mut Outs,
    ) -> Result<(), SessionEnd>
        ensures walk { OnOk result ((run : Run) → self.new ≡ walks run self.old (met (request_if first []))) }
        ensures outs { OnOk result (outs.new ≡ outs.old ++ steps_of self.old.number (met (request_if first []))) }
        ensures going { (c : Cause) → result ≢ Err (ends.Ended c) }
    {
        if !first {
            return Ok(());
        }
        let request = features_request(alloc)?;
        self.send_on(alloc, request, outs)
    }

    /// A probe of this run came back: it goes no further, and where the switch is known each session is to be told.
    pub(crate) fn come_back(
        &mut self,
        alloc: Global,
        frame: &Frame,
        serial: u64,
        header: Header,
        outs: &mut Outs,
    ) -> Result<(), SessionEnd>
        requires { (key : ℕ) × (own_in key (carried_in frame.now) ≡ Some (serial, header)) }
        ensures walk { OnOk result ((run : Run) (others : List ℕ) → self.new ≡ walks run self.old (From_switch frame.now others ∷ met (with_request self.old.now []))) }
        ensures outs { OnOk result (outs.new ≡ outs.old ++ (steps_of self.old.number (met (with_request self.old.now [])) ++ return_of self.old.now.datapath frame.now (Some (serial, header)))) }
        ensures going { (c : Cause) → result ≢ Err (ends.Ended c) }
    {
        let first = !self.greeted;
        let datapath = self.datapath;
        self.greet();
        self.ask_features(alloc, first, outs)?;
        tell_return(datapath, frame, serial, header, outs)?;
        Ok(())
    }
}

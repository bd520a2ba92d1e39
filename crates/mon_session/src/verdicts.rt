//! Answers to jobs: a probe goes out, or it is told that none shows an edit.

ghost use Rattle.std.specs.Prelude.{◌≡◌, ◌≢◌, ◌≤◌, ◌+◌, ◌^◌, ◌==◌, ◌++◌, ◌∷◌, [], ℕ, List, Bool, true, false, Err, Some, None, length, map, option_copied, OnOk, IfOk, IsTrue};
ghost use Rattle.mon_header.specs.Classes.{in_class};
ghost use Rattle.mon_report.specs.declared.line.Cause.{Cause};
ghost use Rattle.mon_report.specs.declared.line.What.TheVariants as what;
ghost use Rattle.mon_world.specs.declared.event.Kind.{Kind};
ghost use Rattle.mon_world.specs.declared.event.Kind.TheVariants as kind;
ghost use Rattle.mon_world.specs.declared.event.Side.TheVariants.{Switch};
ghost use Rattle.mon_legal.specs.Runs.{Run};
ghost use Rattle.mon_legal.specs.Owns.Own.{Judged, Probes, Goes_out};
ghost use Rattle.mon_legal.specs.Messages.{own_barrier, probe_frame};
ghost use Rattle.mon_legal.specs.Directly.{fact};
ghost use Rattle.mon_legal.specs.Directly.Due.{Frame as Frame_due};
ghost use Rattle.mon_job.specs.declared.verdict.Says.TheVariants as says;
ghost use Rattle.mon_session.specs.declared.step.SessionEnd.TheVariants as ends;
ghost use Rattle.mon_session.specs.Dues.{met};
ghost use Rattle.mon_session.specs.Probing.{stands, judged_dues};
ghost use Rattle.mon_session.specs.Answering.{kind_said, near_at, shot_in, shot_said, shot_of, is_current, entries_if_shot, steps_if_shot, serial_after, answer_entries, answer_steps};
ghost use Rattle.mon_session.specs.Walks.{takes, walks, steps_of};

use crate::around::{Around, Neighbour};
use crate::numbers::Numbers;
use crate::probe::SentProbe;
use crate::session::Session;
use crate::step::{Outs, SessionEnd, Step};
use mon_header::Header;
use mon_job::{Says, Verdict};
use mon_list::OutOfMemory;
use mon_outcome::Emission;
use mon_packet::{Nonce, render};
use mon_report::What;
use mon_shows::observed;
use mon_world::{Note, Out, Side};
use of_frame::Frame;
use of_msgs::packet_out;
use std::alloc::Global;

/// The neighbour at a port.
fn near_at(port: u16, near: &[Neighbour]) -> Option<Neighbour>
    ensures { result ≡ near_at port near.now }
{
    near.iter().copied().find(|n| n.port == port)
}

/// The PACKET_OUT of a probe, for the neighbour's port.
fn probe_frame(
    alloc: Global,
    key: u64,
    serial: u64,
    port: u16,
    header: &Header,
) -> Result<Frame, OutOfMemory>
    requires { IsTrue (in_class header.now) }
    ensures { IfOk result (λ frame. frame ≡ probe_frame key serial port header.now) }
{
    let packet = render(alloc, header, Nonce { key, serial })?;
    packet_out(alloc, port, &packet)
}

impl Session {
    /// Whether a job of this edit still stands. No rule is watched yet.
    fn stands(&self, edit: u64) -> bool
        ensures { (job : ℕ) → result ≡ stands self.now.now job edit }
    {
        edit != 0 && self.unsettled.has(edit)
    }

    /// Whether a verdict is current: it is of the slot's version, and its edit is unsettled.
    #[tactic(auto, using(crate::proofs::Shooting::current_edit))]
    fn is_current(&self, v: &Verdict) -> bool
        ensures value { result ≡ is_current self.now.now v.now }
        ensures edit { IsTrue result → (v.now.job.edit == 0) ≡ false }
    {
        let job = v.job();
        job.version == self.version && self.stands(job.edit)
    }

    /// A job of this edit is answered.
    #[tactic(auto, using(crate::proofs::Shooting::judged_none))]
    fn judge(&mut self, edit: u64)
        ensures { (run : Run) (job : ℕ) (kind : Kind) (fresh : Bool) → self.new ≡ takes run self.old (Judged job edit kind fresh) }
    {
        self.forget();
        self.tracks.answer(edit);
    }

    /// No probe shows this edit: that is told, and an own barrier follows.
    fn tell_unshown(&mut self, alloc: Global, edit: u64, outs: &mut Outs) -> Result<(), OutOfMemory>
        ensures walk { OnOk result ((run : Run) → self.new ≡ walks run self.old (met (fact self.old.number edit what.Indistinguishable ∷ Frame_due Switch own_barrier ∷ []))) }
        ensures outs { OnOk result (outs.new ≡ outs.old ++ steps_of self.old.number (met (fact self.old.number edit what.Indistinguishable ∷ Frame_due Switch own_barrier ∷ []))) }
    {
        self.tell_barriered(edit, What::Indistinguishable, outs)?;
        self.send_barrier(alloc, outs)
    }

    /// A probe of this edit goes out by the neighbour at which its header comes in, where that is there.
    #[tactic(auto, using(crate::proofs::Shooting::shot_walk))]
    fn shoot(
        &mut self,
        alloc: Global,
        job: u64,
        edit: u64,
        header: &Header,
        emission: Emission,
        around: &Around,
        numbers: &mut Numbers,
        outs: &mut Outs,
    ) -> Result<(), SessionEnd>
        requires class { IsTrue (in_class header.now) }
        requires edit { (edit == 0) ≡ false }
        ensures walk { OnOk result ((run : Run) → self.new ≡ walks run self.old (entries_if_shot (shot_in around.now.key (option_copied around.now.view) around.now.near.now (numbers.old.serial + 1) job edit self.old.now.version header.now emission))) }
        ensures outs { OnOk result (outs.new ≡ outs.old ++ steps_if_shot (shot_in around.now.key (option_copied around.now.view) around.now.near.now (numbers.old.serial + 1) job edit self.old.now.version header.now emission)) }
        ensures numbers { OnOk result (numbers.new ≡ record numbers.old { serial = serial_after (shot_in around.now.key (option_copied around.now.view) around.now.near.now (numbers.old.serial + 1) job edit self.old.now.version header.now emission) numbers.old.serial }) }
        ensures going { (c : Cause) → result ≢ Err (ends.Ended c) }
        ensures used { result ≡ Err ends.NumbersUsed → (numbers.old.serial + 1 ≡ 2 ^ 64) × (outs.new ≡ outs.old) }
    {
        let Some(view) = around.view else {
            return Ok(());
        };
        let Some(near) = near_at(header.in_port, around.near.items()) else {
            return Ok(());
        };
        let Some(serial) = numbers.serial.checked_add(1) else {
            return Err(SessionEnd::NumbersUsed);
        };
        let frame = probe_frame(alloc, around.key, serial, near.far_port, header)?;
        let probe = SentProbe {
            serial,
            edit,
            version: self.version,
            emission,
            shows: observed(view, &emission),
        };
        self.forget();
        self.tracks.probe(alloc, &probe, near.session, &frame)?;
        numbers.serial = serial;
        outs.push(Step::Note(Note::Probe {
            serial,
            job,
            emission,
        }))?;
        outs.push(Step::Out(Out::Send {
            session: near.session,
            to: Side::Switch,
            frame,
        }))?;
        Ok(())
    }

    /// What a verdict says is done, where its job still stands.
    #[tactic(auto, using(crate::proofs::Shooting::separates_class))]
    fn take_verdict(
        &mut self,
        alloc: Global,
        v: &Verdict,
        around: &Around,
        numbers: &mut Numbers,
        outs: &mut Outs,
    ) -> Result<(), SessionEnd>
        requires edit { (v.now.job.edit == 0) ≡ false }
        ensures walk { OnOk result ((run : Run) → self.new ≡ walks run self.old (met (judged_dues self.old.number self.old.now v.now.job.number v.now.job.edit (kind_said v.now.says)) ++ entries_if_shot (shot_said around.now.key (option_copied around.now.view) around.now.near.now (numbers.old.serial + 1) v.now.job self.old.now.version v.now.says))) }
        ensures outs { OnOk result (outs.new ≡ outs.old ++ (steps_of self.old.number (met (judged_dues self.old.number self.old.now v.now.job.number v.now.job.edit (kind_said v.now.says))) ++ steps_if_shot (shot_said around.now.key (option_copied around.now.view) around.now.near.now (numbers.old.serial + 1) v.now.job self.old.now.version v.now.says))) }
        ensures numbers { OnOk result (numbers.new ≡ record numbers.old { serial = serial_after (shot_said around.now.key (option_copied around.now.view) around.now.near.now (numbers.old.serial + 1) v.now.job self.old.now.version v.now.says) numbers.old.serial }) }
        ensures going { (c : Cause) → result ≢ Err (ends.Ended c) }
        ensures used { result ≡ Err ends.NumbersUsed → (numbers.old.serial + 1 ≡ 2 ^ 64) × (outs.new ≡ outs.old) }
    {
        let job = v.job();
        match v.says() {
            Says::Probe(header, emission) => self.shoot(
                alloc, job.number, job.edit, header, *emission, around, numbers, outs,
            ),
            Says::Indistinguishable => {
                self.tell_unshown(alloc, job.edit, outs)?;
                Ok(())
            }
            Says::Skipped { .. } => Ok(()),
            Says::NoMemory => Err(SessionEnd::OutOfMemory),
        }
    }

    /// A job is answered. Where the answer is of the slot's version and its edit is unsettled, a probe goes out with the next
    /// serial, or the edit is told as one that no probe is to show, and an own barrier follows. Any other answer is stale, and
    /// leads to nothing.
    pub fn answer(
        &mut self,
        alloc: Global,
        v: Verdict,
        around: &Around,
        numbers: &mut Numbers,
        outs: &mut Outs,
    ) -> Result<(), SessionEnd>
        ensures walk { OnOk result ((run : Run) → self.new ≡ walks run self.old (answer_entries self.old.number self.old.now v (shot_of around.now.key (option_copied around.now.view) around.now.near.now (numbers.old.serial + 1) self.old.now v))) }
        ensures outs { OnOk result (outs.new ≡ outs.old ++ answer_steps self.old.number self.old.now v (shot_of around.now.key (option_copied around.now.view) around.now.near.now (numbers.old.serial + 1) self.old.now v)) }
        ensures numbers { OnOk result (numbers.new ≡ record numbers.old { serial = serial_after (shot_of around.now.key (option_copied around.now.view) around.now.near.now (numbers.old.serial + 1) self.old.now v) numbers.old.serial }) }
        ensures going { (c : Cause) → result ≢ Err (ends.Ended c) }
        ensures used { result ≡ Err ends.NumbersUsed → (numbers.old.serial + 1 ≡ 2 ^ 64) × (outs.new ≡ outs.old) }
    {
        let current = self.is_current(&v);
        self.judge(v.job().edit);
        if !current {
            return Ok(());
        }
        self.take_verdict(alloc, &v, around, numbers, outs)
    }
}

//! What a session keeps of the jobs and the probes of one unsettled edit.

ghost use Rattle.std.specs.Prelude.{◌≡◌, ◌++◌, ◌==◌, true, false, not, map, filter, OnOk};
ghost use Rattle.std.specs.List.{AllByRecursion};
ghost use Rattle.mon_session.specs.Tracks.{new_track, marked_track, offered, answered_for, sent_one, is_over, a_tick_later, ticked, fits, wants_job, is_again, again_of, HasGone};
ghost use Rattle.mon_session.specs.Ticking.{again_step};

use crate::probe::{LiveProbe, SentProbe};
use crate::step::Outs;
use mon_list::OutOfMemory;
use mon_shows::Seen;
use of_frame::Frame;
use std::alloc::Global;
use std::marker::Model;

/// How many probes of an edit are kept.
const KEPT: usize = 16;

/// The number of the edit, whether it was reported as one that no probe is to show, whether a job of it has no answer, its
/// newest probes, and those of its probes that are live, the newest first.
#[derive(Drop)]
pub struct Track {
    pub number: u64,
    pub reported: bool,
    pub asked: bool,
    pub kept: Vec<SentProbe>,
    pub live: Vec<LiveProbe>,
}

impl Model for Track {
    ghost use Rattle.mon_session.specs.Tracks.{Track as Tracked};

    ghost Value = { Tracked };

    ghost view = { λ t. record { number = t.number; reported = t.reported; asked = t.asked; kept = t.kept.items; live = t.live.items } };
}

impl Track {
    /// That of an edit which just went out. It takes no memory yet.
    pub fn new(alloc: Global, number: u64) -> Track
        ensures { result ≡ new_track number }
    {
        Track {
            number,
            reported: false,
            asked: false,
            kept: Vec::new(alloc),
            live: Vec::new(alloc),
        }
    }

    /// The edit of a number was reported.
    pub fn mark(&mut self, number: u64)
        ensures { self.new ≡ marked_track number self.old }
    {
        if self.number == number {
            self.reported = true;
        }
    }

    /// A job of the edit of a number was offered.
    pub fn offer(&mut self, number: u64)
        ensures { self.new ≡ offered number self.old }
    {
        if self.number == number {
            self.asked = true;
        }
    }

    /// A job of the edit of a number was answered.
    pub fn answer(&mut self, number: u64)
        ensures { self.new ≡ answered_for number self.old }
    {
        if self.number == number {
            self.asked = false;
        }
    }

    /// Whether a return of this serial shows what a kept probe is to show.
    pub fn fits(&self, serial: u64, seen: &Seen) -> bool
        ensures { result ≡ fits serial seen.now self.now }
    {
        for probe in &self.kept {
            if probe.is_shown(serial, seen) {
                return true;
            }
        }
        false
    }

    /// Sends those of its live probes again that are due at the next tick, after so many, and are of this version.
    pub fn again(
        &self,
        alloc: Global,
        retry: u32,
        version: u64,
        outs: &mut Outs,
    ) -> Result<(), OutOfMemory>
        ensures { OnOk result (outs.new ≡ outs.old ++ map again_step (again_of retry version self.now)) }
    {
        for place in 0..self.live.len() {
            if self.live[place].is_again(retry, version, self.reported) {
                outs.push(self.live[place].again(alloc)?)?;
            }
        }
        Ok(())
    }

    /// Whether the edit wants a job.
    pub fn wants_job(&self) -> bool
        ensures { result ≡ wants_job self.now }
    {
        !self.reported && !self.asked && self.live.is_empty()
    }

    /// The edit gets a probe, which just went out this way.
    #[tactic(auto, using(crate::proofs::Probed::probe_other, crate::proofs::Probed::probe_own))]
    pub fn probe(
        &mut self,
        alloc: Global,
        probe: &SentProbe,
        near: u64,
        frame: &Frame,
    ) -> Result<(), OutOfMemory>
        requires edit { (probe.now.edit == 0) ≡ false }
        requires gone { AllByRecursion HasGone self.old.live }
        ensures probed { OnOk result (self.new ≡ sent_one near frame.now probe.now self.old) }
        ensures gone { AllByRecursion HasGone self.new.live }
    {
        if self.number != probe.edit {
            return Ok(());
        }
        let live = LiveProbe::new(alloc, probe, near, frame)?;
        self.kept.insert(0, probe.copied())?;
        self.kept.truncate(KEPT);
        self.live.insert(0, live)?;
        Ok(())
    }

    /// A tick later: probes that were due and lost their version live no more.
    #[tactic(auto, using(crate::proofs::Probed::gone_filtered))]
    pub fn tick(&mut self, retry: u32, version: u64) -> Result<(), OutOfMemory>
        requires gone { AllByRecursion HasGone self.old.live }
        ensures ticked { OnOk result (self.new ≡ ticked retry version self.old) }
        ensures gone { AllByRecursion HasGone self.new.live }
    {
        drop_over(&mut self.live, retry, version, self.reported);
        tick_all(&mut self.live, retry, self.reported)
    }
}

/// Drops the probes that live no more at the next tick.
fn drop_over(live: &mut Vec<LiveProbe>, retry: u32, version: u64, reported: bool)
    ensures { live.new.items ≡ filter (λ l. not (is_over retry version reported l)) live.old.items }
{
    for place in (0..live.len()).rev() {
        if live[place].is_over(retry, version, reported) {
            live.remove(place);
        }
    }
}

/// A tick later for each of these probes.
fn tick_all(live: &mut Vec<LiveProbe>, retry: u32, reported: bool) -> Result<(), OutOfMemory>
    requires gone { AllByRecursion HasGone live.old.items }
    ensures later { OnOk result (live.new.items ≡ map (a_tick_later retry reported) live.old.items) }
    ensures gone { AllByRecursion HasGone live.new.items }
{
    for place in 0..live.len() {
        live[place].tick(retry, reported)?;
    }
    Ok(())
}

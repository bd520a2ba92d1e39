//! What a session keeps of the jobs and the probes of its unsettled edits.

ghost use Rattle.std.specs.Prelude.{◌≡◌, ◌++◌, ◌∷◌, [], ◌==◌, false, not, map, filter, Some, OnOk};
ghost use Rattle.mon_session.specs.Tracks.{Track as Tracked, is_track, new_track, without_track, marked_track, offered, answered_for, sent_one, ticked, again_in, confirmed_in, wanting_in, AllGone};
ghost use Rattle.mon_session.specs.Ticking.{again_step};

use crate::probe::SentProbe;
use crate::step::Outs;
use crate::track::Track;
use mon_list::OutOfMemory;
use mon_shows::Seen;
use of_frame::Frame;
use std::alloc::Global;
use std::marker::Model;

/// One for each unsettled edit, the oldest first.
#[derive(Drop)]
pub struct Tracks {
    items: Vec<Track>,
}

impl Model for Tracks {
    ghost use Rattle.std.specs.Prelude.{List};
    ghost use Rattle.mon_session.specs.Tracks.{Track as Tracked, AllGone};

    ghost Value = { List Tracked };

    ghost view = { λ t. t.items.items };

    ghost invariant = { λ t. AllGone t.items.items };
}

impl Tracks {
    /// None. It takes no memory yet.
    pub fn new(alloc: Global) -> Tracks
        ensures { result ≡ [] }
    {
        Tracks {
            items: Vec::new(alloc),
        }
    }

    /// Does nothing: its clause is what all of them keep.
    pub fn keeps(&self)
        ensures { AllGone self.now }
    {
        let _ = &self.items;
    }

    /// An edit goes out that changes something.
    #[tactic(auto, using(crate::proofs::Probed::gone_more))]
    pub fn begin(&mut self, alloc: Global, number: u64) -> Result<(), OutOfMemory>
        ensures { OnOk result (self.new ≡ self.old ++ new_track number ∷ []) }
    {
        self.items.push(Track::new(alloc, number))?;
        Ok(())
    }

    /// The edit of a number is settled or rejected.
    #[tactic(auto, using(crate::proofs::Probed::gone_left))]
    pub fn end(&mut self, number: u64)
        ensures { self.new ≡ without_track (Some number) self.old }
    {
        take_out(&mut self.items, number);
    }

    /// The edit of a number was reported.
    #[tactic(auto, using(crate::proofs::Probed::gone_marked))]
    pub fn mark(&mut self, number: u64)
        ensures { self.new ≡ map (marked_track number) self.old }
    {
        mark_in(&mut self.items, number);
    }

    /// A job of the edit of a number was offered.
    #[tactic(auto, using(crate::proofs::Probed::gone_offered))]
    pub fn offer(&mut self, number: u64)
        ensures { self.new ≡ map (offered number) self.old }
    {
        offer_in(&mut self.items, number);
    }

    /// A job of the edit of a number was answered.
    #[tactic(auto, using(crate::proofs::Probed::gone_answered))]
    pub fn answer(&mut self, number: u64)
        ensures { self.new ≡ map (answered_for number) self.old }
    {
        answer_in(&mut self.items, number);
    }

    /// An edit gets a probe, which just went out this way.
    pub fn probe(
        &mut self,
        alloc: Global,
        probe: &SentProbe,
        near: u64,
        frame: &Frame,
    ) -> Result<(), OutOfMemory>
        requires edit { (probe.now.edit == 0) ≡ false }
        ensures { OnOk result (self.new ≡ map (sent_one near frame.now probe.now) self.old) }
    {
        probe_in(alloc, &mut self.items, probe, near, frame)
    }

    /// A tick later.
    pub fn tick(&mut self, retry: u32, version: u64) -> Result<(), OutOfMemory>
        ensures { OnOk result (self.new ≡ map (ticked retry version) self.old) }
    {
        tick_in(&mut self.items, retry, version)
    }

    /// Sends the live probes again that are due at the next tick, after so many, and are of this version, the oldest edit's
    /// first.
    pub fn again(
        &self,
        alloc: Global,
        retry: u32,
        version: u64,
        outs: &mut Outs,
    ) -> Result<(), OutOfMemory>
        ensures { OnOk result (outs.new ≡ outs.old ++ map again_step (again_in retry version self.now)) }
    {
        for place in 0..self.items.len() {
            self.items[place].again(alloc, retry, version, outs)?;
        }
        Ok(())
    }

    /// The edit that a return confirms: the newest of those of which a kept probe of this serial is to show just that.
    #[tactic(auto, using(crate::proofs::Probed::confirmed_before))]
    pub fn confirmed(&self, serial: u64, seen: &Seen) -> Option<u64>
        ensures { result ≡ confirmed_in serial seen.now self.now }
    {
        for place in (0..self.items.len()).rev() {
            let track = &self.items[place];
            if track.fits(serial, seen) {
                return Some(track.number);
            }
        }
        None
    }

    /// The oldest edit that wants a job.
    pub fn wanting(&self) -> Option<u64>
        ensures { result ≡ wanting_in self.now }
    {
        for place in 0..self.items.len() {
            if self.items[place].wants_job() {
                return Some(self.items[place].number);
            }
        }
        None
    }
}

/// Takes the one of a number out.
fn take_out(tracks: &mut Vec<Track>, number: u64)
    ensures { tracks.new.items ≡ filter (λ t. not (is_track number t)) tracks.old.items }
{
    for place in (0..tracks.len()).rev() {
        if tracks[place].number == number {
            tracks.remove(place);
        }
    }
}

fn mark_in(tracks: &mut Vec<Track>, number: u64)
    ensures { tracks.new.items ≡ map (marked_track number) tracks.old.items }
{
    for place in 0..tracks.len() {
        tracks[place].mark(number);
    }
}

fn offer_in(tracks: &mut Vec<Track>, number: u64)
    ensures { tracks.new.items ≡ map (offered number) tracks.old.items }
{
    for place in 0..tracks.len() {
        tracks[place].offer(number);
    }
}

fn answer_in(tracks: &mut Vec<Track>, number: u64)
    ensures { tracks.new.items ≡ map (answered_for number) tracks.old.items }
{
    for place in 0..tracks.len() {
        tracks[place].answer(number);
    }
}

fn probe_in(
    alloc: Global,
    tracks: &mut Vec<Track>,
    probe: &SentProbe,
    near: u64,
    frame: &Frame,
) -> Result<(), OutOfMemory>
    requires edit { (probe.now.edit == 0) ≡ false }
    requires gone { AllGone tracks.old.items }
    ensures probed { OnOk result (tracks.new.items ≡ map (sent_one near frame.now probe.now) tracks.old.items) }
    ensures gone { AllGone tracks.new.items }
{
    for place in 0..tracks.len() {
        tracks[place].probe(alloc, probe, near, frame)?;
    }
    Ok(())
}

fn tick_in(tracks: &mut Vec<Track>, retry: u32, version: u64) -> Result<(), OutOfMemory>
    requires gone { AllGone tracks.old.items }
    ensures ticked { OnOk result (tracks.new.items ≡ map (ticked retry version) tracks.old.items) }
    ensures gone { AllGone tracks.new.items }
{
    for place in 0..tracks.len() {
        tracks[place].tick(retry, version)?;
    }
    Ok(())
}

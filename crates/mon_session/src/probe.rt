//! Probes that were sent for an edit or a watch.

ghost use Rattle.std.specs.Prelude.{◌≡◌, option_copied, OnOk, IfOk};
ghost use Rattle.mon_legal.specs.Probes.{just_live, sent_out};
ghost use Rattle.mon_legal.specs.Probes as probes;
ghost use Rattle.mon_session.specs.Tracks.{is_due, is_again, is_over, is_shown, a_tick_later, HasGone};
ghost use Rattle.mon_session.specs.Ticking.{again_step};

use crate::step::Step;
use crate::unsettled::copied;
use mon_header::same_header;
use mon_list::OutOfMemory;
use mon_outcome::Emission;
use mon_shows::Seen;
use mon_world::{Out, Side};
use of_frame::Frame;
use std::alloc::Global;
use std::marker::Model;

/// A probe: its serial, its edit, which is 0 for a watch, at which version it was sent, the emission by which it shows
/// that, and what a PACKET_IN shows of the emission.
#[derive(Drop)]
pub struct SentProbe {
    pub serial: u64,
    pub edit: u64,
    pub version: u64,
    pub emission: Emission,
    pub shows: Option<Seen>,
}

impl Model for SentProbe {
    ghost use Rattle.mon_legal.specs.Probes.{Probe};

    ghost Value = { Probe };

    ghost view = { λ p. record { serial = p.serial; edit = p.edit; version = p.version; emission = p.emission; shows = p.shows } };
}

impl SentProbe {
    /// The same probe once more.
    pub fn copied(&self) -> SentProbe
        ensures { result ≡ self.now }
    {
        SentProbe {
            serial: self.serial,
            edit: self.edit,
            version: self.version,
            emission: self.emission,
            shows: self.shows,
        }
    }

    /// Whether a return of this serial shows what the probe is to show.
    pub fn is_shown(&self, serial: u64, seen: &Seen) -> bool
        ensures { result ≡ is_shown serial seen.now self.now }
    {
        self.serial == serial && is_seen(seen, self.shows.as_ref())
    }
}

/// A probe that is live: the session to whose switch it went out and the frame in which it did, and how many ticks came
/// since it was last sent.
#[derive(Drop)]
pub struct LiveProbe {
    pub probe: SentProbe,
    pub near: u64,
    pub frame: Frame,
    pub ticks: u64,
}

impl Model for LiveProbe {
    ghost use Rattle.std.specs.Prelude.{Some};
    ghost use Rattle.mon_legal.specs.Probes.{Live};

    ghost Value = { Live };

    ghost view = { λ l. record { probe = l.probe; way = Some (record { near = l.near; frame = l.frame }); ticks = l.ticks } };
}

impl LiveProbe {
    /// A probe that just went out this way.
    pub fn new(
        alloc: Global,
        probe: &SentProbe,
        near: u64,
        frame: &Frame,
    ) -> Result<LiveProbe, OutOfMemory>
        ensures went { IfOk result (λ l. l ≡ sent_out probe.now.serial near frame.now (just_live probe.now)) }
        ensures gone { IfOk result HasGone }
    {
        Ok(LiveProbe {
            probe: probe.copied(),
            near,
            frame: copied(alloc, frame)?,
            ticks: 0,
        })
    }

    /// Whether it is to be sent again at the next tick, after so many since it was sent.
    pub fn is_due(&self, retry: u32, reported: bool) -> bool
        ensures { result ≡ is_due retry reported self.now }
    {
        let retry = retry as u64;
        !reported && self.ticks < retry && self.ticks + 1 == retry
    }

    /// Whether it goes out again then, at its own version.
    pub fn is_again(&self, retry: u32, version: u64, reported: bool) -> bool
        ensures { result ≡ is_again retry version reported self.now }
    {
        self.is_due(retry, reported) && self.probe.version == version
    }

    /// It goes out again, in its frame.
    pub fn again(&self, alloc: Global) -> Result<Step, OutOfMemory>
        ensures { IfOk result (λ step. step ≡ again_step self.now) }
    {
        Ok(Step::Out(Out::Send {
            session: self.near,
            to: Side::Switch,
            frame: copied(alloc, &self.frame)?,
        }))
    }

    /// Whether it lives no more then, at another version.
    pub fn is_over(&self, retry: u32, version: u64, reported: bool) -> bool
        ensures { result ≡ is_over retry version reported self.now }
    {
        self.is_due(retry, reported) && self.probe.version != version
    }

    /// A tick later. More ticks than a `u64` counts are more than any memory outlasts.
    pub fn tick(&mut self, retry: u32, reported: bool) -> Result<(), OutOfMemory>
        ensures later { OnOk result (self.new ≡ a_tick_later retry reported self.old) }
        ensures gone { HasGone self.new }
    {
        if self.is_due(retry, reported) {
            self.ticks = 0;
            return Ok(());
        }
        let Some(ticks) = self.ticks.checked_add(1) else {
            return Err(OutOfMemory);
        };
        self.ticks = ticks;
        Ok(())
    }
}

/// Whether what is seen is what a probe is to show.
fn is_seen(seen: &Seen, shows: Option<&Seen>) -> bool
    ensures { result ≡ probes.is_seen seen.now (option_copied shows.entry) }
{
    match shows {
        None => false,
        Some(other) => same_seen(seen, other),
    }
}

/// Whether two PACKET_INs show the same.
fn same_seen(a: &Seen, b: &Seen) -> bool
    ensures { result ≡ probes.same_seen a.now b.now }
{
    a.switch == b.switch
        && a.port == b.port
        && a.reason == b.reason
        && same_header(&a.header, &b.header)
}

//! An edit that was passed and is not settled yet.

ghost use Rattle.std.specs.Prelude.{◌≡◌, false, OnOk};
ghost use Rattle.mon_legal.specs.Edits.{older};
ghost use Rattle.mon_session.specs.Ticking.{is_silent};

use mon_list::OutOfMemory;
use mon_table::{Edit, Rule};
use of_frame::Frame;
use std::marker::Model;

/// An edit that was passed: its number, the edit as it was planned, what stood in its place, the frame in which it went out,
/// whether it was reported as one that no probe is to show, and how many ticks came since.
#[derive(Drop)]
pub struct InFlight {
    pub number: u64,
    pub edit: Edit,
    pub stood: Option<Rule>,
    pub frame: Frame,
    pub reported: bool,
    pub ticks: u64,
}

impl Model for InFlight {
    ghost use Rattle.mon_legal.specs.Edits.{Passed};
    ghost use Rattle.std.specs.Prelude.{false};

    ghost Value = { Passed };

    ghost view = { λ p. record { number = p.number; edit = p.edit; stood = p.stood; frame = p.frame; settled = false; reported = p.reported; ticks = p.ticks } };
}

impl InFlight {
    /// Whether the edit is told as silent at the next tick, where that comes after so many.
    pub fn is_silent(&self, alarm: u32) -> bool
        ensures { result ≡ is_silent alarm self.now }
    {
        let alarm = alarm as u64;
        self.ticks < alarm && self.ticks + 1 == alarm && !self.reported
    }

    /// A tick later. More ticks than a `u64` counts are more than any memory outlasts.
    pub fn age(&mut self) -> Result<(), OutOfMemory>
        ensures later { OnOk result (self.new ≡ older self.old) }
        ensures number { self.new.number ≡ self.old.number }
        ensures unsettled { self.new.settled ≡ false }
    {
        let Some(ticks) = self.ticks.checked_add(1) else {
            return Err(OutOfMemory);
        };
        self.ticks = ticks;
        Ok(())
    }
}

//! Ticks: probes go out again, and edits are told as silent.

ghost use Rattle.std.specs.Prelude.{◌≡◌, ◌++◌, OnOk, IsOkUnless};
ghost use Rattle.mon_legal.specs.Runs.{Run};
ghost use Rattle.mon_legal.specs.Owns.Own.{Ticks};
ghost use Rattle.mon_session.specs.declared.step.SessionEnd.TheVariants as ends;
ghost use Rattle.mon_session.specs.Runs.{run_of};
ghost use Rattle.mon_session.specs.Probing.{tick_entries};
ghost use Rattle.mon_session.specs.Ticking.{round_after};
ghost use Rattle.mon_session.specs.Entries.{with_now};
ghost use Rattle.mon_session.specs.Walks.{takes, walks, steps_of};

use crate::around::Around;
use crate::session::Session;
use crate::step::{Outs, SessionEnd};
use mon_list::OutOfMemory;
use std::alloc::Global;

impl Session {
    /// More ticks came since the last that was a multiple of those after which a rule is watched, or none did.
    fn next_round(&mut self, watch_ticks: u32) -> Result<(), OutOfMemory>
        ensures { OnOk result (self.new ≡ with_now self.old (record self.old.now { watching = record self.old.now.watching { round = round_after watch_ticks self.old.now.armed self.old.now.watching.round } })) }
    {
        if !self.armed {
            return Ok(());
        }
        let Some(round) = self.round.checked_add(1) else {
            return Err(OutOfMemory);
        };
        self.round = if round == watch_ticks as u64 {
            0
        } else {
            round
        };
        Ok(())
    }

    /// All that is counted in ticks is one later.
    fn age(&mut self, retry_ticks: u32, watch_ticks: u32) -> Result<(), OutOfMemory>
        ensures { OnOk result ((run : Run) → run.retry_ticks ≡ retry_ticks → run.watch_ticks ≡ watch_ticks → self.new ≡ takes run self.old (Ticks self.old.now.version)) }
    {
        self.forget();
        self.unsettled.age()?;
        self.tracks.tick(retry_ticks, self.version)?;
        self.next_round(watch_ticks)
    }

    /// A tick: probes that are due go out again, the oldest edit's first, and edits are told as silent. A due probe of another
    /// version than the slot's lives no more.
    pub fn tick(
        &mut self,
        alloc: Global,
        around: &Around,
        outs: &mut Outs,
    ) -> Result<(), SessionEnd>
        ensures walk { OnOk result (self.new ≡ walks (run_of around.now) self.old (tick_entries (run_of around.now) self.old.number self.old.now.version self.old.now)) }
        ensures outs { OnOk result (outs.new ≡ outs.old ++ steps_of self.old.number (tick_entries (run_of around.now) self.old.number self.old.now.version self.old.now)) }
        ensures only { IsOkUnless result ends.OutOfMemory }
    {
        self.tracks
            .again(alloc, around.retry_ticks, self.version, outs)?;
        self.unsettled
            .silent(self.number, around.alarm_ticks, outs)?;
        self.age(around.retry_ticks, around.watch_ticks)?;
        self.tracks.keeps();
        Ok(())
    }
}

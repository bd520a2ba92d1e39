//! The pool as the core sees it.

ghost use Rattle.std.specs.Prelude.{◌≡◌};
ghost use Rattle.mon_pool.specs.Places.{IsSideOf};

use crate::pass::LoopSide;
use crate::pool::Pool;
use mon_job::{Job, Verdict};
use mon_list::OutOfMemory;
use mon_world::Crew;
use std::alloc::Global;
use std::sync::Wait;

/// A crew that answers by itself, by the workers of a pool: no job of it can be released.
#[derive(Drop)]
pub struct PoolCrew<'a, R: Wait> {
    rt: &'a R,
    pool: &'a Pool,
    side: LoopSide,
    empties: u64,
    ghost of_pool: { IsSideOf pool.now side },
}

impl<'a, R: Wait> PoolCrew<'a, R> {
    ghost use Rattle.std.specs.Prelude.{[], ◌∷◌, ◌++◌};
    ghost use Rattle.mon_pool.specs.Places.{offered_by, answered_by, unanswered_of, published_of, versions_of, dropped_by, last_of};

    /// The crew over a pool, whose unanswered jobs are those that the side has out.
    pub fn new(rt: &'a R, pool: &'a Pool, side: LoopSide) -> PoolCrew<'a, R>
        requires { IsSideOf pool.now side }
        ensures { (result.pool ≡ pool.entry) × (result.side ≡ side) × (result.empties ≡ 0) }
    {
        PoolCrew {
            rt,
            pool,
            side,
            empties: 0,
        }
    }

    /// Ends the pool, and gives the side back.
    pub fn end(self) -> LoopSide
        ensures side { IsSideOf self.entry.pool.now result }
        ensures published { published_of result ≡ published_of self.entry.side ++ (64, 1) ∷ [] }
        ensures versions { versions_of result ≡ versions_of self.entry.side }
        ensures offered { (offered_by result ≡ offered_by self.entry.side) × (unanswered_of result ≡ unanswered_of self.entry.side) × (last_of result ≡ last_of self.entry.side) }
        ensures answered { (answered_by result ≡ answered_by self.entry.side) × (dropped_by result ≡ dropped_by self.entry.side) }
    {
        let PoolCrew {
            rt,
            pool,
            mut side,
            empties: _,
        } = self;
        pool.end(rt, &mut side);
        side
    }
}

impl<'a, R: Wait> Crew for PoolCrew<'a, R> {
    ghost use Rattle.std.specs.Prelude.{◌≤◌, ◌<◌, ◌≢◌, ◌++◌, [], ◌∷◌, true, false, None, OnOk, OnErr, IfSome, IfNone, slice_set};
    ghost use Rattle.crossbeam_queue.specs.Passes.{view, ruled_capacity};
    ghost use Rattle.crossbeam_queue.specs.Fifo.{Held};
    ghost use Rattle.mon_tally.specs.Tallies.{WasSo};
    ghost use Rattle.mon_world.specs.Causes.{Rose};
    ghost use Rattle.mon_world.specs.Crews.{Took, Releases, version_at};
    ghost use Rattle.mon_pool.specs.Plain.{told, arc_job};
    ghost use Rattle.mon_pool.specs.Crew.{released_of};
    ghost use Rattle.mon_pool.specs.Places.{offered_by, answered_by, unanswered_of, waiting_of, published_of, versions_of, dropped_by, last_of};

    type Place = &'a Pool;

    ghost place = { λ c. c.pool };

    ghost empties = { λ c. c.empties };

    ghost last = { λ c. last_of c.side };

    ghost unanswered = { λ c. unanswered_of c.side };

    ghost released = { λ c. released_of c.side };

    ghost versions = { λ c. versions_of c.side };

    ghost answers_alone = { λ _. true };

    /// Is the pool's `offer` over the crew's side.
    fn offer(&mut self, alloc: Global, job: Job) -> Result<(), OutOfMemory>
        requires number { last_of self.old.side < job.number }
        ensures offered { OnOk result (unanswered_of self.new.side ≡ unanswered_of self.old.side ++ job ∷ []) }
        ensures last { OnOk result (last_of self.new.side ≡ job.number) }
        ensures same { OnErr result (unanswered_of self.new.side ≡ unanswered_of self.old.side) }
        ensures same_last { OnErr result (last_of self.new.side ≡ last_of self.old.side) }
        ensures released { released_of self.new.side ≡ released_of self.old.side }
        ensures versions { versions_of self.new.side ≡ versions_of self.old.side }
        ensures empties { self.new.empties ≡ self.old.empties }
        ensures place { self.new.pool ≡ self.old.pool }
        ensures all { OnOk result (offered_by self.new.side ≡ offered_by self.old.side ++ job ∷ []) }
        ensures unchanged { OnErr result (self.new.side ≡ self.old.side) }
        ensures full { OnOk result (waiting_of self.new.side ≢ [] → Held (ruled_capacity self.new.pool.now.jobs) (WasSo arc_job (view self.new.side.jobs))) }
        ensures answered { (answered_by self.new.side ≡ answered_by self.old.side) × (dropped_by self.new.side ≡ dropped_by self.old.side) }
        ensures published { published_of self.new.side ≡ published_of self.old.side }
    {
        self.pool.offer(self.rt, alloc, &mut self.side, job)
    }

    /// Is the pool's `publish` over the crew's side.
    fn publish(&mut self, slot: u32, version: u64)
        requires slot { slot < 64 }
        requires later { version_at slot (versions_of self.old.side) ≤ version }
        ensures versions { versions_of self.new.side ≡ slice_set (versions_of self.old.side) slot version }
        ensures unanswered { unanswered_of self.new.side ≡ unanswered_of self.old.side }
        ensures last { last_of self.new.side ≡ last_of self.old.side }
        ensures released { released_of self.new.side ≡ released_of self.old.side }
        ensures empties { self.new.empties ≡ self.old.empties }
        ensures place { self.new.pool ≡ self.old.pool }
        ensures published { published_of self.new.side ≡ published_of self.old.side ++ (slot, version) ∷ [] }
        ensures all { offered_by self.new.side ≡ offered_by self.old.side }
        ensures answered { (answered_by self.new.side ≡ answered_by self.old.side) × (dropped_by self.new.side ≡ dropped_by self.old.side) }
    {
        self.pool.publish(&mut self.side, slot, version);
    }

    /// Always false.
    fn release(&mut self, index: u32) -> bool
        ensures never { result ≡ false }
        ensures whole { self.new ≡ self.old }
        ensures releases { Releases index true (unanswered_of self.old.side) result (released_of self.new.side) }
    {
        let _ = index;
        false
    }

    /// None only where the queue of answers was empty at a step of this call.
    fn take(&mut self, alloc: Global) -> Option<Verdict>
        ensures took { IfSome result (λ verdict. Took verdict (unanswered_of self.old.side) (released_of self.old.side) (versions_of self.old.side) (unanswered_of self.new.side)) }
        ensures taken { IfSome result (λ verdict. released_of self.new.side ≡ None) }
        ensures none_released { IfNone result (released_of self.old.side ≡ None) }
        ensures still_none { IfNone result (released_of self.new.side ≡ None) }
        ensures same { IfNone result (unanswered_of self.new.side ≡ unanswered_of self.old.side) }
        ensures empty { IfNone result (Held 0 (WasSo told (view self.new.side.answers))) }
        ensures cause { IfNone result (Rose self.old.empties self.new.empties) }
        ensures later { self.old.empties ≤ self.new.empties }
        ensures last { last_of self.new.side ≡ last_of self.old.side }
        ensures versions { versions_of self.new.side ≡ versions_of self.old.side }
        ensures place { self.new.pool ≡ self.old.pool }
        ensures answered { IfSome result (λ verdict. answered_by self.new.side ≡ answered_by self.old.side ++ verdict.job ∷ []) }
        ensures unanswered { IfNone result (answered_by self.new.side ≡ answered_by self.old.side) }
        ensures full { waiting_of self.new.side ≢ [] → Held (ruled_capacity self.new.pool.now.jobs) (WasSo arc_job (view self.new.side.jobs)) }
        ensures all { offered_by self.new.side ≡ offered_by self.old.side }
        ensures published { published_of self.new.side ≡ published_of self.old.side }
    {
        match self.pool.take(self.rt, alloc, &mut self.side) {
            Some(verdict) => Some(verdict),
            None => {
                self.empties = self.empties.saturating_add(1);
                None
            }
        }
    }
}

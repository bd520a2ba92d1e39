//! The jobs that are out.

ghost use Rattle.std.specs.Prelude.{◌≡◌, ◌≢◌, ◌+◌, ◌<◌, ◌≤◌, ◌++◌, [], ◌∷◌, ℕ, map, length, IfOk, IfSome, IfNone, slice_index_or, vec_len, vec_capacity};
ghost use Rattle.std.specs.Arc.{arc_value};
ghost use Rattle.mon_pool.specs.Sides.{Rising};

use mon_job::Job;
use mon_list::OutOfMemory;
use mon_same::same_job;
use std::alloc::Global;
use std::sync::Arc;

/// The jobs without a verdict, in the order in which they were offered, and the number of the last job offered. Their
/// numbers rise, so no two have one number.
#[derive(Drop)]
pub struct Unanswered {
    pub(crate) jobs: Vec<Arc<Job, Global>>,
    pub(crate) last: u64,
    ghost rising: { Rising (map arc_value jobs.items) last },
}

/// The place of a job.
fn place_of(out: &[Arc<Job, Global>], job: &Job) -> Option<usize>
    ensures none { IfNone result ((k : ℕ) (d : _) → k < length out.now → arc_value (slice_index_or out.now k d) ≢ job.now) }
    ensures some { IfSome result (λ k. (k < length out.now) × ((d : _) → arc_value (slice_index_or out.now k d) ≡ job.now)) }
{
    for (k, one) in out.iter().enumerate() {
        if same_job(one, job) {
            return Some(k);
        }
    }
    None
}

impl Unanswered {
    ghost use Rattle.mon_list.specs.Has.{Has};
    ghost use Rattle.mon_world.specs.Crews.{without_job};
    ghost use Rattle.mon_tally.specs.Tallies.{AsOften};
    ghost use Rattle.mon_pool.specs.Outs.{out_of};

    /// No job yet, and room for so many.
    pub(crate) fn new(alloc: Global, room: usize) -> Result<Unanswered, OutOfMemory>
        ensures { IfOk result (λ out. (out_of out ≡ []) × (out.last ≡ 0) × (room ≤ vec_capacity out.jobs)) }
    {
        Ok(Unanswered {
            jobs: Vec::with_capacity(alloc, room)?,
            last: 0,
        })
    }

    /// One more job, whose number is above all.
    pub(crate) fn push(&mut self, job: Arc<Job, Global>)
        requires number { self.old.last < (arc_value job).number }
        requires room { vec_len self.old.jobs < vec_capacity self.old.jobs }
        ensures out { out_of self.new ≡ out_of self.old ++ arc_value job ∷ [] }
        ensures last { self.new.last ≡ (arc_value job).number }
        ensures room { vec_capacity self.new.jobs ≡ vec_capacity self.old.jobs }
    {
        self.last = job.number;
        self.jobs.push_reserved(job);
    }

    /// Takes the job out, where it is one of them.
    pub(crate) fn strike(&mut self, job: &Job) -> Option<Arc<Job, Global>>
        ensures same { IfSome result (λ mine. arc_value mine ≡ job.now) }
        ensures there { IfSome result (λ mine. Has (out_of self.old) job.now) }
        ensures left { IfSome result (λ mine. out_of self.new ≡ without_job job.now.number (out_of self.old)) }
        ensures weight { IfSome result (λ mine. AsOften (out_of self.old) (job.now ∷ out_of self.new)) }
        ensures absent { IfNone result (Has (out_of self.old) job.now → ⊥) }
        ensures unchanged { IfNone result (self.new ≡ self.old) }
        ensures last { self.new.last ≡ self.old.last }
        ensures room { vec_capacity self.new.jobs ≡ vec_capacity self.old.jobs }
    {
        match place_of(self.jobs.as_slice(), job) {
            Some(k) => Some(self.jobs.remove(k)),
            None => None,
        }
    }
}

//! The seats of the loop and of the workers.

ghost use Rattle.std.specs.Prelude.{◌≡◌, ◌≤◌, ◌++◌, ◌<◌, [], map, true, false, vec_capacity};
ghost use Rattle.std.specs.VecDeque.{deque_len, deque_capacity};
ghost use Rattle.crossbeam_queue.specs.Passes.{view};
ghost use Rattle.mon_board.specs.Seats.{seen_by};
ghost use Rattle.mon_tally.specs.Tallies.{AsOften, Apart};
ghost use Rattle.mon_pool.specs.Plain.{arc_job, jobs_of};
ghost use Rattle.mon_pool.specs.Outs.{out_of};
ghost use Rattle.mon_pool.specs.Marks.{of_jobs, marks_of, all_shown};

use crate::answer::Answer;
use crate::published::Published;
use crate::queues::{AnswerPass, JobPass};
use crate::unanswered::Unanswered;
use crate::waiting::append;
use crossbeam_utils::sync::Parker;
use mon_board::Looker;
use mon_job::{Job, Verdict};
use std::alloc::Global;
use std::collections::VecDeque;
use std::sync::Arc;

/// The loop's side of a pool: what it offered, what it took and what it published.
#[derive(Drop)]
pub struct LoopSide {
    pub(crate) jobs: JobPass,
    pub(crate) answers: AnswerPass,
    pub(crate) published: Published,
    pub(crate) out: Unanswered,
    // Jobs that the queue did not take yet.
    pub(crate) waiting: VecDeque<Arc<Job, Global>>,
    // Whether an answer was dropped, so that no job may be offered any more.
    pub(crate) broken: bool,
    // Room for what closing the pool hands back.
    pub(crate) answers_left: Vec<Answer>,
    pub(crate) verdicts_left: Vec<Verdict>,
    pub(crate) jobs_left: Vec<Arc<Job, Global>>,
    ghost home: { (jobs.me.1 ≡ []) × (answers.me.1 ≡ []) },
    ghost job_role: { ((view jobs).taken ≡ []) × ((view jobs).dropped ≡ []) },
    ghost answer_role: { (view answers).put ≡ [] },
    ghost parts: { (0 < (view jobs).parts) × ((view answers).parts ≡ (view jobs).parts) },
    ghost whole: { broken ≡ false → (view answers).dropped ≡ [] },
    ghost apart: { Apart (jobs_of (view answers).dropped) (out_of out) },
    ghost rest: { AsOften ((view jobs).put ++ map arc_job waiting.items) (jobs_of (view answers).taken ++ out_of out) },
    ghost rooms: { (1024 ≤ vec_capacity out.jobs) × (1024 ≤ deque_capacity waiting) × (deque_len waiting ≤ 1024) },
    ghost empty: { (answers_left.items ≡ []) × (verdicts_left.items ≡ []) × (jobs_left.items ≡ []) },
    ghost enough: { (1024 ≤ vec_capacity answers_left) × (1024 ≤ vec_capacity verdicts_left) × (2048 ≤ vec_capacity jobs_left) },
}

/// A worker's seat: what it took, answered and saw. What it saw of the slots of jobs is, in order, what it saw while it
/// decided each job that it answered, and the version of each job that it skipped is one of these.
#[derive(Drop)]
pub struct Pass {
    pub(crate) jobs: JobPass,
    pub(crate) answers: AnswerPass,
    pub(crate) looker: Looker,
    pub(crate) parker: Parker,
    // The worker's bit in the mask of idle workers.
    pub(crate) bit: u64,
    ghost home: { (jobs.me.1 ≡ []) × (answers.me.1 ≡ []) },
    ghost job_role: { ((view jobs).put ≡ []) × ((view jobs).dropped ≡ []) × ((view jobs).parts ≡ 1) },
    ghost answer_role: { ((view answers).taken ≡ []) × ((view answers).dropped ≡ []) × ((view answers).parts ≡ 1) },
    ghost tied: { jobs_of (view answers).put ≡ (view jobs).taken },
    ghost saw: { of_jobs (seen_by looker) ≡ marks_of (view answers).put },
    ghost shown: { all_shown (view answers).put ≡ true },
}

impl LoopSide {
    ghost use Rattle.std.specs.Prelude.{◌∷◌};
    ghost use Rattle.std.specs.Arc.{arc_value};
    ghost use Rattle.std.specs.Bool.{OnTrue};
    ghost use Rattle.std.specs.Prelude.{vec_len};

    /// Whether one more job has room. It always has while a slot has no more than 16 jobs out.
    pub(crate) fn has_room(&self) -> bool
        ensures { OnTrue result ((vec_len self.now.out.jobs < 1024) × (deque_len self.now.waiting < 1024)) }
    {
        self.out.jobs.len() < 1024 && self.waiting.len() < 1024
    }

    /// Keeps a job that is offered.
    pub(crate) fn keep(&mut self, mine: Arc<Job, Global>, theirs: Arc<Job, Global>)
        requires same { arc_value mine ≡ arc_value theirs }
        requires room { (vec_len self.old.out.jobs < 1024) × (deque_len self.old.waiting < 1024) }
        requires number { self.old.out.last < (arc_value mine).number }
        requires whole { self.old.broken ≡ false }
        ensures out { out_of self.new.out ≡ out_of self.old.out ++ arc_value mine ∷ [] }
        ensures last { self.new.out.last ≡ (arc_value mine).number }
        ensures waiting { map arc_job self.new.waiting.items ≡ map arc_job self.old.waiting.items ++ arc_value mine ∷ [] }
        ensures rest { (self.new.jobs ≡ self.old.jobs) × (self.new.answers ≡ self.old.answers) × (self.new.published ≡ self.old.published) }
    {
        append(&mut self.waiting, theirs);
        self.out.push(mine);
    }
}

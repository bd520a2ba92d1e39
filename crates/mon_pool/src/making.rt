//! A pool made.

ghost use Rattle.std.specs.Prelude.{◌≡◌, ◌<◌, ◌≤◌, [], IfOk, All, vec_len, replicate};

use crate::pass::{LoopSide, Pass};
use crate::pool::Pool;
use crate::published::Published;
use crate::queues::{AnswerQueue, Cut, JobQueue};
use crate::unanswered::Unanswered;
use crossbeam_utils::sync::Parker;
use mon_board::Board;
use mon_list::OutOfMemory;
use std::alloc::Global;
use std::collections::VecDeque;
use std::sync::atomic::AtomicU64;

impl Pool {
    ghost use Rattle.mon_pool.specs.Places.{IsSideOf, IsWorkerOf, offered_by, answered_by, unanswered_of, published_of, dropped_by, versions_of, last_of};

    /// A pool, its loop's side, and a pass for each of its 1 to 64 workers. Nothing was offered or published yet.
    pub fn new(alloc: Global, workers: u32) -> Result<(Pool, LoopSide, Vec<Pass>), OutOfMemory>
        requires { (0 < workers) × (workers ≤ 64) }
        ensures side { IfOk result (λ r. IsSideOf r.0 r.1) }
        ensures workers { IfOk result (λ r. (r.0.workers ≡ workers) × (vec_len r.2 ≡ workers) × All (IsWorkerOf r.0) r.2.items) }
        ensures fresh { IfOk result (λ r. (offered_by r.1 ≡ []) × (unanswered_of r.1 ≡ []) × (answered_by r.1 ≡ []) × (dropped_by r.1 ≡ [])) }
        ensures versions { IfOk result (λ r. (published_of r.1 ≡ []) × (versions_of r.1 ≡ replicate 64 0)) }
        ensures last { IfOk result (λ r. last_of r.1 ≡ 0) }
    {
        let (board, writer, mut looker) = Board::new(alloc, 65)?;
        let published = Published::new(alloc, writer)?;
        let (jobs, mut job_pass) = JobQueue::ruled(alloc, 1024)?;
        let (answers, mut answer_pass) = AnswerQueue::ruled(alloc, 1024)?;
        let mut passes = Vec::new(alloc);
        let mut wakers = Vec::new(alloc);
        for i in 0..workers {
            let parker = Parker::new(alloc)?;
            wakers.push(parker.unparker().clone()?)?;
            let pass = Pass {
                jobs: jobs.another::<Cut>(&mut job_pass),
                answers: answers.another::<Cut>(&mut answer_pass),
                looker: board.blank(&mut looker),
                parker,
                bit: 1 << i,
            };
            passes.push(pass)?;
        }
        let side = LoopSide {
            jobs: job_pass,
            answers: answer_pass,
            published,
            out: Unanswered::new(alloc, 1024)?,
            waiting: VecDeque::with_capacity(alloc, 1024)?,
            broken: false,
            answers_left: Vec::with_capacity(alloc, 1024)?,
            verdicts_left: Vec::with_capacity(alloc, 1024)?,
            jobs_left: Vec::with_capacity(alloc, 2048)?,
        };
        let pool = Pool {
            board,
            jobs,
            answers,
            workers,
            wakers,
            idle: AtomicU64::new(0),
        };
        Ok((pool, side, passes))
    }
}

//! What a worker does.

ghost use Rattle.std.specs.Prelude.{◌≡◌, ◌<◌, ◌≤◌, ◌++◌, [], ◌∷◌};
ghost use Rattle.crossbeam_queue.specs.Passes.{view, IsPassOf, IsSamePass};
ghost use Rattle.mon_tally.specs.Tallies.{tally};
ghost use Rattle.mon_pool.specs.Plain.{told};

use crate::answer::Answer;
use crate::pass::Pass;
use crate::pool::Pool;
use crate::queues::{AnswerPass, AnswerQueue, Puts, Takes};
use crate::stop::decide_by_board;
use mon_world::Gate;
use std::alloc::Global;
use std::sync::Wait;
use std::thread;
use std::thread::Threads;

/// Pushes an answer, and tries again where the queue is full.
fn push_answer<R: Wait>(rt: &R, queue: &AnswerQueue, pass: &mut AnswerPass, answer: Answer)
    requires { IsPassOf queue.now pass.old × (0 < (view pass.old).parts) }
    ensures pass { IsSamePass pass.old pass.new }
    ensures view { view pass.new ≡ tally (view pass.old).parts ((view pass.old).put ++ told answer ∷ []) (view pass.old).taken (view pass.old).dropped }
{
    let mut answer = answer;
    for _ in rt.forever() {
        match queue.try_push_as::<Puts>(pass, answer) {
            Ok(()) => return,
            Err(back) => answer = back,
        }
        thread::yield_now();
    }
    unreachable!()
}

impl Pool {
    ghost use Rattle.std.specs.Prelude.{true, All};
    ghost use Rattle.std.specs.Bool.{OnTrue};
    ghost use Rattle.mon_board.specs.Versions.{Has};
    ghost use Rattle.mon_pool.specs.Plain.{jobs_of};
    ghost use Rattle.mon_pool.specs.Marks.{of_jobs, marks_of, all_shown};
    ghost use Rattle.mon_pool.specs.Places.{IsWorkerOf, jobs_taken_by, answers_of, seen_of};

    /// Whether the end was published, as far as the worker's looker sees.
    fn has_ended(&self, pass: &mut Pass) -> bool
        requires { IsWorkerOf self.now pass.old }
        ensures pool { IsWorkerOf self.now pass.new }
        ensures ended { OnTrue result (Has (seen_of pass.new) 64 1) }
    {
        if self.board.look(&mut pass.looker, 64) == 1 {
            return true;
        }
        false
    }

    /// Takes a job and answers it, where there is one.
    fn work_once<R: Wait, G: Gate>(
        &self,
        rt: &R,
        alloc: Global,
        pass: &mut Pass,
        gate: &G,
        was_idle: bool,
    ) -> bool
        requires { IsWorkerOf self.now pass.old }
        ensures pool { IsWorkerOf self.now pass.new }
    {
        let Some(job) = self.jobs.pop_as::<Takes, R>(rt, &mut pass.jobs) else {
            return false;
        };
        if was_idle {
            self.set_busy(pass.bit);
        }
        gate.pass(job.number);
        let answer = decide_by_board(alloc, &self.board, &mut pass.looker, job);
        push_answer(rt, &self.answers, &mut pass.answers, answer);
        true
    }

    /// Takes jobs and answers them, until it sees that the pool has ended. It sleeps while there is no job.
    ///
    /// What the pass answered are verdicts on the jobs that it took, in order. A job was skipped for a version that the
    /// worker's looker saw for the job's slot while it decided that job.
    pub fn work<R: Wait, G: Gate>(&self, rt: &R, alloc: Global, pass: &mut Pass, gate: &G)
        requires { IsWorkerOf self.now pass.old }
        ensures pool { IsWorkerOf self.now pass.new }
        ensures ended { Has (seen_of pass.new) 64 1 }
        ensures answered { jobs_of (answers_of pass.new) ≡ jobs_taken_by pass.new }
        ensures saw { of_jobs (seen_of pass.new) ≡ marks_of (answers_of pass.new) }
        ensures shown { all_shown (answers_of pass.new) ≡ true }
    {
        for _ in rt.forever() {
            if self.has_ended(pass) {
                return;
            }
            if self.work_once(rt, alloc, pass, gate, false) {
                continue;
            }
            self.set_idle(pass.bit);
            if self.has_ended(pass) {
                return;
            }
            if self.work_once(rt, alloc, pass, gate, true) {
                continue;
            }
            pass.parker.park(rt);
            self.set_awake(pass.bit);
        }
        unreachable!()
    }

    /// Runs the workers, each in a thread of its own, until the pool has ended. Where no thread can be made, they run one
    /// after the other, and the first one until another thread ends the pool.
    pub fn work_all<R: Threads + Wait + Sync, G: Gate + Sync>(
        &self,
        rt: &R,
        alloc: Global,
        passes: &mut [Pass],
        gate: &G,
    )
        requires { All (IsWorkerOf self.now) passes.old }
        ensures pool { All (IsWorkerOf self.now) passes.new }
        ensures ended { All (λ p. Has (seen_of p) 64 1) passes.new }
    {
        let count = passes.len().max(1);
        thread::for_each_mut(
            rt,
            passes,
            count,
            &|_, pass: &mut Pass|
                requires { IsWorkerOf self.now pass.old }
                ensures pool { IsWorkerOf self.entry.now pass.new }
                ensures ended { Has (seen_of pass.new) 64 1 }
            { self.work(rt, alloc, pass, gate) },
        );
    }
}

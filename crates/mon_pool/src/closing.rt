//! A pool closed.

ghost use Rattle.std.specs.Prelude.{◌≡◌, ◌+◌, ◌≤◌, ◌<◌, [], map, ℕ, vec_capacity, vec_len, ◌++◌};
ghost use Rattle.std.specs.VecDeque.{deque_len};
ghost use Rattle.crossbeam_queue.specs.Passes.{view, IsPassOf, ruled_capacity};
ghost use Rattle.mon_tally.specs.Tallies.{popped, weigh};
ghost use Rattle.mon_pool.specs.Plain.{told, arc_job, verdict_of};

use crate::answer::{Answer, Verdicts};
use crate::pass::{LoopSide, Pass};
use crate::pool::Pool;
use crate::published::Published;
use crate::queues::{AnswerPass, AnswerQueue, Cut, JobPass, JobQueue, Totals};
use mon_board::Writer;
use mon_job::{Job, Verdict};
use std::alloc::Global;
use std::collections::VecDeque;
use std::sync::{Arc, Wait};

/// Takes what is left in the queue of jobs.
fn rest_of_jobs<R: Wait>(
    rt: &R,
    queue: &JobQueue,
    pass: &mut JobPass,
    into: &mut Vec<Arc<Job, Global>>,
)
    requires queue { IsPassOf queue.now pass.old × ((view pass.old).parts ≡ 65) }
    requires room { (into.old.items ≡ []) × (ruled_capacity queue.now ≤ vec_capacity into.old) }
    ensures rest { (h : _) → weigh h (view pass.old).put ≡ popped h (view pass.old) + weigh h (map arc_job into.new.items) }
    ensures room { (vec_capacity into.new ≡ vec_capacity into.old) × (vec_len into.new ≤ ruled_capacity queue.now) }
{
    let count = queue.len_as::<Totals, R>(rt, pass);
    for i in 0..count {
        match queue.pop_as::<Totals, R>(rt, pass) {
            Some(job) => into.push_reserved(job),
            None => return,
        }
    }
    queue.learn_as::<Totals>(pass);
}

/// Takes what is left in the queue of answers.
fn rest_of_answers<R: Wait>(
    rt: &R,
    queue: &AnswerQueue,
    pass: &mut AnswerPass,
    into: &mut Vec<Answer>,
)
    requires queue { IsPassOf queue.now pass.old × ((view pass.old).parts ≡ 65) }
    requires room { (into.old.items ≡ []) × (ruled_capacity queue.now ≤ vec_capacity into.old) }
    ensures rest { (h : _) → weigh h (view pass.old).put ≡ popped h (view pass.old) + weigh h (map told into.new.items) }
    ensures room { vec_len into.new ≤ ruled_capacity queue.now }
{
    let count = queue.len_as::<Totals, R>(rt, pass);
    for i in 0..count {
        match queue.pop_as::<Totals, R>(rt, pass) {
            Some(answer) => into.push_reserved(answer),
            None => return,
        }
    }
    queue.learn_as::<Totals>(pass);
}

/// The verdicts of these answers.
fn verdicts_of(answers: Vec<Answer>, into: &mut Vec<Verdict>)
    requires { (into.old.items ≡ []) × (vec_len answers ≤ vec_capacity into.old) }
    ensures { into.new.items ≡ map verdict_of answers.items }
{
    for answer in answers {
        into.push_reserved(answer.into_verdict());
    }
}

/// Hands the waiting jobs over.
fn hand_over(waiting: VecDeque<Arc<Job, Global>>, into: &mut Vec<Arc<Job, Global>>)
    requires { vec_len into.old + deque_len waiting ≤ vec_capacity into.old }
    ensures { into.new.items ≡ into.old.items ++ waiting.items }
{
    let mut waiting = waiting;
    while let Some(job) = waiting.pop_front() {
        into.push_reserved(job);
    }
}

impl Pool {
    ghost use Rattle.std.specs.Prelude.{All};
    ghost use Rattle.mon_board.specs.Seats.{IsWriterOf, published_by};
    ghost use Rattle.mon_board.specs.Versions.{AllPublished};
    ghost use Rattle.mon_tally.specs.Tallies.{AsOften};
    ghost use Rattle.mon_pool.specs.Plain.{jobs_of, ruled_jobs};
    ghost use Rattle.mon_pool.specs.Places.{IsSideOf, IsWorkerOf, offered_by, answered_by, dropped_by, published_of, seen_of};

    /// Takes in the pass of a worker.
    fn take_in_one(
        &self,
        jobs: &mut JobPass,
        answers: &mut AnswerPass,
        writer: &mut Writer,
        pass: Pass,
    )
        requires places { IsPassOf self.now.jobs jobs.old × IsPassOf self.now.answers answers.old × IsWriterOf self.now.board writer.old }
        requires worker { IsWorkerOf self.now pass }
        requires parts { (0 < (view jobs.old).parts) × (0 < (view answers.old).parts) }
        requires tied { jobs_of (view answers.old).put ≡ (view jobs.old).taken }
        ensures places { IsPassOf self.now.jobs jobs.new × IsPassOf self.now.answers answers.new × IsWriterOf self.now.board writer.new }
        ensures job_parts { (view jobs.new).parts ≡ (view jobs.old).parts + 1 }
        ensures answer_parts { (view answers.new).parts ≡ (view answers.old).parts + 1 }
        ensures kept_jobs { ((view jobs.new).put ≡ (view jobs.old).put) × ((view jobs.new).dropped ≡ (view jobs.old).dropped) }
        ensures kept_answers { ((view answers.new).taken ≡ (view answers.old).taken) × ((view answers.new).dropped ≡ (view answers.old).dropped) }
        ensures tied { jobs_of (view answers.new).put ≡ (view jobs.new).taken }
        ensures published { published_by writer.new ≡ published_by writer.old }
        ensures seen { AllPublished (published_by writer.old) (seen_of pass) }
    {
        let Pass {
            jobs: its_jobs,
            answers: its_answers,
            looker,
            parker: _,
            bit: _,
        } = pass;
        self.jobs.absorb::<Cut>(jobs, its_jobs);
        self.answers.absorb::<Cut>(answers, its_answers);
        self.board.gather(writer, looker);
    }

    /// Takes in the workers' passes one by one, the last one first, and in the same order for both queues.
    fn take_in(
        &self,
        jobs: &mut JobPass,
        answers: &mut AnswerPass,
        writer: &mut Writer,
        mut passes: Vec<Pass>,
    )
        requires places { IsPassOf self.now.jobs jobs.old × IsPassOf self.now.answers answers.old × IsWriterOf self.now.board writer.old }
        requires workers { All (IsWorkerOf self.now) passes.items }
        requires parts { (0 < (view jobs.old).parts) × (0 < (view answers.old).parts) }
        requires tied { jobs_of (view answers.old).put ≡ (view jobs.old).taken }
        ensures places { IsPassOf self.now.jobs jobs.new × IsPassOf self.now.answers answers.new }
        ensures parts { ((view jobs.new).parts ≡ (view jobs.old).parts + vec_len passes) × ((view answers.new).parts ≡ (view answers.old).parts + vec_len passes) }
        ensures kept { ((view jobs.new).put ≡ (view jobs.old).put) × ((view jobs.new).dropped ≡ (view jobs.old).dropped) × ((view answers.new).taken ≡ (view answers.old).taken) × ((view answers.new).dropped ≡ (view answers.old).dropped) }
        ensures tied { jobs_of (view answers.new).put ≡ (view jobs.new).taken }
        ensures published { All (λ p. AllPublished (published_by writer.old) (seen_of p)) passes.items }
    {
        for i in 0..passes.len() {
            let Some(pass) = passes.pop() else {
                unreachable!()
            };
            self.take_in_one(jobs, answers, writer, pass);
        }
    }

    /// Closes the pool, once no worker runs: the verdicts that were not taken, and the jobs that were not answered. Each job
    /// that was offered is, as often as it was offered, among the verdicts taken, the verdicts handed back and the jobs
    /// handed back; no verdict that came was dropped; and each version that a worker saw was published.
    pub fn close<R: Wait>(
        self,
        rt: &R,
        side: LoopSide,
        passes: Vec<Pass>,
    ) -> (Verdicts, Vec<Arc<Job, Global>>)
        requires { IsSideOf self side × (vec_len passes ≡ self.workers) × All (IsWorkerOf self) passes.items }
        ensures accounted { AsOften (offered_by side) ((answered_by side ++ ruled_jobs result.0) ++ map arc_job result.1.items) }
        ensures dropped { dropped_by side ≡ [] }
        ensures published { All (λ p. AllPublished (published_of side) (seen_of p)) passes.items }
    {
        let LoopSide {
            mut jobs,
            mut answers,
            published,
            out: _,
            waiting,
            broken: _,
            mut answers_left,
            mut verdicts_left,
            mut jobs_left,
        } = side;
        let Published {
            mut writer,
            versions: _,
        } = published;
        self.take_in(&mut jobs, &mut answers, &mut writer, passes);
        rest_of_jobs(rt, &self.jobs, &mut jobs, &mut jobs_left);
        rest_of_answers(rt, &self.answers, &mut answers, &mut answers_left);
        verdicts_of(answers_left, &mut verdicts_left);
        hand_over(waiting, &mut jobs_left);
        (Verdicts::of(verdicts_left), jobs_left)
    }
}

//! What the loop does.

ghost use Rattle.std.specs.Prelude.{◌≡◌, ◌≢◌, ◌<◌, ◌≤◌, ◌++◌, [], ◌∷◌, map, None, OnOk, OnErr, IfSome, IfNone, MatchOption, MatchBool, slice_set};
ghost use Rattle.std.specs.Arc.{arc_value};
ghost use Rattle.std.specs.VecDeque.{deque_len, deque_capacity};
ghost use Rattle.crossbeam_queue.specs.Passes.{view, IsPassOf, IsSamePass, ruled_capacity};
ghost use Rattle.crossbeam_queue.specs.Fifo.{Held};
ghost use Rattle.mon_tally.specs.Tallies.{WasSo};
ghost use Rattle.mon_world.specs.Crews.{version_at, SkipsRightly, Took};
ghost use Rattle.mon_pool.specs.Plain.{told, arc_job};

use crate::pass::LoopSide;
use crate::pool::Pool;
use crate::queues::{Drops, JobPass, JobQueue, Puts, Takes};
use crate::waiting::prepend;
use mon_job::{Job, Says, Verdict};
use mon_list::OutOfMemory;
use mon_solve::{Never, decide};
use std::alloc::Global;
use std::collections::VecDeque;
use std::sync::{Arc, Wait};

/// Pushes what waits, as far as the queue takes it.
fn push_waiting<R: Wait>(
    rt: &R,
    queue: &JobQueue,
    pass: &mut JobPass,
    waiting: &mut VecDeque<Arc<Job, Global>>,
)
    requires { IsPassOf queue.now pass.old × (0 < (view pass.old).parts) }
    ensures pass { IsSamePass pass.old pass.new }
    ensures all { (view pass.new).put ++ map arc_job waiting.new.items ≡ (view pass.old).put ++ map arc_job waiting.old.items }
    ensures rest { ((view pass.new).taken ≡ (view pass.old).taken) × ((view pass.new).dropped ≡ (view pass.old).dropped) × ((view pass.new).parts ≡ (view pass.old).parts) }
    ensures room { (deque_capacity waiting.new ≡ deque_capacity waiting.old) × (deque_len waiting.new ≤ deque_len waiting.old) }
    ensures full { waiting.new.items ≢ [] → Held (ruled_capacity queue.now) (WasSo arc_job (view pass.new)) }
{
    while let Some(job) = waiting.pop_front() {
        if let Err(back) = queue.push_as::<Puts, R>(rt, pass, job) {
            prepend(waiting, back);
            return;
        }
    }
}

/// Whether a job is skipped only for a later version of its slot.
fn skips_rightly(verdict: &Verdict, versions: &[u64]) -> bool
    ensures { MatchBool result (SkipsRightly verdict.now.says verdict.now.job.version (version_at verdict.now.job.slot versions.now)) (Unit {0}) }
{
    let job = verdict.job();
    let version = match versions.get(job.slot as usize) {
        Some(version) => *version,
        None => 0,
    };
    match verdict.says() {
        Says::Skipped { .. } => job.version < version,
        Says::Probe(..) | Says::Indistinguishable | Says::NoMemory => true,
    }
}

/// The verdict, or another one on its job where it skips that for no later version of its slot.
fn rightly(alloc: Global, mine: Arc<Job, Global>, verdict: Verdict, versions: &[u64]) -> Verdict
    requires { arc_value mine ≡ verdict.job }
    ensures job { result.job ≡ verdict.job }
    ensures skips { SkipsRightly result.says verdict.job.version (version_at verdict.job.slot versions.now) }
{
    if skips_rightly(&verdict, versions) {
        return verdict;
    }
    let floor = mine.version;
    decide(alloc, mine, &mut Never { floor })
}

impl Pool {
    ghost use Rattle.std.specs.Prelude.{Option};
    ghost use Rattle.mon_list.specs.Has.{Has};
    ghost use Rattle.mon_world.specs.Crews.{without_job};
    ghost use Rattle.mon_pool.specs.Places.{IsSideOf, offered_by, answered_by, unanswered_of, published_of, dropped_by, versions_of, last_of, waiting_of};

    /// Offers a job, and wakes an idle worker. Where there is no memory, the job is dropped and nothing else changed. A job
    /// that the queue does not take stays with the loop's side, and is pushed first by the next `offer` or `take`.
    pub fn offer<R: Wait>(
        &self,
        rt: &R,
        alloc: Global,
        side: &mut LoopSide,
        job: Job,
    ) -> Result<(), OutOfMemory>
        requires side { IsSideOf self.now side.old }
        requires number { last_of side.old < job.number }
        ensures side { IsSideOf self.now side.new }
        ensures offered { OnOk result (offered_by side.new ≡ offered_by side.old ++ job ∷ []) }
        ensures out { OnOk result (unanswered_of side.new ≡ unanswered_of side.old ++ job ∷ []) }
        ensures last { OnOk result (last_of side.new ≡ job.number) }
        ensures same { OnErr result (side.new ≡ side.old) }
        ensures full { OnOk result (waiting_of side.new ≢ [] → Held (ruled_capacity self.now.jobs) (WasSo arc_job (view side.new.jobs))) }
        ensures answered { (answered_by side.new ≡ answered_by side.old) × (dropped_by side.new ≡ dropped_by side.old) }
        ensures published { (published_of side.new ≡ published_of side.old) × (versions_of side.new ≡ versions_of side.old) }
    {
        if side.broken || !side.has_room() {
            return Err(OutOfMemory);
        }
        let mine = Arc::new(alloc, job)?;
        let theirs = Arc::try_clone(&mine)?;
        side.keep(mine, theirs);
        push_waiting(rt, &self.jobs, &mut side.jobs, &mut side.waiting);
        self.wake_one();
        Ok(())
    }

    /// Publishes a version of a slot, not below the slot's last one.
    pub fn publish(&self, side: &mut LoopSide, slot: u32, version: u64)
        requires side { IsSideOf self.now side.old }
        requires slot { slot < 64 }
        requires later { version_at slot (versions_of side.old) ≤ version }
        ensures side { IsSideOf self.now side.new }
        ensures published { published_of side.new ≡ published_of side.old ++ (slot, version) ∷ [] }
        ensures versions { versions_of side.new ≡ slice_set (versions_of side.old) slot version }
        ensures offered { (offered_by side.new ≡ offered_by side.old) × (unanswered_of side.new ≡ unanswered_of side.old) × (last_of side.new ≡ last_of side.old) }
        ensures answered { (answered_by side.new ≡ answered_by side.old) × (dropped_by side.new ≡ dropped_by side.old) }
    {
        side.published.publish(&self.board, slot, version);
    }

    /// Ends the pool: publishes 1 in the board's last slot, and wakes all workers.
    pub fn end<R: Wait>(&self, _rt: &R, side: &mut LoopSide)
        requires side { IsSideOf self.now side.old }
        ensures side { IsSideOf self.now side.new }
        ensures published { published_of side.new ≡ published_of side.old ++ (64, 1) ∷ [] }
        ensures versions { versions_of side.new ≡ versions_of side.old }
        ensures offered { (offered_by side.new ≡ offered_by side.old) × (unanswered_of side.new ≡ unanswered_of side.old) × (last_of side.new ≡ last_of side.old) }
        ensures answered { (answered_by side.new ≡ answered_by side.old) × (dropped_by side.new ≡ dropped_by side.old) }
    {
        side.published.end(&self.board);
        self.wake_all();
    }

    /// Takes one answer out of the queue: None where there was none, and otherwise the loop's own reference to the job that
    /// is out, with the verdict, or nothing where no such job is out, so that the answer is dropped.
    fn take_one<R: Wait>(
        &self,
        rt: &R,
        side: &mut LoopSide,
    ) -> Option<Option<(Arc<Job, Global>, Verdict)>>
        requires { IsSideOf self.now side.old }
        ensures side { IsSideOf self.now side.new }
        ensures none { IfNone result ((answered_by side.new ≡ answered_by side.old) × (unanswered_of side.new ≡ unanswered_of side.old)) }
        ensures empty { IfNone result (Held 0 (WasSo told (view side.new.answers))) }
        ensures dropped { IfSome result (λ found. IfNone found ((answered_by side.new ≡ answered_by side.old) × (unanswered_of side.new ≡ unanswered_of side.old))) }
        ensures found { IfSome result (λ found. IfSome found (λ f. (arc_value f.0 ≡ f.1.job) × Has (unanswered_of side.old) f.1.job)) }
        ensures left { IfSome result (λ found. IfSome found (λ f. (unanswered_of side.new ≡ without_job f.1.job.number (unanswered_of side.old)) × (answered_by side.new ≡ answered_by side.old ++ f.1.job ∷ []))) }
        ensures offered { (offered_by side.new ≡ offered_by side.old) × (last_of side.new ≡ last_of side.old) }
        ensures published { (published_of side.new ≡ published_of side.old) × (versions_of side.new ≡ versions_of side.old) }
        ensures kept { (side.new.jobs ≡ side.old.jobs) × (side.new.waiting ≡ side.old.waiting) }
    {
        let Some(answer) = self.answers.pop_as::<Takes, R>(rt, &mut side.answers) else {
            return None;
        };
        let verdict = answer.into_verdict();
        let Some(mine) = side.out.strike(verdict.job()) else {
            side.broken = true;
            let _ = self.answers.another::<Drops>(&mut side.answers);
            return Some(None);
        };
        Some(Some((mine, verdict)))
    }

    /// Takes answers until one is on a job that is out.
    fn take_fitting<R: Wait>(
        &self,
        rt: &R,
        side: &mut LoopSide,
    ) -> Option<(Arc<Job, Global>, Verdict)>
        requires { IsSideOf self.now side.old }
        ensures side { IsSideOf self.now side.new }
        ensures none { IfNone result ((answered_by side.new ≡ answered_by side.old) × (unanswered_of side.new ≡ unanswered_of side.old)) }
        ensures empty { IfNone result (Held 0 (WasSo told (view side.new.answers))) }
        ensures found { IfSome result (λ f. (arc_value f.0 ≡ f.1.job) × Has (unanswered_of side.old) f.1.job) }
        ensures left { IfSome result (λ f. (unanswered_of side.new ≡ without_job f.1.job.number (unanswered_of side.old)) × (answered_by side.new ≡ answered_by side.old ++ f.1.job ∷ [])) }
        ensures offered { (offered_by side.new ≡ offered_by side.old) × (last_of side.new ≡ last_of side.old) }
        ensures published { (published_of side.new ≡ published_of side.old) × (versions_of side.new ≡ versions_of side.old) }
        ensures kept { (side.new.jobs ≡ side.old.jobs) × (side.new.waiting ≡ side.old.waiting) }
    {
        for _ in rt.forever() {
            match self.take_one(rt, side) {
                None => return None,
                Some(Some(found)) => return Some(found),
                Some(None) => {}
            }
        }
        unreachable!()
    }

    /// Takes a verdict, on a job that was out: it was offered, and had no verdict before. None only where the queue of
    /// answers was empty at a step of this call. A verdict that skips a job for no later version of its slot is decided
    /// again here; it never comes, but one queue alone cannot show that.
    pub fn take<R: Wait>(&self, rt: &R, alloc: Global, side: &mut LoopSide) -> Option<Verdict>
        requires { IsSideOf self.now side.old }
        ensures side { IsSideOf self.now side.new }
        ensures took { IfSome result (λ verdict. Took verdict (unanswered_of side.old) None (versions_of side.old) (unanswered_of side.new)) }
        ensures answered { IfSome result (λ verdict. answered_by side.new ≡ answered_by side.old ++ verdict.job ∷ []) }
        ensures none { IfNone result ((answered_by side.new ≡ answered_by side.old) × (unanswered_of side.new ≡ unanswered_of side.old)) }
        ensures empty { IfNone result (Held 0 (WasSo told (view side.new.answers))) }
        ensures full { waiting_of side.new ≢ [] → Held (ruled_capacity self.now.jobs) (WasSo arc_job (view side.new.jobs)) }
        ensures offered { (offered_by side.new ≡ offered_by side.old) × (last_of side.new ≡ last_of side.old) }
        ensures published { (published_of side.new ≡ published_of side.old) × (versions_of side.new ≡ versions_of side.old) }
    {
        push_waiting(rt, &self.jobs, &mut side.jobs, &mut side.waiting);
        let (mine, verdict) = self.take_fitting(rt, side)?;
        let versions = side.published.versions.as_slice();
        Some(rightly(alloc, mine, verdict, versions))
    }
}

//! Workers that decide jobs beside a loop: jobs go out, and verdicts come back, each once, in any schedule.
//!
//! The loop offers jobs and takes verdicts through its `LoopSide`; each worker runs `Pool::work` with a `Pass` of its own.
//! Jobs and verdicts go through two bounded queues, and the last version of each slot stands on a board (`mon_board`) that
//! a worker looks at while it decides, so that it gives up a job that was overtaken. A job stands behind one `Arc`, which
//! the loop's side, the queues and the verdict share, so its table is there once.
//!
//! What is proved holds in every schedule. It rests on what each pass knows of its own steps (`mon_tally`): no rule speaks
//! of both queues, but a worker's lists of what it took and what it answered are equal, and the loop compares the whole job
//! of a verdict with those that are out. `Pool::close`, which has all passes again, shows that each job was answered or
//! handed back, once. `PoolCrew` is the pool as the core sees it.
//!
//! An offer pushes the job and wakes one idle worker. A worker that finds no job says that it is idle, looks once more, and
//! sleeps; one that finds a job after it said so wakes another in its place. No clause speaks of that, nor of who comes
//! first: a worker that takes no job keeps each clause here.
#![tactic(auto)]

mod answer;
mod closing;
mod crew;
mod idle;
mod looping;
mod making;
mod pass;
mod pool;
mod published;
mod queues;
mod stop;
#[cfg(test)]
mod tests;
mod unanswered;
mod waiting;
mod working;

pub use answer::Verdicts;
pub use crew::PoolCrew;
pub use mon_list::OutOfMemory;
pub use pass::{LoopSide, Pass};
pub use pool::Pool;

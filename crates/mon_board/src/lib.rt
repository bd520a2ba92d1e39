//! Versions of slots, which one writer publishes and workers look up while they work, with no lock and no wait.
//!
//! A worker that decides a job asks now and then whether the job's version is still the last one of its slot. It asks the
//! board through a seat of its own, a `Looker`; the loop publishes through the only `Writer`. A slot is one word of an
//! `atomic_table`, so publishing is one store and looking is one load, and neither takes memory.
//!
//! What a seat knows exists in proofs alone: the writer's seat all that was published, a looker's what it saw. The rule of
//! the table says of any schedule that each word is the last version published in its slot, and that each version that a
//! looker saw was published and is not above that word. So a look never gives an older version than an earlier one of the
//! same looker, or of one that it was split from or that was joined to it. `gather` hands a looker back to the writer, which
//! shows that each version that it saw was published. That a look gives a new version soon is in no clause.
#![tactic(auto)]

mod board;
mod rule;
#[cfg(test)]
mod tests;

pub use board::{Board, Looker, Writer};
pub use mon_list::OutOfMemory;

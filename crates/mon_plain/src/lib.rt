//! A plain solver: it always ends with a model, or with a refutation.
//!
//! The search is a loop over a trail of literals that are taken as true: decisions, and literals that a clause forces
//! since its other literals are false. A clause that is false is a conflict. Then the trail is taken back from its end:
//! entries that the conflict doesn't mention are dropped, which also jumps back over decisions; at a forced literal the
//! conflict is resolved with the clause that forced it, which gives a line of the log and the new conflict; at a
//! decision the conflict forces its opposite. When the trail is empty, the conflict closes the log. So each line but
//! the last has two hints, the last has the conflict alone, and what the log says is what `mon_refute` accepts.
//!
//! There is no recursion, so the search needs no stack. It ends since each step raises the trail's rank, the number
//! whose digits in base 3 are its entries, the oldest first: 1 for a decision and 2 for a forced literal. Forced
//! literals are found by the lists of the clauses in which each literal occurs. These lists only say where to look:
//! each clause is looked at again before it counts, and a model is decided by a scan of all clauses. So nothing has to
//! be proved of them.
//!
//! The log has a line for each resolution, and lines aren't searched for forced literals: a large formula wants a solver
//! that learns.
#![tactic(auto)]

mod back;
mod look;
mod pick;
mod resolve;
mod solve;

pub use mon_list::OutOfMemory;
pub use solve::{Outcome, solve_plain};

#[cfg(test)]
mod tests;

//! A solver that learns: it always ends with a model, or with a refutation.
//!
//! The search is a loop over a trail of literals that are taken as true (`mon_trail`): decisions, and literals that a clause
//! forces since its other literals are false. Forced literals are found by two watched literals a clause (`watch`,
//! `propagate`). A clause that is false is a conflict. It is analysed along the trail, from its end (`analyse`): a forced
//! literal that makes it false is resolved away by the clause that forced it, until all but one of what is left belongs to
//! before a decision. What is left is learned (`learn`), as a line of the log whose hints are the clauses that were resolved,
//! the oldest first, and then the conflict. The trail jumps back to before the first decision with which the learned clause
//! forces a literal (`backtrack`). Where the conflict belongs to no decision, all of it is resolved away, and the line of no
//! literal that is left ends the log. Decisions go to the variables of the latest conflicts first (`decide`), and now and
//! then the search restarts with what it has learned (`restart`).
//!
//! What is proved rests on the trail alone. Watches, the order of decisions and restarts say where to look: a clause is
//! looked at again before it forces a literal or counts as a conflict, and a model is decided by a look at all clauses. The
//! search ends since each step raises the trail's rank, the number whose digits in base 3 are its entries, the oldest first:
//! 1 for a decision and 2 for a forced literal. Restarts lower it, and their number is bounded.
//!
//! Time is that of the search, which may be exponential. Memory is that of the log, whose clauses are all kept.
#![tactic(auto)]

mod analyse;
mod backtrack;
mod decide;
mod learn;
mod propagate;
mod restart;
mod seen;
mod solver;
mod stop;
mod watch;

pub use mon_list::OutOfMemory;
pub use solver::{Found, solve};
pub use stop::{Never, Stop};

#[cfg(test)]
mod tests;

//! What a solver keeps while it searches: marks of the variables, and the trail of the literals that made them.
//!
//! A mark says what is decided of a variable. A clause under the marks is false, forces its last undecided literal, is true,
//! or is open (`look`). The trail has the literals that are taken as true, the oldest first: decisions, and literals that a
//! clause forces, with the number of that clause (`trail`). Clauses are numbered from 1 on, those of the formula first and
//! then those of a log (`clauses`). `pick_open` looks at all clauses of a formula, and so tells a model.
//!
//! Contracts see a trail as its two lists. What a search has to keep of them is `Stands` (`specs/Trail.antt`): each line of the
//! log follows, and each entry was free, and was forced by its clause, under the marks of the entries before it. A search ends
//! where each of its steps raises the trail's rank, the number whose digits in base 3 are its entries, the oldest first: 1 for
//! a decision and 2 for a forced literal. So does an entry that comes, and a forced literal in the place of a decision.
#![tactic(auto)]

mod clauses;
mod look;
mod pick;
mod trail;

pub use clauses::{clause_at, clause_of};
pub use look::{Look, Mark, look_at};
pub use mon_list::OutOfMemory;
pub use pick::{Pick, pick_open};
pub use trail::{Entry, Trail};

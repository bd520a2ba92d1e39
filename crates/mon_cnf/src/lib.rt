//! Formulas in conjunctive normal form, and when an assignment satisfies one.
//!
//! A literal is a variable or its negation, a clause is true where one of its literals is, and a formula where all of
//! its clauses are. Variables are numbers from 0 on, and a formula knows how many it has: each literal of its clauses
//! is of one of them, so that a value for each variable decides it. Contracts see a formula as its number of
//! variables and its list of clauses (`specs/Formulas.antt`), and truth as a function into `Bool`
//! (`specs/Truth.antt`). `clause_of` reads a clause from numbers, as in the format of DIMACS.
#![tactic(auto)]

mod clause;
mod formula;
mod truth;
mod written;

pub use clause::{Bits, Clause, Lit};
pub use formula::Formula;
pub use mon_list::OutOfMemory;
pub use truth::holds;
pub use written::clause_of;

#[cfg(test)]
mod tests;

//! A header as 264 variables of a formula: matches, classes and rewrites as literals and clauses.
//!
//! Variable `k` is the bit at place `k` of a header (`mon_header::bit`), so that each assignment bears a header:
//! `borne`. All that is asked of a header is asked of runs of its bits, each with the number that they spell: `pattern`
//! is the runs that a match compares, `push_class` asks for headers that a probe of a class and port can have, and
//! `differ` is one clause that says that what two rewrites make of one header is not the same. A solver that decides
//! these clauses decides the words of the lower crates: the functions of `laws` do nothing, and their clauses say so
//! for each assignment, as equations that serve both ways.
//!
//! A pattern has at most 264 literals, a class at most 22 conditions, a clause of two rewrites at most 264 literals. Each
//! is made in one pass, and only their lists take memory.
#![tactic(auto)]

mod bearing;
mod classes;
mod clauses;
mod condition;
mod differing;
pub mod laws;
mod matching;
mod run;

pub use bearing::borne;
pub use classes::push_class;
pub use clauses::push_alone;
pub use condition::Condition;
pub use differing::differ;
pub use matching::pattern;
pub use mon_cnf::OutOfMemory;
pub use run::Run;

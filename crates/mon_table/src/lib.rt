//! Tables of rules in table order, and what a switch would answer over them.
//!
//! What: a `Table` is a list of rules without two of one identity, where the identity of a rule is its match and its
//! effective priority. It stands in table order: falling effective priority, then rising bytes of the match. Contracts
//! see a table as that list, and each call is a definition over it.
//!
//! Why: the expected table of a session is followed edit by edit, and is looked up for each header that a probe may
//! bear. Both are asked often, over some thousands of rules.
//!
//! How: chunks of 1 to 64 rules, each with a cover, a match that takes what any of its rules takes. A place is searched
//! by halves over the chunks and then within one, and an edit moves the rules of one chunk. A lookup leaves out the
//! chunks whose cover does not take the header or overlap the match. Tables share chunks: a slice shares those of which
//! each rule overlaps, and a chunk that has other owners is copied before it is changed. The rule at a place is found by
//! a walk over the lengths of the chunks. No contract betrays them.
#![tactic(auto)]

mod changes;
mod chunk;
mod chunks;
mod cover;
mod edit;
pub mod laws;
mod lookups;
mod rule;
mod shared;
mod spot;
mod table;
#[cfg(test)]
mod tests;

pub use edit::Edit;
pub use mon_header::OutOfMemory;
pub use rule::Rule;
pub use table::Table;

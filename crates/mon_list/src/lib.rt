//! Lists that grow, and the one way in which they cannot.
//!
//! `OutOfMemory` is the answer of every call of the repository that finds no memory: no clause says when it comes.
//! `Items<T>` is a list over one vector, seen by contracts as the list of its elements. The list types of the other
//! crates are names for it, but for those that keep a fact about their elements.
#![tactic(auto)]

mod items;
mod memory;

pub use items::Items;
pub use memory::OutOfMemory;

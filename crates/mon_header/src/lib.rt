//! Headers, matches and actions of OpenFlow 1.0.0, without their bytes.
//!
//! A `Match` is always in its normalised form, so that equal matches are equal values. `matches`, `covers`, `overlaps`
//! and `effective` go field by field; `match_before` is the order in which tables keep their rules. `bit` and
//! `from_bits` give a header as 264 bits and take it from them, and the classes say which headers a frame can have.
//!
//! The functions with a law's name do nothing: their clauses say, for all matches and headers, what these words mean.
//! Only the copies and lists of actions take memory.
#![tactic(auto)]

mod action;
mod actions;
mod class;
mod header;
mod laws;
mod matching;
mod order;
mod places;
#[cfg(test)]
mod tests;
mod wild;

pub use action::{Action, RawAction, same_action};
pub use actions::{Actions, same_actions};
pub use class::{CLASSES, Class, in_class, is_in_class};
pub use header::{BLANK, DATAGRAM, Header};
pub use laws::{
    bits_are_the_header, classes_are_apart, covering_is_taking_all, normal_is_kept,
    order_is_strict_and_total, overlapping_is_a_shared_header,
};
pub use matching::{Match, Matches, covers, effective, matches, overlaps};
pub use mon_list::OutOfMemory;
pub use order::{match_before, same_header, same_match};
pub use places::{HEADER_BITS, bit, from_bits};
pub use wild::Wildcards;

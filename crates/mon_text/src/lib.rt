//! What stands at the front of a text: decimal numbers, and bytes in hexadecimal digits.
//!
//! A reader here takes a slice and gives what stands at its front with the rest of the slice, so a text is read once and
//! nothing of it is copied. Each is a function of the text (`specs/Parts.antt`), and reads what has one spelling:
//! numbers without leading zeros, lower digits. The definitions join such readers into longer ones, and their proofs
//! show once for all that what is spelled is read, and that only that is.
//!
//! A reader of a whole text answers what it read or a `TextFault`, one for all kinds of texts: the text is bad, or memory ran
//! out (`specs/Reads.antt`).
#![tactic(auto)]

mod fault;
mod hexadecimal;
mod numbers;
mod parts;
#[cfg(test)]
mod tests;

pub use fault::{FileFault, LineFault, TextFault};
pub use hexadecimal::{byte_of, digits, push_digits, read_digits, take_run};
pub use mon_list::OutOfMemory;
pub use numbers::number_at;
pub use parts::{behind, datapath_at, number_within};

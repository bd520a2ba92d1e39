//! The 40 bytes of a match (OpenFlow 1.0.0, flow match structures).
//!
//! `read_match` gives the normalised form of what the bytes say, and `write_match` spells such a form with its pads 0:
//! what is written is read again, and matches stand in the order of their bytes. Neither takes memory.
#![tactic(auto)]

mod codec;
mod laws;
#[cfg(test)]
mod tests;

pub use codec::{read_match, write_match};
pub use laws::{order_is_of_bytes, written_is_read};

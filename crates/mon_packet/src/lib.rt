//! Probe frames: packets of a given header that carry a nonce (IEEE 802.1Q, RFC 791, 9293, 768, 792, 826).
//!
//! `render` writes a frame of a header in a class, with right checksums, and `parse` reads any frame: what it reads of
//! a rendered one is that header, without its port, and the nonce. The definitions of both stand apart, one by what a
//! frame says at each place, the other by how a reader goes through it. `parse` takes no memory, and looks at no
//! checksum: a switch that changes a header may leave them wrong.
#![tactic(auto)]

mod ethernet;
mod laws;
mod nonce;
mod reading;
mod sums;
#[cfg(test)]
mod tests;
mod transport;
mod writing;

pub use laws::{checksums_are_right, written_is_read};
pub use mon_header::{OutOfMemory, in_class};
pub use nonce::Nonce;
pub use reading::parse;
pub use writing::render;

//! Frames of OpenFlow 1.0, and how a stream of bytes is cut into them.
//!
//! A frame is eight bytes of header and as many more as its length field says. A `Cutter` takes a stream in whatever
//! pieces it comes and gives each frame with the piece that has its last byte. What it gives is a function of the
//! bytes alone (`specs/Cut.antt`, byte by byte); the body takes whole slices of a piece. At the first header with a
//! fault it stops for good.
#![tactic(auto)]

mod cutter;
mod fault;
mod frame;
pub mod kinds;
mod laws;
#[cfg(test)]
mod tests;

pub use cutter::{Cut, Cutter, Frames};
pub use fault::FrameFault;
pub use frame::Frame;
pub use laws::{a_fault_stays, frames_are_the_stream, pieces_do_not_matter};
pub use mon_list::OutOfMemory;

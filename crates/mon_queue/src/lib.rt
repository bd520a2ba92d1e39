//! Frames that are held back, in the order in which they came, and which frame may pass what is unsettled.
//!
//! A session that may not pass a frame of its controller yet keeps it in a `Queue`, and all that come behind it: frames
//! leave in the order in which they came. `bytes` is what all of them take together, kept as a number, so that a limit
//! on it costs nothing. `apart` says which edit of the table may go out while others are unsettled: one whose match
//! shares no header with theirs. A push, a pop and a look at the head take the same time however long the queue is.
#![tactic(auto)]

mod queue;
#[cfg(test)]
mod tests;

pub use mon_list::OutOfMemory;
pub use queue::{Queue, apart};

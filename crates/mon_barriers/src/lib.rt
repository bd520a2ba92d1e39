//! Barriers that were sent to a switch and are not answered yet, and the replies that the controller must wait for.
//!
//! A switch answers barriers in the order in which they came (OpenFlow 1.0.0, barrier message), so a reply belongs to
//! the oldest asker that has no answer yet. The session asks for itself, once to arm and once behind each edit, and
//! passes the barriers of the controller. A reply to the controller is kept until all edits that went out before its
//! barrier are settled, since it tells that they are done. The askers and the kept replies are two queues, so asking,
//! answering and handing out take the same time however many there are.
#![tactic(auto)]

mod barriers;
#[cfg(test)]
mod tests;

pub use barriers::{Asked, Asker, Barriers};
pub use mon_list::OutOfMemory;

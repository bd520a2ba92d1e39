//! Actions and their bytes (OpenFlow 1.0.0, flow action structures).
//!
//! `read_actions` goes once over the bytes, from action to action, and gives all of them, or the place of the first one
//! that is cut off or whose length is wrong (`specs/Reading.antt`). An action whose type is not in the standard's table,
//! a vendor's among them, keeps its bytes. `write_actions` spells the actions with pads of 0 (`specs/Layout.antt`), and
//! what it spells is read back.
#![tactic(auto)]

mod fault;
mod laws;
mod reading;
#[cfg(test)]
mod tests;
mod writing;

pub use fault::ActionFault;
pub use laws::{a_fault_is_the_first, written_is_read};
pub use mon_list::OutOfMemory;
pub use reading::read_actions;
pub use writing::write_actions;

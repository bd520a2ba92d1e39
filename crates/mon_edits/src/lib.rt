//! What a FLOW_MOD does to the table of a switch, and in which frames it goes on.
//!
//! What: `plan_mod` gives the edits of a message, in table order, or the reason for which the proxy refuses it.
//! `frames_of` gives the frames in which they go to the switch, and `frame_of` that of one edit.
//!
//! Why: a message may name many entries, the proxy's own among them on the switch, while a probe shows one entry. So
//! every message but an ADD goes on as one strict frame for each entry that it changes or takes out.
//!
//! How: strict commands and ADDs look their entry up by its identity; the other commands go once over the table. The
//! refusals are tested in their order, and only then the edits are made. A message for the emergency table goes
//! neither way: the session passes it as it came.
#![tactic(auto)]

mod frame;
mod laws;
mod naming;
mod plan;
mod refusal;
#[cfg(test)]
mod tests;

pub use frame::{frame_of, frames_of};
pub use laws::{
    a_deletion_leaves_what_it_does_not_take, a_modification_changes_what_it_names,
    an_add_goes_on_as_it_came, an_add_puts_its_rule, edits_say_what_stood_there,
    edits_suit_the_command,
};
pub use mon_list::OutOfMemory;
pub use mon_table::Edit;
pub use naming::{is_deletion, is_emergency};
pub use plan::{Edits, plan_mod};
pub use refusal::ModRefusal;

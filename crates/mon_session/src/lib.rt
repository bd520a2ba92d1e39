//! One session: what it keeps, and what each frame makes of it.
//!
//! What: a `Session` keeps what its history says of it (`specs/Now.antt`), field by field, and gives the steps that the
//! core has to carry out. Each method says which entries of the history it made, and that the session is what they make of
//! it (`specs/Walks.antt`).
//!
//! Why: the core's own facts are then facts of the history alone. The functions of `laws` do nothing: they say that the
//! record and the history agree, and what holds of a session's edits wherever its history is legal.
//!
//! How: unsettled edits stand in falling order of their numbers, so that one enters and leaves at an end; frames that wait
//! are counted in bytes as they come; a frame is planned once, and its edits go out one by one.
//!
//! Rules are not passed by stand-ins yet, and not watched.
#![tactic(auto)]

mod act;
mod answered;
mod arming;
mod around;
mod carried;
mod change;
mod coming;
mod controller;
mod errors;
mod fate;
mod features;
mod in_flight;
mod laws;
mod name;
mod numbers;
mod offers;
mod ordered;
mod passing;
mod probe;
mod removals;
mod returned;
mod sending;
mod session;
mod step;
mod switch;
mod telling;
mod ticking;
mod track;
mod tracks;
mod under_way;
mod unsettled;
mod verdicts;

pub use around::{Around, Neighbour, Neighbours};
pub use laws::{
    a_confirmation_is_sound, a_rejected_edit_is_taken_back, a_step_is_an_entry,
    an_opening_begins_a_session, frames_of_the_switch_owe_what_the_history_says,
    planned_edits_stay, probes_owe_what_the_history_says, standing_goes_on, updates_are_there,
};
pub use mon_list::OutOfMemory;
pub use numbers::Numbers;
pub use session::Session;
pub use step::{Jobs, Outs, SessionEnd, Step};

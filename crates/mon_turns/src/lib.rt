//! All sessions, and the loop that hands them what comes.
//!
//! What: a `Core` keeps the open sessions, the versions of their slots, the numbers that are used, and the jobs without an
//! answer. It is seen as its run and its state (`specs/Core.antt`): where a history is told, the state is what that
//! history says of it, field by field.
//!
//! Why: all that is promised of a run is a fact of its history (`mon_legal`). A core stands for a log (`specs/Standing.antt`)
//! where one list of moments shows the log, is lawful, and gives the core's state; the calls of a loop keep that. What a
//! crew is told holds of the state alone (`specs/Around.antt`), so it holds beside a hub that tells no log.
//!
//! How: sessions stand by rising number; a slot is looked for among 64, and a gate is one look at each open session.
#![tactic(auto)]

mod connection;
mod fault;
mod gating;
mod laws;
mod numbers;
mod opening;
mod sessions;
mod slots;
#[cfg(test)]
mod tests;
mod turn;
mod waiting;

pub use fault::{CoreFault, TurnEnd};
pub use laws::{
    answers_are_followed, armed_sessions_are_those_of_the_history, barriers_follow,
    edits_are_followed, events_are_lawful, events_stand_behind_turns,
    gates_are_those_of_the_history, idle_stands, nothing_that_came_stands, one_log_gives_one_state,
    open_sessions_have_slots, openings_stand, others_are_those_of_the_history,
    sessions_are_open_until_their_end, sessions_follow_from_the_order,
    sessions_without_a_slot_are_turned_away, settlings_follow_from_the_order,
    the_free_slot_is_the_next, turns_end_where_nothing_comes,
    unmonitorable_updates_follow_from_the_order, versions_rise_with_their_session,
    views_are_those_of_the_history,
};
pub use mon_list::OutOfMemory;
pub use numbers::Numbers;
pub use sessions::Core;

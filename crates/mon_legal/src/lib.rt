//! Which histories of a run are legal: what the log of a run may hold, whatever its inputs and the answers of its solver.
//! The crate has no code. Its definitions (`specs/`) say in the standard's words what each entry means and which may come,
//! and its laws show that they say what they are meant to.
//!
//! A history is read moment by moment (`Moments`): between two entries of the log frames are handled one by one and sessions
//! take their steps. What one session sees of them (`Owns`, `Sessions`) tells everything of it: who waits for a barrier's
//! reply (`Barriers`), the edits and the table that its switch should have (`Edits`), what waits (`Held`), its probes
//! (`Probes`) and its watch (`Watching`). A history is legal (`Legal`) where its moments meet each line: one file each, from
//! `Passing`, which says in which order everything comes, to `Confirming`, which says what a confirmation means.
#![tactic(auto)]

mod laws;

pub use laws::{
    all_frames_go_on, at_most_64_sessions_have_a_slot, legal_is_legal_so_far,
    offers_follow_from_the_order, one_history_has_one_witness, own_frames_are_the_proxys,
    replies_follow_from_the_order, stale_answers_send_nothing, the_ordinary_use_is_legal,
};

//! All sessions, and the loop that hands them what comes.
//!
//! A `Core` is seen as what has come of both sides of each session and the table of the entries that its controller has
//! on its switch (`specs/History.antt`). Each turn takes one event: a private function with an exact clause says what the
//! event makes of the state and what is put out, and a loop carries the outputs to the hub.
//!
//! A frame of the controller has a fate over that table (`specs/Fates.antt`). A FLOW_MOD that cannot be read or that is
//! refused goes no further, and the controller gets an ERROR. Any other one goes on as one frame for each entry that it
//! changes, and the table follows; an ADD goes on as it came. All other frames pass unchanged, from either side. No frame
//! is held yet, a session is armed from its opening to its end, and no entry of the proxy's own is on the switch.
//!
//! The contract speaks of the hub's log: where the hub tells it, the core stands for it before and after each turn, and it
//! is legal. What a legal history means is a law of its own (`specs/Streams.antt`): each frame of each side's stream had
//! its fate, in order, in the turn in which it came, nothing else was put, a session was ended exactly at the first fault,
//! and `Core::armed` shows the expected tables, which are what the edits that went to the switch make of none.
//!
//! A FLOW_MOD costs what `plan_mod` costs, and one move of the table's tail for each entry that comes or goes.
#![tactic(auto)]

mod controller;
mod fate;
mod laws;
mod outputs;
mod run;
mod session;
mod sessions;
mod turn;

pub use laws::legal_passes_frames;
pub use mon_world::OutOfMemory;
pub use run::{LoopEnd, run_loop};
pub use sessions::Core;

//! What the core sees of the outside: files, connections, and the history of a run.
//!
//! `Desk` is the files and the streams of the program, `Hub` the connections. Each says what it does by ghost members:
//! counts of its faults, which never fall, and what it tells of itself, where it tells it. A desk in memory tells its
//! files, what was written, what was said and the calls that were made of it, in order; one over the real streams tells
//! nothing. A hub may tell its log, which is the history of the run: what it gave, what it was told, and what it put or
//! lost, the newest entry first. It then tells the gates of each call for an event too. Nothing above keeps a history.
//! `Crew` is those who answer jobs, `Gate` is what a worker of theirs waits at.
#![tactic(auto)]

mod calls;
mod crew;
mod desk;
mod event;
mod gate;
mod history;
mod hub;
mod memory;
#[cfg(test)]
mod tests;
mod text;

pub use calls::{Call, Calls};
pub use crew::Crew;
pub use desk::{Desk, DeskFault};
pub use event::{Event, Gates, Kind, Note, Out, Piece, Side};
pub use gate::Gate;
pub use history::Entry;
pub use hub::{Hub, HubFault, PutFault};
pub use memory::{FileBytes, MemoryDesk, NamedFile, NamedFiles, Places};
pub use mon_list::OutOfMemory;
pub use text::Text;

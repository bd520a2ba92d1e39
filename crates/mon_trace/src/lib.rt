//! Traces of sessions: their text, and a hub that gives their events and writes down what it is given.
//!
//! `read_trace` accepts the texts of `specs/Grammar.antt` and no others, and gives the key and the records that they say;
//! at any other text it says where the first line begins that makes it none. The record `echo` is to come.
//!
//! `TraceHub` gives the events in order and then Stop, loses the frames that the trace tells it to lose, and tells its
//! log. Its `text` is the text of that log (`specs/Run.antt`): a line for each output and note, with the number of the
//! record that was handled. A record that can't be given in the run, an answer of no job or a piece of a gated
//! controller, is said by `bad`. `table_line`, the line of one rule of a session's table, is that of `mon_rule_line`.
//!
//! A trace may be large, so nothing is kept twice. The bytes of all pieces stand in one vector, a piece is a place in
//! it, and the hub's log is its place in the trace and the text that it has written, with the notes beside it.
#![tactic(auto)]

mod events;
mod grammar;
mod hexadecimal;
mod hub;
pub mod laws;
mod lines;
mod outputs;
mod printing;
mod records;
#[cfg(test)]
mod tests;

pub use grammar::{Trace, read_trace};
pub use hub::TraceHub;
pub use mon_list::OutOfMemory;
pub use mon_rule_line::table_line;
pub use mon_text::FileFault as TraceFault;

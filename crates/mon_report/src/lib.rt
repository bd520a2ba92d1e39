//! Report lines: what the program tells of its sessions, one line of JSON for each thing that happened.
//!
//! A line is an object without spaces, its members in alphabetical order of their names. Values are decimal numbers,
//! fixed words and lower hexadecimal digits, so nothing ever needs an escape. `specs/Lines.antt` says which members each
//! kind has; `text` gives the compact text of just that object, which read as JSON is the object again.
#![tactic(auto)]

mod line;
mod spelling;
#[cfg(test)]
mod tests;

pub use line::{Cause, Line, WatchWhat, What};
pub use mon_list::OutOfMemory;
pub use spelling::text;

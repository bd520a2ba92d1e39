//! The settings of a run, read from JSON.
//!
//! `read_settings` takes exactly the texts of the settings' form (`specs/Form.antt`, member by member) and means what they
//! say; of any other text it names the first wrong member by its path. Which member that is, is a chain over the members in
//! the order in which they are judged (`specs/Judged.antt`), above what the JSON library says a text holds. Nothing is said
//! of want of memory.
#![tactic(auto)]

mod address;
mod fault;
mod lists;
mod members;
mod names;
mod parts;
mod settings;
#[cfg(test)]
mod tests;
mod texts;

pub use address::Address;
pub use fault::{PathBytes, SettingsFault};
pub use mon_topo::OutOfMemory;
pub use settings::{Settings, read_settings};

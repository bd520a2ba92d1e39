//! Tables of rules that come from a file or from numbers, with the switch that has them.
//!
//! `read_table` reads a table file, a text of lines that `specs/TableFile.antt` spells out: a switch as its neighbours can
//! show it, and the rules of its table in any order. It reads exactly such texts, in one pass and without a copy of the
//! text; a text in another form is refused with the offset of its first bad line. `generate` makes large valid inputs from
//! a number (`specs/Generator.antt`): the same rules everywhere, with no file to carry.
#![tactic(auto)]

mod generator;
mod judging;
pub mod laws;
mod lines;
mod reading;
mod sections;
#[cfg(test)]
mod tests;

pub use generator::generate;
pub use mon_list::OutOfMemory;
pub use mon_text::FileFault;
pub use reading::read_table;

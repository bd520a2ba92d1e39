//! The words of a rule on a line of text: its priority, its match and its actions.
//!
//! A table file and the trace of a run spell rules in the same words, and differ in what stands before them. The words
//! are defined here once (`specs/RuleWords.antt`). `table_line` writes the line of a rule of a session's table;
//! `mon_table_file` reads those of a table file.
#![tactic(auto)]

mod lines;
#[cfg(test)]
mod tests;

pub use lines::table_line;
pub use mon_list::OutOfMemory;

//! Refutations: logs of clauses, each with the clauses that it follows from, down to the empty one.
//!
//! A log is a list of lines. A line is a clause and hints, the numbers of earlier clauses: the formula's from 1 on, and
//! then the log's own lines. With the line's literals taken as false, each hinted clause in turn must have one undecided
//! literal and else false ones, and that literal becomes true, until one has none left. So it is the LRAT proof format of
//! the SAT field, with unit hints only and without deletions. A log is accepted where each line follows and the last one is
//! empty. What that means is the contract of `accepted_means_none`: no assignment satisfies the formula.
//!
//! `accepts` reads a log in one pass, in time linear in the literals that its hints name, and takes no memory: what is
//! known of each variable stands in a mark that the caller lends. `read_log` and `write_log` are a log's text; `log_at` reads
//! one that stands in front of others. A text of no log is refused with the offset of its first bad line.
#![tactic(auto)]

mod check;
mod lines;
mod marks;
mod number;
mod read;
mod write;

pub use check::{accepted_means_none, accepts};
pub use lines::{Hints, Log, LogLine, Logs};
pub use mon_list::OutOfMemory;
pub use mon_text::FileFault as LogFault;
pub use read::{log_at, one_line_is_the_first_bad_one, read_log};
pub use write::write_log;

#[cfg(test)]
mod tests;

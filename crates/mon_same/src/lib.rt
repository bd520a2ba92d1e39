//! Whether two jobs are the same whole job.
//!
//! Whoever gave jobs away and gets verdicts back compares a verdict's job with its own: a job is the same only where its
//! numbers, its view, its target and each rule of its table are. The numbers are compared first, so that two jobs of
//! different numbers cost nothing, and the table last. Nothing here takes memory.
#![tactic(auto)]

mod job;
mod rule;
mod view;

pub use job::same_job;
pub use rule::{same_rule, same_table};
pub use view::same_view;

//! What is asked of the solver, and what is answered.
//!
//! A `Job` asks which packet shows that an update is in a table: it bears the table and the view of one moment, and the
//! numbers by which its asker knows it again. A `Verdict` is an answer together with its job, and is true of it whoever
//! made it: a probe separates, where there is none nothing separates, and what was skipped was overtaken by a version
//! above the job's. So a verdict may cross threads and come late, and its job is still what it speaks of.
//!
//! A job is made once and shared, so no call here takes memory or copies a table. Its table may be the slice by the
//! target's match, since that separates by the same headers and emissions as the whole one: `laws` says so.
#![tactic(auto)]

mod job;
pub mod laws;
mod verdict;

pub use job::Job;
pub use verdict::{Says, Verdict};

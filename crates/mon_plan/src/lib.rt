//! Whole tables planned, and plans checked.
//!
//! `plan_table` gives for each rule of a table a probe that shows it, refutations that leave none, or that the rule is
//! tied. `check_table` checks such a list by anyone, without a search: the logs of refutations are followed line by
//! line. `Summary::of` counts what a plan says, and its counts are the table's, whatever the plan: `laws` says so.
//!
//! Each rule is asked about as one that is watched, over the slice of the table by its match. A slice asks the same as
//! the whole table, and is mostly small, so a plan takes the time of as many small searches as there are rules, and the
//! memory of the certificates and of one search. A job owns its view and its slice, which are copied for it.
//!
//! The files that tables and certificates come from and go to, and the generator of tables, are named here again: this is
//! the one door to them, with their faults.
#![tactic(auto)]

mod check;
mod job;
pub mod laws;
mod plan;
mod summary;

pub use check::{Checked, check_table};
pub use job::job_at;
pub use mon_certificate::{Certificate, Certificates};
pub use mon_certificate_file::{read_certificates, write_certificates};
pub use mon_list::OutOfMemory;
pub use mon_table_file::{generate, read_table};
pub use mon_text::FileFault;
pub use plan::plan_table;
pub use summary::Summary;

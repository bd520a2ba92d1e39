//! What a planner says of one rule of a table, in a form that anyone can check.
//!
//! A `Certificate` is a probe that shows the rule, or refutations that leave no probe, or that the rule is tied. The
//! types say nothing of its truth: that is for those who make and check certificates.
//!
//! The types have a crate of their own, below the one of their file, so that the solver, which makes certificates and judges
//! them, does not stand above the reader of a text.
#![tactic(auto)]

mod certificate;

pub use certificate::{Certificate, Certificates};
pub use mon_list::OutOfMemory;

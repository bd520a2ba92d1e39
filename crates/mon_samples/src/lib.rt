//! Samples of headers, views and rules, and the tests of what says how packets show rules, over them.
//!
//! The tests of `mon_shows`, `mon_literals`, `mon_job`, `mon_encode`, `mon_solve` and `mon_plan` stand here, since all are
//! worked out by hand over the same switch: a crate with tests is proved twice, and a sample is written once. `mon_bench`
//! times calls over the samples too. No crate of the program stands on this one.
#![tactic(auto)]

mod headers;
mod rules;
#[cfg(test)]
mod tests;
mod views;

pub use headers::{IPV4, PACKET};
pub use mon_list::OutOfMemory;
pub use rules::{ipv4, narrow, sending, wide};
pub use views::{neighbours, two_neighbours, with_neighbours};

//! Jobs decided, and certificates of the answers.
//!
//! `decide` answers a job with a verdict that is true of it: it goes through the job's cases, and asks before each
//! whether it may stop. A case is clauses (`mon_encode`), of which the plain solver finds a model or a refutation: a
//! model is a probe, and refutations of all cases leave none. `certificate` does the same and keeps the refutations, so
//! that `accept` can check what it says without a search. What is accepted is a definition over the job
//! (`specs/Accepting.antt`), and what is accepted is true.
//!
//! Nothing is kept from case to case, so the memory taken is that of one case's clauses and its search, and for a
//! certificate of the refutations so far. Time is that of the solver: as many searches as cases, if no probe is found.
#![tactic(auto)]

mod certify;
mod deciding;
mod found;
mod stop;

pub use certify::{accept, certificate};
pub use deciding::decide;
pub use mon_certificate::{Certificate, Certificates};
pub use mon_list::OutOfMemory;
pub use stop::{Never, Stop};

//! What a rule's actions do to a packet (OpenFlow 1.0.0, flow action structures).
//!
//! Actions run in list order on the header. `apply` is the header after all of them; `must` and `may` say which
//! emissions a switch has to show and which it can show, where an action that this crate doesn't know leaves it free.
//! `rewrites` says the same of all headers of a class at once: each emission is a door and a rewrite, which fixes some
//! fields and copies the others, so that a solver can compare emissions bit by bit.
#![tactic(auto)]

mod act;
mod door;
mod emission;
mod laws;
mod outcome;
mod rewrite;
mod shape;
#[cfg(test)]
mod tests;

pub use act::apply;
pub use door::{Door, any_unknown};
pub use emission::{Emission, same_emission};
pub use laws::{
    apply_keeps_the_class, emissions_keep_the_class, filled_bits_are_bits, same_emissions_are_equal,
};
pub use mon_header::{Class, OutOfMemory};
pub use outcome::{emission_at, may, must};
pub use rewrite::{Bit, Rewrite};
pub use shape::{COPIED, Shape, Shapes, rewrites};

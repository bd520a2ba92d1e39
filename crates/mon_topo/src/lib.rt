//! The links between switches, and the VLAN tags that tell neighbours apart.
//!
//! A probe leaves a switch with that switch's own tag, and each neighbour catches the tags of the others. So linked
//! switches need different tags: `colour` gives each switch the first tag of a list that no linked switch has yet, or
//! says what is wrong with the topology or the list. The lists `Vids` and `Datapaths` keep that they ascend.
#![tactic(auto)]

mod datapaths;
mod fault;
mod greedy;
mod links;
mod tagged;
mod tags;
#[cfg(test)]
mod tests;
mod topology;
mod vids;

pub use datapaths::Datapaths;
pub use fault::TopoFault;
pub use greedy::colour;
pub use links::wrong_link;
pub use mon_list::OutOfMemory;
pub use tagged::Tagged;
pub use tags::Tags;
pub use topology::{Link, Links, Topology};
pub use vids::Vids;

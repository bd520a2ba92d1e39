//! Switches and the links between them.

use crate::datapaths::Datapaths;
use mon_list::Items;

/// A cable between a port of one switch and a port of another. The switches are named by their datapath ids.
#[derive(Clone, Copy, Debug, PartialEq, Eq)]
pub struct Link {
    pub a: u64,
    pub a_port: u16,
    pub b: u64,
    pub b_port: u16,
}

/// Links, in the order in which they were given.
pub type Links = Items<Link>;

/// Switches by their datapath ids, ascending, and the links between them.
#[derive(Drop)]
pub struct Topology {
    pub switches: Datapaths,
    pub links: Links,
}

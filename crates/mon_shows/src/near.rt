//! Links to neighbours.

use mon_list::Items;

/// A link of a switch: its own port, the datapath id of the switch at the other end, the port there, and that switch's
/// tag.
#[derive(Clone, Copy, Debug, PartialEq, Eq, Drop)]
pub struct Near {
    pub port: u16,
    pub switch: u64,
    pub far_port: u16,
    pub tag: u16,
}

/// Links, in order.
pub type Nears = Items<Near>;

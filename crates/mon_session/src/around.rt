//! What a session is told of the others and of the settings.

use mon_list::Items;
use mon_shows::View;
use mon_topo::{Datapaths, Tags, Topology};

/// A link of a session's view, and the open session of the switch at its other end.
#[derive(Clone, Copy, Debug, PartialEq, Eq, Drop)]
pub struct Neighbour {
    pub port: u16,
    pub session: u64,
    pub far_port: u16,
}

/// Neighbours, in the order of the links of the view.
pub type Neighbours = Items<Neighbour>;

/// The run's key, its switches and links, their tags, after how many ticks an edit is reported as silent, a probe is sent
/// again and a rule is watched, the datapath ids of the other open sessions, the view, which is there exactly where the
/// session's datapath id is known, and its neighbours.
#[derive(Clone, Copy, Drop)]
pub struct Around<'a> {
    pub key: u64,
    pub topology: &'a Topology,
    pub tags: &'a Tags,
    pub alarm_ticks: u32,
    pub retry_ticks: u32,
    pub watch_ticks: u32,
    pub taken: &'a Datapaths,
    pub view: Option<&'a View>,
    pub near: &'a Neighbours,
}

//! The members in their order, in three parts.

ghost use Rattle.std.specs.Prelude.{◌≡◌};
ghost use Rattle.serde_json.specs.View.{view};
ghost use Rattle.mon_settings.specs.Judged.{peers, network, pace};
ghost use Rattle.mon_settings.specs.Faults.{Gives};

use crate::address::Address;
use crate::fault::SettingsFault;
use crate::lists::{enough, links, switches, tags};
use crate::members::{address_member, number_member};
use mon_topo::{Topology, Vids};
use serde_json::Value;
use std::alloc::Global;

/// The members up to `sessions`.
#[derive(Clone, Copy)]
pub struct Peers {
    pub alarm_ticks: u32,
    pub controller: Address,
    pub listen: Address,
    pub retry_ticks: u32,
    pub sessions: u32,
}

/// The members `switches`, `links` and `tags`.
#[derive(Drop)]
pub struct Network {
    pub topology: Topology,
    pub tags: Vids,
}

/// The members from `tick_ms` on.
#[derive(Clone, Copy)]
pub struct Pace {
    pub tick_ms: u32,
    pub watch_ticks: u32,
    pub workers: u32,
}

/// Reads the members up to `sessions`.
pub fn read_peers(alloc: Global, value: &Value) -> Result<Peers, SettingsFault>
    ensures { Gives result (peers (view value.now)) }
{
    let alarm_ticks = number_member(alloc, value, "alarm_ticks", 1, 1_000_000)?;
    let controller = address_member(alloc, value, "controller")?;
    let listen = address_member(alloc, value, "listen")?;
    let retry_ticks = number_member(alloc, value, "retry_ticks", 1, 1_000_000)?;
    let sessions = number_member(alloc, value, "sessions", 0, u32::MAX)?;
    Ok(Peers {
        alarm_ticks,
        controller,
        listen,
        retry_ticks,
        sessions,
    })
}

/// Reads the members `switches`, `links` and `tags`.
pub fn read_network(alloc: Global, value: &Value) -> Result<Network, SettingsFault>
    ensures { Gives result (network (view value.now)) }
{
    let switches = switches(alloc, value)?;
    let links = links(alloc, switches.items(), value)?;
    let tags = tags(alloc, value)?;
    let topology = Topology { switches, links };
    enough(alloc, &topology, &tags)?;
    Ok(Network { topology, tags })
}

/// Reads the members from `tick_ms` on.
pub fn read_pace(alloc: Global, value: &Value) -> Result<Pace, SettingsFault>
    ensures { Gives result (pace (view value.now)) }
{
    let tick_ms = number_member(alloc, value, "tick_ms", 1, 60000)?;
    let watch_ticks = number_member(alloc, value, "watch_ticks", 0, 1_000_000)?;
    let workers = number_member(alloc, value, "workers", 1, 64)?;
    Ok(Pace {
        tick_ms,
        watch_ticks,
        workers,
    })
}

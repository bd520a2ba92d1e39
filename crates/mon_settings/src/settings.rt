//! The settings as a whole.

ghost use Rattle.std.specs.Prelude.{◌≡◌, IfOk, IfErr};
ghost use Rattle.serde_json.specs.View.{view};
ghost use Rattle.mon_settings.specs.Judged.{members_of, of_value, settings_with, Says};
ghost use Rattle.mon_settings.specs.Form.{IsSettingsText, IsRefused};
ghost use Rattle.mon_settings.specs.Faults.{Gives};

use crate::address::Address;
use crate::fault::{SettingsFault, bad};
use crate::names::all_known;
use crate::parts::{Network, Pace, Peers, read_network, read_pace, read_peers};
use mon_topo::{Topology, Vids};
use serde_json::Value;
use std::alloc::Global;

/// The settings of a run. Ticks are counted, `tick_ms` says how many milliseconds apart they are.
#[derive(Drop)]
pub struct Settings {
    /// After how many ticks an update that shows nothing is reported.
    pub alarm_ticks: u32,
    /// Where the controller listens.
    pub controller: Address,
    /// Where switches connect to.
    pub listen: Address,
    /// After how many ticks a probe is sent again.
    pub retry_ticks: u32,
    /// After how many sessions the run ends once all have ended; 0 where it never does.
    pub sessions: u64,
    /// The VLAN ids that mark probes, ascending.
    pub tags: Vids,
    /// The milliseconds from one tick to the next.
    pub tick_ms: u32,
    /// The switches and the links between them.
    pub topology: Topology,
    /// Every how many ticks a rule is watched; 0 where none ever is.
    pub watch_ticks: u32,
    /// How many workers look for probes.
    pub workers: u32,
}

/// The settings of these parts.
fn settings_with(peers: Peers, network: Network, pace: Pace) -> Settings
    ensures { result ≡ settings_with peers network pace }
{
    Settings {
        alarm_ticks: peers.alarm_ticks,
        controller: peers.controller,
        listen: peers.listen,
        retry_ticks: peers.retry_ticks,
        sessions: u64::from(peers.sessions),
        tags: network.tags,
        tick_ms: pace.tick_ms,
        topology: network.topology,
        watch_ticks: pace.watch_ticks,
        workers: pace.workers,
    }
}

/// Reads the members in their order.
fn members_of(alloc: Global, value: &Value) -> Result<Settings, SettingsFault>
    ensures { Gives result (members_of (view value.now)) }
{
    let peers = read_peers(alloc, value)?;
    let network = read_network(alloc, value)?;
    let pace = read_pace(alloc, value)?;
    all_known(alloc, value)?;
    Ok(settings_with(peers, network, pace))
}

/// A value of JSON as settings.
fn of_value(alloc: Global, value: &Value) -> Result<Settings, SettingsFault>
    ensures { Gives result (of_value (view value.now)) }
{
    if value.as_object().is_some() {
        members_of(alloc, value)
    } else {
        Err(bad(alloc, "."))
    }
}

/// What a text says.
fn of_text(alloc: Global, text: &[u8]) -> Result<Settings, SettingsFault>
    ensures { Says text.now result }
{
    match Value::from_slice(alloc, text) {
        Ok(value) => of_value(alloc, &value),
        Err(e) if e.is_memory() => Err(SettingsFault::OutOfMemory),
        Err(_) => Err(bad(alloc, ".")),
    }
}

/// Reads the settings from a text: a JSON object of exactly their members, each in its form. A text is accepted exactly
/// where it is one, unless there is no memory. A fault names the first member that is wrong, in the order `alarm_ticks`,
/// `controller`, `listen`, `retry_ticks`, `sessions`, `switches`, `links`, `tags`, `tick_ms`, `watch_ticks`, `workers`, and
/// then the least unknown name.
pub fn read_settings(alloc: Global, text: &[u8]) -> Result<Settings, SettingsFault>
    ensures accepted { IfOk result (IsSettingsText text.now) }
    ensures refused { IfErr result (IsRefused text.now) }
    ensures says { Says text.now result }
{
    of_text(alloc, text)
}

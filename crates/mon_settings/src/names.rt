//! The names of members.

ghost use Rattle.std.specs.Prelude.{◌≡◌, option_map};
ghost use Rattle.serde_json.specs.View.{view, members_view};
ghost use Rattle.mon_settings.specs.Names.{is_name, is_peers_name, is_network_name, is_pace_name, is_known, unknown, all_known};
ghost use Rattle.mon_settings.specs.Faults.{Gives};

use crate::fault::{SettingsFault, bad};
use serde_json::{Map, Value};
use std::alloc::Global;

/// Whether a key is this name.
#[tactic(auto, unfolding(crate::specs::Names::is_name))]
fn is_name(key: &str, name: &str) -> bool
    ensures { result ≡ is_name key.now name.now }
{
    key == name
}

/// Whether a key is the name of a member up to `sessions`.
#[tactic(auto, unfolding(crate::specs::Names::is_peers_name))]
fn is_peers_name(key: &str) -> bool
    ensures { result ≡ is_peers_name key.now }
{
    is_name(key, "alarm_ticks")
        || is_name(key, "controller")
        || is_name(key, "listen")
        || is_name(key, "retry_ticks")
        || is_name(key, "sessions")
}

/// Whether a key is `switches`, `links` or `tags`.
#[tactic(auto, unfolding(crate::specs::Names::is_network_name))]
fn is_network_name(key: &str) -> bool
    ensures { result ≡ is_network_name key.now }
{
    is_name(key, "switches") || is_name(key, "links") || is_name(key, "tags")
}

/// Whether a key is the name of a member from `tick_ms` on.
#[tactic(auto, unfolding(crate::specs::Names::is_pace_name))]
fn is_pace_name(key: &str) -> bool
    ensures { result ≡ is_pace_name key.now }
{
    is_name(key, "tick_ms") || is_name(key, "watch_ticks") || is_name(key, "workers")
}

/// Whether the settings have a member of this name.
fn is_known(key: &str) -> bool
    ensures { result ≡ is_known key.now }
{
    is_peers_name(key) || is_network_name(key) || is_pace_name(key)
}

/// The least name that isn't one of the settings.
fn unknown(members: &Map<String, Value>) -> Option<&str>
    ensures { option_map (λ name. name.now) result ≡ unknown (members_view members.now.entries) }
{
    for (key, _) in members.iter() {
        let name = key.as_str();
        if !is_known(name) {
            return Some(name);
        }
    }
    None
}

/// Whether the members have no other names.
pub fn all_known(alloc: Global, value: &Value) -> Result<(), SettingsFault>
    ensures { Gives result (all_known (view value.now)) }
{
    let Some(members) = value.as_object() else {
        return Ok(());
    };
    match unknown(members) {
        Some(name) => Err(bad(alloc, name)),
        None => Ok(()),
    }
}

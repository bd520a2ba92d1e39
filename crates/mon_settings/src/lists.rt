//! Members that are lists: switches, links and tags.

ghost use Rattle.std.specs.Prelude.{◌≡◌, ◌≤◌, ◌-◌, ◌^◌, [], codes, option_map, IfSome, IsTrue};
ghost use Rattle.serde_json.specs.View.{view, items_view};
ghost use Rattle.mon_topo.specs.Ascending.{LAST_VID, may_follow};
ghost use Rattle.mon_settings.specs.Members.{number_in};
ghost use Rattle.mon_settings.specs.Lists.{count, counted, elements, datapath_in, following, next_switch, switches_from, switches, port_at, datapath_at, link_parts, four, link_of, sound, next_link, links_from, links, next_tag, tags_from, tags, enough};
ghost use Rattle.mon_settings.specs.Faults.{Gives};

use crate::fault::{SettingsFault, bad, bad_element};
use crate::members::number_in;
use crate::texts::datapath_of;
use mon_topo::{Datapaths, Link, Links, TopoFault, Topology, Vids, colour, wrong_link};
use serde_json::Value;
use std::alloc::Global;

/// Elements, where there are from `low` to `high` of them.
#[tactic(auto, using(crate::proofs::Counting::count_view), unfolding(crate::specs::Lists::counted))]
fn counted(list: &[Value], low: usize, high: usize) -> Option<&[Value]>
    ensures { option_map (λ vs. items_view vs.now) result ≡ counted low high (items_view list.now) }
{
    if low <= list.len() && list.len() <= high {
        Some(list)
    } else {
        None
    }
}

/// The elements of the member of this name, where it is an array of from `low` to `high` of them.
fn elements<'v>(value: &'v Value, name: &str, low: usize, high: usize) -> Option<&'v [Value]>
    ensures { option_map (λ vs. items_view vs.now) result ≡ elements name.now low high (view value.now) }
{
    let list = value.get(name)?.as_array()?;
    counted(list, low, high)
}

/// The datapath id that a value is: a text of 16 lower hexadecimal digits.
fn datapath_in(value: &Value) -> Option<u64>
    ensures { result ≡ datapath_in (view value.now) }
{
    datapath_of(value.as_str()?.as_bytes())
}

/// The next switch: a datapath id above those before.
#[tactic(auto, unfolding(crate::specs::Lists::following))]
fn next_switch(before: &Datapaths, value: &Value) -> Option<u64>
    ensures value { result ≡ next_switch before.now (view value.now) }
    ensures fits { IfSome result (λ s. IsTrue (may_follow 0 (2 ^ 64 - 1) before.now s)) }
{
    let switch = datapath_in(value)?;
    if before.accepts(switch) {
        Some(switch)
    } else {
        None
    }
}

/// The switches that elements are.
fn switches_in(alloc: Global, list: &[Value]) -> Result<Datapaths, SettingsFault>
    ensures { Gives result (switches_from [] 0 (items_view list.now)) }
{
    let mut switches = Datapaths::new(alloc);
    for (i, value) in list.iter().enumerate() {
        let Some(switch) = next_switch(&switches, value) else {
            return Err(bad_element(alloc, "switches", i as u64));
        };
        if switches.push(switch).is_err() {
            return Err(SettingsFault::OutOfMemory);
        }
    }
    Ok(switches)
}

/// The switches: 1 to 64 datapath ids, ascending.
pub fn switches(alloc: Global, value: &Value) -> Result<Datapaths, SettingsFault>
    ensures { Gives result (switches (view value.now)) }
{
    match elements(value, "switches", 1, 64) {
        Some(list) => switches_in(alloc, list),
        None => Err(bad(alloc, "switches")),
    }
}

/// The port at a place of an array: 1 to 65280.
fn port_at(value: &Value, place: usize) -> Option<u16>
    ensures { result ≡ port_at place (view value.now) }
{
    let port = number_in(value.get(place)?, 1, 65280)?;
    Some(port as u16)
}

/// The datapath id at a place of an array.
fn datapath_at(value: &Value, place: usize) -> Option<u64>
    ensures { result ≡ datapath_at place (view value.now) }
{
    datapath_in(value.get(place)?)
}

/// The two ends of a link, in an array.
#[tactic(auto, unfolding(crate::specs::Lists::link_parts))]
fn link_parts(value: &Value) -> Option<Link>
    ensures { result ≡ link_parts (view value.now) }
{
    let a = datapath_at(value, 0)?;
    let a_port = port_at(value, 1)?;
    let b = datapath_at(value, 2)?;
    let b_port = port_at(value, 3)?;
    Some(Link {
        a,
        a_port,
        b,
        b_port,
    })
}

/// The link that a value is: an array of a datapath id, a port, a datapath id and a port.
fn link_of(value: &Value) -> Option<Link>
    ensures { result ≡ link_of (view value.now) }
{
    counted(value.as_array()?, 4, 4)?;
    link_parts(value)
}

/// The next link: nothing is wrong with it after those before.
#[tactic(auto, unfolding(crate::specs::Lists::sound))]
fn next_link(switches: &[u64], before: &[Link], place: u64, value: &Value) -> Option<Link>
    ensures { result ≡ next_link switches.now before.now place (view value.now) }
{
    let link = link_of(value)?;
    match wrong_link(switches, before, place, &link) {
        Some(_) => None,
        None => Some(link),
    }
}

/// The links that elements are.
fn links_in(alloc: Global, switches: &[u64], list: &[Value]) -> Result<Links, SettingsFault>
    ensures { Gives result (links_from switches.now [] 0 (items_view list.now)) }
{
    let mut links = Links::new(alloc);
    for (i, value) in list.iter().enumerate() {
        let Some(link) = next_link(switches, links.items(), i as u64, value) else {
            return Err(bad_element(alloc, "links", i as u64));
        };
        if links.push(link).is_err() {
            return Err(SettingsFault::OutOfMemory);
        }
    }
    Ok(links)
}

/// The links between these switches: at most 1024.
pub fn links(alloc: Global, switches: &[u64], value: &Value) -> Result<Links, SettingsFault>
    ensures { Gives result (links switches.now (view value.now)) }
{
    match elements(value, "links", 0, 1024) {
        Some(list) => links_in(alloc, switches, list),
        None => Err(bad(alloc, "links")),
    }
}

/// The next tag: a number of 1 to 4094 above those before.
#[tactic(auto, unfolding(crate::specs::Lists::following))]
fn next_tag(before: &Vids, value: &Value) -> Option<u16>
    ensures value { result ≡ next_tag before.now (view value.now) }
    ensures fits { IfSome result (λ tag. IsTrue (may_follow 1 LAST_VID before.now tag)) }
{
    let tag = number_in(value, 1, 4094)? as u16;
    if before.accepts(tag) { Some(tag) } else { None }
}

/// The tags that elements are.
fn tags_in(alloc: Global, list: &[Value]) -> Result<Vids, SettingsFault>
    ensures { Gives result (tags_from [] 0 (items_view list.now)) }
{
    let mut tags = Vids::new(alloc);
    for (i, value) in list.iter().enumerate() {
        let Some(tag) = next_tag(&tags, value) else {
            return Err(bad_element(alloc, "tags", i as u64));
        };
        if tags.push(tag).is_err() {
            return Err(SettingsFault::OutOfMemory);
        }
    }
    Ok(tags)
}

/// The tags: 1 to 64 VLAN ids, ascending.
pub fn tags(alloc: Global, value: &Value) -> Result<Vids, SettingsFault>
    ensures { Gives result (tags (view value.now)) }
{
    match elements(value, "tags", 1, 64) {
        Some(list) => tags_in(alloc, list),
        None => Err(bad(alloc, "tags")),
    }
}

/// Whether the tags are enough for the switches, whose links are not wrong.
pub fn enough(alloc: Global, topology: &Topology, tags: &Vids) -> Result<(), SettingsFault>
    ensures { Gives result (enough topology.now tags.now) }
{
    match colour(alloc, topology, tags.items()) {
        Ok(_) => Ok(()),
        Err(TopoFault::OutOfMemory) => Err(SettingsFault::OutOfMemory),
        Err(_) => Err(bad(alloc, "tags")),
    }
}

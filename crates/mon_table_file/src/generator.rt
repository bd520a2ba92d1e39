//! Views and tables that are made from numbers.

ghost use Rattle.std.specs.Prelude.{◌≡◌, ◌≤◌, ◌<◌, if◌then◌else◌, IfOk};
ghost use Rattle.mon_header.specs.Actions.{FitsAction};
ghost use Rattle.mon_header.specs.Wild.{unpacked};
ghost use Rattle.mon_topo.specs.Ascending.{AreVids};
ghost use Rattle.mon_shows.specs.Links.{PortsAscend};
ghost use Rattle.mon_table_file.specs.Generator.{link_at, generated_view, number_of, ignored_bits, is_for_udp, wild_of, fields_of, output_to, actions_for, priority_of, rule_from, generated};

use mon_header::{Action, Actions, BLANK, Header, Match};
use mon_list::{Items, OutOfMemory};
use mon_shows::{Near, Nears, View};
use mon_table::{Rule, Table};
use mon_topo::Vids;
use std::alloc::Global;

/// A link at a port to the switch with the number above.
fn link_at(port: u16) -> Near
    requires { port < 10 }
    ensures { result ≡ link_at port }
{
    Near {
        port,
        switch: u64::from(port) + 1,
        far_port: 1,
        tag: 101,
    }
}

/// Links at the ports 1 to 4.
fn links(alloc: Global) -> Result<Nears, OutOfMemory>
    ensures { IfOk result (λ links. links ≡ generated_view.links) }
{
    let mut links = Items::new(alloc);
    links.push(link_at(1))?;
    links.push(link_at(2))?;
    links.push(link_at(3))?;
    links.push(link_at(4))?;
    Ok(links)
}

/// The switch 1 with the tag 100, of the tags 100 and 101, and links at the ports 1 to 4.
fn view(alloc: Global) -> Result<View, OutOfMemory>
    ensures { IfOk result (λ view. view ≡ generated_view) }
{
    let mut tags = Vids::new(alloc);
    tags.push(100)?;
    tags.push(101)?;
    let links = links(alloc)?;
    Ok(View {
        switch: 1,
        tag: 100,
        tags,
        links,
        miss: 128,
    })
}

/// The number of a rule.
fn number_of(seed: u32, place: u32) -> u32
    ensures value { result ≡ number_of seed place }
    ensures small { result < 65536 }
{
    ((u64::from(seed) + 40503 * u64::from(place)) % 65536) as u32
}

fn is_for_udp(k: u32) -> bool
    ensures { result ≡ is_for_udp k }
{
    k / 4 % 4 == 3
}

/// How many low bits of the address are ignored.
fn ignored_bits(k: u32) -> u32
    ensures value { result ≡ ignored_bits k }
    ensures few { result ≤ 24 }
{
    match k % 4 {
        0 => 24,
        1 => 16,
        2 => 8,
        _ => 0,
    }
}

/// The wildcard of nw_proto, where it is not compared.
fn protocol_wildcard(k: u32) -> u32
    ensures { result ≡ if is_for_udp k then 0 else 0x20 }
{
    if is_for_udp(k) { 0 } else { 0x20 }
}

/// The wildcards as the number that stands on the wire. All other fields but dl_type are ignored, and all of nw_src.
fn wildcards(k: u32) -> u32
    ensures { unpacked result ≡ wild_of k }
{
    0x0030_20cf + protocol_wildcard(k) + (ignored_bits(k) << 14)
}

/// The fields: IPv4 to an address above 10.0.0.0.
#[tactic(auto, unfolding(crate::specs::Generator::fields_of))]
fn fields_of(k: u32) -> Header
    requires { k < 65536 }
    ensures value { result ≡ fields_of k }
    ensures dl_src { result.dl_src ≡ 0 }
    ensures dl_dst { result.dl_dst ≡ 0 }
{
    let nw_proto = if is_for_udp(k) { 17 } else { 0 };
    Header {
        dl_type: 0x0800,
        nw_proto,
        nw_dst: 0x0a00_0000 + 256 * k,
        ..BLANK
    }
}

/// An output to one of the ports 1 to 4.
fn output_to(n: u32) -> Action
    ensures value { result ≡ output_to n }
    ensures fits { FitsAction result }
{
    Action::Output {
        port: 1 + (n % 4) as u16,
        max_len: 0,
    }
}

/// No output, or one, or two.
fn actions_for(alloc: Global, k: u32) -> Result<Actions, OutOfMemory>
    requires { k < 65536 }
    ensures { IfOk result (λ actions. actions ≡ actions_for k) }
{
    let mut actions = Actions::new(alloc);
    if k % 5 == 0 {
        return Ok(actions);
    }
    actions.push(output_to(k / 64))?;
    if k % 7 == 0 {
        actions.push(output_to(k / 64 + 1))?;
    }
    Ok(actions)
}

/// The rule that is made from a number.
#[tactic(auto, unfolding(crate::specs::Generator::rule_from))]
fn rule_from(alloc: Global, k: u32) -> Result<Rule, OutOfMemory>
    requires { k < 65536 }
    ensures { IfOk result (λ rule. rule ≡ rule_from k) }
{
    let matching = Match::normal(wildcards(k), fields_of(k));
    let priority = (1000 * (k % 4 + 1) + k / 16 % 4) as u16;
    let actions = actions_for(alloc, k)?;
    Ok(Rule {
        matching,
        priority,
        actions,
        unsure: false,
    })
}

/// A view and the table that `n` ADDs leave, which are made from a seed: large inputs that are the same everywhere.
/// Rules of one identity replace each other, so the table may be smaller.
pub fn generate(alloc: Global, n: u32, seed: u32) -> Result<(View, Table), OutOfMemory>
    ensures { IfOk result (λ x. (x.0 ≡ generated_view) × (x.1 ≡ generated seed n)) }
{
    let view = view(alloc)?;
    let mut table = Table::new(alloc);
    for place in 0..n {
        let rule = rule_from(alloc, number_of(seed, place))?;
        let _ = table.put(rule)?;
    }
    Ok((view, table))
}

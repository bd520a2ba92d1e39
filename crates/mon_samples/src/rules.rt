//! Rules.

use crate::headers::IPV4;
use mon_header::{Action, Actions, Header, Match};
use mon_list::OutOfMemory;
use mon_table::Rule;
use std::alloc::Global;

/// The actions that send to the ports, in order.
fn sends(alloc: Global, ports: &[u16]) -> Result<Actions, OutOfMemory> {
    let mut actions = Actions::new(alloc);
    for port in ports {
        actions.push(Action::Output {
            port: *port,
            max_len: 0xffff,
        })?;
    }
    Ok(actions)
}

/// A rule that sends what it matches to the ports, in order.
pub fn sending(
    alloc: Global,
    matching: Match,
    priority: u16,
    ports: &[u16],
) -> Result<Rule, OutOfMemory> {
    let actions = sends(alloc, ports)?;
    Ok(Rule {
        matching,
        priority,
        actions,
        unsure: false,
    })
}

/// A rule for IPv4 packets from and to these addresses, which sends them to port 2.
pub fn ipv4(
    alloc: Global,
    wildcards: u32,
    nw_src: u32,
    nw_dst: u32,
    priority: u16,
) -> Result<Rule, OutOfMemory> {
    let fields = Header {
        nw_src,
        nw_dst,
        ..IPV4
    };
    sending(alloc, Match::normal(wildcards, fields), priority, &[2])
}

/// To 10.0.0.0/24, at priority 100.
pub fn narrow(alloc: Global) -> Result<Rule, OutOfMemory> {
    ipv4(alloc, 0x003220ef, 0, 0x0a000000, 100)
}

/// All IPv4, at priority 50.
pub fn wide(alloc: Global) -> Result<Rule, OutOfMemory> {
    ipv4(alloc, 0x003820ef, 0, 0, 50)
}

//! Topologies, and the tags that they get.

use crate::{Datapaths, Link, Links, OutOfMemory, TopoFault, Topology, Vids, colour};
use std::alloc::Global;
use std::test::Fail;

fn topology(alloc: Global, count: u64, links: &[Link]) -> Result<Topology, OutOfMemory> {
    let mut switches = Datapaths::new(alloc);
    for switch in 1..=count {
        if switches.accepts(switch) {
            switches.push(switch)?;
        }
    }
    let mut list = Links::new(alloc);
    for link in links {
        list.push(*link)?;
    }
    Ok(Topology {
        switches,
        links: list,
    })
}

fn link(a: u64, a_port: u16, b: u64, b_port: u16) -> Link {
    Link {
        a,
        a_port,
        b,
        b_port,
    }
}

#[test]
fn gives_tags(rt: HostRuntime) -> Result<(), Fail> {
    let alloc = rt.alloc();
    let star = [
        link(1, 1, 2, 1),
        link(1, 2, 3, 1),
        link(1, 3, 4, 1),
        link(1, 4, 5, 1),
    ];
    let ring = [link(3, 2, 1, 2), link(1, 1, 2, 1), link(2, 2, 3, 1)];
    let cases = [
        (1, &star[..0], [100, 0, 0, 0, 0], [100].as_slice()),
        (2, &star[..1], [100, 101, 0, 0, 0], [100, 101].as_slice()),
        (3, &star[..2], [100, 101, 101, 0, 0], [100, 101].as_slice()),
        (
            5,
            &star[..],
            [100, 101, 101, 101, 101],
            [100, 101].as_slice(),
        ),
        (
            3,
            &ring[..],
            [100, 101, 102, 0, 0],
            [100, 101, 102].as_slice(),
        ),
    ];
    for (count, links, given, in_use) in cases {
        let t = topology(alloc, count, links)?;
        let tags = colour(alloc, &t, &[100, 101, 102])?;
        for (i, tag) in given.iter().enumerate() {
            assert_eq!(rt; tags.tag_of(i as u64 + 1).unwrap_or(0), *tag);
        }
        assert_eq!(rt; tags.in_use(), in_use);
    }
    Ok(())
}

#[test]
fn refuses(rt: HostRuntime) -> Result<(), Fail> {
    let alloc = rt.alloc();
    let good = link(1, 1, 2, 1);
    let cases = [
        ([good, link(2, 2, 4, 1)], TopoFault::UnknownEnd { link: 1 }),
        ([link(4, 1, 4, 1), good], TopoFault::UnknownEnd { link: 0 }),
        ([good, link(3, 1, 3, 2)], TopoFault::LinkTwice { link: 1 }),
        ([good, link(2, 1, 3, 1)], TopoFault::LinkTwice { link: 1 }),
        ([good, link(3, 1, 1, 1)], TopoFault::LinkTwice { link: 1 }),
        ([good, link(2, 2, 3, 1)], TopoFault::TooFewTags),
    ];
    for (links, fault) in cases {
        let t = topology(alloc, 3, &links)?;
        assert_eq!(rt; colour(alloc, &t, &[100]).err(), Some(fault));
    }
    Ok(())
}

#[test]
fn keeps_vlan_ids_ascending(rt: HostRuntime) -> Result<(), Fail> {
    let mut vids = Vids::new(rt.alloc());
    for vid in [0, 1, 1, 7, 6, 4094, 4095] {
        if vids.accepts(vid) {
            vids.push(vid)?;
        }
    }
    assert_eq!(rt; vids.items(), [1, 7, 4094].as_slice());
    Ok(())
}

//! Outcomes that were worked out by hand.

ghost use Rattle.mon_header.specs.Actions.{FitsAction};

use crate::act::apply;
use crate::door::Door;
use crate::emission::{Emission, same_emission};
use crate::outcome::{emission_at, may, must};
use crate::rewrite::Bit;
use crate::shape::rewrites;
use mon_header::{Action, Actions, Class, Header, RawAction, same_header};
use std::test::Fail;

/// A datagram from 10.0.0.1 to 10.0.0.2 on port 1, with the tag 100.
const DATAGRAM: Header = Header {
    dl_vlan_pcp: 3,
    ..mon_header::DATAGRAM
};

/// Whether the action makes the second header of the first.
fn makes(rt: &HostRuntime, action: Action, before: Header, after: Header) -> Result<bool, Fail>
    requires { FitsAction action }
{
    let mut actions = Actions::new(rt.alloc());
    actions.push(action)?;
    Ok(same_header(&apply(&actions, &before), &after))
}

#[test]
fn actions_change_tags_as_by_hand(rt: HostRuntime) -> Result<(), Fail> {
    let h = DATAGRAM;
    let untagged = Header {
        dl_vlan: 0xffff,
        dl_vlan_pcp: 0,
        ..h
    };
    let tagged = |dl_vlan, dl_vlan_pcp| Header {
        dl_vlan,
        dl_vlan_pcp,
        ..h
    };
    assert!(rt; makes(&rt, Action::SetVlanVid(0xf065), h, tagged(0x65, 3))?);
    assert!(rt; makes(&rt, Action::SetVlanVid(5), untagged, tagged(5, 0))?);
    assert!(rt; makes(&rt, Action::SetVlanPcp(0xfd), h, tagged(100, 5))?);
    assert!(rt; makes(&rt, Action::SetVlanPcp(0xfd), untagged, tagged(0, 5))?);
    assert!(rt; makes(&rt, Action::StripVlan, h, untagged)?);
    Ok(())
}

#[test]
fn actions_change_ipv4_alone(rt: HostRuntime) -> Result<(), Fail> {
    let h = DATAGRAM;
    let arp = Header {
        dl_type: 0x0806,
        ..h
    };
    assert!(rt; makes(&rt, Action::SetNwSrc(9), h, Header { nw_src: 9, ..h })?);
    assert!(rt; makes(&rt, Action::SetNwDst(9), h, Header { nw_dst: 9, ..h })?);
    assert!(rt; makes(&rt, Action::SetNwTos(0xff), h, Header { nw_tos: 0xfc, ..h })?);
    assert!(rt; makes(&rt, Action::SetNwSrc(9), arp, arp)?);
    assert!(rt; makes(&rt, Action::SetNwTos(8), arp, arp)?);
    Ok(())
}

/// Whether the actions on ports make these ports of a packet of this protocol.
fn makes_ports(rt: &HostRuntime, nw_proto: u8, tp_src: u16, tp_dst: u16) -> Result<bool, Fail> {
    let h = Header {
        nw_proto,
        ..DATAGRAM
    };
    let from = makes(rt, Action::SetTpSrc(7), h, Header { tp_src, ..h })?;
    let to = makes(rt, Action::SetTpDst(8), h, Header { tp_dst, ..h })?;
    Ok(from && to)
}

#[test]
fn actions_change_ports_of_tcp_and_udp_alone(rt: HostRuntime) -> Result<(), Fail> {
    assert!(rt; makes_ports(&rt, 6, 7, 8)?);
    assert!(rt; makes_ports(&rt, 17, 7, 8)?);
    assert!(rt; makes_ports(&rt, 1, 1, 2)?);
    Ok(())
}

/// The actions `SET_DL_SRC 7`, OUTPUT to a port with this `max_len`, `STRIP_VLAN`.
fn between(rt: &HostRuntime, port: u16, max_len: u16) -> Result<Actions, Fail> {
    let mut actions = Actions::new(rt.alloc());
    actions.push(Action::SetDlSrc(7))?;
    actions.push(Action::Output { port, max_len })?;
    actions.push(Action::StripVlan)?;
    Ok(actions)
}

#[test]
fn outputs_emit_as_by_hand(rt: HostRuntime) -> Result<(), Fail> {
    let seen = Header {
        dl_src: 7,
        ..DATAGRAM
    };
    let cases = [
        (0, 0, Emission::Port(0, seen), true, true),
        (2, 0, Emission::Port(2, seen), true, true),
        (2, 0, Emission::Port(2, DATAGRAM), false, false),
        (2, 0, Emission::Port(3, seen), false, false),
        (1, 0, Emission::Port(1, seen), false, false),
        (0xff00, 0, Emission::Port(0xff00, seen), true, true),
        (0xff01, 0, Emission::Port(0xff01, seen), false, true),
        (0xfff8, 0, Emission::Port(1, seen), true, true),
        (0xfff8, 0, Emission::Port(0xfff8, seen), false, false),
        (0xfffb, 0, Emission::Miss(seen), false, true),
        (0xfffd, 127, Emission::Controller(seen), false, true),
        (0xfffd, 128, Emission::Controller(seen), true, true),
        (0xfffd, 128, Emission::Miss(seen), false, false),
    ];
    for (port, max_len, e, surely, maybe) in cases {
        let actions = between(&rt, port, max_len)?;
        assert!(rt; must(&actions, &DATAGRAM, &e) == surely, "{port}");
        assert!(rt; may(&actions, &DATAGRAM, &e) == maybe, "{port}");
        assert!(rt; same_emission(&e, &e));
    }
    Ok(())
}

#[test]
fn queues_and_vendors_emit_as_by_hand(rt: HostRuntime) -> Result<(), Fail> {
    let alloc = rt.alloc();
    for (port, surely, maybe) in [
        (0xfff8, true, true),
        (0xfffd, false, true),
        (2, false, false),
    ] {
        let mut actions = Actions::new(alloc);
        actions.push(Action::Enqueue { port, queue: 1 })?;
        let e = Emission::Port(1, DATAGRAM);
        assert!(rt; must(&actions, &DATAGRAM, &e) == surely, "{port}");
        assert!(rt; may(&actions, &DATAGRAM, &e) == maybe, "{port}");
    }
    let vendor = [0xff, 0xff, 0, 8, 0, 0, 0, 0];
    let mut actions = between(&rt, 2, 0)?;
    actions.push(Action::Unknown(RawAction::new(alloc, &vendor)?))?;
    let e = Emission::Controller(DATAGRAM);
    assert!(rt; may(&actions, &DATAGRAM, &e) && !must(&actions, &DATAGRAM, &e));
    Ok(())
}

#[test]
fn shapes_fix_what_actions_set(rt: HostRuntime) -> Result<(), Fail> {
    let mut actions = between(&rt, 2, 0)?;
    actions.push(Action::SetVlanPcp(5))?;
    actions.push(Action::SetTpSrc(9))?;
    actions.push(Action::Output {
        port: 0xfffd,
        max_len: 64,
    })?;
    let shapes = rewrites(rt.alloc(), &actions, Class::Icmp, 1)?;
    assert!(rt; shapes.items().len() == 2);
    for (i, shape) in shapes.items().iter().enumerate() {
        match shape.door {
            Door::Port(port) => assert!(rt; i == 0 && port == 2),
            Door::Controller { whole } => assert!(rt; i == 1 && !whole),
        }
        // The source 7 ends at place 63, the id 0 and the priority 5 of the new tag stand from 112 to 135.
        for (place, bit) in [
            (15, None),
            (63, Some(true)),
            (112, Some(false)),
            (135, Some(true)),
            (247, None),
        ] {
            let wanted = if i == 0 && place > 63 { None } else { bit };
            match shape.bits.bit(place) {
                Bit::Fixed(value) => assert!(rt; wanted == Some(value), "{place}"),
                Bit::Copied => assert!(rt; wanted.is_none(), "{place}"),
            }
        }
    }
    Ok(())
}

#[test]
fn emissions_stand_in_list_order(rt: HostRuntime) -> Result<(), Fail> {
    let mut actions = between(&rt, 2, 0)?;
    actions.push(Action::SetTpSrc(9))?;
    actions.push(Action::Output {
        port: 0xfffd,
        max_len: 64,
    })?;
    let seen = Header {
        dl_src: 7,
        ..DATAGRAM
    };
    let last = Header {
        dl_vlan: 0xffff,
        dl_vlan_pcp: 0,
        tp_src: 9,
        ..seen
    };
    let wanted = [Emission::Port(2, seen), Emission::Controller(last)];
    for (position, e) in [0, 1].iter().zip(&wanted) {
        match emission_at(&actions, &DATAGRAM, *position) {
            Some(found) => assert!(rt; same_emission(&found, e), "{position}"),
            None => assert!(rt; false, "{position}"),
        }
    }
    assert!(rt; emission_at(&actions, &DATAGRAM, 2).is_none());
    Ok(())
}

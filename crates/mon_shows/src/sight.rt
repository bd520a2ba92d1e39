//! Which probes can be sent, which emissions come back, and what is seen of them.

ghost use Rattle.std.specs.Prelude.{◌≡◌, ◌<◌};
ghost use Rattle.mon_header.specs.Wild.{bit};
ghost use Rattle.mon_shows.specs.Links.{link_at};
ghost use Rattle.mon_shows.specs.Views.{IsView, has_link, is_unicast, is_open, craftable, is_in_use, is_caught_by, caught, seen_by, seen_here, observed};

use crate::near::Near;
use crate::seen::Seen;
use crate::view::View;
use mon_header::{Header, in_class};
use mon_outcome::Emission;

/// The destination that marks packets which a rule drops: 02:4d:4f:4e:4f:00.
const DROP_MARK: u64 = 0x024d4f4e4f00;

/// The reasons of a PACKET_IN (OpenFlow 1.0.0, packet-in message).
const NO_MATCH: u8 = 0;

const ACTION: u8 = 1;

/// Whether one of the links is at this port.
fn has_link(port: u16, links: &[Near]) -> bool
    ensures { result ≡ has_link port links.now }
{
    links.iter().any(|near| near.port == port)
}

/// The link at a port.
fn link_at(port: u16, links: &[Near]) -> Option<Near>
    ensures { result ≡ link_at port links.now }
{
    links.iter().copied().find(|near| near.port == port)
}

fn bit(n: u64, place: u32) -> bool
    requires { place < 64 }
    ensures { result ≡ bit n place }
{
    (n >> place) & 1 == 1
}

/// Whether the address is one station's: its group bit is 0.
fn is_unicast(address: u64) -> bool
    ensures { result ≡ is_unicast address }
{
    !bit(address, 40)
}

/// Whether the address is neither the drop mark nor one that bridges keep to themselves, 01:80:c2:00:00:00 to
/// 01:80:c2:00:00:0f.
#[tactic(auto, unfolding(crate::specs::Views::is_open))]
fn is_open(address: u64) -> bool
    ensures { result ≡ is_open address }
{
    address != DROP_MARK && !(0x0180c2000000 <= address && address <= 0x0180c200000f)
}

/// Whether a probe can have this header: it is in a class, its `in_port` is the port of a link, it bears the switch's
/// own tag, it comes from one station, and it goes neither to the drop mark nor to an address that bridges keep to
/// themselves.
#[tactic(auto, unfolding(crate::specs::Views::craftable))]
pub fn craftable(v: &View, h: &Header) -> bool
    ensures value { result ≡ craftable v.now h.now }
    ensures view { IsView v.now }
{
    in_class(h)
        && has_link(h.in_port, v.links.items())
        && h.dl_vlan == v.tag
        && is_unicast(h.dl_src)
        && is_open(h.dl_dst)
}

/// Whether the VLAN id is one of the tags.
fn is_in_use(vlan: u16, tags: &[u16]) -> bool
    ensures { result ≡ is_in_use vlan tags.now }
{
    tags.contains(&vlan)
}

/// Whether there is a neighbour, and the VLAN id is a tag in use other than its own.
fn is_caught_by(vlan: u16, tags: &[u16], near: Option<Near>) -> bool
    ensures { result ≡ is_caught_by vlan tags.now near }
{
    match near {
        Some(near) => is_in_use(vlan, tags) && vlan != near.tag,
        None => false,
    }
}

/// Whether an emission comes back to the proxy. By a port it does where a neighbour is there that catches the packet's
/// tag: one in use, and not the neighbour's own. To the controller it always does, and by a miss where the switch sends
/// 128 bytes or more of it.
pub fn caught(v: &View, e: &Emission) -> bool
    ensures { result ≡ caught v.now e.now }
{
    match e {
        Emission::Port(port, h) => {
            is_caught_by(h.dl_vlan, v.tags.items(), link_at(*port, v.links.items()))
        }
        Emission::Controller(_) => true,
        Emission::Miss(_) => 128 <= v.miss,
    }
}

fn seen_by(h: &Header, near: Near) -> Seen
    ensures { result ≡ seen_by h.now near }
{
    Seen {
        switch: near.switch,
        port: near.far_port,
        reason: ACTION,
        header: Header {
            in_port: near.far_port,
            ..*h
        },
    }
}

fn seen_here(switch: u64, reason: u8, h: &Header) -> Seen
    ensures { result ≡ seen_here switch reason h.now }
{
    Seen {
        switch,
        port: h.in_port,
        reason,
        header: *h,
    }
}

/// What the PACKET_IN of an emission shows: by a port the neighbour's datapath id and its port, which is also the
/// header's `in_port` there; to the controller and by a miss the switch's own, with the port at which the packet came
/// in. None where it leaves by a port without a link.
pub fn observed(v: &View, e: &Emission) -> Option<Seen>
    ensures { result ≡ observed v.now e.now }
{
    match e {
        Emission::Port(port, h) => match link_at(*port, v.links.items()) {
            Some(near) => Some(seen_by(h, near)),
            None => None,
        },
        Emission::Controller(h) => Some(seen_here(v.switch, ACTION, h)),
        Emission::Miss(h) => Some(seen_here(v.switch, NO_MATCH, h)),
    }
}

//! What actions emit of all headers of a class.

ghost use Rattle.std.specs.Prelude.{◌≡◌, IfOk};
ghost use Rattle.mon_outcome.specs.Shaping.{copied, is_stripped, is_ipv4_class, has_class_ports, rewritten, shapes_of, AreEmissions};

use crate::door::{Door, door_of};
use crate::rewrite::Rewrite;
use mon_header::{Action, Actions, Class, OutOfMemory};
use mon_list::Items;
use std::alloc::Global;

/// An emission of each header of a class: its door, and what it makes of the header.
#[derive(Clone, Copy, Debug, Drop)]
pub struct Shape {
    pub door: Door,
    pub bits: Rewrite,
}

/// Shapes, in order.
pub type Shapes = Items<Shape>;

/// A rewrite that copies each field.
pub const COPIED: Rewrite = Rewrite {
    in_port: None,
    dl_src: None,
    dl_dst: None,
    dl_vlan: None,
    dl_vlan_pcp: None,
    dl_type: None,
    nw_tos: None,
    nw_proto: None,
    nw_src: None,
    nw_dst: None,
    tp_src: None,
    tp_dst: None,
};

/// Whether the tag was taken off.
fn is_stripped(vlan: Option<u16>) -> bool
    ensures { result ≡ is_stripped vlan }
{
    match vlan {
        Some(vlan) => vlan == 0xffff,
        None => false,
    }
}

/// Whether headers of the class are IPv4.
fn is_ipv4_class(class: Class) -> bool
    ensures { result ≡ is_ipv4_class class }
{
    match class {
        Class::Tcp | Class::Udp | Class::Icmp | Class::OtherIpv4 => true,
        Class::Plain | Class::Arp => false,
    }
}

/// Whether headers of the class have the ports of TCP or UDP.
fn has_class_ports(class: Class) -> bool
    ensures { result ≡ has_class_ports class }
{
    match class {
        Class::Tcp | Class::Udp => true,
        Class::Icmp | Class::OtherIpv4 | Class::Plain | Class::Arp => false,
    }
}

/// A tag that is new gets the priority 0; any other keeps its own.
fn set_vlan_vid(vid: u16, r: Rewrite) -> Rewrite
    ensures { result ≡ rewritten Class.Plain (Action.SetVlanVid vid) r }
{
    Rewrite {
        dl_vlan: Some(vid % 4096),
        dl_vlan_pcp: if is_stripped(r.dl_vlan) {
            Some(0)
        } else {
            r.dl_vlan_pcp
        },
        ..r
    }
}

/// A tag that is new gets the id 0; any other keeps its own.
fn set_vlan_pcp(pcp: u8, r: Rewrite) -> Rewrite
    ensures { result ≡ rewritten Class.Plain (Action.SetVlanPcp pcp) r }
{
    Rewrite {
        dl_vlan: if is_stripped(r.dl_vlan) {
            Some(0)
        } else {
            r.dl_vlan
        },
        dl_vlan_pcp: Some(pcp % 8),
        ..r
    }
}

/// The rewrite after one more action.
fn rewritten(class: Class, action: &Action, r: Rewrite) -> Rewrite
    ensures { result ≡ rewritten class action.now r }
{
    match action {
        Action::SetVlanVid(vid) => set_vlan_vid(*vid, r),
        Action::SetVlanPcp(pcp) => set_vlan_pcp(*pcp, r),
        Action::StripVlan => Rewrite {
            dl_vlan: Some(0xffff),
            dl_vlan_pcp: Some(0),
            ..r
        },
        Action::SetDlSrc(address) => Rewrite {
            dl_src: Some(*address),
            ..r
        },
        Action::SetDlDst(address) => Rewrite {
            dl_dst: Some(*address),
            ..r
        },
        Action::SetNwSrc(address) if is_ipv4_class(class) => Rewrite {
            nw_src: Some(*address),
            ..r
        },
        Action::SetNwDst(address) if is_ipv4_class(class) => Rewrite {
            nw_dst: Some(*address),
            ..r
        },
        Action::SetNwTos(tos) if is_ipv4_class(class) => Rewrite {
            nw_tos: Some(*tos / 4 * 4),
            ..r
        },
        Action::SetTpSrc(port) if has_class_ports(class) => Rewrite {
            tp_src: Some(*port),
            ..r
        },
        Action::SetTpDst(port) if has_class_ports(class) => Rewrite {
            tp_dst: Some(*port),
            ..r
        },
        _ => r,
    }
}

/// The shapes of the emissions of each header of the class that came in at the port and bears a tag, in list order.
/// Those beside an unknown action are among them.
pub fn rewrites(
    alloc: Global,
    a: &Actions,
    class: Class,
    in_port: u16,
) -> Result<Shapes, OutOfMemory>
    ensures value { IfOk result (λ shapes. shapes ≡ shapes_of a.now class in_port) }
    ensures emissions { IfOk result (λ shapes. AreEmissions shapes a.now class in_port) }
{
    let mut shapes = Items::new(alloc);
    let mut bits = COPIED;
    for action in a.items() {
        if let Some(door) = door_of(action, in_port) {
            shapes.push(Shape { door, bits })?;
        }
        bits = rewritten(class, action, bits);
    }
    Ok(shapes)
}

//! The classes of headers that a probe's frame can have.

ghost use Rattle.std.specs.Prelude.{◌≡◌};
ghost use Rattle.mon_header.specs.Classes.{fits, has_tag_fields, has_no_network_fields, is_plain_type, has_form, is_in_class, in_class};

use crate::header::Header;

/// What follows the Ethernet header: the transport protocols that a switch looks into, what else IPv4 carries, frames
/// of other types, with the payload at once, and ARP, whose addresses a switch looks into, with the low byte of its
/// operation as protocol.
#[derive(Clone, Copy, Debug, PartialEq, Eq)]
pub enum Class {
    Tcp,
    Udp,
    Icmp,
    OtherIpv4,
    Plain,
    Arp,
}

/// All classes. No header is in two of them.
pub const CLASSES: [Class; 6] = [
    Class::Tcp,
    Class::Udp,
    Class::Icmp,
    Class::OtherIpv4,
    Class::Plain,
    Class::Arp,
];

/// Whether the addresses fit in 48 bits; the types of the other fields see to those.
#[tactic(auto, unfolding(crate::specs::Classes::fits))]
fn fits(h: Header) -> bool
    ensures { result ≡ fits h }
{
    h.dl_src < 1 << 48 && h.dl_dst < 1 << 48
}

#[tactic(auto, unfolding(crate::specs::Classes::has_tag_fields))]
fn has_tag_fields(h: &Header) -> bool
    ensures { result ≡ has_tag_fields h.now }
{
    (h.dl_vlan < 4096 || h.dl_vlan == 0xffff && h.dl_vlan_pcp == 0) && h.dl_vlan_pcp < 8
}

#[tactic(auto, unfolding(crate::specs::Classes::has_no_network_fields))]
fn has_no_network_fields(h: &Header) -> bool
    ensures { result ≡ has_no_network_fields h.now }
{
    h.nw_tos == 0
        && h.nw_proto == 0
        && h.nw_src == 0
        && h.nw_dst == 0
        && h.tp_src == 0
        && h.tp_dst == 0
}

#[tactic(auto, unfolding(crate::specs::Classes::is_plain_type))]
fn is_plain_type(n: u16) -> bool
    ensures { result ≡ is_plain_type n }
{
    0x0600 <= n
        && n != 0x0800
        && n != 0x0806
        && n != 0x8100
        && n != 0x88a8
        && n != 0x8808
        && n != 0x8809
}

#[tactic(auto, unfolding(crate::specs::Classes::has_form))]
fn has_form(class: Class, h: &Header) -> bool
    ensures { result ≡ has_form class h.now }
{
    match class {
        Class::Tcp => h.dl_type == 0x0800 && h.nw_proto == 6,
        Class::Udp => h.dl_type == 0x0800 && h.nw_proto == 17,
        Class::Icmp => h.dl_type == 0x0800 && h.nw_proto == 1 && h.tp_src < 256 && h.tp_dst < 256,
        Class::OtherIpv4 => {
            h.dl_type == 0x0800
                && h.nw_proto != 1
                && h.nw_proto != 6
                && h.nw_proto != 17
                && h.tp_src == 0
                && h.tp_dst == 0
        }
        Class::Plain => is_plain_type(h.dl_type) && has_no_network_fields(h),
        Class::Arp => h.dl_type == 0x0806 && h.nw_tos == 0 && h.tp_src == 0 && h.tp_dst == 0,
    }
}

/// Whether the header is in this class: its numbers fit, it has the fields of a tag or of none, the two low bits of
/// `nw_tos` are 0, and it has the class's form.
#[tactic(auto, unfolding(crate::specs::Classes::is_in_class))]
pub fn is_in_class(class: Class, h: &Header) -> bool
    ensures { result ≡ is_in_class class h.now }
{
    fits(*h) && has_tag_fields(h) && h.nw_tos % 4 == 0 && has_form(class, h)
}

/// Whether the header is in a class, so that a frame can have it.
#[tactic(auto, unfolding(crate::specs::Classes::in_class))]
pub fn in_class(h: &Header) -> bool
    ensures { result ≡ in_class h.now }
{
    is_in_class(Class::Tcp, h)
        || is_in_class(Class::Udp, h)
        || is_in_class(Class::Icmp, h)
        || is_in_class(Class::OtherIpv4, h)
        || is_in_class(Class::Plain, h)
        || is_in_class(Class::Arp, h)
}

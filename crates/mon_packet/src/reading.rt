//! Frames that are read.

ghost use Rattle.std.specs.Prelude.{◌≡◌, ◌≤◌, length, slice_index};
ghost use Rattle.mon_packet.specs.Reading.{total_of, transport_of, with_transport, is_ipv4, is_arp, plain_header, ipv4_fields, arp_fields, packet_of, arp_of, parsed};

use crate::ethernet::{Ethernet, ethernet_of};
use crate::nonce::{Nonce, nonce_of};
use crate::transport::{Transport, transport_of};
use mon_fields::{u16_at, u32_at};
use mon_header::{BLANK, Header};

/// The bytes of a packet of ARP.
const ARP_SIZE: usize = 28;

/// Whether this is a packet of IPv4 without options, whole and in one fragment.
#[tactic(auto, unfolding(crate::specs::Reading::is_ipv4))]
fn is_ipv4(packet: &[u8]) -> bool
    ensures { result ≡ is_ipv4 packet.now }
{
    if packet.len() < 20 {
        return false;
    }
    let total = usize::from(u16_at(packet, 2));
    packet[0] == 0x45 && total >= 20 && total <= packet.len() && u16_at(packet, 6) % 16384 == 0
}

/// The header of a frame of another type than IPv4 and ARP.
#[tactic(auto, unfolding(crate::specs::Reading::plain_header))]
fn plain_header(e: Ethernet) -> Header
    ensures { result ≡ plain_header e }
{
    Header {
        dl_src: e.dl_src,
        dl_dst: e.dl_dst,
        dl_vlan: e.dl_vlan,
        dl_vlan_pcp: e.dl_vlan_pcp,
        dl_type: e.dl_type,
        ..BLANK
    }
}

/// The header of a frame of IPv4.
#[tactic(auto, unfolding(crate::specs::Reading::ipv4_fields, crate::specs::Reading::plain_header))]
fn ipv4_fields(e: Ethernet, t: Transport, packet: &[u8]) -> Header
    requires { 20 ≤ length packet.now }
    ensures { result ≡ ipv4_fields e t packet.now }
{
    Header {
        nw_tos: packet[1] / 4 * 4,
        nw_proto: packet[9],
        nw_src: u32_at(packet, 12),
        nw_dst: u32_at(packet, 16),
        tp_src: t.tp_src,
        tp_dst: t.tp_dst,
        ..plain_header(e)
    }
}

/// A packet of IPv4 of this total length, in a frame with this header of Ethernet.
fn whole_packet(e: Ethernet, packet: &[u8], total: usize) -> Option<(Header, Option<Nonce>)>
    requires total { total ≡ total_of packet.now }
    requires header { 20 ≤ total }
    requires within { total ≤ length packet.now }
    ensures { result ≡ with_transport e packet.now (transport_of (slice_index packet.now 9) packet.now) }
{
    match transport_of(packet[9], packet, total) {
        Some(t) => Some((
            ipv4_fields(e, t, packet),
            nonce_of(&packet[..total][t.end..]),
        )),
        None => None,
    }
}

/// A packet in a frame of IPv4 with this header of Ethernet.
fn packet_of(e: Ethernet, packet: &[u8]) -> Option<(Header, Option<Nonce>)>
    ensures { result ≡ packet_of e packet.now }
{
    if !is_ipv4(packet) {
        return None;
    }
    whole_packet(e, packet, usize::from(u16_at(packet, 2)))
}

/// Whether this is a packet of ARP that gives addresses of Ethernet to those of IPv4 (RFC 826).
#[tactic(auto, unfolding(crate::specs::Reading::is_arp))]
fn is_arp(packet: &[u8]) -> bool
    ensures { result ≡ is_arp packet.now }
{
    packet.len() >= ARP_SIZE
        && u16_at(packet, 0) == 1
        && u16_at(packet, 2) == 0x0800
        && packet[4] == 6
        && packet[5] == 4
}

/// The header of a frame of ARP.
#[tactic(auto, unfolding(crate::specs::Reading::arp_fields))]
fn arp_fields(e: Ethernet, packet: &[u8]) -> Header
    requires { 28 ≤ length packet.now }
    ensures { result ≡ arp_fields e packet.now }
{
    Header {
        nw_proto: (u16_at(packet, 6) % 256) as u8,
        nw_src: u32_at(packet, 14),
        nw_dst: u32_at(packet, 24),
        ..plain_header(e)
    }
}

/// A packet of ARP in a frame with this header of Ethernet, and the payload behind it.
#[tactic(auto, using(crate::proofs::Arp::arp_long))]
fn arp_of(e: Ethernet, packet: &[u8]) -> Option<(Header, Option<Nonce>)>
    ensures { result ≡ arp_of e packet.now }
{
    if !is_arp(packet) {
        return None;
    }
    Some((arp_fields(e, packet), nonce_of(&packet[ARP_SIZE..])))
}

/// The header of a frame, with `in_port` 0, and the nonce of its payload where it has one. None where bytes are
/// missing, or what stands there is no frame that a probe can come back as. It takes no memory.
pub fn parse(bytes: &[u8]) -> Option<(Header, Option<Nonce>)>
    ensures { result ≡ parsed bytes.now }
{
    match ethernet_of(bytes) {
        Some(e) => {
            let body = &bytes[e.size..];
            if e.dl_type == 0x0800 {
                packet_of(e, body)
            } else if e.dl_type == 0x0806 {
                arp_of(e, body)
            } else {
                Some((plain_header(e), nonce_of(body)))
            }
        }
        None => None,
    }
}

//! Frames that are written.

ghost use Rattle.std.specs.Prelude.{◌≡◌, ◌<◌, ◌^◌, ◌%◌, ◌++◌, length, IfOk, OnOk, IsTrue};
ghost use Rattle.mon_header.specs.Classes.{in_class};
ghost use Rattle.mon_packet.specs.Frames.{payload, ethernet_header, ipv4_header, pseudo_header, tcp_header, udp_header, icmp_header, tcp_sum, udp_sum, icmp_sum, transport_header, transport_size, network_headers, arp_packet, body, padding, rendered};
ghost use Rattle.mon_packet.specs.Sums.{checksum};

use crate::nonce::{Nonce, payload};
use crate::sums::{not_zero, sum_from};
use byteorder::{BigEndian, ByteOrder};
use mon_header::{Header, OutOfMemory};
use std::alloc::Global;

/// The bytes of the shortest frame, without its check sequence (IEEE 802.3).
const SHORTEST: usize = 64;
/// The bytes of the longest probe frame: a tagged one with TCP.
const LONGEST: usize = 82;

/// The header of IPv4.
#[tactic(auto, unfolding(crate::specs::Frames::ipv4_header))]
fn ipv4_header(h: &Header, size: u16, sum: u16) -> [u8; 20]
    requires { size < 1000 }
    ensures { result ≡ ipv4_header h.now size sum }
{
    let mut out = [0; 20];
    out[0] = 0x45;
    out[1] = h.nw_tos;
    BigEndian::write_u16(&mut out[2..], 20 + size);
    out[8] = 64;
    out[9] = h.nw_proto;
    BigEndian::write_u16(&mut out[10..], sum);
    BigEndian::write_u32(&mut out[12..], h.nw_src);
    BigEndian::write_u32(&mut out[16..], h.nw_dst);
    out
}

/// What TCP and UDP add to their checksums.
#[tactic(auto, unfolding(crate::specs::Frames::pseudo_header))]
fn pseudo_header(h: &Header, size: u16) -> [u8; 12]
    ensures { result ≡ pseudo_header h.now size }
{
    let mut out = [0; 12];
    BigEndian::write_u32(&mut out, h.nw_src);
    BigEndian::write_u32(&mut out[4..], h.nw_dst);
    out[9] = h.nw_proto;
    BigEndian::write_u16(&mut out[10..], size);
    out
}

/// The header of TCP.
#[tactic(auto, unfolding(crate::specs::Frames::tcp_header))]
fn tcp_header(h: &Header, sum: u16) -> [u8; 20]
    ensures { result ≡ tcp_header h.now sum }
{
    let mut out = [0; 20];
    BigEndian::write_u16(&mut out, h.tp_src);
    BigEndian::write_u16(&mut out[2..], h.tp_dst);
    out[12] = 0x50;
    out[13] = 0x10;
    BigEndian::write_u16(&mut out[16..], sum);
    out
}

/// The header of UDP.
#[tactic(auto, unfolding(crate::specs::Frames::udp_header))]
fn udp_header(h: &Header, sum: u16) -> [u8; 8]
    ensures { result ≡ udp_header h.now sum }
{
    let mut out = [0; 8];
    BigEndian::write_u16(&mut out, h.tp_src);
    BigEndian::write_u16(&mut out[2..], h.tp_dst);
    out[5] = 32;
    BigEndian::write_u16(&mut out[6..], sum);
    out
}

/// The header of ICMP.
#[tactic(auto, unfolding(crate::specs::Frames::icmp_header))]
fn icmp_header(h: &Header, sum: u16) -> [u8; 8]
    ensures { result ≡ icmp_header h.now sum }
{
    let mut out = [0; 8];
    out[0] = (h.tp_src % 256) as u8;
    out[1] = (h.tp_dst % 256) as u8;
    BigEndian::write_u16(&mut out[2..], sum);
    out
}

/// The checksum of bytes that begin with a whole number of words.
fn checksum(first: &[u8], second: &[u8], last: &[u8]) -> u16
    requires first { length first.now % 2 ≡ 0 }
    requires second { length second.now % 2 ≡ 0 }
    ensures { result ≡ checksum (first.now ++ (second.now ++ last.now)) }
{
    65535 - sum_from(sum_from(sum_from(0, first), second), last)
}

fn tcp_sum(h: &Header, n: Nonce) -> u16
    ensures { result ≡ tcp_sum h.now n }
{
    checksum(&pseudo_header(h, 44), &tcp_header(h, 0), &payload(n))
}

fn udp_sum(h: &Header, n: Nonce) -> u16
    ensures { result ≡ udp_sum h.now n }
{
    not_zero(checksum(&pseudo_header(h, 32), &udp_header(h, 0), &payload(n)))
}

fn icmp_sum(h: &Header, n: Nonce) -> u16
    ensures { result ≡ icmp_sum h.now n }
{
    checksum(&icmp_header(h, 0), &[], &payload(n))
}

/// Appends what stands between the header of IPv4 and the payload.
#[tactic(auto, unfolding(crate::specs::Frames::transport_header))]
fn put_transport(frame: &mut Vec<u8>, h: &Header, n: Nonce) -> Result<(), OutOfMemory>
    ensures { OnOk result (frame.new.items ≡ frame.old.items ++ transport_header h.now n) }
{
    match h.nw_proto {
        6 => frame.extend_from_slice(&tcp_header(h, tcp_sum(h, n)))?,
        17 => frame.extend_from_slice(&udp_header(h, udp_sum(h, n)))?,
        1 => frame.extend_from_slice(&icmp_header(h, icmp_sum(h, n)))?,
        _ => {}
    }
    Ok(())
}

/// The count of bytes between the header of IPv4 and the payload.
fn transport_size(h: &Header) -> u16
    ensures { result ≡ transport_size h.now }
{
    match h.nw_proto {
        6 => 20,
        17 => 8,
        1 => 8,
        _ => 0,
    }
}

/// Appends the headers of IPv4 and of what it carries.
#[tactic(auto, unfolding(crate::specs::Frames::network_headers))]
fn put_network(frame: &mut Vec<u8>, h: &Header, n: Nonce) -> Result<(), OutOfMemory>
    ensures { OnOk result (frame.new.items ≡ frame.old.items ++ network_headers h.now n) }
{
    let size = transport_size(h) + 24;
    let sum = checksum(&ipv4_header(h, size, 0), &[], &[]);
    frame.extend_from_slice(&ipv4_header(h, size, sum))?;
    put_transport(frame, h, n)
}

/// A packet of ARP whose addresses of Ethernet are 0.
#[tactic(auto, unfolding(crate::specs::Frames::arp_packet))]
fn arp_packet(h: &Header) -> [u8; 28]
    ensures { result ≡ arp_packet h.now }
{
    let mut out = [0; 28];
    BigEndian::write_u16(&mut out, 1);
    BigEndian::write_u16(&mut out[2..], 0x0800);
    out[4] = 6;
    out[5] = 4;
    BigEndian::write_u16(&mut out[6..], u16::from(h.nw_proto));
    BigEndian::write_u32(&mut out[14..], h.nw_src);
    BigEndian::write_u32(&mut out[24..], h.nw_dst);
    out
}

/// The header of Ethernet without a tag.
#[tactic(auto, unfolding(crate::specs::Frames::ethernet_header))]
fn untagged(h: &Header) -> [u8; 14]
    requires src { h.now.dl_src < 2 ^ 48 }
    requires dst { h.now.dl_dst < 2 ^ 48 }
    requires vlan { h.now.dl_vlan ≡ 0xffff }
    ensures { result ≡ ethernet_header h.now }
{
    let mut out = [0; 14];
    BigEndian::write_u48(&mut out, h.dl_dst);
    BigEndian::write_u48(&mut out[6..], h.dl_src);
    BigEndian::write_u16(&mut out[12..], h.dl_type);
    out
}

/// The header of Ethernet with a tag.
#[tactic(auto, unfolding(crate::specs::Frames::ethernet_header))]
fn tagged(h: &Header) -> [u8; 18]
    requires src { h.now.dl_src < 2 ^ 48 }
    requires dst { h.now.dl_dst < 2 ^ 48 }
    requires vlan { h.now.dl_vlan < 4096 }
    requires pcp { h.now.dl_vlan_pcp < 8 }
    ensures { result ≡ ethernet_header h.now }
{
    let mut out = [0; 18];
    BigEndian::write_u48(&mut out, h.dl_dst);
    BigEndian::write_u48(&mut out[6..], h.dl_src);
    BigEndian::write_u16(&mut out[12..], 0x8100);
    BigEndian::write_u16(&mut out[14..], u16::from(h.dl_vlan_pcp) * 8192 + h.dl_vlan);
    BigEndian::write_u16(&mut out[16..], h.dl_type);
    out
}

/// Appends the header of Ethernet.
fn put_ethernet(frame: &mut Vec<u8>, h: &Header) -> Result<(), OutOfMemory>
    requires { IsTrue (in_class h.now) }
    ensures { OnOk result (frame.new.items ≡ frame.old.items ++ ethernet_header h.now) }
{
    if h.dl_vlan == 0xffff {
        frame.extend_from_slice(&untagged(h))?;
    } else {
        frame.extend_from_slice(&tagged(h))?;
    }
    Ok(())
}

/// Appends what follows the header of Ethernet.
#[tactic(auto, unfolding(crate::specs::Frames::body))]
fn put_body(frame: &mut Vec<u8>, h: &Header, n: Nonce) -> Result<(), OutOfMemory>
    ensures { OnOk result (frame.new.items ≡ frame.old.items ++ body h.now n) }
{
    if h.dl_type == 0x0800 {
        put_network(frame, h, n)?;
    } else if h.dl_type == 0x0806 {
        frame.extend_from_slice(&arp_packet(h))?;
    }
    frame.extend_from_slice(&payload(n))?;
    Ok(())
}

/// Appends zeros up to the shortest frame.
fn pad(frame: &mut Vec<u8>) -> Result<(), OutOfMemory>
    ensures { OnOk result (frame.new.items ≡ frame.old.items ++ padding (length frame.old.items)) }
{
    for _ in 0..SHORTEST.saturating_sub(frame.len()) {
        frame.push(0)?;
    }
    Ok(())
}

/// The frame of a header in a class, with this nonce: 64 to 82 bytes, without the check sequence of Ethernet. The
/// port is not in it.
#[tactic(auto, unfolding(crate::specs::Frames::rendered))]
pub fn render(alloc: Global, h: &Header, n: Nonce) -> Result<Vec<u8>, OutOfMemory>
    requires { IsTrue (in_class h.now) }
    ensures { IfOk result (λ frame. frame.items ≡ rendered h.now n) }
{
    let mut frame = Vec::with_capacity(alloc, LONGEST)?;
    put_ethernet(&mut frame, h)?;
    put_body(&mut frame, h, n)?;
    pad(&mut frame)?;
    Ok(frame)
}

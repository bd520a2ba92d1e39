//! What IPv4 carries: its fields that a switch compares, and where the payload begins.

ghost use Rattle.std.specs.Prelude.{◌≡◌, ◌≤◌, IfSome, length, IsTrue};
ghost use Rattle.mon_packet.specs.Reading.{total_of, tcp_of, udp_of, icmp_of, transport_of};

use mon_fields::u16_at;

/// Ports, or the type and the code of ICMP, and the place in the packet behind their header.
#[derive(Clone, Copy, Debug)]
pub struct Transport {
    pub tp_src: u16,
    pub tp_dst: u16,
    pub end: usize,
}

/// The ports of TCP, whose header has no options.
#[tactic(auto, unfolding(crate::specs::Reading::tcp_of))]
fn tcp_of(packet: &[u8], total: usize) -> Option<Transport>
    requires total { total ≡ total_of packet.now }
    requires within { total ≤ length packet.now }
    ensures value { result ≡ tcp_of packet.now }
    ensures end { IfSome result (λ t. t.end ≤ total) }
{
    if total < 40 || packet[32] / 16 != 5 {
        return None;
    }
    Some(Transport {
        tp_src: u16_at(packet, 20),
        tp_dst: u16_at(packet, 22),
        end: 40,
    })
}

/// The ports of UDP, which says the same length as IPv4.
#[tactic(auto, unfolding(crate::specs::Reading::udp_of))]
fn udp_of(packet: &[u8], total: usize) -> Option<Transport>
    requires total { total ≡ total_of packet.now }
    requires within { total ≤ length packet.now }
    ensures value { result ≡ udp_of packet.now }
    ensures end { IfSome result (λ t. t.end ≤ total) }
{
    if total < 28 || usize::from(u16_at(packet, 24)) != total - 20 {
        return None;
    }
    Some(Transport {
        tp_src: u16_at(packet, 20),
        tp_dst: u16_at(packet, 22),
        end: 28,
    })
}

/// The type and the code of ICMP.
#[tactic(auto, unfolding(crate::specs::Reading::icmp_of))]
fn icmp_of(packet: &[u8], total: usize) -> Option<Transport>
    requires total { total ≡ total_of packet.now }
    requires within { total ≤ length packet.now }
    ensures value { result ≡ icmp_of packet.now }
    ensures end { IfSome result (λ t. t.end ≤ total) }
{
    if total < 28 {
        return None;
    }
    Some(Transport {
        tp_src: u16::from(packet[20]),
        tp_dst: u16::from(packet[21]),
        end: 28,
    })
}

/// What a packet of this protocol and total length carries.
#[tactic(auto, unfolding(crate::specs::Reading::transport_of))]
pub fn transport_of(protocol: u8, packet: &[u8], total: usize) -> Option<Transport>
    requires total { total ≡ total_of packet.now }
    requires header { 20 ≤ total }
    requires within { total ≤ length packet.now }
    ensures value { result ≡ transport_of protocol packet.now }
    ensures end { IfSome result (λ t. t.end ≤ total) }
{
    match protocol {
        6 => tcp_of(packet, total),
        17 => udp_of(packet, total),
        1 => icmp_of(packet, total),
        _ => Some(Transport {
            tp_src: 0,
            tp_dst: 0,
            end: 20,
        }),
    }
}

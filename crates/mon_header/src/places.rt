//! The 264 bits of a header.

ghost use Rattle.std.specs.Prelude.{◌≡◌, ◌≤◌, ◌<◌, ◌+◌, ◌^◌, length};
ghost use Rattle.mon_header.specs.Matching.{InRange};
ghost use Rattle.mon_header.specs.Wild.{bit};
ghost use Rattle.mon_header.specs.Places.{header_size, laid, bit_at, number, number_at, header_of};

use crate::header::Header;

/// How many bits a header has.
pub const HEADER_BITS: u16 = 264;

/// The fields in the order of their bits, each with its count of bits.
#[tactic(auto, unfolding(crate::specs::Places::laid))]
fn laid(h: &Header) -> [(u16, u64); 12]
    ensures { result ≡ laid h.now }
{
    [
        (16, u64::from(h.in_port)),
        (48, h.dl_src),
        (48, h.dl_dst),
        (16, u64::from(h.dl_vlan)),
        (8, u64::from(h.dl_vlan_pcp)),
        (16, u64::from(h.dl_type)),
        (8, u64::from(h.nw_tos)),
        (8, u64::from(h.nw_proto)),
        (32, u64::from(h.nw_src)),
        (32, u64::from(h.nw_dst)),
        (16, u64::from(h.tp_src)),
        (16, u64::from(h.tp_dst)),
    ]
}

fn has_bit(n: u64, place: u16) -> bool
    ensures { result ≡ bit n place }
{
    place < 64 && (n >> place) & 1 == 1
}

/// The bit of a header at a place below `HEADER_BITS`: the fields stand in their order, the most significant bit of each first.
pub fn bit(h: &Header, place: u16) -> bool
    requires { place < header_size }
    ensures { result ≡ bit_at h.now place }
{
    let mut left = place;
    for (count, value) in laid(h) {
        if left < count {
            return has_bit(value, count - 1 - left);
        }
        left -= count;
    }
    false
}

/// The number of at most 64 bits, the highest first.
fn number(bits: &[bool]) -> u64
    requires { length bits.now ≤ 64 }
    ensures value { result ≡ number bits.now }
    ensures small { result < 2 ^ length bits.now }
{
    let mut n = 0;
    for b in bits {
        n = 2 * n + u64::from(*b);
    }
    n
}

/// The number in the bits of a field.
fn number_at(bits: &[bool; HEADER_BITS as usize], start: usize, count: usize) -> u64
    requires within { start + count ≤ header_size }
    requires few { count ≤ 64 }
    ensures value { result ≡ number_at start count bits.now }
    ensures small { result < 2 ^ count }
{
    number(&bits[start..start + count])
}

/// The header whose bits these are. Its numbers are within range.
#[tactic(auto, unfolding(crate::specs::Places::header_of))]
pub fn from_bits(bits: &[bool; HEADER_BITS as usize]) -> Header
    ensures value { result ≡ header_of bits.now }
    ensures range { InRange result }
{
    Header {
        in_port: number_at(bits, 0, 16) as u16,
        dl_src: number_at(bits, 16, 48),
        dl_dst: number_at(bits, 64, 48),
        dl_vlan: number_at(bits, 112, 16) as u16,
        dl_vlan_pcp: number_at(bits, 128, 8) as u8,
        dl_type: number_at(bits, 136, 16) as u16,
        nw_tos: number_at(bits, 152, 8) as u8,
        nw_proto: number_at(bits, 160, 8) as u8,
        nw_src: number_at(bits, 168, 32) as u32,
        nw_dst: number_at(bits, 200, 32) as u32,
        tp_src: number_at(bits, 232, 16) as u16,
        tp_dst: number_at(bits, 248, 16) as u16,
    }
}

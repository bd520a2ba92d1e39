//! The header of Ethernet.

ghost use Rattle.std.specs.Prelude.{◌≡◌, ◌≤◌, IfSome, length, IsTrue};
ghost use Rattle.mon_header.specs.Classes.{in_class};
ghost use Rattle.mon_packet.specs.Frames.{ethernet_header};
ghost use Rattle.mon_packet.specs.Reading.{is_type, typed, ethernet_of};

use byteorder::{BigEndian, ByteOrder};
use mon_fields::{u16_at, u48_at};
use mon_header::Header;

/// The type of a tag (IEEE 802.1Q).
const TAG: u16 = 0x8100;

/// What the header of Ethernet says, and its count of bytes.
#[derive(Clone, Copy, Debug)]
pub struct Ethernet {
    pub dl_src: u64,
    pub dl_dst: u64,
    pub dl_vlan: u16,
    pub dl_vlan_pcp: u8,
    pub dl_type: u16,
    pub size: usize,
}

/// Whether this is a type, and neither a length nor a further tag.
fn is_type(n: u16) -> bool
    ensures { result ≡ is_type n }
{
    n >= 0x0600 && n != TAG && n != 0x88a8
}

/// The header with this tag, whose type stands just before `end`.
fn typed(bytes: &[u8], dl_vlan: u16, dl_vlan_pcp: u8, end: usize) -> Option<Ethernet>
    requires { 14 ≤ end }
    ensures value { result ≡ typed bytes.now dl_vlan dl_vlan_pcp end }
    ensures within { IfSome result (λ e. e.size ≤ length bytes.now) }
{
    if bytes.len() < end {
        return None;
    }
    let dl_type = u16_at(bytes, end - 2);
    if !is_type(dl_type) {
        return None;
    }
    Some(Ethernet {
        dl_src: u48_at(bytes, 6),
        dl_dst: u48_at(bytes, 0),
        dl_vlan,
        dl_vlan_pcp,
        dl_type,
        size: end,
    })
}

/// The header of Ethernet of a frame, with at most one tag.
#[tactic(auto, unfolding(crate::specs::Reading::ethernet_of))]
pub fn ethernet_of(bytes: &[u8]) -> Option<Ethernet>
    ensures value { result ≡ ethernet_of bytes.now }
    ensures within { IfSome result (λ e. e.size ≤ length bytes.now) }
{
    if bytes.len() >= 16 && u16_at(bytes, 12) == TAG {
        let tag = u16_at(bytes, 14);
        typed(bytes, tag % 4096, (tag / 8192) as u8, 18)
    } else {
        typed(bytes, 0xffff, 0, 14)
    }
}

//! Matches and their bytes.

ghost use Rattle.std.specs.Prelude.{◌≡◌, ◌<◌, ◌^◌};
ghost use Rattle.of_match.specs.Layout.{fields_of, match_of, spelled};

use byteorder::{BigEndian, ByteOrder};
use mon_fields::{u16_at, u32_at, u48_at};
use mon_header::{Header, Match};

/// The fields as they stand in the bytes.
#[tactic(auto, unfolding(crate::specs::Layout::fields_of))]
fn read_fields(bytes: &[u8; 40]) -> Header
    ensures value { result ≡ fields_of bytes.now }
    ensures dl_src { result.dl_src < 2 ^ 48 }
    ensures dl_dst { result.dl_dst < 2 ^ 48 }
{
    Header {
        in_port: u16_at(bytes, 4),
        dl_src: u48_at(bytes, 6),
        dl_dst: u48_at(bytes, 12),
        dl_vlan: u16_at(bytes, 18),
        dl_vlan_pcp: bytes[20],
        dl_type: u16_at(bytes, 22),
        nw_tos: bytes[24],
        nw_proto: bytes[25],
        nw_src: u32_at(bytes, 28),
        nw_dst: u32_at(bytes, 32),
        tp_src: u16_at(bytes, 36),
        tp_dst: u16_at(bytes, 38),
    }
}

/// The match of these bytes, in its normalised form.
#[tactic(auto, unfolding(crate::specs::Layout::match_of))]
pub fn read_match(bytes: &[u8; 40]) -> Match
    ensures { result ≡ match_of bytes.now }
{
    Match::normal(u32_at(bytes, 0), read_fields(bytes))
}

/// The bytes of a match, with pads of 0.
#[tactic(auto, unfolding(crate::specs::Layout::spelled))]
pub fn write_match(m: &Match) -> [u8; 40]
    ensures { result ≡ spelled m.now }
{
    let f = m.fields();
    let mut out = [0; 40];
    BigEndian::write_u32(&mut out, m.wildcards());
    BigEndian::write_u16(&mut out[4..], f.in_port);
    BigEndian::write_u48(&mut out[6..], f.dl_src);
    BigEndian::write_u48(&mut out[12..], f.dl_dst);
    BigEndian::write_u16(&mut out[18..], f.dl_vlan);
    out[20] = f.dl_vlan_pcp;
    BigEndian::write_u16(&mut out[22..], f.dl_type);
    out[24] = f.nw_tos;
    out[25] = f.nw_proto;
    BigEndian::write_u32(&mut out[28..], f.nw_src);
    BigEndian::write_u32(&mut out[32..], f.nw_dst);
    BigEndian::write_u16(&mut out[36..], f.tp_src);
    BigEndian::write_u16(&mut out[38..], f.tp_dst);
    out
}

//! Headers in digits.

ghost use Rattle.std.specs.Prelude.{◌≡◌, ◌≤◌, ◌+◌, ◌++◌, OnOk, option_map};
ghost use Rattle.byteorder.specs.Endian.{big_bytes};
ghost use Rattle.mon_fields.specs.Fields.{number_at};
ghost use Rattle.mon_certificate_file.specs.Headers.{header_bytes, header_from};
ghost use Rattle.mon_certificate_file.specs.CertificateFile.{header_text};
ghost use Rattle.mon_certificate_file.specs.Reading.{header_in};

use byteorder::{BigEndian, ByteOrder};
use mon_fields::{u16_at, u32_at, u48_at};
use mon_header::Header;
use mon_text::{push_digits, read_digits};
use std::alloc::AllocError;

fn u8_at(bytes: &[u8; 33], at: usize) -> u8
    requires { at + 1 ≤ 33 }
    ensures { result ≡ number_at 1 at bytes.now }
{
    bytes[at]
}

/// The header of these bytes.
#[tactic(auto, unfolding(crate::specs::Headers::header_from))]
fn header_from(bytes: &[u8; 33]) -> Header
    ensures { result ≡ header_from bytes.now }
{
    Header {
        in_port: u16_at(bytes, 0),
        dl_src: u48_at(bytes, 2),
        dl_dst: u48_at(bytes, 8),
        dl_vlan: u16_at(bytes, 14),
        dl_vlan_pcp: u8_at(bytes, 16),
        dl_type: u16_at(bytes, 17),
        nw_tos: u8_at(bytes, 19),
        nw_proto: u8_at(bytes, 20),
        nw_src: u32_at(bytes, 21),
        nw_dst: u32_at(bytes, 25),
        tp_src: u16_at(bytes, 29),
        tp_dst: u16_at(bytes, 31),
    }
}

/// The header that stands at the front in 66 digits, and the text behind it.
#[tactic(auto, unfolding(crate::specs::Reading::header_in))]
pub fn header_at(text: &[u8]) -> Option<(Header, &[u8])>
    ensures { option_map (λ p. (p.0, p.1.now)) result ≡ header_in text.now }
{
    let mut bytes = [0; 33];
    let rest = read_digits(text, &mut bytes)?;
    Some((header_from(&bytes), rest))
}

/// The low six bytes of a number, the highest of them first.
fn low_six(n: u64) -> [u8; 6]
    ensures { result ≡ big_bytes 6 n }
{
    let [_, _, a, b, c, d, e, f] = n.to_be_bytes();
    [a, b, c, d, e, f]
}

/// The 264 bits of a header in bytes.
#[tactic(auto, unfolding(crate::specs::Headers::header_bytes, mon_header::specs::Places::laid))]
fn header_bytes(h: &Header) -> [u8; 33]
    ensures { result ≡ header_bytes h.now }
{
    let mut out = [0; 33];
    BigEndian::write_u16(&mut out, h.in_port);
    out[2..8].copy_from_slice(&low_six(h.dl_src));
    out[8..14].copy_from_slice(&low_six(h.dl_dst));
    BigEndian::write_u16(&mut out[14..], h.dl_vlan);
    out[16..17].copy_from_slice(&h.dl_vlan_pcp.to_be_bytes());
    BigEndian::write_u16(&mut out[17..], h.dl_type);
    out[19..20].copy_from_slice(&h.nw_tos.to_be_bytes());
    out[20..21].copy_from_slice(&h.nw_proto.to_be_bytes());
    BigEndian::write_u32(&mut out[21..], h.nw_src);
    BigEndian::write_u32(&mut out[25..], h.nw_dst);
    BigEndian::write_u16(&mut out[29..], h.tp_src);
    BigEndian::write_u16(&mut out[31..], h.tp_dst);
    out
}

/// Appends the digits of a header.
pub fn push_header(h: &Header, out: &mut Vec<u8>) -> Result<(), AllocError>
    ensures { OnOk result (out.new.items ≡ out.old.items ++ header_text h.now) }
{
    push_digits(&header_bytes(h), out)
}

//! Addresses of IPv4.

ghost use Rattle.std.specs.Prelude.{◌≡◌, option_map};
ghost use Rattle.mon_settings.specs.Texts.{octet_before, address_with, address_in, address_of};

use crate::texts::whole;
use mon_text::{behind, number_within};

/// Where to listen or to connect to: an address of IPv4 (RFC 791), its first byte the highest, and a port of TCP.
#[derive(Clone, Copy, Debug, PartialEq, Eq)]
pub struct Address {
    pub ip: u32,
    pub port: u16,
}

/// The number of 0 to 255 at the front of a text, where these bytes follow it, and the text behind them.
fn octet_before<'a>(end: &[u8], text: &'a [u8]) -> Option<(u8, &'a [u8])>
    ensures { option_map (λ p. (p.0, p.1.now)) result ≡ octet_before end.now text.now }
{
    let (n, rest) = number_within(0, 255, text)?;
    let rest = behind(end, rest)?;
    Some((n as u8, rest))
}

/// The address of four numbers and a port.
fn address_with(a: u8, b: u8, c: u8, d: u8, port: u16) -> Address
    ensures { result ≡ address_with (a, (b, (c, (d, port)))) }
{
    let high = 256 * u32::from(a) + u32::from(b);
    let low = 256 * u32::from(c) + u32::from(d);
    Address {
        ip: 65536 * high + low,
        port,
    }
}

/// The address at the front of a text, and the text behind it.
#[tactic(auto, unfolding(crate::specs::Texts::address_in))]
fn address_at(text: &[u8]) -> Option<(Address, &[u8])>
    ensures { option_map (λ p. (p.0, p.1.now)) result ≡ address_in text.now }
{
    let (a, rest) = octet_before(b".", text)?;
    let (b, rest) = octet_before(b".", rest)?;
    let (c, rest) = octet_before(b".", rest)?;
    let (d, rest) = octet_before(b":", rest)?;
    let (port, rest) = number_within(1, 65535, rest)?;
    Some((address_with(a, b, c, d, port), rest))
}

/// The address that a text is, as in `127.0.0.1:6633`; None where it is none.
pub fn address_of(text: &[u8]) -> Option<Address>
    ensures { result ≡ address_of text.now }
{
    whole(address_at(text))
}

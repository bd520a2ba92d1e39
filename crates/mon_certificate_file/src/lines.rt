//! What stands on the lines of a certificate file, each from the front of a text.

ghost use Rattle.std.specs.Prelude.{◌≡◌, codes, decimal, option_map};
ghost use Rattle.mon_text.specs.Parts.{behind, ended, number_within};
ghost use Rattle.mon_certificate_file.specs.Reading.{header_in, last_header, port_in, controller_in, miss_in, emission_in, behind_rule, probe_in, overlap_in, count_in, nothing_in, head_in};

use crate::headers::header_at;
use itoa::Buffer;
use mon_header::Header;
use mon_outcome::Emission;
use mon_text::{behind, number_at, number_within};

/// A header and a space.
fn header_word(text: &[u8]) -> Option<(Header, &[u8])>
    ensures { option_map (λ p. (p.0, p.1.now)) result ≡ ended (codes " ") header_in text.now }
{
    let (h, rest) = header_at(text)?;
    let rest = behind(b" ", rest)?;
    Some((h, rest))
}

/// A header and the end of the line.
fn last_header(text: &[u8]) -> Option<(Header, &[u8])>
    ensures { option_map (λ p. (p.0, p.1.now)) result ≡ last_header text.now }
{
    let (h, rest) = header_at(text)?;
    let rest = behind(b"\n", rest)?;
    Some((h, rest))
}

/// A port and a space.
fn port_word(text: &[u8]) -> Option<(u16, &[u8])>
    ensures { option_map (λ p. (p.0, p.1.now)) result ≡ ended (codes " ") (number_within 0 65535) text.now }
{
    let (port, rest) = number_within(0, 65535, text)?;
    let rest = behind(b" ", rest)?;
    Some((port, rest))
}

#[tactic(auto, unfolding(crate::specs::Reading::port_in))]
fn port_at(text: &[u8]) -> Option<(Emission, &[u8])>
    ensures { option_map (λ p. (p.0, p.1.now)) result ≡ port_in text.now }
{
    let (port, rest) = port_word(text)?;
    let (h, rest) = last_header(rest)?;
    Some((Emission::Port(port, h), rest))
}

#[tactic(auto, unfolding(crate::specs::Reading::controller_in))]
fn controller_at(text: &[u8]) -> Option<(Emission, &[u8])>
    ensures { option_map (λ p. (p.0, p.1.now)) result ≡ controller_in text.now }
{
    let (h, rest) = last_header(text)?;
    Some((Emission::Controller(h), rest))
}

#[tactic(auto, unfolding(crate::specs::Reading::miss_in))]
fn miss_at(text: &[u8]) -> Option<(Emission, &[u8])>
    ensures { option_map (λ p. (p.0, p.1.now)) result ≡ miss_in text.now }
{
    let (h, rest) = last_header(text)?;
    Some((Emission::Miss(h), rest))
}

/// An emission and the end of the line.
#[tactic(auto, unfolding(crate::specs::Reading::emission_in))]
fn emission_at(text: &[u8]) -> Option<(Emission, &[u8])>
    ensures { option_map (λ p. (p.0, p.1.now)) result ≡ emission_in text.now }
{
    if let Some(rest) = behind(b"port ", text) {
        return port_at(rest);
    }
    if let Some(rest) = behind(b"controller ", text) {
        return controller_at(rest);
    }
    let rest = behind(b"miss ", text)?;
    miss_at(rest)
}

/// The text behind a number.
fn behind_number(n: u64, text: &[u8]) -> Option<&[u8]>
    ensures { option_map (λ rest. rest.now) result ≡ behind (decimal n) text.now }
{
    let mut buffer = Buffer::new();
    behind(buffer.format(n).as_bytes(), text)
}

/// The text behind the number of a rule and a space.
#[tactic(auto, unfolding(crate::specs::Reading::behind_rule))]
fn behind_rule(rule: u64, text: &[u8]) -> Option<&[u8]>
    ensures { option_map (λ rest. rest.now) result ≡ behind_rule rule text.now }
{
    let rest = behind_number(rule, text)?;
    behind(b" ", rest)
}

/// A probe behind its first word, up to the end of the line.
#[tactic(auto, unfolding(crate::specs::Reading::probe_in))]
pub fn probe_at(rule: u64, text: &[u8]) -> Option<((Header, Emission), &[u8])>
    ensures { option_map (λ p. (p.0, p.1.now)) result ≡ probe_in rule text.now }
{
    let rest = behind_rule(rule, text)?;
    let (h, rest) = header_word(rest)?;
    let (e, rest) = emission_at(rest)?;
    Some(((h, e), rest))
}

/// The text behind the line of a tied rule, from its number on.
#[tactic(auto, unfolding(crate::specs::Reading::overlap_in))]
pub fn overlap_at(rule: u64, text: &[u8]) -> Option<&[u8]>
    ensures { option_map (λ rest. rest.now) result ≡ overlap_in rule text.now }
{
    let rest = behind_number(rule, text)?;
    behind(b"\n", rest)
}

/// A number and the end of the line.
#[tactic(auto, unfolding(crate::specs::Reading::count_in))]
fn count_at(text: &[u8]) -> Option<(u64, &[u8])>
    ensures { option_map (λ p. (p.0, p.1.now)) result ≡ count_in text.now }
{
    let (n, rest) = number_at(text)?;
    let rest = behind(b"\n", rest)?;
    Some((n, rest))
}

/// How many refutations the first line of a rule says that no probe shows, behind its first word.
#[tactic(auto, unfolding(crate::specs::Reading::nothing_in))]
pub fn nothing_at(rule: u64, text: &[u8]) -> Option<(u64, &[u8])>
    ensures { option_map (λ p. (p.0, p.1.now)) result ≡ nothing_in rule text.now }
{
    let rest = behind_rule(rule, text)?;
    count_at(rest)
}

/// The first two lines, of which the second says how many rules there are.
#[tactic(auto, unfolding(crate::specs::Reading::head_in))]
pub fn head_at(text: &[u8]) -> Option<(u64, &[u8])>
    ensures { option_map (λ p. (p.0, p.1.now)) result ≡ head_in text.now }
{
    let rest = behind(b"monocle-certificates 1\nrules ", text)?;
    count_at(rest)
}

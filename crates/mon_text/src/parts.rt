//! What stands at the front of a text.

ghost use Rattle.std.specs.Prelude.{◌≡◌, ◌≢◌, ◌≤◌, ◌++◌, ℕ, List, IfSome, MatchOption, option_map};
ghost use Rattle.mon_text.specs.Parts.{behind, number_within, datapath_in};

use crate::hexadecimal::read_digits;
use crate::numbers::number_at;

/// The text behind these bytes, where they stand at the front.
pub fn behind<'a>(front: &[u8], text: &'a [u8]) -> Option<&'a [u8]>
    ensures value { option_map (λ rest. rest.now) result ≡ behind front.now text.now }
    ensures found { MatchOption result ((rest : List ℕ) → text.now ≢ front.now ++ rest) (λ rest. text.now ≡ front.now ++ rest.now) }
{
    if text.starts_with(front) {
        Some(&text[front.len()..])
    } else {
        None
    }
}

/// The decimal number from `low` to `high` that stands at the front, without leading zeros and up to a byte that is no
/// digit, and the text behind it.
#[tactic(auto, unfolding(crate::specs::Parts::number_within))]
pub fn number_within(low: u16, high: u16, text: &[u8]) -> Option<(u16, &[u8])>
    ensures value { option_map (λ p. (p.0, p.1.now)) result ≡ number_within low high text.now }
    ensures most { IfSome result (λ p. p.0 ≤ high) }
{
    let (n, rest) = number_at(text)?;
    if u64::from(low) <= n && n <= u64::from(high) {
        Some((n as u16, rest))
    } else {
        None
    }
}

/// The datapath id that stands at the front in 16 lower hexadecimal digits, and the text behind it.
#[tactic(auto, unfolding(crate::specs::Parts::datapath_in))]
pub fn datapath_at(text: &[u8]) -> Option<(u64, &[u8])>
    ensures { option_map (λ p. (p.0, p.1.now)) result ≡ datapath_in text.now }
{
    let mut bytes = [0; 8];
    let rest = read_digits(text, &mut bytes)?;
    Some((u64::from_be_bytes(bytes), rest))
}

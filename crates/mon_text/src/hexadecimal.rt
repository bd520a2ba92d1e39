//! Bytes in lower hexadecimal digits, read and written by tables.

ghost use Rattle.std.specs.Prelude.{◌≡◌, ◌<◌, ◌++◌, OnOk, IfOk, length, option_map, string_bytes};
ghost use Rattle.mon_text.specs.Hex.{hex, hex_digit, byte_of, digit_of, digit_in};
ghost use Rattle.mon_text.specs.Parts.{pair_in, bytes_in, run_in};

use mon_list::OutOfMemory;
use std::alloc::{AllocError, Global};

/// What each character says as a digit, and 16 where it is none.
const VALUES: [u8; 256] = [
    16, 16, 16, 16, 16, 16, 16, 16, 16, 16, 16, 16, 16, 16, 16, 16, 16, 16, 16, 16, 16, 16, 16, 16,
    16, 16, 16, 16, 16, 16, 16, 16, 16, 16, 16, 16, 16, 16, 16, 16, 16, 16, 16, 16, 16, 16, 16, 16,
    0, 1, 2, 3, 4, 5, 6, 7, 8, 9, 16, 16, 16, 16, 16, 16, 16, 16, 16, 16, 16, 16, 16, 16, 16, 16,
    16, 16, 16, 16, 16, 16, 16, 16, 16, 16, 16, 16, 16, 16, 16, 16, 16, 16, 16, 16, 16, 16, 16, 10,
    11, 12, 13, 14, 15, 16, 16, 16, 16, 16, 16, 16, 16, 16, 16, 16, 16, 16, 16, 16, 16, 16, 16, 16,
    16, 16, 16, 16, 16, 16, 16, 16, 16, 16, 16, 16, 16, 16, 16, 16, 16, 16, 16, 16, 16, 16, 16, 16,
    16, 16, 16, 16, 16, 16, 16, 16, 16, 16, 16, 16, 16, 16, 16, 16, 16, 16, 16, 16, 16, 16, 16, 16,
    16, 16, 16, 16, 16, 16, 16, 16, 16, 16, 16, 16, 16, 16, 16, 16, 16, 16, 16, 16, 16, 16, 16, 16,
    16, 16, 16, 16, 16, 16, 16, 16, 16, 16, 16, 16, 16, 16, 16, 16, 16, 16, 16, 16, 16, 16, 16, 16,
    16, 16, 16, 16, 16, 16, 16, 16, 16, 16, 16, 16, 16, 16, 16, 16, 16, 16, 16, 16, 16, 16, 16, 16,
    16, 16, 16, 16, 16, 16, 16, 16, 16, 16, 16, 16, 16, 16,
];

fn value_of(digit: u8) -> u8
    ensures { digit_of digit ≡ digit_in result }
{
    VALUES[usize::from(digit)]
}

/// The byte of two digits, the higher one first.
#[tactic(auto, unfolding(crate::specs::Hex::byte_of))]
pub fn byte_of(first: u8, second: u8) -> Option<u8>
    ensures { result ≡ byte_of first second }
{
    let high = value_of(first);
    let low = value_of(second);
    if high > 15 || low > 15 {
        return None;
    }
    Some(16 * high + low)
}

/// The byte of the two digits at the front, and the text behind them.
fn pair_at(text: &[u8]) -> Option<(u8, &[u8])>
    ensures { option_map (λ p. (p.0, p.1.now)) result ≡ pair_in text.now }
{
    if text.len() < 2 {
        return None;
    }
    let byte = byte_of(text[0], text[1])?;
    Some((byte, &text[2..]))
}

/// Reads bytes in pairs of digits, as many as there is room for, and gives the text behind them. Where there are fewer,
/// some of the room may have been written.
pub fn read_digits<'a>(text: &'a [u8], room: &mut [u8]) -> Option<&'a [u8]>
    ensures { option_map (λ rest. (room.new, rest.now)) result ≡ bytes_in (length room.old) text.now }
{
    let mut rest = text;
    for byte in room.iter_mut() {
        let (read, after) = pair_at(rest)?;
        *byte = read;
        rest = after;
    }
    Some(rest)
}

/// The bytes of all pairs of digits at the front, and the text behind them.
pub fn take_run(alloc: Global, text: &[u8]) -> Result<(Vec<u8>, &[u8]), OutOfMemory>
    ensures { IfOk result (λ p. (p.0.items, p.1.now) ≡ run_in text.now) }
{
    let mut bytes = Vec::new(alloc);
    let mut rest = text;
    while let [first, second, after @ ..] = rest {
        let Some(byte) = byte_of(*first, *second) else {
            return Ok((bytes, rest));
        };
        bytes.push(byte)?;
        rest = after;
    }
    Ok((bytes, rest))
}

/// Appends the digits of bytes.
pub fn push_digits(bytes: &[u8], out: &mut Vec<u8>) -> Result<(), AllocError>
    ensures { OnOk result (out.new.items ≡ out.old.items ++ hex bytes.now) }
{
    let digits = hex::encode(*out.allocator(), bytes)?;
    out.extend_from_slice(digits.as_bytes())
}

/// The digits of bytes, as a text of their own.
pub fn digits(alloc: Global, bytes: &[u8]) -> Result<String, OutOfMemory>
    ensures { IfOk result (λ text. string_bytes text ≡ hex bytes.now) }
{
    Ok(hex::encode(alloc, bytes)?)
}

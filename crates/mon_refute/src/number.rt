//! Words of a line at the front of a text.

ghost use Rattle.std.specs.Prelude.{◌≡◌, MatchOption, decimal};
ghost use Rattle.mon_text.specs.Numbers.{FitsNumber, NoneAt, FoundAt};
ghost use Rattle.mon_refute.specs.Reading.{word_text, FitsWord};

use mon_text::{behind, number_at};

/// A number or its negative, as a word of a line.
#[derive(Clone, Copy)]
pub struct Word {
    pub positive: bool,
    pub number: u64,
}

/// The word of this sign whose number stands at the front.
fn signed_at(positive: bool, bytes: &[u8]) -> Option<(Word, &[u8])>
    ensures { MatchOption result (NoneAt decimal FitsNumber bytes.now) (λ x. (x.0.positive ≡ positive) × FoundAt decimal FitsNumber bytes.now x.0.number x.1.now) }
{
    match number_at(bytes) {
        None => None,
        Some((number, rest)) => Some((Word { positive, number }, rest)),
    }
}

/// The word at the front: a space, a sign where it is negative, and its number.
pub fn word_at(bytes: &[u8]) -> Option<(Word, &[u8])>
    ensures { MatchOption result (NoneAt word_text FitsWord bytes.now) (λ x. FoundAt word_text FitsWord bytes.now x.0 x.1.now) }
{
    let Some(signed) = behind(b" ", bytes) else {
        return None;
    };
    match behind(b"-", signed) {
        None => signed_at(true, signed),
        Some(rest) => signed_at(false, rest),
    }
}

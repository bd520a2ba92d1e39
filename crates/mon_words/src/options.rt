//! Options, and the numbers that they take.

ghost use Rattle.std.specs.Prelude.{◌≡◌, ◌&&◌, Some, None, decimal, MatchOption};
ghost use Rattle.std.specs.Str.{bytes_eq};
ghost use Rattle.mon_words.specs.Options.{least, most};
ghost use Rattle.mon_words.specs.Reading.{kind_of, takes, number_of, parts_of, joined_of};

use crate::argument::{Argument, Kind};
use itoa::Buffer;

/// The option of a word.
pub(crate) fn kind_of(word: &str) -> Option<Kind>
    ensures { result ≡ kind_of word.now }
{
    match word {
        "--workers" => Some(Kind::Workers),
        "--generate" => Some(Kind::Generate),
        "--seed" => Some(Kind::Seed),
        _ => None,
    }
}

fn least(kind: Kind) -> u32
    ensures { result ≡ least kind }
{
    match kind {
        Kind::Workers | Kind::Generate => 1,
        Kind::Seed => 0,
    }
}

fn most(kind: Kind) -> u32
    ensures { result ≡ most kind }
{
    match kind {
        Kind::Workers => 64,
        Kind::Generate => 4096,
        Kind::Seed => 65535,
    }
}

/// Whether the option takes the number.
fn takes(kind: Kind, n: u32) -> bool
    ensures { result ≡ takes kind n }
{
    least(kind) <= n && n <= most(kind)
}

/// Whether the option takes the number, and the text is it in decimal digits without a leading zero.
fn is_number(kind: Kind, n: u32, text: &str) -> bool
    ensures { result ≡ takes kind n && bytes_eq (decimal n) text.now }
{
    let mut buffer = Buffer::new();
    takes(kind, n) && buffer.format(n) == text
}

/// The number that a text spells, where the option takes it.
pub(crate) fn number_of(kind: Kind, text: &str) -> Option<u32>
    ensures { result ≡ number_of kind text.now }
{
    match text.parse::<u32>() {
        Ok(n) => {
            if is_number(kind, n, text) {
                Some(n)
            } else {
                None
            }
        }
        Err(_) => None,
    }
}

/// What stands before the first `=` of a word, and what stands after it.
fn parts_of(word: &str) -> Option<(&str, &str)>
    ensures { MatchOption result (parts_of word.now ≡ None) (λ x. parts_of word.now ≡ Some (x.0.now, x.1.now)) }
{
    word.split_once('=')
}

/// The option and the number of one word.
pub(crate) fn joined_of(word: &str) -> Option<Argument>
    ensures { result ≡ joined_of word.now }
{
    match parts_of(word) {
        None => None,
        Some((option, text)) => {
            let kind = kind_of(option)?;
            let n = number_of(kind, text)?;
            Some(Argument::Number(kind, n))
        }
    }
}

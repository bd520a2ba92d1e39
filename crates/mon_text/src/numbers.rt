//! Decimal numbers at the front of a text.

ghost use Rattle.std.specs.Prelude.{◌≡◌, ◌<◌, ◌≤◌, ◌^◌, take, drop, length, MatchOption, MatchBool, option_map, decimal};
ghost use Rattle.std.specs.Str.Parse.{AllDigits, digits_value};
ghost use Rattle.mon_text.specs.Numbers.{NoDigit, FitsNumber, IsPlain, NoneAt, FoundAt, number_in};

/// How many decimal digits stand at the front.
fn digits_len(bytes: &[u8]) -> usize
    ensures within { result ≤ length bytes.now }
    ensures digits { AllDigits 10 (take result bytes.now) }
    ensures ends { NoDigit (drop result bytes.now) }
{
    for (i, byte) in bytes.iter().enumerate() {
        if *byte < b'0' || *byte > b'9' {
            return i;
        }
    }
    bytes.len()
}

/// Whether there are digits, and no zero leads them.
fn is_plain(digits: &[u8]) -> bool
    ensures { MatchBool result (IsPlain digits.now) (IsPlain digits.now → ⊥) }
{
    if digits.is_empty() {
        return false;
    }
    if digits[0] != b'0' {
        return true;
    }
    digits.len() == 1
}

/// The number that digits stand for, or nothing from 2^64 on.
fn value_of(digits: &[u8]) -> Option<u64>
    requires { AllDigits 10 digits.now }
    ensures { MatchOption result (2 ^ 64 ≤ digits_value 10 digits.now) (λ n. n ≡ digits_value 10 digits.now) }
{
    let mut value: u64 = 0;
    for digit in digits {
        let Some(tens) = value.checked_mul(10) else {
            return None;
        };
        let Some(next) = tens.checked_add(u64::from(*digit - b'0')) else {
            return None;
        };
        value = next;
    }
    Some(value)
}

/// The number that is spelled at the front, and the bytes behind it.
fn spelled_at(bytes: &[u8]) -> Option<(u64, &[u8])>
    ensures { MatchOption result (NoneAt decimal FitsNumber bytes.now) (λ x. FoundAt decimal FitsNumber bytes.now x.0 x.1.now) }
{
    let (digits, rest) = bytes.split_at(digits_len(bytes));
    if !is_plain(digits) {
        return None;
    }
    match value_of(digits) {
        None => None,
        Some(value) => Some((value, rest)),
    }
}

/// The number below 2^64 that stands at the front, without leading zeros and up to a byte that is no digit, and the
/// bytes behind it. Nothing where there is none.
pub fn number_at(bytes: &[u8]) -> Option<(u64, &[u8])>
    ensures spelled { MatchOption result (NoneAt decimal FitsNumber bytes.now) (λ x. FoundAt decimal FitsNumber bytes.now x.0 x.1.now) }
    ensures value { option_map (λ x. (x.0, x.1.now)) result ≡ number_in bytes.now }
{
    spelled_at(bytes)
}

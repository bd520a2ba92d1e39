//! The bytes of pieces in lower hexadecimal digits.

ghost use Rattle.std.specs.Prelude.{◌≡◌, ◌+◌, ◌*◌, ◌≤◌, OnOk, length};
ghost use Rattle.mon_text.specs.Hex.{unhex};
ghost use Rattle.mon_text.specs.Reads.{Reads};
ghost use Rattle.mon_trace.specs.Reading.{onto};

use mon_text::{TextFault, byte_of};

/// Appends the bytes that pairs of digits say. After an error some of them may have been appended.
pub(crate) fn push_bytes(digits: &[u8], out: &mut Vec<u8>) -> Result<(), TextFault>
    ensures value { Reads (λ _. out.new.items) result (onto out.old.items (unhex digits.now)) }
    ensures longer { length out.old.items ≤ length out.new.items }
    ensures half { OnOk result (2 * length out.new.items ≡ 2 * length out.old.items + length digits.now) }
{
    out.reserve(digits.len() / 2)?;
    let mut rest = digits;
    while let [first, second, after @ ..] = rest {
        let Some(byte) = byte_of(*first, *second) else {
            return Err(TextFault::Bad);
        };
        out.push(byte)?;
        rest = after;
    }
    if !rest.is_empty() {
        return Err(TextFault::Bad);
    }
    Ok(())
}

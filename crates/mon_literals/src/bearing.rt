//! Headers out of values.

ghost use Rattle.std.specs.Prelude.{◌≡◌, ◌≤◌, length};
ghost use Rattle.mon_cnf.specs.Truth.{values_of};
ghost use Rattle.mon_header.specs.Matching.{InRange};
ghost use Rattle.mon_header.specs.Places.{header_size};
ghost use Rattle.mon_literals.specs.Bearing.{borne};

use mon_header::{HEADER_BITS, Header, from_bits};

/// The header whose bits are the first `HEADER_BITS` values, in their order. Its numbers are within range.
pub fn borne(values: &[bool]) -> Header
    requires { header_size ≤ length values.now }
    ensures value { result ≡ borne (values_of values.now) }
    ensures range { InRange result }
{
    let mut bits = [false; HEADER_BITS as usize];
    bits.copy_from_slice(&values[..HEADER_BITS as usize]);
    from_bits(&bits)
}

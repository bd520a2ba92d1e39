//! Numbers at fixed places in bytes, the highest byte first.
//!
//! Each function reads the field of its width that starts at a place, counted in bytes from 0. The field must lie within
//! the bytes. None takes memory.
#![tactic(auto)]

#[cfg(test)]
mod tests;

ghost use Rattle.std.specs.Prelude.{◌≡◌, ◌≤◌, ◌<◌, ◌^◌, ◌+◌, length};
ghost use Rattle.mon_fields.specs.Fields.{number_at};

use byteorder::{BigEndian, ByteOrder};

/// The number in the 2 bytes from a place.
pub fn u16_at(bytes: &[u8], place: usize) -> u16
    requires { place + 2 ≤ length bytes.now }
    ensures { result ≡ number_at 2 place bytes.now }
{
    BigEndian::read_u16(&bytes[place..])
}

/// The number in the 4 bytes from a place.
pub fn u32_at(bytes: &[u8], place: usize) -> u32
    requires { place + 4 ≤ length bytes.now }
    ensures { result ≡ number_at 4 place bytes.now }
{
    BigEndian::read_u32(&bytes[place..])
}

/// The number in the 6 bytes from a place, as an Ethernet address, which is below 2^48.
pub fn u48_at(bytes: &[u8], place: usize) -> u64
    requires { place + 6 ≤ length bytes.now }
    ensures value { result ≡ number_at 6 place bytes.now }
    ensures small { result < 2 ^ 48 }
{
    BigEndian::read_u48(&bytes[place..])
}

/// The number in the 8 bytes from a place.
pub fn u64_at(bytes: &[u8], place: usize) -> u64
    requires { place + 8 ≤ length bytes.now }
    ensures { result ≡ number_at 8 place bytes.now }
{
    BigEndian::read_u64(&bytes[place..])
}

//! What a probe carries.

ghost use Rattle.std.specs.Prelude.{◌≡◌};
ghost use Rattle.mon_packet.specs.Frames.{payload};
ghost use Rattle.mon_packet.specs.Reading.{nonce_of};

use byteorder::{BigEndian, ByteOrder};
use mon_fields::u64_at;

/// `MONOCLE1`, as a number.
const MARK: u64 = 0x4d4f4e4f434c4531;

/// The number of a probe: the key of its run, and its serial in that run.
#[derive(Clone, Copy, Debug, PartialEq, Eq)]
pub struct Nonce {
    pub key: u64,
    pub serial: u64,
}

/// The 24 bytes of a probe's payload.
#[tactic(auto, unfolding(crate::specs::Frames::payload))]
pub fn payload(n: Nonce) -> [u8; 24]
    ensures { result ≡ payload n }
{
    let mut out = [0; 24];
    BigEndian::write_u64(&mut out, MARK);
    BigEndian::write_u64(&mut out[8..], n.key);
    BigEndian::write_u64(&mut out[16..], n.serial);
    out
}

/// The nonce of a payload, where the mark is there with 16 bytes behind it.
#[tactic(auto, unfolding(crate::specs::Reading::nonce_of))]
pub fn nonce_of(payload: &[u8]) -> Option<Nonce>
    ensures { result ≡ nonce_of payload.now }
{
    if payload.len() >= 24 && u64_at(payload, 0) == MARK {
        Some(Nonce {
            key: u64_at(payload, 8),
            serial: u64_at(payload, 16),
        })
    } else {
        None
    }
}

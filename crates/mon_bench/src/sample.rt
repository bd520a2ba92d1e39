//! The rules and the packets that are measured.

ghost use Rattle.std.specs.Prelude.{◌<◌, ◌^◌};

use mon_header::{Header, Match, OutOfMemory};
use mon_samples::{PACKET, sending};
use mon_table::Rule;
use std::alloc::Global;
use std::rt::Clock;
use std::time::Instant;

/// The number at a turn, where turns go over all numbers below the size by one step.
pub fn number_at(turn: u16, step: u32, size: u16) -> u16
    requires { 0 < size }
{
    (u64::from(turn).wrapping_mul(u64::from(step)) % u64::from(size)) as u16
}

/// The number at a turn, where turns go over all numbers below the size as if in no order.
pub fn shuffled(turn: u16, size: u16) -> u16
    requires { 0 < size }
{
    number_at(turn, 7919, size)
}

/// A datagram that comes in at port 1 with the tag 100, to the address of a number.
pub fn packet(number: u16) -> Header
    ensures { (result.dl_src < 2 ^ 48) × (result.dl_dst < 2 ^ 48) }
{
    Header {
        nw_dst: 0x0a000000 + u32::from(number),
        ..PACKET
    }
}

/// The match that takes IPv4 to the one address of a number.
pub fn address(number: u16) -> Match {
    Match::normal(0x003020ef, packet(number))
}

/// The rule that sends IPv4 to the one address of a number out at port 2.
pub fn rule(alloc: Global, number: u16, priority: u16) -> Result<Rule, OutOfMemory> {
    sending(alloc, address(number), priority, &[2])
}

/// The nanoseconds since a start, for each of some calls.
pub fn each(rt: &impl Clock, start: &Instant, calls: u16) -> anyhow::Result<u64> {
    let passed = start.elapsed(rt)?.as_nanos();
    let passed = u64::try_from(passed).unwrap_or(u64::MAX);
    Ok(passed / u64::from(calls.max(1)))
}

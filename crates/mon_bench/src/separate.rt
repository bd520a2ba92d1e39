//! Times of separation and of probe frames.

ghost use Rattle.std.specs.Prelude.{◌<◌};

use crate::sample::{each, packet, rule, shuffled};
use mon_header::OutOfMemory;
use mon_outcome::Emission;
use mon_packet::{Nonce, in_class, parse, render};
use mon_samples::two_neighbours;
use mon_shows::{Target, View, separates};
use mon_table::Table;
use std::alloc::Global;
use std::rt::Clock;
use std::time::Instant;

/// The table of this many rules of one priority.
fn table(alloc: Global, size: u16) -> Result<Table, OutOfMemory> {
    let mut table = Table::new(alloc);
    for number in 0..size {
        let _ = table.put(rule(alloc, number, 100)?)?;
    }
    Ok(table)
}

/// The nanoseconds that `separates` takes for the put of the rule of a number, and whether its packet shows it.
fn one(
    rt: &impl Clock,
    alloc: Global,
    view: &View,
    table: &Table,
    number: u16,
) -> anyhow::Result<(u64, bool)> {
    let target = Target::Put {
        rule: rule(alloc, number, 100)?,
        old: None,
    };
    let header = packet(number);
    let emission = Emission::Port(2, header);
    let start = Instant::now(rt)?;
    let shows = separates(view, table, &target, &header, &emission);
    Ok((each(rt, &start, 1)?, shows))
}

/// Times `separates` over a table of this many rules, for the put of a rule among them.
fn separation(rt: &(impl Clock + Print), alloc: Global, size: u16) -> anyhow::Result<()>
    requires { 0 < size }
{
    let table = table(alloc, size)?;
    let view = two_neighbours(alloc)?;
    let mut seen: u32 = 0;
    let mut passed: u64 = 0;
    for turn in 0..512_u16 {
        let (nanoseconds, shows) = one(rt, alloc, &view, &table, shuffled(turn, size))?;
        passed = passed.wrapping_add(nanoseconds);
        seen = seen.wrapping_add(u32::from(shows));
    }
    let one = passed / 512;
    println!(rt; "{size:>5} rules: separates {one:>8} ns a call, true for {seen} of 512")?;
    Ok(())
}

/// Frames of probes to so many addresses.
fn rendered(alloc: Global, calls: u16) -> Result<Vec<Vec<u8>>, OutOfMemory> {
    let mut frames = Vec::new(alloc);
    for number in 0..calls {
        let header = packet(number);
        if in_class(&header) {
            let nonce = Nonce {
                key: 1,
                serial: u64::from(number),
            };
            frames.push(render(alloc, &header, nonce)?)?;
        }
    }
    Ok(frames)
}

/// How many of these frames are read.
fn read(frames: &[Vec<u8>]) -> u32 {
    let mut seen: u32 = 0;
    for frame in frames {
        if parse(frame).is_some() {
            seen = seen.wrapping_add(1);
        }
    }
    seen
}

/// Times the frames of probes.
fn frames(rt: &(impl Clock + Print), alloc: Global) -> anyhow::Result<()> {
    let calls: u16 = 16_384;
    let start = Instant::now(rt)?;
    let frames = rendered(alloc, calls)?;
    let one = each(rt, &start, calls)?;
    println!(rt; "render {one:>8} ns a frame")?;
    let start = Instant::now(rt)?;
    let seen = read(&frames);
    let one = each(rt, &start, calls)?;
    println!(rt; "parse  {one:>8} ns a frame, {seen} of {calls} read")?;
    Ok(())
}

/// Times separation over a table of this many rules, and the frames of probes where the size is 0.
pub fn time(rt: &(impl Clock + Print), alloc: Global, size: u16) -> anyhow::Result<()> {
    if size == 0 {
        return frames(rt, alloc);
    }
    separation(rt, alloc, size)
}

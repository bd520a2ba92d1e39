//! Times of a table's calls.

ghost use Rattle.std.specs.Prelude.{◌<◌};

use crate::sample::{address, each, number_at, packet, rule, shuffled};
use mon_header::OutOfMemory;
use mon_table::{Rule, Table};
use std::alloc::Global;
use std::rt::Clock;
use std::time::Instant;

/// The priority of a number: 64 rules share each.
fn priority(number: u16) -> u16 {
    65000 - number / 64
}

/// Prints what one call took.
fn print(rt: &(impl Clock + Print), start: &Instant, size: u16, name: &str) -> anyhow::Result<()> {
    let nanoseconds = each(rt, start, size)?;
    println!(rt; "{size:>5} rules {name:<14} {nanoseconds:>9} ns")?;
    Ok(())
}

/// The rules of all numbers below the size; in table order the numbers rise.
fn rules(alloc: Global, size: u16, step: u32) -> Result<Vec<Rule>, OutOfMemory>
    requires { 0 < size }
{
    let mut rules = Vec::new(alloc);
    for turn in 0..size {
        let number = number_at(turn, step, size);
        rules.push(rule(alloc, number, priority(number))?)?;
    }
    Ok(rules)
}

/// The table of these rules, put one after the other.
fn filled(alloc: Global, rules: Vec<Rule>) -> Result<Table, OutOfMemory> {
    let mut table = Table::new(alloc);
    for rule in rules {
        let _ = table.put(rule)?;
    }
    Ok(table)
}

/// Fills a table, and prints what a put took.
fn fill(
    rt: &(impl Clock + Print),
    alloc: Global,
    size: u16,
    step: u32,
    name: &str,
) -> anyhow::Result<Table>
    requires { 0 < size }
{
    let rules = rules(alloc, size, step)?;
    let start = Instant::now(rt)?;
    let table = filled(alloc, rules)?;
    print(rt, &start, size, name)?;
    Ok(table)
}

/// Finds each rule, and counts those that are found.
fn places(table: &Table, size: u16) -> u64
    requires { 0 < size }
{
    let mut seen: u64 = 0;
    for turn in 0..size {
        let number = shuffled(turn, size);
        if table.place(&address(number), priority(number)).is_some() {
            seen = seen.wrapping_add(1);
        }
    }
    seen
}

/// Looks up a packet of each rule, and counts the winners.
fn winners(alloc: Global, table: &Table, size: u16) -> Result<u64, OutOfMemory>
    requires { 0 < size }
{
    let mut seen: u64 = 0;
    for turn in 0..size {
        let found = table.winners(alloc, &packet(shuffled(turn, size)))?;
        seen = seen.wrapping_add(found.len() as u64);
    }
    Ok(seen)
}

/// Takes the slice of each rule's match, and counts the rules in them.
fn slices(alloc: Global, table: &Table, size: u16) -> Result<u64, OutOfMemory>
    requires { 0 < size }
{
    let mut seen: u64 = 0;
    for turn in 0..size {
        let part = table.slice(alloc, &address(shuffled(turn, size)))?;
        seen = seen.wrapping_add(u64::from(part.len()));
    }
    Ok(seen)
}

/// Cuts each rule, and counts those that were there.
fn cuts(table: &mut Table, size: u16) -> Result<u64, OutOfMemory>
    requires { 0 < size }
{
    let mut seen: u64 = 0;
    for turn in 0..size {
        let number = shuffled(turn, size);
        if table.cut(&address(number), priority(number))?.is_some() {
            seen = seen.wrapping_add(1);
        }
    }
    Ok(seen)
}

/// Times each call over a table of this many rules: nanoseconds for one.
pub fn time(rt: &(impl Clock + Print), alloc: Global, size: u16) -> anyhow::Result<()>
    requires { 0 < size }
{
    let _ = fill(rt, alloc, size, 1, "put rising")?;
    let _ = fill(rt, alloc, size, u32::from(size) - 1, "put falling")?;
    let mut table = fill(rt, alloc, size, 7919, "put shuffled")?;
    let start = Instant::now(rt)?;
    let mut seen = places(&table, size);
    print(rt, &start, size, "place")?;
    let start = Instant::now(rt)?;
    seen = seen.wrapping_add(winners(alloc, &table, size)?);
    print(rt, &start, size, "winners")?;
    let start = Instant::now(rt)?;
    seen = seen.wrapping_add(slices(alloc, &table, size)?);
    print(rt, &start, size, "slice")?;
    let start = Instant::now(rt)?;
    seen = seen.wrapping_add(cuts(&mut table, size)?);
    print(rt, &start, size, "cut")?;
    println!(rt; "{size:>5} rules {:<14} {seen:>9}", "answers")?;
    Ok(())
}

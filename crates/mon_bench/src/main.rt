//! Measurements, as words ask; `bench/` has the scripts that give them. Without words it prints nothing.
//!
//! `table N` times a table of N rules, `separate N` separation over N rules (N of 0: the frames of probes), and
//! `solver KIND SIZE [SEED]` the solver; `frames all` prints probe frames, and `cases N [SEED]` the size of the clauses of a
//! generated table.
#![tactic(auto)]

mod cases;
mod formulas;
mod frames;
mod sample;
mod separate;
mod solver;
mod table;

use std::env;

/// The number that a word spells, 0 where it spells none.
fn number(word: Option<&String>) -> u64 {
    match word {
        Some(word) => word.as_str().parse::<u64>().unwrap_or(0),
        None => 0,
    }
}

fn main(rt: HostRuntime) -> anyhow::Result<()> {
    let mut words = Vec::new(rt.alloc());
    for word in env::args(&rt)?.skip(1) {
        words.push(word)?;
    }
    let [subject, kind, rest @ ..] = words.as_slice() else {
        return Ok(());
    };
    match subject.as_str() {
        "table" => {
            let size = number(Some(kind)).min(65_535) as u16;
            if size > 0 {
                table::time(&rt, rt.alloc(), size)?;
            }
        }
        "cases" => {
            let n = number(Some(kind)).min(4096) as u32;
            cases::measure(&rt, n, number(rest.first()).min(65_535) as u32)?;
        }
        "frames" => frames::print(&rt, rt.alloc())?,
        "separate" => separate::time(&rt, rt.alloc(), number(Some(kind)).min(65_535) as u16)?,
        "solver" => {
            let size = number(rest.first()).min(u64::from(u32::MAX)) as u32;
            solver::run(&rt, kind.as_str(), size, number(rest.get(1)))?;
        }
        _ => println!(rt; "unknown subject {subject}")?,
    }
    Ok(())
}

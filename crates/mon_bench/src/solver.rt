//! What the plain solver needs for formulas of each kind.

use crate::formulas;
use mon_cnf::{Formula, holds};
use mon_plain::{Outcome, solve_plain};
use mon_refute::accepts;
use std::rt::Runtime;
use std::time::Instant;

/// Solves one formula and prints the answer, the lines of its log, and the milliseconds of solving and of checking the
/// answer. `dimacs` prints a random formula in the format of the SAT competitions, and `answer` its answer in theirs.
pub fn run<R: Runtime + AllocGlobal>(
    rt: &R,
    kind: &str,
    size: u32,
    seed: u64,
) -> anyhow::Result<()> {
    let alloc = rt.alloc();
    let f = match kind {
        "chain" => formulas::chain(alloc, size)?,
        "back" => formulas::chain_backwards(alloc, size)?,
        "open" => formulas::open_chain(alloc, size)?,
        "pigeons" => formulas::pigeons(alloc, size)?,
        _ => formulas::random(alloc, size, seed)?,
    };
    match kind {
        "dimacs" => print_dimacs(rt, &f),
        "answer" => print_answer(rt, &f),
        _ => measure(rt, &f),
    }
}

fn measure<R: Runtime + AllocGlobal>(rt: &R, f: &Formula) -> anyhow::Result<()> {
    let alloc = rt.alloc();
    let begun = Instant::now(rt)?;
    let outcome = solve_plain(alloc, f)?;
    let solved = begun.elapsed(rt)?.as_millis();
    let begun = Instant::now(rt)?;
    match outcome {
        Outcome::Model(values) => {
            let right = values.items().len() == f.vars() as usize && holds(f, values.items());
            let checked = begun.elapsed(rt)?.as_millis();
            println!(rt; "model {right} lines 0 solved {solved} ms checked {checked} ms")?;
        }
        Outcome::Refuted(log) => {
            let mut marks = vec![in alloc; 0u8; f.vars() as usize]?;
            let right = marks.len() == f.vars() as usize && accepts(f, &log, &mut marks);
            let checked = begun.elapsed(rt)?.as_millis();
            let lines = log.items().len();
            println!(rt; "refuted {right} lines {lines} solved {solved} ms checked {checked} ms")?;
        }
    }
    Ok(())
}

fn print_dimacs<R: Runtime + AllocGlobal>(rt: &R, f: &Formula) -> anyhow::Result<()> {
    println!(rt; "p cnf {} {}", f.vars(), f.clauses().len())?;
    for clause in f.clauses() {
        for literal in clause.items() {
            let number = u64::from(literal.var) + 1;
            if literal.positive {
                print!(rt; "{number} ")?;
            } else {
                print!(rt; "-{number} ")?;
            }
        }
        println!(rt; "0")?;
    }
    Ok(())
}

fn print_answer<R: Runtime + AllocGlobal>(rt: &R, f: &Formula) -> anyhow::Result<()> {
    match solve_plain(rt.alloc(), f)? {
        Outcome::Refuted(_) => println!(rt; "s UNSATISFIABLE")?,
        Outcome::Model(values) => {
            println!(rt; "s SATISFIABLE")?;
            print!(rt; "v")?;
            for (var, value) in values.items().iter().enumerate() {
                if *value {
                    print!(rt; " {}", var as u64 + 1)?;
                } else {
                    print!(rt; " -{}", var as u64 + 1)?;
                }
            }
            println!(rt; " 0")?;
        }
    }
    Ok(())
}

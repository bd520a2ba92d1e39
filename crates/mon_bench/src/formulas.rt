//! Formulas to measure solvers by.

ghost use Rattle.std.specs.Prelude.{IfOk};
ghost use Rattle.mon_cnf.specs.Truth.{Within};

use mon_cnf::{Clause, Formula, Lit, OutOfMemory};
use std::alloc::Global;

/// The clause of these literals, without those of no variable.
fn clause(alloc: Global, vars: u32, literals: &[Lit]) -> Result<Clause, OutOfMemory>
    ensures { IfOk result (Within vars) }
{
    let mut clause = Clause::new(alloc);
    for literal in literals {
        if literal.var < vars {
            clause.push(*literal)?;
        }
    }
    Ok(clause)
}

fn add(alloc: Global, f: &mut Formula, literals: &[Lit]) -> Result<(), OutOfMemory> {
    let vars = f.vars();
    f.push(clause(alloc, vars, literals)?)
}

fn yes(var: u32) -> Lit {
    Lit {
        var,
        positive: true,
    }
}

fn no(var: u32) -> Lit {
    Lit {
        var,
        positive: false,
    }
}

/// The first variable, each variable's implication of the next, and not the last: no values satisfy it.
pub fn chain(alloc: Global, vars: u32) -> Result<Formula, OutOfMemory> {
    let mut f = Formula::new(alloc, vars);
    add(alloc, &mut f, &[yes(0)])?;
    for var in 1..vars {
        add(alloc, &mut f, &[no(var - 1), yes(var)])?;
    }
    add(alloc, &mut f, &[no(vars.saturating_sub(1))])?;
    Ok(f)
}

/// The same chain with its clauses in the other order.
pub fn chain_backwards(alloc: Global, vars: u32) -> Result<Formula, OutOfMemory> {
    let mut f = Formula::new(alloc, vars);
    add(alloc, &mut f, &[no(vars.saturating_sub(1))])?;
    for step in 1..vars {
        let var = vars - step;
        add(alloc, &mut f, &[no(var - 1), yes(var)])?;
    }
    add(alloc, &mut f, &[yes(0)])?;
    Ok(f)
}

/// A chain of implications without its ends, which some values satisfy.
pub fn open_chain(alloc: Global, vars: u32) -> Result<Formula, OutOfMemory> {
    let mut f = Formula::new(alloc, vars);
    for var in 1..vars {
        add(alloc, &mut f, &[no(var - 1), yes(var)])?;
    }
    Ok(f)
}

/// One pigeon more than holes, of which there are at most 100: each pigeon is in a hole, and no two are in one.
pub fn pigeons(alloc: Global, holes: u32) -> Result<Formula, OutOfMemory> {
    let holes = holes.min(100);
    let mut f = Formula::new(alloc, (holes + 1) * holes);
    for pigeon in 0..holes + 1 {
        let mut literals = Vec::new(alloc);
        for hole in 0..holes {
            literals.push(yes(place(pigeon, hole, holes)))?;
        }
        add(alloc, &mut f, &literals)?;
    }
    for hole in 0..holes {
        for pigeon in 0..holes + 1 {
            for other in pigeon + 1..holes + 1 {
                add(
                    alloc,
                    &mut f,
                    &[
                        no(place(pigeon, hole, holes)),
                        no(place(other, hole, holes)),
                    ],
                )?;
            }
        }
    }
    Ok(f)
}

/// The variable that says that a pigeon is in a hole.
fn place(pigeon: u32, hole: u32, holes: u32) -> u32 {
    pigeon.wrapping_mul(holes).wrapping_add(hole)
}

/// The next number of a sequence that looks random (Knuth's MMIX generator).
fn next(state: u64) -> u64 {
    state
        .wrapping_mul(6364136223846793005)
        .wrapping_add(1442695040888963407)
}

/// 43 clauses of three random literals for each ten variables, at least one variable.
pub fn random(alloc: Global, vars: u32, seed: u64) -> Result<Formula, OutOfMemory> {
    let vars = vars.max(1);
    let mut f = Formula::new(alloc, vars);
    let mut state = next(seed);
    for _ in 0..u64::from(vars) * 43 / 10 {
        let mut literals = [yes(0), yes(0), yes(0)];
        for literal in literals.iter_mut() {
            state = next(state);
            let high = (state >> 33) as u32;
            *literal = Lit {
                var: (high >> 1) % vars,
                positive: high & 1 == 1,
            };
        }
        add(alloc, &mut f, &literals)?;
    }
    Ok(f)
}

//! Small formulas with known answers, and random ones under all assignments.

use super::*;
use mon_cnf::{Formula, clause_of, holds};
use mon_refute::accepts;
use std::alloc::Global;
use std::test::*;

fn formula(alloc: Global, vars: u32, clauses: &[&[i32]]) -> Result<Formula, OutOfMemory> {
    let mut f = Formula::new(alloc, vars);
    for literals in clauses {
        let vars = f.vars();
        f.push(clause_of(alloc, vars, literals)?)?;
    }
    Ok(f)
}

/// The variables, the clauses, and whether some values satisfy them.
const FORMULAS: [(u32, &[&[i32]], bool); 12] = [
    // Three pigeons in two holes: variable 2 p + h + 1 says that pigeon p is in hole h.
    (
        6,
        &[
            &[1, 2],
            &[3, 4],
            &[5, 6],
            &[-1, -3],
            &[-1, -5],
            &[-3, -5],
            &[-2, -4],
            &[-2, -6],
            &[-4, -6],
        ],
        false,
    ),
    // Two pigeons in three holes.
    (
        6,
        &[&[1, 2, 3], &[4, 5, 6], &[-1, -4], &[-2, -5], &[-3, -6]],
        true,
    ),
    // No clause, with and without variables, and an empty clause.
    (0, &[], true),
    (3, &[], true),
    (0, &[&[]], false),
    (2, &[&[1], &[]], false),
    // One variable both ways.
    (1, &[&[1], &[-1]], false),
    (1, &[&[1, -1]], true),
    // A literal twice.
    (1, &[&[1, 1], &[-1, -1]], false),
    // Chains of implications.
    (4, &[&[-1, 2], &[-2, 3], &[-3, 4], &[1], &[-4]], false),
    (4, &[&[-1, 2], &[-2, 3], &[-3, 4], &[1]], true),
    // All four clauses of two variables.
    (2, &[&[1, 2], &[1, -2], &[-1, 2], &[-1, -2]], false),
];

/// Whether the answer is that the formula is satisfiable, where it is right.
fn answer(alloc: Global, f: &Formula) -> Result<Option<bool>, OutOfMemory> {
    match solve(alloc, f, &mut Never { floor: 0 })? {
        Found::Model(values) => {
            if values.items().len() == f.vars() as usize && holds(f, values.items()) {
                return Ok(Some(true));
            }
        }
        Found::Refuted(log) => {
            let mut marks = vec![in alloc; 0u8; f.vars() as usize]?;
            if accepts(f, &log, &mut marks) {
                return Ok(Some(false));
            }
        }
        Found::Stopped(_) => {}
    }
    Ok(None)
}

#[test]
fn decides(rt: HostRuntime) {
    for (vars, clauses, satisfiable) in FORMULAS {
        let f = formula(rt.alloc(), vars, clauses).expect(&rt, "memory");
        let answer = answer(rt.alloc(), &f).expect(&rt, "memory");
        assert_eq!(rt; answer, Some(satisfiable));
    }
}

/// The next number of a plain generator.
fn next(state: &mut u64) -> u64 {
    *state = state
        .wrapping_mul(6364136223846793005)
        .wrapping_add(1442695040888963407);
    *state >> 33
}

/// A random literal of 10 variables, as a number.
fn literal(state: &mut u64) -> i32 {
    let drawn = next(state);
    let var = (drawn / 2 % 10) as i32 + 1;
    if drawn % 2 == 0 { var } else { -var }
}

/// A random formula of clauses of three literals.
fn random(alloc: Global, count: u32, state: &mut u64) -> Result<Formula, OutOfMemory> {
    let mut f = Formula::new(alloc, 10);
    for _ in 0..count {
        let numbers = [literal(state), literal(state), literal(state)];
        let vars = f.vars();
        f.push(clause_of(alloc, vars, &numbers)?)?;
    }
    Ok(f)
}

/// Whether some assignment of 10 variables satisfies the formula.
fn is_satisfiable(f: &Formula) -> bool {
    for number in 0..1024u32 {
        let mut values = [false; 10];
        for (place, value) in values.iter_mut().enumerate() {
            *value = number >> place & 1 == 1;
        }
        if f.vars() == 10 && holds(f, &values) {
            return true;
        }
    }
    false
}

#[test]
fn agrees_with_all_assignments(rt: HostRuntime) -> Result<(), Fail> {
    let alloc = rt.alloc();
    let mut state = 7;
    for round in 0..200u32 {
        let f = random(alloc, 30 + round % 40, &mut state)?;
        assert_eq!(rt;
            answer(alloc, &f)?,
            Some(is_satisfiable(&f)),
            "in round {round}"
        );
    }
    Ok(())
}

//! Small formulas with known answers.

use super::*;
use mon_cnf::{Clause, Formula, Lit, clause_of, holds};
use mon_refute::{Hints, Log, LogLine, accepts, read_log, write_log};
use std::alloc::Global;
use std::test::*;

fn formula(alloc: Global, vars: u32, clauses: &[&[i32]]) -> Result<Formula, OutOfMemory> {
    let mut f = Formula::new(alloc, vars);
    for literals in clauses {
        let vars = f.vars();
        f.push(clause_of(alloc, vars, literals)?)?;
    }
    Ok(f)
}

/// Four pigeons in three holes: variable 3 p + h + 1 says that pigeon p is in hole h.
const PIGEONS: [&[i32]; 22] = [
    &[1, 2, 3],
    &[4, 5, 6],
    &[7, 8, 9],
    &[10, 11, 12],
    &[-1, -4],
    &[-1, -7],
    &[-1, -10],
    &[-4, -7],
    &[-4, -10],
    &[-7, -10],
    &[-2, -5],
    &[-2, -8],
    &[-2, -11],
    &[-5, -8],
    &[-5, -11],
    &[-8, -11],
    &[-3, -6],
    &[-3, -9],
    &[-3, -12],
    &[-6, -9],
    &[-6, -12],
    &[-9, -12],
];

const FORMULAS: [(u32, &[&[i32]], bool); 14] = [
    (12, &PIGEONS, false),
    // Two pigeons.
    (
        9,
        &[&[1, 2, 3], &[4, 5, 6], &[-1, -4], &[-2, -5], &[-3, -6]],
        true,
    ),
    // No clause, with and without variables, and an empty clause.
    (0, &[], true),
    (3, &[], true),
    (0, &[&[]], false),
    (2, &[&[1], &[]], false),
    // One variable both ways.
    (1, &[&[1]], true),
    (1, &[&[-1]], true),
    (1, &[&[1], &[-1]], false),
    (1, &[&[1, -1]], true),
    // A literal twice.
    (1, &[&[1, 1], &[-1, -1]], false),
    // Chains of implications.
    (4, &[&[-1, 2], &[-2, 3], &[-3, 4], &[1], &[-4]], false),
    (4, &[&[-1, 2], &[-2, 3], &[-3, 4], &[1]], true),
    // All four clauses of two variables.
    (2, &[&[1, 2], &[1, -2], &[-1, 2], &[-1, -2]], false),
];

#[test]
fn decides(rt: HostRuntime) {
    for (vars, clauses, satisfiable) in FORMULAS {
        let f = formula(rt.alloc(), vars, clauses).expect(&rt, "memory");
        match solve_plain(rt.alloc(), &f).expect(&rt, "memory") {
            Outcome::Model(values) => {
                assert!(rt; satisfiable);
                assert!(rt; values.items().len() == f.vars() as usize);
                assert!(rt; holds(&f, values.items()));
            }
            Outcome::Refuted(log) => {
                assert!(rt; !satisfiable);
                let mut marks = vec![in rt.alloc(); 0u8; f.vars() as usize].expect(&rt, "memory");
                assert!(rt; marks.len() == f.vars() as usize);
                assert!(rt; accepts(&f, &log, &mut marks));
                // Read back, it is accepted again.
                let text = write_log(rt.alloc(), &log).expect(&rt, "memory");
                let again = read_log(rt.alloc(), text.as_str()).expect(&rt, "a log");
                assert!(rt; accepts(&f, &again, &mut marks));
            }
        }
    }
}

/// What is changed of a log's first line.
#[derive(Clone, Copy, Debug, PartialEq, Eq)]
enum Change {
    Nothing,
    LastHintDropped,
    FirstLiteralTurned,
    LineRemoved,
}

/// The line, changed.
fn changed_line(alloc: Global, line: &LogLine, change: Change) -> Result<LogLine, OutOfMemory> {
    let mut literals = Clause::new(alloc);
    for (place, literal) in line.literals.items().iter().enumerate() {
        let turned = place == 0 && change == Change::FirstLiteralTurned;
        literals.push(Lit {
            var: literal.var,
            positive: literal.positive != turned,
        })?;
    }
    let dropped = usize::from(change == Change::LastHintDropped);
    let kept = line.hints.items().len().saturating_sub(dropped);
    let mut hints = Hints::new(alloc);
    for hint in line.hints.items().iter().take(kept) {
        if *hint > 0 {
            hints.push(*hint)?;
        }
    }
    Ok(LogLine { literals, hints })
}

/// The log with its first line changed.
fn changed_log(alloc: Global, log: &Log, change: Change) -> Result<Log, OutOfMemory> {
    let mut changed = Log::new(alloc);
    for (place, line) in log.items().iter().enumerate() {
        if place == 0 && change == Change::LineRemoved {
            continue;
        }
        let here = if place == 0 { change } else { Change::Nothing };
        changed.push(changed_line(alloc, line, here)?)?;
    }
    Ok(changed)
}

#[test]
fn changed_logs_of_the_solver_are_refused(rt: HostRuntime) -> Result<(), Fail> {
    let alloc = rt.alloc();
    let f = formula(alloc, 12, &PIGEONS)?;
    let Outcome::Refuted(log) = solve_plain(alloc, &f)? else {
        return Err(Fail::from("four pigeons have no place in three holes"));
    };
    let mut marks = vec![in alloc; 0u8; f.vars() as usize]?;
    assert!(rt; marks.len() == f.vars() as usize);
    for (change, accepted) in [
        (Change::Nothing, true),
        (Change::LastHintDropped, false),
        (Change::FirstLiteralTurned, false),
        (Change::LineRemoved, false),
    ] {
        let changed = changed_log(alloc, &log, change)?;
        assert_eq!(rt;
            accepts(&f, &changed, &mut marks),
            accepted,
            "at {change:?}"
        );
    }
    Ok(())
}

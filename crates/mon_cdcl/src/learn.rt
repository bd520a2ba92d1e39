//! What is learned of a conflict: a line of the log.

ghost use Rattle.std.specs.Prelude.{◌≡◌, IfOk, MatchOption, reverse};
ghost use Rattle.mon_trail.specs.declared.look.Mark.TheVariants.{Free, Is};
ghost use Rattle.mon_trail.specs.Marks.{mark_at};
ghost use Rattle.mon_cdcl.specs.Back.{Collected, Learned};

use crate::seen::Seen;
use mon_cnf::{Clause, Formula, Lit};
use mon_list::OutOfMemory;
use mon_refute::{Hints, LogLine};
use mon_trail::Mark;
use std::alloc::Global;

/// The value of a variable, if it is decided.
fn decided(marks: &[Mark], var: u32) -> Option<bool>
    ensures { MatchOption result (mark_at marks.now var ≡ Free) (λ b. mark_at marks.now var ≡ Is b) }
{
    match marks.get(var as usize) {
        None => None,
        Some(mark) => match *mark {
            Mark::Free => None,
            Mark::Is(value) => Some(value),
        },
    }
}

/// The false literals of the variables that are seen.
pub fn collect(alloc: Global, marks: &[Mark], seen: &Seen) -> Result<Clause, OutOfMemory>
    ensures { IfOk result (Collected marks.now seen.now.flags.items seen.now.vars.items) }
{
    let mut clause = Clause::new(alloc);
    for var in &seen.vars {
        if !seen.has(*var) {
            continue;
        }
        match decided(marks, *var) {
            None => continue,
            Some(value) => clause.push(Lit {
                var: *var,
                positive: !value,
            })?,
        }
    }
    Ok(clause)
}

/// The hints from the last to the first.
fn reversed(alloc: Global, hints: &Hints) -> Result<Hints, OutOfMemory>
    ensures { IfOk result (λ r. r ≡ reverse hints.now) }
{
    let items = hints.items();
    let mut out = Hints::new(alloc);
    let mut at = items.len();
    while at > 0 {
        at -= 1;
        out.push(items[at])?;
    }
    Ok(out)
}

/// Adds a line to the log, whose hints are given from the last to the first, and gives its number.
pub fn learn(
    alloc: Global,
    f: &Formula,
    log: &mut Vec<LogLine>,
    literals: Clause,
    hints: &Hints,
) -> Result<u64, OutOfMemory>
    ensures { IfOk result (Learned f.now.clauses log.old.items log.new.items literals hints.now) }
{
    let hints = reversed(alloc, hints)?;
    log.push(LogLine { literals, hints })?;
    Ok(f.clauses().len() as u64 + log.len() as u64)
}

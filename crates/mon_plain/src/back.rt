//! The way back from a conflict.

ghost use Rattle.std.specs.Prelude.{◌≡◌, length, IfOk};
ghost use Rattle.mon_plain.specs.Trail.{IsClosed, Stands, clauses_with};
ghost use Rattle.mon_plain.specs.Search.{BackedUp};

use crate::look::Mark;
use crate::pick::Entry;
use crate::resolve::{add_resolvent, clause_at, mentions};
use mon_cnf::{Formula, Lit};
use mon_list::OutOfMemory;
use mon_refute::LogLine;
use std::alloc::Global;

/// Where a conflict leads to.
#[derive(Clone, Copy)]
pub enum Back {
    /// The clause of this number is false with an empty trail.
    Refutes(u64),
    /// This literal is forced before the last decision that the conflict needs.
    Forces(Entry),
}

/// Takes the trail back to before the last decision that the conflict needs, and adds the lines that show it.
pub fn back_up(
    alloc: Global,
    f: &Formula,
    log: &mut Vec<LogLine>,
    marks: &mut [Mark],
    trail: &mut Vec<Entry>,
    conflict: u64,
) -> Result<Back, OutOfMemory>
    requires stands { Stands f.now log.old.items trail.old.items marks.old }
    requires closed { IsClosed (clauses_with f.now log.old.items) marks.old conflict }
    ensures { IfOk result (BackedUp f.now trail.old.items log.new.items trail.new.items marks.new) }
{
    let mut number = conflict;
    while let Some(entry) = trail.pop() {
        let var = entry.literal.var;
        marks[var as usize] = Mark::Free;
        if !mentions(clause_at(f, log, number), var) {
            continue;
        }
        match entry.reason {
            None => {
                return Ok(Back::Forces(Entry {
                    literal: Lit {
                        var,
                        positive: !entry.literal.positive,
                    },
                    reason: Some(number),
                }));
            }
            Some(reason) => {
                number = add_resolvent(alloc, f, log, reason, number, var)?;
            }
        }
    }
    Ok(Back::Refutes(number))
}

//! What a conflict comes from.

ghost use Rattle.std.specs.Prelude.{◌≡◌, [], length, IfOk};
ghost use Rattle.mon_trail.specs.Trail.{IsClosed, Stands, clauses_with};
ghost use Rattle.mon_cdcl.specs.Back.{Walking, Walked};

use crate::backtrack::target;
use crate::decide::Order;
use crate::seen::Seen;
use crate::watch::opposite;
use mon_cnf::{Formula, Lit};
use mon_list::OutOfMemory;
use mon_refute::{Hints, LogLine};
use mon_trail::{Trail, clause_at};

/// What a conflict forces, and how long the trail is where it does.
#[derive(Clone, Copy)]
pub struct Turn {
    pub literal: Lit,
    pub len: usize,
}

/// Goes back along the trail, and resolves what is seen away, up to the last literal behind a decision. The clauses that are
/// resolved are noted, the latest first. No literal is left where the conflict belongs to no decision.
fn walk(
    f: &Formula,
    log: &[LogLine],
    trail: &mut Trail,
    seen: &mut Seen,
    hints: &mut Hints,
    order: &mut Order,
) -> Result<Option<Turn>, OutOfMemory>
    requires { Walking f.now trail.old.entries.items log.now trail.old.entries.items trail.old.marks.items seen.old.flags.items seen.old.vars.items hints.old }
    ensures { IfOk result (Walked f.now trail.old.entries.items log.now trail.new.entries.items trail.new.marks.items seen.new.flags.items seen.new.vars.items hints.new) }
{
    while let Some(entry) = trail.pop() {
        order.free(entry.literal)?;
        let var = entry.literal.var;
        if !seen.has(var) {
            continue;
        }
        seen.forget(var);
        match target(&trail.entries, seen, entry) {
            None => {}
            Some(len) => {
                return Ok(Some(Turn {
                    literal: opposite(entry.literal),
                    len,
                }));
            }
        }
        match entry.reason {
            None => unreachable!(),
            Some(reason) => {
                seen.note(clause_at(f, log, reason), var, order)?;
                hints.push(reason)?;
            }
        }
    }
    Ok(None)
}

/// Analyses a conflict. The hints are those of what is left, the latest first.
pub fn analyse(
    f: &Formula,
    log: &[LogLine],
    trail: &mut Trail,
    seen: &mut Seen,
    hints: &mut Hints,
    order: &mut Order,
    conflict: u64,
) -> Result<Option<Turn>, OutOfMemory>
    requires stands { Stands f.now log.now trail.old.entries.items trail.old.marks.items }
    requires closed { IsClosed (clauses_with f.now log.now) trail.old.marks.items conflict }
    requires sized { length seen.old.flags.items ≡ f.now.vars }
    requires empty { hints.old ≡ [] }
    ensures { IfOk result (Walked f.now trail.old.entries.items log.now trail.new.entries.items trail.new.marks.items seen.new.flags.items seen.new.vars.items hints.new) }
{
    seen.clear();
    seen.note(clause_at(f, log, conflict), f.vars(), order)?;
    hints.push(conflict)?;
    walk(f, log, trail, seen, hints, order)
}

//! Clauses of one literal each.

ghost use Rattle.std.specs.Prelude.{◌≡◌, OnOk};
ghost use Rattle.mon_cnf.specs.Truth.{Within};
ghost use Rattle.mon_literals.specs.Clauses.{alone, appended};

use mon_cnf::{Clause, Formula, Lit, OutOfMemory};
use std::alloc::Global;

/// Appends a clause for each literal, so that all of them have to be true. Want of memory leaves some of the clauses
/// appended.
pub fn push_alone(alloc: Global, f: &mut Formula, literals: &[Lit]) -> Result<(), OutOfMemory>
    requires { Within f.old.vars literals.now }
    ensures pushed { OnOk result (f.new ≡ appended f.old (alone literals.now)) }
    ensures vars { f.new.vars ≡ f.old.vars }
{
    for literal in literals {
        let mut clause = Clause::new(alloc);
        clause.push(*literal)?;
        f.push(clause)?;
    }
    Ok(())
}

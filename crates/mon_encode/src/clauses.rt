//! Literals and single clauses.

ghost use Rattle.std.specs.Prelude.{◌≡◌, ◌≤◌, ◌++◌, IfOk};
ghost use Rattle.mon_cnf.specs.Truth.{Within};
ghost use Rattle.mon_literals.specs.Clauses.{denied};
ghost use Rattle.mon_encode.specs.Clauses.{true_at, false_at, unmatched};

use mon_cnf::{Clause, Lit, OutOfMemory};
use mon_literals::pattern;
use mon_shows::Entry;
use std::alloc::Global;

/// The variable is true.
pub(crate) fn true_at(var: u32) -> Lit
    ensures { result ≡ true_at var }
{
    Lit {
        var,
        positive: true,
    }
}

/// The variable is false.
pub(crate) fn false_at(var: u32) -> Lit
    ensures { result ≡ false_at var }
{
    Lit {
        var,
        positive: false,
    }
}

/// The clause that says that not all of these literals are true.
fn denied(alloc: Global, literals: &[Lit]) -> Result<Clause, OutOfMemory>
    ensures { IfOk result (λ clause. clause ≡ denied literals.now) }
{
    let mut clause = Clause::new(alloc);
    for literal in literals {
        clause.push(Lit {
            var: literal.var,
            positive: !literal.positive,
        })?;
    }
    Ok(clause)
}

/// The clause that says that the rule does not match.
pub(crate) fn unmatched(alloc: Global, rule: &Entry) -> Result<Clause, OutOfMemory>
    ensures { IfOk result (λ clause. clause ≡ unmatched rule.now) }
{
    let pattern = pattern(alloc, rule.matching())?;
    denied(alloc, pattern.items())
}

/// The literals of two clauses, one behind the other.
pub(crate) fn joined(alloc: Global, front: &[Lit], back: &[Lit]) -> Result<Clause, OutOfMemory>
    ensures { IfOk result (λ clause. clause ≡ front.now ++ back.now) }
{
    let mut literals = Vec::with_capacity(alloc, front.len())?;
    literals.extend_from_slice(front)?;
    literals.extend_from_slice(back)?;
    Ok(Clause::of(literals))
}

//! The helper variables: two for each sure rule of the table without the update.

ghost use Rattle.std.specs.Prelude.{◌≡◌, ◌<◌, ◌≤◌, ◌+◌, ◌*◌, ◌∷◌, [], map, length, Option, Some, None, OnOk};
ghost use Rattle.mon_cnf.specs.declared.clause.Lit.{Lit};
ghost use Rattle.mon_cnf.specs.Truth.{Within};
ghost use Rattle.mon_header.specs.Places.{header_size};
ghost use Rattle.mon_literals.specs.Clauses.{appended};
ghost use Rattle.mon_encode.specs.Clauses.{true_at, false_at, sures, chain, listed};

use crate::clauses::{false_at, true_at};
use mon_cnf::{Clause, Formula, Lit, OutOfMemory};
use mon_header::HEADER_BITS;
use mon_literals::pattern;
use mon_shows::Altered;
use std::alloc::Global;

/// The variable of the first helper: it stands behind the bits of a header.
pub(crate) const FIRST_HELPER: u32 = HEADER_BITS as u32;

/// One clause for each literal: where the variable is true, the literal is.
fn push_implied(
    alloc: Global,
    f: &mut Formula,
    var: u32,
    literals: &[Lit],
) -> Result<(), OutOfMemory>
    requires var { var < f.old.vars }
    requires within { Within f.old.vars literals.now }
    ensures pushed { OnOk result (f.new ≡ appended f.old (map (λ l. false_at var ∷ l ∷ []) literals.now)) }
    ensures vars { f.new.vars ≡ f.old.vars }
{
    for literal in literals {
        let mut clause = Clause::new(alloc);
        clause.push(false_at(var))?;
        clause.push(*literal)?;
        f.push(clause)?;
    }
    Ok(())
}

/// Where the second helper is true, the first is, or the second of the rule before.
fn push_link(
    alloc: Global,
    f: &mut Formula,
    var: u32,
    earlier: Option<Lit>,
) -> Result<(), OutOfMemory>
    requires var { var + 1 < f.old.vars }
    requires within { Within f.old.vars (listed earlier) }
    ensures pushed { OnOk result (f.new ≡ appended f.old ((false_at (var + 1) ∷ true_at var ∷ listed earlier) ∷ [])) }
    ensures vars { f.new.vars ≡ f.old.vars }
{
    f.keeps();
    let mut clause = Clause::new(alloc);
    clause.push(false_at(var + 1))?;
    clause.push(true_at(var))?;
    if let Some(literal) = earlier {
        clause.push(literal)?;
    }
    f.push(clause)
}

/// Appends the clauses of the helpers of all sure rules. They stand behind the variables of a header.
pub(crate) fn push_chain(alloc: Global, f: &mut Formula, u: &Altered) -> Result<(), OutOfMemory>
    requires { f.old.vars ≡ header_size + 2 * length (sures u.now) }
    ensures pushed { OnOk result (f.new ≡ appended f.old (chain header_size [] (sures u.now))) }
    ensures vars { f.new.vars ≡ f.old.vars }
{
    f.keeps();
    let mut var = FIRST_HELPER;
    let mut earlier = None;
    for place in 0..u.len() {
        let rule = u.rule(place);
        if rule.is_unsure() {
            continue;
        }
        let pattern = pattern(alloc, rule.matching())?;
        push_implied(alloc, f, var, pattern.items())?;
        push_link(alloc, f, var, earlier)?;
        earlier = Some(true_at(var + 1));
        var += 2;
    }
    Ok(())
}

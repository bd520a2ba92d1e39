//! Truth under an assignment.

ghost use Rattle.std.specs.Prelude.{◌≡◌, ◌<◌, length};
ghost use Rattle.mon_cnf.specs.Truth.{lit_true, clause_true, formula_true, values_of, Within};

use crate::clause::Lit;
use crate::formula::Formula;

fn lit_holds(literal: Lit, values: &[bool]) -> bool
    requires { literal.var < length values.now }
    ensures { result ≡ lit_true (values_of values.now) literal }
{
    values[literal.var as usize] == literal.positive
}

fn clause_holds(clause: &[Lit], values: &[bool]) -> bool
    requires { Within (length values.now) clause.now }
    ensures { result ≡ clause_true (values_of values.now) clause.now }
{
    for literal in clause {
        if lit_holds(*literal, values) {
            return true;
        }
    }
    false
}

/// Whether the values, one for each variable, satisfy the formula: each of its clauses has a literal that is true.
/// It takes no memory.
pub fn holds(f: &Formula, values: &[bool]) -> bool
    requires { length values.now ≡ f.now.vars }
    ensures { result ≡ formula_true (values_of values.now) f.now.clauses }
{
    for clause in f.clauses() {
        if !clause_holds(clause.items(), values) {
            return false;
        }
    }
    true
}

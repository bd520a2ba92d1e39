//! Clauses written as numbers.

ghost use Rattle.std.specs.Prelude.{◌≡◌, IfOk};
ghost use Rattle.std.specs.Option.{option_to_list};
ghost use Rattle.mon_cnf.specs.Truth.{Within};
ghost use Rattle.mon_cnf.specs.Written.{literals_of, written};

use crate::clause::{Clause, Lit};
use mon_list::OutOfMemory;
use std::alloc::Global;

/// The literal that a number is, if it is one.
fn literal_of(vars: u32, number: i32) -> Option<Lit>
    ensures { option_to_list result ≡ literals_of vars number }
{
    let var = number.unsigned_abs().checked_sub(1)?;
    if var < vars {
        Some(Lit {
            var,
            positive: number > 0,
        })
    } else {
        None
    }
}

/// The clause that is written as these numbers, as in the format of DIMACS: the variable n as n + 1, and its negation
/// as -(n + 1). A number that is of none of so many variables is left out.
pub fn clause_of(alloc: Global, vars: u32, numbers: &[i32]) -> Result<Clause, OutOfMemory>
    ensures value { IfOk result (λ c. c ≡ written vars numbers.now) }
    ensures within { IfOk result (Within vars) }
{
    let mut clause = Clause::new(alloc);
    for number in numbers {
        if let Some(literal) = literal_of(vars, *number) {
            clause.push(literal)?;
        }
    }
    Ok(clause)
}

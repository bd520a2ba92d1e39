//! Lines of the log: what follows from two clauses.

ghost use Rattle.std.specs.Prelude.{◌≡◌, ◌++◌, ◌∷◌, [], List, IfOk, OnOk, OnErr, Some, IsTrue};
ghost use Rattle.mon_list.specs.Has.{Has};
ghost use Rattle.mon_cnf.specs.declared.clause.Lit.{Lit};
ghost use Rattle.mon_refute.specs.Follow.{named, literals_of, mentions};
ghost use Rattle.mon_plain.specs.Search.{Joined, Resolved, Added, IsNamed};

use mon_cnf::{Clause, Formula, Lit};
use mon_list::OutOfMemory;
use mon_refute::{Hints, LogLine};
use std::alloc::Global;

/// Whether the clause has the literal.
fn has_literal(clause: &[Lit], literal: Lit) -> bool
    ensures { IsTrue result → Has clause.now literal }
{
    for other in clause {
        if other.var == literal.var && other.positive == literal.positive {
            return true;
        }
    }
    false
}

/// Whether the clause has a literal of the variable.
pub fn mentions(clause: &[Lit], var: u32) -> bool
    ensures { result ≡ mentions var clause.now }
{
    clause.iter().any(|literal| literal.var == var)
}

/// Adds the literals of a clause but for those of a variable, and those that are there.
fn join(out: &mut Clause, clause: &[Lit], var: u32) -> Result<(), OutOfMemory>
    ensures { OnOk result (Joined out.old clause.now var out.new) }
{
    for literal in clause {
        if literal.var == var {
            continue;
        }
        if has_literal(out.items(), *literal) {
            continue;
        }
        out.push(*literal)?;
    }
    Ok(())
}

/// The clause of a number.
pub fn clause_at<'a>(f: &'a Formula, log: &'a [LogLine], number: u64) -> &'a [Lit]
    requires { IsNamed f.now.clauses log.now number }
    ensures { named (f.now.clauses ++ literals_of log.now) number ≡ Some result.now }
{
    let cs = f.clauses();
    let place = number - 1;
    if place < cs.len() as u64 {
        cs[place as usize].items()
    } else {
        log[(place - cs.len() as u64) as usize].literals.items()
    }
}

/// The clause that follows from both, without the variable.
fn resolve(
    alloc: Global,
    f: &Formula,
    log: &[LogLine],
    first: u64,
    second: u64,
    var: u32,
) -> Result<LogLine, OutOfMemory>
    requires one { IsNamed f.now.clauses log.now first }
    requires two { IsNamed f.now.clauses log.now second }
    ensures { IfOk result (λ line. (hints_are : line.hints ≡ first ∷ second ∷ []) × Resolved (f.now.clauses ++ literals_of log.now) first second var line.literals) }
{
    let mut literals = Clause::new(alloc);
    join(&mut literals, clause_at(f, log, first), var)?;
    join(&mut literals, clause_at(f, log, second), var)?;
    let mut hints = Hints::new(alloc);
    hints.push(first)?;
    hints.push(second)?;
    Ok(LogLine { literals, hints })
}

/// Adds what follows from both clauses without the variable, and gives its number.
pub fn add_resolvent(
    alloc: Global,
    f: &Formula,
    log: &mut Vec<LogLine>,
    first: u64,
    second: u64,
    var: u32,
) -> Result<u64, OutOfMemory>
    requires one { IsNamed f.now.clauses log.old.items first }
    requires two { IsNamed f.now.clauses log.old.items second }
    ensures { IfOk result (λ number. Added f.now.clauses log.old.items log.new.items first second var number) }
{
    let line = resolve(alloc, f, log, first, second, var)?;
    log.push(line)?;
    Ok(f.clauses().len() as u64 + log.len() as u64)
}

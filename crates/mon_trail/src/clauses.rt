//! The clauses of a formula and of a log, by their numbers.

ghost use Rattle.std.specs.Prelude.{◌≡◌, ◌++◌, IfSome, Some, true};
ghost use Rattle.mon_cnf.specs.Truth.{Within};
ghost use Rattle.mon_refute.specs.Follow.{named, literals_of, all_follow};
ghost use Rattle.mon_trail.specs.Trail.{IsNamed};

use mon_cnf::{Formula, Lit};
use mon_refute::LogLine;

/// The clause of a number that names one: the formula's from 1 on, and then the log's.
pub fn clause_at<'a>(f: &'a Formula, log: &'a [LogLine], number: u64) -> &'a [Lit]
    requires { IsNamed f.now.clauses log.now number }
    ensures { named (f.now.clauses ++ literals_of log.now) number ≡ Some result.now }
{
    let cs = f.clauses();
    let place = number - 1;
    if place < cs.len() as u64 {
        cs[place as usize].items()
    } else {
        log[(place - cs.len() as u64) as usize].literals.items()
    }
}

/// The clause of a number, if it names one.
pub fn clause_of<'a>(f: &'a Formula, log: &'a [LogLine], number: u64) -> Option<&'a [Lit]>
    ensures named { IfSome result (λ c. named (f.now.clauses ++ literals_of log.now) number ≡ Some c.now) }
    ensures within { all_follow f.now.vars f.now.clauses log.now ≡ true → IfSome result (λ c. Within f.now.vars c.now) }
{
    if number == 0 {
        return None;
    }
    let place = number - 1;
    let cs = f.clauses();
    let count = cs.len() as u64;
    if place < count {
        return Some(cs[place as usize].items());
    }
    let later = place - count;
    if later < log.len() as u64 {
        return Some(log[later as usize].literals.items());
    }
    None
}

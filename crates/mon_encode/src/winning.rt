//! The winner of a case: one rule alone, or none.

ghost use Rattle.std.specs.Prelude.{◌≡◌, ◌<◌, ◌≤◌, map, length, OnOk};
ghost use Rattle.mon_header.specs.Places.{header_size};
ghost use Rattle.mon_literals.specs.Clauses.{appended};
ghost use Rattle.mon_encode.specs.Clauses.{unmatched, beaten, winning};
ghost use Rattle.mon_encode.specs.Cases.{HasWinner};

use crate::clauses::unmatched;
use mon_cnf::{Formula, OutOfMemory};
use mon_literals::{pattern, push_alone};
use mon_shows::Altered;
use std::alloc::Global;

/// No rule matches.
fn push_none(alloc: Global, f: &mut Formula, t: &Altered) -> Result<(), OutOfMemory>
    requires { header_size ≤ f.old.vars }
    ensures pushed { OnOk result (f.new ≡ appended f.old (map unmatched t.now)) }
    ensures vars { f.new.vars ≡ f.old.vars }
{
    for place in 0..t.len() {
        f.push(unmatched(alloc, &t.rule(place))?)?;
    }
    Ok(())
}

/// No rule of at least this effective priority matches, but for the winner.
fn push_beaten(
    alloc: Global,
    f: &mut Formula,
    t: &Altered,
    winner: u32,
    least: u32,
) -> Result<(), OutOfMemory>
    requires { header_size ≤ f.old.vars }
    ensures pushed { OnOk result (f.new ≡ appended f.old (beaten winner least 0 t.now)) }
    ensures vars { f.new.vars ≡ f.old.vars }
{
    for place in 0..t.len() {
        let rule = t.rule(place);
        if place == u64::from(winner) || rule.rank() < least {
            continue;
        }
        f.push(unmatched(alloc, &rule)?)?;
    }
    Ok(())
}

/// The rule at the winner's place matches, and beats the others.
fn push_won(alloc: Global, f: &mut Formula, t: &Altered, winner: u32) -> Result<(), OutOfMemory>
    requires vars { header_size ≤ f.old.vars }
    requires within { winner < length t.now }
    ensures pushed { OnOk result (f.new ≡ appended f.old (winning (Some winner) t.now)) }
    ensures vars { f.new.vars ≡ f.old.vars }
{
    let rule = t.rule(u64::from(winner));
    let pattern = pattern(alloc, rule.matching())?;
    push_alone(alloc, f, pattern.items())?;
    push_beaten(alloc, f, t, winner, rule.rank())
}

/// The rule at the winner's place is the only winner, or no rule matches.
pub(crate) fn push_winning(
    alloc: Global,
    f: &mut Formula,
    t: &Altered,
    winner: Option<u32>,
) -> Result<(), OutOfMemory>
    requires vars { header_size ≤ f.old.vars }
    requires within { HasWinner t.now winner }
    ensures pushed { OnOk result (f.new ≡ appended f.old (winning winner t.now)) }
    ensures vars { f.new.vars ≡ f.old.vars }
{
    match winner {
        Some(winner) => push_won(alloc, f, t, winner),
        None => push_none(alloc, f, t),
    }
}

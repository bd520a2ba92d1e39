//! Which logs are accepted.

ghost use Rattle.std.specs.Prelude.{◌≡◌, ◌++◌, length, List, IsTrue};
ghost use Rattle.std.specs.List.{flat_map};
ghost use Rattle.mon_refute.specs.Marks.{Shows, AreClear, ClearBut};
ghost use Rattle.mon_refute.specs.Follow.{reading_of, named, hinted, follows, is_accepted, literals_of};
ghost use Rattle.mon_refute.specs.Law.{AcceptedMeansNone, Unsatisfiable};
ghost use Rattle.mon_cnf.specs.Truth.{WithinAll};
ghost use Rattle.mon_cnf.specs.declared.clause.Lit.{Lit};

use crate::lines::{Log, LogLine};
use crate::marks::{Reading, clear, mark_of, read, start};
use mon_cnf::{Clause, Formula, Lit};

/// What the hinted clause says, and nothing where the hint names no earlier clause.
fn read_at(cs: &[Clause], earlier: &[LogLine], hint: u64, marks: &[u8]) -> Reading
    requires { WithinAll (length marks.now) (cs.now ++ literals_of earlier.now) }
    ensures { (known : List Lit) → Shows marks.now known → result ≡ reading_of known (named (cs.now ++ literals_of earlier.now) hint) }
{
    if hint == 0 {
        return Reading::Neither;
    }
    let place = hint - 1;
    let count = cs.len() as u64;
    if place < count {
        return read(cs[place as usize].items(), marks);
    }
    let later = place - count;
    if later < earlier.len() as u64 {
        return read(earlier[later as usize].literals.items(), marks);
    }
    Reading::Neither
}

/// The hinted clause, and no literal where the hint names no earlier clause.
fn hinted<'a>(cs: &'a [Clause], earlier: &'a [LogLine], hint: u64) -> &'a [Lit]
    ensures { result.now ≡ hinted (cs.now ++ literals_of earlier.now) hint }
{
    if hint == 0 {
        return &[];
    }
    let place = hint - 1;
    let count = cs.len() as u64;
    if place < count {
        return cs[place as usize].items();
    }
    let later = place - count;
    if later < earlier.len() as u64 {
        return earlier[later as usize].literals.items();
    }
    &[]
}

/// Whether the line follows from the clauses and the earlier lines by its hints. What it marks stays marked, and
/// nothing else is.
fn follows_marking(cs: &[Clause], earlier: &[LogLine], line: &LogLine, marks: &mut [u8]) -> bool
    requires within { WithinAll (length marks.old) (cs.now ++ literals_of earlier.now) }
    requires clear { AreClear marks.old }
    ensures value { result ≡ follows (length marks.old) (cs.now ++ literals_of earlier.now) line.now }
    ensures others { ClearBut (line.now.literals ++ flat_map (hinted (cs.now ++ literals_of earlier.now)) line.now.hints) marks.new }
{
    if !start(line.literals.items(), marks) {
        return false;
    }
    for hint in line.hints.items() {
        match read_at(cs, earlier, *hint, marks) {
            Reading::Contradicts => return true,
            Reading::Gives(literal) => marks[literal.var as usize] = mark_of(literal),
            Reading::Neither => return false,
        }
    }
    false
}

/// Clears what a line has marked.
fn restore(cs: &[Clause], earlier: &[LogLine], line: &LogLine, marks: &mut [u8])
    requires { ClearBut (line.now.literals ++ flat_map (hinted (cs.now ++ literals_of earlier.now)) line.now.hints) marks.old }
    ensures { AreClear marks.new }
{
    clear(line.literals.items(), marks);
    for hint in line.hints.items() {
        clear(hinted(cs, earlier, *hint), marks);
    }
}

/// Whether the line follows from the clauses and the earlier lines by its hints. No mark is left.
fn follows(cs: &[Clause], earlier: &[LogLine], line: &LogLine, marks: &mut [u8]) -> bool
    requires within { WithinAll (length marks.old) (cs.now ++ literals_of earlier.now) }
    requires clear { AreClear marks.old }
    ensures value { result ≡ follows (length marks.old) (cs.now ++ literals_of earlier.now) line.now }
    ensures clear { AreClear marks.new }
{
    let result = follows_marking(cs, earlier, line, marks);
    restore(cs, earlier, line, marks);
    result
}

/// Whether each line follows, and the last one is empty.
fn is_accepted(f: &Formula, log: &[LogLine], marks: &mut [u8]) -> bool
    requires { length marks.old ≡ f.now.vars }
    ensures { result ≡ is_accepted f.now.vars f.now.clauses log.now }
{
    let cs = f.clauses();
    marks.fill(0);
    let mut ends = false;
    for (i, line) in log.iter().enumerate() {
        if !follows(cs, &log[..i], line, marks) {
            return false;
        }
        ends = line.literals.items().is_empty();
    }
    ends
}

/// Whether the log refutes the formula: each line follows from the formula's clauses and the lines before it by its
/// hints, and the last line is empty. There is one mark for each variable, and the marks may be in any state. It takes
/// no memory.
pub fn accepts(f: &Formula, log: &Log, marks: &mut [u8]) -> bool
    requires { length marks.old ≡ f.now.vars }
    // The definition of an accepted log, in both directions.
    ensures exact { result ≡ is_accepted f.now.vars f.now.clauses log.now }
    // So no assignment satisfies the formula.
    ensures sound { IsTrue result → Unsatisfiable f.now.clauses }
{
    is_accepted(f, log.items(), marks)
}

/// No assignment satisfies a formula that has an accepted log.
pub fn accepted_means_none()
    ensures { AcceptedMeansNone }
{}

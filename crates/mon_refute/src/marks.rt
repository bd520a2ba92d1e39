//! What is known of each variable while a line is checked, as one mark a variable: 1 where it is true, 2 where it is
//! false, and 0 where nothing is known. Between lines each mark is 0.

ghost use Rattle.std.specs.Prelude.{◌≡◌, ◌<◌, ℕ, [], false, length, slice_index, cond, not, List};
ghost use Rattle.mon_refute.specs.Marks.{Shows, Started, says, note_with, AreClear, ClearBut};
ghost use Rattle.mon_refute.specs.Follow.{reading, rest, falsify, mentions};
ghost use Rattle.mon_cnf.specs.Truth.{Within};
ghost use Rattle.mon_cnf.specs.declared.clause.Lit.{Lit};

use mon_cnf::Lit;

/// What a clause says under the marks.
#[derive(Clone, Copy, Debug, PartialEq, Eq)]
pub enum Reading {
    /// Each literal is false.
    Contradicts,
    /// This literal is undecided, and all others are false.
    Gives(Lit),
    /// Anything else.
    Neither,
}

/// The mark that makes the literal true.
pub fn mark_of(literal: Lit) -> u8
    ensures { result ≡ cond literal.positive 1 2 }
{
    if literal.positive { 1 } else { 2 }
}

/// The mark that makes the literal false.
fn other_mark_of(literal: Lit) -> u8
    ensures { result ≡ cond literal.positive 2 1 }
{
    if literal.positive { 2 } else { 1 }
}

/// Marks the literals of a line false, where nothing is marked yet. It answers false where that cannot be: a variable
/// has no mark, or the line has a literal and its opposite.
pub fn start(line: &[Lit], marks: &mut [u8]) -> bool
    requires { AreClear marks.old }
    ensures started { Started result marks.new (falsify (length marks.old) [] line.now) }
    ensures others { ClearBut line.now marks.new }
{
    for literal in line {
        let var = literal.var as usize;
        if var >= marks.len() || marks[var] == mark_of(*literal) {
            return false;
        }
        marks[var] = other_mark_of(*literal);
    }
    true
}

/// What is said once one more literal is seen.
fn note(so_far: Reading, literal: Lit, mark: u8) -> Reading
    ensures { result ≡ note_with (says mark (not literal.positive)) (says mark literal.positive) so_far literal }
{
    if mark == other_mark_of(literal) {
        return so_far;
    }
    match so_far {
        Reading::Contradicts => {
            if mark == mark_of(literal) {
                Reading::Neither
            } else {
                Reading::Gives(literal)
            }
        }
        Reading::Gives(first) => {
            if first.var == literal.var && first.positive == literal.positive {
                so_far
            } else {
                Reading::Neither
            }
        }
        Reading::Neither => Reading::Neither,
    }
}

/// What a clause says, whatever the marks show to be known.
pub fn read(clause: &[Lit], marks: &[u8]) -> Reading
    requires { Within (length marks.now) clause.now }
    ensures { (known : List Lit) → Shows marks.now known → result ≡ reading known (rest known clause.now) }
{
    let mut so_far = Reading::Contradicts;
    for literal in clause {
        so_far = note(so_far, *literal, marks[literal.var as usize]);
    }
    so_far
}

/// Clears the marks of the clause's variables.
pub fn clear(clause: &[Lit], marks: &mut [u8])
    ensures { (x : ℕ) → (mentions x clause.now ≡ false → slice_index marks.old x ≡ 0) → slice_index marks.new x ≡ 0 }
{
    for literal in clause {
        let var = literal.var as usize;
        if var < marks.len() {
            marks[var] = 0;
        }
    }
}

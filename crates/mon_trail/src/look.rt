//! What is decided of the variables, and how a clause looks then.

ghost use Rattle.std.specs.Prelude.{◌≡◌, length};
ghost use Rattle.mon_cnf.specs.Truth.{Within};
ghost use Rattle.mon_trail.specs.Looks.{LookedAt};

use mon_cnf::Lit;

/// What is decided of a variable.
#[derive(Clone, Copy)]
pub enum Mark {
    Free,
    Is(bool),
}

/// A clause under the marks.
#[derive(Clone, Copy)]
pub enum Look {
    /// Each literal is false.
    Off,
    /// This literal is undecided, and all others are false.
    Unit(Lit),
    /// This literal is true.
    On(Lit),
    /// These two literals are undecided.
    Open(Lit, Lit),
}

/// How the clause looks. It is read up to a true literal, or to a second undecided one.
pub fn look_at(clause: &[Lit], marks: &[Mark]) -> Look
    requires { Within (length marks.now) clause.now }
    ensures { LookedAt marks.now clause.now result }
{
    let mut first: Option<Lit> = None;
    for literal in clause {
        match marks[literal.var as usize] {
            Mark::Is(value) => {
                if value == literal.positive {
                    return Look::On(*literal);
                }
                continue;
            }
            Mark::Free => {}
        }
        match first {
            None => {
                first = Some(*literal);
                continue;
            }
            Some(open) => {
                if open == *literal {
                    continue;
                }
                return Look::Open(open, *literal);
            }
        }
    }
    match first {
        None => Look::Off,
        Some(open) => Look::Unit(open),
    }
}

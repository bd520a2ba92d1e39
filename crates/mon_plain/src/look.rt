//! What is decided of the variables, and how a clause looks then.

ghost use Rattle.std.specs.Prelude.{◌≡◌, ◌<◌, length};
ghost use Rattle.mon_cnf.specs.Truth.{Within};
ghost use Rattle.mon_plain.specs.Marks.{Looked, look_on, mark_at};

use mon_cnf::Lit;

/// What is decided of a variable.
#[derive(Clone, Copy)]
pub enum Mark {
    Free,
    Is(bool),
}

/// A clause under the marks.
#[derive(Clone, Copy)]
pub enum Look {
    /// Each literal is false.
    Off,
    /// Some literal is true.
    On,
    /// This literal is undecided, and all others are false.
    Unit(Lit),
    /// This literal is undecided.
    Open(Lit),
}

/// How the clause looks with one literal more.
fn look_more(so_far: Look, literal: Lit, mark: Mark) -> Look
    ensures { result ≡ look_on so_far literal mark }
{
    match mark {
        Mark::Is(value) => {
            if value == literal.positive {
                Look::On
            } else {
                so_far
            }
        }
        Mark::Free => match so_far {
            Look::Off => Look::Unit(literal),
            Look::On => Look::On,
            Look::Unit(first) => {
                if first.var == literal.var && first.positive == literal.positive {
                    so_far
                } else {
                    Look::Open(first)
                }
            }
            Look::Open(_) => so_far,
        },
    }
}

/// How the clause looks.
pub fn look_at(clause: &[Lit], marks: &[Mark]) -> Look
    requires { Within (length marks.now) clause.now }
    ensures { Looked marks.now clause.now result }
{
    let mut look = Look::Off;
    for literal in clause {
        look = look_more(look, *literal, marks[literal.var as usize]);
        if let Look::On = look {
            return Look::On;
        }
    }
    look
}

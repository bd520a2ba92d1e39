//! What a formula asks for.

ghost use Rattle.std.specs.Prelude.{◌≡◌, ◌<◌, length, List};
ghost use Rattle.mon_cnf.specs.declared.clause.Lit.{Lit};
ghost use Rattle.mon_trail.specs.Picks.{Picked, PickedAt};

use crate::look::{Look, Mark, look_at};
use crate::trail::Entry;
use mon_cnf::Formula;

/// What to do next.
#[derive(Clone, Copy)]
pub enum Pick {
    /// The clause of this number is false.
    Close(u64),
    /// This is next on the trail.
    Enter(Entry),
    /// Each clause of the formula is true.
    Done,
}

/// What the clause at a place asks for: nothing where it is true.
fn pick_at(f: &Formula, marks: &[Mark], place: usize) -> Option<Pick>
    requires marks { length marks.now ≡ f.now.vars }
    requires place { place < length f.now.clauses }
    ensures { (lines : List (List Lit)) → PickedAt f.now.clauses lines marks.now place result }
{
    match look_at(f.clauses()[place].items(), marks) {
        Look::On(_) => None,
        Look::Off => Some(Pick::Close(place as u64 + 1)),
        Look::Unit(literal) => Some(Pick::Enter(Entry {
            literal,
            reason: Some(place as u64 + 1),
        })),
        Look::Open(literal, _) => Some(Pick::Enter(Entry {
            literal,
            reason: None,
        })),
    }
}

/// What the first clause that isn't true asks for.
pub fn pick_open(f: &Formula, marks: &[Mark]) -> Pick
    requires { length marks.now ≡ f.now.vars }
    ensures { (lines : List (List Lit)) → Picked f.now.clauses lines marks.now result }
{
    for place in 0..f.clauses().len() {
        if let Some(pick) = pick_at(f, marks, place) {
            return pick;
        }
    }
    Pick::Done
}

//! What the search does next.

ghost use Rattle.std.specs.Prelude.{◌≡◌, ◌<◌, length, List, IfSome, MatchOption};
ghost use Rattle.mon_cnf.specs.declared.clause.Lit.{Lit};
ghost use Rattle.mon_cnf.specs.Truth.{WithinAll};
ghost use Rattle.mon_plain.specs.Search.{Picked, PickedAt, AllOn};

use crate::look::{Look, Mark, look_at};
use mon_cnf::{Clause, Formula, Lit};
use mon_list::OutOfMemory;
use std::alloc::Global;

/// A literal that is taken as true, and the number of the clause that forces it, unless it is a decision.
#[derive(Clone, Copy)]
pub struct Entry {
    pub literal: Lit,
    pub reason: Option<u64>,
}

/// What to do next.
#[derive(Clone, Copy)]
pub enum Pick {
    /// The clause of this number is false.
    Close(u64),
    /// This is next on the trail.
    Enter(Entry),
    /// Each clause of the formula is true.
    Done,
}

/// What the clause at a place asks for: nothing where it is true.
fn pick_at(f: &Formula, marks: &[Mark], place: usize) -> Option<Pick>
    requires marks { length marks.now ≡ f.now.vars }
    requires place { place < length f.now.clauses }
    ensures { (lines : List (List Lit)) → PickedAt f.now.clauses lines marks.now place result }
{
    match look_at(f.clauses()[place].items(), marks) {
        Look::On => None,
        Look::Off => Some(Pick::Close(place as u64 + 1)),
        Look::Unit(literal) => Some(Pick::Enter(Entry {
            literal,
            reason: Some(place as u64 + 1),
        })),
        Look::Open(literal) => Some(Pick::Enter(Entry {
            literal,
            reason: None,
        })),
    }
}

/// The number of a literal in the lists of occurrences.
fn code(literal: Lit) -> usize {
    literal.var as usize * 2 + usize::from(literal.positive)
}

/// For each literal, by its number, the places of the clauses in which it occurs.
#[derive(Drop)]
pub struct Occurrences {
    lists: Vec<Vec<usize>>,
}

impl Occurrences {
    /// The lists of a formula.
    pub fn of(alloc: Global, f: &Formula) -> Result<Occurrences, OutOfMemory> {
        let mut lists = Vec::new(alloc);
        for _ in 0..f.vars() {
            lists.push(Vec::new(alloc))?;
            lists.push(Vec::new(alloc))?;
        }
        for (place, clause) in f.clauses().iter().enumerate() {
            for literal in clause.items() {
                if let Some(list) = lists.get_mut(code(*literal)) {
                    list.push(place)?;
                }
            }
        }
        Ok(Occurrences { lists })
    }

    /// The places of the clauses in which the opposite of a literal occurs.
    fn against(&self, literal: Lit) -> &[usize] {
        let opposite = Lit {
            var: literal.var,
            positive: !literal.positive,
        };
        match self.lists.get(code(opposite)) {
            None => &[],
            Some(list) => list,
        }
    }
}

/// How far clauses were looked at for what they force.
#[derive(Clone, Copy)]
pub struct Progress {
    /// The first clause that wasn't looked at yet.
    clause: usize,
    /// The first entry of the trail whose clauses weren't all looked at since it was entered, and the first of these.
    entry: usize,
    occurrence: usize,
    /// Where the search for an open clause goes on.
    open: usize,
}

impl Progress {
    /// Nothing was looked at.
    pub fn start() -> Progress {
        Progress {
            clause: 0,
            entry: 0,
            occurrence: 0,
            open: 0,
        }
    }

    /// The trail has so many entries left, and the next one is new.
    pub fn cut(&mut self, len: usize) {
        if len <= self.entry {
            self.entry = len;
            self.occurrence = 0;
        }
    }
}

/// Whether the pick is forced, or a conflict.
fn is_forced(pick: Pick) -> bool {
    match pick {
        Pick::Close(_) => true,
        Pick::Enter(entry) => entry.reason.is_some(),
        Pick::Done => false,
    }
}

/// The first of these clauses that is false or forces a literal, from a place of the list on, and its place there.
fn forced_among(f: &Formula, marks: &[Mark], places: &[usize], from: usize) -> Option<(Pick, usize)>
    requires { length marks.now ≡ f.now.vars }
    ensures { IfSome result (λ x. (lines : List (List Lit)) → Picked f.now.clauses lines marks.now x.0) }
{
    for at in from..places.len() {
        if places[at] < f.clauses().len()
            && let Some(pick) = pick_at(f, marks, places[at])
            && is_forced(pick)
        {
            return Some((pick, at));
        }
    }
    None
}

/// The first clause, of those that weren't looked at yet, that is false or forces a literal.
fn forced_alone(f: &Formula, marks: &[Mark], progress: &mut Progress) -> Option<Pick>
    requires { length marks.now ≡ f.now.vars }
    ensures { IfSome result (λ pick. (lines : List (List Lit)) → Picked f.now.clauses lines marks.now pick) }
{
    for place in progress.clause..f.clauses().len() {
        progress.clause = place + 1;
        if let Some(pick) = pick_at(f, marks, place)
            && is_forced(pick)
        {
            return Some(pick);
        }
    }
    None
}

/// The first clause that is false or forces a literal, of those that the trail's new entries made shorter.
fn forced_by_trail(
    f: &Formula,
    marks: &[Mark],
    trail: &[Entry],
    occurrences: &Occurrences,
    progress: &mut Progress,
) -> Option<Pick>
    requires { length marks.now ≡ f.now.vars }
    ensures { IfSome result (λ pick. (lines : List (List Lit)) → Picked f.now.clauses lines marks.now pick) }
{
    for place in progress.entry..trail.len() {
        let places = occurrences.against(trail[place].literal);
        if let Some((pick, at)) = forced_among(f, marks, places, progress.occurrence) {
            progress.occurrence = at;
            return Some(pick);
        }
        progress.entry = place + 1;
        progress.occurrence = 0;
    }
    None
}

/// The first clause from a place on that isn't true, and its place.
fn open_from(f: &Formula, marks: &[Mark], from: usize) -> Option<(Pick, usize)>
    requires { length marks.now ≡ f.now.vars }
    ensures { MatchOption result (from ≡ 0 → AllOn marks.now f.now.clauses) (λ x. (lines : List (List Lit)) → Picked f.now.clauses lines marks.now x.0) }
{
    for place in from..f.clauses().len() {
        if let Some(pick) = pick_at(f, marks, place) {
            return Some((pick, place));
        }
    }
    None
}

/// What to do next: a conflict or a forced literal where one is found, and else the first undecided literal of a
/// clause that isn't true.
pub fn pick_next(
    f: &Formula,
    marks: &[Mark],
    trail: &[Entry],
    occurrences: &Occurrences,
    progress: &mut Progress,
) -> Pick
    requires { length marks.now ≡ f.now.vars }
    ensures { (lines : List (List Lit)) → Picked f.now.clauses lines marks.now result }
{
    if let Some(pick) = forced_alone(f, marks, progress) {
        return pick;
    }
    if let Some(pick) = forced_by_trail(f, marks, trail, occurrences, progress) {
        return pick;
    }
    if let Some((pick, place)) = open_from(f, marks, progress.open) {
        progress.open = place;
        return pick;
    }
    match open_from(f, marks, 0) {
        None => Pick::Done,
        Some((pick, place)) => {
            progress.open = place;
            pick
        }
    }
}

//! Literals that clauses force.

ghost use Rattle.std.specs.Prelude.{◌≡◌, true, IfOk};
ghost use Rattle.mon_refute.specs.Follow.{all_follow};
ghost use Rattle.mon_trail.specs.Trail.{Stands};
ghost use Rattle.mon_cdcl.specs.Search.{Visited, Propagated};

use crate::watch::{Watch, Watches, opposite};
use mon_cnf::{Formula, Lit};
use mon_list::OutOfMemory;
use mon_refute::LogLine;
use mon_trail::{Entry, Look, Mark, Trail, clause_of, look_at};

/// What becomes of a clause whose watched literal became false.
#[derive(Clone, Copy)]
pub enum Visit {
    /// It watches that literal still.
    Stays,
    /// It watches another one.
    Moves,
    /// It is false.
    Conflict(u64),
}

/// Whether the literal is true.
fn is_true(marks: &[Mark], literal: Lit) -> bool {
    match marks.get(literal.var as usize) {
        Some(Mark::Is(value)) => *value == literal.positive,
        _ => false,
    }
}

/// Keeps a watch in its list, at the next place.
fn keep(list: &mut [Watch], kept: usize, watch: Watch) -> usize {
    match list.get_mut(kept) {
        None => kept,
        Some(place) => {
            *place = watch;
            kept.saturating_add(1)
        }
    }
}

/// Keeps the watches from a place on.
fn keep_from(list: &mut Vec<Watch>, from: usize, at: usize) {
    let mut kept = from;
    for place in at..list.len() {
        if let Some(watch) = list.get(place).copied() {
            kept = keep(list, kept, watch);
        }
    }
    list.truncate(kept);
}

/// Looks at a clause whose watched literal became false, and enters what it forces.
fn look_again(
    f: &Formula,
    log: &[LogLine],
    trail: &mut Trail,
    watches: &mut Watches,
    gone: Lit,
    watch: Watch,
) -> Result<Visit, OutOfMemory>
    requires { Stands f.now log.now trail.old.entries.items trail.old.marks.items }
    ensures { IfOk result (Visited f.now log.now trail.old trail.new) }
{
    if is_true(&trail.marks, watch.other) {
        return Ok(Visit::Stays);
    }
    let clause = match clause_of(f, log, watch.clause) {
        None => return Ok(Visit::Moves),
        Some(clause) => clause,
    };
    let (first, second) = match look_at(clause, &trail.marks) {
        Look::Off => return Ok(Visit::Conflict(watch.clause)),
        Look::Unit(literal) => {
            trail.enter(Entry {
                literal,
                reason: Some(watch.clause),
            })?;
            return Ok(Visit::Stays);
        }
        Look::On(literal) => (literal, literal),
        Look::Open(first, second) => (first, second),
    };
    if watches.turn(watch.clause, gone, first, second)? {
        Ok(Visit::Moves)
    } else {
        Ok(Visit::Stays)
    }
}

/// Goes over the clauses that watch a literal, which became false, up to one that is false. Those that watch it still stay in
/// the list.
fn visit_all(
    f: &Formula,
    log: &[LogLine],
    trail: &mut Trail,
    watches: &mut Watches,
    gone: Lit,
    list: &mut Vec<Watch>,
) -> Result<Option<u64>, OutOfMemory>
    requires { Stands f.now log.now trail.old.entries.items trail.old.marks.items }
    ensures { IfOk result (Propagated f.now log.now trail.old trail.new) }
{
    let mut kept = 0;
    for at in 0..list.len() {
        let Some(watch) = list.get(at).copied() else {
            break;
        };
        match look_again(f, log, trail, watches, gone, watch)? {
            Visit::Moves => continue,
            Visit::Conflict(number) => {
                keep_from(list, kept, at);
                return Ok(Some(number));
            }
            Visit::Stays => {}
        }
        kept = keep(list, kept, watch);
    }
    list.truncate(kept);
    Ok(None)
}

/// Enters what the trail's new entries force, up to a clause that is false.
pub fn propagate(
    f: &Formula,
    log: &[LogLine],
    trail: &mut Trail,
    watches: &mut Watches,
) -> Result<Option<u64>, OutOfMemory>
    requires { Stands f.now log.now trail.old.entries.items trail.old.marks.items }
    ensures { IfOk result (Propagated f.now log.now trail.old trail.new) }
{
    for at in watches.done..trail.marks.len() {
        let Some(entry) = trail.entries.get(at).copied() else {
            return Ok(None);
        };
        let gone = opposite(entry.literal);
        let mut list = watches.take(gone);
        let conflict = visit_all(f, log, trail, watches, gone, &mut list)?;
        watches.put(gone, list);
        match conflict {
            Some(number) => return Ok(Some(number)),
            None => {}
        }
        watches.done = at + 1;
    }
    Ok(None)
}

/// Has each clause of the formula watch two of its literals, and enters what those force that have but one, up to a clause
/// that is false.
pub fn begin(
    f: &Formula,
    log: &[LogLine],
    trail: &mut Trail,
    watches: &mut Watches,
) -> Result<Option<u64>, OutOfMemory>
    requires { Stands f.now log.now trail.old.entries.items trail.old.marks.items }
    ensures { IfOk result (Propagated f.now log.now trail.old trail.new) }
{
    for place in 0..f.clauses().len() {
        let number = place as u64 + 1;
        let clause = match clause_of(f, log, number) {
            None => return Ok(None),
            Some(clause) => clause,
        };
        let (one, two) = match look_at(clause, &trail.marks) {
            Look::Off => return Ok(Some(number)),
            Look::Unit(literal) => {
                trail.enter(Entry {
                    literal,
                    reason: Some(number),
                })?;
                (literal, literal)
            }
            Look::On(literal) => (literal, literal),
            Look::Open(first, second) => (first, second),
        };
        watches.attach(number, one, two)?;
    }
    Ok(None)
}

//! The solver.

ghost use Rattle.std.specs.Prelude.{◌≡◌, ◌≤◌, [], ◌+◌, length, ℕ, List, None, IfOk, MatchResult, Some, option_map, replicate, map};
ghost use Rattle.mon_cnf.specs.declared.clause.Lit.{Lit};
ghost use Rattle.mon_trail.specs.declared.look.Mark.TheVariants.{Free};
ghost use Rattle.mon_trail.specs.declared.trail.Entry.{Entry as AnEntry};
ghost use Rattle.mon_trail.specs.Marks.{value_of};
ghost use Rattle.mon_trail.specs.Trail.{IsClosed, Stands, clauses_with};
ghost use Rattle.mon_trail.specs.Picks.{Picked};
ghost use Rattle.mon_cdcl.specs.Back.{Turned};
ghost use Rattle.mon_cdcl.specs.Search.{Settled, Stepped, WentOn, Ended};
ghost use Rattle.mon_cdcl.specs.Solved.{Solved};
ghost use Rattle.mon_cdcl.specs.Counts.{AskedAtLeast, counted};
ghost use Rattle.mon_cdcl.specs.Asking.{asks_by, seen_in, seen_at, KeepsAsking, AskedFor};

use crate::analyse::{Turn, analyse};
use crate::backtrack::{fall_back, first_decision, last_seen};
use crate::decide::Order;
use crate::learn::{collect, learn};
use crate::propagate::{begin, propagate};
use crate::restart::Restarts;
use crate::seen::Seen;
use crate::stop::Stop;
use crate::watch::Watches;
use mon_cnf::{Bits, Clause, Formula};
use mon_list::OutOfMemory;
use mon_refute::{Hints, Log, LogLine};
use mon_trail::{Entry, Mark, Pick, Trail, pick_open};
use std::alloc::Global;

/// What is known of a formula.
#[derive(Drop)]
pub enum Found {
    /// These values satisfy it, one for each variable.
    Model(Bits),
    /// No values do, as this log shows.
    Refuted(Log),
    /// The search was given up for this version.
    Stopped(u64),
}

/// How the search ended.
#[derive(Clone, Copy)]
pub enum End {
    /// The marks make each clause true.
    AllTrue,
    /// The log refutes the formula.
    Refuted,
    /// The search is given up for this version.
    Stopped(u64),
}

/// What the search does where no clause forces a literal.
#[derive(Clone, Copy)]
pub enum Go {
    /// It goes on with the trail as it is now.
    On,
    /// The clause of this number is false.
    Conflict(u64),
    /// Each clause is true.
    End,
}

/// Where to look next. Nothing has to be proved of it.
#[derive(Drop)]
struct Guide {
    watches: Watches,
    order: Order,
}

/// Takes the trail back to where what is seen forces a literal, learns that clause, and gives the literal.
fn force(
    alloc: Global,
    f: &Formula,
    log: &mut Vec<LogLine>,
    trail: &mut Trail,
    seen: &Seen,
    guide: &mut Guide,
    hints: &Hints,
    turn: Turn,
) -> Result<Entry, OutOfMemory>
    requires stands { Stands f.now log.old.items trail.old.entries.items trail.old.marks.items }
    requires within { turn.len ≤ length trail.old.entries.items }
    ensures settled { IfOk result (λ e. (before : List AnEntry) → Turned f.now before log.old.items trail.old.entries.items trail.old.marks.items seen.now.flags.items seen.now.vars.items hints.now turn → Settled f.now before log.new.items trail.new.entries.items trail.new.marks.items (Some e)) }
    ensures longer { IfOk result (λ _. length log.new.items ≡ length log.old.items + 1) }
{
    fall_back(f, log, trail, &mut guide.order, turn.len)?;
    let mut clause = collect(alloc, &trail.marks, seen)?;
    clause.push(turn.literal)?;
    let number = learn(alloc, f, log, clause, hints)?;
    let second = last_seen(&trail.entries, seen).unwrap_or(turn.literal);
    guide.watches.attach(number, turn.literal, second)?;
    guide.watches.cut(trail.entries.len());
    Ok(Entry {
        literal: turn.literal,
        reason: Some(number),
    })
}

/// Learns of a conflict, and takes the trail back to where the learned clause forces a literal. Where it forces none, the log
/// is at its end.
fn settle(
    alloc: Global,
    f: &Formula,
    log: &mut Vec<LogLine>,
    trail: &mut Trail,
    seen: &mut Seen,
    guide: &mut Guide,
    conflict: u64,
) -> Result<Option<Entry>, OutOfMemory>
    requires stands { Stands f.now log.old.items trail.old.entries.items trail.old.marks.items }
    requires closed { IsClosed (clauses_with f.now log.old.items) trail.old.marks.items conflict }
    requires sized { length seen.old.flags.items ≡ f.now.vars }
    ensures settled { IfOk result (Settled f.now trail.old.entries.items log.new.items trail.new.entries.items trail.new.marks.items) }
    ensures longer { IfOk result (λ _. length log.new.items ≡ length log.old.items + 1) }
    ensures sized { IfOk result (λ _. length seen.new.flags.items ≡ f.now.vars) }
{
    let mut hints = Hints::new(alloc);
    match analyse(f, log, trail, seen, &mut hints, &mut guide.order, conflict)? {
        None => {
            learn(alloc, f, log, Clause::new(alloc), &hints)?;
            Ok(None)
        }
        Some(turn) => {
            let entry = force(alloc, f, log, trail, seen, guide, &hints, turn)?;
            Ok(Some(entry))
        }
    }
}

/// Learns of a conflict, and goes on with what that forces, or ends, or stops.
fn learn_of<S: Stop>(
    alloc: Global,
    f: &Formula,
    log: &mut Vec<LogLine>,
    trail: &mut Trail,
    seen: &mut Seen,
    guide: &mut Guide,
    conflict: u64,
    stop: &mut S,
) -> Result<Option<End>, OutOfMemory>
    requires stands { Stands f.now log.old.items trail.old.entries.items trail.old.marks.items }
    requires closed { IsClosed (clauses_with f.now log.old.items) trail.old.marks.items conflict }
    requires sized { length seen.old.flags.items ≡ f.now.vars }
    requires unshown { S.shown stop.old ≡ None }
    ensures stepped { IfOk result (λ end. (left : ℕ) → Stepped f.now left trail.old.entries.items left log.new.items trail.new end) }
    ensures sized { IfOk result (λ _. length seen.new.flags.items ≡ f.now.vars) }
    ensures about { S.about stop.new ≡ S.about stop.old }
    ensures same { S.floor stop.new ≡ S.floor stop.old }
    ensures shown { MatchResult result (λ end. S.shown stop.new ≡ seen_at end) (λ _. S.shown stop.new ≡ None) }
    ensures asked { IfOk result (KeepsAsking log.old.items (S.asked stop.old) log.new.items (S.asked stop.new)) }
    ensures once { S.asked stop.new ≡ option_map (λ n. counted (n + 1)) (S.asked stop.old) }
{
    match stop.ask() {
        Some(version) => return Ok(Some(End::Stopped(version))),
        None => {}
    }
    match settle(alloc, f, log, trail, seen, guide, conflict)? {
        None => Ok(Some(End::Refuted)),
        Some(entry) => {
            trail.enter(entry)?;
            guide.order.age();
            Ok(None)
        }
    }
}

/// What to decide, where no clause forces a literal.
fn decide(f: &Formula, trail: &Trail, order: &mut Order) -> Pick
    requires { length trail.now.marks.items ≡ f.now.vars }
    ensures { (lines : List (List Lit)) → Picked f.now.clauses lines trail.now.marks.items result }
{
    match order.next(&trail.marks) {
        Some(literal) => Pick::Enter(Entry {
            literal,
            reason: None,
        }),
        None => pick_open(f, &trail.marks),
    }
}

/// Takes a step where no clause is false and none forces a literal: restarts, decides, or finds that all clauses are true.
fn go_on(
    f: &Formula,
    log: &[LogLine],
    trail: &mut Trail,
    guide: &mut Guide,
    restarts: &mut Restarts,
) -> Result<Go, OutOfMemory>
    requires { Stands f.now log.now trail.old.entries.items trail.old.marks.items }
    ensures { IfOk result (WentOn f.now restarts.old.left trail.old restarts.new.left log.now trail.new) }
{
    if restarts.is_due() {
        let len = first_decision(&trail.entries);
        fall_back(f, log, trail, &mut guide.order, len)?;
        guide.watches.cut(len);
        return Ok(Go::On);
    }
    match decide(f, trail, &mut guide.order) {
        Pick::Done => Ok(Go::End),
        Pick::Close(conflict) => Ok(Go::Conflict(conflict)),
        Pick::Enter(entry) => {
            trail.enter(entry)?;
            Ok(Go::On)
        }
    }
}

/// Takes the next step of the search.
fn step<S: Stop>(
    alloc: Global,
    f: &Formula,
    log: &mut Vec<LogLine>,
    trail: &mut Trail,
    seen: &mut Seen,
    guide: &mut Guide,
    restarts: &mut Restarts,
    stop: &mut S,
) -> Result<Option<End>, OutOfMemory>
    requires stands { Stands f.now log.old.items trail.old.entries.items trail.old.marks.items }
    requires sized { length seen.old.flags.items ≡ f.now.vars }
    requires unshown { S.shown stop.old ≡ None }
    ensures stepped { IfOk result (Stepped f.now restarts.old.left trail.old.entries.items restarts.new.left log.new.items trail.new) }
    ensures sized { IfOk result (λ _. length seen.new.flags.items ≡ f.now.vars) }
    ensures about { S.about stop.new ≡ S.about stop.old }
    ensures same { S.floor stop.new ≡ S.floor stop.old }
    ensures shown { MatchResult result (λ end. S.shown stop.new ≡ seen_at end) (λ _. S.shown stop.new ≡ None) }
    ensures asked { IfOk result (KeepsAsking log.old.items (S.asked stop.old) log.new.items (S.asked stop.new)) }
{
    match propagate(f, log, trail, &mut guide.watches)? {
        None => {}
        Some(conflict) => {
            restarts.conflict();
            return learn_of(alloc, f, log, trail, seen, guide, conflict, stop);
        }
    }
    match go_on(f, log, trail, guide, restarts)? {
        Go::On => Ok(None),
        Go::End => Ok(Some(End::AllTrue)),
        Go::Conflict(conflict) => learn_of(alloc, f, log, trail, seen, guide, conflict, stop),
    }
}

/// Searches until the marks make each clause true, the log refutes the formula, or the stop gives a version.
fn search<S: Stop>(
    alloc: Global,
    f: &Formula,
    log: &mut Vec<LogLine>,
    trail: &mut Trail,
    stop: &mut S,
) -> Result<End, OutOfMemory>
    requires free { trail.old.marks.items ≡ replicate f.now.vars Free }
    requires empty { trail.old.entries.items ≡ [] }
    requires new { log.old.items ≡ [] }
    requires unshown { S.shown stop.old ≡ None }
    ensures ended { IfOk result (Ended f.now log.new.items trail.new.marks.items) }
    ensures about { S.about stop.new ≡ S.about stop.old }
    ensures same { S.floor stop.new ≡ S.floor stop.old }
    ensures shown { MatchResult result (λ end. S.shown stop.new ≡ seen_at (Some end)) (λ _. S.shown stop.new ≡ None) }
    ensures asked { IfOk result (λ end. AskedAtLeast (asks_by (Some end) (length log.new.items)) (S.asked stop.old) (S.asked stop.new)) }
{
    let mut seen = Seen::new(alloc, f.vars())?;
    let mut restarts = Restarts::new();
    let mut guide = Guide {
        watches: Watches::new(alloc, f.vars())?,
        order: Order::new(alloc, f.vars())?,
    };
    match begin(f, log, trail, &mut guide.watches)? {
        None => {}
        Some(conflict) => match learn_of(
            alloc, f, log, trail, &mut seen, &mut guide, conflict, stop,
        )? {
            Some(end) => return Ok(end),
            None => {}
        },
    }
    'steps: loop {
        match step(
            alloc,
            f,
            log,
            trail,
            &mut seen,
            &mut guide,
            &mut restarts,
            stop,
        )? {
            Some(end) => return Ok(end),
            None => {}
        }
    }
}

/// The values that the marks say, and false where they say none.
fn values(alloc: Global, marks: &[Mark]) -> Result<Bits, OutOfMemory>
    ensures { IfOk result (λ bits. bits ≡ map value_of marks.now) }
{
    let mut bits = Bits::new(alloc);
    for mark in marks {
        bits.push(matches!(mark, Mark::Is(true)))?;
    }
    Ok(bits)
}

/// Decides the formula: values that satisfy it, one for each variable, or a log that `mon_refute::accepts` accepts, so
/// that no values satisfy it. It ends with one of both, unless memory runs out or the stop gives a version. The stop is
/// asked before each conflict is learned of, so at least as often as the log has lines.
pub fn solve<S: Stop>(alloc: Global, f: &Formula, stop: &mut S) -> Result<Found, OutOfMemory>
    requires unshown { S.shown stop.old ≡ None }
    ensures solved { IfOk result (Solved f.now) }
    ensures about { S.about stop.new ≡ S.about stop.old }
    ensures same { S.floor stop.new ≡ S.floor stop.old }
    // What the stop gave last: a version where the search was given up for it, and none else.
    ensures shown { MatchResult result (λ found. S.shown stop.new ≡ seen_in found) (λ _. S.shown stop.new ≡ None) }
    ensures asked { IfOk result (λ found. AskedFor found (S.asked stop.old) (S.asked stop.new)) }
{
    let mut lines = Vec::new(alloc);
    let mut trail = Trail::new(alloc, f.vars())?;
    match search(alloc, f, &mut lines, &mut trail, stop)? {
        End::AllTrue => Ok(Found::Model(values(alloc, &trail.marks)?)),
        End::Refuted => Ok(Found::Refuted(Log::of(lines))),
        End::Stopped(version) => Ok(Found::Stopped(version)),
    }
}

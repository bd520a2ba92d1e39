//! The solver.

ghost use Rattle.std.specs.Prelude.{◌≡◌, ◌<◌, [], length, replicate, map, IfOk, true};
ghost use Rattle.mon_refute.specs.Follow.{all_follow};
ghost use Rattle.mon_plain.specs.declared.look.Mark.TheVariants.{Free};
ghost use Rattle.mon_plain.specs.Marks.{value_of};
ghost use Rattle.mon_plain.specs.Trail.{Stands};
ghost use Rattle.mon_plain.specs.Search.{Stepped, Ended};
ghost use Rattle.mon_plain.specs.Decided.{Decided};

use crate::back::{Back, back_up};
use crate::look::Mark;
use crate::pick::{Entry, Occurrences, Pick, Progress, pick_next};
use mon_cnf::{Bits, Clause, Formula};
use mon_list::OutOfMemory;
use mon_refute::{Hints, Log, LogLine};
use std::alloc::Global;

/// What is known of a formula.
#[derive(Drop)]
pub enum Outcome {
    /// These values satisfy it, one for each variable.
    Model(Bits),
    /// No values do, as this log shows.
    Refuted(Log),
}

/// What the search does next.
#[derive(Clone, Copy)]
pub enum Step {
    /// This comes to the trail.
    Next(Entry),
    /// Each clause is true.
    Satisfied,
    /// The clause of this number is false with an empty trail.
    Refuted(u64),
}

/// How the search ended.
#[derive(Clone, Copy)]
pub enum End {
    /// The marks make each clause true.
    AllTrue,
    /// The clause of this number has no literal.
    Conflict(u64),
}

/// Finds the next step, and takes the trail back where there is a conflict.
fn next_step(
    alloc: Global,
    f: &Formula,
    log: &mut Vec<LogLine>,
    marks: &mut [Mark],
    trail: &mut Vec<Entry>,
    occurrences: &Occurrences,
    progress: &mut Progress,
) -> Result<Step, OutOfMemory>
    requires { Stands f.now log.old.items trail.old.items marks.old }
    ensures { IfOk result (Stepped f.now trail.old.items log.new.items trail.new.items marks.new) }
{
    match pick_next(f, marks, trail, occurrences, progress) {
        Pick::Done => Ok(Step::Satisfied),
        Pick::Enter(entry) => Ok(Step::Next(entry)),
        Pick::Close(conflict) => match back_up(alloc, f, log, marks, trail, conflict)? {
            Back::Refutes(number) => Ok(Step::Refuted(number)),
            Back::Forces(entry) => Ok(Step::Next(entry)),
        },
    }
}

/// Searches until the marks make each clause true, or the log refutes the formula.
fn search(
    alloc: Global,
    f: &Formula,
    log: &mut Vec<LogLine>,
    marks: &mut [Mark],
) -> Result<End, OutOfMemory>
    requires free { marks.old ≡ replicate f.now.vars Free }
    requires empty { log.old.items ≡ [] }
    ensures { IfOk result (Ended f.now log.new.items marks.new) }
{
    let occurrences = Occurrences::of(alloc, f)?;
    let mut progress = Progress::start();
    let mut trail = Vec::new(alloc);
    loop {
        match next_step(
            alloc,
            f,
            log,
            marks,
            &mut trail,
            &occurrences,
            &mut progress,
        )? {
            Step::Satisfied => return Ok(End::AllTrue),
            Step::Refuted(number) => return Ok(End::Conflict(number)),
            Step::Next(entry) => {
                progress.cut(trail.len());
                marks[entry.literal.var as usize] = Mark::Is(entry.literal.positive);
                trail.push(entry)?;
            }
        }
    }
}

/// The values that the marks say, and false where they say none.
fn values(alloc: Global, marks: &[Mark]) -> Result<Bits, OutOfMemory>
    ensures { IfOk result (λ bits. bits ≡ map value_of marks.now) }
{
    let mut bits = Bits::new(alloc);
    for mark in marks {
        bits.push(matches!(mark, Mark::Is(true)))?;
    }
    Ok(bits)
}

/// Decides the formula: values that satisfy it, one for each variable, or a log that `mon_refute::accepts` accepts, so
/// that no values satisfy it. It always ends with one of both, unless memory runs out.
pub fn solve_plain(alloc: Global, f: &Formula) -> Result<Outcome, OutOfMemory>
    ensures { IfOk result (Decided f.now) }
{
    let mut lines = Vec::new(alloc);
    let mut marks = vec![in alloc; Mark::Free; f.vars() as usize]?;
    match search(alloc, f, &mut lines, &mut marks)? {
        End::AllTrue => Ok(Outcome::Model(values(alloc, &marks)?)),
        End::Conflict(number) => {
            let mut hints = Hints::new(alloc);
            hints.push(number)?;
            lines.push(LogLine {
                literals: Clause::new(alloc),
                hints,
            })?;
            Ok(Outcome::Refuted(Log::of(lines)))
        }
    }
}

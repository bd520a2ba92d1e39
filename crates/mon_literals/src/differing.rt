//! When two rewrites of one header differ.

ghost use Rattle.std.specs.Prelude.{◌≡◌, IfOk, Some, None, if◌then◌else◌};
ghost use Rattle.mon_literals.specs.Differing.{field_differs, either_differs, differ};

use crate::run::{Run, push_run};
use mon_cnf::{Clause, OutOfMemory};
use mon_outcome::Rewrite;
use std::alloc::Global;

/// Appends the literals of which one is true where the field differs, and answers whether it can be the same at all.
fn push_difference(
    literals: &mut Clause,
    start: u16,
    count: u16,
    one: Option<u64>,
    other: Option<u64>,
) -> Result<bool, OutOfMemory>
    ensures { IfOk result (λ can_agree. either_differs (Some literals.old) (field_differs start count one other) ≡ (if can_agree then Some literals.new else None)) }
{
    match (one, other) {
        (None, None) => Ok(true),
        (Some(number), None) | (None, Some(number)) => {
            let run = Run {
                start,
                count,
                number,
            };
            push_run(literals, run, false)?;
            Ok(true)
        }
        (Some(x), Some(y)) => Ok(x == y),
    }
}

/// The clause that says that what two rewrites make of one header differs, or `None` where it always does: where they
/// fix a field to different values (`clauses_that_differ`).
pub fn differ(alloc: Global, a: &Rewrite, b: &Rewrite) -> Result<Option<Clause>, OutOfMemory>
    ensures { IfOk result (λ d. d ≡ differ a.now b.now) }
{
    let mut literals = Clause::new(alloc);
    let mut start = 0;
    let others = b.laid();
    for (i, (count, field)) in a.laid().iter().enumerate() {
        if !push_difference(&mut literals, start, *count, *field, others[i].1)? {
            return Ok(None);
        }
        start += *count;
    }
    Ok(Some(literals))
}

//! Chunks that owners share: a change is made to a chunk of one owner, and else to a copy.

ghost use Rattle.std.specs.Prelude.{◌≡◌, ◌<◌, ◌≤◌, length, take, drop, slice_index_or, slice_set, IfOk, OnOk, OnErr};
ghost use Rattle.std.specs.Arc.{arc_value};
ghost use Rattle.std.specs.List.{insert, remove};

use crate::chunk::Chunk;
use crate::rule::Rule;
use mon_header::OutOfMemory;
use std::alloc::Global;
use std::sync::Arc;

/// Puts a copy in place of a chunk that has other owners.
fn own(alloc: Global, shared: &mut Arc<Chunk>) -> Result<(), OutOfMemory>
    ensures { arc_value shared.new ≡ arc_value shared.old }
{
    if Arc::strong_count(shared) != 1 {
        let copy = shared.copied(alloc)?;
        *shared = Arc::new(alloc, copy)?;
    }
    Ok(())
}

/// Puts a rule in place of another, and gives that. An error changes nothing.
pub(crate) fn replace(
    alloc: Global,
    shared: &mut Arc<Chunk>,
    place: usize,
    rule: Rule,
) -> Result<Rule, OutOfMemory>
    requires { place < length (arc_value shared.old) }
    ensures rules { OnOk result (arc_value shared.new ≡ slice_set (arc_value shared.old) place rule) }
    ensures old { IfOk result (λ r. r ≡ slice_index_or (arc_value shared.old) place r) }
    ensures same { OnErr result (arc_value shared.new ≡ arc_value shared.old) }
{
    own(alloc, shared)?;
    match Arc::get_mut(shared) {
        Some(chunk) => Ok(chunk.replace(place, rule)),
        None => Err(OutOfMemory),
    }
}

/// Puts a rule between others. An error changes nothing.
pub(crate) fn insert(
    alloc: Global,
    shared: &mut Arc<Chunk>,
    place: usize,
    rule: Rule,
) -> Result<(), OutOfMemory>
    requires place { place ≤ length (arc_value shared.old) }
    requires room { length (arc_value shared.old) < 64 }
    ensures put { OnOk result (arc_value shared.new ≡ insert (arc_value shared.old) place rule) }
    ensures same { OnErr result (arc_value shared.new ≡ arc_value shared.old) }
{
    own(alloc, shared)?;
    match Arc::get_mut(shared) {
        Some(chunk) => chunk.insert(place, rule),
        None => Err(OutOfMemory),
    }
}

/// Takes out a rule that is not the only one, and gives it. An error changes nothing.
pub(crate) fn remove(
    alloc: Global,
    shared: &mut Arc<Chunk>,
    place: usize,
) -> Result<Rule, OutOfMemory>
    requires place { place < length (arc_value shared.old) }
    requires more { 1 < length (arc_value shared.old) }
    ensures rules { OnOk result (arc_value shared.new ≡ remove (arc_value shared.old) place) }
    ensures old { IfOk result (λ r. r ≡ slice_index_or (arc_value shared.old) place r) }
    ensures same { OnErr result (arc_value shared.new ≡ arc_value shared.old) }
{
    own(alloc, shared)?;
    match Arc::get_mut(shared) {
        Some(chunk) => Ok(chunk.remove(place)),
        None => Err(OutOfMemory),
    }
}

/// Takes the upper half of a full chunk out, as a chunk of its own. An error changes nothing.
pub(crate) fn split(alloc: Global, shared: &mut Arc<Chunk>) -> Result<Arc<Chunk>, OutOfMemory>
    requires { length (arc_value shared.old) ≡ 64 }
    ensures lower { OnOk result (arc_value shared.new ≡ take 32 (arc_value shared.old)) }
    ensures upper { IfOk result (λ upper. arc_value upper ≡ drop 32 (arc_value shared.old)) }
    ensures same { OnErr result (arc_value shared.new ≡ arc_value shared.old) }
{
    own(alloc, shared)?;
    match Arc::get_mut(shared) {
        Some(chunk) => chunk.split(alloc),
        None => Err(OutOfMemory),
    }
}

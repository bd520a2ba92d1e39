//! Edits of a list of chunks. What they do is said of the rules of all chunks, one after the other.

ghost use Rattle.std.specs.Prelude.{◌≡◌, ◌+◌, ◌<◌, ◌≤◌, suc, length, take, drop, slice_index_or, slice_set, IfOk, OnOk, OnErr, vec_len, vec_capacity};
ghost use Rattle.std.specs.List.{insert, remove};
ghost use Rattle.mon_table.specs.Chunks.{rules_of, chunk_at, place_in, NoneEmpty};

use crate::chunk::{Chunk, MOST_RULES};
use crate::rule::Rule;
use crate::shared;
use mon_header::OutOfMemory;
use std::alloc::Global;
use std::sync::Arc;

/// The number of rules of a chunk.
fn len_at(chunks: &[Arc<Chunk>], at: usize) -> usize
    requires { at < length chunks.now }
    ensures len { result ≡ length (chunk_at chunks.now at) }
    ensures few { result ≤ 64 }
{
    chunks[at].rules().len()
}

/// Puts a rule in place of another, and gives that. An error changes nothing.
pub(crate) fn replace_at(
    alloc: Global,
    chunks: &mut Vec<Arc<Chunk>>,
    at: usize,
    place: usize,
    rule: Rule,
) -> Result<Rule, OutOfMemory>
    requires chunk { at < length chunks.old.items }
    requires place { place < length (chunk_at chunks.old.items at) }
    requires none_empty { NoneEmpty chunks.old.items }
    ensures rules { OnOk result (rules_of chunks.new.items ≡ slice_set (rules_of chunks.old.items) (place_in chunks.old.items at place) rule) }
    ensures old { IfOk result (λ r. r ≡ slice_index_or (rules_of chunks.old.items) (place_in chunks.old.items at place) r) }
    ensures same { OnErr result (rules_of chunks.new.items ≡ rules_of chunks.old.items) }
    ensures none_empty { NoneEmpty chunks.new.items }
{
    shared::replace(alloc, &mut chunks[at], place, rule)
}

/// Puts a rule into a chunk that has room. An error changes nothing.
fn insert_within(
    alloc: Global,
    chunks: &mut Vec<Arc<Chunk>>,
    at: usize,
    place: usize,
    rule: Rule,
) -> Result<(), OutOfMemory>
    requires chunk { at < length chunks.old.items }
    requires place { place ≤ length (chunk_at chunks.old.items at) }
    requires room { length (chunk_at chunks.old.items at) < 64 }
    requires none_empty { NoneEmpty chunks.old.items }
    ensures rules { OnOk result (rules_of chunks.new.items ≡ insert (rules_of chunks.old.items) (place_in chunks.old.items at place) rule) }
    ensures same { OnErr result (rules_of chunks.new.items ≡ rules_of chunks.old.items) }
    ensures none_empty { NoneEmpty chunks.new.items }
{
    shared::insert(alloc, &mut chunks[at], place, rule)
}

/// Puts a chunk of one rule before a chunk, or behind the last. An error changes nothing.
pub(crate) fn insert_chunk(
    alloc: Global,
    chunks: &mut Vec<Arc<Chunk>>,
    at: usize,
    rule: Rule,
) -> Result<(), OutOfMemory>
    requires chunk { at ≤ length chunks.old.items }
    requires none_empty { NoneEmpty chunks.old.items }
    ensures rules { OnOk result (rules_of chunks.new.items ≡ insert (rules_of chunks.old.items) (place_in chunks.old.items at 0) rule) }
    ensures same { OnErr result (rules_of chunks.new.items ≡ rules_of chunks.old.items) }
    ensures none_empty { NoneEmpty chunks.new.items }
{
    let chunk = Arc::new(alloc, Chunk::of(alloc, rule)?)?;
    chunks.insert(at, chunk)?;
    Ok(())
}

/// Puts a chunk before another or behind the last, where there is room for it.
fn insert_reserved(chunks: &mut Vec<Arc<Chunk>>, at: usize, chunk: Arc<Chunk>)
    requires at { at ≤ length chunks.old.items }
    requires room { vec_len chunks.old < vec_capacity chunks.old }
    ensures { chunks.new.items ≡ insert chunks.old.items at chunk }
{
    match chunks.insert_mut(at, chunk) {
        Ok(_) => {}
        Err(_) => unreachable!(),
    }
}

/// Parts a full chunk in two. The rules are the same, whether there is an error or not.
fn split_at(alloc: Global, chunks: &mut Vec<Arc<Chunk>>, at: usize) -> Result<(), OutOfMemory>
    requires chunk { at < length chunks.old.items }
    requires full { length (chunk_at chunks.old.items at) ≡ 64 }
    requires none_empty { NoneEmpty chunks.old.items }
    ensures rules { rules_of chunks.new.items ≡ rules_of chunks.old.items }
    ensures before { OnOk result (take at chunks.new.items ≡ take at chunks.old.items) }
    ensures lower { OnOk result (chunk_at chunks.new.items at ≡ take 32 (chunk_at chunks.old.items at)) }
    ensures upper { OnOk result (chunk_at chunks.new.items (suc at) ≡ drop 32 (chunk_at chunks.old.items at)) }
    ensures more { OnOk result (suc at < length chunks.new.items) }
    ensures none_empty { NoneEmpty chunks.new.items }
{
    chunks.reserve(1)?;
    let upper = shared::split(alloc, &mut chunks[at])?;
    insert_reserved(chunks, at + 1, upper);
    Ok(())
}

/// Puts a rule into a full chunk, which is parted. An error changes nothing.
fn insert_split(
    alloc: Global,
    chunks: &mut Vec<Arc<Chunk>>,
    at: usize,
    place: usize,
    rule: Rule,
) -> Result<(), OutOfMemory>
    requires chunk { at < length chunks.old.items }
    requires place { place ≤ length (chunk_at chunks.old.items at) }
    requires full { length (chunk_at chunks.old.items at) ≡ 64 }
    requires none_empty { NoneEmpty chunks.old.items }
    ensures rules { OnOk result (rules_of chunks.new.items ≡ insert (rules_of chunks.old.items) (place_in chunks.old.items at place) rule) }
    ensures same { OnErr result (rules_of chunks.new.items ≡ rules_of chunks.old.items) }
    ensures none_empty { NoneEmpty chunks.new.items }
{
    split_at(alloc, chunks, at)?;
    if place <= MOST_RULES / 2 {
        return insert_within(alloc, chunks, at, place, rule);
    }
    insert_within(alloc, chunks, at + 1, place - MOST_RULES / 2, rule)
}

/// Puts a rule into a chunk. One at an end of a full chunk gets a chunk of its own, so that rules which come in order
/// fill their chunks. An error changes nothing.
pub(crate) fn insert_at(
    alloc: Global,
    chunks: &mut Vec<Arc<Chunk>>,
    at: usize,
    place: usize,
    rule: Rule,
) -> Result<(), OutOfMemory>
    requires chunk { at < length chunks.old.items }
    requires place { place ≤ length (chunk_at chunks.old.items at) }
    requires none_empty { NoneEmpty chunks.old.items }
    ensures rules { OnOk result (rules_of chunks.new.items ≡ insert (rules_of chunks.old.items) (place_in chunks.old.items at place) rule) }
    ensures same { OnErr result (rules_of chunks.new.items ≡ rules_of chunks.old.items) }
    ensures none_empty { NoneEmpty chunks.new.items }
{
    let len = len_at(chunks, at);
    if len < MOST_RULES {
        return insert_within(alloc, chunks, at, place, rule);
    }
    if place == 0 {
        return insert_chunk(alloc, chunks, at, rule);
    }
    if place == len {
        return insert_chunk(alloc, chunks, at + 1, rule);
    }
    insert_split(alloc, chunks, at, place, rule)
}

/// Takes a chunk out that has one rule, and gives the rule. An error changes nothing.
fn remove_chunk(alloc: Global, chunks: &mut Vec<Arc<Chunk>>, at: usize) -> Result<Rule, OutOfMemory>
    requires chunk { at < length chunks.old.items }
    requires one { length (chunk_at chunks.old.items at) ≡ 1 }
    requires none_empty { NoneEmpty chunks.old.items }
    ensures rules { OnOk result (rules_of chunks.new.items ≡ remove (rules_of chunks.old.items) (place_in chunks.old.items at 0)) }
    ensures old { IfOk result (λ r. r ≡ slice_index_or (rules_of chunks.old.items) (place_in chunks.old.items at 0) r) }
    ensures same { OnErr result (rules_of chunks.new.items ≡ rules_of chunks.old.items) }
    ensures none_empty { NoneEmpty chunks.new.items }
{
    let rule = chunks[at].first(alloc)?;
    let _ = chunks.remove(at);
    Ok(rule)
}

/// Takes a rule out, and with the last of a chunk the chunk. An error changes nothing.
pub(crate) fn remove_at(
    alloc: Global,
    chunks: &mut Vec<Arc<Chunk>>,
    at: usize,
    place: usize,
) -> Result<Rule, OutOfMemory>
    requires chunk { at < length chunks.old.items }
    requires place { place < length (chunk_at chunks.old.items at) }
    requires none_empty { NoneEmpty chunks.old.items }
    ensures rules { OnOk result (rules_of chunks.new.items ≡ remove (rules_of chunks.old.items) (place_in chunks.old.items at place)) }
    ensures old { IfOk result (λ r. r ≡ slice_index_or (rules_of chunks.old.items) (place_in chunks.old.items at place) r) }
    ensures same { OnErr result (rules_of chunks.new.items ≡ rules_of chunks.old.items) }
    ensures none_empty { NoneEmpty chunks.new.items }
{
    if len_at(chunks, at) == 1 {
        return remove_chunk(alloc, chunks, at);
    }
    shared::remove(alloc, &mut chunks[at], place)
}

//! Lookups over chunks. A chunk whose cover does not take a header, or does not overlap a match, is left out.

ghost use Rattle.std.specs.Prelude.{◌≡◌, ◌+◌, ◌<◌, ◌≤◌, ◌^◌, [], ◌++◌, length, slice_index_or, IsTrue, IfOk, IfSome, OnOk};
ghost use Rattle.mon_header.specs.Matching.{IsNormal};
ghost use Rattle.std.specs.Arc.{arc_value};
ghost use Rattle.mon_table.specs.Tables.{IsTable, InOrder, AllNormal, places_from, places, is_named, slice, tied};
ghost use Rattle.mon_table.specs.Winners.{may_miss};
ghost use Rattle.mon_table.specs.Places.{hides, least_rank, is_from_rank};
ghost use Rattle.mon_table.specs.Chunks.{rules_of, chunk_at, place_in, NoneEmpty, hiding_rank, part_rules};

use crate::chunk::Chunk;
use crate::rule::Rule;
use mon_header::{Header, Match, OutOfMemory, covers, matches, overlaps};
use std::alloc::Global;
use std::sync::Arc;

/// The rule at a place, counted from 0 in table order.
pub(crate) fn rule_at(chunks: &[Arc<Chunk>], place: usize) -> &Rule
    requires { place < length (rules_of chunks.now) }
    ensures { result.now ≡ slice_index_or (rules_of chunks.now) place result.now }
{
    let mut left = place;
    for chunk in chunks {
        let rules = chunk.rules();
        if left < rules.len() {
            return &rules[left];
        }
        left -= rules.len();
    }
    unreachable!()
}

/// The number of rules.
pub(crate) fn count(chunks: &[Arc<Chunk>]) -> u32
    requires { length (rules_of chunks.now) < 2 ^ 32 }
    ensures { result ≡ length (rules_of chunks.now) }
{
    let mut count: u32 = 0;
    for chunk in chunks {
        count += chunk.rules().len() as u32;
    }
    count
}

/// The place among all rules of one that stands at a place of a chunk.
pub(crate) fn place_in(chunks: &[Arc<Chunk>], at: usize, place: usize) -> u32
    requires chunk { at < length chunks.now }
    requires place { place ≤ length (chunk_at chunks.now at) }
    requires few { length (rules_of chunks.now) < 2 ^ 32 }
    ensures { result ≡ place_in chunks.now at place }
{
    count(&chunks[..at]) + place as u32
}

/// Lists the places of the rules of a chunk whose match is covered, where so many rules stand before the chunk.
fn name_in(named: &mut Vec<u32>, before: u32, rules: &[Rule], m: &Match) -> Result<(), OutOfMemory>
    requires { before + length rules.now < 2 ^ 32 }
    ensures { OnOk result (named.new.items ≡ named.old.items ++ places_from before (is_named m.now) rules.now) }
{
    for (place, rule) in rules.iter().enumerate() {
        if covers(m, &rule.matching) {
            named.push(before + place as u32)?;
        }
    }
    Ok(())
}

/// The places of the rules whose match is covered, rising.
pub(crate) fn named(
    alloc: Global,
    chunks: &[Arc<Chunk>],
    m: &Match,
) -> Result<Vec<u32>, OutOfMemory>
    requires { length (rules_of chunks.now) < 2 ^ 32 }
    ensures { IfOk result (λ named. named.items ≡ places (is_named m.now) (rules_of chunks.now)) }
{
    let mut named = Vec::new(alloc);
    let mut before: u32 = 0;
    for chunk in chunks {
        let rules = chunk.rules();
        name_in(&mut named, before, rules, m)?;
        before += rules.len() as u32;
    }
    Ok(named)
}

/// Whether the rule is sure, and matches the header.
fn hides(h: &Header, rule: &Rule) -> bool
    ensures { result ≡ hides h.now rule.now }
{
    !rule.unsure && matches(&rule.matching, h)
}

/// The effective priority of the first sure rule that matches the header.
fn hiding_rank(rules: &[Rule], h: &Header) -> Option<u32>
    ensures { result ≡ hiding_rank h.now rules.now }
{
    for rule in rules {
        if hides(h, rule) {
            return Some(rule.rank());
        }
    }
    None
}

/// The same of a chunk.
fn hiding_rank_of(chunk: &Chunk, h: &Header) -> Option<u32>
    ensures { result ≡ hiding_rank h.now chunk.now }
{
    if matches(chunk.cover(), h) {
        return hiding_rank(chunk.rules(), h);
    }
    None
}

/// The effective priority of the first sure rule that matches the header, and 0 where none does.
pub(crate) fn least_rank(chunks: &[Arc<Chunk>], h: &Header) -> u32
    ensures { result ≡ least_rank h.now (rules_of chunks.now) }
{
    for chunk in chunks {
        if let Some(rank) = hiding_rank_of(chunk, h) {
            return rank;
        }
    }
    0
}

/// Lists the places of the rules of a chunk from one effective priority up that match the header, where so many rules
/// stand before the chunk.
fn win_in(
    found: &mut Vec<u32>,
    before: u32,
    rules: &[Rule],
    h: &Header,
    least: u32,
) -> Result<(), OutOfMemory>
    requires { before + length rules.now < 2 ^ 32 }
    ensures { OnOk result (found.new.items ≡ found.old.items ++ places_from before (is_from_rank h.now least) rules.now) }
{
    for (place, rule) in rules.iter().enumerate() {
        if least <= rule.rank() && matches(&rule.matching, h) {
            found.push(before + place as u32)?;
        }
    }
    Ok(())
}

/// The same of a chunk with its cover.
fn win_in_chunk(
    found: &mut Vec<u32>,
    before: u32,
    chunk: &Chunk,
    h: &Header,
    least: u32,
) -> Result<(), OutOfMemory>
    requires { before + length chunk.now < 2 ^ 32 }
    ensures { OnOk result (found.new.items ≡ found.old.items ++ places_from before (is_from_rank h.now least) chunk.now) }
{
    if matches(chunk.cover(), h) {
        return win_in(found, before, chunk.rules(), h, least);
    }
    Ok(())
}

/// The places of the rules from one effective priority up that match the header. Chunks of lower ones are not looked at.
pub(crate) fn places_from_rank(
    alloc: Global,
    chunks: &[Arc<Chunk>],
    h: &Header,
    least: u32,
) -> Result<Vec<u32>, OutOfMemory>
    requires order { InOrder (rules_of chunks.now) }
    requires few { length (rules_of chunks.now) < 2 ^ 32 }
    ensures { IfOk result (λ found. found.items ≡ places (is_from_rank h.now least) (rules_of chunks.now)) }
{
    let mut found = Vec::new(alloc);
    let mut before: u32 = 0;
    for chunk in chunks {
        let rules = chunk.rules();
        if rules[0].rank() < least {
            return Ok(found);
        }
        win_in_chunk(&mut found, before, chunk, h, least)?;
        before += rules.len() as u32;
    }
    Ok(found)
}

/// Whether no sure rule of a chunk matches the header.
fn misses(rules: &[Rule], h: &Header) -> bool
    ensures { result ≡ may_miss rules.now h.now }
{
    rules
        .iter()
        .all(|rule| !matches(&rule.matching, h) || rule.unsure)
}

/// The same of a chunk with its cover.
fn chunk_misses(chunk: &Chunk, h: &Header) -> bool
    ensures { result ≡ may_miss chunk.now h.now }
{
    if matches(chunk.cover(), h) {
        return misses(chunk.rules(), h);
    }
    true
}

/// Whether no sure rule matches the header.
pub(crate) fn may_miss(chunks: &[Arc<Chunk>], h: &Header) -> bool
    ensures { result ≡ may_miss (rules_of chunks.now) h.now }
{
    for chunk in chunks {
        if !chunk_misses(chunk, h) {
            return false;
        }
    }
    true
}

/// Whether a rule of a chunk ties with the rule.
fn ties(rules: &[Rule], rule: &Rule) -> bool
    ensures { result ≡ tied rules.now rule.now }
{
    rules.iter().any(|other| rule.ties(other))
}

/// Whether some rule ties with the rule.
pub(crate) fn tied(chunks: &[Arc<Chunk>], rule: &Rule) -> bool
    ensures { result ≡ tied (rules_of chunks.now) rule.now }
{
    for chunk in chunks {
        if ties(chunk.rules(), rule) {
            return true;
        }
    }
    false
}

/// Whether the cover tells that no rule of a chunk overlaps a match.
fn is_apart(chunk: &Chunk, m: &Match) -> bool
    requires { AllNormal chunk.now }
    ensures { IsTrue result → slice m.now chunk.now ≡ [] }
{
    m.keeps();
    !overlaps(m, chunk.cover())
}

/// A chunk of the rules that overlap a match, where there are any. It is shared where all do, and else copied.
fn overlapping(
    alloc: Global,
    chunk: &Arc<Chunk>,
    m: &Match,
) -> Result<Option<Arc<Chunk>>, OutOfMemory>
    requires { AllNormal (arc_value chunk.now) }
    ensures rules { IfOk result (λ part. part_rules part ≡ slice m.now (arc_value chunk.now)) }
    ensures some { IfOk result (λ part. IfSome part (λ c. 0 < length (arc_value c))) }
{
    if is_apart(chunk, m) {
        return Ok(None);
    }
    if chunk.all_overlap(m) {
        let whole = Arc::try_clone(chunk)?;
        return Ok(Some(whole));
    }
    match chunk.slice(alloc, m)? {
        Some(part) => Ok(Some(Arc::new(alloc, part)?)),
        None => Ok(None),
    }
}

/// Puts the rules of a chunk that overlap a match behind others.
fn slice_in(
    alloc: Global,
    parts: &mut Vec<Arc<Chunk>>,
    chunk: &Arc<Chunk>,
    m: &Match,
) -> Result<(), OutOfMemory>
    requires normal { AllNormal (arc_value chunk.now) }
    requires none_empty { NoneEmpty parts.old.items }
    ensures rules { OnOk result (rules_of parts.new.items ≡ rules_of parts.old.items ++ slice m.now (arc_value chunk.now)) }
    ensures none_empty { OnOk result (NoneEmpty parts.new.items) }
{
    match overlapping(alloc, chunk, m)? {
        Some(part) => {
            parts.push(part)?;
            Ok(())
        }
        None => Ok(()),
    }
}

/// Chunks of the rules that overlap a match.
pub(crate) fn slice(
    alloc: Global,
    chunks: &[Arc<Chunk>],
    m: &Match,
) -> Result<Vec<Arc<Chunk>>, OutOfMemory>
    requires { AllNormal (rules_of chunks.now) }
    ensures rules { IfOk result (λ parts. rules_of parts.items ≡ slice m.now (rules_of chunks.now)) }
    ensures none_empty { IfOk result (λ parts. NoneEmpty parts.items) }
{
    let mut parts = Vec::new(alloc);
    for chunk in chunks {
        slice_in(alloc, &mut parts, chunk, m)?;
    }
    Ok(parts)
}

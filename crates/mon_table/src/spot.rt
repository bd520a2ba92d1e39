//! The search for the place of a match and an effective priority: by halves over the chunks, and within one.

ghost use Rattle.std.specs.Prelude.{◌≡◌, ◌<◌, ◌≤◌, [], length, slice_index_or, IsTrue, IfSome, IfNone};
ghost use Rattle.mon_header.specs.Matching.{IsNormal};
ghost use Rattle.mon_table.specs.Tables.{IsTable, InOrder};
ghost use Rattle.mon_table.specs.Places.{place_of, stands_at};
ghost use Rattle.mon_table.specs.Chunks.{rules_of, NoneEmpty, IsAround, IsSpot};

use crate::chunk::Chunk;
use crate::rule::Rule;
use mon_header::Match;
use std::sync::Arc;

/// The number of rules that stand before one of this match and this effective priority.
fn search(rules: &[Rule], m: &Match, rank: u32) -> usize
    requires { InOrder rules.now }
    ensures value { result ≡ place_of (record { rank = rank; matching = m.now }) rules.now }
    ensures within { result ≤ length rules.now }
    ensures normal { IsNormal m.now }
{
    m.keeps();
    rules.partition_point(|rule| rule.comes_before(m, rank))
}

/// Whether a rule of this match and this effective priority stands at the place.
fn stands_at(rules: &[Rule], place: usize, m: &Match, rank: u32) -> bool
    ensures value { result ≡ stands_at (record { rank = rank; matching = m.now }) place rules.now }
    ensures within { IsTrue result → place < length rules.now }
{
    place < rules.len() && rules[place].has_identity(m, rank)
}

/// The chunk in which a rule of this match and this effective priority stands or would stand.
fn chunk_around(chunks: &[Arc<Chunk>], m: &Match, rank: u32) -> usize
    requires table { IsTable (rules_of chunks.now) }
    requires none_empty { NoneEmpty chunks.now }
    requires some { 0 < length chunks.now }
    ensures { IsAround (record { rank = rank; matching = m.now }) chunks.now result }
{
    m.keeps();
    let ended = chunks.partition_point(|chunk| chunk.ends_before(m, rank));
    if ended < chunks.len() {
        return ended;
    }
    ended - 1
}

/// A chunk and a place in it: those of a match and an effective priority, and whether a rule of them stands there.
#[derive(Clone, Copy)]
pub(crate) struct Spot {
    pub(crate) chunk: usize,
    pub(crate) place: usize,
    pub(crate) found: bool,
}

/// Where a rule of this match and this effective priority stands or would stand, or None where there is no chunk.
pub(crate) fn spot_of(chunks: &[Arc<Chunk>], m: &Match, rank: u32) -> Option<Spot>
    requires table { IsTable (rules_of chunks.now) }
    requires none_empty { NoneEmpty chunks.now }
    ensures none { IfNone result (rules_of chunks.now ≡ []) }
    ensures spot { IfSome result (λ s. IsSpot (record { rank = rank; matching = m.now }) chunks.now s.chunk s.place s.found) }
{
    if chunks.is_empty() {
        return None;
    }
    let chunk = chunk_around(chunks, m, rank);
    let rules = chunks[chunk].rules();
    let place = search(rules, m, rank);
    let found = stands_at(rules, place, m, rank);
    Some(Spot {
        chunk,
        place,
        found,
    })
}

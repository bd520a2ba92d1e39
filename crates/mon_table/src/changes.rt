//! Puts and cuts of rules in chunks.

ghost use Rattle.std.specs.Prelude.{◌≡◌, ◌<◌, ◌^◌, length, IfOk, OnErr};
ghost use Rattle.mon_header.specs.Actions.{AllFit};
ghost use Rattle.mon_header.specs.Matching.{IsNormal};
ghost use Rattle.mon_table.specs.Chunks.{rules_of, NoneEmpty, IsKept, AfterPut, AfterCut};
ghost use Rattle.mon_table.specs.Tables.{IsTable};

use crate::chunk::Chunk;
use crate::chunks::{insert_at, insert_chunk, remove_at, replace_at};
use crate::rule::Rule;
use crate::spot::spot_of;
use mon_header::{Match, OutOfMemory};
use std::alloc::Global;
use std::sync::Arc;

/// Puts a rule among so many others, in place of one of its identity, and gives that. An error changes no rule.
pub(crate) fn put(
    alloc: Global,
    chunks: &mut Vec<Arc<Chunk>>,
    count: u32,
    rule: Rule,
) -> Result<Option<Rule>, OutOfMemory>
    requires kept { IsKept chunks.old.items count }
    ensures put { IfOk result (λ old. AfterPut rule old chunks.old.items chunks.new.items) }
    ensures few { length (rules_of chunks.new.items) < 2 ^ 32 }
    ensures same { OnErr result (rules_of chunks.new.items ≡ rules_of chunks.old.items) }
    ensures none_empty { NoneEmpty chunks.new.items }
    ensures normal { IsNormal rule.matching }
    ensures fit { AllFit rule.actions }
{
    rule.keeps();
    let rank = rule.rank();
    let spot = match spot_of(chunks, &rule.matching, rank) {
        Some(spot) => spot,
        None => {
            insert_chunk(alloc, chunks, 0, rule)?;
            return Ok(None);
        }
    };
    if spot.found {
        let old = replace_at(alloc, chunks, spot.chunk, spot.place, rule)?;
        return Ok(Some(old));
    }
    // A place is a `u32`: more rules have no place, long after memory ends.
    if count == u32::MAX {
        return Err(OutOfMemory);
    }
    insert_at(alloc, chunks, spot.chunk, spot.place, rule)?;
    Ok(None)
}

/// Takes out the rule with this match and this effective priority, and gives it. An error changes no rule.
pub(crate) fn cut(
    alloc: Global,
    chunks: &mut Vec<Arc<Chunk>>,
    m: &Match,
    rank: u32,
) -> Result<Option<Rule>, OutOfMemory>
    requires table { IsTable (rules_of chunks.old.items) }
    requires none_empty { NoneEmpty chunks.old.items }
    ensures cut { IfOk result (λ old. AfterCut (record { rank = rank; matching = m.now }) old chunks.old.items chunks.new.items) }
    ensures same { OnErr result (rules_of chunks.new.items ≡ rules_of chunks.old.items) }
    ensures none_empty { NoneEmpty chunks.new.items }
{
    m.keeps();
    let spot = match spot_of(chunks, m, rank) {
        Some(spot) => spot,
        None => return Ok(None),
    };
    if spot.found {
        let old = remove_at(alloc, chunks, spot.chunk, spot.place)?;
        return Ok(Some(old));
    }
    Ok(None)
}

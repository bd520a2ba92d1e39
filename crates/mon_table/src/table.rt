//! The table: chunks in table order.

ghost use Rattle.std.specs.Prelude.{◌≡◌, ◌<◌, ◌≤◌, ◌^◌, [], length, slice_index_or, IsTrue, IfOk, OnOk, OnErr};
ghost use Rattle.std.specs.List.{position};
ghost use Rattle.mon_table.specs.Rules.{identity, identity_of, same_identity};
ghost use Rattle.mon_table.specs.Tables.{IsTable, AllActionsFit, rule_of, without, with_rule, places, is_named, slice, tied};
ghost use Rattle.mon_table.specs.Winners.{wins, may_miss};
ghost use Rattle.mon_table.specs.Places.{place_of, stands_at};
ghost use Rattle.mon_table.specs.Chunks.{IsKept};

use crate::chunk::Chunk;
use crate::rule::Rule;
use crate::spot::spot_of;
use crate::{changes, lookups};
use mon_header::{Header, Match, OutOfMemory, effective};
use std::alloc::Global;
use std::marker::Model;
use std::sync::Arc;

/// Rules in table order, no two of one identity. They stand in chunks, which tables share.
#[derive(Drop)]
pub struct Table {
    chunks: Vec<Arc<Chunk>>,
    count: u32,
}

impl Model for Table {
    ghost use Rattle.std.specs.Prelude.{List};
    ghost use Rattle.mon_table.specs.declared.rule.Rule.{Rule};

    ghost Value = { List Rule };

    ghost use Rattle.mon_table.specs.Chunks.{rules_of, IsKept};

    ghost view = { λ t. rules_of t.chunks.items };

    ghost invariant = { λ t. IsKept t.chunks.items t.count };
}

impl Table {
    /// The empty table. It takes no memory yet.
    pub fn new(alloc: Global) -> Table
        ensures { result ≡ [] }
    {
        Table {
            chunks: Vec::new(alloc),
            count: 0,
        }
    }

    /// Does nothing: its clauses are what the type keeps.
    pub fn keeps(&self)
        ensures table { IsTable self.now }
        ensures fit { AllActionsFit self.now }
        ensures few { length self.now < 2 ^ 32 }
    {
        let _ = &self.chunks;
    }

    /// The number of rules.
    pub fn len(&self) -> u32
        ensures value { result ≡ length self.now }
        ensures table { IsTable self.now }
    {
        self.count
    }

    /// The rule at a place, counted from 0 in table order.
    pub fn rule(&self, place: u32) -> &Rule
        requires { place < length self.now }
        ensures { result.now ≡ slice_index_or self.now place result.now }
    {
        lookups::rule_at(&self.chunks, place as usize)
    }

    /// The number of rules that stand before one of this match and this effective priority: the place at which it stands
    /// or would stand. It is searched by halves.
    pub fn place_of(&self, m: &Match, priority: u16) -> u32
        ensures value { result ≡ place_of (identity m.now priority) self.now }
        ensures within { result ≤ length self.now }
    {
        match spot_of(&self.chunks, m, effective(m, priority)) {
            Some(spot) => lookups::place_in(&self.chunks, spot.chunk, spot.place),
            None => 0,
        }
    }

    /// Whether a rule of this match and this effective priority stands at the place.
    pub fn stands_at(&self, place: u32, m: &Match, priority: u16) -> bool
        ensures value { result ≡ stands_at (identity m.now priority) place self.now }
        ensures within { IsTrue result → place < length self.now }
    {
        place < self.count
            && lookups::rule_at(&self.chunks, place as usize).has_identity(
                m,
                effective(m, priority),
            )
    }

    /// The place of the rule with this match and this effective priority, or None where there is none.
    pub fn place(&self, m: &Match, priority: u16) -> Option<u32>
        ensures { result ≡ position (λ r. same_identity (identity_of r) (identity m.now priority)) self.now }
    {
        m.keeps();
        let spot = match spot_of(&self.chunks, m, effective(m, priority)) {
            Some(spot) => spot,
            None => return None,
        };
        if spot.found {
            return Some(lookups::place_in(&self.chunks, spot.chunk, spot.place));
        }
        None
    }

    /// Puts a rule in its place, and gives the rule of its identity that it replaces. An error changes nothing.
    pub fn put(&mut self, rule: Rule) -> Result<Option<Rule>, OutOfMemory>
        ensures put { OnOk result (self.new ≡ with_rule rule self.old) }
        ensures old { IfOk result (λ old. old ≡ rule_of (identity_of rule) self.old) }
        ensures same { OnErr result (self.new ≡ self.old) }
    {
        let alloc = *self.chunks.allocator();
        let count = self.count;
        match changes::put(alloc, &mut self.chunks, count, rule)? {
            Some(old) => Ok(Some(old)),
            None => {
                self.count += 1;
                Ok(None)
            }
        }
    }

    /// Takes out the rule with this match and this effective priority, and gives it. An error changes nothing.
    pub fn cut(&mut self, m: &Match, priority: u16) -> Result<Option<Rule>, OutOfMemory>
        ensures cut { OnOk result (self.new ≡ without (identity m.now priority) self.old) }
        ensures old { IfOk result (λ old. old ≡ rule_of (identity m.now priority) self.old) }
        ensures same { OnErr result (self.new ≡ self.old) }
    {
        let alloc = *self.chunks.allocator();
        match changes::cut(alloc, &mut self.chunks, m, effective(m, priority))? {
            Some(old) => {
                self.count -= 1;
                Ok(Some(old))
            }
            None => Ok(None),
        }
    }

    /// The places of the rules whose match is covered, rising.
    pub fn named(&self, alloc: Global, m: &Match) -> Result<Vec<u32>, OutOfMemory>
        ensures { IfOk result (λ named. named.items ≡ places (is_named m.now) self.now) }
    {
        lookups::named(alloc, &self.chunks, m)
    }

    /// The places of the rules that win for a header, rising: those that match it and whose effective priority no sure
    /// rule that matches exceeds. Unsure ones hide nothing, since they may be gone.
    pub fn winners(&self, alloc: Global, h: &Header) -> Result<Vec<u32>, OutOfMemory>
        ensures { IfOk result (λ found. found.items ≡ places (wins self.now h.now) self.now) }
    {
        let least = lookups::least_rank(&self.chunks, h);
        lookups::places_from_rank(alloc, &self.chunks, h, least)
    }

    /// Whether a packet with this header may miss, so that no rule takes it: no sure rule matches it.
    pub fn may_miss(&self, h: &Header) -> bool
        ensures { result ≡ may_miss self.now h.now }
    {
        lookups::may_miss(&self.chunks, h)
    }

    /// The rules that overlap a match.
    pub fn slice(&self, alloc: Global, m: &Match) -> Result<Table, OutOfMemory>
        ensures { IfOk result (λ part. part ≡ slice m.now self.now) }
    {
        let chunks = lookups::slice(alloc, &self.chunks, m)?;
        let count = lookups::count(&chunks);
        Ok(Table { chunks, count })
    }

    /// Whether a rule of another identity and the same effective priority overlaps the rule.
    pub fn tied(&self, rule: &Rule) -> bool
        ensures { result ≡ tied self.now rule.now }
    {
        lookups::tied(&self.chunks, rule)
    }
}

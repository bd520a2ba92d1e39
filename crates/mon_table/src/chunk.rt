//! Chunks: some rules of a table that stand side by side, and a cover of them.

ghost use Rattle.std.specs.Prelude.{◌≡◌, ◌<◌, ◌≤◌, [], ◌∷◌, length, take, drop, slice_index_or, slice_set, IfOk, OnOk, OnErr};
ghost use Rattle.std.specs.Arc.{arc_value};
ghost use Rattle.std.specs.List.{insert, remove, list_all};
ghost use Rattle.mon_header.specs.Matching.{IsNormal, overlaps};
ghost use Rattle.mon_table.specs.Rules.{identity_of};
ghost use Rattle.mon_table.specs.Tables.{slice};
ghost use Rattle.mon_table.specs.Covers.{IsCover};
ghost use Rattle.mon_table.specs.Chunks.{ends_before, all_overlap, rules_in};

use crate::cover::joined;
use crate::rule::Rule;
use mon_header::{Match, OutOfMemory, overlaps};
use std::alloc::Global;
use std::marker::Model;
use std::mem;
use std::sync::Arc;

/// The most rules of a chunk.
pub(crate) const MOST_RULES: usize = 64;

/// One to 64 rules, and a match that takes each header that one of them takes.
#[derive(Drop)]
pub(crate) struct Chunk {
    rules: Vec<Rule>,
    cover: Match,
}

impl Model for Chunk {
    ghost use Rattle.std.specs.Prelude.{List, length, ◌<◌, ◌≤◌};
    ghost use Rattle.mon_table.specs.declared.rule.Rule.{Rule};

    ghost Value = { List Rule };

    ghost use Rattle.mon_table.specs.Covers.{IsCover};

    ghost view = { λ c. c.rules.items };

    ghost invariant = { λ c. IsCover c.cover c.rules.items × (0 < length c.rules.items) × (length c.rules.items ≤ 64) };
}

impl Chunk {
    /// A chunk of one rule, with room for as many as a chunk may have.
    pub(crate) fn of(alloc: Global, rule: Rule) -> Result<Chunk, OutOfMemory>
        ensures { IfOk result (λ c. c ≡ rule ∷ []) }
    {
        let cover = rule.matching;
        let mut rules = Vec::with_capacity(alloc, MOST_RULES)?;
        rules.push(rule)?;
        Ok(Chunk { rules, cover })
    }

    /// Copies of some rules that a match covers.
    pub(crate) fn copy_of(
        alloc: Global,
        rules: &[Rule],
        cover: &Match,
    ) -> Result<Chunk, OutOfMemory>
        requires cover { IsCover cover.now rules.now }
        requires some { 0 < length rules.now }
        requires few { length rules.now ≤ 64 }
        ensures { IfOk result (λ c. c ≡ rules.now) }
    {
        let rules = copies(alloc, rules)?;
        Ok(Chunk {
            rules,
            cover: *cover,
        })
    }

    /// The rules, in table order.
    pub(crate) fn rules(&self) -> &[Rule]
        ensures rules { result.now ≡ self.now }
        ensures some { 0 < length self.now }
        ensures few { length self.now ≤ 64 }
    {
        &self.rules
    }

    /// A match that takes each header that one of the rules takes.
    pub(crate) fn cover(&self) -> &Match
        ensures cover { IsCover result.now self.now }
        ensures normal { IsNormal result.now }
    {
        self.cover.keeps();
        &self.cover
    }

    /// Whether the last rule stands before one of this match and this effective priority.
    pub(crate) fn ends_before(&self, m: &Match, rank: u32) -> bool
        ensures { result ≡ ends_before (record { rank = rank; matching = m.now }) self.now }
    {
        self.rules[self.rules.len() - 1].comes_before(m, rank)
    }

    /// Puts a rule in place of another, and gives that.
    pub(crate) fn replace(&mut self, place: usize, rule: Rule) -> Rule
        requires { place < length self.old }
        ensures rules { self.new ≡ slice_set self.old place rule }
        ensures old { result ≡ slice_index_or self.old place result }
    {
        self.cover = joined(&self.cover, &rule.matching);
        mem::replace(&mut self.rules[place], rule)
    }

    /// Puts a rule between others. An error changes nothing.
    pub(crate) fn insert(&mut self, place: usize, rule: Rule) -> Result<(), OutOfMemory>
        requires place { place ≤ length self.old }
        requires room { length self.old < 64 }
        ensures put { OnOk result (self.new ≡ insert self.old place rule) }
        ensures same { OnErr result (self.new ≡ self.old) }
    {
        let cover = joined(&self.cover, &rule.matching);
        self.rules.insert(place, rule)?;
        self.cover = cover;
        Ok(())
    }

    /// Takes out a rule that is not the only one, and gives it.
    pub(crate) fn remove(&mut self, place: usize) -> Rule
        requires place { place < length self.old }
        requires more { 1 < length self.old }
        ensures rules { self.new ≡ remove self.old place }
        ensures old { result ≡ slice_index_or self.old place result }
    {
        self.rules.remove(place)
    }

    /// Takes the upper half of a full chunk out, as a chunk of its own. An error changes nothing.
    pub(crate) fn split(&mut self, alloc: Global) -> Result<Arc<Chunk>, OutOfMemory>
        requires { length self.old ≡ 64 }
        ensures lower { OnOk result (self.new ≡ take 32 self.old) }
        ensures upper { IfOk result (λ upper. arc_value upper ≡ drop 32 self.old) }
        ensures same { OnErr result (self.new ≡ self.old) }
    {
        let rules = self.rules.split_off(MOST_RULES / 2)?;
        let upper = Chunk {
            rules,
            cover: self.cover,
        };
        match Arc::new(alloc, upper) {
            Ok(upper) => Ok(upper),
            Err(failed) => {
                let Chunk { mut rules, .. } = failed.value;
                // There is room for what was there before.
                let _ = self.rules.append(&mut rules);
                Err(OutOfMemory)
            }
        }
    }

    /// A copy of the first rule.
    pub(crate) fn first(&self, alloc: Global) -> Result<Rule, OutOfMemory>
        ensures { IfOk result (λ r. r ≡ slice_index_or self.now 0 r) }
    {
        self.rules[0].copied(alloc)
    }

    /// The same chunk once more.
    pub(crate) fn copied(&self, alloc: Global) -> Result<Chunk, OutOfMemory>
        ensures { IfOk result (λ c. c ≡ self.now) }
    {
        let rules = copies(alloc, &self.rules)?;
        Ok(Chunk {
            rules,
            cover: self.cover,
        })
    }

    /// Whether each rule overlaps a match.
    pub(crate) fn all_overlap(&self, m: &Match) -> bool
        ensures value { result ≡ all_overlap m.now self.now }
        ensures some { 0 < length self.now }
    {
        self.rules.iter().all(|rule| overlaps(m, &rule.matching))
    }

    /// The rules that overlap a match, where there are any.
    pub(crate) fn slice(&self, alloc: Global, m: &Match) -> Result<Option<Chunk>, OutOfMemory>
        ensures { IfOk result (λ part. rules_in part ≡ slice m.now self.now) }
    {
        let rules = overlapping(alloc, &self.rules, m)?;
        if rules.is_empty() {
            return Ok(None);
        }
        Ok(Some(Chunk {
            rules,
            cover: self.cover,
        }))
    }
}

/// Copies of rules.
fn copies(alloc: Global, rules: &[Rule]) -> Result<Vec<Rule>, OutOfMemory>
    ensures { IfOk result (λ all. all.items ≡ rules.now) }
{
    let mut all = Vec::with_capacity(alloc, rules.len())?;
    for rule in rules {
        all.push(rule.copied(alloc)?)?;
    }
    Ok(all)
}

/// Copies of the rules that overlap a match.
fn overlapping(alloc: Global, rules: &[Rule], m: &Match) -> Result<Vec<Rule>, OutOfMemory>
    ensures { IfOk result (λ part. part.items ≡ slice m.now rules.now) }
{
    let mut part = Vec::new(alloc);
    for rule in rules {
        if overlaps(m, &rule.matching) {
            part.push(rule.copied(alloc)?)?;
        }
    }
    Ok(part)
}

//! The table without an update, and with it there for sure.

ghost use Rattle.std.specs.Prelude.{◌≡◌, ◌<◌, ◌≤◌, ◌+◌, ◌^◌, length, slice_index_or, if◌then◌else◌};
ghost use Rattle.mon_table.specs.Rules.{identity_of};
ghost use Rattle.mon_table.specs.Tables.{IsTable, AllActionsFit};
ghost use Rattle.mon_table.specs.Places.{place_of, stands_at};
ghost use Rattle.mon_shows.specs.Changing.{changed};
ghost use Rattle.mon_shows.specs.Separation.{made_unsure, with_update, without_update};

use crate::entry::Entry;
use crate::target::Target;
use mon_table::{Rule, Table};
use std::marker::Model;

/// A table of which a rule is left out, replaced or counted in, seen as its rules, in table order. It is a view of the
/// table, and no copy.
#[derive(Drop)]
pub struct Altered<'a> {
    table: &'a Table,
    /// How many rules of the table stand before the change.
    place: u32,
    /// The rule that stands there, if `comes`, and whether it is unsure there.
    rule: &'a Rule,
    comes: bool,
    unsure: bool,
    /// The place in the table from which its rules stand behind the change.
    next: u32,
}

impl<'a> Model for Altered<'a> {
    ghost use Rattle.std.specs.Prelude.{List, [], ◌∷◌, ◌++◌, take, drop, length, ◌≤◌, if◌then◌else◌};
    ghost use Rattle.mon_table.specs.declared.rule.Rule.{Rule};
    ghost use Rattle.mon_table.specs.Tables.{IsTable, AllActionsFit};
    ghost use Rattle.mon_shows.specs.Separation.{made_unsure};

    ghost Value = { List Rule };

    ghost view = { λ u. take u.place u.table.now ++ ((if u.comes then made_unsure u.unsure u.rule.now ∷ [] else []) ++ drop u.next u.table.now) };

    ghost invariant = { λ u. (u.place ≤ u.next) × (u.next ≤ length u.table.now)
        × IsTable (take u.place u.table.now ++ ((if u.comes then made_unsure u.unsure u.rule.now ∷ [] else []) ++ drop u.next u.table.now))
        × AllActionsFit (take u.place u.table.now ++ ((if u.comes then made_unsure u.unsure u.rule.now ∷ [] else []) ++ drop u.next u.table.now)) };
}

impl<'a> Altered<'a> {
    /// Does nothing: its clauses are what the type keeps.
    pub fn keeps(&self)
        ensures table { IsTable self.now }
        ensures fit { AllActionsFit self.now }
    {
        let _ = &self.table;
    }

    /// The number of rules.
    pub fn len(&self) -> u64
        ensures value { result ≡ length self.now }
        ensures few { result ≤ 2 ^ 32 }
    {
        u64::from(self.place) + u64::from(self.comes) + u64::from(self.table.len() - self.next)
    }

    /// The rule at a place, counted from 0 in table order.
    pub fn rule(&self, place: u64) -> Entry<'a>
        requires { place < length self.now }
        ensures { result ≡ slice_index_or self.now place result }
    {
        self.table.keeps();
        let first = u64::from(self.place);
        if place < first {
            return Entry::of(self.table.rule(place as u32));
        }
        let behind = place - first;
        if !self.comes {
            return Entry::of(self.table.rule((u64::from(self.next) + behind) as u32));
        }
        if behind == 0 {
            return Entry::with(self.rule, self.unsure);
        }
        Entry::of(
            self.table
                .rule((u64::from(self.next) + (behind - 1)) as u32),
        )
    }
}

/// The first place behind that of a rule's identity, where the table has a rule of it, and else its place.
fn behind(t: &Table, place: u32, rule: &Rule) -> u32
    requires { place ≤ length t.now }
    ensures value { result ≡ (if stands_at (identity_of rule.now) place t.now then place + 1 else place) }
    ensures least { place ≤ result }
    ensures within { result ≤ length t.now }
{
    t.keeps();
    if t.stands_at(place, &rule.matching, rule.priority) {
        return place + 1;
    }
    place
}

/// The table with the rule, made unsure or sure, in place of the one of its identity, or without that one.
fn changed<'a>(t: &'a Table, rule: &'a Rule, comes: bool, unsure: bool) -> Altered<'a>
    ensures { result ≡ changed comes (made_unsure unsure rule.now) t.now }
{
    t.keeps();
    rule.keeps();
    let place = t.place_of(&rule.matching, rule.priority);
    let next = behind(t, place, rule);
    Altered {
        table: t,
        place,
        rule,
        comes,
        unsure,
        next,
    }
}

/// The table as it is.
fn whole<'a>(t: &'a Table, rule: &'a Rule) -> Altered<'a>
    ensures { result ≡ t.now }
{
    t.keeps();
    Altered {
        table: t,
        place: 0,
        rule,
        comes: false,
        unsure: false,
        next: 0,
    }
}

/// The table without the target's update: without the rule that was put or is watched, with the old one in its place, or
/// with the one that was cut. The old one may be gone where it or the rule that was put may. The change is searched by
/// halves, and nothing is copied.
#[tactic(auto, unfolding(mon_table::specs::Edits::after))]
pub fn without_update<'a>(t: &'a Table, x: &'a Target) -> Altered<'a>
    ensures { result ≡ without_update t.now x.now }
{
    match x {
        Target::Put { rule, old } => match old {
            None => changed(t, rule, false, false),
            Some(old) => changed(t, old, true, old.unsure || rule.unsure),
        },
        Target::Cut { rule } => changed(t, rule, true, rule.unsure),
        Target::Watch { rule } => changed(t, rule, false, false),
    }
}

/// The table with the target's update there for sure: with the rule that was put or is watched made sure, or as it is
/// where a rule was cut.
#[tactic(auto, unfolding(mon_table::specs::Edits::after))]
pub fn with_update<'a>(t: &'a Table, x: &'a Target) -> Altered<'a>
    ensures { result ≡ with_update t.now x.now }
{
    match x {
        Target::Put { rule, .. } | Target::Watch { rule } => changed(t, rule, true, false),
        Target::Cut { rule } => whole(t, rule),
    }
}

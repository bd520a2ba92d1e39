//! Rules of a table that was altered.

ghost use Rattle.std.specs.Prelude.{◌≡◌};
ghost use Rattle.mon_table.specs.Rules.{rank};
ghost use Rattle.mon_shows.specs.Separation.{made_unsure};

use mon_header::{Actions, Match};
use mon_table::Rule;
use std::marker::Model;

/// A rule that stands elsewhere, of which it is said here whether it is unsure.
#[derive(Drop)]
pub struct Entry<'a> {
    rule: &'a Rule,
    unsure: bool,
}

impl<'a> Model for Entry<'a> {
    ghost use Rattle.mon_table.specs.declared.rule.Rule.{Rule};
    ghost use Rattle.mon_shows.specs.Separation.{made_unsure};

    ghost Value = { Rule };

    ghost view = { λ e. made_unsure e.unsure e.rule.now };
}

impl<'a> Entry<'a> {
    /// The rule as it is.
    pub(crate) fn of(rule: &'a Rule) -> Entry<'a>
        ensures { result ≡ rule.now }
    {
        Entry {
            rule,
            unsure: rule.unsure,
        }
    }

    /// The rule, made unsure or sure.
    pub(crate) fn with(rule: &'a Rule, unsure: bool) -> Entry<'a>
        ensures { result ≡ made_unsure unsure rule.now }
    {
        Entry { rule, unsure }
    }

    /// Which packets it takes.
    pub fn matching(&self) -> &'a Match
        ensures { result.now ≡ self.now.matching }
    {
        &self.rule.matching
    }

    /// What it does to them.
    pub fn actions(&self) -> &'a Actions
        ensures { result.now ≡ self.now.actions }
    {
        &self.rule.actions
    }

    /// Its effective priority.
    pub fn rank(&self) -> u32
        ensures { result ≡ rank self.now }
    {
        self.rule.rank()
    }

    /// Whether a timeout may take it at any moment.
    pub fn is_unsure(&self) -> bool
        ensures { result ≡ self.now.unsure }
    {
        self.unsure
    }
}

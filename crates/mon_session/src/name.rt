//! What tells an entry from the others of its table.

ghost use Rattle.std.specs.Prelude.{◌≡◌};
ghost use Rattle.mon_table.specs.Rules.{identity, identity_of, same_identity};

use mon_header::{Match, effective, same_match};
use mon_table::Rule;
use std::marker::Model;

/// The effective priority and the match of an entry.
#[derive(Drop)]
pub struct Name {
    rank: u32,
    matching: Match,
}

impl Model for Name {
    ghost use Rattle.mon_table.specs.Rules.{Identity};

    ghost Value = { Identity };

    ghost view = { λ n. record { rank = n.rank; matching = n.matching } };
}

impl Name {
    /// That of the entry with this match and priority field.
    pub fn at(matching: Match, priority: u16) -> Name
        ensures { result ≡ identity matching priority }
    {
        Name {
            rank: effective(&matching, priority),
            matching,
        }
    }

    /// That of a rule.
    pub fn of(rule: &Rule) -> Name
        ensures { result ≡ identity_of rule.now }
    {
        Name::at(rule.matching, rule.priority)
    }

    /// Whether the other one is the same.
    pub fn is(&self, other: &Name) -> bool
        ensures { result ≡ same_identity self.now other.now }
    {
        same(self.rank, &self.matching, other.rank, &other.matching)
    }
}

/// Whether two effective priorities and two matches are equal.
#[tactic(auto, unfolding(mon_table::specs::Rules::same_identity))]
fn same(rank: u32, matching: &Match, other: u32, with: &Match) -> bool
    ensures { result ≡ same_identity (record { rank = rank; matching = matching.now }) (record { rank = other; matching = with.now }) }
{
    rank == other && same_match(matching, with)
}

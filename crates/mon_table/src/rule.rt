//! Rules.

ghost use Rattle.std.specs.Prelude.{◌≡◌, IfOk};
ghost use Rattle.mon_header.specs.Actions.{AllFit};
ghost use Rattle.mon_header.specs.Matching.{IsNormal};
ghost use Rattle.mon_table.specs.Tables.{ties};
ghost use Rattle.mon_table.specs.Rules.{identity_of, rank, same_identity, comes_before};

use mon_header::{Actions, Match, OutOfMemory, effective, match_before, overlaps, same_match};
use std::alloc::Global;

/// An entry of a flow table (OpenFlow 1.0.0, flow table): which packets it takes, its priority field, what it does to
/// them, and whether it is unsure: whether a timeout may take it out of the table at any moment.
#[derive(Drop)]
pub struct Rule {
    pub matching: Match,
    pub priority: u16,
    pub actions: Actions,
    pub unsure: bool,
}

impl Rule {
    /// Does nothing: its clauses are what the parts of a rule keep.
    pub fn keeps(&self)
        ensures normal { IsNormal self.now.matching }
        ensures fit { AllFit self.now.actions }
    {
        self.matching.keeps();
        self.actions.keeps();
    }

    /// The effective priority: 65536 where no wildcard is set, else the priority field.
    pub fn rank(&self) -> u32
        ensures { result ≡ rank self.now }
    {
        effective(&self.matching, self.priority)
    }

    /// The same rule once more.
    pub fn copied(&self, alloc: Global) -> Result<Rule, OutOfMemory>
        ensures { IfOk result (λ r. r ≡ self.now) }
    {
        let actions = self.actions.copied(alloc)?;
        Ok(Rule {
            matching: self.matching,
            priority: self.priority,
            actions,
            unsure: self.unsure,
        })
    }

    /// Whether the rule has this match and this effective priority.
    #[tactic(auto, unfolding(crate::specs::Rules::same_identity))]
    pub(crate) fn has_identity(&self, m: &Match, rank: u32) -> bool
        ensures { result ≡ same_identity (identity_of self.now) (record { rank = rank; matching = m.now }) }
    {
        self.rank() == rank && same_match(&self.matching, m)
    }

    /// Whether the rule stands before a rule of this match and this effective priority.
    #[tactic(auto, unfolding(crate::specs::Rules::comes_before))]
    pub(crate) fn comes_before(&self, m: &Match, rank: u32) -> bool
        ensures { result ≡ comes_before (identity_of self.now) (record { rank = rank; matching = m.now }) }
    {
        let own = self.rank();
        rank < own || own == rank && match_before(&self.matching, m)
    }

    /// Whether another rule has another identity and the same effective priority, and overlaps this one.
    #[tactic(auto, unfolding(crate::specs::Tables::ties))]
    pub(crate) fn ties(&self, other: &Rule) -> bool
        ensures { result ≡ ties self.now other.now }
    {
        let rank = self.rank();
        other.rank() == rank
            && !other.has_identity(&self.matching, rank)
            && overlaps(&self.matching, &other.matching)
    }
}

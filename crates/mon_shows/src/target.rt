//! What a probe is to show.

ghost use Rattle.mon_header.specs.Actions.{AllFit};
ghost use Rattle.mon_header.specs.Matching.{IsNormal};
ghost use Rattle.mon_table.specs.Edits.{edited};
ghost use Rattle.mon_shows.specs.Separation.{taken_back};

use mon_table::Rule;

/// An update whose presence in a table is to be shown: a rule was put, in place of the old one of its identity where
/// there was one; a rule was cut; or a rule is watched, so that its presence is in doubt.
#[derive(Drop)]
pub enum Target {
    Put { rule: Rule, old: Option<Rule> },
    Cut { rule: Rule },
    Watch { rule: Rule },
}

impl Target {
    /// Does nothing: its clauses are what the parts of the rule keep that taking the update back puts or cuts.
    pub fn keeps(&self)
        ensures normal { IsNormal (edited (taken_back self.now)).matching }
        ensures fit { AllFit (edited (taken_back self.now)).actions }
    {
        match self {
            Target::Put { rule, old } => match old {
                None => rule.keeps(),
                Some(old) => old.keeps(),
            },
            Target::Cut { rule } | Target::Watch { rule } => rule.keeps(),
        }
    }
}

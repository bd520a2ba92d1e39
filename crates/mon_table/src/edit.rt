//! Edits of a table.

ghost use Rattle.std.specs.Prelude.{◌≡◌};
ghost use Rattle.mon_table.specs.Edits.{edited};

use crate::rule::Rule;

/// One step of a table. A `Put` brings its rule, in place of the old one of its identity where there is one. A `Cut`
/// takes its rule away.
#[derive(Drop)]
pub enum Edit {
    Put { rule: Rule, old: Option<Rule> },
    Cut { rule: Rule },
}

impl Edit {
    /// The rule that is put or cut.
    pub fn rule(&self) -> &Rule
        ensures { result.now ≡ edited self.now }
    {
        match self {
            Edit::Put { rule, .. } => rule,
            Edit::Cut { rule } => rule,
        }
    }
}

//! Rules, tables and targets.

ghost use Rattle.std.specs.Prelude.{◌≡◌, ◌↔◌, IsTrue};

use mon_header::{same_actions, same_match};
use mon_shows::Target;
use mon_table::{Rule, Table};

/// Whether two rules are equal.
pub fn same_rule(a: &Rule, b: &Rule) -> bool
    ensures { IsTrue result ↔ (a.now ≡ b.now) }
{
    a.priority == b.priority
        && a.unsure == b.unsure
        && same_match(&a.matching, &b.matching)
        && same_actions(&a.actions, &b.actions)
}

/// Whether two tables have the same rules.
pub fn same_table(a: &Table, b: &Table) -> bool
    ensures { IsTrue result ↔ (a.now ≡ b.now) }
{
    if a.len() != b.len() {
        return false;
    }
    for place in 0..a.len() {
        if !same_rule(a.rule(place), b.rule(place)) {
            return false;
        }
    }
    true
}

/// Whether two old rules are equal, or both are missing.
fn same_old(a: &Option<Rule>, b: &Option<Rule>) -> bool
    ensures { IsTrue result ↔ (a.now ≡ b.now) }
{
    match (a, b) {
        (None, None) => true,
        (Some(a), Some(b)) => same_rule(a, b),
        _ => false,
    }
}

/// Whether two targets are equal.
pub(crate) fn same_target(a: &Target, b: &Target) -> bool
    ensures { IsTrue result ↔ (a.now ≡ b.now) }
{
    match (a, b) {
        (
            Target::Put { rule: r, old },
            Target::Put {
                rule: s,
                old: other,
            },
        ) => same_rule(r, s) && same_old(old, other),
        (Target::Cut { rule: r }, Target::Cut { rule: s }) => same_rule(r, s),
        (Target::Watch { rule: r }, Target::Watch { rule: s }) => same_rule(r, s),
        _ => false,
    }
}

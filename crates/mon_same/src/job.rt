//! Jobs.

ghost use Rattle.std.specs.Prelude.{◌≡◌, ◌↔◌, IsTrue};

use crate::rule::{same_table, same_target};
use crate::view::same_view;
use mon_job::Job;

/// Whether two jobs have the same numbers.
fn same_numbers(a: &Job, b: &Job) -> bool
    ensures { IsTrue result ↔ ((a.now.number ≡ b.now.number) × (a.now.session ≡ b.now.session) × (a.now.slot ≡ b.now.slot) × (a.now.edit ≡ b.now.edit) × (a.now.version ≡ b.now.version)) }
{
    a.number == b.number
        && a.session == b.session
        && a.slot == b.slot
        && a.edit == b.edit
        && a.version == b.version
}

/// Whether two jobs ask the same under the same numbers: view, table and target are equal too.
pub fn same_job(a: &Job, b: &Job) -> bool
    ensures { IsTrue result ↔ (a.now ≡ b.now) }
{
    same_numbers(a, b)
        && same_view(&a.view, &b.view)
        && same_target(&a.target, &b.target)
        && same_table(&a.table, &b.table)
}

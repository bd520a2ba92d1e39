//! Plans checked.

ghost use Rattle.std.specs.Prelude.{◌≡◌, IfOk};
ghost use Rattle.mon_plan.specs.Planning.{AreTrue};
ghost use Rattle.mon_plan.specs.Checking.{checked, IfAccepted};

use crate::job::accepts;
use mon_certificate::Certificates;
use mon_list::OutOfMemory;
use mon_shows::View;
use mon_table::Table;
use std::alloc::Global;

/// What is said of a list of certificates.
#[derive(Clone, Copy, Debug, PartialEq, Eq)]
pub enum Checked {
    /// There are as many as the table has rules, this number, and each is accepted.
    Accepted(u32),
    /// All before this place, counted from 0, are accepted. There one is not, or only one of both lists ends.
    Refused(u32),
}

/// Whether there is an accepted certificate for each rule of the table, in table order. What is accepted is true of
/// the table, whoever made it.
pub fn check_table(
    alloc: Global,
    v: &View,
    t: &Table,
    c: &Certificates,
) -> Result<Checked, OutOfMemory>
    ensures exact { IfOk result (λ said. said ≡ checked v.now t.now c.now) }
    ensures truth { IfOk result (λ said. IfAccepted said (AreTrue v.now t.now c.now)) }
{
    let certificates = c.items();
    let size = t.len();
    for place in 0..size {
        if place as usize >= certificates.len() {
            return Ok(Checked::Refused(place));
        }
        if !accepts(alloc, v, t, t.rule(place), &certificates[place as usize])? {
            return Ok(Checked::Refused(place));
        }
    }
    if certificates.len() > size as usize {
        return Ok(Checked::Refused(size));
    }
    Ok(Checked::Accepted(size))
}

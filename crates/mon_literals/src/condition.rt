//! Conditions on a header.

ghost use Rattle.std.specs.Prelude.{◌≡◌};
ghost use Rattle.mon_literals.specs.declared.condition.Condition.TheVariants.{Is, IsNot};
ghost use Rattle.mon_literals.specs.Runs.{run};

use crate::run::Run;

/// A run of a header's bits spells its number, or does not.
#[derive(Clone, Copy, Debug)]
pub enum Condition {
    Is(Run),
    IsNot(Run),
}

pub(crate) fn is(start: u16, count: u16, number: u64) -> Condition
    ensures { result ≡ Is (run start count number) }
{
    Condition::Is(Run::new(start, count, number))
}

pub(crate) fn is_not(start: u16, count: u16, number: u64) -> Condition
    ensures { result ≡ IsNot (run start count number) }
{
    Condition::IsNot(Run::new(start, count, number))
}

//! The rule that the words of a board keep, and the steps under it.

use atomic_table::{Join, Play, Split, TableRule};
use std::collections::LinkedList;

/// What a seat knows: whether it is the writer's, what it published, and what it saw, as slots and versions. No value of
/// it is ever made.
pub struct View {
    pub writes: bool,
    pub published: LinkedList<(u32, u64)>,
    pub seen: LinkedList<(u32, u64)>,
}

/// Each word is the last version that was published in its slot, and no seat saw one that was not published.
pub struct Rule;

impl TableRule<(), View, usize> for Rule {
    ghost use Rattle.std.specs.Prelude.{true, []};
    ghost use Rattle.mon_board.specs.Rule.{Holds, view};

    ghost holds = { Holds };

    ghost first = { λ _. view true [] [] };
}

/// A load by which a looker sees the version of a slot.
pub(crate) struct Look;

impl Play<(), View> for Look {
    ghost use Rattle.mon_board.specs.Steps.{Looks};

    ghost then = { Looks };
}

/// A store by which the writer publishes.
pub(crate) struct Publish;

impl Play<(), View> for Publish {
    ghost use Rattle.mon_board.specs.Steps.{Publishes};

    ghost then = { Publishes };
}

/// A load that shows the writer that what its seat saw was published.
pub(crate) struct Show;

impl Play<(), View> for Show {
    ghost use Rattle.mon_board.specs.Steps.{Shows};

    ghost then = { Shows };
}

/// How a seat becomes two, of which the second only looks, and two become one.
pub(crate) struct Pair;

impl Split<View> for Pair {
    ghost use Rattle.std.specs.Prelude.{false, []};
    ghost use Rattle.mon_board.specs.Rule.{view};

    ghost left = { λ v. v };

    ghost right = { λ v. view false [] v.seen };
}

impl Join<View> for Pair {
    ghost use Rattle.std.specs.Prelude.{false, [], ◌++◌};
    ghost use Rattle.mon_board.specs.Rule.{view};

    ghost both = { λ v w. view v.writes v.published (v.seen ++ w.seen) };

    ghost spent = { view false [] [] };
}

/// How a seat becomes two, of which the second looks and saw nothing yet.
pub(crate) struct Blank;

impl Split<View> for Blank {
    ghost use Rattle.std.specs.Prelude.{false, []};
    ghost use Rattle.mon_board.specs.Rule.{view};

    ghost left = { λ v. v };

    ghost right = { λ _. view false [] [] };
}

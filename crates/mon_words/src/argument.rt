//! What the words after the command are.

use mon_world::Text;

/// An option that takes a number.
#[derive(Clone, Copy, Debug, PartialEq, Eq)]
pub enum Kind {
    /// How many threads plan.
    Workers,
    /// How many rules are generated.
    Generate,
    /// What they are generated from.
    Seed,
}

/// A name of a file, or an option with what it takes.
#[derive(Drop)]
pub enum Argument {
    Name(Text),
    Number(Kind, u32),
    Certificates,
}

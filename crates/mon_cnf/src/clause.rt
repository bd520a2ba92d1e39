//! Literals and clauses.

use mon_list::Items;

/// A variable, by its number from 0 on, or its negation.
#[derive(Clone, Copy, Debug, PartialEq, Eq)]
pub struct Lit {
    /// The number of the variable.
    pub var: u32,
    /// Whether the literal is the variable itself, and not its negation.
    pub positive: bool,
}

/// The literals of which at least one has to be true. Without a literal it is never true.
pub type Clause = Items<Lit>;

/// A value for each variable, in the order of their numbers.
pub type Bits = Items<bool>;

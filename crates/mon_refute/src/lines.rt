//! Lines of a log, and lists of them.

ghost use Rattle.std.specs.Prelude.{◌≡◌, ◌<◌, ◌++◌, ◌∷◌, [], OnOk, OnErr};
ghost use Rattle.mon_refute.specs.Lines.{AreHints};

use mon_cnf::Clause;
use mon_list::{Items, OutOfMemory};
use std::alloc::Global;
use std::marker::Model;

/// Numbers of clauses, from 1 on: first the formula's, then those of the log's lines. No hint is 0.
#[derive(Drop)]
pub struct Hints {
    items: Vec<u64>,
}

impl Model for Hints {
    ghost use Rattle.std.specs.Prelude.{List, ℕ};
    ghost use Rattle.mon_refute.specs.Lines.{AreHints};

    ghost Value = { List ℕ };

    ghost view = { λ h. h.items.items };

    ghost invariant = { λ h. AreHints h.items.items };
}

impl Hints {
    /// No hint. It takes no memory yet.
    pub fn new(alloc: Global) -> Hints
        ensures { result ≡ [] }
    {
        Hints {
            items: Vec::new(alloc),
        }
    }

    /// Appends one hint, which isn't 0, or changes nothing for want of memory.
    pub fn push(&mut self, item: u64) -> Result<(), OutOfMemory>
        requires { 0 < item }
        ensures pushed { OnOk result (self.new ≡ self.old ++ item ∷ []) }
        ensures same { OnErr result (self.new ≡ self.old) }
    {
        self.items.push(item)?;
        Ok(())
    }

    /// The hints, in order.
    pub fn items(&self) -> &[u64]
        ensures value { result.now ≡ self.now }
        ensures positive { AreHints self.now }
    {
        &self.items
    }

    /// Hands the hints out.
    pub fn into_items(self) -> Vec<u64>
        ensures { result.items ≡ self }
    {
        self.items
    }
}

/// A clause, and the earlier clauses that it follows from, in the order in which they turn unit.
#[derive(Drop)]
pub struct LogLine {
    pub literals: Clause,
    pub hints: Hints,
}

/// The lines of one refutation, in order.
pub type Log = Items<LogLine>;

/// Refutations of several formulas.
pub type Logs = Items<Log>;

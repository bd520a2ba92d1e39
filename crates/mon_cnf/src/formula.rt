//! Formulas of clauses.

ghost use Rattle.std.specs.Prelude.{◌≡◌, ◌<◌, ◌^◌, ◌++◌, ◌∷◌, [], OnOk, OnErr};
ghost use Rattle.mon_cnf.specs.Truth.{Within, WithinAll};

use crate::clause::Clause;
use mon_list::OutOfMemory;
use std::alloc::Global;
use std::marker::Model;

/// Clauses that have to be true together, over variables from 0 on. The variable of each literal is below their
/// number.
#[derive(Drop)]
pub struct Formula {
    vars: u32,
    clauses: Vec<Clause>,
}

impl Model for Formula {
    ghost use Rattle.mon_cnf.specs.Formulas.{Cnf};
    ghost use Rattle.mon_cnf.specs.Truth.{WithinAll};

    ghost Value = { Cnf };

    ghost view = { λ f. record { vars = f.vars; clauses = f.clauses.items } };

    ghost invariant = { λ f. WithinAll f.vars f.clauses.items };
}

impl Formula {
    /// The formula of so many variables that has no clause, and so is always true. It takes no memory yet.
    pub fn new(alloc: Global, vars: u32) -> Formula
        ensures { result ≡ record { vars = vars; clauses = [] } }
    {
        Formula {
            vars,
            clauses: Vec::new(alloc),
        }
    }

    /// Does nothing: its clauses are what the type keeps.
    pub fn keeps(&self)
        ensures within { WithinAll self.now.vars self.now.clauses }
        ensures few { self.now.vars < 2 ^ 32 }
    {
        let _ = &self.clauses;
        let _vars = self.vars;
    }

    /// Appends a clause whose variables are below the formula's number of variables, or changes nothing for want of
    /// memory.
    pub fn push(&mut self, clause: Clause) -> Result<(), OutOfMemory>
        requires { Within self.old.vars clause }
        ensures pushed { OnOk result (self.new ≡ record { vars = self.old.vars; clauses = self.old.clauses ++ clause ∷ [] }) }
        ensures same { OnErr result (self.new ≡ self.old) }
    {
        self.clauses.push(clause)?;
        Ok(())
    }

    /// How many variables there are.
    pub fn vars(&self) -> u32
        ensures { result ≡ self.now.vars }
    {
        self.vars
    }

    /// The clauses, in the order in which they were appended.
    pub fn clauses(&self) -> &[Clause]
        ensures value { result.now ≡ self.now.clauses }
        ensures within { WithinAll self.now.vars self.now.clauses }
    {
        &self.clauses
    }
}

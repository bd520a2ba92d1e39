//! The variables that a conflict has come to.

ghost use Rattle.std.specs.Prelude.{◌≡◌, ◌<◌, false, length, replicate, IfOk, OnOk, slice_set, []};
ghost use Rattle.mon_cnf.specs.Truth.{Within};
ghost use Rattle.mon_cdcl.specs.Seen.{is_seen, Noted};

use crate::decide::Order;
use mon_cnf::Lit;
use mon_list::OutOfMemory;
use std::alloc::Global;

/// Which variables are seen, and all that were.
#[derive(Drop)]
pub struct Seen {
    pub flags: Vec<bool>,
    pub vars: Vec<u32>,
}

impl Seen {
    /// None of so many variables is seen.
    pub fn new(alloc: Global, vars: u32) -> Result<Seen, OutOfMemory>
        ensures { IfOk result (λ s. length s.flags.items ≡ vars) }
    {
        Ok(Seen {
            flags: vec![in alloc; false; vars as usize]?,
            vars: Vec::new(alloc),
        })
    }

    /// None is seen any more.
    pub fn clear(&mut self)
        ensures { (self.new.flags.items ≡ replicate (length self.old.flags.items) false) × (self.new.vars.items ≡ []) }
    {
        self.flags.fill(false);
        self.vars.clear();
    }

    /// Whether a variable is seen.
    pub fn has(&self, var: u32) -> bool
        ensures { result ≡ is_seen self.now.flags.items var }
    {
        match self.flags.get(var as usize) {
            None => false,
            Some(flag) => *flag,
        }
    }

    /// The variable isn't seen any more.
    pub fn forget(&mut self, var: u32)
        requires { var < length self.old.flags.items }
        ensures { (self.new.flags.items ≡ slice_set self.old.flags.items var false) × (self.new.vars ≡ self.old.vars) }
    {
        self.flags[var as usize] = false;
    }

    /// The variables of a clause are seen, but for one.
    pub fn note(&mut self, clause: &[Lit], but: u32, order: &mut Order) -> Result<(), OutOfMemory>
        requires { Within (length self.old.flags.items) clause.now }
        ensures { OnOk result (Noted self.old.flags.items self.old.vars.items clause.now but self.new.flags.items self.new.vars.items) }
    {
        for literal in clause {
            let var = literal.var;
            if var == but {
                continue;
            }
            if self.flags[var as usize] {
                continue;
            }
            self.flags[var as usize] = true;
            self.vars.push(var)?;
            order.bump(var);
        }
        Ok(())
    }
}

//! The trail: literals that are taken as true, the oldest first, and what they decide.

ghost use Rattle.std.specs.Prelude.{◌≡◌, ◌<◌, ◌++◌, ◌∷◌, [], List, IfOk, OnOk, MatchOption, length, replicate, slice_set};
ghost use Rattle.mon_trail.specs.declared.look.Mark.TheVariants.{Free};
ghost use Rattle.mon_trail.specs.declared.trail.Entry.{Entry};
ghost use Rattle.mon_trail.specs.Trail.{entered};

use crate::look::Mark;
use mon_cnf::Lit;
use mon_list::OutOfMemory;
use std::alloc::Global;

/// A literal that is taken as true, and the number of the clause that forces it, unless it is a decision.
#[derive(Clone, Copy)]
pub struct Entry {
    pub literal: Lit,
    pub reason: Option<u64>,
}

/// What is decided of each variable, and the literals that decided it.
#[derive(Drop)]
pub struct Trail {
    pub marks: Vec<Mark>,
    pub entries: Vec<Entry>,
}

impl Trail {
    /// Nothing is decided of so many variables.
    pub fn new(alloc: Global, vars: u32) -> Result<Trail, OutOfMemory>
        ensures { IfOk result (λ t. (t.marks.items ≡ replicate vars Free) × (t.entries.items ≡ [])) }
    {
        Ok(Trail {
            marks: vec![in alloc; Mark::Free; vars as usize]?,
            entries: Vec::new(alloc),
        })
    }

    /// Puts a literal at the end.
    pub fn enter(&mut self, entry: Entry) -> Result<(), OutOfMemory>
        requires { entry.literal.var < length self.old.marks.items }
        ensures { OnOk result ((self.new.marks.items ≡ entered self.old.marks.items entry) × (self.new.entries.items ≡ self.old.entries.items ++ entry ∷ [])) }
    {
        self.marks[entry.literal.var as usize] = Mark::Is(entry.literal.positive);
        self.entries.push(entry)?;
        Ok(())
    }

    /// Takes the last literal off, whose variable is undecided then.
    pub fn pop(&mut self) -> Option<Entry>
        requires { (es : List Entry) (e : Entry) → self.old.entries.items ≡ es ++ e ∷ [] → e.literal.var < length self.old.marks.items }
        ensures { MatchOption result ((self.new.marks.items ≡ self.old.marks.items) × (self.old.entries.items ≡ []) × (self.new.entries.items ≡ [])) (λ e. (self.new.marks.items ≡ slice_set self.old.marks.items e.literal.var Free) × (self.old.entries.items ≡ self.new.entries.items ++ e ∷ [])) }
    {
        let Some(entry) = self.entries.pop() else {
            return None;
        };
        self.marks[entry.literal.var as usize] = Mark::Free;
        Some(entry)
    }
}

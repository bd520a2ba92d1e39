//! Two watched literals a clause.
//!
//! A clause is looked at again only when one of the two literals that it watches becomes false. Watches only say where to
//! look, so nothing is proved of them.

ghost use Rattle.std.specs.Prelude.{◌≡◌};
ghost use Rattle.mon_refute.specs.Follow.{opposite};

use mon_cnf::Lit;
use mon_list::OutOfMemory;
use std::alloc::Global;
use std::mem::replace;

/// A clause that watches a literal, and a literal of the clause that may be true.
#[derive(Clone, Copy)]
pub struct Watch {
    pub clause: u64,
    pub other: Lit,
}

/// The watched literals of a clause.
#[derive(Clone, Copy)]
pub struct Pair {
    pub one: Lit,
    pub two: Lit,
}

/// Who watches what.
#[derive(Drop)]
pub struct Watches {
    alloc: Global,
    /// For each literal, by its number, the clauses that watch it.
    lists: Vec<Vec<Watch>>,
    /// For each clause, the literals that it watches.
    pairs: Vec<Pair>,
    /// How many entries of the trail were propagated.
    pub done: usize,
}

/// The number of a literal among the lists.
fn code(literal: Lit) -> usize {
    literal.var as usize * 2 + usize::from(literal.positive)
}

/// The same variable with the same sign.
pub fn same(a: Lit, b: Lit) -> bool {
    a.var == b.var && a.positive == b.positive
}

/// The negation of a literal.
pub fn opposite(literal: Lit) -> Lit
    ensures { result ≡ opposite literal }
{
    Lit {
        var: literal.var,
        positive: !literal.positive,
    }
}

impl Watches {
    /// No clause watches any of so many variables.
    pub fn new(alloc: Global, vars: u32) -> Result<Watches, OutOfMemory> {
        let mut lists = Vec::new(alloc);
        for _ in 0..vars {
            lists.push(Vec::new(alloc))?;
            lists.push(Vec::new(alloc))?;
        }
        Ok(Watches {
            alloc,
            lists,
            pairs: Vec::new(alloc),
            done: 0,
        })
    }

    /// The next clause watches two literals.
    pub fn attach(&mut self, clause: u64, one: Lit, two: Lit) -> Result<(), OutOfMemory> {
        self.pairs.push(Pair { one, two })?;
        self.watch(one, Watch { clause, other: two })?;
        self.watch(two, Watch { clause, other: one })
    }

    /// A literal is watched.
    fn watch(&mut self, literal: Lit, watch: Watch) -> Result<(), OutOfMemory> {
        if let Some(list) = self.lists.get_mut(code(literal)) {
            list.push(watch)?;
        }
        Ok(())
    }

    /// Takes the list of a literal out.
    pub fn take(&mut self, literal: Lit) -> Vec<Watch> {
        match self.lists.get_mut(code(literal)) {
            None => Vec::new(self.alloc),
            Some(list) => replace(list, Vec::new(self.alloc)),
        }
    }

    /// Puts the list of a literal back.
    pub fn put(&mut self, literal: Lit, list: Vec<Watch>) {
        if let Some(there) = self.lists.get_mut(code(literal)) {
            *there = list;
        }
    }

    /// The clause watches one of two literals in place of a false one.
    pub fn turn(
        &mut self,
        clause: u64,
        from: Lit,
        first: Lit,
        second: Lit,
    ) -> Result<bool, OutOfMemory> {
        let Some(pair) = self.pairs.get_mut(clause.wrapping_sub(1) as usize) else {
            return Ok(false);
        };
        let other = if same(pair.one, from) {
            pair.two
        } else {
            pair.one
        };
        let to = if same(first, other) { second } else { first };
        if same(to, other) {
            return Ok(false);
        }
        *pair = Pair {
            one: to,
            two: other,
        };
        self.watch(to, Watch { clause, other })?;
        Ok(true)
    }

    /// The trail has so many entries left.
    pub fn cut(&mut self, len: usize) {
        self.done = self.done.min(len);
    }
}

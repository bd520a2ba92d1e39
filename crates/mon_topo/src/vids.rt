//! Lists of VLAN ids.

ghost use Rattle.std.specs.Prelude.{◌≡◌, [], ◌∷◌, ◌++◌, OnOk, OnErr, IsTrue};
ghost use Rattle.mon_topo.specs.Ascending.{LAST_VID, AreVids, next, may_follow};

use mon_list::OutOfMemory;
use std::alloc::Global;
use std::marker::Model;

/// VLAN ids of 1 to 4094 (IEEE 802.1Q), strictly ascending.
#[derive(Drop)]
pub struct Vids {
    items: Vec<u16>,
}

impl Model for Vids {
    ghost use Rattle.std.specs.Prelude.{List, ℕ};
    ghost use Rattle.mon_topo.specs.Ascending.{AreVids};

    ghost Value = { List ℕ };

    ghost view = { λ l. l.items.items };

    ghost invariant = { λ l. AreVids l.items.items };
}

impl Vids {
    /// No id. It takes no memory yet.
    pub fn new(alloc: Global) -> Vids
        ensures { result ≡ [] }
    {
        Vids {
            items: Vec::new(alloc),
        }
    }

    /// Does nothing: its clause is what the type keeps.
    pub fn keeps(&self)
        ensures { AreVids self.now }
    {
        let _ = &self.items;
    }

    /// The least id that may come next, 4095 where none may.
    fn next(&self) -> u32
        ensures { result ≡ next 1 self.now }
    {
        match self.items().last() {
            Some(last) => u32::from(*last) + 1,
            None => 1,
        }
    }

    /// Whether this id may come next: it is 1 to 4094, and above all that are there.
    pub fn accepts(&self, vid: u16) -> bool
        ensures { result ≡ may_follow 1 LAST_VID self.now vid }
    {
        self.next() <= u32::from(vid) && vid <= 4094
    }

    /// Appends one id, or changes nothing for want of memory.
    pub fn push(&mut self, vid: u16) -> Result<(), OutOfMemory>
        requires { IsTrue (may_follow 1 LAST_VID self.old vid) }
        ensures pushed { OnOk result (self.new ≡ self.old ++ vid ∷ []) }
        ensures same { OnErr result (self.new ≡ self.old) }
    {
        self.items.push(vid)?;
        Ok(())
    }

    /// The ids, in order.
    pub fn items(&self) -> &[u16]
        ensures value { result.now ≡ self.now }
        ensures vids { AreVids self.now }
    {
        &self.items
    }

    /// Hands the ids out.
    pub fn into_items(self) -> Vec<u16>
        ensures value { result.items ≡ self }
        ensures vids { AreVids self }
    {
        self.items
    }
}

//! Views of a switch.

ghost use Rattle.std.specs.Prelude.{◌≡◌, IfOk};
ghost use Rattle.mon_shows.specs.Views.{IsView};

use crate::near::Nears;
use mon_list::{Items, OutOfMemory};
use mon_topo::Vids;
use std::alloc::Global;
use std::marker::Model;

/// A switch as its neighbours can show it: its datapath id, its own tag (1 to 4094), the tags in use, the links to
/// neighbours that catch probes, by ascending port, and the miss length, which is how many bytes of a packet without a
/// matching rule the switch sends to its controller.
#[derive(Drop)]
pub struct View {
    pub switch: u64,
    pub tag: u16,
    pub tags: Vids,
    pub links: Nears,
    pub miss: u16,
}

impl Model for View {
    ghost use Rattle.mon_shows.specs.Views.{Viewing, IsView};

    ghost Value = { Viewing };

    ghost view = { λ v. record { switch = v.switch; tag = v.tag; tags = v.tags; links = v.links; miss = v.miss } };

    ghost invariant = { λ v. IsView (record { switch = v.switch; tag = v.tag; tags = v.tags; links = v.links; miss = v.miss }) };
}

impl View {
    /// Does nothing: its clause is what the type keeps.
    pub fn keeps(&self)
        ensures { IsView self.now }
    {
        let _ = &self.tag;
    }

    /// The same view once more.
    pub fn copied(&self, alloc: Global) -> Result<View, OutOfMemory>
        ensures { IfOk result (λ copy. copy ≡ self.now) }
    {
        let tags = copied_tags(alloc, &self.tags)?;
        let links = copied_links(alloc, &self.links)?;
        Ok(View {
            switch: self.switch,
            tag: self.tag,
            tags,
            links,
            miss: self.miss,
        })
    }
}

/// The same tags once more.
fn copied_tags(alloc: Global, tags: &Vids) -> Result<Vids, OutOfMemory>
    ensures { IfOk result (λ copy. copy ≡ tags.now) }
{
    let mut copy = Vids::new(alloc);
    for tag in tags.items() {
        copy.push(*tag)?;
    }
    Ok(copy)
}

/// The same links once more.
fn copied_links(alloc: Global, links: &Nears) -> Result<Nears, OutOfMemory>
    ensures { IfOk result (λ copy. copy ≡ links.now) }
{
    let mut copy = Items::new(alloc);
    for link in links.items() {
        copy.push(*link)?;
    }
    Ok(copy)
}

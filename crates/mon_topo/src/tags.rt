//! The tags of switches.

ghost use Rattle.std.specs.Prelude.{◌≡◌, IfOk, List};
ghost use Rattle.std.specs.List.Sorted.{IsStrictlyIncreasing};
ghost use Rattle.mon_topo.specs.Tags.{tag_of, tags_of, IsInUse};

use crate::tagged::Tagged;
use mon_list::OutOfMemory;
use std::alloc::Global;
use std::marker::Model;

/// The tag of each switch of a topology, and the tags in use.
#[derive(Drop)]
pub struct Tags {
    given: Vec<Tagged>,
    in_use: Vec<u16>,
}

impl Model for Tags {
    ghost use Rattle.mon_topo.specs.Tags.{Tagging, IsInUse};

    ghost Value = { Tagging };

    ghost view = { λ t. record { given = t.given.items; in_use = t.in_use.items } };

    ghost invariant = { λ t. IsInUse t.given.items t.in_use.items };
}

/// The tag of a switch among these.
pub(crate) fn tag_among(switch: u64, given: &[Tagged]) -> Option<u16>
    ensures { result ≡ tag_of switch given.now }
{
    for tagged in given {
        if tagged.switch == switch {
            return Some(tagged.tag);
        }
    }
    None
}

/// The tag of each switch, in the order of the switches.
fn tags_of(alloc: Global, given: &[Tagged]) -> Result<Vec<u16>, OutOfMemory>
    ensures { IfOk result (λ tags. tags.items ≡ tags_of given.now) }
{
    let tags = given.iter().map(|tagged| tagged.tag).collect(alloc)?;
    Ok(tags)
}

/// The tags that a switch has, each once, ascending.
fn in_use(alloc: Global, given: &[Tagged]) -> Result<Vec<u16>, OutOfMemory>
    ensures { IfOk result (λ tags. IsInUse given.now tags.items) }
{
    let mut tags = tags_of(alloc, given)?;
    tags.sort_unstable();
    tags.dedup();
    Ok(tags)
}

impl Tags {
    /// The tags of switches that were given these.
    pub(crate) fn of(alloc: Global, given: Vec<Tagged>) -> Result<Tags, OutOfMemory>
        ensures { IfOk result (λ tags. tags.given ≡ given.items) }
    {
        let in_use = in_use(alloc, &given)?;
        Ok(Tags { given, in_use })
    }

    /// The tag of a switch; None where it is no switch of the topology.
    pub fn tag_of(&self, switch: u64) -> Option<u16>
        ensures { result ≡ tag_of switch self.now.given }
    {
        tag_among(switch, &self.given)
    }

    /// The tags that a switch has, each once, ascending.
    pub fn in_use(&self) -> &[u16]
        ensures value { result.now ≡ self.now.in_use }
        ensures used { IsInUse self.now.given self.now.in_use }
    {
        &self.in_use
    }
}

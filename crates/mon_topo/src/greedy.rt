//! Gives each switch a tag.

ghost use Rattle.std.specs.Prelude.{◌≡◌, ◌≢◌, ◌∷◌, [], Ok, Err, Some, None, option_map, IfOk, MatchResult};
ghost use Rattle.mon_topo.specs.Tags.{far_end, far_tag, taken, first_free, greedy, switches_of, LinkedDiffer};
ghost use Rattle.mon_topo.specs.Colour.{coloured};

use crate::fault::TopoFault;
use crate::links::first_wrong;
use crate::tagged::Tagged;
use crate::tags::{Tags, tag_among};
use crate::topology::{Link, Topology};
use mon_list::OutOfMemory;
use std::alloc::Global;

/// The switch at the other end of a link of this one; None where the link isn't one of this switch.
#[tactic(auto, unfolding(crate::specs::Tags::far_end))]
fn far_end(switch: u64, link: &Link) -> Option<u64>
    ensures { result ≡ far_end switch link.now }
{
    if switch == link.a {
        Some(link.b)
    } else if switch == link.b {
        Some(link.a)
    } else {
        None
    }
}

/// The tag of the switch at the other end, if it has one yet.
fn far_tag(switch: u64, given: &[Tagged], link: &Link) -> Option<u16>
    ensures { result ≡ far_tag switch given.now link.now }
{
    match far_end(switch, link) {
        Some(far) => tag_among(far, given),
        None => None,
    }
}

/// The tags of the switches that are linked to this one.
fn taken(
    alloc: Global,
    switch: u64,
    given: &[Tagged],
    links: &[Link],
) -> Result<Vec<u16>, OutOfMemory>
    ensures { IfOk result (λ tags. tags.items ≡ taken switch given.now links.now) }
{
    let mut tags = Vec::new(alloc);
    for link in links {
        if let Some(tag) = far_tag(switch, given, link) {
            tags.push(tag)?;
        }
    }
    Ok(tags)
}

/// The first tag of the list that isn't taken.
fn first_free(taken: &[u16], tags: &[u16]) -> Option<u16>
    ensures { result ≡ first_free taken.now tags.now }
{
    tags.iter().copied().find(|tag| !taken.contains(tag))
}

/// A tag for each switch, in their order; None where too few are left for one.
fn greedy(alloc: Global, t: &Topology, tags: &[u16]) -> Result<Option<Vec<Tagged>>, OutOfMemory>
    ensures { IfOk result (λ given. option_map (λ v. v.items) given ≡ greedy t.now.links tags.now [] t.now.switches) }
{
    let links = t.links.items();
    let mut given = Vec::new(alloc);
    for switch in t.switches.items() {
        let taken = taken(alloc, *switch, &given, links)?;
        let Some(tag) = first_free(&taken, tags) else {
            return Ok(None);
        };
        given.push(Tagged {
            switch: *switch,
            tag,
        })?;
    }
    Ok(Some(given))
}

/// Gives each switch of a topology a tag of the list, so that linked switches have different ones: in ascending order
/// each takes the first that no linked switch has. The links are judged first, in order.
pub fn colour(alloc: Global, t: &Topology, tags: &[u16]) -> Result<Tags, TopoFault>
    ensures exact { MatchResult result (λ given. coloured t.now tags.now ≡ Ok given.given) (λ fault. fault ≢ TopoFault.OutOfMemory → coloured t.now tags.now ≡ Err fault) }
    ensures each { IfOk result (λ given. switches_of given.given ≡ t.now.switches) }
    ensures differ { IfOk result (λ given. LinkedDiffer given.given t.now.links) }
{
    if let Some(fault) = first_wrong(t.switches.items(), t.links.items()) {
        return Err(fault);
    }
    match greedy(alloc, t, tags) {
        Err(_) => Err(TopoFault::OutOfMemory),
        Ok(None) => Err(TopoFault::TooFewTags),
        Ok(Some(given)) => match Tags::of(alloc, given) {
            Err(_) => Err(TopoFault::OutOfMemory),
            Ok(tags) => Ok(tags),
        },
    }
}

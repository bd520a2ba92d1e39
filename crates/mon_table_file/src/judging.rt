//! Whether what the lines of a table file say goes together.

ghost use Rattle.std.specs.Prelude.{◌≡◌, ◌++◌, ℕ, List, IfOk, MatchOption};
ghost use Rattle.mon_topo.specs.Ascending.{AreVids};
ghost use Rattle.mon_shows.specs.Views.{is_in_use};
ghost use Rattle.mon_table_file.specs.Lines.{tags_line};
ghost use Rattle.mon_table_file.specs.Reading.{has_other_tag};
ghost use Rattle.mon_table_file.specs.TableFile.{AreTags};

use crate::lines::tags_line_at;
use mon_list::OutOfMemory;
use mon_shows::Near;
use mon_topo::Vids;
use std::alloc::Global;

/// Whether a tag is one of those in use.
fn is_in_use(tag: u16, tags: &[u16]) -> bool
    ensures { result ≡ is_in_use tag tags.now }
{
    tags.iter().any(|other| *other == tag)
}

/// Whether the link leads to a switch with another tag in use.
#[tactic(auto, unfolding(crate::specs::Reading::has_other_tag))]
pub fn has_other_tag(tag: u16, tags: &[u16], near: &Near) -> bool
    ensures { result ≡ has_other_tag tag tags.now near.now }
{
    near.tag != tag && is_in_use(near.tag, tags)
}

/// The tags as a list of VLAN ids, unless they are none.
fn vids_of(alloc: Global, tags: &[u16]) -> Result<Option<Vids>, OutOfMemory>
    ensures { IfOk result (λ o. MatchOption o (AreVids tags.now → ⊥) (λ vids. (vids ≡ tags.now) × AreVids tags.now)) }
{
    let mut vids = Vids::new(alloc);
    for tag in tags {
        if !vids.accepts(*tag) {
            return Ok(None);
        }
        vids.push(*tag)?;
    }
    vids.keeps();
    Ok(Some(vids))
}

/// The line of the tags in use at the front, rising and with the switch's among them, and the text behind it.
pub fn tags_of(alloc: Global, tag: u16, text: &[u8]) -> Result<Option<(Vids, &[u8])>, OutOfMemory>
    ensures { IfOk result (λ o. MatchOption o
        ((tags rest : List ℕ) → AreTags tag tags → text.now ≡ tags_line tags ++ rest → ⊥)
        (λ p. AreTags tag p.0 × (text.now ≡ tags_line p.0 ++ p.1.now))) }
{
    let Some((tags, rest)) = tags_line_at(alloc, text)? else {
        return Ok(None);
    };
    if !is_in_use(tag, &tags) {
        return Ok(None);
    }
    match vids_of(alloc, &tags)? {
        Some(vids) => Ok(Some((vids, rest))),
        None => Ok(None),
    }
}

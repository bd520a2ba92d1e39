//! Which packet tells two tables apart.

ghost use Rattle.std.specs.Prelude.{◌≡◌};
ghost use Rattle.mon_shows.specs.Separation.{separates};

use crate::altered::{with_update, without_update};
use crate::lookup::{may_show, must_show};
use crate::sight::{caught, craftable};
use crate::target::Target;
use crate::view::View;
use mon_header::Header;
use mon_outcome::Emission;
use mon_table::Table;

/// Whether a probe with this header shows, by this emission, that the target's update is in the table, whichever unsure
/// rules are gone: a probe can have the header; the table, with the target's rule there for sure, has exactly one winner
/// for it, which must emit this, and the packet cannot miss, or it has none, and this is the miss; the emission is
/// caught; and the table without the update cannot show it. It takes no memory.
#[tactic(auto, unfolding(crate::specs::Separation::separates))]
pub fn separates(v: &View, t: &Table, x: &Target, h: &Header, e: &Emission) -> bool
    ensures { result ≡ separates v.now t.now x.now h.now e.now }
{
    craftable(v, h)
        && must_show(&with_update(t, x), h, e)
        && caught(v, e)
        && !may_show(&without_update(t, x), h, e)
}

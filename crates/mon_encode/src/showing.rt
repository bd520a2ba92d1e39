//! What a case's emission can show whatever the header.

ghost use Rattle.std.specs.Prelude.{◌≡◌, ◌&&◌, IfOk};
ghost use Rattle.mon_encode.specs.Cases.{HasWinner, winner_at, shape_of, given};
ghost use Rattle.mon_encode.specs.Formulas.{tagged, is_known, comes_back};

use crate::case::Case;
use mon_header::{BLANK, Header};
use mon_list::OutOfMemory;
use mon_outcome::{Door, Emission, Shape, any_unknown, rewrites};
use mon_shows::{Altered, View, caught};
use std::alloc::Global;

/// The shape of a case's emission; a miss has none.
pub(crate) fn shape_of(alloc: Global, t: &Altered, c: &Case) -> Result<Option<Shape>, OutOfMemory>
    requires { HasWinner t.now c.now.winner }
    ensures { IfOk result (λ shape. shape ≡ shape_of t.now c.now) }
{
    match c.winner {
        Some(place) => {
            let shapes = rewrites(
                alloc,
                t.rule(u64::from(place)).actions(),
                c.class,
                c.in_port,
            )?;
            Ok(shapes.items().get(c.emission as usize).copied())
        }
        None => Ok(None),
    }
}

/// What a header gives by a shape, or as a miss, and whether that shows the whole packet.
fn given(shape: Option<Shape>, h: &Header) -> (Emission, bool)
    ensures { result ≡ given shape h.now }
{
    match shape {
        Some(shape) => {
            let shown = shape.bits.filled(h);
            match shape.door {
                Door::Port(port) => (Emission::Port(port, shown), true),
                Door::Controller { whole } => (Emission::Controller(shown), whole),
            }
        }
        None => (Emission::Miss(*h), true),
    }
}

/// A header with nothing but a tag.
fn tagged(tag: u16) -> Header
    ensures { result ≡ tagged tag }
{
    Header {
        dl_vlan: tag,
        ..BLANK
    }
}

/// Whether no action of the winner is unknown.
fn is_known(t: &Altered, winner: Option<u32>) -> bool
    requires { HasWinner t.now winner }
    ensures { result ≡ is_known (winner_at t.now winner) }
{
    match winner {
        Some(place) => !any_unknown(t.rule(u64::from(place)).actions().items()),
        None => true,
    }
}

/// Whether the emission shows the whole packet and comes back, whatever the header.
fn comes_back(view: &View, shape: Option<Shape>) -> bool
    ensures { result ≡ comes_back view.now shape }
{
    let (emission, whole) = given(shape, &tagged(view.tag));
    whole && caught(view, &emission)
}

/// Whether the case's emission can show anything at all: no action of the winner is unknown, and it comes back whole.
pub(crate) fn can_show(view: &View, t: &Altered, c: &Case, shape: Option<Shape>) -> bool
    requires { HasWinner t.now c.now.winner }
    ensures { result ≡ (is_known (winner_at t.now c.now.winner) && comes_back view.now shape) }
{
    is_known(t, c.winner) && comes_back(view, shape)
}

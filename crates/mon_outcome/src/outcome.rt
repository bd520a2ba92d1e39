//! What a switch must emit, and what it may.

ghost use Rattle.std.specs.Prelude.{◌≡◌};
ghost use Rattle.mon_outcome.specs.Emitting.{through, emissions, emission_at, is_among, is_among_whole, must, may};

use crate::act::act;
use crate::door::{Door, any_unknown, door_of};
use crate::emission::{Emission, same_emission};
use mon_header::{Action, Actions, Header};

/// What leaves by a door, and whether it shows the whole packet.
fn through(door: Door, h: Header) -> (Emission, bool)
    ensures { result ≡ through door h }
{
    match door {
        Door::Port(port) => (Emission::Port(port, h), true),
        Door::Controller { whole } => (Emission::Controller(h), whole),
    }
}

/// Whether the actions emit this.
fn emits(actions: &[Action], h: &Header, e: &Emission) -> bool
    ensures { result ≡ is_among e.now (emissions actions.now h.now) }
{
    let mut header = *h;
    for action in actions {
        if let Some(door) = door_of(action, header.in_port) {
            let (emission, _) = through(door, header);
            if same_emission(&emission, e) {
                return true;
            }
        }
        header = act(action, header);
    }
    false
}

/// Whether the actions emit this, and show the whole packet.
fn emits_whole(actions: &[Action], h: &Header, e: &Emission) -> bool
    ensures { result ≡ is_among_whole e.now (emissions actions.now h.now) }
{
    let mut header = *h;
    for action in actions {
        if let Some(door) = door_of(action, header.in_port) {
            let (emission, whole) = through(door, header);
            if whole && same_emission(&emission, e) {
                return true;
            }
        }
        header = act(action, header);
    }
    false
}

/// Whether a switch that runs these actions on a packet of this header emits this: no action is unknown, and it is
/// emitted, to the controller with 128 bytes or more. It takes no memory.
#[tactic(auto, unfolding(crate::specs::Emitting::must))]
pub fn must(a: &Actions, h: &Header, e: &Emission) -> bool
    ensures { result ≡ must a.now h.now e.now }
{
    !any_unknown(a.items()) && emits_whole(a.items(), h, e)
}

/// Whether a switch that runs these actions on a packet of this header can emit this: it is emitted, or some action is
/// unknown. It takes no memory.
#[tactic(auto, unfolding(crate::specs::Emitting::may))]
pub fn may(a: &Actions, h: &Header, e: &Emission) -> bool
    ensures { result ≡ may a.now h.now e.now }
{
    any_unknown(a.items()) || emits(a.items(), h, e)
}

/// The emission at a position, counted from 0, among those that are known, in list order; `None` where there are fewer.
/// It takes no memory.
pub fn emission_at(a: &Actions, h: &Header, position: u32) -> Option<Emission>
    ensures { result ≡ emission_at (emissions a.now h.now) position }
{
    let mut header = *h;
    let mut left = position;
    for action in a.items() {
        if let Some(door) = door_of(action, header.in_port) {
            if left == 0 {
                let (emission, _) = through(door, header);
                return Some(emission);
            }
            left -= 1;
        }
        header = act(action, header);
    }
    None
}

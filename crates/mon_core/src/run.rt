//! The loop: turn after turn.

ghost use Rattle.std.specs.Prelude.{◌≡◌, ◌≢◌, ℕ, length, IfSome, MatchBool};
ghost use Rattle.mon_world.specs.Causes.{Rose};
ghost use Rattle.mon_world.specs.Logs.{IsStop};
ghost use Rattle.mon_core.specs.History.{LegalSoFar, StandsFor, Ran, RanToStop};

use crate::sessions::Core;
use mon_world::{Event, Gates, Hub, HubFault};
use std::alloc::Global;

/// How a loop ended.
#[derive(Clone, Copy, Debug, PartialEq, Eq)]
pub enum LoopEnd {
    /// The hub gave Stop.
    Stopped,
    /// As many events as were asked for were handled, and none was Stop.
    TurnsUsed,
    /// The hub gave no event, and its count of faults rose.
    HubFailed,
    /// Afterwards the core may only be dropped.
    OutOfMemory,
}

fn is_stop(event: &Event) -> bool
    ensures { MatchBool result (IsStop event.now) (IsStop event.now → ⊥) }
{
    matches!(event, Event::Stop)
}

/// Takes one event after the other, until Stop or until so many were taken.
pub fn run_loop<H: Hub>(alloc: Global, core: &mut Core, hub: &mut H, turns: u64) -> LoopEnd
    requires opened { length core.old ≡ H.opened hub.old }
    requires stands { IfSome (H.log hub.old) (StandsFor core.old) }
    ensures opened { result ≢ LoopEnd.OutOfMemory → length core.new ≡ H.opened hub.new }
    ensures stands { result ≢ LoopEnd.OutOfMemory → IfSome (H.log hub.new) (StandsFor core.new) }
    ensures so_far { IfSome (H.log hub.new) LegalSoFar }
    ensures stopped { result ≡ LoopEnd.Stopped → RanToStop (H.log hub.old) (H.log hub.new) }
    ensures used { result ≡ LoopEnd.TurnsUsed → Ran (H.log hub.old) (H.log hub.new) turns }
    ensures failed { result ≡ LoopEnd.HubFailed → Rose (H.hub_faults hub.old) (H.hub_faults hub.new) }
    ensures unstopped { result ≡ LoopEnd.HubFailed → (n : ℕ) × Ran (H.log hub.old) (H.log hub.new) n }
    ensures script { H.script hub.new ≡ H.script hub.old }
{
    // To come: no session is gated yet.
    let gates = Gates::new(alloc);
    for _ in 0..turns {
        let event = match hub.next(alloc, &gates) {
            Ok(event) => event,
            Err(HubFault::Failed) => return LoopEnd::HubFailed,
            Err(HubFault::OutOfMemory) => return LoopEnd::OutOfMemory,
        };
        let stop = is_stop(&event);
        match core.turn(alloc, event, hub) {
            Ok(()) => {}
            Err(_) => return LoopEnd::OutOfMemory,
        }
        if stop {
            return LoopEnd::Stopped;
        }
    }
    LoopEnd::TurnsUsed
}

//! One turn: what an event leads to is put out.

ghost use Rattle.std.specs.Prelude.{◌≡◌, ◌≤◌, ℕ, Bool, List, length, take, IfSome, OnOk, OnErr};
ghost use Rattle.mon_world.specs.declared.event.Out.{Out};
ghost use Rattle.mon_world.specs.Logs.{longer, entry_of, opened_by, NamesOpened};
ghost use Rattle.mon_core.specs.History.{LegalSoFar, StandsFor, WasGiven, Carried, logged};

use crate::sessions::Core;
use mon_world::{Event, Hub, Out, OutOfMemory, PutFault};
use std::alloc::Global;

/// Puts an output. It may be lost: to come, that this ends its session.
fn put<H: Hub>(alloc: Global, out: &Out, hub: &mut H) -> Result<(), OutOfMemory>
    ensures log { OnOk result ((lost : Bool) × (H.log hub.new ≡ longer (entry_of lost out.now) (H.log hub.old))) }
    ensures same { OnErr result (H.log hub.new ≡ H.log hub.old) }
    ensures opened { H.opened hub.new ≡ H.opened hub.old }
    ensures script { H.script hub.new ≡ H.script hub.old }
    ensures faults { H.hub_faults hub.new ≡ H.hub_faults hub.old }
{
    match hub.put(alloc, out) {
        Ok(()) => Ok(()),
        Err(PutFault::Lost) => Ok(()),
        Err(PutFault::OutOfMemory) => Err(OutOfMemory),
    }
}

/// Puts the outputs in order.
fn carry_out<H: Hub>(alloc: Global, outs: &[Out], hub: &mut H) -> Result<(), OutOfMemory>
    ensures log { OnOk result (Carried outs.now (H.log hub.old) (H.log hub.new)) }
    ensures some { OnErr result ((n : ℕ) × Carried (take n outs.now) (H.log hub.old) (H.log hub.new)) }
    ensures opened { H.opened hub.new ≡ H.opened hub.old }
    ensures script { H.script hub.new ≡ H.script hub.old }
    ensures faults { H.hub_faults hub.old ≤ H.hub_faults hub.new }
{
    for out in outs {
        put(alloc, out, hub)?;
    }
    Ok(())
}

impl Core {
    /// Handles one event whole, which the hub has given just before. Where the hub tells its log, the core stands for
    /// the log before that event, and afterwards for the whole. After want of memory it may only be dropped.
    pub fn turn<H: Hub>(
        &mut self,
        alloc: Global,
        event: Event,
        hub: &mut H,
    ) -> Result<(), OutOfMemory>
        requires opened { H.opened hub.old ≡ opened_by event (length self.old) }
        requires names { NamesOpened (length self.old) event }
        requires given { IfSome (H.log hub.old) (WasGiven event self.old) }
        ensures opened { OnOk result (length self.new ≡ H.opened hub.new) }
        ensures stands { OnOk result (IfSome (H.log hub.new) (StandsFor self.new)) }
        ensures so_far { IfSome (H.log hub.new) LegalSoFar }
        ensures put { (puts : List (Bool × Out)) × (H.log hub.new ≡ logged puts (H.log hub.old)) }
        ensures script { H.script hub.new ≡ H.script hub.old }
        ensures faults { H.hub_faults hub.old ≤ H.hub_faults hub.new }
    {
        let outs = self.on_event(alloc, event)?;
        let _ = self.len();
        carry_out(alloc, &outs, hub)?;
        Ok(())
    }
}

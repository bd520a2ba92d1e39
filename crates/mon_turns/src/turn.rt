//! What an event leads to is carried out.

ghost use Rattle.std.specs.Prelude.{◌≡◌, Option, option_map, IfSome, OnOk, IsErrOf};
ghost use Rattle.mon_world.specs.declared.event.Note.TheVariants.{Report};
ghost use Rattle.mon_world.specs.declared.history.Entry.TheVariants.{End, Noted};
ghost use Rattle.mon_world.specs.Logs.{longer};
ghost use Rattle.mon_report.specs.declared.line.Line.TheVariants as line;
ghost use Rattle.mon_turns.specs.Around.{GoesWith};
ghost use Rattle.mon_turns.specs.Slots.{free_slot};
ghost use Rattle.mon_turns.specs.Opening.{opening, opening_entries, MayOpen};
ghost use Rattle.mon_turns.specs.Standing.{Follows, Comes};

use crate::fault::TurnEnd;
use crate::sessions::Core;
use mon_list::OutOfMemory;
use mon_report::{Cause, Line};
use mon_world::{Crew, Event, Hub, Note, Out, PutFault};
use std::alloc::Global;

/// Ends a session, and tells why.
fn end<H: Hub>(alloc: Global, session: u64, cause: Cause, hub: &mut H) -> Result<(), OutOfMemory>
    ensures log { OnOk result (H.log hub.new ≡ longer (Noted (Report (line.Closed session cause))) (longer (End session) (H.log hub.old))) }
    ensures calls { H.calls hub.new ≡ H.calls hub.old }
    ensures opened { H.opened hub.new ≡ H.opened hub.old }
    ensures script { H.script hub.new ≡ H.script hub.old }
    ensures faults { H.hub_faults hub.new ≡ H.hub_faults hub.old }
{
    match hub.put(alloc, &Out::Close { session }) {
        Ok(()) => {}
        Err(PutFault::Lost) => unreachable!(),
        Err(PutFault::OutOfMemory) => return Err(OutOfMemory),
    }
    hub.mark(alloc, &Note::Report(Line::Closed { session, cause }))
}

impl Core {
    /// The next session opens in the least free slot, or is ended at once where none is free.
    pub(crate) fn open<H: Hub, C: Crew>(
        &mut self,
        alloc: Global,
        hub: &mut H,
        crew: &mut C,
    ) -> Result<(), TurnEnd>
        requires crew { GoesWith self.old.run self.old.state (C.unanswered crew.old) (C.versions crew.old) (C.last crew.old) }
        requires comes { IfSome (H.log hub.old) (Comes self.old.run Event.Opened self.old.state) }
        ensures run { OnOk result (self.new.run ≡ self.old.run) }
        ensures state { OnOk result (self.new.state ≡ opening (free_slot self.old.state) self.old.state) }
        ensures crew { OnOk result (GoesWith self.new.run self.new.state (C.unanswered crew.new) (C.versions crew.new) (C.last crew.new)) }
        ensures log { OnOk result (H.log hub.new ≡ option_map (opening_entries (free_slot self.old.state) self.old.state.openings) (H.log hub.old)) }
        ensures follows { OnOk result (IfSome (H.log hub.new) (Follows self.new.run self.new.state)) }
        ensures numbers { IsErrOf result TurnEnd.NumbersUsed → MayOpen (free_slot self.old.state) self.old.state → ⊥ }
        ensures unused { IsErrOf result TurnEnd.NumbersUsed → H.log hub.new ≡ H.log hub.old }
        ensures answered { IsErrOf result TurnEnd.BadAnswer → ⊥ }
        ensures calls { H.calls hub.new ≡ H.calls hub.old }
        ensures opened { H.opened hub.new ≡ H.opened hub.old }
        ensures script { H.script hub.new ≡ H.script hub.old }
        ensures faults { H.hub_faults hub.new ≡ H.hub_faults hub.old }
        ensures jobs { C.unanswered crew.new ≡ C.unanswered crew.old }
        ensures last { C.last crew.new ≡ C.last crew.old }
        ensures released { C.released crew.new ≡ C.released crew.old }
        ensures alone { C.answers_alone crew.new ≡ C.answers_alone crew.old }
        ensures empties { C.empties crew.new ≡ C.empties crew.old }
    {
        if !self.can_open() {
            return Err(TurnEnd::NumbersUsed);
        }
        let Some(slot) = self.free_slot() else {
            let session = self.refuse();
            end(alloc, session, Cause::TooMany, hub)?;
            return Ok(());
        };
        if !self.can_rise(slot) {
            return Err(TurnEnd::NumbersUsed);
        }
        let version = self.open_in(alloc, slot)?;
        crew.publish(slot, version);
        Ok(())
    }
}

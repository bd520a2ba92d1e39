//! The frames of the controller that meet their fates one after the other.

ghost use Rattle.std.specs.Prelude.{◌≡◌, ◌++◌, ◌∷◌, [], drop, slice_get, option_copied, OnOk, OnErr, IfOk};
ghost use Rattle.mon_session.specs.Ordered.{nothing_waits, held_in, planned_over, awaited_in, output_of};
ghost use Rattle.mon_session.specs.Outputs.{act_if, OutputHasItsOld};
ghost use Rattle.mon_legal.specs.Held.{is_empty};

use crate::change::Output;
use crate::fate::fate_of;
use crate::under_way::UnderWay;
use mon_header::Match;
use mon_list::OutOfMemory;
use mon_queue::Queue;
use mon_table::Table;
use of_frame::Frame;
use std::alloc::Global;
use std::marker::Model;
use std::mem;

/// Those that wait, what is left of the one that was planned last, and how many bytes that one had.
#[derive(Drop)]
pub struct Ordered {
    waiting: Queue,
    under_way: UnderWay,
    planned: u64,
}

impl Model for Ordered {
    ghost use Rattle.std.specs.Prelude.{◌+◌, ◌<◌, ◌^◌, sum_by, length};
    ghost use Rattle.mon_session.specs.Ordered.{Ordering};
    ghost use Rattle.mon_session.specs.UnderWay.{parts_of, Suits};

    ghost Value = { Ordering };

    ghost view = { λ o. record { waiting = o.waiting; parts = parts_of o.under_way; planned = o.planned } };

    ghost invariant = { λ o. (o.planned + sum_by length o.waiting < 2 ^ 64) × Suits o.under_way };
}

impl Ordered {
    /// No frame came yet. It takes no memory.
    pub fn new(alloc: Global) -> Ordered
        ensures { result ≡ nothing_waits }
    {
        Ordered {
            waiting: Queue::new(alloc),
            under_way: UnderWay::Nothing,
            planned: 0,
        }
    }

    /// How many bytes the frames have that lack their whole fate.
    pub fn held(&self) -> u64
        ensures { result ≡ held_in self.now }
    {
        let waiting = self.waiting.bytes();
        if self.under_way.is_nothing() {
            return waiting;
        }
        self.planned + waiting
    }

    /// Puts a frame behind all others, or changes nothing for want of memory. More bytes than a `u64` counts are more than
    /// any memory holds.
    pub fn push(&mut self, frame: Frame) -> Result<(), OutOfMemory>
        ensures pushed { OnOk result (self.new ≡ record self.old { waiting = self.old.waiting ++ frame ∷ [] }) }
        ensures same { OnErr result (self.new ≡ self.old) }
    {
        let length = frame.bytes().len() as u64;
        let held = self.planned + self.waiting.bytes();
        if held.checked_add(length).is_none() {
            return Err(OutOfMemory);
        }
        self.waiting.push(frame)
    }

    /// The frame that is to be planned next.
    pub fn head(&self) -> Option<&Frame>
        ensures { option_copied result ≡ slice_get self.now.waiting 0 }
    {
        self.waiting.head()
    }

    /// Plans the frame that came first, over the controller's entries, the catching table and as many unsettled cuts.
    pub fn plan(
        &mut self,
        alloc: Global,
        table: &Table,
        catching: &Table,
        cuts: u32,
    ) -> Result<(), OutOfMemory>
        ensures { OnOk result (self.new ≡ planned_over catching.now table.now cuts self.old self.old.waiting) }
    {
        let Some(frame) = self.waiting.pop() else {
            return Ok(());
        };
        self.planned = frame.bytes().len() as u64;
        self.under_way = fate_of(alloc, table, catching, cuts, frame)?;
        Ok(())
    }

    /// The match that what is left of the planned frame awaits before it goes on: that of its next edit.
    pub fn awaited(&self) -> Option<&Match>
        ensures { option_copied result ≡ awaited_in self.now.parts }
    {
        self.under_way.awaited()
    }

    /// Whether nothing is left of the frame that was planned last.
    pub fn is_idle(&self) -> bool
        ensures { result ≡ is_empty self.now.parts }
    {
        self.under_way.is_nothing()
    }

    /// Takes what goes out next of the frame that was planned last.
    pub fn next(&mut self, alloc: Global) -> Result<Option<Output>, OutOfMemory>
        ensures output { IfOk result (λ output. act_if output ≡ output_of self.old.parts) }
        ensures old { IfOk result OutputHasItsOld }
        ensures rest { OnOk result (self.new ≡ record self.old { parts = drop 1 self.old.parts }) }
    {
        let under_way = mem::replace(&mut self.under_way, UnderWay::Nothing);
        let (output, rest) = under_way.next(alloc)?;
        self.under_way = rest;
        Ok(output)
    }
}

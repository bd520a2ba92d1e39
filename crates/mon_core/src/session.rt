//! One session: what has come of both sides, and the table that the switch should have.

ghost use Rattle.std.specs.Prelude.{◌≡◌, ◌++◌, ℕ, List, OnOk, IfOk};
ghost use Rattle.mon_core.specs.History.{Sides, fresh, from_piece, from_side, after_turn, controller_after, switch_after, table_after, completed, fault_after, pending_of};

use crate::controller::handle_all;
use crate::outputs::push_all;
use mon_table::Table;
use mon_world::{Out, OutOfMemory, Side};
use of_frame::{Cut, Cutter, Frames};
use std::alloc::Global;
use std::marker::Model;

/// The two cutters of a session, the entries that the controller has on the switch, and whether the session was ended.
#[derive(Drop)]
pub struct Session {
    controller: Cutter,
    switch: Cutter,
    table: Table,
    ended: bool,
}

impl Model for Session {
    ghost Value = { Sides };

    ghost view = { λ s. record { controller = s.controller; switch = s.switch; table = s.table; ended = s.ended } };
}

impl Session {
    /// A session of which nothing has come.
    pub fn new(alloc: Global) -> Session
        ensures { result ≡ fresh }
    {
        Session {
            controller: Cutter::new(alloc),
            switch: Cutter::new(alloc),
            table: Table::new(alloc),
            ended: false,
        }
    }

    /// Whether it was ended.
    pub fn has_ended(&self) -> bool
        ensures { result ≡ self.now.ended }
    {
        self.ended
    }

    /// The entries that the controller has on the switch.
    pub fn table(&self) -> &Table
        ensures { result.now ≡ self.now.table }
    {
        &self.table
    }

    /// Cuts the bytes of a side.
    fn feed(&mut self, alloc: Global, side: Side, bytes: &[u8]) -> Result<Cut, OutOfMemory>
        ensures controller { IfOk result (λ found. self.new.controller ≡ controller_after self.old.controller side bytes.now) }
        ensures switch { IfOk result (λ found. self.new.switch ≡ switch_after self.old.switch side bytes.now) }
        ensures frames { IfOk result (λ found. found.frames ≡ completed self.old side bytes.now) }
        ensures fault { IfOk result (λ found. found.fault ≡ fault_after self.old side bytes.now) }
        ensures table { self.new.table ≡ self.old.table }
        ensures ended { self.new.ended ≡ self.old.ended }
    {
        match side {
            Side::Controller => self.controller.feed(alloc, bytes),
            Side::Switch => self.switch.feed(alloc, bytes),
        }
    }

    /// Does what frames of a side lead to.
    fn take(
        &mut self,
        alloc: Global,
        number: u64,
        side: Side,
        frames: Frames,
        outs: &mut Vec<Out>,
    ) -> Result<(), OutOfMemory>
        ensures outs { OnOk result (outs.new.items ≡ outs.old.items ++ from_side number self.old.table side frames) }
        ensures table { OnOk result (self.new.table ≡ table_after self.old.table side frames) }
        ensures controller { self.new.controller ≡ self.old.controller }
        ensures switch { self.new.switch ≡ self.old.switch }
        ensures ended { self.new.ended ≡ self.old.ended }
    {
        match side {
            Side::Controller => handle_all(alloc, number, &mut self.table, frames, outs),
            Side::Switch => push_all(number, Side::Controller, frames, outs),
        }
    }

    /// A piece came from a side: the frames that it completes are handled, and a fault ends the session. What comes
    /// later is ignored.
    pub fn piece(
        &mut self,
        alloc: Global,
        number: u64,
        side: Side,
        bytes: &[u8],
        outs: &mut Vec<Out>,
    ) -> Result<(), OutOfMemory>
        ensures outs { OnOk result (outs.new.items ≡ outs.old.items ++ from_piece number self.old side bytes.now) }
        ensures state { OnOk result (self.new ≡ after_turn self.old side bytes.now) }
    {
        if self.ended {
            return Ok(());
        }
        let found = self.feed(alloc, side, bytes)?;
        self.take(alloc, number, side, found.frames, outs)?;
        if found.fault.is_some() {
            self.ended = true;
            outs.push(Out::Close { session: number })?;
        }
        Ok(())
    }
}

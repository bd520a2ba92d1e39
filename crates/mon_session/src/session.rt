//! A session, and what shows its state.

ghost use Rattle.std.specs.Prelude.{◌≡◌, ◌+◌, ◌^◌, true, false, [], Some, None, IfOk, IsOk, OnOk, OnErr, IsOkUnless};
ghost use Rattle.mon_legal.specs.Runs.{Run};
ghost use Rattle.mon_legal.specs.Owns.Own.{Neighbour};
ghost use Rattle.mon_session.specs.declared.step.SessionEnd.TheVariants as ends;
ghost use Rattle.mon_session.specs.Walks.{takes};
ghost use Rattle.mon_session.specs.Beginning.{opened, held_of};

use crate::name::Name;
use crate::ordered::Ordered;
use crate::step::SessionEnd;
use crate::tracks::Tracks;
use crate::unsettled::Unsettled;
use mon_barriers::Barriers;
use mon_list::OutOfMemory;
use mon_table::{Edit, Table};
use std::alloc::Global;
use std::collections::VecDeque;
use std::marker::Model;

/// One session. Its fields are those of `Now` (`specs/Now.antt`).
#[derive(Drop)]
pub struct Session {
    pub(crate) number: u64,
    pub(crate) slot: u32,
    pub(crate) greeted: bool,
    pub(crate) known: bool,
    pub(crate) datapath: Option<u64>,
    pub(crate) catching: Table,
    pub(crate) asked: bool,
    pub(crate) barriers: Barriers,
    pub(crate) armed: bool,
    pub(crate) table: Table,
    pub(crate) unsettled: Unsettled,
    pub(crate) ordered: Ordered,
    pub(crate) miss: u16,
    pub(crate) tracks: Tracks,
    pub(crate) round: u64,
    pub(crate) reported: Option<u64>,
    pub(crate) out: Option<Edit>,
    pub(crate) name: Option<Name>,
    pub(crate) guards: VecDeque<Option<Name>>,
    pub(crate) version: u64,
}

impl Model for Session {
    ghost use Rattle.std.specs.Prelude.{[], None};
    ghost use Rattle.mon_session.specs.Walks.{Known};

    ghost Value = { Known };

    ghost view = { λ s. record {
      number = s.number;
      slot = s.slot;
      now = record {
        greeted = s.greeted;
        known = s.known;
        datapath = s.datapath;
        catching = s.catching;
        asked = s.asked;
        askers = s.barriers.askers;
        armed = s.armed;
        kept = s.barriers.replies;
        count = s.unsettled.count;
        table = s.table;
        unsettled = s.unsettled.edits;
        waiting = s.ordered.waiting;
        under_way = s.ordered.parts;
        planned = s.ordered.planned;
        postponed = [];
        miss = s.miss;
        tracks = s.tracks;
        watching = record { watch = None; last = None; round = s.round };
        reported = s.reported;
        out = s.out;
        name = s.name;
        guards = s.guards.items;
        version = s.version;
      };
    } };
}

impl Session {
    /// A session that was just opened. `version` is its slot's with that opening counted. It takes no memory.
    pub fn begin(
        alloc: Global,
        number: u64,
        slot: u32,
        version: u64,
    ) -> Result<Session, OutOfMemory>
        ensures began { IfOk result (λ s. s ≡ opened number slot version) }
        ensures always { IsOk result }
    {
        Ok(Session {
            number,
            slot,
            greeted: false,
            known: false,
            datapath: None,
            catching: Table::new(alloc),
            asked: false,
            barriers: Barriers::new(alloc),
            armed: false,
            table: Table::new(alloc),
            unsettled: Unsettled::new(alloc),
            ordered: Ordered::new(alloc),
            miss: 128,
            tracks: Tracks::new(alloc),
            round: 0,
            reported: None,
            out: None,
            name: None,
            guards: VecDeque::new(alloc),
            version,
        })
    }

    /// Whether the switch is armed.
    pub fn armed(&self) -> bool
        ensures { result ≡ self.now.now.armed }
    {
        self.armed
    }

    /// The switch's datapath id, where its own FEATURES_REPLY told it.
    pub fn datapath(&self) -> Option<u64>
        ensures { result ≡ self.now.now.datapath }
    {
        self.datapath
    }

    /// How many bytes of a packet that misses the switch sends to its controller.
    pub fn miss(&self) -> u16
        ensures { result ≡ self.now.now.miss }
    {
        self.miss
    }

    /// The version of the session's slot.
    pub fn version(&self) -> u64
        ensures { result ≡ self.now.now.version }
    {
        self.version
    }

    /// How many bytes the frames of the controller have that wait or lack a part of their fate.
    pub fn held(&self) -> u64
        ensures { result ≡ held_of self.now.now }
    {
        self.ordered.held()
    }

    /// The entries that the controller should have on the switch.
    pub fn table(&self) -> &Table
        ensures { result.now ≡ self.now.now.table }
    {
        &self.table
    }

    /// The session's number.
    pub fn number(&self) -> u64
        ensures { result ≡ self.now.number }
    {
        self.number
    }

    /// The session's slot.
    pub fn slot(&self) -> u32
        ensures { result ≡ self.now.slot }
    {
        self.slot
    }

    /// The session of a linked switch was armed, or one that was armed ended. Where this session is armed its version rises.
    pub fn neighbour(&mut self) -> Result<(), SessionEnd>
        ensures walk { OnOk result ((run : Run) → self.new ≡ takes run self.old Neighbour) }
        ensures only { IsOkUnless result ends.NumbersUsed }
        ensures used { OnErr result ((self.old.now.armed ≡ true) × (self.old.now.version + 1 ≡ 2 ^ 64)) }
    {
        self.forget();
        if self.armed {
            self.raise()?;
        }
        Ok(())
    }
}

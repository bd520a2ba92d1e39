//! What comes in and what goes out.

ghost use Rattle.std.specs.Prelude.{◌≡◌, ◌≤◌, ◌<◌, List, ℕ, length, IfOk};

use mon_list::{Items, OutOfMemory};
use mon_outcome::Emission;
use mon_report::Line;
use of_frame::Frame;
use std::alloc::Global;
use std::marker::Model;

/// The numbers of the sessions whose controller is not read for now, ascending.
pub type Gates = Items<u64>;

/// One of the two ends of a session.
#[derive(Clone, Copy, Debug, PartialEq, Eq)]
pub enum Side {
    Controller,
    Switch,
}

/// 1 to 4096 bytes of a stream that came at once.
#[derive(Drop)]
pub struct Piece {
    bytes: Vec<u8>,
}

impl Model for Piece {
    ghost Value = { List ℕ };

    ghost view = { λ p. p.bytes.items };

    ghost invariant = { λ p. (0 < length p.bytes.items) × (length p.bytes.items ≤ 4096) };
}

impl Piece {
    /// A piece of these bytes.
    pub fn new(alloc: Global, bytes: &[u8]) -> Result<Piece, OutOfMemory>
        requires some { 0 < length bytes.now }
        requires few { length bytes.now ≤ 4096 }
        ensures { IfOk result (λ p. p ≡ bytes.now) }
    {
        let bytes = Vec::from_slice(alloc, bytes)?;
        Ok(Piece { bytes })
    }

    /// The bytes.
    pub fn bytes(&self) -> &[u8]
        ensures value { result.now ≡ self.now }
        ensures some { 0 < length self.now }
        ensures few { length self.now ≤ 4096 }
    {
        &self.bytes
    }
}

/// What a hub gives.
#[derive(Drop)]
pub enum Event {
    /// The next session opens.
    Opened,
    /// Bytes came from one end of a session.
    Piece {
        session: u64,
        side: Side,
        bytes: Piece,
    },
    /// One of the two connections of a session is gone.
    Closed {
        session: u64,
    },
    /// A tick of the clock.
    Tick,
    /// The unanswered job at this index, counted from 0 in the order of offers, is to be answered now.
    Answer {
        index: u32,
    },
    /// Nothing came.
    Idle,
    /// The run is to end.
    Stop,
}

/// What a hub is given.
#[derive(Drop)]
pub enum Out {
    /// A frame for one end of a session.
    Send {
        session: u64,
        to: Side,
        frame: Frame,
    },
    /// The session is ended.
    Close {
        session: u64,
    },
}

/// What was said of a job.
#[derive(Clone, Copy, Debug, PartialEq, Eq)]
pub enum Kind {
    Probe,
    Indistinguishable,
    Skipped,
}

/// What the core tells of its work. Nothing goes out by it.
#[derive(Clone, Copy, Debug)]
pub enum Note {
    /// A job was offered: for this edit of this session, or for a watch where the edit is 0, at this version of its slot.
    Offer {
        job: u64,
        session: u64,
        edit: u64,
        version: u64,
    },
    /// A job was answered.
    Verdict {
        job: u64,
        kind: Kind,
    },
    /// The job's answer goes out as the probe of this serial, which shows the update by this emission.
    Probe {
        serial: u64,
        job: u64,
        emission: Emission,
    },
    /// A line of the report.
    Report(Line),
}

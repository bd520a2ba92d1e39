//! Jobs without an answer.

use std::marker::Model;

/// A job without an answer, and the slot of its session, which may have ended.
#[derive(Drop)]
pub struct Waiting {
    pub number: u64,
    pub session: u64,
    pub edit: u64,
    pub version: u64,
    pub slot: u32,
}

impl Model for Waiting {
    ghost use Rattle.mon_turns.specs.Core.{Waiting as Waits};

    ghost Value = { Waits };

    ghost view = { λ w. record { job = record { number = w.number; session = w.session; edit = w.edit; version = w.version }; slot = w.slot } };
}

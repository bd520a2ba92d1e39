//! An open session and its two streams.

use mon_session::Session;
use of_frame::Cutter;
use std::marker::Model;

/// An open session, what has come of the next frame of each side, and whether an output was lost.
#[derive(Drop)]
pub struct Connection {
    pub session: Session,
    pub controller: Cutter,
    pub switch: Cutter,
    pub lost: bool,
}

impl Model for Connection {
    ghost use Rattle.mon_turns.specs.Core.{Connected};

    ghost Value = { Connected };

    ghost view = { λ c. record { session = c.session; from_controller = c.controller; from_switch = c.switch; lost = c.lost } };
}

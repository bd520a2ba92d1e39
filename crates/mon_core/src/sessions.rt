//! All sessions.

ghost use Rattle.std.specs.Prelude.{◌≡◌, ◌≤◌, ◌<◌, ◌^◌, List, [], length, slice_get, Some, IfOk, MatchOption};
ghost use Rattle.mon_world.specs.Logs.{NamesOpened};
ghost use Rattle.mon_core.specs.History.{Sides, on_event, armed};

use crate::session::Session;
use mon_table::Table;
use mon_world::{Event, Out, OutOfMemory};
use std::alloc::Global;
use std::marker::Model;

/// The sessions in the order of their openings. A session is armed from its opening until its end.
#[derive(Drop)]
pub struct Core {
    sessions: Vec<Session>,
}

impl Model for Core {
    ghost Value = { List Sides };

    ghost view = { λ c. c.sessions.items };
}

impl Core {
    /// A core without sessions. It takes no memory yet.
    pub fn new(alloc: Global) -> Core
        ensures { result ≡ [] }
    {
        Core {
            sessions: Vec::new(alloc),
        }
    }

    /// The number of the armed session at a place, and the entries that its controller has on its switch. Places count
    /// from 0 by rising number; there is None where there are no more. It takes no memory.
    pub fn armed(&self, place: u32) -> Option<(u64, &Table)>
        ensures { MatchOption result (length (armed self.now) ≤ place) (λ found. slice_get (armed self.now) place ≡ Some (found.0, found.1.now)) }
    {
        let mut ahead = place;
        for (number, session) in self.sessions.iter().enumerate() {
            if session.has_ended() {
                continue;
            }
            if ahead == 0 {
                return Some((number as u64, session.table()));
            }
            ahead -= 1;
        }
        None
    }

    /// How many sessions were opened.
    pub(crate) fn len(&self) -> usize
        ensures value { result ≡ length self.now }
        ensures small { result < 2 ^ 63 }
    {
        self.sessions.len()
    }

    /// What an event makes of the sessions, and what it leads to.
    #[tactic(auto, unfolding(crate::specs::History::on_event))]
    pub(crate) fn on_event(&mut self, alloc: Global, event: Event) -> Result<Vec<Out>, OutOfMemory>
        requires { NamesOpened (length self.old) event }
        ensures { IfOk result (λ outs. on_event event self.old ≡ (self.new, outs.items)) }
    {
        let mut outs = Vec::new(alloc);
        match event {
            Event::Opened => self.sessions.push(Session::new(alloc))?,
            Event::Piece {
                session,
                side,
                bytes,
            } => {
                let of_piece = &mut self.sessions[session as usize];
                of_piece.piece(alloc, session, side, bytes.bytes(), &mut outs)?;
            }
            // To come: closings, ticks and answers do nothing yet.
            Event::Closed { .. } | Event::Tick | Event::Answer { .. } | Event::Idle => {}
            Event::Stop => {}
        }
        Ok(outs)
    }
}

//! Slots: each open session has one of its own.

ghost use Rattle.std.specs.Prelude.{◌≡◌, ◌<◌, map, IfSome};
ghost use Rattle.mon_legal.specs.Sessions.{is_taken};
ghost use Rattle.mon_turns.specs.Slots.{placed_of, free_slot};

use crate::sessions::{Core, SLOTS};

impl Core {
    /// Whether an open session has the slot.
    fn is_taken(&self, slot: u32) -> bool
        ensures { result ≡ is_taken (map placed_of self.now.state.sessions) slot }
    {
        for connection in self.sessions.iter() {
            if connection.session.slot() == slot {
                return true;
            }
        }
        false
    }

    /// The least slot that is free.
    pub(crate) fn free_slot(&self) -> Option<u32>
        ensures value { result ≡ free_slot self.now.state }
        ensures low { IfSome result (λ slot. slot < 64) }
    {
        for slot in 0..SLOTS {
            if !self.is_taken(slot) {
                return Some(slot);
            }
        }
        None
    }
}

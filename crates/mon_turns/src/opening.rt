//! The next session opens.

ghost use Rattle.std.specs.Prelude.{◌≡◌, ◌<◌, ◌+◌, ◌-◌, ◌^◌, IfOk, OnOk, MatchBool};
ghost use Rattle.mon_world.specs.Crews.{version_at};
ghost use Rattle.mon_turns.specs.Opening.{begun, opened_in, refused};

use crate::connection::Connection;
use crate::sessions::Core;
use mon_list::OutOfMemory;
use mon_session::Session;
use of_frame::Cutter;
use std::alloc::Global;

/// A session that was just opened.
fn begin(alloc: Global, number: u64, slot: u32, version: u64) -> Result<Connection, OutOfMemory>
    ensures { IfOk result (λ c. c ≡ begun number slot version) }
{
    let session = Session::begin(alloc, number, slot, version)?;
    Ok(Connection {
        session,
        controller: Cutter::new(alloc),
        switch: Cutter::new(alloc),
        lost: false,
    })
}

impl Core {
    /// Whether a number is left for one session more.
    pub(crate) fn can_open(&self) -> bool
        ensures { MatchBool result (self.now.state.openings < 2 ^ 64 - 1) (self.now.state.openings ≡ 2 ^ 64 - 1) }
    {
        self.used.session < u64::MAX
    }

    /// Whether the version of a slot may rise.
    pub(crate) fn can_rise(&self, slot: u32) -> bool
        requires { slot < 64 }
        ensures { MatchBool result (version_at slot self.now.state.versions < 2 ^ 64 - 1) (version_at slot self.now.state.versions ≡ 2 ^ 64 - 1) }
    {
        self.versions[slot as usize] < u64::MAX
    }

    /// The next session is in this slot, whose version rises.
    pub(crate) fn open_in(&mut self, alloc: Global, slot: u32) -> Result<u64, OutOfMemory>
        requires slot { slot < 64 }
        requires number { self.old.state.openings < 2 ^ 64 - 1 }
        requires version { version_at slot self.old.state.versions < 2 ^ 64 - 1 }
        ensures run { OnOk result (self.new.run ≡ self.old.run) }
        ensures state { OnOk result (self.new.state ≡ opened_in slot self.old.state) }
        ensures version { IfOk result (λ version. version ≡ version_at slot self.old.state.versions + 1) }
    {
        let number = self.used.session;
        let version = self.versions[slot as usize] + 1;
        let connection = begin(alloc, number, slot, version)?;
        self.sessions.push(connection)?;
        self.versions[slot as usize] = version;
        self.used.session = number + 1;
        Ok(version)
    }

    /// The number of a session that got no slot.
    pub(crate) fn refuse(&mut self) -> u64
        requires number { self.old.state.openings < 2 ^ 64 - 1 }
        ensures run { self.new.run ≡ self.old.run }
        ensures state { self.new.state ≡ refused self.old.state }
        ensures number { result ≡ self.old.state.openings }
    {
        let number = self.used.session;
        self.used.session = number + 1;
        number
    }
}

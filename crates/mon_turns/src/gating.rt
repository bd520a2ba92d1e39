//! Gates: a controller is not read while its session holds many bytes of frames.

ghost use Rattle.std.specs.Prelude.{◌≡◌, IfOk};
ghost use Rattle.mon_turns.specs.Core.{gates};

use crate::sessions::Core;
use mon_list::OutOfMemory;
use mon_world::Gates;
use std::alloc::Global;

/// How many bytes of frames a session may hold before its controller is not read any more.
const GATE: u64 = 1_048_576;

impl Core {
    /// The sessions whose controller is not read for now, by rising number.
    pub(crate) fn gates(&self, alloc: Global) -> Result<Gates, OutOfMemory>
        ensures { IfOk result (λ found. found ≡ gates self.now.state) }
    {
        let mut gates = Gates::new(alloc);
        for connection in self.sessions.iter() {
            if connection.session.held() >= GATE {
                gates.push(connection.session.number())?;
            }
        }
        Ok(gates)
    }
}

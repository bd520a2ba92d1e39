//! Cases.

ghost use Rattle.std.specs.Prelude.{◌<◌, ◌^◌};

use mon_list::Items;
use mon_outcome::Class;

/// One way in which a probe can show a job's update: its header is of this class and came in at this port, the rule at
/// this place of the job's table is the only winner, or no rule matches where there is none, and what is seen is the
/// emission at this position of the winner's known emissions, counted from 0. A miss has the position 0 alone.
#[derive(Clone, Copy, Debug, PartialEq, Eq, Drop)]
pub struct Case {
    pub class: Class,
    pub in_port: u16,
    pub winner: Option<u32>,
    pub emission: u32,
}

impl Case {
    /// Does nothing: its clause is that the port is one of 16 bits.
    pub fn keeps(&self)
        ensures { self.now.in_port < 2 ^ 16 }
    {
        let _in_port = self.in_port;
    }
}

/// Cases, in order.
pub type Cases = Items<Case>;

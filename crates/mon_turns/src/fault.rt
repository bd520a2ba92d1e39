//! Why no core was made, and why a turn was not handled whole.

ghost use Rattle.std.specs.Prelude.{◌≡◌};

use mon_list::OutOfMemory;
use mon_topo::TopoFault;
use thiserror::Error;

/// Why no core was made.
#[derive(Clone, Copy, Debug, PartialEq, Eq, Error)]
pub enum CoreFault {
    /// The switches of the settings get no tags. It is never want of memory.
    #[error("{0}")]
    Topo(TopoFault),
    /// No memory was left.
    #[error("out of memory")]
    OutOfMemory,
}

/// Why a turn was not handled whole, or that its answer was refused.
#[derive(Clone, Copy, Debug, PartialEq, Eq, Error)]
pub enum TurnEnd {
    /// No job can be answered now: none has this place, or those who answer choose by themselves.
    #[error("no such job waits for an answer")]
    BadAnswer,
    /// A number is needed above the last of its type.
    #[error("numbers are used up")]
    NumbersUsed,
    /// No memory was left.
    #[error("out of memory")]
    OutOfMemory,
}

impl From<OutOfMemory> for TurnEnd {
    ghost use Rattle.mon_turns.specs.declared.fault.TurnEnd.TheVariants as ends;

    ghost from_gives = { λ _ e. e ≡ ends.OutOfMemory };

    fn from(_: OutOfMemory) -> Self {
        TurnEnd::OutOfMemory
    }
}

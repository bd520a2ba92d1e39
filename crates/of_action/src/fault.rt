//! Why bytes are no actions.

ghost use Rattle.std.specs.Prelude.{◌≡◌};
ghost use Rattle.of_action.specs.declared.fault.ActionFault.TheVariants as faults;

use mon_list::OutOfMemory;
use thiserror::Error;

/// Why bytes could not be read as actions.
#[derive(Clone, Copy, Debug, PartialEq, Eq, Error)]
pub enum ActionFault {
    /// At this place, counted in bytes from the first action, stands the first action that is cut off or whose
    /// length is wrong (OpenFlow 1.0.0, error type BAD_ACTION, code BAD_LEN).
    #[error("wrong length of the action at byte {place}")]
    ActionLength { place: u64 },
    /// No memory was left.
    #[error("out of memory")]
    OutOfMemory,
}

impl From<OutOfMemory> for ActionFault {
    ghost from_gives = { λ _ fault. fault ≡ faults.OutOfMemory };

    fn from(_: OutOfMemory) -> Self {
        ActionFault::OutOfMemory
    }
}

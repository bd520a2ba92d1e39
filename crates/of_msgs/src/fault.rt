//! Why a frame is no FLOW_MOD.

ghost use Rattle.std.specs.Prelude.{◌≡◌};
ghost use Rattle.of_msgs.specs.declared.fault.ModFault.TheVariants as faults;
ghost use Rattle.of_msgs.specs.FlowMods.{as_mod_fault};

use mon_list::OutOfMemory;
use of_action::ActionFault;
use std::alloc::{AllocError, AllocFailed};
use thiserror::Error;

/// Why a frame could not be read as a FLOW_MOD: the first of these in this order. Memory may run out before any.
#[derive(Clone, Copy, Debug, PartialEq, Eq, Error)]
pub enum ModFault {
    /// It has fewer than 72 bytes (error type BAD_REQUEST, code BAD_LEN).
    #[error("a FLOW_MOD of less than 72 bytes")]
    ModLength,
    /// Its command is above 4 (error type FLOW_MOD_FAILED, code BAD_COMMAND).
    #[error("an unknown command of a FLOW_MOD")]
    ModCommand,
    /// At this place, counted in bytes from the first action, stands the first action that is cut off or whose
    /// length is wrong (error type BAD_ACTION, code BAD_LEN).
    #[error("wrong length of the action at byte {place}")]
    ActionLength { place: u64 },
    /// No memory was left.
    #[error("out of memory")]
    OutOfMemory,
}

impl From<OutOfMemory> for ModFault {
    ghost from_gives = { λ _ fault. fault ≡ faults.OutOfMemory };

    fn from(_: OutOfMemory) -> Self {
        ModFault::OutOfMemory
    }
}

impl From<ActionFault> for ModFault {
    ghost from_gives = { λ given fault. fault ≡ as_mod_fault given };

    fn from(given: ActionFault) -> Self {
        match given {
            ActionFault::ActionLength { place } => ModFault::ActionLength { place },
            ActionFault::OutOfMemory => ModFault::OutOfMemory,
        }
    }
}

impl From<AllocError> for ModFault {
    ghost from_gives = { λ _ fault. fault ≡ faults.OutOfMemory };

    fn from(_: AllocError) -> Self {
        ModFault::OutOfMemory
    }
}

impl<T: Drop> From<AllocFailed<T>> for ModFault {
    ghost from_gives = { λ _ fault. fault ≡ faults.OutOfMemory };

    fn from(_: AllocFailed<T>) -> Self {
        ModFault::OutOfMemory
    }
}

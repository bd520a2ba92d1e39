//! What becomes of a frame of the controller.

ghost use Rattle.std.specs.Prelude.{◌≡◌, ◌≢◌, IfOk};
ghost use Rattle.of_msgs.specs.declared.fault.ModFault.TheVariants as faults;
ghost use Rattle.mon_edits.specs.declared.refusal.ModRefusal.TheVariants as refusals;
ghost use Rattle.mon_core.specs.Fates.{fate, planned, of_fault, of_refusal, IsPlanned};

use mon_edits::{Edits, ModRefusal, is_emergency, plan_mod};
use mon_table::Table;
use mon_world::OutOfMemory;
use of_frame::Frame;
use of_msgs::{FlowMod, ModFault, errors, kinds, read_flow_mod};
use std::alloc::Global;

/// What is done with a frame of the controller.
#[derive(Drop)]
pub enum Fate {
    /// It goes on to the switch as it came, and changes no entry.
    Passed,
    /// It goes no further: the controller gets an ERROR of this type and code.
    Refused { kind: u16, code: u16 },
    /// It is a FLOW_MOD that does these edits, and they go on to the switch.
    Edited { message: FlowMod, edits: Edits },
}

/// The ERROR for a FLOW_MOD that cannot be read (OpenFlow 1.0.0, error message).
fn of_fault(fault: ModFault) -> Result<Fate, OutOfMemory>
    ensures value { IfOk result (λ found. found ≡ of_fault fault) }
    ensures found_memory { IfOk result (λ found. fault ≢ faults.OutOfMemory) }
{
    match fault {
        ModFault::ModLength => Ok(Fate::Refused {
            kind: errors::BAD_REQUEST,
            code: errors::BAD_REQUEST_BAD_LEN,
        }),
        ModFault::ModCommand => Ok(Fate::Refused {
            kind: errors::FLOW_MOD_FAILED,
            code: errors::BAD_COMMAND,
        }),
        ModFault::ActionLength { .. } => Ok(Fate::Refused {
            kind: errors::BAD_ACTION,
            code: errors::BAD_ACTION_BAD_LEN,
        }),
        ModFault::OutOfMemory => Err(OutOfMemory),
    }
}

/// The ERROR for a FLOW_MOD that is refused.
fn of_refusal(refused: ModRefusal) -> Result<Fate, OutOfMemory>
    ensures value { IfOk result (λ found. found ≡ of_refusal refused) }
    ensures found_memory { IfOk result (λ found. refused ≢ refusals.OutOfMemory) }
{
    let code = match refused {
        ModRefusal::TooManyActions | ModRefusal::Reserved => errors::EPERM,
        ModRefusal::OverlapFlag => errors::OVERLAP,
        ModRefusal::TableFull => errors::ALL_TABLES_FULL,
        ModRefusal::OutOfMemory => return Err(OutOfMemory),
    };
    Ok(Fate::Refused {
        kind: errors::FLOW_MOD_FAILED,
        code,
    })
}

/// What becomes of a FLOW_MOD over the controller's entries.
fn planned(alloc: Global, table: &Table, message: FlowMod) -> Result<Fate, OutOfMemory>
    ensures value { IfOk result (λ found. found ≡ planned table.now message) }
    ensures edits { IfOk result (IsPlanned table.now) }
{
    if is_emergency(&message) {
        return Ok(Fate::Passed);
    }
    let catching = Table::new(alloc);
    match plan_mod(alloc, table, &catching, 0, &message) {
        Ok(edits) => Ok(Fate::Edited { message, edits }),
        Err(refused) => of_refusal(refused),
    }
}

/// What becomes of a frame of the controller, over the entries that the controller has on the switch.
pub fn fate_of(alloc: Global, table: &Table, frame: &Frame) -> Result<Fate, OutOfMemory>
    ensures value { IfOk result (λ found. found ≡ fate table.now frame.now) }
    ensures edits { IfOk result (IsPlanned table.now) }
{
    if frame.kind() != kinds::FLOW_MOD {
        return Ok(Fate::Passed);
    }
    match read_flow_mod(alloc, frame) {
        Ok(message) => planned(alloc, table, message),
        Err(fault) => of_fault(fault),
    }
}

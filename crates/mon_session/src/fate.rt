//! What becomes of a frame of the controller, once it is planned.

ghost use Rattle.std.specs.Prelude.{◌≡◌, ◌≢◌, List, ◌∷◌, [], false, true, Some, None, ◌||◌, if◌then◌else◌, IfOk};
ghost use Rattle.std.specs.List.{AllByRecursion};
ghost use Rattle.of_msgs.specs.declared.fault.ModFault.TheVariants as faults;
ghost use Rattle.of_msgs.specs.Layout.{error_of};
ghost use Rattle.mon_edits.specs.declared.refusal.ModRefusal.TheVariants as refusals;
ghost use Rattle.mon_edits.specs.Naming.{is_emergency, is_deletion};
ghost use Rattle.mon_edits.specs.Frames.{is_cut};
ghost use Rattle.mon_edits.specs.Edits.{edits_of};
ghost use Rattle.mon_edits.specs.Refusals.{refusal, has_too_many_actions};
ghost use Rattle.mon_legal.specs.Held.{code_of, refused_as, all_changed, unless_refused, awaited};
ghost use Rattle.mon_legal.specs.Held.Part.{Whole, Refused};
ghost use Rattle.mon_table.specs.declared.rule.Rule.{Rule};
ghost use Rattle.of_msgs.specs.declared.flow_mod.FlowMod.{FlowMod};
ghost use Rattle.mon_session.specs.UnderWay.{parts_of, HasItsOld, Suits};
ghost use Rattle.mon_session.specs.Ordered.{fate_over};

use crate::under_way::UnderWay;
use mon_edits::{Edits, ModRefusal, edits_suit_the_command, is_deletion, is_emergency, plan_mod};
use mon_header::Match;
use mon_list::OutOfMemory;
use mon_table::Table;
use of_frame::{Frame, kinds};
use of_msgs::{FlowMod, ModFault, error_frame, errors, read_flow_mod};
use std::alloc::Global;
use std::collections::VecDeque;

/// The controller gets an ERROR of this type and code for the frame.
fn refused(alloc: Global, kind: u16, code: u16, frame: &Frame) -> Result<UnderWay, OutOfMemory>
    ensures parts { IfOk result (λ left. parts_of left ≡ Refused (error_of kind code frame.now) ∷ []) }
    ensures suits { IfOk result Suits }
{
    let error = error_frame(alloc, kind, code, frame)?;
    Ok(UnderWay::Refused(error))
}

/// The ERROR for a FLOW_MOD that cannot be read (OpenFlow 1.0.0, error message).
fn of_fault(alloc: Global, fault: ModFault, frame: &Frame) -> Result<UnderWay, OutOfMemory>
    ensures parts { IfOk result (λ left. parts_of left ≡ refused_as frame.now fault) }
    ensures suits { IfOk result Suits }
    ensures found_memory { IfOk result (λ left. fault ≢ faults.OutOfMemory) }
{
    match fault {
        ModFault::ModLength => refused(
            alloc,
            errors::BAD_REQUEST,
            errors::BAD_REQUEST_BAD_LEN,
            frame,
        ),
        ModFault::ModCommand => {
            refused(alloc, errors::FLOW_MOD_FAILED, errors::BAD_COMMAND, frame)
        }
        ModFault::ActionLength { .. } => {
            refused(alloc, errors::BAD_ACTION, errors::BAD_ACTION_BAD_LEN, frame)
        }
        ModFault::OutOfMemory => Err(OutOfMemory),
    }
}

/// The ERROR for a FLOW_MOD that is refused.
fn of_refusal(alloc: Global, reason: ModRefusal, frame: &Frame) -> Result<UnderWay, OutOfMemory>
    ensures parts { IfOk result (λ left. parts_of left ≡ Refused (error_of 3 (code_of reason) frame.now) ∷ []) }
    ensures suits { IfOk result Suits }
    ensures found_memory { IfOk result (λ left. reason ≢ refusals.OutOfMemory) }
{
    let code = match reason {
        ModRefusal::TooManyActions | ModRefusal::Reserved => errors::EPERM,
        ModRefusal::OverlapFlag => errors::OVERLAP,
        ModRefusal::TableFull => errors::ALL_TABLES_FULL,
        ModRefusal::OutOfMemory => return Err(OutOfMemory),
    };
    refused(alloc, errors::FLOW_MOD_FAILED, code, frame)
}

/// The old rule of each edit of a message is of the edit's identity.
fn edits_have_their_old()
    ensures { (t : List Rule) (m : FlowMod) → AllByRecursion HasItsOld (edits_of t m) }
{}

/// The edits of a message are to go on.
fn changed(came: Frame, message: FlowMod, edits: Edits) -> UnderWay
    requires calm { is_emergency message ≡ false }
    requires kind { AllByRecursion (λ e. is_cut e ≡ is_deletion message.command) edits }
    requires old { AllByRecursion HasItsOld edits }
    ensures parts { parts_of result ≡ all_changed came message true edits }
    ensures suits { Suits result }
{
    let edits = VecDeque::from_vec(edits.into_items());
    if edits.is_empty() {
        return UnderWay::Nothing;
    }
    UnderWay::Changed {
        came,
        message,
        edits,
        first: true,
    }
}

/// The fate of a FLOW_MOD over the controller's entries, the catching table and the number of unsettled cuts.
fn of_message(
    alloc: Global,
    table: &Table,
    catching: &Table,
    cuts: u32,
    frame: Frame,
    message: FlowMod,
) -> Result<UnderWay, OutOfMemory>
    ensures parts { IfOk result (λ left. parts_of left ≡ (if is_emergency message then Whole frame ∷ [] else unless_refused frame (refusal table.now catching.now cuts message) message (edits_of table.now message))) }
    ensures suits { IfOk result Suits }
{
    if is_emergency(&message) {
        return Ok(UnderWay::Whole(frame));
    }
    edits_suit_the_command();
    edits_have_their_old();
    match plan_mod(alloc, table, catching, cuts, &message) {
        Ok(edits) => Ok(changed(frame, message, edits)),
        Err(reason) => of_refusal(alloc, reason, &frame),
    }
}

/// The fate of a frame of the controller, over the same.
pub fn fate_of(
    alloc: Global,
    table: &Table,
    catching: &Table,
    cuts: u32,
    frame: Frame,
) -> Result<UnderWay, OutOfMemory>
    ensures parts { IfOk result (λ left. parts_of left ≡ fate_over catching.now table.now cuts frame) }
    ensures suits { IfOk result Suits }
{
    if frame.kind() != kinds::FLOW_MOD {
        return Ok(UnderWay::Whole(frame));
    }
    match read_flow_mod(alloc, &frame) {
        Ok(message) => of_message(alloc, table, catching, cuts, frame, message),
        Err(fault) => of_fault(alloc, fault, &frame),
    }
}

/// The match that a message awaits before it is planned; None for one that is refused for itself, or for the emergency table.
fn awaited_by(m: &FlowMod) -> Option<Match>
    ensures { result ≡ (if is_emergency m.now || has_too_many_actions m.now then None else Some m.now.matching) }
{
    if is_emergency(m) {
        return None;
    }
    if !is_deletion(m.command) && m.raw.items().len() > 512 {
        return None;
    }
    Some(m.matching)
}

/// The match that a frame awaits before it is planned.
pub fn awaited(alloc: Global, frame: &Frame) -> Result<Option<Match>, OutOfMemory>
    ensures { IfOk result (λ found. found ≡ awaited frame.now) }
{
    if frame.kind() != kinds::FLOW_MOD {
        return Ok(None);
    }
    match read_flow_mod(alloc, frame) {
        Ok(message) => Ok(awaited_by(&message)),
        Err(ModFault::OutOfMemory) => Err(OutOfMemory),
        Err(_) => Ok(None),
    }
}

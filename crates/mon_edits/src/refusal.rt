//! For what the proxy refuses a FLOW_MOD.

ghost use Rattle.std.specs.Prelude.{◌≡◌};
ghost use Rattle.mon_edits.specs.declared.refusal.ModRefusal.TheVariants as refusals;
ghost use Rattle.mon_edits.specs.Naming.{adds_entry};
ghost use Rattle.mon_edits.specs.Refusals.{has_too_many_actions, is_caught, is_reserved, rivals, has_rival, is_overlapping, is_full, refusal};

use crate::naming::{adds_entry, checks_overlap, is_add, is_deletion, is_strict};
use mon_header::{effective, overlaps};
use mon_list::OutOfMemory;
use mon_table::{Rule, Table};
use of_msgs::FlowMod;
use std::alloc::{AllocError, AllocFailed};
use thiserror::Error;

/// The most bytes of actions in a FLOW_MOD.
const MOST_ACTIONS: usize = 512;

/// The lowest effective priority of a catching entry.
const CATCHING: u32 = 65534;

/// The most entries of a table, unsettled cuts counted.
const MOST_ENTRIES: u64 = 4096;

/// Why a FLOW_MOD is refused: the first of these in this order. Memory may run out before any.
#[derive(Clone, Copy, Debug, PartialEq, Eq, Error)]
pub enum ModRefusal {
    /// It is no deletion, and has more than 512 bytes of actions (error type FLOW_MOD_FAILED, code EPERM).
    #[error("more than 512 bytes of actions")]
    TooManyActions,
    /// It would reach a catching entry: it is an ADD, a strict command, or a MODIFY that names nothing, its effective
    /// priority is 65534 or more, and its match overlaps that of a catching entry (FLOW_MOD_FAILED, EPERM).
    #[error("the match and priority are reserved")]
    Reserved,
    /// It asks to look for an overlap, it is an ADD or a modification that names nothing, and an entry of the same
    /// effective priority overlaps it; one with an equal match does too (FLOW_MOD_FAILED, OVERLAP).
    #[error("an entry of the same priority overlaps")]
    OverlapFlag,
    /// It adds an entry, and there are 4096 or more, unsettled cuts counted (FLOW_MOD_FAILED, ALL_TABLES_FULL).
    #[error("the table is full")]
    TableFull,
    #[error("out of memory")]
    OutOfMemory,
}

impl From<OutOfMemory> for ModRefusal {
    ghost from_gives = { λ _ refused. refused ≡ refusals.OutOfMemory };

    fn from(_: OutOfMemory) -> Self {
        ModRefusal::OutOfMemory
    }
}

/// Whether it is no deletion, and has more than 512 bytes of actions.
fn has_too_many_actions(m: &FlowMod) -> bool
    ensures { result ≡ has_too_many_actions m.now }
{
    !is_deletion(m.command) && m.raw.items().len() > MOST_ACTIONS
}

/// Whether a catching entry overlaps.
fn is_caught(catching: &Table, m: &FlowMod) -> bool
    ensures { result ≡ is_caught catching.now m.now }
{
    for place in 0..catching.len() {
        if overlaps(&m.matching, &catching.rule(place).matching) {
            return true;
        }
    }
    false
}

/// Whether it would reach a catching entry.
fn is_reserved(adds: bool, catching: &Table, m: &FlowMod) -> bool
    ensures { result ≡ is_reserved adds catching.now m.now }
{
    if !is_add(m.command) && !is_strict(m.command) && !adds {
        return false;
    }
    effective(&m.matching, m.priority) >= CATCHING && is_caught(catching, m)
}

/// Whether an entry has the message's effective priority, and overlaps.
fn rivals(m: &FlowMod, entry: &Rule) -> bool
    ensures { result ≡ rivals m.now entry.now }
{
    entry.rank() == effective(&m.matching, m.priority) && overlaps(&m.matching, &entry.matching)
}

/// Whether some entry does.
fn has_rival(table: &Table, m: &FlowMod) -> bool
    ensures { result ≡ has_rival table.now m.now }
{
    for place in 0..table.len() {
        if rivals(m, table.rule(place)) {
            return true;
        }
    }
    false
}

/// Whether it asks to look for an overlap, and there is one.
fn is_overlapping(adds: bool, table: &Table, m: &FlowMod) -> bool
    ensures { result ≡ is_overlapping adds table.now m.now }
{
    checks_overlap(m) && (is_add(m.command) || adds) && has_rival(table, m)
}

/// Whether an entry is added where no more have room.
fn is_full(adds: bool, table: &Table, cuts: u32) -> bool
    ensures { result ≡ is_full adds table.now cuts }
{
    adds && u64::from(table.len()) + u64::from(cuts) >= MOST_ENTRIES
}

/// The first refusal that applies. It takes no memory.
pub(crate) fn refusal(table: &Table, catching: &Table, cuts: u32, m: &FlowMod) -> Option<ModRefusal>
    ensures { result ≡ refusal table.now catching.now cuts m.now }
{
    if has_too_many_actions(m) {
        return Some(ModRefusal::TooManyActions);
    }
    let adds = adds_entry(table, m);
    if is_reserved(adds, catching, m) {
        return Some(ModRefusal::Reserved);
    }
    if is_overlapping(adds, table, m) {
        return Some(ModRefusal::OverlapFlag);
    }
    if is_full(adds, table, cuts) {
        return Some(ModRefusal::TableFull);
    }
    None
}

//! What frames of the controller lead to.

ghost use Rattle.std.specs.Prelude.{◌≡◌, ◌++◌, OnOk};
ghost use Rattle.mon_table.specs.Rules.{identity_of};
ghost use Rattle.mon_table.specs.Tables.{with_rule, without};
ghost use Rattle.mon_table.specs.Edits.{after, after_all};
ghost use Rattle.mon_core.specs.Fates.{followed, followed_all};
ghost use Rattle.mon_core.specs.History.{from_frame, from_frames};

use crate::fate::{Fate, fate_of};
use crate::outputs::{push, push_all};
use mon_edits::{Edit, Edits, edits_suit_the_command, frames_of};
use mon_table::{Rule, Table};
use mon_world::{Out, OutOfMemory, Side};
use of_frame::{Frame, Frames};
use of_msgs::error_frame;
use std::alloc::Global;

/// Puts a rule into a table.
fn put(table: &mut Table, rule: Rule) -> Result<(), OutOfMemory>
    ensures { OnOk result (table.new ≡ with_rule rule table.old) }
{
    table.put(rule)?;
    Ok(())
}

/// Takes the rule of a rule's identity out of a table.
fn cut(table: &mut Table, rule: &Rule) -> Result<(), OutOfMemory>
    ensures { OnOk result (table.new ≡ without (identity_of rule.now) table.old) }
{
    table.cut(&rule.matching, rule.priority)?;
    Ok(())
}

/// Brings a table on by an edit.
#[tactic(auto, unfolding(mon_table::specs::Edits::after))]
fn follow_edit(table: &mut Table, edit: Edit) -> Result<(), OutOfMemory>
    ensures { OnOk result (table.new ≡ after table.old edit) }
{
    match edit {
        Edit::Put { rule, .. } => put(table, rule),
        Edit::Cut { rule } => cut(table, &rule),
    }
}

/// Brings a table on by edits, one after the other.
fn follow(table: &mut Table, edits: Edits) -> Result<(), OutOfMemory>
    ensures { OnOk result (table.new ≡ after_all table.old edits) }
{
    for edit in edits.into_items() {
        follow_edit(table, edit)?;
    }
    Ok(())
}

/// Does what a frame of the controller leads to, and brings the table on.
fn handle(
    alloc: Global,
    number: u64,
    table: &mut Table,
    frame: Frame,
    outs: &mut Vec<Out>,
) -> Result<(), OutOfMemory>
    ensures outs { OnOk result (outs.new.items ≡ outs.old.items ++ from_frame number table.old frame) }
    ensures table { OnOk result (table.new ≡ followed table.old frame) }
{
    match fate_of(alloc, table, &frame)? {
        Fate::Passed => push(number, Side::Switch, frame, outs),
        Fate::Refused { kind, code } => {
            let error = error_frame(alloc, kind, code, &frame)?;
            push(number, Side::Controller, error, outs)
        }
        Fate::Edited { message, edits } => {
            edits_suit_the_command();
            let frames = frames_of(alloc, &message, edits.items(), frame)?;
            push_all(number, Side::Switch, frames, outs)?;
            follow(table, edits)
        }
    }
}

/// The same for frames in order.
pub fn handle_all(
    alloc: Global,
    number: u64,
    table: &mut Table,
    frames: Frames,
    outs: &mut Vec<Out>,
) -> Result<(), OutOfMemory>
    ensures outs { OnOk result (outs.new.items ≡ outs.old.items ++ from_frames number table.old frames) }
    ensures table { OnOk result (table.new ≡ followed_all table.old frames) }
{
    for frame in frames.into_items() {
        handle(alloc, number, table, frame, outs)?;
    }
    Ok(())
}

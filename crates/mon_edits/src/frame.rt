//! From edits to the frames in which they pass.

ghost use Rattle.std.specs.Prelude.{◌≡◌, true, false, IfOk};
ghost use Rattle.std.specs.List.{AllByRecursion};
ghost use Rattle.of_msgs.specs.FlowMods.{flow_mod_of};
ghost use Rattle.of_match.specs.Layout.{match_of, spelled};
ghost use Rattle.mon_edits.specs.Naming.{is_emergency, is_deletion};
ghost use Rattle.mon_edits.specs.Frames.{is_cut, command_for, raw_for, actions_for, puts_unsure, with_removal, flags_for, message_for, part_for, frame_for, parts, frames_of, IsPart, IsFlagged};

use crate::naming::{has_timeout, is_add};
use mon_header::{Actions, Match};
use mon_list::OutOfMemory;
use mon_table::Edit;
use of_frame::{Frame, Frames};
use of_match::{write_match, written_is_read};
use of_msgs::{Command, FlowMod, NO_BUFFER, RawActions, flags, ports, write_flow_mod};
use std::alloc::Global;

/// The command that does the edit, and touches no other entry.
fn command_for(e: &Edit) -> Command
    ensures { result ≡ command_for e.now }
{
    match e {
        Edit::Put { old: None, .. } => Command::Add,
        Edit::Put { old: Some(_), .. } => Command::ModifyStrict,
        Edit::Cut { .. } => Command::DeleteStrict,
    }
}

/// The bytes of the message's actions; a deletion has none.
fn raw_for(alloc: Global, m: &FlowMod, e: &Edit) -> Result<RawActions, OutOfMemory>
    ensures { IfOk result (λ raw. raw ≡ raw_for m.now e.now) }
{
    match e {
        Edit::Put { .. } => Ok(RawActions::of(Vec::from_slice(alloc, m.raw.items())?)),
        Edit::Cut { .. } => Ok(RawActions::new(alloc)),
    }
}

/// What those bytes mean.
fn actions_for(alloc: Global, m: &FlowMod, e: &Edit) -> Result<Actions, OutOfMemory>
    ensures { IfOk result (λ actions. actions ≡ actions_for m.now e.now) }
{
    match e {
        Edit::Put { .. } => m.actions.copied(alloc),
        Edit::Cut { .. } => Ok(Actions::new(alloc)),
    }
}

/// Whether the edit puts an unsure rule.
fn puts_unsure(e: &Edit) -> bool
    ensures { result ≡ puts_unsure e.now }
{
    match e {
        Edit::Put { rule, .. } => rule.unsure,
        Edit::Cut { .. } => false,
    }
}

/// These flags with SEND_FLOW_REM.
fn with_removal(set: u16) -> u16
    ensures { result ≡ with_removal set }
{
    if set / flags::SEND_FLOW_REM % 2 == 1 {
        return set;
    }
    set + flags::SEND_FLOW_REM
}

/// The message's flags. Where the edit puts an unsure rule the switch shall say when it goes.
fn flags_for(m: &FlowMod, e: &Edit) -> u16
    ensures { result ≡ flags_for m.now e.now }
{
    if puts_unsure(e) {
        return with_removal(m.flags);
    }
    m.flags
}

/// The bytes of a match, which mean it again.
fn spelled(m: &Match) -> [u8; 40]
    ensures value { result ≡ spelled m.now }
    ensures read_back { m.now ≡ match_of result }
{
    m.keeps();
    written_is_read();
    write_match(m)
}

/// The message of one edit.
fn part_of(alloc: Global, m: &FlowMod, e: &Edit, first: bool) -> Result<FlowMod, OutOfMemory>
    ensures { IfOk result (λ part. IsPart m.now e.now first part) }
{
    let entry = e.rule();
    let actions = actions_for(alloc, m, e)?;
    let raw = raw_for(alloc, m, e)?;
    Ok(FlowMod {
        xid: m.xid,
        spelled: spelled(&entry.matching),
        matching: entry.matching,
        cookie: m.cookie,
        command: command_for(e),
        idle: m.idle,
        hard: m.hard,
        priority: entry.priority,
        buffer: if first { m.buffer } else { NO_BUFFER },
        out_port: ports::NONE,
        flags: flags_for(m, e),
        actions,
        raw,
    })
}

/// The frame of that message.
fn part_frame(alloc: Global, m: &FlowMod, e: &Edit, first: bool) -> Result<Frame, OutOfMemory>
    ensures { IfOk result (λ frame. frame ≡ part_for m.now e.now first) }
{
    let part = part_of(alloc, m, e, first)?;
    write_flow_mod(alloc, &part)
}

/// The same message with these flags.
fn flagged(alloc: Global, m: &FlowMod, flags: u16) -> Result<FlowMod, OutOfMemory>
    ensures { IfOk result (λ part. IsFlagged m.now flags part) }
{
    let actions = m.actions.copied(alloc)?;
    let raw = RawActions::of(Vec::from_slice(alloc, m.raw.items())?);
    Ok(FlowMod {
        xid: m.xid,
        spelled: m.spelled,
        matching: m.matching,
        cookie: m.cookie,
        command: m.command,
        idle: m.idle,
        hard: m.hard,
        priority: m.priority,
        buffer: m.buffer,
        out_port: m.out_port,
        flags,
        actions,
        raw,
    })
}

/// The frame of the message as it came, but for the flags.
fn flagged_frame(alloc: Global, m: &FlowMod, e: &Edit) -> Result<Frame, OutOfMemory>
    ensures { IfOk result (λ frame. frame ≡ flow_mod_of (message_for m.now e.now)) }
{
    let part = flagged(alloc, m, flags_for(m, e))?;
    write_flow_mod(alloc, &part)
}

/// The frame in which an edit of the message goes to the switch. Where it puts an unsure rule it bears SEND_FLOW_REM
/// besides the message's flags. But for that an ADD goes on as it came. Every other edit is one frame with the message's
/// xid, cookie, flags and timeouts, for the edit's entry alone: MODIFY_STRICT, DELETE_STRICT, or ADD where the message
/// acts as one. The first frame of a message bears its buffer, the others none.
pub fn frame_of(alloc: Global, m: &FlowMod, e: &Edit, first: bool) -> Result<Frame, OutOfMemory>
    requires calm { is_emergency m.now ≡ false }
    requires kind { is_cut e.now ≡ is_deletion m.now.command }
    ensures { IfOk result (λ frame. frame ≡ frame_for m.now e.now first) }
{
    if is_add(m.command) {
        return flagged_frame(alloc, m, e);
    }
    part_frame(alloc, m, e, first)
}

/// A frame for each edit, the first of which bears the message's buffer.
fn parts(alloc: Global, m: &FlowMod, edits: &[Edit]) -> Result<Frames, OutOfMemory>
    requires calm { is_emergency m.now ≡ false }
    requires kind { AllByRecursion (λ e. is_cut e ≡ is_deletion m.now.command) edits.now }
    ensures { IfOk result (λ frames. frames ≡ parts m.now true edits.now) }
{
    let mut frames = Frames::new(alloc);
    let mut first = true;
    for edit in edits {
        let frame = frame_of(alloc, m, edit, first)?;
        frames.push(frame)?;
        first = false;
    }
    Ok(frames)
}

/// The frames in which a message that has these edits goes to the switch, in order: an ADD without a timeout as the frame
/// in which it came, and every other message as a frame for each edit, of which the first bears the message's buffer. Edits of
/// `plan_mod` take entries out exactly where the command is a deletion (`edits_suit_the_command`).
pub fn frames_of(
    alloc: Global,
    m: &FlowMod,
    edits: &[Edit],
    frame: Frame,
) -> Result<Frames, OutOfMemory>
    requires calm { is_emergency m.now ≡ false }
    requires kind { AllByRecursion (λ e. is_cut e ≡ is_deletion m.now.command) edits.now }
    ensures { IfOk result (λ frames. frames ≡ frames_of m.now edits.now frame) }
{
    if !is_add(m.command) || has_timeout(m) {
        return parts(alloc, m, edits);
    }
    let mut frames = Frames::new(alloc);
    frames.push(frame)?;
    Ok(frames)
}

//! The frames with which a switch is armed.

ghost use Rattle.std.specs.Prelude.{◌≡◌, ◌++◌, ◌≤◌, ◌<◌, ◌^◌, ◌∷◌, [], ℕ, List, map, filter, not, ◌==◌, length, OnOk, IfOk};
ghost use Rattle.of_match.specs.Layout.{spelled};
ghost use Rattle.mon_header.specs.Wild.{unpacked};
ghost use Rattle.mon_header.specs.Matching.{normal};
ghost use Rattle.mon_world.specs.declared.event.Side.TheVariants.{Switch};
ghost use Rattle.mon_legal.specs.Messages.{all_packets, with_tag, with_drop_mark, catching_rule, mark_rule, other_tags, put_all, catching_table, own_mod, own_barrier, arming_frames};
ghost use Rattle.mon_legal.specs.StandIns.{drop_mark};
ghost use Rattle.of_action.specs.Layout as action_bytes;
ghost use Rattle.of_msgs.specs.declared.command.Command.TheVariants.{Add};
ghost use Rattle.mon_session.specs.Arming.{mod_of, own_fields, put_if, clearing, setting, adding_if};

use byteorder::{BigEndian, ByteOrder};
use mon_header::{Action, Actions, BLANK, Header, Match};
use mon_list::OutOfMemory;
use mon_table::{Rule, Table};
use of_action::write_actions;
use of_frame::{Frame, Frames, kinds};
use of_match::write_match;
use of_msgs::{NO_BUFFER, OWN_XID, ports};
use std::alloc::Global;

/// The address that marks what a stand-in sends (a locally administered one).
pub const DROP_MARK: u64 = 0x024d_4f4e_4f00;

/// The wildcards of a match that compares nothing, the VLAN id alone, or the destination address alone.
const ALL: u32 = 0x0038_20ff;

const ALL_BUT_VLAN: u32 = 0x0038_20fd;

const ALL_BUT_DESTINATION: u32 = 0x0038_20f7;

/// The match of every packet.
fn all_packets() -> Match
    ensures { result ≡ all_packets }
{
    Match::normal(ALL, BLANK)
}

/// The match of the packets with a tag.
fn with_tag(tag: u16) -> Match
    ensures { result ≡ with_tag tag }
{
    let fields = Header {
        dl_vlan: tag,
        ..BLANK
    };
    Match::normal(ALL_BUT_VLAN, fields)
}

/// The match of the packets with the address that marks drops.
fn with_drop_mark() -> Match
    ensures { result ≡ with_drop_mark }
{
    let fields = Header {
        dl_dst: DROP_MARK,
        ..BLANK
    };
    Match::normal(ALL_BUT_DESTINATION, fields)
}

/// The rule by which a switch catches the probes of a tag: they go whole to its controller.
fn catching_rule(alloc: Global, tag: u16) -> Result<Rule, OutOfMemory>
    ensures { IfOk result (λ rule. rule ≡ catching_rule tag) }
{
    let mut actions = Actions::new(alloc);
    actions.push(Action::Output {
        port: ports::CONTROLLER,
        max_len: 0xffff,
    })?;
    Ok(Rule {
        matching: with_tag(tag),
        priority: 65535,
        actions,
        unsure: false,
    })
}

/// The rule that drops what is marked.
fn mark_rule(alloc: Global) -> Rule
    ensures { result ≡ mark_rule }
{
    Rule {
        matching: with_drop_mark(),
        priority: 65534,
        actions: Actions::new(alloc),
        unsure: false,
    }
}

/// Puts the rule for a tag into the table, but for the switch's own.
fn put_other(alloc: Global, table: &mut Table, tag: u16, other: u16) -> Result<(), OutOfMemory>
    ensures { OnOk result (table.new ≡ put_if (not (other == tag)) (catching_rule other) table.old) }
{
    if other != tag {
        table.put(catching_rule(alloc, other)?)?;
    }
    Ok(())
}

/// The table with which a switch of a tag is armed.
#[tactic(auto, using(crate::proofs::Armings::put_more))]
pub fn catching_table(alloc: Global, tag: u16, in_use: &[u16]) -> Result<Table, OutOfMemory>
    ensures { IfOk result (λ table. table ≡ catching_table tag in_use.now) }
{
    let mut table = Table::new(alloc);
    for other in in_use {
        put_other(alloc, &mut table, tag, *other)?;
    }
    table.put(mark_rule(alloc))?;
    Ok(table)
}

/// The fields between the match and the actions: no cookie, timeouts, buffer, out_port or flags.
fn own_fields(command: u16, priority: u16) -> [u8; 24]
    ensures { result ≡ own_fields command priority }
{
    let mut out = [0; 24];
    BigEndian::write_u64(&mut out, 0);
    BigEndian::write_u16(&mut out[8..], command);
    BigEndian::write_u32(&mut out[10..], 0);
    BigEndian::write_u16(&mut out[14..], priority);
    BigEndian::write_u32(&mut out[16..], NO_BUFFER);
    BigEndian::write_u16(&mut out[20..], ports::NONE);
    BigEndian::write_u16(&mut out[22..], 0);
    out
}

/// What stands behind the header.
fn own_body(
    alloc: Global,
    command: u16,
    matching: &Match,
    priority: u16,
    actions: &[u8],
) -> Result<Vec<u8>, OutOfMemory>
    requires { length actions.now ≤ 512 }
    ensures bytes { IfOk result (λ body. body.items ≡ spelled matching.now ++ own_fields command priority ++ actions.now) }
    ensures short { IfOk result (λ body. length body.items ≤ 576) }
{
    let mut body = Vec::with_capacity(alloc, 64 + actions.len())?;
    body.extend_from_slice(&write_match(matching))?;
    body.extend_from_slice(&own_fields(command, priority))?;
    body.extend_from_slice(actions)?;
    Ok(body)
}

/// A FLOW_MOD of the proxy's own (OpenFlow 1.0.0, modify flow entry message): no cookie, timeouts, buffer, out_port or
/// flags.
fn own_mod(
    alloc: Global,
    command: u16,
    matching: &Match,
    priority: u16,
    actions: &[u8],
) -> Result<Frame, OutOfMemory>
    requires { length actions.now ≤ 512 }
    ensures { IfOk result (λ frame. frame ≡ mod_of command matching.now priority actions.now) }
{
    let body = own_body(alloc, command, matching, priority, actions)?;
    Frame::make(alloc, kinds::FLOW_MOD, OWN_XID, &body)
}

/// The FLOW_MOD that adds a rule of the proxy's own.
fn adding(alloc: Global, rule: &Rule) -> Result<Frame, OutOfMemory>
    requires { length (action_bytes.spelled rule.now.actions) ≤ 512 }
    ensures { IfOk result (λ frame. frame ≡ own_mod Add rule.now) }
{
    let actions = write_actions(alloc, &rule.actions)?;
    own_mod(alloc, 0, &rule.matching, rule.priority, &actions)
}

/// The FLOW_MOD that adds the rule for a tag.
fn adding_catching(alloc: Global, tag: u16) -> Result<Frame, OutOfMemory>
    ensures { IfOk result (λ frame. frame ≡ own_mod Add (catching_rule tag)) }
{
    adding(alloc, &catching_rule(alloc, tag)?)
}

/// The FLOW_MOD that deletes all entries.
fn clearing(alloc: Global) -> Result<Frame, OutOfMemory>
    ensures { IfOk result (λ frame. frame ≡ clearing) }
{
    own_mod(alloc, 3, &all_packets(), 0, &[])
}

/// The SET_CONFIG by which misses are sent with 128 bytes.
fn setting(alloc: Global) -> Result<Frame, OutOfMemory>
    ensures { IfOk result (λ frame. frame ≡ setting) }
{
    Frame::make(alloc, kinds::SET_CONFIG, OWN_XID, &[0, 0, 0, 128])
}

/// A barrier request of the proxy's own.
pub fn own_barrier(alloc: Global) -> Result<Frame, OutOfMemory>
    ensures { IfOk result (λ frame. frame ≡ own_barrier) }
{
    Frame::make(alloc, kinds::BARRIER_REQUEST, OWN_XID, &[])
}

/// Appends the FLOW_MOD for a tag, but for the switch's own.
fn push_other(alloc: Global, frames: &mut Frames, tag: u16, other: u16) -> Result<(), OutOfMemory>
    ensures { OnOk result (frames.new ≡ frames.old ++ adding_if (not (other == tag)) other) }
{
    if other != tag {
        frames.push(adding_catching(alloc, other)?)?;
    }
    Ok(())
}

/// The frames that come first: the table is cleared, misses are sent with 128 bytes, and the rules for other tags are added.
#[tactic(auto, using(crate::proofs::Armings::frames_more))]
fn opening_frames(alloc: Global, tag: u16, in_use: &[u16]) -> Result<Frames, OutOfMemory>
    ensures { IfOk result (λ frames. frames ≡ clearing ∷ setting ∷ map (λ other. own_mod Add (catching_rule other)) (other_tags tag in_use.now)) }
{
    let mut frames = Frames::new(alloc);
    frames.push(clearing(alloc)?)?;
    frames.push(setting(alloc)?)?;
    for other in in_use {
        push_other(alloc, &mut frames, tag, *other)?;
    }
    Ok(frames)
}

/// The frames that come last: the rule that drops what is marked is added, and a barrier is asked for.
#[tactic(auto, using(crate::proofs::Armings::frames_close))]
fn push_last(alloc: Global, frames: &mut Frames) -> Result<(), OutOfMemory>
    ensures { OnOk result (frames.new ≡ frames.old ++ own_mod Add mark_rule ∷ own_barrier ∷ []) }
{
    frames.push(adding(alloc, &mark_rule(alloc))?)?;
    frames.push(own_barrier(alloc)?)?;
    Ok(())
}

/// What arms a switch with this tag: its table is cleared, misses are sent with 128 bytes, and it gets its catching rules.
pub fn arming_frames(alloc: Global, tag: u16, in_use: &[u16]) -> Result<Frames, OutOfMemory>
    ensures { IfOk result (λ frames. frames ≡ arming_frames tag in_use.now) }
{
    let mut frames = opening_frames(alloc, tag, in_use)?;
    push_last(alloc, &mut frames)?;
    Ok(frames)
}

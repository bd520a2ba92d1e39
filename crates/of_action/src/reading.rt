//! Bytes to actions.

ghost use Rattle.std.specs.Prelude.{◌≡◌, ◌≤◌, ◌<◌, ◌+◌, ◌^◌, true, false, length, take, drop, slice_index, IfOk};
ghost use Rattle.mon_header.specs.Actions.{FitsAction};
ghost use Rattle.of_action.specs.Reading.{kind_of, len_of, has_its_length, is_faulty, IsAction, known_action, action_of, actions_of, Reads};

use crate::fault::ActionFault;
use mon_fields::{u16_at, u32_at, u48_at};
use mon_header::{Action, Actions, RawAction};
use mon_list::OutOfMemory;
use std::alloc::Global;

fn has_its_length(kind: u16, len: usize) -> bool
    ensures { result ≡ has_its_length kind len }
{
    match kind {
        4 | 5 | 11 => len == 16,
        0..=10 => len == 8,
        _ => true,
    }
}

#[tactic(auto, unfolding(crate::specs::Reading::is_faulty))]
fn is_faulty(bytes: &[u8]) -> bool
    ensures { result ≡ is_faulty bytes.now }
{
    if bytes.len() < 4 {
        return true;
    }
    let len = usize::from(u16_at(bytes, 2));
    len == 0 || len % 8 != 0 || bytes.len() < len || !has_its_length(u16_at(bytes, 0), len)
}

#[tactic(auto, unfolding(crate::specs::Reading::known_action))]
fn known_action(kind: u16, bytes: &[u8]) -> Action
    requires kind { kind ≤ 11 }
    requires right { has_its_length kind (length bytes.now) ≡ true }
    ensures value { result ≡ known_action kind bytes.now }
    ensures fits { FitsAction result }
{
    match kind {
        0 => Action::Output {
            port: u16_at(bytes, 4),
            max_len: u16_at(bytes, 6),
        },
        1 => Action::SetVlanVid(u16_at(bytes, 4)),
        2 => Action::SetVlanPcp(bytes[4]),
        3 => Action::StripVlan,
        4 => Action::SetDlSrc(u48_at(bytes, 4)),
        5 => Action::SetDlDst(u48_at(bytes, 4)),
        6 => Action::SetNwSrc(u32_at(bytes, 4)),
        7 => Action::SetNwDst(u32_at(bytes, 4)),
        8 => Action::SetNwTos(bytes[4]),
        9 => Action::SetTpSrc(u16_at(bytes, 4)),
        10 => Action::SetTpDst(u16_at(bytes, 4)),
        _ => Action::Enqueue {
            port: u16_at(bytes, 4),
            queue: u32_at(bytes, 12),
        },
    }
}

/// One whole action. Only one whose type is not in the table takes memory.
fn read_action(alloc: Global, bytes: &[u8]) -> Result<Action, OutOfMemory>
    requires { IsAction bytes.now }
    ensures value { IfOk result (λ action. action ≡ action_of bytes.now) }
    ensures fits { IfOk result FitsAction }
{
    let kind = u16_at(bytes, 0);
    if kind <= 11 {
        Ok(known_action(kind, bytes))
    } else {
        Ok(Action::Unknown(RawAction::new(alloc, bytes)?))
    }
}

/// The actions of these bytes.
pub fn read_actions(alloc: Global, bytes: &[u8]) -> Result<Actions, ActionFault>
    ensures { Reads result (actions_of bytes.now) }
{
    let mut actions = Actions::new(alloc);
    let mut place = 0;
    while place < bytes.len() {
        let rest = &bytes[place..];
        if is_faulty(rest) {
            return Err(ActionFault::ActionLength {
                place: place as u64,
            });
        }
        let len = usize::from(u16_at(rest, 2));
        let action = read_action(alloc, &rest[..len])?;
        actions.push(action)?;
        place += len;
    }
    Ok(actions)
}

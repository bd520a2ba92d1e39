//! FLOW_MODs to frames.

ghost use Rattle.std.specs.Prelude.{◌≡◌, ◌<◌, ◌^◌, ◌++◌, length, IfOk};
ghost use Rattle.of_msgs.specs.FlowMods.{FitsMod, IsFlowMod, flow_mod_of, fields_of_mod};

use crate::command::number_of;
use crate::flow_mod::FlowMod;
use byteorder::{BigEndian, ByteOrder};
use mon_list::OutOfMemory;
use of_frame::Frame;
use of_frame::kinds::FLOW_MOD;
use std::alloc::Global;

/// The fields between the match and the actions.
fn fields(m: &FlowMod) -> [u8; 24]
    ensures { result ≡ fields_of_mod m.now }
{
    let mut out = [0; 24];
    BigEndian::write_u64(&mut out, m.cookie);
    BigEndian::write_u16(&mut out[8..], number_of(m.command));
    BigEndian::write_u16(&mut out[10..], m.idle);
    BigEndian::write_u16(&mut out[12..], m.hard);
    BigEndian::write_u16(&mut out[14..], m.priority);
    BigEndian::write_u32(&mut out[16..], m.buffer);
    BigEndian::write_u16(&mut out[20..], m.out_port);
    BigEndian::write_u16(&mut out[22..], m.flags);
    out
}

fn fits16(x: u16)
    ensures { x < 2 ^ 16 }
{}

fn fits32(x: u32)
    ensures { x < 2 ^ 32 }
{}

fn fits64(x: u64)
    ensures { x < 2 ^ 64 }
{}

fn has40(bytes: &[u8; 40])
    ensures { length bytes.now ≡ 40 }
{}

/// What the types of a message's fields say of its numbers.
fn numbers_fit(m: &FlowMod)
    ensures { FitsMod m.now }
{
    fits32(m.xid);
    has40(&m.spelled);
    fits64(m.cookie);
    fits16(m.idle);
    fits16(m.hard);
    fits16(m.priority);
    fits32(m.buffer);
    fits16(m.out_port);
    fits16(m.flags);
}

/// What stands behind the header.
fn body_of(alloc: Global, m: &FlowMod) -> Result<Vec<u8>, OutOfMemory>
    ensures { IfOk result (λ body. body.items ≡ m.now.spelled ++ fields_of_mod m.now ++ m.now.raw) }
{
    let mut body = Vec::with_capacity(alloc, 64 + m.raw.items().len())?;
    body.extend_from_slice(&m.spelled)?;
    body.extend_from_slice(&fields(m))?;
    body.extend_from_slice(m.raw.items())?;
    Ok(body)
}

/// The frame of a FLOW_MOD, with its match and its actions as they were spelled. It is read back.
pub fn write_flow_mod(alloc: Global, m: &FlowMod) -> Result<Frame, OutOfMemory>
    ensures bytes { IfOk result (λ frame. frame ≡ flow_mod_of m.now) }
    ensures read_back { IfOk result (λ frame. IsFlowMod frame m.now) }
{
    numbers_fit(m);
    let body = body_of(alloc, m)?;
    Frame::make(alloc, FLOW_MOD, m.xid, &body)
}

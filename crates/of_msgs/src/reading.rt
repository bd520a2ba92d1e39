//! Frames to messages.

ghost use Rattle.std.specs.Prelude.{◌≡◌, ◌≤◌, ◌<◌, ◌⊎◌, length, take, drop, MatchOption, IfOk};
ghost use Rattle.of_msgs.specs.declared.fault.ModFault.TheVariants as faults;
ghost use Rattle.of_msgs.specs.Layout.{datapath_of, miss_length_of};
ghost use Rattle.of_msgs.specs.FlowMods.{ReadsFlowMod};
ghost use Rattle.of_msgs.specs.ReadMods.{flow_mod_in};

use crate::command::command_of;
use crate::fault::ModFault;
use crate::flow_mod::{FlowMod, RawActions};
use mon_fields::{u16_at, u32_at, u64_at};
use of_action::read_actions;
use of_frame::Frame;
use of_match::read_match;
use std::alloc::Global;

/// The datapath of a FEATURES_REPLY (OpenFlow 1.0.0, switch features), or None below 32 bytes.
pub fn read_features(frame: &Frame) -> Option<u64>
    ensures { result ≡ datapath_of frame.now }
{
    let bytes = frame.bytes();
    if bytes.len() < 32 {
        return None;
    }
    Some(u64_at(bytes, 8))
}

/// The most bytes of a packet that a miss sends to the controller, of a SET_CONFIG (OpenFlow 1.0.0, switch
/// configuration), or None below 12 bytes.
pub fn read_miss_length(frame: &Frame) -> Option<u16>
    ensures { result ≡ miss_length_of frame.now }
{
    let bytes = frame.bytes();
    if bytes.len() < 12 {
        return None;
    }
    Some(u16_at(bytes, 10))
}

/// The 40 bytes of the match.
fn match_bytes(bytes: &[u8]) -> [u8; 40]
    requires { 48 ≤ length bytes.now }
    ensures { result ≡ take 40 (drop 8 bytes.now) }
{
    let mut spelled = [0; 40];
    spelled.copy_from_slice(&bytes[8..48]);
    spelled
}

/// A FLOW_MOD (OpenFlow 1.0.0, modify flow entry message), whatever type the frame has. The same bytes are always read
/// alike, unless memory runs out.
pub fn read_flow_mod(alloc: Global, frame: &Frame) -> Result<FlowMod, ModFault>
    ensures reads { ReadsFlowMod frame.now result }
    ensures message { IfOk result (λ m. flow_mod_in frame.now ≡ Ok m) }
    ensures as_function { (result ≡ Err faults.OutOfMemory) ⊎ (result ≡ flow_mod_in frame.now) }
{
    let bytes = frame.bytes();
    if bytes.len() < 72 {
        return Err(ModFault::ModLength);
    }
    let Some(command) = command_of(u16_at(bytes, 56)) else {
        return Err(ModFault::ModCommand);
    };
    let spelled = match_bytes(bytes);
    let actions = read_actions(alloc, &bytes[72..])?;
    let raw = RawActions::of(Vec::from_slice(alloc, &bytes[72..])?);
    Ok(FlowMod {
        xid: frame.xid(),
        spelled,
        matching: read_match(&spelled),
        cookie: u64_at(bytes, 48),
        command,
        idle: u16_at(bytes, 58),
        hard: u16_at(bytes, 60),
        priority: u16_at(bytes, 62),
        buffer: u32_at(bytes, 64),
        out_port: u16_at(bytes, 68),
        flags: u16_at(bytes, 70),
        actions,
        raw,
    })
}

//! Actions to bytes.

ghost use Rattle.std.specs.Prelude.{◌≡◌, ◌++◌, ◌∷◌, IfOk, OnOk};
ghost use Rattle.byteorder.specs.Endian.{big_bytes};
ghost use Rattle.of_action.specs.Layout.{pad, spelled_as, spelled_action, spelled};

use mon_header::{Action, Actions};
use mon_list::OutOfMemory;
use std::alloc::Global;

fn padded_byte(x: u8) -> [u8; 4]
    ensures { result ≡ x ∷ pad 3 }
{
    [x, 0, 0, 0]
}

fn padded_u16(x: u16) -> [u8; 4]
    ensures { result ≡ big_bytes 2 x ++ pad 2 }
{
    let [a, b] = x.to_be_bytes();
    [a, b, 0, 0]
}

fn two_u16(x: u16, y: u16) -> [u8; 4]
    ensures { result ≡ big_bytes 2 x ++ big_bytes 2 y }
{
    let [a, b] = x.to_be_bytes();
    let [c, d] = y.to_be_bytes();
    [a, b, c, d]
}

fn padded_u48(x: u64) -> [u8; 12]
    ensures { result ≡ big_bytes 6 x ++ pad 6 }
{
    let [_, _, a, b, c, d, e, f] = x.to_be_bytes();
    [a, b, c, d, e, f, 0, 0, 0, 0, 0, 0]
}

fn port_and_queue(port: u16, queue: u32) -> [u8; 12]
    ensures { result ≡ big_bytes 2 port ++ pad 6 ++ big_bytes 4 queue }
{
    let [a, b] = port.to_be_bytes();
    let [c, d, e, f] = queue.to_be_bytes();
    [a, b, 0, 0, 0, 0, 0, 0, c, d, e, f]
}

fn put(out: &mut Vec<u8>, kind: u16, len: u16, fields: &[u8]) -> Result<(), OutOfMemory>
    ensures { OnOk result (out.new.items ≡ out.old.items ++ spelled_as kind len fields.now) }
{
    out.extend_from_slice(&kind.to_be_bytes())?;
    out.extend_from_slice(&len.to_be_bytes())?;
    out.extend_from_slice(fields)?;
    Ok(())
}

fn put_action(out: &mut Vec<u8>, action: &Action) -> Result<(), OutOfMemory>
    ensures { OnOk result (out.new.items ≡ out.old.items ++ spelled_action action.now) }
{
    match action {
        Action::Output { port, max_len } => put(out, 0, 8, &two_u16(*port, *max_len)),
        Action::SetVlanVid(vid) => put(out, 1, 8, &padded_u16(*vid)),
        Action::SetVlanPcp(pcp) => put(out, 2, 8, &padded_byte(*pcp)),
        Action::StripVlan => put(out, 3, 8, &[0; 4]),
        Action::SetDlSrc(address) => put(out, 4, 16, &padded_u48(*address)),
        Action::SetDlDst(address) => put(out, 5, 16, &padded_u48(*address)),
        Action::SetNwSrc(address) => put(out, 6, 8, &address.to_be_bytes()),
        Action::SetNwDst(address) => put(out, 7, 8, &address.to_be_bytes()),
        Action::SetNwTos(tos) => put(out, 8, 8, &padded_byte(*tos)),
        Action::SetTpSrc(port) => put(out, 9, 8, &padded_u16(*port)),
        Action::SetTpDst(port) => put(out, 10, 8, &padded_u16(*port)),
        Action::Enqueue { port, queue } => put(out, 11, 16, &port_and_queue(*port, *queue)),
        Action::Unknown(raw) => {
            out.extend_from_slice(raw.bytes())?;
            Ok(())
        }
    }
}

/// The bytes of the actions, one after the other. Pads are 0, and an unknown action has the bytes that it came with.
pub fn write_actions(alloc: Global, actions: &Actions) -> Result<Vec<u8>, OutOfMemory>
    ensures { IfOk result (λ bytes. bytes.items ≡ spelled actions.now) }
{
    let mut out = Vec::new(alloc);
    for action in actions.items() {
        put_action(&mut out, action)?;
    }
    Ok(out)
}

//! Packets that a switch sends to its controller, and those that it is told to send out.

ghost use Rattle.std.specs.Prelude.{◌≡◌, ◌≤◌, ◌<◌, length, MatchOption, IfOk};
ghost use Rattle.of_msgs.specs.Absent as absent;
ghost use Rattle.of_msgs.specs.Layout.{IsPacketIn, IsPacketOut, output_to, own_xid, packet_out_of};

use crate::ports;
use mon_fields::u16_at;
use mon_list::OutOfMemory;
use of_frame::Frame;
use of_frame::kinds::PACKET_OUT;
use std::alloc::Global;

/// The transaction id of the monitor's own frames.
pub const OWN_XID: u32 = 0x4d6f_6e6f;

/// The number that names no buffer of a switch.
pub const NO_BUFFER: u32 = 0xffff_ffff;

/// A PACKET_IN (OpenFlow 1.0.0, packet-in message), but for its buffer and the whole packet's length.
#[derive(Clone, Copy)]
pub struct PacketIn<'a> {
    /// The port at which the packet came.
    pub in_port: u16,
    /// Why the switch sends it, a number of the module `reasons`.
    pub reason: u8,
    /// As many bytes of the packet as the switch sent.
    pub content: &'a [u8],
}

/// A PACKET_IN, or None below 18 bytes.
pub fn read_packet_in(frame: &Frame) -> Option<PacketIn<'_>>
    ensures { MatchOption result (length frame.now < 18) (λ p. IsPacketIn frame.now p.in_port p.reason p.content.now) }
{
    let bytes = frame.bytes();
    if bytes.len() < 18 {
        return None;
    }
    Some(PacketIn {
        in_port: u16_at(bytes, 14),
        reason: bytes[16],
        content: &bytes[18..],
    })
}

/// The monitor's PACKET_OUT of these bytes at a port (OpenFlow 1.0.0, send packet message).
pub fn packet_out(alloc: Global, port: u16, content: &[u8]) -> Result<Frame, OutOfMemory>
    requires { length content.now ≤ 128 }
    ensures bytes { IfOk result (λ frame. frame ≡ packet_out_of port content.now) }
    ensures fields { IfOk result (λ frame. IsPacketOut frame own_xid absent.NO_BUFFER absent.NO_PORT (output_to port) content.now) }
{
    let mut body = Vec::with_capacity(alloc, 16 + content.len())?;
    body.extend_from_slice(&NO_BUFFER.to_be_bytes())?;
    body.extend_from_slice(&ports::NONE.to_be_bytes())?;
    // eight bytes of actions: an OUTPUT of eight bytes
    body.extend_from_slice(&[0, 8, 0, 0, 0, 8])?;
    body.extend_from_slice(&port.to_be_bytes())?;
    body.extend_from_slice(&[0, 0])?;
    body.extend_from_slice(content)?;
    Frame::make(alloc, PACKET_OUT, OWN_XID, &body)
}

//! A frame: eight bytes or more, as many as its header says.

ghost use Rattle.std.specs.Prelude.{◌≡◌, ◌≤◌, ◌+◌, ◌^◌, ◌<◌, List, ℕ, length, IfOk};
ghost use Rattle.of_frame.specs.Header.{IsFrame, length_field, kind_of, xid_of, made};
ghost use Rattle.of_frame.specs.Cut.{header_fault};

use crate::fault::FrameFault;
use crate::kinds::HELLO;
use byteorder::{BigEndian, ByteOrder};
use mon_fields::{u16_at, u32_at};
use mon_list::OutOfMemory;
use std::alloc::Global;
use std::marker::Model;

/// The version of OpenFlow 1.0.
const VERSION: u8 = 1;

/// A whole message as it stands on the wire (OpenFlow 1.0.0, OpenFlow header): 8 to 65,535 bytes, as many as its
/// length field says.
#[derive(Drop)]
pub struct Frame {
    bytes: Vec<u8>,
}

impl Model for Frame {
    ghost Value = { List ℕ };

    ghost view = { λ f. f.bytes.items };

    ghost invariant = { λ f. IsFrame f.bytes.items };
}

impl Frame {
    /// A frame of OpenFlow 1.0 with this type, xid and body.
    pub fn make(alloc: Global, kind: u8, xid: u32, body: &[u8]) -> Result<Frame, OutOfMemory>
        requires { length body.now ≤ 65527 }
        ensures { IfOk result (λ f. f ≡ made kind xid body.now) }
    {
        let mut header = [VERSION, kind, 0, 0, 0, 0, 0, 0];
        BigEndian::write_u16(&mut header[2..], (8 + body.len()) as u16);
        BigEndian::write_u32(&mut header[4..], xid);
        let mut bytes = Vec::with_capacity(alloc, 8 + body.len())?;
        bytes.extend_from_slice(&header)?;
        bytes.extend_from_slice(body)?;
        Ok(Frame { bytes })
    }

    /// A frame of bytes that are one. It takes no memory.
    pub fn of_bytes(bytes: Vec<u8>) -> Frame
        requires { IsFrame bytes.items }
        ensures { result ≡ bytes.items }
    {
        Frame { bytes }
    }

    /// All bytes, header included.
    pub fn bytes(&self) -> &[u8]
        ensures value { result.now ≡ self.now }
        ensures frame { IsFrame self.now }
        ensures small { length result.now < 65536 }
    {
        frame_bytes(&self.bytes)
    }

    /// The type of the message.
    pub fn kind(&self) -> u8
        ensures { result ≡ kind_of self.now }
    {
        self.bytes[1]
    }

    /// The transaction id.
    pub fn xid(&self) -> u32
        ensures { result ≡ xid_of self.now }
    {
        u32_at(&self.bytes, 4)
    }
}

/// The bytes of a frame, which are fewer than 2^16, since the length field has 16 bits.
fn frame_bytes(bytes: &[u8]) -> &[u8]
    requires { IsFrame bytes.now }
    ensures value { result.now ≡ bytes.now }
    ensures small { length result.now < 65536 }
{
    bytes
}

/// The length that a header names.
pub(crate) fn length_of(bytes: &[u8]) -> usize
    requires { 8 ≤ length bytes.now }
    ensures value { result ≡ length_field bytes.now }
    ensures small { result < 65536 }
{
    usize::from(u16_at(bytes, 2))
}

/// What is wrong with a header.
#[tactic(auto, unfolding(crate::specs::Cut::header_fault))]
pub(crate) fn fault_of(bytes: &[u8]) -> Option<FrameFault>
    requires { 8 ≤ length bytes.now }
    ensures { result ≡ header_fault bytes.now }
{
    if length_of(bytes) < 8 {
        Some(FrameFault::BadLength)
    } else if bytes[0] == VERSION || bytes[1] == HELLO {
        None
    } else {
        Some(FrameFault::BadVersion)
    }
}

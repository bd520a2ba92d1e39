//! ERRORs.

ghost use Rattle.std.specs.Prelude.{◌≡◌, ◌<◌, ◌≤◌, ◌++◌, length, take, MatchOption, IfOk};
ghost use Rattle.byteorder.specs.Endian.{big_bytes};
ghost use Rattle.of_frame.specs.Header.{xid_of};
ghost use Rattle.of_msgs.specs.Layout.{IsError, error_of};

use mon_fields::u16_at;
use mon_list::OutOfMemory;
use of_frame::Frame;
use of_frame::kinds::ERROR;
use std::alloc::Global;

/// How many bytes of a failed frame an ERROR bears at most.
const KEPT: usize = 64;

/// An ERROR (OpenFlow 1.0.0, error message): its type, its code, and the bytes of what failed.
#[derive(Clone, Copy)]
pub struct ErrorMsg<'a> {
    /// The type, which says what kind of request failed.
    pub kind: u16,
    /// The code, which says why; its meaning is the type's.
    pub code: u16,
    /// Bytes of what failed, mostly its first 64.
    pub content: &'a [u8],
}

/// An ERROR, or None below 12 bytes.
pub fn read_error(frame: &Frame) -> Option<ErrorMsg<'_>>
    ensures { MatchOption result (length frame.now < 12) (λ e. IsError frame.now e.kind e.code e.content.now) }
{
    let bytes = frame.bytes();
    if bytes.len() < 12 {
        return None;
    }
    Some(ErrorMsg {
        kind: u16_at(bytes, 8),
        code: u16_at(bytes, 10),
        content: &bytes[12..],
    })
}

/// The first 64 bytes, or all of fewer.
fn front(bytes: &[u8]) -> &[u8]
    ensures value { result.now ≡ take 64 bytes.now }
    ensures short { length result.now ≤ 64 }
{
    if bytes.len() < KEPT {
        bytes
    } else {
        &bytes[..KEPT]
    }
}

/// What stands behind the header.
fn body_of(alloc: Global, kind: u16, code: u16, failed: &[u8]) -> Result<Vec<u8>, OutOfMemory>
    ensures value { IfOk result (λ body. body.items ≡ big_bytes 2 kind ++ big_bytes 2 code ++ take 64 failed.now) }
    ensures short { IfOk result (λ body. length body.items ≤ 68) }
{
    let kept = front(failed);
    let mut body = Vec::with_capacity(alloc, 4 + kept.len())?;
    body.extend_from_slice(&kind.to_be_bytes())?;
    body.extend_from_slice(&code.to_be_bytes())?;
    body.extend_from_slice(kept)?;
    Ok(body)
}

/// The ERROR for a frame: its xid, and its first 64 bytes, or all of a shorter one. It is read back.
pub fn error_frame(
    alloc: Global,
    kind: u16,
    code: u16,
    failed: &Frame,
) -> Result<Frame, OutOfMemory>
    ensures bytes { IfOk result (λ frame. frame ≡ error_of kind code failed.now) }
    ensures read_back { IfOk result (λ frame. IsError frame kind code (take 64 failed.now)) }
    ensures xid { IfOk result (λ frame. xid_of frame ≡ xid_of failed.now) }
{
    let body = body_of(alloc, kind, code, failed.bytes())?;
    Frame::make(alloc, ERROR, failed.xid(), &body)
}

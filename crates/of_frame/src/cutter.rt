//! Cuts a stream into frames, in whatever pieces it comes.

ghost use Rattle.std.specs.Prelude.{◌≡◌, ◌≤◌, ◌<◌, ◌+◌, ◌++◌, [], Some, None, Option, length, take, drop, IfOk, OnOk, IfSome, MatchBool};
ghost use Rattle.std.specs.Option.{option_to_list};
ghost use Rattle.of_frame.specs.declared.fault.FrameFault.{FrameFault};
ghost use Rattle.of_frame.specs.Header.{length_field};
ghost use Rattle.of_frame.specs.Cut.{Pending, IsPending, IsWholeAt, nothing_yet, grown, cut};

use crate::fault::FrameFault;
use crate::frame::{Frame, fault_of, length_of};
use mon_list::{Items, OutOfMemory};
use std::alloc::Global;
use std::marker::Model;
use std::mem;

/// Frames in order.
pub type Frames = Items<Frame>;

/// The frames that a piece completes, and the fault after which nothing is cut.
#[derive(Drop)]
pub struct Cut {
    pub frames: Frames,
    pub fault: Option<FrameFault>,
}

/// The bytes that have come of the next frame, judged as soon as its header is there.
#[derive(Drop)]
pub struct Cutter {
    rest: Vec<u8>,
    fault: Option<FrameFault>,
}

impl Model for Cutter {
    ghost Value = { Pending };

    ghost view = { λ c. record { rest = c.rest.items; fault = c.fault } };

    ghost invariant = { λ c. IsPending (record { rest = c.rest.items; fault = c.fault }) };
}

/// The length of the whole frame with which the bytes begin, where nothing is pending and they do.
fn whole_at(rest: &[u8], bytes: &[u8]) -> Option<usize>
    ensures { IfSome result (λ n. (length rest.now ≡ 0) × IsWholeAt n bytes.now) }
{
    if !rest.is_empty() || bytes.len() < 8 || fault_of(bytes).is_some() {
        return None;
    }
    let length = length_of(bytes);
    if length <= bytes.len() {
        Some(length)
    } else {
        None
    }
}

/// How many bytes are missing of the header, or else of the frame.
fn wanted(rest: &[u8]) -> usize
    requires { 8 ≤ length rest.now → length rest.now < length_field rest.now }
    ensures some { 0 < result }
    ensures header { length rest.now < 8 → length rest.now + result ≡ 8 }
    ensures frame { 8 ≤ length rest.now → length rest.now + result ≡ length_field rest.now }
{
    if rest.len() < 8 {
        8 - rest.len()
    } else {
        length_of(rest) - rest.len()
    }
}

/// Judges a header that is there, and hands a whole frame out.
fn judge(alloc: Global, rest: &mut Vec<u8>, fault: &mut Option<FrameFault>) -> Option<Frame>
    requires { fault.old ≡ None }
    ensures { grown rest.old.items ≡ (record { rest = rest.new.items; fault = fault.new }, result) }
{
    if rest.len() < 8 {
        return None;
    }
    *fault = fault_of(rest);
    if fault.is_some() || rest.len() != length_of(rest) {
        return None;
    }
    let bytes = mem::replace(rest, Vec::new(alloc));
    Some(Frame::of_bytes(bytes))
}

/// Keeps a frame that is whole.
fn keep(frames: &mut Frames, frame: Option<Frame>) -> Result<(), OutOfMemory>
    ensures { OnOk result (frames.new ≡ frames.old ++ option_to_list frame) }
{
    if let Some(frame) = frame {
        frames.push(frame)?;
    }
    Ok(())
}

/// The bytes behind the first ones.
fn behind(bytes: &[u8], count: usize) -> &[u8]
    requires { count ≤ length bytes.now }
    ensures { result.now ≡ drop count bytes.now }
{
    &bytes[count..]
}

impl Cutter {
    /// A cutter that has seen no byte. It takes no memory yet.
    pub fn new(alloc: Global) -> Cutter
        ensures { result ≡ nothing_yet }
    {
        Cutter {
            rest: Vec::new(alloc),
            fault: None,
        }
    }

    /// Whether more can be cut.
    fn goes_on(&self, rest: &[u8]) -> bool
        ensures { MatchBool result ((0 < length rest.now) × (self.now.fault ≡ None)) (cut self.now rest.now ≡ (self.now, [])) }
    {
        match self.fault {
            Some(_) => false,
            None => !rest.is_empty(),
        }
    }

    /// Takes one frame whole, or bytes up to the end of a header or of a frame, at least one, and says how many.
    fn advance(
        &mut self,
        alloc: Global,
        piece: &[u8],
    ) -> Result<(usize, Option<Frame>), OutOfMemory>
        requires some { 0 < length piece.now }
        requires open { self.old.fault ≡ None }
        ensures taken { IfOk result (λ r. (0 < r.0) × (r.0 ≤ length piece.now)) }
        ensures cut { IfOk result (λ r. cut self.old (take r.0 piece.now) ≡ (self.new, option_to_list r.1)) }
    {
        if let Some(length) = whole_at(&self.rest, piece) {
            let bytes = Vec::from_slice(alloc, &piece[..length])?;
            return Ok((length, Some(Frame::of_bytes(bytes))));
        }
        let missing = wanted(&self.rest);
        let count = missing.min(piece.len());
        self.rest.reserve_exact(missing)?;
        self.rest.extend_from_slice(&piece[..count])?;
        let frame = judge(alloc, &mut self.rest, &mut self.fault);
        Ok((count, frame))
    }

    /// Takes a piece, and gives the frames that it completes. Once there is a fault, each call gives no frames and
    /// that fault. After want of memory the cutter may only be dropped.
    pub fn feed(&mut self, alloc: Global, piece: &[u8]) -> Result<Cut, OutOfMemory>
        ensures frames { IfOk result (λ found. cut self.old piece.now ≡ (self.new, found.frames)) }
        ensures fault { IfOk result (λ found. found.fault ≡ self.new.fault) }
    {
        let mut frames = Frames::new(alloc);
        let mut rest = piece;
        while self.goes_on(rest) {
            let (count, frame) = self.advance(alloc, rest)?;
            keep(&mut frames, frame)?;
            rest = behind(rest, count);
        }
        Ok(Cut {
            frames,
            fault: self.fault,
        })
    }
}

//! A queue of frames, first in first out.

ghost use Rattle.std.specs.Prelude.{◌≡◌, ◌++◌, ◌∷◌, [], List, ℕ, length, sum_by, slice_get, option_copied, OnOk, OnErr, MatchOption};
ghost use Rattle.mon_queue.specs.Apart.{apart};

use mon_header::{Match, Matches, overlaps};
use mon_list::OutOfMemory;
use of_frame::Frame;
use std::alloc::Global;
use std::collections::VecDeque;
use std::marker::Model;

/// Frames that wait, the one that came first at the head.
#[derive(Drop)]
pub struct Queue {
    frames: VecDeque<Frame>,
    bytes: u64,
}

impl Model for Queue {
    ghost Value = { List (List ℕ) };

    ghost view = { λ q. q.frames.items };

    ghost invariant = { λ q. q.bytes ≡ sum_by length q.frames.items };
}

impl Queue {
    /// The empty queue. It takes no memory yet.
    pub fn new(alloc: Global) -> Queue
        ensures { result ≡ [] }
    {
        Queue {
            frames: VecDeque::new(alloc),
            bytes: 0,
        }
    }

    /// Puts a frame behind all others, or changes nothing for want of memory. More bytes than a `u64` counts are more
    /// than any memory holds.
    pub fn push(&mut self, frame: Frame) -> Result<(), OutOfMemory>
        ensures pushed { OnOk result (self.new ≡ self.old ++ frame ∷ []) }
        ensures same { OnErr result (self.new ≡ self.old) }
    {
        let length = frame.bytes().len() as u64;
        let Some(bytes) = self.bytes.checked_add(length) else {
            return Err(OutOfMemory);
        };
        self.frames.push_back(frame)?;
        self.bytes = bytes;
        Ok(())
    }

    /// How many bytes all frames have together.
    pub fn bytes(&self) -> u64
        ensures { result ≡ sum_by length self.now }
    {
        self.bytes
    }

    /// The frame that came first, where there is one.
    pub fn head(&self) -> Option<&Frame>
        ensures { option_copied result ≡ slice_get self.now 0 }
    {
        self.frames.front()
    }

    /// Takes the frame out that came first, where there is one.
    pub fn pop(&mut self) -> Option<Frame>
        ensures { MatchOption result ((self.old ≡ []) × (self.new ≡ [])) (λ frame. self.old ≡ frame ∷ self.new) }
    {
        let frame = self.frames.pop_front()?;
        self.bytes -= frame.bytes().len() as u64;
        Some(frame)
    }
}

/// Whether no header is taken by this match and by one of the others too.
pub fn apart(m: &Match, unsettled: &Matches) -> bool
    ensures { result ≡ apart m.now unsettled.now }
{
    unsettled.items().iter().all(|other| !overlaps(m, other))
}

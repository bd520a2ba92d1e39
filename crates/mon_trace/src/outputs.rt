//! The outputs and notes of a run, kept as their text.
//!
//! The line of an output is written when it comes, so nothing is left to write at the end. Beside the text an output is
//! kept as the number of inputs before it and the place of its digits: its bytes are those that the digits say. A note
//! is kept as it is, since its line doesn't say all of it.

ghost use Rattle.std.specs.Prelude.{◌≡◌, ◌<◌, ◌^◌, ◌∷◌, [], length, IfOk, OnOk, OnErr};
ghost use Rattle.mon_world.specs.Logs.{entry_of};
ghost use Rattle.mon_world.specs.declared.history.Entry.TheVariants.{Noted};
ghost use Rattle.mon_trace.specs.Outputs.{lines_text, IsPlaceIn};
ghost use Rattle.mon_trace.specs.Run.{line_of};

use crate::printing::{push_end, push_frame, push_head, push_note};
use mon_list::OutOfMemory;
use mon_world::{Note, Out, Side};
use std::alloc::{AllocError, Global};
use std::marker::Model;

/// An output or a note, after so many inputs, with the number of its line. Small fields come first, so that it takes 40
/// bytes.
#[derive(Drop)]
pub(crate) enum Output {
    /// A frame of so many bytes, whose digits begin at a place of the text.
    Frame {
        to: Side,
        lost: bool,
        size: u16,
        after: u64,
        number: u64,
        session: u64,
        start: usize,
    },
    /// The end of a session.
    Closing {
        after: u64,
        number: u64,
        session: u64,
    },
    /// A note.
    Told {
        after: u64,
        number: u64,
        note: Box<Note>,
    },
}

/// Outputs and notes, and the number of inputs before each, seen as their list with the newest first.
#[derive(Drop)]
pub(crate) struct Outputs {
    places: Vec<Output>,
    text: Vec<u8>,
    // The line that is being written. It is empty memory between two calls.
    line: Vec<u8>,
}

impl Model for Outputs {
    ghost use Rattle.std.specs.Prelude.{◌≡◌, List, length, reverse};
    ghost use Rattle.mon_trace.specs.Outputs.{Placed, entries_in, AllIn, lines_text};

    ghost Value = { List Placed };

    ghost view = { λ o. entries_in o.text.items (reverse o.places.items) };

    ghost invariant = { λ o. record {
      within : AllIn (length o.text.items) (reverse o.places.items);
      printed : o.text.items ≡ lines_text (entries_in o.text.items (reverse o.places.items));
    } };
}

/// How many bytes a frame has.
fn size_of(frame: &[u8]) -> u16
    requires { length frame.now < 65536 }
    ensures { result ≡ length frame.now }
{
    frame.len() as u16
}

/// Writes the line of an output in place of another line. The text behind which it is to stand has so many bytes.
fn write_line(
    line: &mut Vec<u8>,
    before: usize,
    after: u64,
    number: u64,
    lost: bool,
    out: &Out,
) -> Result<Output, AllocError>
    requires { before < 2 ^ 63 }
    ensures line { OnOk result (line.new.items ≡ line_of number (entry_of lost out.now)) }
    ensures place { IfOk result (λ place. IsPlaceIn before line.new.items (record { after = after; number = number; entry = entry_of lost out.now }) place) }
{
    line.clear();
    match out {
        Out::Send { session, to, frame } => {
            push_head(line, number, *session, *to, lost)?;
            let start = before + line.len();
            push_frame(line, frame.bytes())?;
            Ok(Output::Frame {
                after,
                number,
                lost,
                session: *session,
                to: *to,
                start,
                size: size_of(frame.bytes()),
            })
        }
        Out::Close { session } => {
            push_end(line, number, *session)?;
            Ok(Output::Closing {
                after,
                number,
                session: *session,
            })
        }
    }
}

/// Writes the line of a note in place of another line.
fn write_note(
    alloc: Global,
    line: &mut Vec<u8>,
    before: usize,
    after: u64,
    number: u64,
    note: &Note,
) -> Result<Output, OutOfMemory>
    ensures line { OnOk result (line.new.items ≡ line_of number (Noted note.now)) }
    ensures place { IfOk result (λ place. IsPlaceIn before line.new.items (record { after = after; number = number; entry = Noted note.now }) place) }
{
    line.clear();
    push_note(alloc, line, number, note)?;
    Ok(Output::Told {
        after,
        number,
        note: Box::new(alloc, *note)?,
    })
}

impl Outputs {
    /// No outputs.
    pub(crate) fn new(alloc: Global) -> Outputs
        ensures { result ≡ [] }
    {
        Outputs {
            places: Vec::new(alloc),
            text: Vec::new(alloc),
            line: Vec::new(alloc),
        }
    }

    /// Adds an output that came after so many inputs, or changes nothing for want of memory.
    pub(crate) fn push(
        &mut self,
        after: u64,
        number: u64,
        lost: bool,
        out: &Out,
    ) -> Result<(), OutOfMemory>
        ensures pushed { OnOk result (self.new ≡ record { after = after; number = number; entry = entry_of lost out.now } ∷ self.old) }
        ensures same { OnErr result (self.new ≡ self.old) }
    {
        let place = write_line(&mut self.line, self.text.len(), after, number, lost, out)?;
        self.places.reserve(1)?;
        self.text.extend_from_slice(&self.line)?;
        match self.places.push(place) {
            Ok(()) => Ok(()),
            Err(_) => unreachable!(),
        }
    }

    /// Adds a note that came after so many inputs, or changes nothing for want of memory.
    pub(crate) fn push_note(
        &mut self,
        alloc: Global,
        after: u64,
        number: u64,
        note: &Note,
    ) -> Result<(), OutOfMemory>
        ensures pushed { OnOk result (self.new ≡ record { after = after; number = number; entry = Noted note.now } ∷ self.old) }
        ensures same { OnErr result (self.new ≡ self.old) }
    {
        let place = write_note(alloc, &mut self.line, self.text.len(), after, number, note)?;
        self.places.reserve(1)?;
        self.text.extend_from_slice(&self.line)?;
        match self.places.push(place) {
            Ok(()) => Ok(()),
            Err(_) => unreachable!(),
        }
    }

    /// The lines of all outputs and notes. It takes no memory.
    pub(crate) fn into_text(self) -> Vec<u8>
        ensures { result.items ≡ lines_text self }
    {
        self.text
    }
}

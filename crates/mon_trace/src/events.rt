//! The events of a trace, kept small.
//!
//! The bytes of all pieces stand one after the other in one vector, and an event is kept as the place of its bytes in
//! it. So a piece of one byte costs that byte and its place, and reading copies no byte twice.

ghost use Rattle.std.specs.Prelude.{◌≡◌, ◌+◌, ◌<◌, ◌≤◌, ◌++◌, ◌∷◌, ◌^◌, ℕ, List, [], length, take, drop, option_map, IfOk, OnOk};
ghost use Rattle.std.specs.List.{slice_get};
ghost use Rattle.mon_text.specs.Reads.{Reads};
ghost use Rattle.mon_trace.specs.Grammar.{piece_of};
ghost use Rattle.mon_trace.specs.Reading.{onto, one};
ghost use Rattle.mon_trace.specs.Places.{IsPlain, IsWithin, event_by, events_at};
ghost use Rattle.mon_trace.specs.ToCome.{is_followed, first_other};
ghost use Rattle.mon_text.specs.Hex.{unhex};
ghost use Rattle.mon_trace.specs.Run.{event_at, mark_of};

use crate::hexadecimal::push_bytes;
use mon_list::OutOfMemory;
use mon_text::TextFault;
use mon_world::{Event, Piece, Side};
use std::alloc::{AllocError, Global};
use std::marker::Model;

/// The most bytes of a piece.
const LARGEST_PIECE: usize = 4096;

/// An event, or where the bytes of a piece stand. Small fields come first, so that it takes 24 bytes.
#[derive(Clone, Copy)]
pub(crate) enum Deed {
    Opening,
    Closing {
        session: u64,
    },
    Ticking,
    Answering {
        index: u32,
    },
    Bytes {
        side: Side,
        size: u16,
        start: usize,
        session: u64,
    },
}

/// Where the line of a record begins, how many `lose` records stand before it, and its event.
#[derive(Clone, Copy)]
pub(crate) struct Place {
    pub offset: usize,
    pub losing: u64,
    pub deed: Deed,
}

/// Records that are events, seen as their list.
#[derive(Drop)]
pub(crate) struct Events {
    bytes: Vec<u8>,
    places: Vec<Place>,
}

impl Model for Events {
    ghost use Rattle.std.specs.Prelude.{List, length};
    ghost use Rattle.mon_trace.specs.Grammar.{Recorded};
    ghost use Rattle.mon_trace.specs.Places.{events_at, AllWithin};

    ghost Value = { List Recorded };

    ghost view = { λ e. events_at e.bytes.items e.places.items };

    ghost invariant = { λ e. AllWithin (length e.bytes.items) e.places.items };
}

impl Events {
    /// No events, with room for so many bytes.
    pub(crate) fn new(alloc: Global, room: usize) -> Result<Events, AllocError>
        ensures { IfOk result (λ events. events ≡ []) }
    {
        Ok(Events {
            bytes: Vec::with_capacity(alloc, room)?,
            places: Vec::new(alloc),
        })
    }

    /// How many there are.
    pub(crate) fn len(&self) -> usize
        ensures value { result ≡ length self.now }
        ensures small { result < 2 ^ 63 }
    {
        self.places.len()
    }

    /// Appends an event without bytes.
    pub(crate) fn push(&mut self, offset: usize, losing: u64, deed: Deed) -> Result<(), AllocError>
        requires { IsPlain deed }
        ensures { OnOk result (self.new ≡ self.old ++ record { offset = offset; losing = losing; event = event_by [] deed } ∷ []) }
    {
        self.places.push(Place {
            offset,
            losing,
            deed,
        })?;
        Ok(())
    }

    /// Appends the piece of these digits. After an error the events may only be dropped.
    pub(crate) fn push_piece(
        &mut self,
        offset: usize,
        losing: u64,
        side: Side,
        session: u64,
        digits: &[u8],
    ) -> Result<(), TextFault>
        ensures { Reads (λ _. self.new) result (onto self.old (one offset losing (piece_of side session (unhex digits.now)))) }
    {
        let start = self.bytes.len();
        push_bytes(digits, &mut self.bytes)?;
        let size = self.bytes.len() - start;
        if size == 0 || size > LARGEST_PIECE {
            return Err(TextFault::Bad);
        }
        self.places.push(Place {
            offset,
            losing,
            deed: Deed::Bytes {
                side,
                session,
                start,
                size: size as u16,
            },
        })?;
        Ok(())
    }

    /// The event of that number, counted from 0, and Stop behind the last.
    pub(crate) fn event(&self, alloc: Global, number: usize) -> Result<Event, OutOfMemory>
        ensures { IfOk result (λ event. event ≡ event_at self.now number) }
    {
        match place_at(&self.places, number) {
            None => Ok(Event::Stop),
            Some(place) => event_of(alloc, &self.bytes, place.deed),
        }
    }

    /// Where the record of that number begins, and how many `lose` records stand before it. None behind the last.
    pub(crate) fn mark(&self, number: usize) -> Option<(usize, u64)>
        ensures { result ≡ option_map mark_of (slice_get self.now number) }
    {
        match place_at(&self.places, number) {
            None => None,
            Some(place) => Some((place.offset, place.losing)),
        }
    }

    /// Where the first record begins that is neither an opening nor a piece, or stands behind a `lose` record.
    pub(crate) fn first_other(&self) -> Option<usize>
        ensures { result ≡ first_other self.now }
    {
        first_other(&self.places)
    }
}

/// Whether an event is followed by a replay of today.
fn is_followed(deed: Deed) -> bool
    ensures { (bytes : List ℕ) → result ≡ is_followed (event_by bytes deed) }
{
    match deed {
        Deed::Opening | Deed::Bytes { .. } => true,
        Deed::Closing { .. } | Deed::Ticking | Deed::Answering { .. } => false,
    }
}

/// Where the first record begins that is not followed.
fn first_other(places: &[Place]) -> Option<usize>
    ensures { (bytes : List ℕ) → result ≡ first_other (events_at bytes places.now) }
{
    for place in places {
        if place.losing != 0 || !is_followed(place.deed) {
            return Some(place.offset);
        }
    }
    None
}

fn place_at(places: &[Place], number: usize) -> Option<Place>
    ensures { result ≡ slice_get places.now number }
{
    match places.get(number) {
        None => None,
        Some(place) => Some(*place),
    }
}

fn bytes_at(bytes: &[u8], start: usize, size: u16) -> &[u8]
    requires { start + size ≤ length bytes.now }
    ensures { result.now ≡ take size (drop start bytes.now) }
{
    &bytes[start..start + usize::from(size)]
}

/// The event that a place keeps.
fn event_of(alloc: Global, bytes: &[u8], deed: Deed) -> Result<Event, OutOfMemory>
    requires { IsWithin (length bytes.now) deed }
    ensures { IfOk result (λ event. event ≡ event_by bytes.now deed) }
{
    match deed {
        Deed::Opening => Ok(Event::Opened),
        Deed::Closing { session } => Ok(Event::Closed { session }),
        Deed::Ticking => Ok(Event::Tick),
        Deed::Answering { index } => Ok(Event::Answer { index }),
        Deed::Bytes {
            side,
            size,
            start,
            session,
        } => Ok(Event::Piece {
            session,
            side,
            bytes: Piece::new(alloc, bytes_at(bytes, start, size))?,
        }),
    }
}

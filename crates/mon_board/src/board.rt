//! The board and its seats.

ghost use Rattle.std.specs.Prelude.{◌≡◌, true, []};

use crate::rule::{Blank, Look, Pair, Publish, Rule, Show, View};
use atomic_table::{Seat, Table};
use mon_list::OutOfMemory;
use std::alloc::Global;

/// The last versions of all slots.
#[derive(Drop)]
pub struct Board {
    table: Table<(), View, usize, Rule, Global>,
    ghost sized: { table.shared.key ≡ table.shared.table_id.words },
}

/// The right to publish on one board, which contracts see as what it published, oldest first.
#[derive(Drop)]
pub struct Writer {
    seat: Seat<(), View>,
    ghost empty: { seat.me.1 ≡ [] },
    ghost writes: { seat.me.0.writes ≡ true },
}

/// The right to look at one board, which contracts see as what it saw, oldest first.
#[derive(Drop)]
pub struct Looker {
    seat: Seat<(), View>,
    ghost empty: { seat.me.1 ≡ [] },
}

impl Board {
    ghost use Rattle.std.specs.Prelude.{◌<◌, ◌≤◌, ◌++◌, ◌∷◌, IfOk};
    ghost use Rattle.mon_board.specs.Rule.{view};
    ghost use Rattle.mon_board.specs.Versions.{last, NoneAbove, AllPublished};
    ghost use Rattle.mon_board.specs.Seats.{published_by, seen_by, slots_of, IsWriterOf, IsLookerOf};

    /// A board of so many slots, its writer and a first looker. All versions are 0, which counts as published.
    pub fn new(alloc: Global, slots: u32) -> Result<(Board, Writer, Looker), OutOfMemory>
        requires { 0 < slots }
        ensures slots { IfOk result (λ b. slots_of b.0 ≡ slots) }
        ensures writer { IfOk result (λ b. IsWriterOf b.0 b.1 × (published_by b.1 ≡ [])) }
        ensures looker { IfOk result (λ b. IsLookerOf b.0 b.2 × (seen_by b.2 ≡ [])) }
    {
        let words = Vec::from_elem(alloc, 0u64, slots as usize)?;
        let (table, mut seat) = Table::of_words(alloc, words.as_slice(), &words.len())?;
        let other = table.shared.split_seat::<Pair>(&mut seat);
        Ok((Board { table }, Writer { seat }, Looker { seat: other }))
    }

    /// Publishes a version of a slot, one that is not below the slot's last one. It takes no memory and waits for nobody.
    pub fn publish(&self, seat: &mut Writer, slot: u32, version: u64)
        requires board { IsWriterOf self.now seat.old }
        requires slot { slot < slots_of self.now }
        requires version { last (published_by seat.old) slot ≤ version }
        ensures board { IsWriterOf self.now seat.new }
        ensures published { published_by seat.new ≡ published_by seat.old ++ (slot, version) ∷ [] }
    {
        self.table
            .shared
            .store::<Publish>(&mut seat.seat, slot as usize, version);
    }

    /// A version of the slot that was published, not below any that this looker saw there. It takes no memory and waits for
    /// nobody.
    pub fn look(&self, seat: &mut Looker, slot: u32) -> u64
        requires board { IsLookerOf self.now seat.old }
        requires slot { slot < slots_of self.now }
        ensures board { IsLookerOf self.now seat.new }
        ensures seen { seen_by seat.new ≡ seen_by seat.old ++ (slot, result) ∷ [] }
        ensures later { NoneAbove (seen_by seat.old) slot result }
    {
        self.table
            .shared
            .load::<Look>(&mut seat.seat, slot as usize)
    }

    /// A second looker, which saw as much.
    pub fn split(&self, seat: &mut Looker) -> Looker
        requires board { IsLookerOf self.now seat.old }
        requires some { 0 < slots_of self.now }
        ensures board { IsLookerOf self.now seat.new × IsLookerOf self.now result }
        ensures same { (seen_by seat.new ≡ seen_by seat.old) × (seen_by result ≡ seen_by seat.old) }
    {
        Looker {
            seat: self.table.shared.split_seat::<Pair>(&mut seat.seat),
        }
    }

    /// A looker that saw nothing yet. What it will have seen is what was seen since.
    pub fn blank(&self, seat: &mut Looker) -> Looker
        requires board { IsLookerOf self.now seat.old }
        requires some { 0 < slots_of self.now }
        ensures board { IsLookerOf self.now seat.new × IsLookerOf self.now result }
        ensures same { seen_by seat.new ≡ seen_by seat.old }
        ensures none { seen_by result ≡ [] }
    {
        Looker {
            seat: self.table.shared.split_seat::<Blank>(&mut seat.seat),
        }
    }

    /// Takes into a seat what a looker saw. All else that the seat knows stays.
    fn take_in(&self, seat: &mut Seat<(), View>, other: Looker)
        requires seat { seat.old.table_id ≡ self.now.table.shared.table_id }
        requires other { IsLookerOf self.now other }
        requires some { 0 < slots_of self.now }
        ensures seat { seat.new.table_id ≡ self.now.table.shared.table_id }
        ensures both { seat.new.me.0 ≡ view seat.old.me.0.writes seat.old.me.0.published (seat.old.me.0.seen ++ seen_by other) }
        ensures none { seat.new.me.1 ≡ seat.old.me.1 }
    {
        let Looker { seat: spent } = other;
        self.table.shared.join_seat::<Pair>(seat, spent);
    }

    /// Takes in what another looker saw.
    pub fn join(&self, seat: &mut Looker, other: Looker)
        requires board { IsLookerOf self.now seat.old × IsLookerOf self.now other }
        requires some { 0 < slots_of self.now }
        ensures board { IsLookerOf self.now seat.new }
        ensures both { seen_by seat.new ≡ seen_by seat.old ++ seen_by other }
    {
        self.take_in(&mut seat.seat, other);
    }

    /// Takes a looker in. Each version that it saw was published.
    pub fn gather(&self, seat: &mut Writer, other: Looker)
        requires board { IsWriterOf self.now seat.old × IsLookerOf self.now other }
        requires some { 0 < slots_of self.now }
        ensures board { IsWriterOf self.now seat.new }
        ensures same { published_by seat.new ≡ published_by seat.old }
        ensures published { AllPublished (published_by seat.new) (seen_by other) }
    {
        self.take_in(&mut seat.seat, other);
        self.table.shared.load::<Show>(&mut seat.seat, 0);
    }
}

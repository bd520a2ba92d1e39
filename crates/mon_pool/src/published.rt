//! What was published.

ghost use Rattle.std.specs.Prelude.{◌≡◌, ◌<◌, ◌≤◌, ◌++◌, [], ◌∷◌, ℕ, IfOk, replicate, slice_index_or, slice_set, vec_len};
ghost use Rattle.mon_board.specs.Versions.{last};
ghost use Rattle.mon_board.specs.Seats.{published_by, IsWriterOf, slots_of};
ghost use Rattle.mon_pool.specs.Sides.{AreLast};

use mon_board::{Board, Writer};
use mon_list::OutOfMemory;
use std::alloc::Global;

/// The writer's seat, and the last version of each of the 64 slots. The board has one slot more, where 1 stands once the
/// pool has ended.
#[derive(Drop)]
pub struct Published {
    pub(crate) writer: Writer,
    pub(crate) versions: Vec<u64>,
    ghost count: { vec_len versions ≡ 64 },
    ghost are_last: { AreLast versions.items (published_by writer) },
    ghost ended: { last (published_by writer) 64 ≤ 1 },
}

impl Published {
    /// Nothing was published yet.
    pub(crate) fn new(alloc: Global, writer: Writer) -> Result<Published, OutOfMemory>
        requires { published_by writer ≡ [] }
        ensures writer { IfOk result (λ p. p.writer ≡ writer) }
        ensures versions { IfOk result (λ p. p.versions.items ≡ replicate 64 0) }
    {
        let versions = Vec::from_elem(alloc, 0u64, 64)?;
        Ok(Published { writer, versions })
    }

    /// Publishes a version of a slot.
    pub(crate) fn publish(&mut self, board: &Board, slot: u32, version: u64)
        requires board { IsWriterOf board.now self.old.writer × (slots_of board.now ≡ 65) }
        requires slot { slot < 64 }
        requires later { slice_index_or self.old.versions.items slot 0 ≤ version }
        ensures board { IsWriterOf board.now self.new.writer }
        ensures published { published_by self.new.writer ≡ published_by self.old.writer ++ (slot, version) ∷ [] }
        ensures versions { self.new.versions.items ≡ slice_set self.old.versions.items slot version }
    {
        board.publish(&mut self.writer, slot, version);
        self.versions[slot as usize] = version;
    }

    /// Publishes the end.
    pub(crate) fn end(&mut self, board: &Board)
        requires board { IsWriterOf board.now self.old.writer × (slots_of board.now ≡ 65) }
        ensures board { IsWriterOf board.now self.new.writer }
        ensures published { published_by self.new.writer ≡ published_by self.old.writer ++ (64, 1) ∷ [] }
        ensures versions { self.new.versions ≡ self.old.versions }
    {
        board.publish(&mut self.writer, 64, 1);
    }
}

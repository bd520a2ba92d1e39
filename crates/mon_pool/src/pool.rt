//! The pool.

ghost use Rattle.std.specs.Prelude.{◌≡◌};
ghost use Rattle.crossbeam_queue.specs.Passes.{ruled_capacity};
ghost use Rattle.mon_board.specs.Seats.{slots_of};

use crate::queues::{AnswerQueue, JobQueue};
use crossbeam_utils::sync::Unparker;
use mon_board::Board;
use std::sync::atomic::AtomicU64;

/// A queue of jobs and one of answers, of 1024 places each, and a board with a slot for each of 64 sessions and one where
/// the end is published. It is shared by reference.
#[derive(Drop)]
pub struct Pool {
    pub(crate) board: Board,
    pub(crate) jobs: JobQueue,
    pub(crate) answers: AnswerQueue,
    pub(crate) workers: u32,
    pub(crate) wakers: Vec<Unparker>,
    // The bits of the workers that are about to sleep, or sleep.
    pub(crate) idle: AtomicU64,
    ghost slots: { slots_of board ≡ 65 },
    ghost places: { (ruled_capacity jobs ≡ 1024) × (ruled_capacity answers ≡ 1024) },
}

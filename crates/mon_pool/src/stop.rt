//! Jobs decided, with a look at the board.

ghost use Rattle.std.specs.Prelude.{◌≡◌, ◌++◌, ℕ, None, true};
ghost use Rattle.std.specs.Arc.{arc_value};
ghost use Rattle.mon_board.specs.Seats.{seen_by, IsLookerOf, slots_of};
ghost use Rattle.mon_pool.specs.Marks.{of_jobs, shows};

use crate::answer::Answer;
use mon_board::{Board, Looker};
use mon_job::Job;
use mon_solve::{Stop, decide};
use std::alloc::Global;
use std::snapshot::Snapshot;
use std::sync::Arc;

/// Looks at the board for the slot of a job, and shows the version where it is above the job's.
struct BoardStop<'a> {
    board: &'a Board,
    looker: Looker,
    slot: u32,
    floor: u64,
    shown: Option<u64>,
    ghost of_board: { IsLookerOf board.now looker },
    ghost slots: { slots_of board.now ≡ 65 },
    ghost saw: { shows (seen_by looker) slot shown ≡ true },
    ghost jobs: { of_jobs (seen_by looker) ≡ seen_by looker },
}

impl<'a> Stop for BoardStop<'a> {
    type About = (&'a Board, u32);

    ghost about = { λ s. (s.board, s.slot) };

    ghost floor = { λ s. s.floor };

    ghost shown = { λ s. s.shown };

    ghost asked = { λ _. None };

    fn ask(&mut self) -> Option<u64> {
        self.shown = None;
        if 64 <= self.slot {
            return None;
        }
        let seen = self.board.look(&mut self.looker, self.slot);
        if seen <= self.floor {
            return None;
        }
        self.shown = Some(seen);
        Some(seen)
    }
}

/// Decides a job, and gives it up where the board shows a greater version of its slot.
pub(crate) fn decide_by_board(
    alloc: Global,
    board: &Board,
    looker: &mut Looker,
    job: Arc<Job>,
) -> Answer
    requires { IsLookerOf board.now looker.old × (slots_of board.now ≡ 65) }
    ensures board { IsLookerOf board.now looker.new }
    ensures seen { seen_by looker.new ≡ seen_by looker.old ++ seen_by result.saw.value }
    ensures jobs { of_jobs (seen_by result.saw.value) ≡ seen_by result.saw.value }
    ensures job { result.verdict.job ≡ arc_value job }
{
    let slot = job.slot;
    let floor = job.version;
    let mut stop = BoardStop {
        board,
        looker: board.blank(looker),
        slot,
        floor,
        shown: None,
    };
    let verdict = decide(alloc, job, &mut stop);
    let BoardStop {
        board: _,
        looker: other,
        slot: _,
        floor: _,
        shown: _,
    } = stop;
    let saw = Snapshot::of(&other);
    board.join(looker, other);
    Answer { verdict, saw }
}

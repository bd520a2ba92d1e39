//! What a worker answers.

ghost use Rattle.std.specs.Prelude.{◌≡◌, true};
ghost use Rattle.mon_solve.specs.Answers.{seen_in};
ghost use Rattle.mon_board.specs.Seats.{seen_by};
ghost use Rattle.mon_pool.specs.Marks.{shows};

use mon_board::Looker;
use mon_job::Verdict;
use mon_list::Items;
use std::snapshot::Snapshot;

/// Verdicts, in order.
pub type Verdicts = Items<Verdict>;

/// A verdict on its way to the loop, and what its worker saw of the board while it decided, of which no byte is kept.
#[derive(Drop)]
pub struct Answer {
    pub(crate) verdict: Verdict,
    pub(crate) saw: Snapshot<Looker>,
    ghost shown: { shows (seen_by saw.value) verdict.job.slot (seen_in verdict.says) ≡ true },
}

impl Answer {
    /// The verdict.
    pub(crate) fn into_verdict(self) -> Verdict
        ensures { result ≡ self.verdict }
    {
        let Answer { verdict, saw: _ } = self;
        verdict
    }
}

//! Jobs.

ghost use Rattle.mon_job.specs.Jobs.{Kept};

use mon_shows::{Target, View};
use mon_table::Table;
use std::marker::Model;

/// Which packet shows that the target's update is in the table, through the neighbours of the view?
///
/// `number` tells a job from all others, `session` and `slot` say whose switch it is about, `edit` is the number of the
/// edit whose update it is, or 0 for a watch, and `version` is that of the slot as the job was offered.
///
/// The update is in the table: a rule that was put or is watched stands there, and of the identity of one that was cut
/// none does. An old rule has the identity of the rule that took its place.
#[derive(Drop)]
pub struct Job {
    pub number: u64,
    pub session: u64,
    pub slot: u32,
    pub edit: u64,
    pub version: u64,
    pub view: View,
    pub table: Table,
    pub target: Target,
}

impl Model for Job {
    ghost use Rattle.mon_job.specs.Jobs.{Task, IsJob};

    ghost Value = { Task };

    ghost view = { λ j. record { number = j.number; session = j.session; slot = j.slot; edit = j.edit; version = j.version; view = j.view; table = j.table; target = j.target } };

    ghost invariant = { λ j. IsJob j.table j.target };
}

impl Job {
    /// Does nothing: its clause is what a job and its parts keep.
    pub fn keeps(&self)
        ensures { Kept self.now }
    {
        self.table.keeps();
        self.target.keeps();
        self.view.keeps();
    }
}

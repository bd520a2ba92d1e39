//! Lines of the report, and what a session notes of them.

ghost use Rattle.std.specs.Prelude.{◌≡◌, ◌++◌, ◌∷◌, [], true, OnOk};
ghost use Rattle.mon_world.specs.declared.event.Note.TheVariants.{Report};
ghost use Rattle.mon_legal.specs.Runs.{Run};
ghost use Rattle.mon_legal.specs.Owns.Own.{Reports};
ghost use Rattle.mon_session.specs.declared.step.Step.TheVariants as step;
ghost use Rattle.mon_session.specs.Walks.{takes};
ghost use Rattle.mon_session.specs.Entries.{is_plain};

use crate::session::Session;
use crate::step::{Outs, Step};
use mon_list::OutOfMemory;
use mon_report::Line;
use mon_world::Note;

impl Session {
    /// A line goes out that leaves the edits and the watch as they are, and behind which no own barrier follows.
    #[tactic(auto, using(crate::proofs::Plain::plain_tells))]
    pub(crate) fn tell(&mut self, line: Line, outs: &mut Outs) -> Result<(), OutOfMemory>
        requires plain { is_plain line ≡ true }
        ensures walk { OnOk result ((run : Run) → self.new ≡ takes run self.old (Reports line)) }
        ensures outs { OnOk result (outs.new ≡ outs.old ++ step.Note (Report line) ∷ []) }
    {
        self.forget();
        outs.push(Step::Note(Note::Report(line)))
    }
}

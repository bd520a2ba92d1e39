//! The two queues and their rules.

use crate::answer::Answer;
use crossbeam_queue::protocol::{Join, Lesson, Outcome, Protocol, Split};
use crossbeam_queue::{Pass as QueuePass, RuledArrayQueue};
use mon_job::{Job, Verdict};
use mon_tally::Tally;
use std::alloc::Global;
use std::collections::LinkedList;
use std::sync::Arc;

/// A verdict, and the versions of slots that its worker saw while it decided. No value of it is ever made.
pub type Told = (Verdict, LinkedList<(u32, u64)>);

pub type JobQueue = RuledArrayQueue<Arc<Job, Global>, Tally<Job>, JobRule>;

pub type JobPass = QueuePass<Arc<Job, Global>, Tally<Job>>;

pub type AnswerQueue = RuledArrayQueue<Answer, Tally<Told>, AnswerRule>;

pub type AnswerPass = QueuePass<Answer, Tally<Told>>;

/// The jobs put are those taken and those left, each as often.
pub struct JobRule;

impl Protocol<Arc<Job, Global>, Tally<Job>> for JobRule {
    ghost use Rattle.std.specs.Prelude.{[]};
    ghost use Rattle.mon_tally.specs.Tallies.{Balanced, tally};
    ghost use Rattle.mon_pool.specs.Plain.{arc_job};

    ghost holds = { Balanced arc_job };

    ghost first = { tally 65 [] [] [] };
}

/// The same of answers.
pub struct AnswerRule;

impl Protocol<Answer, Tally<Told>> for AnswerRule {
    ghost use Rattle.std.specs.Prelude.{[]};
    ghost use Rattle.mon_tally.specs.Tallies.{Balanced, tally};
    ghost use Rattle.mon_pool.specs.Plain.{told};

    ghost holds = { Balanced told };

    ghost first = { tally 65 [] [] [] };
}

/// How a pass gives away one part, and takes in another pass.
pub struct Cut;

impl<P> Split<Tally<P>> for Cut {
    ghost use Rattle.std.specs.Prelude.{◌-◌, []};
    ghost use Rattle.mon_tally.specs.Tallies.{tally};

    ghost left = { λ v. tally (v.parts - 1) v.put v.taken v.dropped };

    ghost right = { λ v. tally 1 [] [] [] };
}

impl<P> Join<Tally<P>> for Cut {
    ghost use Rattle.std.specs.Prelude.{◌+◌, ◌++◌, []};
    ghost use Rattle.mon_tally.specs.Tallies.{tally};

    ghost both = { λ v w. tally (v.parts + w.parts) (v.put ++ w.put) (v.taken ++ w.taken) (v.dropped ++ w.dropped) };

    ghost spent = { tally 0 [] [] [] };
}

/// A push.
pub struct Puts;

impl Outcome<Arc<Job, Global>, Tally<Job>> for Puts {
    ghost use Rattle.std.specs.Prelude.{◌≡◌, [], ◌∷◌, ◌++◌};
    ghost use Rattle.mon_tally.specs.Tallies.{tally};
    ghost use Rattle.mon_pool.specs.Plain.{arc_job};

    ghost then = { λ v x w. w ≡ tally v.parts (v.put ++ arc_job x ∷ []) v.taken v.dropped };
}

impl Outcome<Answer, Tally<Told>> for Puts {
    ghost use Rattle.std.specs.Prelude.{◌≡◌, [], ◌∷◌, ◌++◌};
    ghost use Rattle.mon_tally.specs.Tallies.{tally};
    ghost use Rattle.mon_pool.specs.Plain.{told};

    ghost then = { λ v x w. w ≡ tally v.parts (v.put ++ told x ∷ []) v.taken v.dropped };
}

impl Lesson<Arc<Job, Global>, Tally<Job>> for Puts {
    ghost use Rattle.mon_tally.specs.Tallies.{WasSo};
    ghost use Rattle.mon_pool.specs.Plain.{arc_job};

    ghost fact = { WasSo arc_job };
}

/// A pop.
pub struct Takes;

impl Outcome<Arc<Job, Global>, Tally<Job>> for Takes {
    ghost use Rattle.std.specs.Prelude.{◌≡◌, [], ◌∷◌, ◌++◌};
    ghost use Rattle.mon_tally.specs.Tallies.{tally};
    ghost use Rattle.mon_pool.specs.Plain.{arc_job};

    ghost then = { λ v x w. w ≡ tally v.parts v.put (v.taken ++ arc_job x ∷ []) v.dropped };
}

impl Outcome<Answer, Tally<Told>> for Takes {
    ghost use Rattle.std.specs.Prelude.{◌≡◌, [], ◌∷◌, ◌++◌};
    ghost use Rattle.mon_tally.specs.Tallies.{tally};
    ghost use Rattle.mon_pool.specs.Plain.{told};

    ghost then = { λ v x w. w ≡ tally v.parts v.put (v.taken ++ told x ∷ []) v.dropped };
}

impl Lesson<Arc<Job, Global>, Tally<Job>> for Takes {
    ghost use Rattle.std.specs.Prelude.{⊤};

    ghost fact = { λ v items. ⊤ };
}

impl Lesson<Answer, Tally<Told>> for Takes {
    ghost use Rattle.mon_tally.specs.Tallies.{WasSo};
    ghost use Rattle.mon_pool.specs.Plain.{told};

    ghost fact = { WasSo told };
}

/// The last answer that was taken is dropped.
pub struct Drops;

impl Split<Tally<Told>> for Drops {
    ghost use Rattle.std.specs.Prelude.{[]};
    ghost use Rattle.mon_tally.specs.Tallies.{tally, dropping};

    ghost left = { dropping };

    ghost right = { λ v. tally 0 [] [] [] };
}

/// A pop by the pass with all parts, which learns what is left.
pub struct Totals;

impl Outcome<Arc<Job, Global>, Tally<Job>> for Totals {
    ghost use Rattle.std.specs.Prelude.{◌≡◌, [], ◌∷◌, ◌++◌};
    ghost use Rattle.mon_tally.specs.Tallies.{tally};
    ghost use Rattle.mon_pool.specs.Plain.{arc_job};

    ghost then = { λ v x w. w ≡ tally v.parts v.put (v.taken ++ arc_job x ∷ []) v.dropped };
}

impl Lesson<Arc<Job, Global>, Tally<Job>> for Totals {
    ghost use Rattle.mon_tally.specs.Tallies.{Settled};
    ghost use Rattle.mon_pool.specs.Plain.{arc_job};

    ghost fact = { Settled arc_job };
}

impl Outcome<Answer, Tally<Told>> for Totals {
    ghost use Rattle.std.specs.Prelude.{◌≡◌, [], ◌∷◌, ◌++◌};
    ghost use Rattle.mon_tally.specs.Tallies.{tally};
    ghost use Rattle.mon_pool.specs.Plain.{told};

    ghost then = { λ v x w. w ≡ tally v.parts v.put (v.taken ++ told x ∷ []) v.dropped };
}

impl Lesson<Answer, Tally<Told>> for Totals {
    ghost use Rattle.mon_tally.specs.Tallies.{Settled};
    ghost use Rattle.mon_pool.specs.Plain.{told};

    ghost fact = { Settled told };
}

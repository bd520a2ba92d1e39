//! Verdicts.

ghost use Rattle.std.specs.Prelude.{◌≡◌, ℕ, Option, None};
ghost use Rattle.std.specs.Arc.{arc_value};
ghost use Rattle.mon_job.specs.Verdicts.{IsTrueOf};
ghost use Rattle.mon_solve.specs.Answers.{AskedFor, seen_in};

use crate::found::{Found, find_asked};
use crate::stop::Stop;
use mon_encode::cases;
use mon_job::{Job, Says, Verdict};
use std::alloc::Global;
use std::sync::Arc;

/// What is true of the job.
fn answer<S: Stop>(alloc: Global, job: &Job, stop: &mut S) -> Says
    ghost before: { Option ℕ }
    requires before { S.asked stop.old ≡ before }
    requires unshown { S.shown stop.old ≡ None }
    requires floor { S.floor stop.old ≡ job.now.version }
    ensures truth { IsTrueOf job.now result }
    ensures about { S.about stop.new ≡ S.about stop.old }
    ensures shown { S.shown stop.new ≡ seen_in result }
    ensures asked { AskedFor job.now result before (S.asked stop.new) }
{
    let Ok(cases) = cases(alloc, job) else {
        return Says::NoMemory;
    };
    for case in cases.items() {
        if let Some(seen) = stop.ask() {
            return Says::Skipped { seen };
        }
        match find_asked(alloc, job, case, stop) {
            Ok(Found::Probe(h, e)) => return Says::Probe(h, e),
            Ok(Found::Nothing(_)) => {}
            Err(_) => return Says::NoMemory,
        }
    }
    Says::Indistinguishable
}

/// The verdict on the job. The stop is asked before each case is searched, since the search asks that of its caller: so it
/// is asked at least as often as there are cases up to one to which the probe belongs, and as there are cases at all where
/// the answer is Indistinguishable. The job is skipped where the stop's last answer is a version, and only there. Where
/// there is no memory, that is the verdict.
pub fn decide<S: Stop>(alloc: Global, job: Arc<Job>, stop: &mut S) -> Verdict
    requires unshown { S.shown stop.old ≡ None }
    requires floor { S.floor stop.old ≡ (arc_value job).version }
    ensures same_job { result.job ≡ arc_value job }
    ensures about { S.about stop.new ≡ S.about stop.old }
    ensures skipped { S.shown stop.new ≡ seen_in result.says }
    ensures asked { AskedFor result.job result.says (S.asked stop.old) (S.asked stop.new) }
{
    let says = answer(alloc, &job, stop);
    Verdict::new(job, says)
}

//! One case of a job.

ghost use Rattle.std.specs.Prelude.{ℕ, Option, IfOk};
ghost use Rattle.mon_encode.specs.Cases.{IsCaseOf};
ghost use Rattle.mon_solve.specs.Answers.{AskedForCase, IsFound};

use crate::stop::Stop;
use mon_encode::{Case, decode_model, encode};
use mon_header::Header;
use mon_job::Job;
use mon_list::OutOfMemory;
use mon_outcome::Emission;
use mon_plain::{Outcome, solve_plain};
use mon_refute::{Log, accepted_means_none};
use std::alloc::Global;

/// What is found in a case.
#[derive(Drop)]
pub enum Found {
    /// A probe with this header shows the update by this emission.
    Probe(Header, Emission),
    /// It has none, as this refutation of its clauses shows.
    Nothing(Log),
}

/// Searches one case of the job.
pub(crate) fn find(alloc: Global, job: &Job, case: &Case) -> Result<Found, OutOfMemory>
    requires { IsCaseOf job.now case.now }
    ensures { IfOk result (IsFound job.now case.now) }
{
    accepted_means_none();
    let formula = encode(alloc, job, case)?;
    match solve_plain(alloc, &formula)? {
        Outcome::Model(values) => {
            let (h, e) = decode_model(job, case, values.items());
            Ok(Found::Probe(h, e))
        }
        Outcome::Refuted(log) => Ok(Found::Nothing(log)),
    }
}

/// Searches one case of the job, for which the stop was asked: since its count was `before`, as often as there are cases
/// up to this one. Whoever decides a job searches by this call alone.
pub(crate) fn find_asked<S: Stop>(
    alloc: Global,
    job: &Job,
    case: &Case,
    _stop: &S,
) -> Result<Found, OutOfMemory>
    ghost before: { Option ℕ }
    requires { AskedForCase job.now case.now before (S.asked _stop.now) }
    ensures { IfOk result (IsFound job.now case.now) }
{
    find(alloc, job, case)
}

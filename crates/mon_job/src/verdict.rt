//! Verdicts.

ghost use Rattle.std.specs.Prelude.{◌≡◌};
ghost use Rattle.std.specs.Arc.{arc_value};
ghost use Rattle.mon_job.specs.Jobs.{IsJob};
ghost use Rattle.mon_job.specs.Verdicts.{IsTrueOf};

use crate::job::Job;
use mon_header::Header;
use mon_outcome::Emission;
use std::marker::Model;
use std::sync::Arc;

/// What is answered to a job.
#[derive(Clone, Copy, Debug)]
pub enum Says {
    /// A probe with this header shows the update by this emission.
    Probe(Header, Emission),
    /// No probe shows it.
    Indistinguishable,
    /// It was not looked for any further, since this version of the slot was seen, which is above the job's.
    Skipped { seen: u64 },
    /// There was no memory to look for it. It may always be said.
    NoMemory,
}

/// An answer and its job, of which it is true.
#[derive(Drop)]
pub struct Verdict {
    job: Arc<Job>,
    says: Says,
}

impl Model for Verdict {
    ghost use Rattle.std.specs.Arc.{arc_value};
    ghost use Rattle.mon_job.specs.Verdicts.{Ruling, IsTrueOf};

    ghost Value = { Ruling };

    ghost view = { λ v. record { job = arc_value v.job; says = v.says } };

    ghost invariant = { λ v. IsTrueOf (arc_value v.job) v.says };
}

impl Verdict {
    /// The verdict that says this of the job.
    pub fn new(job: Arc<Job>, says: Says) -> Verdict
        requires { IsTrueOf (arc_value job) says }
        ensures { result ≡ record { job = arc_value job; says = says } }
    {
        Verdict { job, says }
    }

    /// The job.
    pub fn job(&self) -> &Job
        ensures value { result.now ≡ self.now.job }
        ensures truth { IsTrueOf result.now self.now.says }
    {
        &self.job
    }

    /// What it says of the job.
    pub fn says(&self) -> &Says
        ensures value { result.now ≡ self.now.says }
        ensures truth { IsTrueOf self.now.job result.now }
    {
        &self.says
    }
}

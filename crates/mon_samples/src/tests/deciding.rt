//! Rules that are watched, decided and certified.

ghost use Rattle.std.specs.Prelude.{◌≡◌, ◌<◌, ◌^◌, ◌+◌, Some, None, IfOk, length};
ghost use Rattle.std.specs.Arc.{arc_value};

use super::watching;
use crate::{ipv4, narrow, two_neighbours, wide};
use mon_header::OutOfMemory;
use mon_job::{Job, Says};
use mon_solve::{Certificate, Never, Stop, accept, certificate, decide};
use mon_table::{Rule, Table};
use std::alloc::Global;
use std::sync::Arc;
use std::test::Fail;

/// The job that watches a rule beside another one, at the version 7.
fn watch(alloc: Global, watched: Rule, other: Rule) -> Result<Job, OutOfMemory>
    ensures { IfOk result (λ job. job.version ≡ 7) }
{
    let mut table = Table::new(alloc);
    let _ = table.put(other)?;
    let _ = table.put(watched.copied(alloc)?)?;
    Ok(watching(two_neighbours(alloc)?, table, watched))
}

/// The job of a rule that has a probe: all IPv4, but for 10.0.0.0/24, is its own.
fn seen(alloc: Global) -> Result<Job, OutOfMemory>
    ensures { IfOk result (λ job. job.version ≡ 7) }
{
    watch(alloc, wide(alloc)?, narrow(alloc)?)
}

/// The job of a rule that has none: without it, the wide rule does the same.
fn unseen(alloc: Global) -> Result<Job, OutOfMemory>
    ensures { IfOk result (λ job. job.version ≡ 7) }
{
    watch(alloc, narrow(alloc)?, wide(alloc)?)
}

/// The job of a rule from 10.0.0.0/8 that overlaps one to 10.0.0.0/8 of its priority.
fn tied(alloc: Global) -> Result<Job, OutOfMemory> {
    let from = ipv4(alloc, 0x003818ef, 0x0a000000, 0, 100)?;
    let to = ipv4(alloc, 0x003620ef, 0, 0x0a000000, 100)?;
    watch(alloc, from, to)
}

/// A stop that tells how often it was asked, and from one ask on gives the next version.
#[derive(Drop)]
struct Counting {
    floor: u64,
    asks: u64,
    first: u64,
    shown: Option<u64>,
}

impl Stop for Counting {
    type About = ();

    ghost about = { λ _. tt };

    ghost floor = { λ s. s.floor };

    ghost shown = { λ s. s.shown };

    ghost asked = { λ s. Some s.asks };

    fn ask(&mut self) -> Option<u64> {
        self.asks = self.asks.saturating_add(1);
        if self.asks < self.first {
            self.shown = None;
            return None;
        }
        self.shown = self.floor.checked_add(1);
        self.shown
    }
}

/// The kind of a certificate.
fn kind_of(certificate: &Certificate) -> &'static str {
    match certificate {
        Certificate::Probe(..) => "probe",
        Certificate::Nothing(_) => "none",
        Certificate::Overlap => "overlap",
    }
}

/// Whether the job's certificate is of this kind, and accepted.
fn certifies(alloc: Global, job: &Job, kind: &str) -> Result<bool, OutOfMemory> {
    let found = certificate(alloc, job)?;
    let accepted = accept(alloc, job, &found)?;
    Ok(accepted && kind_of(&found) == kind)
}

#[test]
fn certificates_of_each_kind(rt: HostRuntime) -> Result<(), Fail> {
    let alloc = rt.alloc();
    assert!(rt; certifies(alloc, &seen(alloc)?, "probe")?);
    assert!(rt; certifies(alloc, &unseen(alloc)?, "none")?);
    assert!(rt; certifies(alloc, &tied(alloc)?, "overlap")?);
    Ok(())
}

#[test]
fn a_certificate_of_another_job_is_refused(rt: HostRuntime) -> Result<(), Fail> {
    let alloc = rt.alloc();
    let other = certificate(alloc, &unseen(alloc)?)?;
    assert!(rt; !accept(alloc, &seen(alloc)?, &other)?);
    Ok(())
}

/// Whether the verdict on the job says this, where the stop gives a version from an ask on and was asked so often.
fn decides(alloc: Global, job: Job, first: u64, says: &str, asks: u64) -> Result<bool, OutOfMemory>
    requires { job.version ≡ 7 }
{
    let mut stop = Counting {
        floor: 7,
        asks: 0,
        first,
        shown: None,
    };
    let verdict = decide(alloc, Arc::new(alloc, job)?, &mut stop);
    let said = match verdict.says() {
        Says::Probe(..) => "probe",
        Says::Indistinguishable => "indistinguishable",
        Says::Skipped { .. } => "skipped",
        Says::NoMemory => "no memory",
    };
    Ok(said == says && stop.asks == asks)
}

#[test]
fn a_stop_is_asked_once_a_case(rt: HostRuntime) -> Result<(), Fail> {
    let alloc = rt.alloc();
    assert!(rt; decides(alloc, seen(alloc)?, 7, "probe", 1)?);
    // Six classes, each at port 1 with one emission: what comes in at port 2 is not sent back there.
    assert!(rt; decides(alloc, unseen(alloc)?, 7, "indistinguishable", 6)?);
    assert!(rt; decides(alloc, unseen(alloc)?, 3, "skipped", 3)?);
    Ok(())
}

#[test]
fn a_job_that_nothing_overtakes_is_decided(rt: HostRuntime) -> Result<(), Fail> {
    let alloc = rt.alloc();
    let job = Arc::new(alloc, seen(alloc)?)?;
    let verdict = decide(alloc, job, &mut Never { floor: 7 });
    assert!(rt; matches!(verdict.says(), Says::Probe(..)));
    Ok(())
}

//! A rule that is watched, and what is true of it.

ghost use Rattle.std.specs.Prelude.{◌≡◌, [], IfOk};
ghost use Rattle.std.specs.Arc.{arc_value};

use super::watching;
use crate::{PACKET, neighbours, sending, with_neighbours};
use mon_header::{Header, Match, OutOfMemory};
use mon_job::{Job, Says, Verdict};
use mon_list::Items;
use mon_outcome::{Emission, same_emission};
use mon_shows::{View, separates};
use mon_table::Table;
use std::alloc::Global;
use std::sync::Arc;
use std::test::Fail;

/// The job of the number 3 that watches a rule for all packets, at the version 7.
fn watch(alloc: Global, view: View) -> Result<Job, OutOfMemory>
    ensures version { IfOk result (λ job. job.version ≡ 7) }
    ensures view { IfOk result (λ job. job.view ≡ view) }
{
    let rule = sending(alloc, Match::normal(0x003fffff, PACKET), 100, &[2])?;
    let mut table = Table::new(alloc);
    let _ = table.put(rule.copied(alloc)?)?;
    Ok(watching(view, table, rule))
}

/// Takes only what threads may share.
fn crosses<T: Send + Sync>(_value: &T) {}

/// The verdict that this header and emission separate, where they do.
fn probe(job: Arc<Job>, h: Header, e: Emission) -> Option<Verdict> {
    let asked: &Job = &job;
    if separates(&asked.view, &asked.table, &asked.target, &h, &e) {
        return Some(Verdict::new(job, Says::Probe(h, e)));
    }
    None
}

/// Nothing separates where no link leads to a neighbour.
fn alone(alloc: Global) -> Result<Verdict, OutOfMemory> {
    let job = watch(alloc, with_neighbours(alloc, Items::new(alloc), 128)?)?;
    let job = Arc::new(alloc, job)?;
    Ok(Verdict::new(job, Says::Indistinguishable))
}

#[test]
fn verdicts_are_true_of_their_jobs(rt: HostRuntime) -> Result<(), Fail> {
    let alloc = rt.alloc();
    let job = Arc::new(
        alloc,
        watch(alloc, with_neighbours(alloc, neighbours(alloc)?, 128)?)?,
    )?;
    let e = Emission::Port(2, PACKET);
    assert!(rt; probe(Arc::try_clone(&job)?, PACKET, Emission::Port(1, PACKET)).is_none());
    let Some(found) = probe(Arc::try_clone(&job)?, PACKET, e) else {
        return Err(Fail::new("no probe"));
    };
    crosses(&found);
    assert!(rt; found.job().number == 3);
    assert!(rt; matches!(found.says(), Says::Probe(_, by) if same_emission(by, &e)));
    let skipped = Verdict::new(Arc::try_clone(&job)?, Says::Skipped { seen: 8 });
    assert!(rt; matches!(skipped.says(), Says::Skipped { seen: 8 }));
    let stopped = Verdict::new(job, Says::NoMemory);
    assert!(rt; stopped.job().version == 7 && matches!(stopped.says(), Says::NoMemory));
    assert!(rt; matches!(alone(alloc)?.says(), Says::Indistinguishable));
    Ok(())
}

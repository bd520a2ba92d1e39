//! What no clause says: that workers take jobs, side by side, that a job that was overtaken is skipped, and that what was
//! left comes back. Each test ends in any schedule: whoever waits here waits for a stated number of turns.

ghost use Rattle.std.specs.Prelude.{◌≡◌, All, IfOk, None, [], replicate};
ghost use Rattle.std.specs.Thread.{IsSync};
ghost use Rattle.mon_pool.specs.Places.{IsSideOf, IsWorkerOf, last_of, versions_of};

use crate::{LoopSide, Pass, Pool, PoolCrew};
use mon_header::{Action, Actions, BLANK, Header, Match};
use mon_job::{Job, Says, Verdict};
use mon_list::{Items, OutOfMemory};
use mon_shows::{Near, Target, View};
use mon_table::{Rule, Table};
use mon_topo::Vids;
use mon_world::{Crew, Gate};
use std::alloc::Global;
use std::sync::Wait;
use std::sync::atomic::{AtomicU64, Ordering};
use std::test::Fail;
use std::thread;
use std::thread::{Threads, join_mut};

/// How many turns a test waits, at most.
const TURNS: u32 = 20_000_000;

/// The switch 1 with the tag 100, and neighbours with the tag 101 at its ports 1 and 2.
fn view(alloc: Global) -> Result<View, OutOfMemory> {
    let mut tags = Vids::new(alloc);
    tags.push(100)?;
    tags.push(101)?;
    let mut links = Items::new(alloc);
    links.push(Near {
        port: 1,
        switch: 2,
        far_port: 1,
        tag: 101,
    })?;
    links.push(Near {
        port: 2,
        switch: 3,
        far_port: 1,
        tag: 101,
    })?;
    Ok(View {
        switch: 1,
        tag: 100,
        tags,
        links,
        miss: 128,
    })
}

/// IPv4 to 10.0.0.0/24.
const TO_24: Header = Header {
    dl_type: 0x0800,
    nw_dst: 0x0a000000,
    ..BLANK
};

/// The rule that sends IPv4 to 10.0.0.0/24 out at port 2.
fn rule(alloc: Global) -> Result<Rule, OutOfMemory> {
    let mut actions = Actions::new(alloc);
    actions.push(Action::Output {
        port: 2,
        max_len: 0,
    })?;
    Ok(Rule {
        matching: Match::normal(0x003220ef, TO_24),
        priority: 100,
        actions,
        unsure: false,
    })
}

/// The job of this number and version: the rule was put into an empty table.
fn job(alloc: Global, number: u64, version: u64) -> Result<Job, OutOfMemory>
    ensures { IfOk result (λ job. (job.number ≡ number) × (job.slot ≡ 0)) }
{
    let rule = rule(alloc)?;
    let mut table = Table::new(alloc);
    let _ = table.put(rule.copied(alloc)?)?;
    Ok(Job {
        number,
        session: 0,
        slot: 0,
        edit: 1,
        version,
        view: view(alloc)?,
        table,
        target: Target::Put { rule, old: None },
    })
}

/// Holds one job until it is opened, and lets all others pass.
#[derive(Drop)]
struct Held {
    job: u64,
    opened: AtomicU64,
}

impl Held {
    fn new(job: u64) -> Held {
        Held {
            job,
            opened: AtomicU64::new(0),
        }
    }

    fn open(&self) {
        self.opened.store(1, Ordering::SeqCst);
    }
}

impl Gate for Held {
    fn pass(&self, job: u64) {
        if job != self.job {
            return;
        }
        for _ in 0..TURNS {
            if self.opened.load(Ordering::SeqCst) == 1 {
                return;
            }
            thread::yield_now();
        }
    }
}

/// What came of a job: its number, the version for which it was skipped, or 0, and whether a probe shows its rule.
#[derive(Clone, Copy, Debug, PartialEq, Eq)]
struct Came {
    job: u64,
    skipped: u64,
    probe: bool,
}

/// What came of the job of a verdict.
fn what_came(verdict: &Verdict) -> Came {
    let skipped = match verdict.says() {
        Says::Skipped { seen } => *seen,
        Says::Probe(..) | Says::Indistinguishable | Says::NoMemory => 0,
    };
    Came {
        job: verdict.job().number,
        skipped,
        probe: matches!(verdict.says(), Says::Probe(..)),
    }
}

/// The next verdict, where one comes in time.
fn next<R: Wait>(rt: &R, alloc: Global, pool: &Pool, side: &mut LoopSide) -> Option<Came>
    requires { IsSideOf pool.now side.old }
    ensures side { IsSideOf pool.now side.new }
    ensures last { last_of side.new ≡ last_of side.old }
{
    for _ in 0..TURNS {
        if let Some(verdict) = pool.take(rt, alloc, side) {
            return Some(what_came(&verdict));
        }
        thread::yield_now();
    }
    None
}

/// Offers the jobs 1 and 2, opens the gate once a verdict came, and answers both.
fn offer_two<R: Wait>(
    rt: &R,
    alloc: Global,
    pool: &Pool,
    side: &mut LoopSide,
    gate: &Held,
) -> Option<(Came, Came)>
    requires { IsSideOf pool.now side.old × (last_of side.old ≡ 0) }
    ensures { IsSideOf pool.now side.new }
{
    let one = job(alloc, 1, 0).ok()?;
    pool.offer(rt, alloc, side, one).ok()?;
    let two = job(alloc, 2, 0).ok()?;
    pool.offer(rt, alloc, side, two).ok()?;
    let first = next(rt, alloc, pool, side)?;
    gate.open();
    let second = next(rt, alloc, pool, side)?;
    Some((first, second))
}

/// Publishes the version 4 of slot 0, offers a job of it, publishes 5, opens the gate, and answers what came.
fn overtake<R: Wait>(
    rt: &R,
    alloc: Global,
    pool: &Pool,
    side: &mut LoopSide,
    gate: &Held,
) -> Option<Came>
    requires side { IsSideOf pool.now side.old }
    requires fresh { (last_of side.old ≡ 0) × (versions_of side.old ≡ replicate 64 0) }
    ensures { IsSideOf pool.now side.new }
{
    let one = job(alloc, 1, 4).ok()?;
    pool.publish(side, 0, 4);
    pool.offer(rt, alloc, side, one).ok()?;
    pool.publish(side, 0, 5);
    gate.open();
    next(rt, alloc, pool, side)
}

/// Offers two jobs beside the workers, the first of which the gate holds until a verdict came, and answers what came, in
/// order.
fn two_beside<R: Threads + Wait + Sync>(
    rt: &R,
    alloc: Global,
    pool: &Pool,
    side: &mut LoopSide,
    passes: &mut [Pass],
    gate: &Held,
) -> Option<(Came, Came)>
    requires { IsSideOf pool.now side.old × (last_of side.old ≡ 0) × All (IsWorkerOf pool.now) passes.old }
{
    let ((), came) = join_mut(
        rt,
        &mut ||
            requires { IsSync R.row × All (IsWorkerOf pool.now) passes.now }
        { pool.work_all(rt, alloc, passes, gate) },
        &mut || {
            let came = offer_two(rt, alloc, pool, side, gate);
            pool.end(rt, side);
            came
        },
    );
    came
}

/// Overtakes a job beside the workers.
fn overtake_beside<R: Threads + Wait + Sync>(
    rt: &R,
    alloc: Global,
    pool: &Pool,
    side: &mut LoopSide,
    passes: &mut [Pass],
    gate: &Held,
) -> Option<Came>
    requires { IsSideOf pool.now side.old × (last_of side.old ≡ 0) × (versions_of side.old ≡ replicate 64 0) × All (IsWorkerOf pool.now) passes.old }
{
    let ((), came) = join_mut(
        rt,
        &mut ||
            requires { IsSync R.row × All (IsWorkerOf pool.now) passes.now }
        { pool.work_all(rt, alloc, passes, gate) },
        &mut || {
            let came = overtake(rt, alloc, pool, side, gate);
            pool.end(rt, side);
            came
        },
    );
    came
}

#[test]
fn a_job_that_is_held_keeps_no_other_back(rt: HostRuntime) -> Result<(), Fail> {
    let alloc = rt.alloc();
    let (pool, mut side, mut passes) = Pool::new(alloc, 2)?;
    let gate = Held::new(1);
    let came = two_beside(&rt, alloc, &pool, &mut side, passes.as_mut_slice(), &gate);
    let two = Came {
        job: 2,
        skipped: 0,
        probe: true,
    };
    let one = Came { job: 1, ..two };
    assert_eq!(rt; came, Some((two, one)));
    Ok(())
}

#[test]
fn a_job_that_was_overtaken_is_skipped(rt: HostRuntime) -> Result<(), Fail> {
    let alloc = rt.alloc();
    let (pool, mut side, mut passes) = Pool::new(alloc, 1)?;
    let gate = Held::new(1);
    let came = overtake_beside(&rt, alloc, &pool, &mut side, passes.as_mut_slice(), &gate);
    let one = Came {
        job: 1,
        skipped: 5,
        probe: false,
    };
    assert_eq!(rt; came, Some(one));
    Ok(())
}

#[test]
fn what_no_worker_took_comes_back(rt: HostRuntime) -> Result<(), Fail> {
    let alloc = rt.alloc();
    let (pool, mut side, passes) = Pool::new(alloc, 3)?;
    pool.offer(&rt, alloc, &mut side, job(alloc, 1, 0)?)?;
    pool.offer(&rt, alloc, &mut side, job(alloc, 2, 0)?)?;
    pool.end(&rt, &mut side);
    let (verdicts, jobs) = pool.close(&rt, side, passes);
    assert_eq!(rt; verdicts.items().len(), 0);
    let mut numbers = Vec::new(alloc);
    for job in &jobs {
        numbers.push(job.number)?;
    }
    let offered: [u64; 2] = [1, 2];
    assert_eq!(rt; numbers.as_slice(), offered.as_slice());
    Ok(())
}

/// Offers a job to a crew, and answers whether it was released, and whether a verdict was there.
fn ask_crew<C: Crew>(alloc: Global, crew: &mut C) -> Result<(bool, bool), OutOfMemory>
    requires { (C.last crew.old ≡ 0) × (C.unanswered crew.old ≡ []) × (C.released crew.old ≡ None) }
{
    crew.offer(alloc, job(alloc, 1, 0)?)?;
    let released = crew.release(0);
    let came = crew.take(alloc).is_some();
    Ok((released, came))
}

#[test]
fn a_crew_over_a_pool_releases_nothing(rt: HostRuntime) -> Result<(), Fail> {
    let alloc = rt.alloc();
    let (pool, side, _passes) = Pool::new(alloc, 1)?;
    let mut crew = PoolCrew::new(&rt, &pool, side);
    let (released, came) = ask_crew(alloc, &mut crew)?;
    assert!(rt; !released && !came);
    let _ = crew.end();
    Ok(())
}

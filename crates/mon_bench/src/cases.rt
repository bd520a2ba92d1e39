//! How large the clauses of a table's rules are.

ghost use Rattle.mon_encode.specs.Cases.{IsCaseOf};

use mon_encode::{Case, cases, encode};
use mon_job::Job;
use mon_list::OutOfMemory;
use mon_plan::{generate, job_at};
use mon_shows::View;
use mon_solve::certificate;
use mon_table::Table;
use std::alloc::Global;
use std::rt::Runtime;
use std::time::Instant;

/// How many cases there are, and how many variables and clauses their formulas have.
#[derive(Clone, Copy)]
struct Size {
    cases: u64,
    variables: u64,
    clauses: u64,
}

impl Size {
    /// Both together.
    fn with(self, other: Size) -> Size {
        Size {
            cases: self.cases.saturating_add(other.cases),
            variables: self.variables.saturating_add(other.variables),
            clauses: self.clauses.saturating_add(other.clauses),
        }
    }
}

/// No case.
const NOTHING: Size = Size {
    cases: 0,
    variables: 0,
    clauses: 0,
};

/// The size of the formula of one case.
fn of_case(alloc: Global, job: &Job, case: &Case) -> Result<Size, OutOfMemory>
    requires { IsCaseOf job.now case.now }
{
    let formula = encode(alloc, job, case)?;
    Ok(Size {
        cases: 1,
        variables: u64::from(formula.vars()),
        clauses: formula.clauses().len() as u64,
    })
}

/// The size of the formulas of a job's cases.
fn of_job(alloc: Global, job: &Job) -> Result<Size, OutOfMemory> {
    let mut size = NOTHING;
    for case in cases(alloc, job)?.items() {
        size = size.with(of_case(alloc, job, case)?);
    }
    Ok(size)
}

/// The size of the formulas of all rules of a table.
fn of_table(alloc: Global, view: &View, table: &Table) -> Result<Size, OutOfMemory> {
    let mut size = NOTHING;
    for place in 0..table.len() {
        let job = job_at(alloc, view, table, place)?;
        size = size.with(of_job(alloc, &job)?);
    }
    Ok(size)
}

/// Makes the certificates of all rules of a table.
fn certify(alloc: Global, view: &View, table: &Table) -> Result<(), OutOfMemory> {
    for place in 0..table.len() {
        let job = job_at(alloc, view, table, place)?;
        let _ = certificate(alloc, &job)?;
    }
    Ok(())
}

/// Makes the clauses of each case of each rule of a generated table of N ADDs, and prints how many rules and cases there
/// are, how many variables and clauses, and the milliseconds that it took; and then those of all certificates.
pub fn measure<R: Runtime + AllocGlobal>(rt: &R, n: u32, seed: u32) -> anyhow::Result<()> {
    let alloc = rt.alloc();
    let (view, table) = generate(alloc, n, seed)?;
    let begun = Instant::now(rt)?;
    let size = of_table(alloc, &view, &table)?;
    let encoded = begun.elapsed(rt)?.as_millis();
    let begun = Instant::now(rt)?;
    certify(alloc, &view, &table)?;
    let certified = begun.elapsed(rt)?.as_millis();
    println!(rt;
        "rules {} cases {} variables {} clauses {} encoded {encoded} ms certified {certified} ms",
        table.len(),
        size.cases,
        size.variables,
        size.clauses
    )?;
    Ok(())
}

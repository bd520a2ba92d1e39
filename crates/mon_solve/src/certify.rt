//! Certificates, made and checked.

ghost use Rattle.std.specs.Prelude.{◌≡◌, IfOk, true, false};
ghost use Rattle.std.specs.Bool.{OnTrue};
ghost use Rattle.mon_job.specs.Jobs.{updated};
ghost use Rattle.mon_encode.specs.Cases.{cases_of, IsCaseOf};
ghost use Rattle.mon_solve.specs.Answers.{HasNone};
ghost use Rattle.mon_solve.specs.Accepting.{is_refuted, are_refuted, is_accepted, is_tied, NothingSeparates, CertificateIsTrue, IsItsKind};

use crate::found::{Found, find};
use mon_certificate::Certificate;
use mon_encode::{Case, cases, encode};
use mon_job::Job;
use mon_list::OutOfMemory;
use mon_refute::{Log, Logs, accepts};
use mon_shows::{Target, separates};
use mon_table::Rule;
use std::alloc::Global;

/// The rule that was put or cut, or is watched.
fn updated(target: &Target) -> &Rule
    ensures { result.now ≡ updated target.now }
{
    match target {
        Target::Put { rule, .. } | Target::Cut { rule } | Target::Watch { rule } => rule,
    }
}

/// Whether the rule of the job's target is tied in the job's table.
fn is_tied(j: &Job) -> bool
    ensures { result ≡ is_tied j.now }
{
    j.table.tied(updated(&j.target))
}

/// A probe that separates, or refutations of all cases, for a rule that isn't tied.
fn search(alloc: Global, j: &Job) -> Result<Certificate, OutOfMemory>
    requires { is_tied j.now ≡ false }
    ensures accepted { IfOk result (λ c. is_accepted j.now c ≡ true) }
    ensures truth { IfOk result (CertificateIsTrue j.now) }
    ensures kind { IfOk result (IsItsKind j.now) }
{
    let cases = cases(alloc, j)?;
    let mut logs = Logs::new(alloc);
    for case in cases.items() {
        match find(alloc, j, case)? {
            Found::Probe(h, e) => return Ok(Certificate::Probe(h, e)),
            Found::Nothing(log) => logs.push(log)?,
        }
    }
    Ok(Certificate::Nothing(logs))
}

/// A certificate of the job: that its rule is tied, exactly where it is, else a probe, or refutations where there is
/// none.
pub fn certificate(alloc: Global, j: &Job) -> Result<Certificate, OutOfMemory>
    ensures accepted { IfOk result (λ c. is_accepted j.now c ≡ true) }
    ensures truth { IfOk result (CertificateIsTrue j.now) }
    ensures kind { IfOk result (IsItsKind j.now) }
{
    if is_tied(j) {
        return Ok(Certificate::Overlap);
    }
    search(alloc, j)
}

/// Whether the log refutes the clauses of the case. Then the case has no probe.
fn refutes(alloc: Global, j: &Job, case: &Case, log: &Log) -> Result<bool, OutOfMemory>
    requires { IsCaseOf j.now case.now }
    ensures value { IfOk result (λ b. b ≡ is_refuted j.now case.now log.now) }
    ensures truth { IfOk result (λ b. OnTrue b (HasNone j.now case.now)) }
{
    let formula = encode(alloc, j, case)?;
    let mut marks = vec![in alloc; 0; formula.vars() as usize]?;
    Ok(accepts(&formula, log, &mut marks))
}

/// Whether there are as many logs as cases, and each refutes its case. Then nothing shows the update.
fn are_refuted(alloc: Global, j: &Job, logs: &[Log]) -> Result<bool, OutOfMemory>
    ensures value { IfOk result (λ b. b ≡ are_refuted j.now (cases_of j.now) logs.now) }
    ensures truth { IfOk result (λ b. OnTrue b (NothingSeparates j.now)) }
{
    let cases = cases(alloc, j)?;
    let cases = cases.items();
    if cases.len() != logs.len() {
        return Ok(false);
    }
    for (place, case) in cases.iter().enumerate() {
        if !refutes(alloc, j, case, &logs[place])? {
            return Ok(false);
        }
    }
    Ok(true)
}

/// Whether the certificate of the job is accepted. What is accepted is true of the job.
pub fn accept(alloc: Global, j: &Job, c: &Certificate) -> Result<bool, OutOfMemory>
    ensures exact { IfOk result (λ b. b ≡ is_accepted j.now c.now) }
    ensures truth { IfOk result (λ b. OnTrue b (CertificateIsTrue j.now c.now)) }
{
    match c {
        Certificate::Probe(h, e) => Ok(separates(&j.view, &j.table, &j.target, h, e)),
        Certificate::Nothing(logs) => are_refuted(alloc, j, logs.items()),
        Certificate::Overlap => Ok(is_tied(j)),
    }
}

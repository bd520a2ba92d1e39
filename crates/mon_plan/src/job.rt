//! The job of a rule.

ghost use Rattle.std.specs.Prelude.{◌≡◌, ◌<◌, length, slice_get, Some, IfOk};
ghost use Rattle.std.specs.Bool.{OnTrue};
ghost use Rattle.mon_list.specs.Has.{Has};
ghost use Rattle.mon_table.specs.declared.rule.Rule.{Rule};
ghost use Rattle.mon_table.specs.Tables.{IsTable};
ghost use Rattle.mon_certificate_file.specs.CertificateFile.{IsCertificateInRange};
ghost use Rattle.mon_solve.specs.Accepting.{is_accepted, CertificateIsTrue};
ghost use Rattle.mon_plan.specs.Planning.{watch_of, job_of, IsCertificate};

use mon_certificate::Certificate;
use mon_job::Job;
use mon_list::OutOfMemory;
use mon_shows::{Target, View};
use mon_solve::{accept, certificate};
use mon_table::{Rule, Table};
use std::alloc::Global;

/// The job that watches a rule of the table, over the rules that overlap its match.
fn job(alloc: Global, v: &View, t: &Table, rule: &Rule) -> Result<Job, OutOfMemory>
    requires { Has t.now rule.now }
    ensures { IfOk result (λ j. j ≡ job_of v.now t.now rule.now) }
{
    let view = v.copied(alloc)?;
    let table = t.slice(alloc, &rule.matching)?;
    let rule = rule.copied(alloc)?;
    Ok(Job {
        number: 0,
        session: 0,
        slot: 0,
        edit: 0,
        version: 0,
        view,
        table,
        target: Target::Watch { rule },
    })
}

/// The job of the rule at a place of the table, counted from 0: it watches the rule, over the rules that overlap its
/// match.
pub fn job_at(alloc: Global, v: &View, t: &Table, place: u32) -> Result<Job, OutOfMemory>
    requires { place < length t.now }
    ensures { IfOk result (λ j. (r : Rule) × (slice_get t.now place ≡ Some r) × (j ≡ job_of v.now t.now r)) }
{
    job(alloc, v, t, t.rule(place))
}

/// The certificate of a rule of the table.
pub(crate) fn certificate_of(
    alloc: Global,
    v: &View,
    t: &Table,
    rule: &Rule,
) -> Result<Certificate, OutOfMemory>
    requires table { IsTable t.now }
    requires there { Has t.now rule.now }
    ensures certificate { IfOk result (IsCertificate v.now t.now rule.now) }
    ensures range { IfOk result IsCertificateInRange }
{
    rule.keeps();
    let job = job(alloc, v, t, rule)?;
    certificate(alloc, &job)
}

/// Whether the certificate of a rule of the table is accepted. Then it is true of the rule in the whole table.
pub(crate) fn accepts(
    alloc: Global,
    v: &View,
    t: &Table,
    rule: &Rule,
    c: &Certificate,
) -> Result<bool, OutOfMemory>
    requires table { IsTable t.now }
    requires there { Has t.now rule.now }
    ensures value { IfOk result (λ b. b ≡ is_accepted (job_of v.now t.now rule.now) c.now) }
    ensures truth { IfOk result (λ b. OnTrue b (CertificateIsTrue (watch_of v.now t.now rule.now) c.now)) }
{
    let job = job(alloc, v, t, rule)?;
    accept(alloc, &job, c)
}

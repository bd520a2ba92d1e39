//! Whole tables planned.

ghost use Rattle.std.specs.Prelude.{◌≡◌, ◌<◌, ◌^◌, ◌∷◌, [], ℕ, List, length, option_map, MatchOption, IfOk};
ghost use Rattle.std.specs.List.{AllByRecursion};
ghost use Rattle.mon_table.specs.declared.rule.Rule.{Rule};
ghost use Rattle.mon_shows.specs.Views.{Viewing};
ghost use Rattle.mon_certificate_file.specs.CertificateFile.{IsCertificateInRange};
ghost use Rattle.mon_plan.specs.Planning.{Each, AreCertificates};
ghost use Rattle.mon_plan.specs.Sharing.{IsPlanned, IsShare, AreShares, AreFound, next_of};

use crate::job::certificate_of;
use mon_certificate::{Certificate, Certificates};
use mon_list::{Items, OutOfMemory};
use mon_shows::View;
use mon_table::Table;
use std::alloc::Global;
use std::collections::VecDeque;
use std::marker::Model;
use std::thread::{Threads, map_indices};

/// The certificates that one worker found and that nobody took yet.
#[derive(Drop)]
struct Share {
    rest: VecDeque<Certificate>,
}

impl Model for Share {
    ghost use Rattle.std.specs.Prelude.{List};
    ghost use Rattle.mon_certificate.specs.declared.certificate.Certificate.{Certificate};

    ghost Value = { List Certificate };

    ghost view = { λ s. s.rest.items };
}

impl Share {
    /// All of them.
    fn of(certificates: Certificates) -> Share
        ensures { result ≡ certificates }
    {
        Share {
            rest: VecDeque::from(certificates.into_items()),
        }
    }

    /// Takes the next one.
    fn next(&mut self) -> Option<Certificate>
        ensures { MatchOption result (self.old ≡ []) (λ c. self.old ≡ c ∷ self.new) }
    {
        self.rest.pop_front()
    }
}

/// The certificates of every `step`-th rule of the table, the first behind `first` others.
fn plan_share(
    alloc: Global,
    v: &View,
    t: &Table,
    first: usize,
    step: usize,
) -> Result<Certificates, OutOfMemory>
    requires { 0 < step }
    ensures { IfOk result (IsShare v.now t.now step first t.now) }
{
    let mut certificates = Items::new(alloc);
    let mut others = first;
    for place in 0..t.len() {
        if others > 0 {
            others -= 1;
            continue;
        }
        certificates.push(certificate_of(alloc, v, t, t.rule(place))?)?;
        others = step - 1;
    }
    Ok(certificates)
}

/// The shares of all workers, unless memory ran out in one.
fn all_found(
    alloc: Global,
    found: Vec<Result<Certificates, OutOfMemory>>,
) -> Result<VecDeque<Share>, OutOfMemory>
    ensures shares { (v : Viewing) (t : List Rule) (step : ℕ) → AreFound v t step 0 t found.items → IfOk result (λ shares. AreShares v t step 0 t shares.items) }
    ensures count { IfOk result (λ shares. length shares.items ≡ length found.items) }
{
    let mut shares = VecDeque::new(alloc);
    for found in found {
        shares.push_back(Share::of(found?))?;
    }
    Ok(shares)
}

/// Takes the next certificate of the first share, which then stands behind all others; none where that has none.
fn take_next(shares: &mut VecDeque<Share>) -> Result<Option<Certificate>, OutOfMemory>
    ensures { IfOk result (λ found. next_of shares.old.items ≡ option_map (λ c. (c, shares.new.items)) found) }
{
    let Some(mut share) = shares.pop_front() else {
        return Ok(None);
    };
    let Some(certificate) = share.next() else {
        return Ok(None);
    };
    shares.push_back(share)?;
    Ok(Some(certificate))
}

/// The certificates of all shares in table order: each share in turn gives its next one.
fn in_order(
    alloc: Global,
    mut shares: VecDeque<Share>,
    count: u32,
) -> Result<Certificates, OutOfMemory>
    ensures { (v : Viewing) (t : List Rule) → count ≡ length t → 0 < length shares.items → AreShares v t (length shares.items) 0 t shares.items → IfOk result (Each (IsPlanned v t) t) }
{
    let mut certificates = Items::new(alloc);
    for place in 0..count {
        let Some(certificate) = take_next(&mut shares)? else {
            return Ok(certificates);
        };
        certificates.push(certificate)?;
    }
    Ok(certificates)
}

/// The certificates of a table, by so many threads.
fn planned<R: Threads + Sync>(
    rt: &R,
    alloc: Global,
    v: &View,
    t: &Table,
    workers: usize,
) -> Result<Certificates, OutOfMemory>
    requires { 0 < workers }
    ensures { IfOk result (Each (IsPlanned v.now t.now) t.now) }
{
    let shares = map_indices(
        rt,
        alloc,
        workers,
        &|worker: usize| -> Result<Certificates, OutOfMemory>
            requires { (0 < workers) × (worker < workers) }
            ensures { IfOk result (IsShare v.entry.now t.entry.now workers worker t.entry.now) }
        { plan_share(alloc, v, t, worker, workers) },
    )?;
    in_order(alloc, all_found(alloc, shares)?, t.len())
}

/// One certificate for each rule, in table order: `Overlap` exactly where the rule is tied; else a probe that separates,
/// or refutations where no header and emission do. Headers in them are within range, so what `write_certificates` writes
/// of them is read back.
///
/// As many threads do the work as there are workers, but no more than rules: each takes every so many rules, so that all
/// have about as much to do. Where a thread can't be started its work is done by another.
#[tactic(auto, using(crate::proofs::Sharing::all_are, crate::proofs::Sharing::all_few, crate::proofs::Sharing::all_range))]
pub fn plan_table<R: Threads + Sync>(
    rt: &R,
    alloc: Global,
    v: &View,
    t: &Table,
    workers: u32,
) -> Result<Certificates, OutOfMemory>
    ensures certificates { IfOk result (λ cs. AreCertificates v.now t.now cs) }
    ensures few { IfOk result (λ cs. length cs < 2 ^ 32) }
    ensures range { IfOk result (AllByRecursion IsCertificateInRange) }
{
    let threads = workers.min(t.len()).max(1);
    planned(rt, alloc, v, t, threads as usize)
}

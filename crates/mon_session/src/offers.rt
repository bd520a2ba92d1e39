//! Jobs: for which edits they are offered, and what they ask.

ghost use Rattle.std.specs.Prelude.{◌≡◌, ◌≢◌, ◌+◌, ◌^◌, ◌++◌, ◌∷◌, [], length, map, option_copied, is_some, true, Err, OnOk, IfOk};
ghost use Rattle.mon_report.specs.declared.line.Cause.{Cause};
ghost use Rattle.mon_shows.specs.Views.{Viewing};
ghost use Rattle.mon_table.specs.Tables.{slice};
ghost use Rattle.mon_job.specs.Jobs.{IsJob};
ghost use Rattle.mon_legal.specs.Runs.{Run};
ghost use Rattle.mon_legal.specs.Messages.{put_all};
ghost use Rattle.mon_legal.specs.Targets.{target_of, table_for};
ghost use Rattle.mon_session.specs.declared.step.SessionEnd.TheVariants as ends;
ghost use Rattle.mon_session.specs.Probing.{wanted};
ghost use Rattle.mon_session.specs.Offering.{expected_in, job_of, next_job, with_offer, and_later, edit_at, jobs_for, last_after, offer_of, EditsAreThere, UsedUp};
ghost use Rattle.mon_session.specs.Walks.{walks};

use crate::around::Around;
use crate::in_flight::InFlight;
use crate::numbers::Numbers;
use crate::session::Session;
use crate::step::{Jobs, SessionEnd};
use mon_header::{Match, overlaps};
use mon_job::Job;
use mon_list::OutOfMemory;
use mon_shows::{Target, View};
use mon_table::{Edit, Rule, Table};
use std::alloc::Global;

/// The rules that overlap a match, of the entries and the catching rules together.
#[tactic(auto, using(crate::proofs::Slices::slice_put))]
fn slice_of(
    alloc: Global,
    entries: &Table,
    catching: &Table,
    m: &Match,
) -> Result<Table, OutOfMemory>
    ensures { IfOk result (λ part. part ≡ slice m.now (put_all catching.now entries.now)) }
{
    entries.keeps();
    catching.keeps();
    let mut part = entries.slice(alloc, m)?;
    put_overlapping(alloc, &mut part, catching, m)?;
    Ok(part)
}

/// Puts those rules of another table into a table that overlap a match.
fn put_overlapping(
    alloc: Global,
    part: &mut Table,
    others: &Table,
    m: &Match,
) -> Result<(), OutOfMemory>
    ensures { OnOk result (part.new ≡ put_all (slice m.now others.now) part.old) }
{
    for place in 0..others.len() {
        put_if(alloc, part, others.rule(place), m)?;
    }
    Ok(())
}

/// Puts a rule into a table where it overlaps a match.
fn put_if(alloc: Global, part: &mut Table, rule: &Rule, m: &Match) -> Result<(), OutOfMemory>
    ensures { OnOk result (part.new ≡ put_all (slice m.now (rule.now ∷ [])) part.old) }
{
    if overlaps(m, &rule.matching) {
        part.put(rule.copied(alloc)?)?;
    }
    Ok(())
}

/// The same rule once more, where there is one.
fn copied(alloc: Global, rule: Option<&Rule>) -> Result<Option<Rule>, OutOfMemory>
    ensures { IfOk result (λ copy. copy ≡ option_copied rule.entry) }
{
    match rule {
        None => Ok(None),
        Some(rule) => Ok(Some(rule.copied(alloc)?)),
    }
}

/// What a probe of an edit is to show.
fn target_of(alloc: Global, edit: &Edit) -> Result<Target, OutOfMemory>
    ensures { (v : Viewing) → IfOk result (λ target. target ≡ target_of v edit.now) }
{
    match edit {
        Edit::Put { rule, old } => Ok(Target::Put {
            rule: rule.copied(alloc)?,
            old: copied(alloc, old.as_ref())?,
        }),
        Edit::Cut { rule } => Ok(Target::Cut {
            rule: rule.copied(alloc)?,
        }),
    }
}

impl Session {
    /// The oldest edit that wants a job, where the session is armed.
    fn wanted(&self) -> Option<u64>
        ensures { result ≡ wanted self.now.now }
    {
        if !self.armed {
            return None;
        }
        self.tracks.wanting()
    }

    /// The oldest edit that wants a job.
    fn wanting(&self) -> Option<&InFlight>
        ensures { option_copied result ≡ edit_at self.now.now.unsettled (wanted self.now.now) }
    {
        match self.wanted() {
            None => None,
            Some(edit) => self.unsettled.get(edit),
        }
    }

    /// The job of an edit, as the session is seen and stands now.
    fn job_of(
        &self,
        alloc: Global,
        view: &View,
        number: u64,
        passed: &InFlight,
    ) -> Result<Job, OutOfMemory>
        requires there { IsJob (table_for (expected_in self.now.now) (target_of view.now passed.now.edit)) (target_of view.now passed.now.edit) }
        ensures { IfOk result (λ job. job ≡ job_of view.now self.now number passed.now) }
    {
        let target = target_of(alloc, &passed.edit)?;
        let table = slice_of(
            alloc,
            &self.table,
            &self.catching,
            &passed.edit.rule().matching,
        )?;
        let view = view.copied(alloc)?;
        Ok(Job {
            number,
            session: self.number,
            slot: self.slot,
            edit: passed.number,
            version: self.version,
            view,
            table,
            target,
        })
    }

    /// The next job is offered, where an edit wants one.
    #[tactic(auto, using(crate::proofs::Offering::none_seen, crate::proofs::Offering::none_wanted, crate::proofs::Offering::none_numbered, crate::proofs::Offering::one_wanted, crate::proofs::Offering::there_at))]
    fn offer(
        &mut self,
        alloc: Global,
        around: &Around,
        numbers: &mut Numbers,
        jobs: &mut Jobs,
    ) -> Result<bool, SessionEnd>
        requires there { EditsAreThere self.old.now }
        ensures done { IfOk result (λ done. done ≡ is_some (next_job (option_copied around.now.view) self.old (numbers.old.job + 1))) }
        ensures walk { OnOk result (self.new ≡ with_offer (next_job (option_copied around.now.view) self.old (numbers.old.job + 1)) self.old) }
        ensures offers { OnOk result (jobs.new ≡ jobs.old ++ and_later (next_job (option_copied around.now.view) self.old (numbers.old.job + 1)) []) }
        ensures numbers { OnOk result (numbers.new ≡ last_after (next_job (option_copied around.now.view) self.old (numbers.old.job + 1)) numbers.old) }
        ensures going { (c : Cause) → result ≢ Err (ends.Ended c) }
        ensures used { result ≡ Err ends.NumbersUsed → (numbers.old.job + 1 ≡ 2 ^ 64) × (true ≡ is_some (next_job (option_copied around.now.view) self.old (numbers.old.job + 1))) × (jobs.new ≡ jobs.old) × (numbers.new ≡ numbers.old) }
    {
        let Some(view) = around.view else {
            return Ok(false);
        };
        let Some(passed) = self.wanting() else {
            return Ok(false);
        };
        let edit = passed.number;
        if edit == 0 {
            return Ok(false);
        }
        let Some(number) = numbers.job.checked_add(1) else {
            return Err(SessionEnd::NumbersUsed);
        };
        let job = self.job_of(alloc, view, number, passed)?;
        jobs.push(job)?;
        numbers.job = number;
        self.forget();
        self.tracks.offer(edit);
        Ok(true)
    }

    /// Jobs are offered for the oldest edits that want one, as many as there is room for, each of the next number and the
    /// slot's version.
    pub fn offers(
        &mut self,
        alloc: Global,
        room: u32,
        around: &Around,
        numbers: &mut Numbers,
        jobs: &mut Jobs,
    ) -> Result<(), SessionEnd>
        requires there { EditsAreThere self.old.now }
        ensures walk { OnOk result ((run : Run) → self.new ≡ walks run self.old (map offer_of (jobs_for (option_copied around.now.view) room self.old numbers.old.job))) }
        ensures offers { OnOk result (jobs.new ≡ jobs.old ++ jobs_for (option_copied around.now.view) room self.old numbers.old.job) }
        ensures numbers { OnOk result (numbers.new ≡ record numbers.old { job = numbers.old.job + length (jobs_for (option_copied around.now.view) room self.old numbers.old.job) }) }
        ensures going { (c : Cause) → result ≢ Err (ends.Ended c) }
        ensures used { result ≡ Err ends.NumbersUsed → UsedUp (jobs_for (option_copied around.now.view) room self.old numbers.old.job) numbers.old numbers.new jobs.old jobs.new }
    {
        for _ in 0..room {
            if !self.offer(alloc, around, numbers, jobs)? {
                return Ok(());
            }
        }
        Ok(())
    }
}

//! The cases of a job.

ghost use Rattle.std.specs.Prelude.{◌≡◌, ◌++◌, true, Some, IfOk, OnOk};
ghost use Rattle.mon_header.specs.declared.header.Header.{Header};
ghost use Rattle.mon_outcome.specs.declared.emission.Emission.{Emission};
ghost use Rattle.mon_shows.specs.Separation.{separates};
ghost use Rattle.mon_encode.specs.declared.case.Case.{Case};
ghost use Rattle.mon_encode.specs.Cases.{of_rule, of_miss, of_any, by_winner, by_port, cases_of, IsCaseOf, BelongsTo};

use crate::case::{Case, Cases};
use mon_header::CLASSES;
use mon_job::Job;
use mon_list::OutOfMemory;
use mon_outcome::{Class, rewrites};
use mon_shows::{Nears, Target};
use mon_table::{Rule, Table};
use std::alloc::Global;

/// Appends the cases in which the rule wins, which stands at this place.
fn push_rule(
    alloc: Global,
    cases: &mut Cases,
    class: Class,
    in_port: u16,
    place: u32,
    rule: &Rule,
) -> Result<(), OutOfMemory>
    ensures { OnOk result (cases.new ≡ cases.old ++ of_rule class in_port place rule.now) }
{
    let shapes = rewrites(alloc, &rule.actions, class, in_port)?;
    let count = shapes.items().len();
    // A position is a `u32`: more emissions have none. Memory ends long before.
    if count > u32::MAX as usize {
        return Err(OutOfMemory);
    }
    for emission in 0..count as u32 {
        cases.push(Case {
            class,
            in_port,
            winner: Some(place),
            emission,
        })?;
    }
    Ok(())
}

/// Appends the cases in which any sure rule wins, or none matches.
fn push_any(
    alloc: Global,
    cases: &mut Cases,
    class: Class,
    in_port: u16,
    t: &Table,
) -> Result<(), OutOfMemory>
    ensures { OnOk result (cases.new ≡ cases.old ++ of_any class in_port 0 t.now) }
{
    for place in 0..t.len() {
        let rule = t.rule(place);
        // An unsure rule never wins alone.
        if !rule.unsure {
            push_rule(alloc, cases, class, in_port, place, rule)?;
        }
    }
    cases.push(Case {
        class,
        in_port,
        winner: None,
        emission: 0,
    })
}

/// Appends the cases of a class and a port.
fn push_winners(
    alloc: Global,
    cases: &mut Cases,
    class: Class,
    in_port: u16,
    t: &Table,
    x: &Target,
) -> Result<(), OutOfMemory>
    ensures { OnOk result (cases.new ≡ cases.old ++ by_winner t.now x.now class in_port) }
{
    match x {
        Target::Put { rule, .. } | Target::Watch { rule } => {
            let place = t.place_of(&rule.matching, rule.priority);
            push_rule(alloc, cases, class, in_port, place, rule)
        }
        Target::Cut { .. } => push_any(alloc, cases, class, in_port, t),
    }
}

/// Appends the cases of a class.
fn push_ports(
    alloc: Global,
    cases: &mut Cases,
    class: Class,
    links: &Nears,
    t: &Table,
    x: &Target,
) -> Result<(), OutOfMemory>
    ensures { OnOk result (cases.new ≡ cases.old ++ by_port t.now x.now class links.now) }
{
    for near in links.items() {
        push_winners(alloc, cases, class, near.port, t, x)?;
    }
    Ok(())
}

/// The cases, in order.
#[tactic(auto, unfolding(crate::specs::Cases::cases_of))]
fn listed(alloc: Global, j: &Job) -> Result<Cases, OutOfMemory>
    ensures { IfOk result (λ cases. cases ≡ cases_of j.now) }
{
    let mut cases = Cases::new(alloc);
    for class in CLASSES {
        push_ports(alloc, &mut cases, class, &j.view.links, &j.table, &j.target)?;
    }
    Ok(cases)
}

/// The cases of a job, by class, then by rising port of the view's links, then by the place of the winner, with the miss
/// last, then by the position of the emission. Where a rule was put or is watched, it alone can win. Each header and
/// emission that separate belong to one of them.
pub fn cases(alloc: Global, j: &Job) -> Result<Cases, OutOfMemory>
    ensures value { IfOk result (λ cases. cases ≡ cases_of j.now) }
    ensures complete { (h : Header) (e : Emission) → separates j.now.view j.now.table j.now.target h e ≡ true
        → (c : Case) × IsCaseOf j.now c × BelongsTo j.now c h e }
{
    j.keeps();
    listed(alloc, j)
}

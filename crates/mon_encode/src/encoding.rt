//! Cases as formulas.

ghost use Rattle.std.specs.Prelude.{◌≡◌, ℕ, ◌+◌, ◌*◌, ◌^◌, ◌≤◌, Bool, true, length, IfOk, OnOk};
ghost use Rattle.mon_cnf.specs.Truth.{formula_true};
ghost use Rattle.mon_header.specs.declared.header.Header.{Header};
ghost use Rattle.mon_outcome.specs.declared.emission.Emission.{Emission};
ghost use Rattle.mon_shows.specs.Separation.{separates};
ghost use Rattle.mon_literals.specs.Bearing.{Bears};
ghost use Rattle.mon_header.specs.Places.{header_size};
ghost use Rattle.mon_literals.specs.Clauses.{appended};
ghost use Rattle.mon_encode.specs.Clauses.{sures};
ghost use Rattle.mon_encode.specs.Cases.{IsCaseOf, BelongsTo, HasWinner, shape_of, present};
ghost use Rattle.mon_encode.specs.Formulas.{clauses_in, clauses_of, formula_of, decoded};

use crate::case::Case;
use crate::chain::{FIRST_HELPER, push_chain};
use crate::hidden::{push_hidden, push_not_missed};
use crate::showing::{can_show, shape_of};
use crate::winning::push_winning;
use mon_cnf::{Clause, Formula, OutOfMemory};
use mon_job::Job;
use mon_literals::push_class;
use mon_outcome::Shape;
use mon_shows::{Altered, View, with_update, without_update};
use std::alloc::Global;

/// The number of sure rules.
fn sure_rules(u: &Altered) -> u64
    ensures value { result ≡ length (sures u.now) }
    ensures few { result ≤ 2 ^ 32 }
{
    let mut sure = 0;
    for place in 0..u.len() {
        if !u.rule(place).is_unsure() {
            sure += 1;
        }
    }
    sure
}

/// How many variables the formulas of a job have. More rules than leave them a `u32` find no memory long before.
pub(crate) fn vars_of(u: &Altered) -> Result<u32, OutOfMemory>
    ensures { IfOk result (λ vars. vars ≡ header_size + 2 * length (sures u.now)) }
{
    let vars = u64::from(FIRST_HELPER) + 2 * sure_rules(u);
    if vars > u64::from(u32::MAX) {
        return Err(OutOfMemory);
    }
    Ok(vars as u32)
}

/// Appends the clauses of a case.
fn push_clauses(
    alloc: Global,
    f: &mut Formula,
    view: &View,
    t: &Altered,
    u: &Altered,
    c: &Case,
    shape: Option<Shape>,
) -> Result<(), OutOfMemory>
    requires vars { f.old.vars ≡ header_size + 2 * length (sures u.now) }
    requires within { HasWinner t.now c.now.winner }
    requires shape { shape ≡ shape_of t.now c.now }
    ensures { OnOk result (f.new ≡ appended f.old (clauses_in view.now t.now u.now c.now)) }
{
    push_class(alloc, f, view, c.class, c.in_port)?;
    push_winning(alloc, f, t, c.winner)?;
    push_chain(alloc, f, u)?;
    push_hidden(alloc, f, u, c.class, c.in_port, shape)?;
    push_not_missed(alloc, f, u, shape)
}

/// The formula of a case.
#[tactic(auto, unfolding(crate::specs::Formulas::clauses_of))]
fn formula(alloc: Global, j: &Job, c: &Case) -> Result<Formula, OutOfMemory>
    requires { HasWinner (present j.now) c.now.winner }
    ensures { IfOk result (λ f. f ≡ formula_of j.now c.now) }
{
    let t = with_update(&j.table, &j.target);
    let u = without_update(&j.table, &j.target);
    let mut f = Formula::new(alloc, vars_of(&u)?);
    let shape = shape_of(alloc, &t, c)?;
    if !can_show(&j.view, &t, c, shape) {
        f.push(Clause::new(alloc))?;
        return Ok(f);
    }
    push_clauses(alloc, &mut f, &j.view, &t, &u, c, shape)?;
    Ok(f)
}

/// The formula of a case, over the bits of a header and two helper variables for each sure rule of the table without
/// the update. An assignment that satisfies it decodes to a header and an emission that separate and belong to the case; and
/// where a header and an emission do, an assignment that bears the header satisfies it. A case whose emission can never
/// show anything has the empty clause alone.
pub fn encode(alloc: Global, j: &Job, c: &Case) -> Result<Formula, OutOfMemory>
    requires { IsCaseOf j.now c.now }
    ensures value { IfOk result (λ f. f ≡ formula_of j.now c.now) }
    ensures sound { (v : ℕ → Bool) → formula_true v (formula_of j.now c.now).clauses ≡ true
        → (separates j.now.view j.now.table j.now.target (decoded j.now c.now v).0 (decoded j.now c.now v).1 ≡ true)
        × BelongsTo j.now c.now (decoded j.now c.now v).0 (decoded j.now c.now v).1 }
    ensures complete { (h : Header) (e : Emission) → separates j.now.view j.now.table j.now.target h e ≡ true
        → BelongsTo j.now c.now h e → (v : ℕ → Bool) × (formula_true v (formula_of j.now c.now).clauses ≡ true) × Bears v h }
{
    j.keeps();
    c.keeps();
    formula(alloc, j, c)
}

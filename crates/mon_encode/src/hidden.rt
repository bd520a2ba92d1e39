//! What the table without the update cannot show.

ghost use Rattle.std.specs.Prelude.{◌≡◌, ◌≤◌, ◌+◌, ◌*◌, ◌++◌, ◌∷◌, [], length, nat_lt, if◌then◌else◌, IfOk, OnOk};
ghost use Rattle.mon_cnf.specs.Truth.{Within};
ghost use Rattle.mon_header.specs.Places.{header_size};
ghost use Rattle.mon_literals.specs.Clauses.{appended};
ghost use Rattle.mon_encode.specs.Clauses.{listed, same_door, apart, or_apart, or_all_apart, or_hidden, unmatched, sures, above, hidden, matched, not_missed};

use crate::chain::FIRST_HELPER;
use crate::clauses::{joined, true_at, unmatched};
use mon_cnf::{Clause, Formula, Lit, OutOfMemory};
use mon_literals::differ;
use mon_outcome::{Class, Door, Shape, any_unknown, rewrites};
use mon_shows::{Altered, Entry};
use std::alloc::Global;

/// Whether both doors lead to one port, or to the controller.
fn same_door(one: Door, other: Door) -> bool
    ensures { result ≡ same_door one other }
{
    match (one, other) {
        (Door::Port(p), Door::Port(q)) => p == q,
        (Door::Controller { .. }, Door::Controller { .. }) => true,
        _ => false,
    }
}

/// The clause that says that what leaves by a rule's shape differs from the case's emission, or `None` where it always
/// does.
fn apart(alloc: Global, shape: Option<Shape>, other: &Shape) -> Result<Option<Clause>, OutOfMemory>
    ensures { IfOk result (λ d. d ≡ apart shape other.now) }
{
    match shape {
        Some(shape) if same_door(other.door, shape.door) => {
            differ(alloc, &other.bits, &shape.bits)
        }
        _ => Ok(None),
    }
}

/// One of these literals is true, or what leaves by each of the shapes differs.
fn push_all_apart(
    alloc: Global,
    f: &mut Formula,
    base: &[Lit],
    shape: Option<Shape>,
    shapes: &[Shape],
) -> Result<(), OutOfMemory>
    requires vars { header_size ≤ f.old.vars }
    requires within { Within f.old.vars base.now }
    ensures pushed { OnOk result (f.new ≡ appended f.old (or_all_apart base.now shape shapes.now)) }
    ensures vars { f.new.vars ≡ f.old.vars }
{
    for other in shapes {
        if let Some(difference) = apart(alloc, shape, other)? {
            f.push(joined(alloc, base, difference.items())?)?;
        }
    }
    Ok(())
}

/// One of these literals is true, or the rule cannot show the emission.
fn push_or_hidden(
    alloc: Global,
    f: &mut Formula,
    base: Clause,
    class: Class,
    in_port: u16,
    shape: Option<Shape>,
    rule: &Entry,
) -> Result<(), OutOfMemory>
    requires vars { header_size ≤ f.old.vars }
    requires within { Within f.old.vars base }
    ensures pushed { OnOk result (f.new ≡ appended f.old (or_hidden base class in_port shape rule.now)) }
    ensures vars { f.new.vars ≡ f.old.vars }
{
    if any_unknown(rule.actions().items()) {
        return f.push(base);
    }
    let shapes = rewrites(alloc, rule.actions(), class, in_port)?;
    push_all_apart(alloc, f, base.items(), shape, shapes.items())
}

/// The clause that says that the rule does not match, or one of a higher effective priority does.
fn beneath(alloc: Global, rule: &Entry, above: Option<Lit>) -> Result<Clause, OutOfMemory>
    ensures { IfOk result (λ clause. clause ≡ unmatched rule.now ++ listed above) }
{
    let mut clause = unmatched(alloc, rule)?;
    if let Some(literal) = above {
        clause.push(literal)?;
    }
    Ok(clause)
}

/// What says that a rule of a higher effective priority matches: the second helper of the rule before where that has a
/// higher one itself, and else what said so of it.
fn higher(own: u32, before: u32, last: Option<Lit>, above: Option<Lit>) -> Option<Lit>
    ensures { result ≡ (if nat_lt own before then last else above) }
{
    if own < before { last } else { above }
}

/// None of the rules wins and can show the emission.
pub(crate) fn push_hidden(
    alloc: Global,
    f: &mut Formula,
    u: &Altered,
    class: Class,
    in_port: u16,
    shape: Option<Shape>,
) -> Result<(), OutOfMemory>
    requires { f.old.vars ≡ header_size + 2 * length (sures u.now) }
    ensures pushed { OnOk result (f.new ≡ appended f.old (hidden header_size class in_port shape (sures u.now) u.now)) }
    ensures vars { f.new.vars ≡ f.old.vars }
{
    f.keeps();
    u.keeps();
    let mut before = 0;
    let mut above = None;
    let mut last = None;
    let mut var = FIRST_HELPER;
    for place in 0..u.len() {
        let rule = u.rule(place);
        let own = rule.rank();
        let hider = higher(own, before, last, above);
        let base = beneath(alloc, &rule, hider)?;
        push_or_hidden(alloc, f, base, class, in_port, shape, &rule)?;
        if rule.is_unsure() {
            continue;
        }
        above = hider;
        before = own;
        last = Some(true_at(var + 1));
        var += 2;
    }
    Ok(())
}

/// The clause that says that some sure rule matches: the second helper of the last one does, where there is one.
fn matched(alloc: Global, u: &Altered, vars: u32) -> Result<Clause, OutOfMemory>
    requires { vars ≡ header_size + 2 * length (sures u.now) }
    ensures value { IfOk result (λ clause. clause ≡ matched header_size [] (sures u.now)) }
    ensures within { IfOk result (Within vars) }
{
    let mut clause = Clause::new(alloc);
    if vars <= FIRST_HELPER {
        return Ok(clause);
    }
    clause.push(true_at(vars - 1))?;
    Ok(clause)
}

/// The emission is no miss of a header that no sure rule matches.
pub(crate) fn push_not_missed(
    alloc: Global,
    f: &mut Formula,
    u: &Altered,
    shape: Option<Shape>,
) -> Result<(), OutOfMemory>
    requires { f.old.vars ≡ header_size + 2 * length (sures u.now) }
    ensures pushed { OnOk result (f.new ≡ appended f.old (not_missed header_size shape (sures u.now))) }
    ensures vars { f.new.vars ≡ f.old.vars }
{
    let vars = f.vars();
    match shape {
        Some(_) => Ok(()),
        None => f.push(matched(alloc, u, vars)?),
    }
}

//! Models of a case's formula, and headers.

ghost use Rattle.std.specs.Prelude.{◌≡◌, ◌≢◌, ◌<◌, ◌+◌, ◌*◌, ◌^◌, ◌++◌, true, false, length, IfOk, OnOk};
ghost use Rattle.mon_cnf.specs.Truth.{values_of, formula_true};
ghost use Rattle.mon_header.specs.Classes.{is_in_class};
ghost use Rattle.mon_header.specs.Places.{header_bits};
ghost use Rattle.mon_outcome.specs.declared.emission.Emission.{Emission};
ghost use Rattle.mon_shows.specs.Separation.{separates};
ghost use Rattle.mon_literals.specs.Bearing.{Bears};
ghost use Rattle.mon_encode.specs.Cases.{IsCaseOf, BelongsTo, HasWinner, shape_of, given};
ghost use Rattle.mon_encode.specs.Formulas.{formula_of, decoded, encoded, helpers};
ghost use Rattle.mon_encode.specs.Clauses.{sures};

use crate::case::Case;
use mon_cnf::{Bits, OutOfMemory};
use mon_header::{HEADER_BITS, Header, bit, matches};
use mon_job::Job;
use mon_literals::borne;
use mon_outcome::{Emission, emission_at};
use mon_shows::{Altered, with_update, without_update};
use std::alloc::Global;

/// What a header of the case gives.
fn emission_of(t: &Altered, c: &Case, h: &Header) -> Emission
    requires within { HasWinner t.now c.now.winner }
    requires class { is_in_class c.now.class h.now ≡ true }
    requires in_port { h.now.in_port ≡ c.now.in_port }
    requires tag { h.now.dl_vlan ≢ 0xffff }
    ensures { result ≡ (given (shape_of t.now c.now) h.now).0 }
{
    match c.winner {
        Some(place) => match emission_at(t.rule(u64::from(place)).actions(), h, c.emission) {
            Some(emission) => emission,
            None => Emission::Miss(*h),
        },
        None => Emission::Miss(*h),
    }
}

/// The header and the emission that a model of the case's formula stands for. They separate, and belong to the case. It
/// takes no memory.
pub fn decode_model(j: &Job, c: &Case, values: &[bool]) -> (Header, Emission)
    requires of { IsCaseOf j.now c.now }
    requires whole { length values.now ≡ (formula_of j.now c.now).vars }
    requires model { formula_true (values_of values.now) (formula_of j.now c.now).clauses ≡ true }
    ensures value { result ≡ decoded j.now c.now (values_of values.now) }
    ensures separates { separates j.now.view j.now.table j.now.target result.0 result.1 ≡ true }
    ensures belongs { BelongsTo j.now c.now result.0 result.1 }
{
    j.keeps();
    c.keeps();
    let header = borne(values);
    let emission = emission_of(&with_update(&j.table, &j.target), c, &header);
    (header, emission)
}

/// The bits of a header.
fn bits_of(alloc: Global, h: &Header) -> Result<Bits, OutOfMemory>
    ensures { IfOk result (λ bits. bits ≡ header_bits h.now) }
{
    let mut bits = Bits::new(alloc);
    for place in 0..HEADER_BITS {
        bits.push(bit(h, place))?;
    }
    Ok(bits)
}

/// Appends the helpers of the sure rules.
fn push_helpers(values: &mut Bits, u: &Altered, h: &Header) -> Result<(), OutOfMemory>
    ensures { OnOk result (values.new ≡ values.old ++ helpers h.now false (sures u.now)) }
{
    let mut seen = false;
    for place in 0..u.len() {
        let rule = u.rule(place);
        if rule.is_unsure() {
            continue;
        }
        let found = matches(rule.matching(), h);
        seen = seen || found;
        values.push(found)?;
        values.push(seen)?;
    }
    Ok(())
}

/// The values.
#[tactic(auto, unfolding(crate::specs::Formulas::encoded))]
fn values(alloc: Global, j: &Job, h: &Header) -> Result<Bits, OutOfMemory>
    ensures { IfOk result (λ values. values ≡ encoded j.now h.now) }
{
    let u = without_update(&j.table, &j.target);
    let mut values = bits_of(alloc, h)?;
    push_helpers(&mut values, &u, h)?;
    Ok(values)
}

/// A model of the case's formula that bears a header which separates and belongs to the case: the header's bits, and for
/// each sure rule of the table without the update whether it matches, and whether it or one before it does.
pub fn encode_header(alloc: Global, j: &Job, c: &Case, h: &Header) -> Result<Bits, OutOfMemory>
    requires of { IsCaseOf j.now c.now }
    requires shows { (e : Emission) × (separates j.now.view j.now.table j.now.target h.now e ≡ true) × BelongsTo j.now c.now h.now e }
    ensures value { IfOk result (λ values. values ≡ encoded j.now h.now) }
    ensures whole { IfOk result (λ values. length values ≡ (formula_of j.now c.now).vars) }
    ensures model { IfOk result (λ values. formula_true (values_of values) (formula_of j.now c.now).clauses ≡ true) }
    ensures bears { IfOk result (λ values. Bears (values_of values) h.now) }
{
    j.keeps();
    c.keeps();
    values(alloc, j, h)
}

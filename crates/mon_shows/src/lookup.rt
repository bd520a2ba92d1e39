//! What a table must show of a header, and what it may.

ghost use Rattle.std.specs.Prelude.{◌≡◌, ◌≤◌, length, drop};
ghost use Rattle.mon_shows.specs.Separation.{is_miss, must_show, may_show};
ghost use Rattle.mon_shows.specs.Scanning.{any_at, must_show_in, any_may_at, may_show_in};

use crate::altered::Altered;
use mon_header::{Header, matches};
use mon_outcome::{Emission, may, must, same_emission};

/// Whether the emission is the header's miss.
fn is_miss(h: &Header, e: &Emission) -> bool
    ensures { result ≡ is_miss h.now e.now }
{
    same_emission(e, &Emission::Miss(*h))
}

/// Whether a rule of this effective priority or a higher one, at this place or behind it, matches the header. Lower ones
/// are not looked at.
fn any_at(u: &Altered, start: u64, h: &Header, rank: u32) -> bool
    requires { start ≤ length u.now }
    ensures { result ≡ any_at h.now rank (drop start u.now) }
{
    u.keeps();
    for place in start..u.len() {
        let rule = u.rule(place);
        let own = rule.rank();
        if own < rank {
            return false;
        }
        if rank <= own && matches(rule.matching(), h) {
            return true;
        }
    }
    false
}

/// Whether the first rule that matches is sure and must emit this, and none behind it has its effective priority; or
/// none matches, and this is the miss.
fn must_show_in(u: &Altered, h: &Header, e: &Emission) -> bool
    ensures { result ≡ must_show_in u.now h.now e.now }
{
    for place in 0..u.len() {
        let rule = u.rule(place);
        if matches(rule.matching(), h) {
            return !rule.is_unsure()
                && !any_at(u, place + 1, h, rule.rank())
                && must(rule.actions(), h, e);
        }
    }
    is_miss(h, e)
}

/// Whether the table must show this, whichever unsure rules are gone: it has exactly one winner for the header, which
/// must emit it, and the packet cannot miss; or none, and this is the miss.
pub(crate) fn must_show(u: &Altered, h: &Header, e: &Emission) -> bool
    ensures { result ≡ must_show u.now h.now e.now }
{
    u.keeps();
    must_show_in(u, h, e)
}

/// Whether a rule of this effective priority or a higher one, at this place or behind it, matches the header and may emit
/// this. Lower ones are not looked at.
fn any_may_at(u: &Altered, start: u64, h: &Header, rank: u32, e: &Emission) -> bool
    requires { start ≤ length u.now }
    ensures { result ≡ any_may_at h.now rank e.now (drop start u.now) }
{
    u.keeps();
    for place in start..u.len() {
        let rule = u.rule(place);
        let own = rule.rank();
        if own < rank {
            return false;
        }
        if rank <= own && matches(rule.matching(), h) && may(rule.actions(), h, e) {
            return true;
        }
    }
    false
}

/// Whether a rule up to the first sure one that matches may emit this, or one behind that of its effective priority; or
/// no sure one matches, and this is the miss.
fn may_show_in(u: &Altered, h: &Header, e: &Emission) -> bool
    ensures { result ≡ may_show_in u.now h.now e.now }
{
    for place in 0..u.len() {
        let rule = u.rule(place);
        if matches(rule.matching(), h) {
            if may(rule.actions(), h, e) {
                return true;
            }
            if !rule.is_unsure() {
                return any_may_at(u, place + 1, h, rule.rank(), e);
            }
        }
    }
    is_miss(h, e)
}

/// Whether the table may show this: one of the winners for the header may emit it, or the packet may miss, and this is
/// the miss.
pub(crate) fn may_show(u: &Altered, h: &Header, e: &Emission) -> bool
    ensures { result ≡ may_show u.now h.now e.now }
{
    u.keeps();
    may_show_in(u, h, e)
}

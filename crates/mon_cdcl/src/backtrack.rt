//! The way back along the trail.

ghost use Rattle.std.specs.Prelude.{◌≡◌, ◌≤◌, true, length, IfOk, MatchOption, None};
ghost use Rattle.mon_trail.specs.Trail.{is_forced, Stands};
ghost use Rattle.mon_cdcl.specs.Back.{IsTarget, FellBack};

use crate::decide::Order;
use crate::seen::Seen;
use crate::watch::opposite;
use mon_cnf::{Formula, Lit};
use mon_list::OutOfMemory;
use mon_refute::LogLine;
use mon_trail::{Entry, Trail};

/// The place of an entry, if it is a decision.
fn decision_at(entry: Entry, place: usize) -> Option<usize>
    ensures { MatchOption result (is_forced entry ≡ true) (λ at. (at ≡ place) × (entry.reason ≡ None)) }
{
    match entry.reason {
        None => Some(place),
        Some(_) => None,
    }
}

/// How far the trail can be taken back, from an entry that stood behind it, before what is seen is touched: to before the
/// first decision behind that. There is none where the entry was forced, and no decision lies between.
pub fn target(entries: &[Entry], seen: &Seen, entry: Entry) -> Option<usize>
    ensures { MatchOption result (is_forced entry ≡ true) (IsTarget seen.now.flags.items entries.now entry) }
{
    let mut found = decision_at(entry, entries.len());
    let mut at = entries.len();
    while at > 0 {
        let here = entries[at - 1];
        if seen.has(here.literal.var) {
            break;
        }
        at -= 1;
        match here.reason {
            None => {
                found = Some(at);
                continue;
            }
            Some(_) => {}
        }
    }
    found
}

/// The last of the entries that is seen, as a false literal.
pub fn last_seen(entries: &[Entry], seen: &Seen) -> Option<Lit> {
    for entry in entries.iter().rev() {
        if seen.has(entry.literal.var) {
            return Some(opposite(entry.literal));
        }
    }
    None
}

/// Takes the trail back to a length.
pub fn fall_back(
    f: &Formula,
    log: &[LogLine],
    trail: &mut Trail,
    order: &mut Order,
    len: usize,
) -> Result<(), OutOfMemory>
    requires stands { Stands f.now log.now trail.old.entries.items trail.old.marks.items }
    requires within { len ≤ length trail.old.entries.items }
    ensures { IfOk result (λ _. FellBack f.now log.now trail.old.entries.items trail.old.marks.items trail.new.entries.items trail.new.marks.items len) }
{
    while trail.entries.len() > len {
        match trail.pop() {
            None => unreachable!(),
            Some(entry) => order.free(entry.literal)?,
        }
    }
    Ok(())
}

/// Where the first decision stands, or the end where there is none.
pub fn first_decision(entries: &[Entry]) -> usize
    ensures { result ≤ length entries.now }
{
    match entries.iter().position(|entry| entry.reason.is_none()) {
        None => entries.len(),
        Some(place) => place,
    }
}

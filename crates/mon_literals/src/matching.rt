//! Matches as literals.

ghost use Rattle.std.specs.Prelude.{◌≡◌, ◌≤◌, IfOk};
ghost use Rattle.mon_literals.specs.Patterns.{compared, compared_above, runs_of, pattern_of};

use crate::run::{Run, push_run};
use mon_cnf::{Clause, OutOfMemory};
use mon_header::Match;
use std::alloc::Global;

fn compared(wild: bool, start: u16, count: u16, number: u64) -> Run
    ensures { result ≡ compared wild start count number }
{
    Run {
        start,
        count: if wild { 0 } else { count },
        number,
    }
}

fn compared_above(ignored: u8, start: u16, address: u32) -> Run
    requires { ignored ≤ 32 }
    ensures { result ≡ compared_above ignored start address }
{
    Run {
        start,
        count: 32 - u16::from(ignored),
        number: u64::from(address) >> ignored,
    }
}

/// The bits that a match compares, field by field.
#[tactic(auto, unfolding(crate::specs::Patterns::runs_of))]
fn runs(m: &Match) -> [Run; 12]
    ensures { result ≡ runs_of m.now }
{
    let w = m.wild();
    let f = m.fields();
    [
        compared(w.in_port, 0, 16, u64::from(f.in_port)),
        compared(w.dl_src, 16, 48, f.dl_src),
        compared(w.dl_dst, 64, 48, f.dl_dst),
        compared(w.dl_vlan, 112, 16, u64::from(f.dl_vlan)),
        compared(w.dl_vlan_pcp, 128, 8, u64::from(f.dl_vlan_pcp)),
        compared(w.dl_type, 136, 16, u64::from(f.dl_type)),
        compared(w.nw_tos, 152, 8, u64::from(f.nw_tos)),
        compared(w.nw_proto, 160, 8, u64::from(f.nw_proto)),
        compared_above(w.nw_src, 168, f.nw_src),
        compared_above(w.nw_dst, 200, f.nw_dst),
        compared(w.tp_src, 232, 16, u64::from(f.tp_src)),
        compared(w.tp_dst, 248, 16, u64::from(f.tp_dst)),
    ]
}

/// The literals of the bits that a match compares, by rising places. They are true together exactly where the match
/// takes the header (`patterns_are_matches`).
pub fn pattern(alloc: Global, m: &Match) -> Result<Clause, OutOfMemory>
    ensures { IfOk result (λ c. c ≡ pattern_of m.now) }
{
    let mut literals = Clause::new(alloc);
    for run in runs(m) {
        push_run(&mut literals, run, true)?;
    }
    Ok(literals)
}

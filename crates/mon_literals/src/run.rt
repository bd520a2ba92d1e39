//! Runs of a header's bits.

ghost use Rattle.std.specs.Prelude.{◌≡◌, ◌++◌, OnOk, if◌then◌else◌};
ghost use Rattle.mon_header.specs.Wild.{bit};
ghost use Rattle.mon_literals.specs.Clauses.{denied};
ghost use Rattle.mon_literals.specs.Runs.{run, spelled};

use mon_cnf::{Clause, Lit, OutOfMemory};

/// Bits of a header that stand one after the other, from a place below `HEADER_BITS` on (`mon_header::bit`), and the number that
/// they spell, the most significant bit first. The fields begin at the places `in_port` 0, `dl_src` 16, `dl_dst` 64,
/// `dl_vlan` 112, `dl_vlan_pcp` 128, `dl_type` 136, `nw_tos` 152, `nw_proto` 160, `nw_src` 168, `nw_dst` 200, `tp_src`
/// 232 and `tp_dst` 248.
#[derive(Clone, Copy, Debug)]
pub struct Run {
    pub start: u16,
    pub count: u16,
    pub number: u64,
}

impl Run {
    /// The bits at this place and behind it, as many, and their number.
    pub(crate) fn new(start: u16, count: u16, number: u64) -> Run
        ensures { result ≡ run start count number }
    {
        Run {
            start,
            count,
            number,
        }
    }
}

fn has_bit(n: u64, place: u16) -> bool
    ensures { result ≡ bit n place }
{
    place < 64 && (n >> place) & 1 == 1
}

/// Appends the literals that say that the run spells its number, or the opposite of each.
pub(crate) fn push_run(literals: &mut Clause, run: Run, positive: bool) -> Result<(), OutOfMemory>
    ensures { OnOk result (literals.new ≡ literals.old ++ (if positive then spelled run else denied (spelled run))) }
{
    for i in 0..run.count {
        literals.push(Lit {
            var: u32::from(run.start) + u32::from(i),
            positive: has_bit(run.number, run.count - 1 - i) == positive,
        })?;
    }
    Ok(())
}

//! What a plan says, in numbers.

ghost use Rattle.std.specs.Prelude.{◌≡◌, ◌<◌, ◌^◌, List, length};
ghost use Rattle.mon_table.specs.declared.rule.Rule.{Rule};
ghost use Rattle.mon_shows.specs.Views.{Viewing};
ghost use Rattle.mon_plan.specs.Planning.{AreCertificates};
ghost use Rattle.mon_plan.specs.Counting.{summary_of, IsSummary};

use mon_certificate::{Certificate, Certificates};

/// Numbers of rules: all of a table, those with a probe, those that nothing shows although they are not tied, and the
/// tied ones.
#[derive(Clone, Copy, Debug, PartialEq, Eq)]
pub struct Summary {
    pub rules: u32,
    pub probes: u32,
    pub indistinguishable: u32,
    pub overlap: u32,
}

impl Summary {
    /// Counts certificates by their kinds, fewer than 2^32. Those that `plan_table` gives are as few, and are counted as
    /// their rules are, so the summary is one of the table.
    pub fn of(c: &Certificates) -> Summary
        requires { length c.now < 2 ^ 32 }
        ensures value { result ≡ summary_of c.now }
        ensures table { (v : Viewing) (t : List Rule) → AreCertificates v t c.now → IsSummary v t result }
    {
        let mut probes = 0;
        let mut indistinguishable = 0;
        let mut overlap = 0;
        for certificate in c.items() {
            match certificate {
                Certificate::Probe(..) => probes += 1,
                Certificate::Nothing(_) => indistinguishable += 1,
                Certificate::Overlap => overlap += 1,
            }
        }
        Summary {
            rules: c.items().len() as u32,
            probes,
            indistinguishable,
            overlap,
        }
    }
}

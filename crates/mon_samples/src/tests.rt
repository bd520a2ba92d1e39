//! What was worked out by hand, crate by crate.

ghost use Rattle.std.specs.Prelude.{◌≡◌};
ghost use Rattle.mon_job.specs.Jobs.{IsJob};
ghost use Rattle.mon_shows.specs.declared.target.Target.TheVariants.{Watch};

use mon_job::Job;
use mon_shows::{Target, View};
use mon_table::{Rule, Table};

mod deciding;
mod encoding;
mod jobs;
mod literals;
mod planning;
mod views;

/// The job of the number 3 that watches a rule of the table, at the version 7.
fn watching(view: View, table: Table, rule: Rule) -> Job
    requires { IsJob table (Watch rule) }
    ensures version { result.version ≡ 7 }
    ensures view { result.view ≡ view }
{
    Job {
        number: 3,
        session: 1,
        slot: 0,
        edit: 0,
        version: 7,
        view,
        table,
        target: Target::Watch { rule },
    }
}

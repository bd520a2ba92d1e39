//! What a call leads to, and how it may end.

ghost use Rattle.std.specs.Prelude.{◌≡◌};
ghost use Rattle.mon_session.specs.declared.step.SessionEnd.TheVariants as ends;

use mon_job::Job;
use mon_list::{Items, OutOfMemory};
use mon_report::Cause;
use mon_shows::Seen;
use mon_world::{Note, Out};

/// One step of what a call leads to.
#[derive(Drop)]
pub enum Step {
    /// The hub is to put this.
    Out(Out),
    /// The hub is to be told of this.
    Note(Note),
    /// The probe of this serial came back, and shows this: each open session is to be told.
    Return { serial: u64, seen: Seen },
}

/// Steps, in the order in which they are to be carried out.
pub type Outs = Items<Step>;

/// Jobs, in the order of their offers.
pub type Jobs = Items<Job>;

/// Why a call of a session did not do all. Afterwards the session may only be dropped.
#[derive(Clone, Copy, Debug, PartialEq, Eq)]
pub enum SessionEnd {
    /// The session is to be ended, for this cause.
    Ended(Cause),
    /// A number is needed above the last of its type.
    NumbersUsed,
    OutOfMemory,
}

impl From<OutOfMemory> for SessionEnd {
    ghost from_gives = { λ _ e. e ≡ ends.OutOfMemory };

    fn from(_: OutOfMemory) -> Self {
        SessionEnd::OutOfMemory
    }
}

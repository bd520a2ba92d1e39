//! When a search may be given up.

ghost use Rattle.std.specs.Prelude.{◌≡◌, ◌<◌, ◌+◌, ℕ, Option, None, option_map, MatchOption};
ghost use Rattle.mon_cdcl.specs.Counts.{counted};

/// Whether a search may be given up, since what it is for was overtaken.
pub trait Stop {
    /// What it asks about, as a board and a slot of it.
    type About;

    /// What this one asks about, which never changes: so whoever made it knows that of it still when it comes back.
    ghost about: { Self → Self.About };

    /// The version of the job, which never changes.
    ghost floor: { Self → ℕ };

    /// What the last `ask` gave, None at first.
    ghost shown: { Self → Option ℕ };

    /// How often it was asked, where it tells that. The count stands still at 2^64 - 1.
    ghost asked: { Self → Option ℕ };

    /// A version above the floor, which was seen, or none.
    fn ask(&mut self) -> Option<u64>
        ensures about { about self.new ≡ about self.old }
        ensures same { floor self.new ≡ floor self.old }
        ensures told { shown self.new ≡ result }
        ensures counted { asked self.new ≡ option_map (λ n. counted (n + 1)) (asked self.old) }
        ensures above { MatchOption result (Unit {0}) (λ seen. floor self.old < seen) };
}

/// A stop that never gives a version.
#[derive(Clone, Copy, Debug)]
pub struct Never {
    /// The version of the job.
    pub floor: u64,
}

impl Stop for Never {
    type About = ();

    ghost about = { λ _. tt };

    ghost floor = { λ n. n.floor };

    ghost shown = { λ _. None };

    ghost asked = { λ _. None };

    fn ask(&mut self) -> Option<u64>
        ensures never { result ≡ None }
        ensures unchanged { self.new ≡ self.old }
    {
        None
    }
}

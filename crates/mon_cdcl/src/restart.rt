//! When the search begins again with what it has learned.

ghost use Rattle.std.specs.Prelude.{◌≡◌, ◌<◌, ◌+◌, IsTrue, false};

/// The least number of conflicts from one restart to the next.
const UNIT: u64 = 64;

/// When to restart.
#[derive(Drop)]
pub struct Restarts {
    /// How many restarts may come yet.
    pub left: u64,
    /// How many conflicts are to come before the next one.
    wait: u64,
    /// How many there were.
    count: u64,
}

/// The number at a place, from 1 on, of 1, 1, 2, 1, 1, 2, 4, 1, 1, 2, 1, 1, 2, 4, 8, .., the sequence of Luby, Sinclair and
/// Zuckerman.
fn luby(place: u64) -> u64 {
    let mut rest = place;
    for _ in 0..64 {
        let above = rest
            .wrapping_add(1)
            .checked_next_power_of_two()
            .unwrap_or(1);
        if rest.wrapping_add(1) == above {
            return above / 2;
        }
        rest = rest.wrapping_sub(above / 2).wrapping_add(1);
    }
    1
}

impl Restarts {
    /// No conflict has come yet.
    pub fn new() -> Restarts {
        Restarts {
            left: u64::MAX,
            wait: UNIT,
            count: 1,
        }
    }

    /// A conflict came.
    pub fn conflict(&mut self)
        ensures { self.new.left ≡ self.old.left }
    {
        self.wait = self.wait.saturating_sub(1);
    }

    /// Whether to restart now. Then one restart fewer is left.
    pub fn is_due(&mut self) -> bool
        ensures due { IsTrue result → self.new.left < self.old.left }
        ensures same { result ≡ false → self.new.left ≡ self.old.left }
    {
        if self.wait > 0 || self.left == 0 {
            return false;
        }
        self.left -= 1;
        self.count = self.count.saturating_add(1);
        self.wait = luby(self.count).saturating_mul(UNIT);
        true
    }
}

//! Calls of what is in memory, counted.

ghost use Rattle.std.specs.Prelude.{◌≡◌, ◌≤◌};
ghost use Rattle.basil_types.specs.Memory.{uncalled, fails_next, counted};

use std::marker::Model;

/// The numbers, from 1, of the calls that fail; how many calls were made, and how many failed.
#[derive(Drop)]
pub struct Calls {
    failing: Vec<u64>,
    made: u64,
    faults: u64,
}

impl Model for Calls {
    ghost use Rattle.basil_types.specs.Memory.{CallCounts};

    ghost Value = { CallCounts };

    ghost view = { λ c. record { failing = c.failing.items; made = c.made; faults = c.faults } };
}

impl Calls {
    /// No call was made; those of these numbers, from 1, will fail.
    pub fn new(failing: Vec<u64>) -> Calls
        ensures { result ≡ uncalled failing.items }
    {
        Calls {
            failing,
            made: 0,
            faults: 0,
        }
    }

    /// Whether the next call is one of those that fail.
    pub fn fails_next(&self) -> bool
        ensures { result ≡ fails_next self.now }
    {
        self.failing.contains(&self.made.saturating_add(1))
    }

    /// Counts a call.
    pub fn count(&mut self, failed: bool)
        ensures counted { self.new ≡ counted failed self.old }
        ensures later { self.old.faults ≤ self.new.faults }
    {
        self.made = self.made.saturating_add(1);
        if failed {
            self.faults = self.faults.saturating_add(1);
        }
    }
}

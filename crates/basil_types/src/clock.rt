//! What tells the time.

ghost use Rattle.std.specs.Prelude.{◌≡◌, List, ℕ, Option};
ghost use Rattle.basil_types.specs.Causes.{Ticks};

use std::marker::Model;

/// What tells the time, in milliseconds since the start of 1970 in UTC. Its meaning is the list of moments that it will
/// give, where it tells them, and 0 after the last. It has no fault.
pub trait Clock {
    // The moments that it will give, where they are told.
    ghost moments: { Self → Option (List ℕ) };

    /// The next moment.
    fn now(&mut self) -> u64
        ensures ticks { Ticks (moments self.old) (moments self.new) result };
}

/// A list of moments in memory.
#[derive(Drop)]
pub struct MemClock {
    moments: Vec<u64>,
    at: usize,
}

impl Model for MemClock {
    ghost use Rattle.std.specs.Prelude.{List, ℕ, drop, ◌≤◌, length};

    ghost Value = { List ℕ };

    ghost view = { λ c. drop c.at c.moments.items };

    ghost invariant = { λ c. c.at ≤ length c.moments.items };
}

impl MemClock {
    /// Gives these moments in order, and then 0.
    pub fn new(moments: Vec<u64>) -> MemClock
        ensures { result ≡ moments.items }
    {
        MemClock { moments, at: 0 }
    }
}

impl Clock for MemClock {
    ghost use Rattle.std.specs.Prelude.{Some};

    ghost moments = { λ c. Some c };

    fn now(&mut self) -> u64 {
        if self.at < self.moments.len() {
            let moment = self.moments[self.at];
            self.at += 1;
            moment
        } else {
            0
        }
    }
}

//! The clock of the system.

ghost use Rattle.std.specs.Prelude.{◌≡◌};

use basil_types::clock;
use std::time::{Clock, SystemTime};

/// The system's clock, in whole milliseconds since the start of 1970 in UTC. It doesn't tell which moments it will
/// give.
#[derive(Drop)]
pub struct SystemClock<'a, R: Clock> {
    system: &'a R,
}

/// The system's moment, if it gives one.
fn moment_of<R: Clock>(system: &R) -> Option<u64> {
    let now = SystemTime::now(system).ok()?;
    let since = now.duration_since(SystemTime::UNIX_EPOCH).ok()?;
    u64::try_from(since.as_millis()).ok()
}

impl<'a, R: Clock> SystemClock<'a, R> {
    /// The clock of this system.
    pub fn new(system: &'a R) -> SystemClock<'a, R>
        ensures { result.system ≡ system.entry }
    {
        SystemClock { system }
    }
}

impl<R: Clock> clock::Clock for SystemClock<'_, R> {
    ghost use Rattle.std.specs.Prelude.{None};

    ghost moments = { λ _. None };

    /// The moment, or 0 where the system gives none.
    fn now(&mut self) -> u64 {
        moment_of(self.system).unwrap_or(0)
    }
}

//! Why an event isn't taken.

use basil_types::memory::NoMemory;
use cluster_run::fault::WorldFault;
use premise_watch::broken::WatchFault;

/// Why an event isn't taken. A breach, and want of memory, end the world; else it is as before.
#[derive(Debug, Drop)]
pub enum StepFault {
    /// As the rules of a run say.
    World(WorldFault),
    NoMemory,
}

impl From<NoMemory> for StepFault {
    ghost use Rattle.std.specs.Prelude.{◌≡◌};
    ghost use Rattle.cluster_world.specs.declared.fault.StepFault.TheVariants as faults;

    ghost from_gives = { λ _ e. e ≡ faults.NoMemory };

    fn from(_wanting: NoMemory) -> StepFault {
        StepFault::NoMemory
    }
}

impl From<WatchFault> for StepFault {
    ghost use Rattle.cluster_world.specs.Breaking.{IsOfWatch};

    ghost from_gives = { IsOfWatch };

    fn from(fault: WatchFault) -> StepFault {
        match fault {
            WatchFault::Broken(broken) => StepFault::World(WorldFault::Broken(broken)),
            WatchFault::NoMemory => StepFault::NoMemory,
        }
    }
}

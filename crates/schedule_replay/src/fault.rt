//! Why the events of a line go no further.

use basil_types::memory::NoMemory;
use cluster_run::fault::WorldFault;
use cluster_world::fault::StepFault;

/// Why the events of a line go no further.
#[derive(Drop)]
pub(crate) enum Halt {
    /// As the rules of a run say.
    World(WorldFault),
    /// A link failed.
    Link,
    /// Memory is wanting.
    NoMemory,
}

impl From<NoMemory> for Halt {
    ghost use Rattle.std.specs.Prelude.{◌≡◌};
    ghost use Rattle.schedule_replay.specs.declared.fault.Halt.TheVariants.{NoMemory};

    ghost from_gives = { λ _ e. e ≡ NoMemory };

    fn from(_wanting: NoMemory) -> Halt {
        Halt::NoMemory
    }
}

impl From<StepFault> for Halt {
    ghost use Rattle.std.specs.Prelude.{◌≡◌};
    ghost use Rattle.schedule_replay.specs.Shown.{halt_of};

    ghost from_gives = { λ fault e. e ≡ halt_of fault };

    fn from(fault: StepFault) -> Halt {
        match fault {
            StepFault::World(fault) => Halt::World(fault),
            StepFault::NoMemory => Halt::NoMemory,
        }
    }
}

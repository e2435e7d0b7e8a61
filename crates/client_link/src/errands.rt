//! The messages of a run.

ghost use Rattle.std.specs.Prelude.{◌≡◌, []};
ghost use Rattle.client_link.specs.Running.{most_carried};

use basil_types::outbox::Outbox;
use node_steps::pending::outbox;
use std::alloc::Global;

/// Envelopes of others for replicas that a run carries, at most.
const CARRIED_LIMIT: u32 = 4096;

/// The messages of a run in order, how many of them were asked, and how many envelopes of others may still join them.
#[derive(Drop)]
pub(crate) struct Errands {
    pub(crate) out: Outbox,
    pub(crate) asked: usize,
    pub(crate) left: u32,
}

impl Errands {
    /// Before the first message.
    pub(crate) fn new(alloc: Global) -> Errands
        ensures messages { result.out.messages.items ≡ [] }
        ensures asked { result.asked ≡ 0 }
        ensures left { result.left ≡ most_carried }
    {
        Errands {
            out: outbox(alloc),
            asked: 0,
            left: CARRIED_LIMIT,
        }
    }
}

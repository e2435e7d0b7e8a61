//! What a kit makes at once.

ghost use Rattle.std.specs.Prelude.{◌≡◌, IfOk};
ghost use Rattle.replay_kit.specs.Made.{made_knows, made_value};
ghost use Rattle.replay_kit.specs.Values.{replay_knows, replay_value};

use crate::kind::KitKind;
use crate::lms::LmsKit;
use basil_types::cluster::Cluster;
use basil_types::memory::NoMemory;
use std::alloc::Global;

/// What a kit makes at once: nothing of plain keys, nor of batches over them.
#[derive(Drop)]
pub(crate) enum Made {
    Plain,
    Lms(LmsKit),
    Batch,
}

/// Makes what a kit of this kind over a cluster hands out.
pub(crate) fn make(alloc: Global, cluster: Cluster, kind: KitKind) -> Result<Made, NoMemory>
    ensures value { IfOk result (λ made. made_value made ≡ replay_value cluster kind) }
    ensures knows { IfOk result (λ made. made_knows made ≡ replay_knows cluster kind) }
{
    match kind {
        KitKind::Plain => Ok(Made::Plain),
        KitKind::Lms(set) => {
            let keys = LmsKit::new(alloc, cluster, set)?;
            Ok(Made::Lms(keys))
        }
        KitKind::Batch => Ok(Made::Batch),
    }
}

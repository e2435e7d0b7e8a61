//! The kit of a replay.

ghost use Rattle.std.specs.Prelude.{◌≡◌, IfOk};
ghost use Rattle.replay_kit.specs.Values.{replay_knows, replay_value};

use crate::kind::KitKind;
use crate::made::{Made, make};
use crate::pen::ReplayPen;
use crate::ring::ReplayRing;
use basil_types::cluster::Cluster;
use basil_types::memory::NoMemory;
use basil_types::party::Party;
use batch_sign::{BatchKeys, BatchPen};
use keyring::plain::{PlainKeys, PlainPen};
use run_kit::Kit;
use std::alloc::Global;

/// The kit of a replay over a cluster: its keys are those that are made of the parties' seeds. It has a pen for every
/// party. Its keyrings know every party too, but with LMS those of the cluster alone: the replicas of each shard, and
/// the clients 1 to 16.
#[derive(Drop)]
pub struct ReplayKit {
    alloc: Global,
    made: Made,
}

impl ReplayKit {
    /// The kit of this kind. With LMS the key of each party of the cluster is made once, here, which takes long at
    /// height 10; its keyrings and the pens of those parties then cost their memory alone.
    pub fn new(alloc: Global, cluster: Cluster, kind: KitKind) -> Result<ReplayKit, NoMemory>
        ensures value { IfOk result (λ kit. ⟦<ReplayKit as Kit>⟧.value kit ≡ replay_value cluster kind) }
        ensures knows { IfOk result (λ kit. ⟦<ReplayKit as Kit>⟧.knows kit ≡ replay_knows cluster kind) }
    {
        let made = make(alloc, cluster, kind)?;
        Ok(ReplayKit { alloc, made })
    }
}

impl Kit for ReplayKit {
    type Keys = ReplayRing;

    type Pen = ReplayPen;

    ghost use Rattle.replay_kit.specs.Made.{made_knows, made_value};
    ghost use Rattle.replay_kit.specs.MadeLaws.{made-owner, made-accepted, made-sized, made-signed};

    ghost value = { λ kit. made_value kit.made };

    ghost knows = { λ kit. made_knows kit.made };

    ghost owner = { λ kit. made-owner kit.made };

    ghost agrees = { λ kit. made-accepted kit.made };

    ghost sized = { λ kit. made-sized kit.made };

    ghost signed = { λ kit. made-signed kit.made };

    fn keys(&self) -> Result<ReplayRing, NoMemory> {
        match &self.made {
            Made::Plain => Ok(ReplayRing::Plain(PlainKeys)),
            Made::Lms(keys) => {
                let ring = keys.ring(self.alloc)?;
                Ok(ReplayRing::Lms(ring))
            }
            Made::Batch => Ok(ReplayRing::Batch(BatchKeys::new(PlainKeys))),
        }
    }

    fn pen(&self, party: Party) -> Result<ReplayPen, NoMemory> {
        match &self.made {
            Made::Plain => Ok(ReplayPen::Plain(PlainPen::new(party))),
            Made::Lms(keys) => {
                let pen = keys.pen(self.alloc, party)?;
                Ok(ReplayPen::Lms(pen))
            }
            Made::Batch => Ok(ReplayPen::Batch(BatchPen::new(PlainPen::new(party)))),
        }
    }
}

//! The keys of LMS in a replay, for any party.

ghost use Rattle.std.specs.Prelude.{◌≡◌, IfOk};
ghost use Rattle.keyring_lms.specs.Pens.{lms_signing};
ghost use Rattle.keyring_lms.specs.Replay.{replay_accepts, tree_in_replay};
ghost use Rattle.node_steps.specs.Pens.{pen_value};
ghost use Rattle.replay_kit.specs.Values.{lms_place};

use basil_types::cluster::Cluster;
use basil_types::memory::NoMemory;
use basil_types::party::Party;
use keyring::signer::Signer;
use keyring::verifier::Verifier;
use keyring_lms::{LmsKeys, LmsPen, ReplayKeys, has_party};
use lms_sign::LmsSet;
use std::alloc::Global;

/// The keys of the parties of a cluster, which are made once, beside what they are made of.
#[derive(Drop)]
pub(crate) struct LmsKit {
    cluster: Cluster,
    set: LmsSet,
    keys: ReplayKeys,
    ghost made: { keys ≡ record { cluster = cluster; set = set } },
}

impl LmsKit {
    /// Makes the key of each party of the cluster once, which takes long at height 10.
    pub(crate) fn new(alloc: Global, cluster: Cluster, set: LmsSet) -> Result<LmsKit, NoMemory>
        ensures cluster { IfOk result (λ kit. kit.cluster ≡ cluster) }
        ensures set { IfOk result (λ kit. kit.set ≡ set) }
    {
        let keys = ReplayKeys::make(alloc, &cluster, set)?;
        Ok(LmsKit { cluster, set, keys })
    }

    /// A keyring, at the cost of its memory alone.
    pub(crate) fn ring(&self, alloc: Global) -> Result<LmsKeys, NoMemory>
        ensures { IfOk result (λ ring.
            ⟦<LmsKeys as Verifier>⟧.accepted ring ≡ replay_accepts self.now.cluster self.now.set) }
    {
        self.keys.ring(alloc)
    }

    /// The pen of a party from leaf 0 on: of the cluster's at the cost of its memory alone, and of any other its key is
    /// made.
    pub(crate) fn pen(&self, alloc: Global, party: Party) -> Result<LmsPen, NoMemory>
        ensures signing { IfOk result (λ pen.
            ⟦<LmsPen as Signer>⟧.fixed pen ≡ lms_signing party (tree_in_replay self.now.set party) 0) }
        ensures place { IfOk result (λ pen.
            pen_value (⟦<LmsPen as Signer>⟧.spent pen) (⟦<LmsPen as Signer>⟧.left_of pen) ≡ lms_place self.now.set) }
    {
        if has_party(&self.cluster, party) {
            self.keys.pen(alloc, party)
        } else {
            LmsPen::replay(alloc, party, self.set)
        }
    }
}

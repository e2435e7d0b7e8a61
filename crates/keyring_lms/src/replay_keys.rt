//! The keys of a whole replay.
ghost use Rattle.std.specs.Prelude.{◌≡◌, IfOk, map, option_map, true};
ghost use Rattle.lms_sign.specs.Sets.{leaves_of};
ghost use Rattle.lms_sign.specs.Signing.{first_key};
ghost use Rattle.keyring_lms.specs.Pens.{lms_signing};
ghost use Rattle.keyring_lms.specs.Replay.{tree_in_replay, tree_found, public_entry, is_party_of, replay_accepts};

use crate::keys::LmsKeys;
use crate::pen::LmsPen;
use crate::replay::{parties_of, trees_of};
use basil_types::cluster::Cluster;
use basil_types::memory::NoMemory;
use basil_types::party::Party;
use keyring::signer::Signer;
use keyring::verifier::Verifier;
use lms_sign::{LmsKey, LmsSet, LmsTree};
use std::alloc::Global;
use std::marker::Model;

/// The keys of a replay over a cluster: those of this set that are made of the parties' seeds, for the replicas of each
/// shard and for the clients 1 to 16. Contracts see the cluster and the set.
#[derive(Drop)]
pub struct ReplayKeys {
    cluster: Cluster,
    set: LmsSet,
    trees: Vec<(Party, LmsTree)>,
}

impl Model for ReplayKeys {
    ghost use Rattle.std.specs.Prelude.{◌≡◌, map};
    ghost use Rattle.keyring_lms.specs.Replay.{Replay, parties_of, tree_entry};

    ghost Value = { Replay };

    ghost view = { λ k. record { cluster = k.cluster; set = k.set } };

    ghost invariant = { λ k. k.trees.items ≡ map (tree_entry k.set) (parties_of k.cluster) };
}

impl ReplayKeys {
    /// Makes each key once, which takes long at height 10.
    pub fn make(alloc: Global, cluster: &Cluster, set: LmsSet) -> Result<ReplayKeys, NoMemory>
        ensures { IfOk result (λ keys. keys ≡ record { cluster = cluster.now; set = set }) }
    {
        let parties = parties_of(alloc, cluster)?;
        let trees = trees_of(alloc, set, &parties)?;
        Ok(ReplayKeys {
            cluster: *cluster,
            set,
            trees,
        })
    }

    /// The keyring of the replay, at the cost of its memory alone.
    pub fn ring(&self, alloc: Global) -> Result<LmsKeys, NoMemory>
        ensures { IfOk result (λ keys.
            ⟦<LmsKeys as Verifier>⟧.accepted keys ≡ replay_accepts self.now.cluster self.now.set) }
    {
        let publics = publics_in(alloc, self.trees.as_slice())?;
        Ok(LmsKeys { publics })
    }

    /// The pen of a party of the cluster from leaf 0 on, at the cost of its memory alone.
    pub fn pen(&self, alloc: Global, party: Party) -> Result<LmsPen, NoMemory>
        requires { is_party_of self.now.cluster party ≡ true }
        ensures fixed { IfOk result (λ pen.
            ⟦<LmsPen as Signer>⟧.fixed pen ≡ lms_signing party (tree_in_replay self.now.set party) 0) }
        ensures spent { IfOk result (λ pen. ⟦<LmsPen as Signer>⟧.spent pen ≡ 0) }
        ensures left { IfOk result (λ pen. ⟦<LmsPen as Signer>⟧.left_of pen ≡ leaves_of self.now.set) }
    {
        let key = self.key_there(alloc, party)?;
        Ok(LmsPen::new(party, key))
    }

    /// The key of a party of the cluster from leaf 0 on.
    fn key_there(&self, alloc: Global, party: Party) -> Result<LmsKey, NoMemory>
        requires { is_party_of self.now.cluster party ≡ true }
        ensures { IfOk result (λ key. key ≡ first_key (tree_in_replay self.now.set party)) }
    {
        match key_in(alloc, self.trees.as_slice(), party)? {
            Some(key) => Ok(key),
            None => unreachable!(),
        }
    }
}

/// The parties of some trees, each with its public key.
fn publics_in(alloc: Global, trees: &[(Party, LmsTree)]) -> Result<Vec<(Party, [u8; 56])>, NoMemory>
    ensures { IfOk result (λ publics. publics.items ≡ map public_entry trees.now) }
{
    let mut publics = Vec::new(alloc);
    for entry in trees {
        publics.push((entry.0, entry.1.public()))?;
    }
    Ok(publics)
}

/// The key from leaf 0 on of the first tree of a party, if it has one.
fn key_in(
    alloc: Global,
    trees: &[(Party, LmsTree)],
    party: Party,
) -> Result<Option<LmsKey>, NoMemory>
    ensures { IfOk result (λ key. key ≡ option_map first_key (tree_found trees.now party)) }
{
    for entry in trees {
        if entry.0 == party {
            let key = entry.1.key(alloc, 0)?;
            return Ok(Some(key));
        }
    }
    Ok(None)
}

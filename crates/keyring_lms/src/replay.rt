//! The parties and the keys of a replay.
ghost use Rattle.std.specs.Prelude.{◌≡◌, ◌++◌, IfOk, OnOk, map};
ghost use Rattle.lms_sign.specs.Tree.{public_of as key_in_replay};
ghost use Rattle.keyring_lms.specs.Replay.{tree_in_replay, tree_entry, entry_of, replicas_of, clients};

use basil_types::cluster::Cluster;
use basil_types::memory::NoMemory;
use basil_types::party::Party;
use keyring::plain::seed_of;
use lms_sign::{LmsKey, LmsSet, LmsTree, ident_of_seed};
use std::alloc::Global;

/// The key of a party in a replay, from leaf 0 on.
pub(crate) fn key_of(alloc: Global, set: LmsSet, party: Party) -> Result<LmsKey, NoMemory>
    ensures { IfOk result (λ key. key ≡ record { tree = tree_in_replay set party; next = 0 }) }
{
    let seed = seed_of(party);
    LmsKey::make(alloc, &seed, &ident_of_seed(&seed), set, 0)
}

/// The tree of a party in a replay.
fn tree_of(alloc: Global, set: LmsSet, party: Party) -> Result<LmsTree, NoMemory>
    ensures { IfOk result (λ tree. tree ≡ tree_in_replay set party) }
{
    let seed = seed_of(party);
    LmsTree::make(alloc, &seed, &ident_of_seed(&seed), set)
}

/// The parties, each with its tree in a replay.
pub(crate) fn trees_of(
    alloc: Global,
    set: LmsSet,
    parties: &[Party],
) -> Result<Vec<(Party, LmsTree)>, NoMemory>
    ensures { IfOk result (λ trees. trees.items ≡ map (tree_entry set) parties.now) }
{
    let mut trees = Vec::new(alloc);
    for party in parties {
        let tree = tree_of(alloc, set, *party)?;
        trees.push((*party, tree))?;
    }
    Ok(trees)
}

/// The public key of a party in a replay.
fn public_of(alloc: Global, set: LmsSet, party: Party) -> Result<[u8; 56], NoMemory>
    ensures { IfOk result (λ public. public ≡ key_in_replay (tree_in_replay set party)) }
{
    let key = key_of(alloc, set, party)?;
    Ok(key.public())
}

/// The parties, each with its public key in a replay.
pub(crate) fn publics_of(
    alloc: Global,
    set: LmsSet,
    parties: &[Party],
) -> Result<Vec<(Party, [u8; 56])>, NoMemory>
    ensures { IfOk result (λ publics. publics.items ≡ map (entry_of set) parties.now) }
{
    let mut publics = Vec::new(alloc);
    for party in parties {
        let public = public_of(alloc, set, *party)?;
        publics.push((*party, public))?;
    }
    Ok(publics)
}

/// The parties of a cluster: the replicas of each shard, and the clients 1 to 16.
pub(crate) fn parties_of(alloc: Global, cluster: &Cluster) -> Result<Vec<Party>, NoMemory>
    ensures { IfOk result (λ parties. parties.items ≡ Rattle.keyring_lms.specs.Replay.parties_of cluster.now) }
{
    let mut parties = Vec::new(alloc);
    for shard in 0..cluster.shards {
        push_replicas(&mut parties, shard, cluster.n())?;
    }
    push_clients(&mut parties)?;
    Ok(parties)
}

/// Appends the replicas of a shard.
fn push_replicas(parties: &mut Vec<Party>, shard: u8, n: u8) -> Result<(), NoMemory>
    ensures { OnOk result (parties.new.items ≡ parties.old.items ++ replicas_of n shard) }
{
    for index in 0..n {
        parties.push(Party::Replica { shard, index })?;
    }
    Ok(())
}

/// Appends the clients 1 to 16.
fn push_clients(parties: &mut Vec<Party>) -> Result<(), NoMemory>
    ensures { OnOk result (parties.new.items ≡ parties.old.items ++ clients) }
{
    for number in 1..17 {
        parties.push(Party::Client { number })?;
    }
    Ok(())
}

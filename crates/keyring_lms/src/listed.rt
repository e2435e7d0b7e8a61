//! The parties of a cluster among those of a list.
ghost use Rattle.std.specs.Prelude.{◌≡◌, IfOk, OnOk};
ghost use Rattle.keyring_lms.specs.Replay as replay;
ghost use Rattle.keyring_lms.specs.Replay.{AreListedOf, HasOneMore, is_party_of};

use basil_types::cluster::Cluster;
use basil_types::limits::MOST_CLIENTS;
use basil_types::memory::NoMemory;
use basil_types::party::Party;
use std::alloc::Global;

/// Whether a party is one of a cluster's: a replica of one of its shards, or one of the clients.
pub fn has_party(cluster: &Cluster, party: Party) -> bool
    ensures { result ≡ is_party_of cluster.now party }
{
    match party {
        Party::Replica { shard, index } => shard < cluster.shards && index < cluster.n(),
        Party::Client { number } => 1 <= number && number <= MOST_CLIENTS,
    }
}

/// Whether a party is listed.
fn is_listed(parties: &[Party], party: Party) -> bool
    ensures { result ≡ replay.is_listed parties.now party }
{
    for one in parties {
        if *one == party {
            return true;
        }
    }
    false
}

/// Appends a party that is one of the cluster's and isn't listed yet.
fn add_once(parties: &mut Vec<Party>, cluster: &Cluster, party: Party) -> Result<(), NoMemory>
    ensures { OnOk result (HasOneMore cluster.now party parties.old.items parties.new.items) }
{
    if !has_party(cluster, party) {
        return Ok(());
    }
    if is_listed(parties.as_slice(), party) {
        return Ok(());
    }
    parties.push(party)?;
    Ok(())
}

/// The parties of a cluster among those that are listed, each once.
pub(crate) fn parties_listed(
    alloc: Global,
    cluster: &Cluster,
    listed: &[Party],
) -> Result<Vec<Party>, NoMemory>
    ensures { IfOk result (λ parties. AreListedOf cluster.now listed.now parties.items) }
{
    let mut parties = Vec::new(alloc);
    for party in listed {
        add_once(&mut parties, cluster, *party)?;
    }
    Ok(parties)
}

//! The journals before the first event.

ghost use Rattle.std.specs.Prelude.{◌≡◌, ◌<◌, ◌∷◌, [], IfOk, OnOk, true, false};
ghost use Rattle.cluster_run.specs.States.{Setup, State, first_standing, shard_standing, start};
ghost use Rattle.cluster_world.specs.Shows.{Shows};
ghost use Rattle.quorum_laws.specs.Numbers.{replicas};
ghost use Rattle.journaled_runs.specs.Beginning.{AddsJournals};
ghost use Rattle.journaled_runs.specs.Journaling.{first_state};
ghost use Rattle.journaled_runs.specs.Shown.{KeepsAll};

use basil_types::cluster::Cluster;
use basil_types::memory::NoMemory;
use basil_types::party::Party;
use cluster_world::world::World;
use keyring::signer::Signer;
use keyring::verifier::Verifier;
use run_journals::{Journals, RunJournal};
use run_kit::{Kit, equip};
use std::alloc::Global;

/// One more journal, that of this replica, if it is correct.
fn add_journal<K: Kit>(
    alloc: Global,
    cluster: Cluster,
    world: &World<K>,
    shard: u8,
    index: u8,
    journals: &mut Journals<K::Keys, K::Pen>,
) -> Result<(), NoMemory>
    requires shard { shard < cluster.shards }
    requires index { index < replicas cluster.f }
    ensures { (s : Setup) (st : State) → s.cluster ≡ cluster → s.kit ≡ K.value world.now.kit →
        Shows s world.now.core st →
        OnOk result (AddsJournals s (first_standing s shard index ∷ []) journals.old journals.new) }
{
    let party = Party::Replica { shard, index };
    if world.is_faulty(party) {
        return Ok(());
    }
    let own = equip(world.kit(), party)?;
    let journal = RunJournal::begin(alloc, cluster, shard, index, own.keys, own.pen)?;
    journals.add(journal)?;
    Ok(())
}

/// The journals of the correct replicas of a shard, ascending, behind the others.
fn add_shard<K: Kit>(
    alloc: Global,
    cluster: Cluster,
    world: &World<K>,
    shard: u8,
    journals: &mut Journals<K::Keys, K::Pen>,
) -> Result<(), NoMemory>
    requires { shard < cluster.shards }
    ensures { (s : Setup) (st : State) → s.cluster ≡ cluster → s.kit ≡ K.value world.now.kit →
        Shows s world.now.core st →
        OnOk result (AddsJournals s (shard_standing s shard) journals.old journals.new) }
{
    for index in 0..cluster.n() {
        add_journal(alloc, cluster, world, shard, index, journals)?;
    }
    Ok(())
}

/// The journals of the correct replicas of a world before its first event, shard by shard.
pub fn begin_journals<K: Kit>(
    alloc: Global,
    cluster: Cluster,
    world: &World<K>,
) -> Result<Journals<K::Keys, K::Pen>, NoMemory>
    ensures { (s : Setup) → s.cluster ≡ cluster → s.kit ≡ K.value world.now.kit → Shows s world.now.core (start s) →
        IfOk result (λ journals. KeepsAll s (K.value world.now.kit) journals (first_state s true)) }
{
    let mut journals = Journals::new(alloc);
    for shard in 0..cluster.shards {
        add_shard(alloc, cluster, world, shard, &mut journals)?;
    }
    Ok(journals)
}

/// No journals, of a world whose replicas don't write. Takes no memory.
pub fn no_journals<V: Verifier, S: Signer>(alloc: Global) -> Journals<V, S>
    ensures { (s : Setup) → KeepsAll s s.kit result (first_state s false) }
{
    Journals::new(alloc)
}

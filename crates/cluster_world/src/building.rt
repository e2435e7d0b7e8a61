//! The parts of a world before its first event.

ghost use Rattle.std.specs.Prelude.{◌≡◌, ◌<◌, ◌≤◌, ◌∷◌, [], IfOk, OnOk, List};
ghost use Rattle.basil_types.specs.Limits.{most_clients};
ghost use Rattle.basil_types.specs.declared.party.Party.{Party};
ghost use Rattle.cluster_nodes.specs.Standings.{HoldsAs, StandsAs};
ghost use Rattle.cluster_run.specs.States.{Setup, first_standing, shard_standing, start};
ghost use Rattle.faulty_parties.specs.Pens.{LiesAs};
ghost use Rattle.quorum_laws.specs.Numbers.{replicas};
ghost use Rattle.cluster_world.specs.Building.{AddsReplicas, AreCallers, AreReplicas, first_client, first_clients};
ghost use Rattle.cluster_world.specs.Building.{AddsPens, client_parties, parties_of_shard, parties_of_shards};
ghost use Rattle.cluster_world.specs.Building.{first_shards, setup_of};
ghost use Rattle.cluster_world.specs.Shows.{AreMembers, Shows};

use crate::engine::Engine;
use basil_types::cluster::Cluster;
use basil_types::limits::MOST_CLIENTS;
use basil_types::memory::NoMemory;
use basil_types::party::Party;
use cluster_nodes::calling::StandingClient;
use cluster_nodes::standing::{Place, StandingReplica};
use faulty_parties::pens::Pens;
use message_pool::{Pool, Room};
use premise_watch::faulty::Faulty;
use run_kit::{Kit, equip};
use run_sight::Sight;
use std::alloc::Global;

/// What a world begins with.
#[derive(Clone, Copy)]
pub struct Beginning {
    pub cluster: Cluster,
    /// The first moment of every replica.
    pub clock: u64,
    /// The limits of the pool.
    pub limits: Room,
}

/// The replica of this index of a shard, with a keyring and its pen of a kit, or memory is wanting.
fn replica<K: Kit>(
    alloc: Global,
    beginning: &Beginning,
    shard: u8,
    index: u8,
    kit: &K,
) -> Result<StandingReplica<K::Keys, K::Pen>, NoMemory>
    requires shard { shard < beginning.now.cluster.shards }
    requires index { index < replicas beginning.now.cluster.f }
    ensures { (faulty : List Party) → let s = setup_of beginning.now faulty (K.value kit.now) in
        IfOk result (λ node. StandsAs s node (first_standing s shard index)) }
{
    let place = Place {
        cluster: beginning.cluster,
        shard,
        index,
    };
    let own = equip(kit, Party::Replica { shard, index })?;
    Ok(StandingReplica::new(alloc, place, beginning.clock, own.keys, own.pen))
}

/// One more replica, behind the others.
fn add_replica<K: Kit>(
    alloc: Global,
    beginning: &Beginning,
    shard: u8,
    index: u8,
    kit: &K,
    nodes: &mut Vec<StandingReplica<K::Keys, K::Pen>>,
) -> Result<(), NoMemory>
    requires shard { shard < beginning.now.cluster.shards }
    requires index { index < replicas beginning.now.cluster.f }
    ensures { (faulty : List Party) → let s = setup_of beginning.now faulty (K.value kit.now) in
        OnOk result (AddsReplicas s (first_standing s shard index ∷ []) nodes.old.items nodes.new.items) }
{
    nodes.push(replica(alloc, beginning, shard, index, kit)?)?;
    Ok(())
}

/// The replicas of a shard, ascending, behind the others.
fn add_shard<K: Kit>(
    alloc: Global,
    beginning: &Beginning,
    shard: u8,
    kit: &K,
    nodes: &mut Vec<StandingReplica<K::Keys, K::Pen>>,
) -> Result<(), NoMemory>
    requires { shard < beginning.now.cluster.shards }
    ensures { (faulty : List Party) → let s = setup_of beginning.now faulty (K.value kit.now) in
        OnOk result (AddsReplicas s (shard_standing s shard) nodes.old.items nodes.new.items) }
{
    for index in 0..beginning.cluster.n() {
        add_replica(alloc, beginning, shard, index, kit, nodes)?;
    }
    Ok(())
}

/// The replicas of a cluster, shard by shard.
fn all_replicas<K: Kit>(
    alloc: Global,
    beginning: &Beginning,
    kit: &K,
) -> Result<Vec<StandingReplica<K::Keys, K::Pen>>, NoMemory>
    ensures { (faulty : List Party) → let s = setup_of beginning.now faulty (K.value kit.now) in
        IfOk result (λ nodes. AreReplicas s nodes.items (first_shards s s.cluster.shards)) }
{
    let mut nodes = Vec::new(alloc);
    for shard in 0..beginning.cluster.shards {
        add_shard(alloc, beginning, shard, kit, &mut nodes)?;
    }
    Ok(nodes)
}

/// The client of this number, with a keyring and its pen of a kit, or memory is wanting.
fn client<K: Kit>(
    alloc: Global,
    beginning: &Beginning,
    number: u8,
    kit: &K,
) -> Result<StandingClient<K::Keys, K::Pen>, NoMemory>
    requires { (1 ≤ number) × (number ≤ most_clients) }
    ensures { (faulty : List Party) → let s = setup_of beginning.now faulty (K.value kit.now) in
        IfOk result (λ node. HoldsAs s number node (first_client s number)) }
{
    let own = equip(kit, Party::Client { number })?;
    Ok(StandingClient::new(alloc, beginning.cluster, number, own.keys, own.pen))
}

/// The clients of a cluster, from client 1 on.
fn all_clients<K: Kit>(
    alloc: Global,
    beginning: &Beginning,
    kit: &K,
) -> Result<Vec<StandingClient<K::Keys, K::Pen>>, NoMemory>
    ensures { (faulty : List Party) → let s = setup_of beginning.now faulty (K.value kit.now) in
        IfOk result (λ nodes. AreCallers s nodes.items (first_clients s most_clients)) }
{
    let mut nodes = Vec::new(alloc);
    for place in 0..MOST_CLIENTS {
        nodes.push(client(alloc, beginning, place + 1, kit)?)?;
    }
    Ok(nodes)
}

/// A party gets its pen of a kit, if it is faulty.
fn add_pen<K: Kit>(
    pens: &mut Pens<K::Pen>,
    party: Party,
    faulty: &Faulty,
    kit: &K,
) -> Result<(), NoMemory>
    ensures { (s : Setup) → s.kit ≡ K.value kit.now →
        OnOk result (AddsPens K.Pen.Signer s faulty.now (party ∷ []) pens.old pens.new) }
{
    if faulty.has(party) {
        pens.add(party, kit.pen(party)?)?;
    }
    Ok(())
}

/// The faulty replicas of a shard get their pens.
fn add_shard_pens<K: Kit>(
    pens: &mut Pens<K::Pen>,
    cluster: &Cluster,
    shard: u8,
    faulty: &Faulty,
    kit: &K,
) -> Result<(), NoMemory>
    ensures { (s : Setup) → s.kit ≡ K.value kit.now →
        OnOk result (AddsPens K.Pen.Signer s faulty.now (parties_of_shard cluster.now shard) pens.old pens.new) }
{
    for index in 0..cluster.n() {
        add_pen(pens, Party::Replica { shard, index }, faulty, kit)?;
    }
    Ok(())
}

/// The faulty replicas of a cluster get their pens.
fn add_replica_pens<K: Kit>(
    pens: &mut Pens<K::Pen>,
    cluster: &Cluster,
    faulty: &Faulty,
    kit: &K,
) -> Result<(), NoMemory>
    ensures { (s : Setup) → s.kit ≡ K.value kit.now → OnOk result
        (AddsPens K.Pen.Signer s faulty.now (parties_of_shards cluster.now cluster.now.shards) pens.old pens.new) }
{
    for shard in 0..cluster.shards {
        add_shard_pens(pens, cluster, shard, faulty, kit)?;
    }
    Ok(())
}

/// The faulty clients get their pens.
fn add_client_pens<K: Kit>(
    pens: &mut Pens<K::Pen>,
    faulty: &Faulty,
    kit: &K,
) -> Result<(), NoMemory>
    ensures { (s : Setup) → s.kit ≡ K.value kit.now →
        OnOk result (AddsPens K.Pen.Signer s faulty.now (client_parties most_clients) pens.old pens.new) }
{
    for place in 0..MOST_CLIENTS {
        add_pen(pens, Party::Client { number: place + 1 }, faulty, kit)?;
    }
    Ok(())
}

/// The pens of the faulty parties, who are all of the cluster.
fn all_pens<K: Kit>(
    alloc: Global,
    cluster: &Cluster,
    faulty: &Faulty,
    kit: &K,
) -> Result<Pens<K::Pen>, NoMemory>
    requires { AreMembers cluster.now faulty.now }
    ensures { (s : Setup) → s.kit ≡ K.value kit.now → s.faulty ≡ faulty.now →
        IfOk result (λ pens. LiesAs K.Pen.Signer pens s []) }
{
    let mut pens = Pens::new(alloc);
    add_replica_pens(&mut pens, cluster, faulty, kit)?;
    add_client_pens(&mut pens, faulty, kit)?;
    Ok(pens)
}

/// A world before its first event, or memory is wanting: every replica's clock stands at the first moment, nothing was
/// signed, sent or seen, and every keyring and every pen is the kit's. The faulty parties are of the cluster; each of
/// them has a pen with which it lies.
pub fn begin_engine<K: Kit>(
    alloc: Global,
    beginning: Beginning,
    faulty: Faulty,
    kit: &K,
) -> Result<Engine<K::Keys, K::Pen>, NoMemory>
    requires members { AreMembers beginning.cluster faulty }
    ensures { IfOk result (λ engine. let s = setup_of beginning faulty (K.value kit.now) in Shows s engine (start s)) }
{
    let replicas = all_replicas(alloc, &beginning, kit)?;
    let clients = all_clients(alloc, &beginning, kit)?;
    let pens = all_pens(alloc, &beginning.cluster, &faulty, kit)?;
    let keys = kit.keys()?;
    Ok(Engine {
        alloc,
        cluster: beginning.cluster,
        sight: Sight::new(alloc, beginning.cluster, faulty, keys),
        pens,
        replicas,
        clients,
        begun: Vec::new(alloc),
        pool: Pool::new(alloc, beginning.limits),
        refused: None,
    })
}

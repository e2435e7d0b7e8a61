//! A node by its file.

ghost use Rattle.std.specs.Prelude.{◌≡◌, ◌≤◌, true, false, Ok, IfOk, IfErr, OnOk};
ghost use Rattle.basil_types.specs.Causes.{Rose};
ghost use Rattle.node_link.specs.Connections.{Node};
ghost use Rattle.party_seat.specs.Limits.{most_connections};
ghost use Rattle.party_seat.specs.Serving.{Begins, HasFinished, HasStopped, IsOutside, Refuses, is_seatless};
ghost use Rattle.party_seat.specs.Serving.{serves_at, stop_of};
ghost use Rattle.party_seat.specs.Stations.{StandsAt, Station, station_in};

use crate::fault::NodeFault;
use crate::station::{NodeSeat, replica_of};
use basil_types::clock::Clock;
use basil_types::cluster::Cluster;
use basil_types::links::Links;
use basil_types::party::Party;
use cluster_file::ClusterFile;
use keyring::signer::Signer;
use keyring::verifier::Verifier;
use node_link::laws::signs_within_frames;
use node_link::serve;
use replica_core::Replica;
use std::alloc::Global;

/// Serves a replica at its station.
fn serve_at<V: Verifier, S: Signer, L: Links, C: Clock>(
    alloc: Global,
    replica: &mut Replica<V, S>,
    cluster: Cluster,
    address: &str,
    links: &mut L,
    clock: &mut C,
    connections: u64,
) -> Result<u64, NodeFault>
    requires { connections ≤ most_connections }
    ensures all { (s : Station) (n : Node) → StandsAt replica.old cluster address.now s →
        Begins s (C.moments clock.old) (L.told links.old) n → (Rose (L.faults links.old) (L.faults links.new) → ⊥) →
        IfOk result (λ count. IsOutside (C.moments clock.new) (L.told links.new) count (serves_at s connections n)) }
    ensures some { (s : Station) (n : Node) → StandsAt replica.old cluster address.now s →
        Begins s (C.moments clock.old) (L.told links.old) n → IfOk result (λ count.
        HasFinished s connections n (C.moments clock.new) (L.told links.new) count
        (L.faults links.old) (L.faults links.new)) }
    ensures stands { (s : Station) (n : Node) → StandsAt replica.old cluster address.now s →
        Begins s (C.moments clock.old) (L.told links.old) n →
        HasStopped s connections n (C.moments clock.new) (L.told links.new)
        (L.faults links.old) (L.faults links.new) (stop_of result) }
    ensures seated { IfErr result (λ fault. is_seatless fault ≡ false) }
    ensures fault { result ≡ Err NodeFault.LinkFault → Rose (L.faults links.old) (L.faults links.new) }
    ensures faults { L.faults links.old ≤ L.faults links.new }
{
    signs_within_frames();
    match serve(alloc, replica, cluster, address, links, clock, connections) {
        Ok(frames) => Ok(frames),
        Err(fault) => Err(NodeFault::from(fault)),
    }
}

/// Serves the replica of a seat of the file: it listens at the file's address and accepts so many connections, at most
/// 1,000,000, one after another, as `node_link::serve` does. Answers how many frames the replica was handed, those that
/// it refused too; it used at most as many leaves of its key.
///
/// - `WrongKey` where the file doesn't list the replica, or its seed doesn't give the listed public key.
/// - `WrongLeaf` where the first leaf is beyond the leaves of its tree, tested after the key.
/// - `LinkFault` where the links fail to listen or to accept; a read or a write that fails ends its connection alone.
pub fn serve_seat<L: Links, C: Clock>(
    alloc: Global,
    file: &ClusterFile,
    seat: &NodeSeat,
    links: &mut L,
    clock: &mut C,
    connections: u64,
) -> Result<u64, NodeFault>
    requires { connections ≤ most_connections }
    ensures all { (s : Station) (n : Node) → station_in file.now seat.now ≡ Ok s →
        Begins s (C.moments clock.old) (L.told links.old) n → (Rose (L.faults links.old) (L.faults links.new) → ⊥) →
        IfOk result (λ count. IsOutside (C.moments clock.new) (L.told links.new) count (serves_at s connections n)) }
    ensures some { (s : Station) (n : Node) → station_in file.now seat.now ≡ Ok s →
        Begins s (C.moments clock.old) (L.told links.old) n → IfOk result (λ count.
        HasFinished s connections n (C.moments clock.new) (L.told links.new) count
        (L.faults links.old) (L.faults links.new)) }
    ensures stands { (s : Station) (n : Node) → station_in file.now seat.now ≡ Ok s →
        Begins s (C.moments clock.old) (L.told links.old) n →
        HasStopped s connections n (C.moments clock.new) (L.told links.new)
        (L.faults links.old) (L.faults links.new) (stop_of result) }
    ensures seated { OnOk result ((s : Station) × station_in file.now seat.now ≡ Ok s) }
    ensures refused { IfErr result (λ fault. Refuses fault (station_in file.now seat.now)) }
    ensures idle { IfErr (station_in file.now seat.now) (λ _. links.new ≡ links.old) }
    ensures still { IfErr (station_in file.now seat.now) (λ _. clock.new ≡ clock.old) }
    ensures fault { result ≡ Err NodeFault.LinkFault → Rose (L.faults links.old) (L.faults links.new) }
    ensures faults { L.faults links.old ≤ L.faults links.new }
{
    let party = Party::Replica {
        shard: seat.shard,
        index: seat.index,
    };
    let Some(address) = file.address(party) else {
        return Err(NodeFault::WrongKey);
    };
    match replica_of(alloc, file, seat) {
        Ok(seated) => {
            let mut replica = seated;
            serve_at(
                alloc,
                &mut replica,
                file.cluster,
                address,
                links,
                clock,
                connections,
            )
        }
        Err(fault) => Err(NodeFault::from(fault)),
    }
}

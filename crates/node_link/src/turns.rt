//! A node that serves connections.

ghost use Rattle.std.specs.Prelude.{◌≡◌, ◌+◌, ◌^◌, ◌<◌, ◌≤◌, ℕ, IfErr, IfOk, OnOk, Some};
ghost use Rattle.basil_types.specs.Causes.{Rose};
ghost use Rattle.node_link.specs.Asking.{RoseBy};
ghost use Rattle.node_link.specs.Connections.{Finished, HasListened, IsNode, Node, ServesNext, Stopped, StopsAt};
ghost use Rattle.node_link.specs.Connections.{failed_outside, listening, serves_connections};
ghost use Rattle.replica_core.specs.Shown.{own};

use crate::connection::converse;
use crate::fault::ServeFault;
use crate::reader::CONNECTION_LIMIT;
use basil_types::clock::Clock;
use basil_types::cluster::Cluster;
use basil_types::links::{LinkFail, Links};
use keyring::signer::Signer;
use keyring::verifier::Verifier;
use replica_core::Replica;
use std::alloc::Global;

/// Accepts the next connection, serves it, and counts its frames; or the accept fails, or memory is wanting. A call of
/// the connection that fails ends it alone.
fn serve_next<V: Verifier, S: Signer, L: Links, C: Clock>(
    alloc: Global,
    cluster: Cluster,
    replica: &mut Replica<V, S>,
    links: &mut L,
    clock: &mut C,
    frames: &mut u64,
) -> Result<(), ServeFault>
    requires { frames.old + CONNECTION_LIMIT < 2 ^ 64 }
    ensures some { (n : Node) → IsNode replica.old (C.moments clock.old) (L.told links.old) frames.old n →
        OnOk result ((m : Node) × (failed : ℕ) × ServesNext cluster (own replica.old) n m 0 failed
        × IsNode replica.new (C.moments clock.new) (L.told links.new) frames.new m
        × RoseBy failed (L.faults links.old) (L.faults links.new)) }
    ensures stopped { (n : Node) → IsNode replica.old (C.moments clock.old) (L.told links.old) frames.old n →
        IfErr result (λ fault. (m : Node) × StopsAt cluster (own replica.old) n m 1 (Some fault)
        × IsNode replica.new (C.moments clock.new) (L.told links.new) frames.new m
        × RoseBy (failed_outside (Some fault)) (L.faults links.old) (L.faults links.new)) }
    ensures fault { result ≡ Err ServeFault.LinkFault → Rose (L.faults links.old) (L.faults links.new) }
    ensures few { frames.new ≤ frames.old + CONNECTION_LIMIT }
    ensures own { own replica.new ≡ own replica.old }
    ensures faults { L.faults links.old ≤ L.faults links.new }
{
    match links.accept() {
        Ok(()) => match converse(alloc, cluster, replica, links, clock, frames) {
            Ok(()) => Ok(()),
            Err(LinkFail::Failed) => Ok(()),
            Err(LinkFail::NoMemory) => Err(ServeFault::NoMemory),
        },
        Err(fail) => Err(ServeFault::from(fail)),
    }
}

/// Serves so many connections, one after another, and answers how many frames the replica was handed.
fn serve_each<V: Verifier, S: Signer, L: Links, C: Clock>(
    alloc: Global,
    cluster: Cluster,
    replica: &mut Replica<V, S>,
    links: &mut L,
    clock: &mut C,
    connections: u64,
) -> Result<u64, ServeFault>
    requires { connections ≤ 1000000 }
    ensures some { (n : Node) → IsNode replica.old (C.moments clock.old) (L.told links.old) 0 n →
        IfOk result (λ count. Finished replica.new (C.moments clock.new) (L.told links.new) count cluster
        (own replica.old) connections n (L.faults links.old) (L.faults links.new)) }
    ensures stopped { (n : Node) → IsNode replica.old (C.moments clock.old) (L.told links.old) 0 n →
        IfErr result (λ fault. Stopped replica.new (C.moments clock.new) (L.told links.new) cluster
        (own replica.old) connections n (L.faults links.old) (L.faults links.new) fault) }
    ensures fault { result ≡ Err ServeFault.LinkFault → Rose (L.faults links.old) (L.faults links.new) }
    ensures own { own replica.new ≡ own replica.old }
    ensures faults { L.faults links.old ≤ L.faults links.new }
{
    let mut frames = 0u64;
    let mut turn = 0u64;
    while turn < connections {
        match serve_next(alloc, cluster, replica, links, clock, &mut frames) {
            Ok(()) => turn += 1,
            Err(fault) => return Err(fault),
        }
    }
    Ok(frames)
}

/// Serves a replica: listens at the address and accepts so many connections, at most 1,000,000, one after another. On
/// each it handles the envelopes that the bytes hold, each frame at the clock's next moment, and writes the answers,
/// until the peer closes it, a read or a write of it fails, or the rules end it. A read or a write that fails ends no
/// other connection. Answers how many frames the replica was handed, those that it refused too. A failing listen or
/// accept is LinkFault. What was handled before a fault, or before memory was wanting, stands.
pub fn serve<V: Verifier, S: Signer, L: Links, C: Clock>(
    alloc: Global,
    replica: &mut Replica<V, S>,
    cluster: Cluster,
    address: &str,
    links: &mut L,
    clock: &mut C,
    connections: u64,
) -> Result<u64, ServeFault>
    requires { connections ≤ 1000000 }
    ensures all { (n : Node) → IsNode replica.old (C.moments clock.old) (L.told links.old) 0 n →
        (Rose (L.faults links.old) (L.faults links.new) → ⊥) →
        IfOk result (λ count. IsNode replica.new (C.moments clock.new) (L.told links.new) count
        (serves_connections connections cluster (own replica.old) (listening address.now n))) }
    ensures some { (n : Node) → IsNode replica.old (C.moments clock.old) (L.told links.old) 0 n →
        IfOk result (λ count. Finished replica.new (C.moments clock.new) (L.told links.new) count cluster
        (own replica.old) connections (listening address.now n) (L.faults links.old) (L.faults links.new)) }
    ensures stopped { (n : Node) → IsNode replica.old (C.moments clock.old) (L.told links.old) 0 n →
        IfErr result (λ fault. (start : Node) × HasListened address.now n start × Stopped replica.new
        (C.moments clock.new) (L.told links.new) cluster (own replica.old) connections start
        (L.faults links.old) (L.faults links.new) fault) }
    ensures fault { result ≡ Err ServeFault.LinkFault → Rose (L.faults links.old) (L.faults links.new) }
    ensures own { own replica.new ≡ own replica.old }
    ensures faults { L.faults links.old ≤ L.faults links.new }
{
    match links.listen(address) {
        Ok(()) => serve_each(alloc, cluster, replica, links, clock, connections),
        Err(fail) => Err(ServeFault::from(fail)),
    }
}

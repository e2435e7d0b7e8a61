//! What a file gives, or the first reason to refuse it.

ghost use Rattle.std.specs.Prelude.{◌≡◌, IfOk, IfErr, map, option_map, string_bytes, Ok, Some, None, if◌then◌else◌};
ghost use Rattle.cluster_file.specs.Seats.{seats_of};
ghost use Rattle.cluster_file.specs.Faults.{numbers_in, are_seated};
ghost use Rattle.cluster_file.specs.Listing.{addresses_of};
ghost use Rattle.cluster_file.specs.Text as texts;

use crate::draft::{Draft, Head, ReplicaText};
use crate::fault::{BAD_KEY, FileFault, REFUSED_CLUSTER, WRONG_PARTIES};
use crate::file::ClusterFile;
use crate::keys::read_publics;
use crate::seats::{Seat, are_distinct, are_whole, read_seats};
use basil_types::cluster::Cluster;
use basil_types::memory::NoMemory;
use std::alloc::Global;

/// The cluster of a file's numbers, or the first reason to refuse one of them.
fn cluster_of(head: &Head<'_>) -> Result<Cluster, u8>
    ensures { result ≡ numbers_in head.now }
{
    let f = head.f.small().ok_or(REFUSED_CLUSTER)?;
    let shards = head.shards.small().ok_or(REFUSED_CLUSTER)?;
    let reads = head.reads.small().ok_or(REFUSED_CLUSTER)?;
    match head.delta.value() {
        Some(delta) => Cluster::new(f, shards, reads, delta).map_err(|_| REFUSED_CLUSTER),
        None => match Cluster::new(f, shards, reads, 0) {
            Ok(_) => Err(WRONG_PARTIES),
            Err(_) => Err(REFUSED_CLUSTER),
        },
    }
}

/// The addresses of replicas.
fn copy_addresses(alloc: Global, replicas: &[ReplicaText<'_>]) -> Result<Vec<String>, NoMemory>
    ensures { IfOk result (λ addresses. map string_bytes addresses.items ≡ addresses_of replicas.now) }
{
    let mut addresses = Vec::new(alloc);
    for replica in replicas {
        addresses.push(String::from_str(alloc, replica.address)?)?;
    }
    Ok(addresses)
}

/// The seats of the replicas and then of the clients, if each party is one of the cluster's, none stands twice, and no
/// replica is missing; or want of memory.
fn read_placed<'a>(
    alloc: Global,
    draft: &Draft<'a>,
    cluster: &Cluster,
) -> Result<Option<Vec<Seat<'a>>>, NoMemory>
    ensures { IfOk result (λ seats. option_map (λ v. v.items) seats
        ≡ (if are_seated cluster.now (seats_of draft.now) then Some (seats_of draft.now) else None)) }
{
    let Some(seats) = read_seats(alloc, draft, cluster)? else {
        return Ok(None);
    };
    if !are_distinct(&seats) || !are_whole(&seats, cluster) {
        return Ok(None);
    }
    Ok(Some(seats))
}

/// What a file gives, or the first reason to refuse it; or want of memory.
pub(crate) fn judge(alloc: Global, draft: &Draft<'_>) -> Result<ClusterFile, FileFault>
    ensures found { IfOk result (λ file. texts.judged (Some draft.now) ≡ Ok file) }
    ensures refused { IfErr result (λ e. texts.Tells e (texts.judged (Some draft.now))) }
{
    let replicas = draft.replicas.as_slice();
    let cluster = match cluster_of(&draft.head) {
        Ok(cluster) => cluster,
        Err(reason) => return Err(FileFault::BadFile { reason }),
    };
    let Some(seats) = read_placed(alloc, draft, &cluster)? else {
        return Err(FileFault::BadFile {
            reason: WRONG_PARTIES,
        });
    };
    let Some(publics) = read_publics(alloc, &seats)? else {
        return Err(FileFault::BadFile { reason: BAD_KEY });
    };
    let addresses = copy_addresses(alloc, replicas)?;
    Ok(ClusterFile {
        cluster,
        set: draft.head.set,
        publics,
        addresses,
    })
}

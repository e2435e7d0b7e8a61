//! The parties of a file, each beside the text of its public key.

ghost use Rattle.std.specs.Prelude.{◌≡◌, ◌++◌, IfOk, true, map, option_map, Some, None, if◌then◌else◌};
ghost use Rattle.basil_types.specs.declared.party.Party.TheVariants.{Replica as replica};
ghost use Rattle.keyring_lms.specs.Replay as replay;
ghost use Rattle.cluster_file.specs.Seats as specs;
ghost use Rattle.cluster_file.specs.Seats.{replica_seat, client_seat, known_seat, are_known, seats_of};
ghost use Rattle.cluster_file.specs.Seats.{parties_of, all_below};

use crate::draft::{ClientText, Draft, ReplicaText};
use basil_types::cluster::Cluster;
use basil_types::limits::MOST_CLIENTS;
use basil_types::memory::NoMemory;
use basil_types::party::Party;
use std::alloc::Global;
use std::marker::Model;

/// A party, beside the text of its public key.
#[derive(Drop)]
pub(crate) struct Seat<'a> {
    pub(crate) party: Party,
    pub(crate) public: &'a str,
}

impl<'a> Model for Seat<'a> {
    ghost use Rattle.cluster_file.specs.Seats.{SeatValue, seat_made};

    ghost Value = { SeatValue };

    ghost view = { λ s. seat_made s.party s.public.now };
}

/// A replica's seat, if it is one of the cluster's.
fn seat_of_replica<'a>(replica: &ReplicaText<'a>, cluster: &Cluster) -> Option<Seat<'a>>
    ensures { result ≡ known_seat cluster.now (replica_seat replica.now) }
{
    let n = cluster.n();
    let shard = replica.shard.small()?;
    let index = replica.index.small()?;
    if shard < cluster.shards && index < n {
        Some(Seat {
            party: Party::Replica { shard, index },
            public: replica.public,
        })
    } else {
        None
    }
}

/// A client's seat, if it is one of the cluster's.
fn seat_of_client<'a>(client: &ClientText<'a>, cluster: &Cluster) -> Option<Seat<'a>>
    ensures { result ≡ known_seat cluster.now (client_seat client.now) }
{
    let number = client.number.small()?;
    if 1 <= number && number <= MOST_CLIENTS {
        Some(Seat {
            party: Party::Client { number },
            public: client.public,
        })
    } else {
        None
    }
}

/// Appends the seats of replicas; false where one isn't the cluster's.
fn add_replicas<'a>(
    seats: &mut Vec<Seat<'a>>,
    replicas: &[ReplicaText<'a>],
    cluster: &Cluster,
) -> Result<bool, NoMemory>
    ensures known { IfOk result (λ all. all ≡ are_known cluster.now (map replica_seat replicas.now)) }
    ensures added { IfOk result (λ all. all ≡ true
        → seats.new.items ≡ seats.old.items ++ map replica_seat replicas.now) }
{
    for replica in replicas {
        match seat_of_replica(replica, cluster) {
            Some(seat) => seats.push(seat)?,
            None => return Ok(false),
        }
    }
    Ok(true)
}

/// Appends the seats of clients; false where one isn't the cluster's.
fn add_clients<'a>(
    seats: &mut Vec<Seat<'a>>,
    clients: &[ClientText<'a>],
    cluster: &Cluster,
) -> Result<bool, NoMemory>
    ensures known { IfOk result (λ all. all ≡ are_known cluster.now (map client_seat clients.now)) }
    ensures added { IfOk result (λ all. all ≡ true
        → seats.new.items ≡ seats.old.items ++ map client_seat clients.now) }
{
    for client in clients {
        match seat_of_client(client, cluster) {
            Some(seat) => seats.push(seat)?,
            None => return Ok(false),
        }
    }
    Ok(true)
}

/// The seats of the replicas and then of the clients, if each is one of the cluster's; or want of memory.
pub(crate) fn read_seats<'a>(
    alloc: Global,
    draft: &Draft<'a>,
    cluster: &Cluster,
) -> Result<Option<Vec<Seat<'a>>>, NoMemory>
    ensures { IfOk result (λ seats. option_map (λ v. v.items) seats
        ≡ (if are_known cluster.now (seats_of draft.now) then Some (seats_of draft.now) else None)) }
{
    let mut seats = Vec::new(alloc);
    if !add_replicas(&mut seats, &draft.replicas, cluster)? {
        return Ok(None);
    }
    if !add_clients(&mut seats, &draft.clients, cluster)? {
        return Ok(None);
    }
    Ok(Some(seats))
}

/// Whether a party is among the seats.
fn is_listed(seats: &[Seat<'_>], party: Party) -> bool
    ensures { result ≡ replay.is_listed (parties_of seats.now) party }
{
    for seat in seats {
        if seat.party == party {
            return true;
        }
    }
    false
}

/// Whether no party has two seats.
pub(crate) fn are_distinct(seats: &[Seat<'_>]) -> bool
    ensures { result ≡ specs.are_distinct (parties_of seats.now) }
{
    for (place, seat) in seats.iter().enumerate() {
        if is_listed(&seats[place + 1..], seat.party) {
            return false;
        }
    }
    true
}

/// Whether each of the `n` replicas of a shard has a seat.
fn is_whole_shard(seats: &[Seat<'_>], shard: u8, n: u8) -> bool
    ensures { result ≡ all_below (λ index. replay.is_listed (parties_of seats.now) (replica shard index)) n }
{
    for index in 0..n {
        if !is_listed(seats, Party::Replica { shard, index }) {
            return false;
        }
    }
    true
}

/// Whether every replica of every shard has a seat.
pub(crate) fn are_whole(seats: &[Seat<'_>], cluster: &Cluster) -> bool
    ensures { result ≡ specs.are_whole cluster.now (parties_of seats.now) }
{
    let n = cluster.n();
    for shard in 0..cluster.shards {
        if !is_whole_shard(seats, shard, n) {
            return false;
        }
    }
    true
}

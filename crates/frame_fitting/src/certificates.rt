//! Room for certificates.

ghost use Rattle.std.specs.Prelude.{◌≡◌, OnSome, map, option_map, true};
ghost use Rattle.basil_types.specs.Transaction.{IsTransaction};
ghost use Rattle.frame_views.specs.Fitting.{bounds_of, is_commit};
ghost use Rattle.frame_views.specs.Values as values;
ghost use Rattle.frame_fitting.specs.Known.{KnownBody, KnownCommitted, KnownPrepared};
ghost use Rattle.frame_values.specs.Owned.{vote_value, log_value, body_value, commit_value, certificate_value};
ghost use Rattle.frame_values.specs.Owned.{committed_value};
ghost use Rattle.frame_fitting.specs.Room as rooms;
ghost use Rattle.frame_fitting.specs.Room.{part_room, ◌⨾◌};

use super::fields::{
    decision_room, id_room, long_room, number_room, signature_room, spent, transaction_room,
};
use super::lists::{logs_room, tallies_room, votes_room};
use basil_types::cluster::Cluster;
use basil_types::party::Decision;
use basil_types::transaction::Transaction;
use frame_values::owned::{Certificate, CertificateBody, CommittedPart, LogPart, VotePart};

/// Log replies: shard, decision, the view in which it was decided, and the replies.
#[tactic(auto, unfolding(crate::specs::Room::logged_room))]
fn logged_room(
    cluster: &Cluster,
    shard: u8,
    decision: Decision,
    decided: u64,
    logs: &[LogPart],
    room: usize,
) -> Option<usize>
    ensures { result ≡ rooms.logged_room (bounds_of cluster.now) (record {
      shard = shard;
      decision = decision;
      decided = decided;
      logs = map log_value logs.now;
    }) room }
{
    let room = number_room(cluster.shards, 0, shard, room)?;
    let room = decision_room(decision, room)?;
    let room = long_room(0, decided, room)?;
    logs_room(cluster, decided, logs, room)
}

/// A certificate of a kind that may commit: kind, id and body.
#[tactic(auto, unfolding(crate::specs::Room::commit_room, crate::specs::Room::id_room))]
fn commit_room(cluster: &Cluster, certificate: &Certificate, room: usize) -> Option<usize>
    ensures { result
        ≡ rooms.commit_room (bounds_of cluster.now) (commit_value certificate.now.id certificate.now.body) room }
{
    match &certificate.body {
        CertificateBody::FastCommit { tallies } => {
            let room = id_room(&certificate.id, room)?;
            tallies_room(cluster, tallies.as_slice(), spent(1, room)?)
        }
        CertificateBody::Logged {
            shard,
            decision,
            decided,
            logs,
        } => {
            let room = id_room(&certificate.id, room)?;
            let room = spent(1, room)?;
            logged_room(cluster, *shard, *decision, *decided, logs.as_slice(), room)
        }
        CertificateBody::FastAbort { .. } | CertificateBody::ConflictAbort { .. } => None,
    }
}

/// A transaction, and its certificate of a kind that may commit.
fn proof_room(
    cluster: &Cluster,
    transaction: &Transaction,
    certificate: &Certificate,
    room: usize,
) -> Option<usize>
    ensures value { result ≡ (rooms.transaction_room transaction.now
        ⨾ rooms.commit_room (bounds_of cluster.now) (commit_value certificate.now.id certificate.now.body)) room }
    ensures known { IsTransaction transaction.now }
{
    let room = transaction_room(&transaction.view(), room)?;
    commit_room(cluster, certificate, room)
}

/// Abort votes of one shard.
#[tactic(auto, unfolding(crate::specs::Room::tally_room))]
fn fast_abort_room(cluster: &Cluster, shard: u8, votes: &[VotePart], room: usize) -> Option<usize>
    ensures { result ≡ rooms.tally_room (bounds_of cluster.now) 0 (record {
      shard = shard;
      votes = map vote_value votes.now;
    }) room }
{
    let room = number_room(cluster.shards, 0, shard, room)?;
    votes_room(cluster, votes, room)
}

/// The vote of a conflict abort.
#[tactic(auto, unfolding(crate::specs::Room::conflict_vote_room))]
fn conflict_room(
    cluster: &Cluster,
    shard: u8,
    replica: u8,
    signature: &[u8],
    room: usize,
) -> Option<usize>
    ensures { result ≡ rooms.conflict_vote_room (bounds_of cluster.now) shard replica signature.now room }
{
    let room = number_room(cluster.shards, 0, shard, room)?;
    let room = number_room(cluster.n(), 0, replica, room)?;
    signature_room(signature, room)
}

#[tactic(auto, unfolding(crate::specs::Room::conflict_room))]
fn body_room(cluster: &Cluster, body: &CertificateBody, room: usize) -> Option<usize>
    ensures value { result ≡ rooms.body_room (bounds_of cluster.now) (body_value body.now) room }
    ensures known { OnSome result (KnownBody (body_value body.now)) }
{
    match body {
        CertificateBody::FastCommit { tallies } => {
            tallies_room(cluster, tallies.as_slice(), room)
        }
        CertificateBody::Logged {
            shard,
            decision,
            decided,
            logs,
        } => logged_room(cluster, *shard, *decision, *decided, logs.as_slice(), room),
        CertificateBody::FastAbort { shard, votes } => {
            fast_abort_room(cluster, *shard, votes.as_slice(), room)
        }
        CertificateBody::ConflictAbort {
            shard,
            replica,
            signature,
            other,
            proof,
        } => {
            let room = conflict_room(cluster, *shard, *replica, signature.as_slice(), room)?;
            proof_room(cluster, other, proof, room)
        }
    }
}

/// A certificate: kind, id and body.
#[tactic(auto, unfolding(crate::specs::Room::certificate_room))]
pub(super) fn certificate_room(
    cluster: &Cluster,
    certificate: &Certificate,
    room: usize,
) -> Option<usize>
    ensures value { result ≡ rooms.certificate_room (bounds_of cluster.now) (certificate_value certificate.now) room }
    ensures known { OnSome result (KnownBody (certificate_value certificate.now).body) }
{
    let room = spent(1, room)?;
    let room = id_room(&certificate.id, room)?;
    body_room(cluster, &certificate.body, room)
}

/// Whether a certificate is of a kind that may commit.
fn may_commit(body: &CertificateBody) -> bool
    ensures { result ≡ is_commit (body_value body.now) }
{
    match body {
        CertificateBody::FastCommit { .. } | CertificateBody::Logged { .. } => true,
        CertificateBody::FastAbort { .. } | CertificateBody::ConflictAbort { .. } => false,
    }
}

/// A committed transaction and its certificate.
#[tactic(auto, unfolding(crate::specs::Room::committed_room))]
fn pair_room(cluster: &Cluster, part: &CommittedPart, room: usize) -> Option<usize>
    ensures value { result ≡ rooms.committed_room (bounds_of cluster.now) (committed_value part.now) room }
    ensures known { OnSome result
        (IsTransaction part.now.transaction × KnownBody (certificate_value part.now.certificate).body) }
{
    if may_commit(&part.certificate.body) {
        let room = transaction_room(&part.transaction.view(), room)?;
        certificate_room(cluster, &part.certificate, room)
    } else {
        None
    }
}

/// A committed transaction behind a flag, only where this is allowed.
pub(super) fn committed_room(
    cluster: &Cluster,
    allowed: bool,
    part: &Option<CommittedPart>,
    room: usize,
) -> Option<usize>
    ensures value { result
        ≡ part_room allowed (rooms.committed_room (bounds_of cluster.now)) (option_map committed_value part.now) room }
    ensures known { OnSome result (KnownCommitted (option_map committed_value part.now)) }
{
    match part {
        None => spent(1, room),
        Some(part) => {
            if allowed {
                pair_room(cluster, part, spent(1, room)?)
            } else {
                None
            }
        }
    }
}

/// A prepared transaction behind a flag.
pub(super) fn prepared_room(part: &Option<Transaction>, room: usize) -> Option<usize>
    ensures value { result ≡ part_room true rooms.transaction_room part.now room }
    ensures known { OnSome result (KnownPrepared part.now) }
{
    match part {
        None => spent(1, room),
        Some(part) => transaction_room(&part.view(), spent(1, room)?),
    }
}

//! Certificates of votes.

ghost use Rattle.std.specs.Prelude.{◌≡◌, IfOk, Some, option_map};
ghost use Rattle.basil_types.specs.Transaction as transactions;
ghost use Rattle.basil_types.specs.Transaction.{TransactionValue};
ghost use Rattle.frame_values.specs.Owned.{certificate_value};
ghost use Rattle.frame_views.specs.Shown.{voted_of, committed_of};
ghost use Rattle.client_recover.specs.Certifying.{conflict_by, conflict_with};
ghost use Rattle.client_recover.specs.Kept.{fast_by, fast_commit_by, fast_abort_of};

use crate::tallies::{tallies, tally};
use crate::votes::Votes;
use basil_types::bytes::Bytes;
use basil_types::cluster::Cluster;
use basil_types::memory::NoMemory;
use basil_types::party::Decision;
use frame_values::decoding::own_certificate;
use frame_values::owned::{Certificate, CertificateBody};
use frame_views::frames::{CommittedView, VoteView};
use std::alloc::Global;

/// A fast commit, where each of these shards voted so.
fn fast_commit(
    alloc: Global,
    cluster: &Cluster,
    id: &[u8; 32],
    shards: &[u8],
    votes: &Votes,
) -> Result<Option<Certificate>, NoMemory>
    ensures { IfOk result (λ o.
        option_map certificate_value o ≡ fast_commit_by cluster.now id.now shards.now votes.now) }
{
    let needed = cluster.fast_commit();
    if !votes.each_enough(shards, Decision::Commit, needed) {
        return Ok(None);
    }
    let tallies = tallies(
        alloc,
        cluster,
        shards,
        votes.as_slice(),
        Decision::Commit,
        needed,
    )?;
    Ok(Some(Certificate {
        id: *id,
        body: CertificateBody::FastCommit { tallies },
    }))
}

/// A fast abort of this shard, where there is one.
fn fast_abort(
    alloc: Global,
    cluster: &Cluster,
    id: &[u8; 32],
    votes: &Votes,
    lowest: Option<u8>,
) -> Result<Option<Certificate>, NoMemory>
    ensures { IfOk result (λ o.
        option_map certificate_value o ≡ fast_abort_of cluster.now id.now votes.now lowest) }
{
    match lowest {
        Some(shard) => {
            let needed = cluster.fast_abort();
            let tally = tally(
                alloc,
                cluster,
                votes.as_slice(),
                Decision::Abort,
                needed,
                shard,
            )?;
            Ok(Some(Certificate {
                id: *id,
                body: CertificateBody::FastAbort {
                    shard: tally.shard,
                    votes: tally.votes,
                },
            }))
        }
        None => Ok(None),
    }
}

/// What the votes of these shards decide: a fast commit, else a fast abort of the lowest shard that has one.
pub(crate) fn fast(
    alloc: Global,
    cluster: &Cluster,
    id: &[u8; 32],
    shards: &[u8],
    votes: &Votes,
) -> Result<Option<Certificate>, NoMemory>
    ensures { IfOk result (λ o. option_map certificate_value o ≡ fast_by cluster.now id.now shards.now votes.now) }
{
    match fast_commit(alloc, cluster, id, shards, votes)? {
        Some(certificate) => Ok(Some(certificate)),
        None => {
            let lowest = votes.lowest_enough(shards, Decision::Abort, cluster.fast_abort());
            fast_abort(alloc, cluster, id, votes, lowest)
        }
    }
}

/// The certificate of a vote to abort and of its proof, a rival that is committed.
fn conflict_with(
    alloc: Global,
    id: &[u8; 32],
    vote: &VoteView<'_>,
    rival: &CommittedView<'_>,
) -> Result<Certificate, NoMemory>
    ensures { (t : TransactionValue) → id.now ≡ transactions.id t → IfOk result (λ c.
        certificate_value c ≡ conflict_with t (voted_of vote.now) (committed_of rival.now)) }
{
    let proof = own_certificate(alloc, &rival.certificate)?;
    Ok(Certificate {
        id: *id,
        body: CertificateBody::ConflictAbort {
            shard: vote.shard,
            replica: vote.replica,
            signature: Bytes::copy_of(alloc, vote.signature)?,
            other: rival.transaction.try_owned(alloc)?,
            proof: Box::new(alloc, proof)?,
        },
    })
}

/// What a vote with a proof decides.
pub(crate) fn conflict(
    alloc: Global,
    id: &[u8; 32],
    vote: &VoteView<'_>,
) -> Result<Option<Certificate>, NoMemory>
    ensures { (t : TransactionValue) → id.now ≡ transactions.id t → IfOk result (λ o.
        option_map certificate_value o ≡ conflict_by t (voted_of vote.now)) }
{
    match vote.proof {
        Some(rival) => Ok(Some(conflict_with(alloc, id, vote, &rival)?)),
        None => Ok(None),
    }
}

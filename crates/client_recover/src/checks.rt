//! Which frames a client takes for a transaction that it pursues.

ghost use Rattle.std.specs.Prelude.{◌≡◌, Bool, option_map, option_and_then};
ghost use Rattle.basil_types.specs.Refusals.{Refuses};
ghost use Rattle.basil_types.specs.Shown.{transaction_of};
ghost use Rattle.certificates.specs.Deciding.{HasGoodForm};
ghost use Rattle.certificates.specs.declared.fault.FrameFault.TheVariants as faults;
ghost use Rattle.certificates.specs.Refusals.{proof_refusal};
ghost use Rattle.frame_views.specs.Fitting.{FitsVoted, FitsWriteback, bounds_of};
ghost use Rattle.frame_views.specs.Shown.{voted_of, log_reply_of, writeback_of, committed_of};
ghost use Rattle.frame_views.specs.Signed.{vote_signed, log_signed};
ghost use Rattle.node_steps.specs.Refusing.{needs};
ghost use Rattle.client_recover.specs.Counting.{as_vote};
ghost use Rattle.client_recover.specs.Faults.{not_accepted, vote_fault, log_fault, writeback_fault};
ghost use Rattle.client_recover.specs.Pursuits.{as_reply};

use basil_types::cluster::Cluster;
use basil_types::party::{Decision, Party};
use basil_types::transaction::TransactionView;
use basil_types::words::Words;
use certificates::{FrameFault, check_abort, check_commit, check_proof, decision_of};
use frame_views::frames::{LogReplyView, VoteView, WritebackView};
use keyring::verifier::Verifier;
use txn_meta::places::log_shard;
use txn_meta::shards::is_involved;

/// Refuses what answers nothing that was asked for.
fn mine(answers: bool) -> Result<(), FrameFault>
    ensures { Refuses result (needs answers faults.NotMine) }
{
    if answers {
        Ok(())
    } else {
        Err(FrameFault::NotMine)
    }
}

/// Refuses a signature that isn't accepted.
fn signed(accepted: bool) -> Result<(), FrameFault>
    ensures { Refuses result (needs accepted faults.BadSignature) }
{
    if accepted {
        Ok(())
    } else {
        Err(FrameFault::BadSignature)
    }
}

/// Refuses a vote that the replica which it names didn't sign.
fn signed_vote<V: Verifier>(keys: &V, vote: &VoteView<'_>) -> Result<(), FrameFault>
    ensures { Refuses result (not_accepted (V.accepted keys.now) (vote_signed (voted_of vote.now).shard
        (voted_of vote.now).id (voted_of vote.now).decision (as_vote (voted_of vote.now)))) }
{
    let party = Party::Replica {
        shard: vote.shard,
        index: vote.replica,
    };
    let words = Words::vote(vote.shard, vote.replica, &vote.id, vote.decision);
    signed(keys.accepts(party, words.bytes(), vote.signature))
}

/// Refuses a vote whose proof shows no rival that is committed.
fn proven<V: Verifier>(
    keys: &V,
    cluster: &Cluster,
    t: TransactionView<'_>,
    vote: &VoteView<'_>,
) -> Result<(), FrameFault>
    requires { FitsVoted (bounds_of cluster.now) (voted_of vote.now) }
    ensures { Refuses result (option_map faults.BadCertificate
        (option_and_then (proof_refusal (V.accepted keys.now) cluster.now (transaction_of t.entry))
        (voted_of vote.now).proof)) }
{
    match vote.proof {
        Some(proof) => match check_proof(keys, cluster, t, &proof) {
            Ok(()) => Ok(()),
            Err(refusal) => Err(FrameFault::BadCertificate(refusal)),
        },
        None => Ok(()),
    }
}

/// The first fault of a vote on this transaction. Takes no memory.
pub(crate) fn check_vote<V: Verifier>(
    keys: &V,
    cluster: &Cluster,
    t: TransactionView<'_>,
    vote: &VoteView<'_>,
) -> Result<(), FrameFault>
    requires { FitsVoted (bounds_of cluster.now) (voted_of vote.now) }
    ensures { Refuses result
        (vote_fault (V.accepted keys.now) cluster.now (transaction_of t.entry) (voted_of vote.now)) }
{
    mine(is_involved(t, cluster, vote.shard))?;
    signed_vote(keys, vote)?;
    proven(keys, cluster, t, vote)
}

/// Refuses a log reply that the replica which it names didn't sign.
fn signed_log<V: Verifier>(keys: &V, reply: &LogReplyView<'_>) -> Result<(), FrameFault>
    ensures { Refuses result (not_accepted (V.accepted keys.now) (log_signed (log_reply_of reply.now).shard
        (log_reply_of reply.now).id (as_reply (log_reply_of reply.now)))) }
{
    let party = Party::Replica {
        shard: reply.shard,
        index: reply.replica,
    };
    let words = Words::log_reply(
        reply.shard,
        reply.replica,
        &reply.id,
        reply.decision,
        reply.decided,
        reply.current,
    );
    signed(keys.accepts(party, words.bytes(), reply.signature))
}

/// The first fault of a log reply on this transaction. Takes no memory.
pub(crate) fn check_log<V: Verifier>(
    keys: &V,
    cluster: &Cluster,
    t: TransactionView<'_>,
    reply: &LogReplyView<'_>,
) -> Result<(), FrameFault>
    requires { HasGoodForm (transaction_of t) }
    ensures { Refuses result
        (log_fault (V.accepted keys.now) cluster.now (transaction_of t.entry) (log_reply_of reply.now)) }
{
    mine(reply.shard == log_shard(t, cluster))?;
    signed_log(keys, reply)
}

/// The first fault of a writeback on this transaction. Takes no memory.
pub(crate) fn check_certificate<V: Verifier>(
    keys: &V,
    cluster: &Cluster,
    t: TransactionView<'_>,
    m: &WritebackView<'_>,
) -> Result<(), FrameFault>
    requires form { HasGoodForm (transaction_of t) }
    requires fits { FitsWriteback (bounds_of cluster.now) (writeback_of m.now) }
    ensures { Refuses result
        (writeback_fault (V.accepted keys.now) cluster.now (transaction_of t.entry) (writeback_of m.now)) }
{
    let checked = match decision_of(&m.certificate.body()) {
        Decision::Commit => check_commit(keys, cluster, t, &m.certificate),
        Decision::Abort => check_abort(keys, cluster, t, &m.certificate),
    };
    match checked {
        Ok(()) => Ok(()),
        Err(refusal) => Err(FrameFault::BadCertificate(refusal)),
    }
}

//! Second stages of faulty clients, with votes that are taken from a pool.

ghost use Rattle.std.specs.Prelude.{◌≡◌, ◌≤◌, ◌∷◌, [], false, IfOk, find, length, map};
ghost use Rattle.basil_types.specs.declared.party.Decision.TheVariants as decisions;
ghost use Rattle.basil_types.specs.declared.party.Party.TheVariants as parties;
ghost use Rattle.basil_types.specs.Shown.{transaction_of};
ghost use Rattle.basil_types.specs.Transaction as transactions;
ghost use Rattle.cluster_run.specs.Parts.{mail_from};
ghost use Rattle.cluster_run.specs.Faulty.{faulty_second};
ghost use Rattle.cluster_run.specs.States.{FormedValue, Setup, State};
ghost use Rattle.frame_values.specs.Owned.{tally_value};
ghost use Rattle.frame_views.specs.Fitting.{FitsTallies, FitsVotes, IsSignature, widest};
ghost use Rattle.frame_views.specs.Spelling.{spelling};
ghost use Rattle.frame_views.specs.Values.{St2};
ghost use Rattle.txn_meta.specs.Form.{is_empty};
ghost use Rattle.txn_meta.specs.Places.{members};
ghost use Rattle.faulty_parties.specs.Tallies.{is_enough, shard_in, tallies_in, tally_in};

use crate::listing::{all_heard, first_ones, listed, votes_of};
use crate::question::Question;
use basil_types::bytes::Bytes;
use basil_types::cluster::Cluster;
use basil_types::memory::NoMemory;
use basil_types::outbox::Envelope;
use basil_types::party::{Decision, Party};
use basil_types::transaction::TransactionView;
use frame_values::lending::St2Parts;
use frame_values::owned::ShardVotes;
use frame_writing::put_st2_parts;
use keyring::verifier::Verifier;
use message_pool::Pool;
use std::alloc::Global;
use txn_meta::places::log_shard;
use txn_meta::shards::{Shards, involved};

/// What a tally is of.
#[derive(Clone, Copy)]
struct Wanted {
    decision: Decision,
    needed: u8,
}

/// The votes of a shard on the transaction of this id for a decision, at most so many.
fn tally<V: Verifier>(
    alloc: Global,
    keys: &V,
    cluster: &Cluster,
    pool: &Pool,
    id: &[u8; 32],
    wanted: Wanted,
    shard: u8,
) -> Result<ShardVotes, NoMemory>
    ensures tally { IfOk result (λ t. tally_value t
        ≡ tally_in (V.accepted keys.now) cluster.now pool.now.posts id.now wanted.decision wanted.needed shard) }
    ensures fits { IfOk result (λ t. FitsVotes widest (tally_value t).votes) }
{
    let question = Question::Votes {
        shard,
        decision: wanted.decision,
    };
    let words = all_heard(alloc, keys, cluster, pool, id, question)?;
    let words = first_ones(words, wanted.needed);
    let words = listed(alloc, cluster, words.as_slice())?;
    let votes = votes_of(alloc, words)?;
    Ok(ShardVotes { shard, votes })
}

/// Whether the pool has enough votes of a shard to abort.
fn has_enough<V: Verifier>(
    alloc: Global,
    keys: &V,
    cluster: &Cluster,
    pool: &Pool,
    id: &[u8; 32],
    shard: u8,
) -> Result<bool, NoMemory>
    ensures { IfOk result (λ enough. enough ≡ is_enough (V.accepted keys.now) cluster.now pool.now.posts id.now shard) }
{
    let question = Question::Votes {
        shard,
        decision: Decision::Abort,
    };
    let words = all_heard(alloc, keys, cluster, pool, id, question)?;
    Ok(usize::from(cluster.abort_tally()) <= words.len())
}

/// The tallies for commit of all involved shards, ascending.
fn commit_tallies<V: Verifier>(
    alloc: Global,
    keys: &V,
    cluster: &Cluster,
    pool: &Pool,
    id: &[u8; 32],
    t: TransactionView<'_>,
) -> Result<Vec<ShardVotes>, NoMemory>
    requires { id.now ≡ transactions.id (transaction_of t) }
    ensures tallies { IfOk result (λ list. map tally_value list.items
        ≡ tallies_in (V.accepted keys.now) cluster.now pool.now.posts (transaction_of t.entry) decisions.Commit) }
    ensures fits { IfOk result (λ list. FitsTallies widest (map tally_value list.items)) }
{
    let shards = involved(t, cluster);
    let wanted = Wanted {
        decision: Decision::Commit,
        needed: cluster.commit_tally(),
    };
    let mut list = Vec::new(alloc);
    for place in 0..8u8 {
        match shards.nth(place) {
            Some(shard) => list.push(tally(alloc, keys, cluster, pool, id, wanted, shard)?)?,
            None => {}
        }
    }
    Ok(list)
}

/// The lowest of these shards with enough votes to abort.
fn lowest_enough<V: Verifier>(
    alloc: Global,
    keys: &V,
    cluster: &Cluster,
    pool: &Pool,
    id: &[u8; 32],
    shards: &Shards,
) -> Result<Option<u8>, NoMemory>
    requires { length (members shards.now) ≤ 8 }
    ensures { IfOk result (λ lowest. lowest
        ≡ find (is_enough (V.accepted keys.now) cluster.now pool.now.posts id.now) (members shards.now)) }
{
    for place in 0..8u8 {
        match shards.nth(place) {
            Some(shard) => {
                if has_enough(alloc, keys, cluster, pool, id, shard)? {
                    return Ok(Some(shard));
                }
            }
            None => {}
        }
    }
    Ok(None)
}

/// The lowest involved shard with enough votes to abort, or else the lowest involved one.
fn abort_shard<V: Verifier>(
    alloc: Global,
    keys: &V,
    cluster: &Cluster,
    pool: &Pool,
    id: &[u8; 32],
    t: TransactionView<'_>,
) -> Result<Option<u8>, NoMemory>
    requires { id.now ≡ transactions.id (transaction_of t) }
    ensures { IfOk result (λ shard. shard
        ≡ shard_in (V.accepted keys.now) cluster.now pool.now.posts (transaction_of t.entry)) }
{
    let shards = involved(t, cluster);
    match lowest_enough(alloc, keys, cluster, pool, id, &shards)? {
        Some(shard) => Ok(Some(shard)),
        None => Ok(shards.nth(0)),
    }
}

/// The tally for abort of one involved shard.
fn abort_tallies<V: Verifier>(
    alloc: Global,
    keys: &V,
    cluster: &Cluster,
    pool: &Pool,
    id: &[u8; 32],
    t: TransactionView<'_>,
) -> Result<Vec<ShardVotes>, NoMemory>
    requires { id.now ≡ transactions.id (transaction_of t) }
    ensures tallies { IfOk result (λ list. map tally_value list.items
        ≡ tallies_in (V.accepted keys.now) cluster.now pool.now.posts (transaction_of t.entry) decisions.Abort) }
    ensures fits { IfOk result (λ list. FitsTallies widest (map tally_value list.items)) }
{
    let wanted = Wanted {
        decision: Decision::Abort,
        needed: cluster.abort_tally(),
    };
    let mut list = Vec::new(alloc);
    match abort_shard(alloc, keys, cluster, pool, id, t)? {
        Some(shard) => list.push(tally(alloc, keys, cluster, pool, id, wanted, shard)?)?,
        None => {}
    }
    Ok(list)
}

/// The tallies of a second stage for a decision.
fn tallies<V: Verifier>(
    alloc: Global,
    keys: &V,
    cluster: &Cluster,
    pool: &Pool,
    t: TransactionView<'_>,
    decision: Decision,
) -> Result<Vec<ShardVotes>, NoMemory>
    ensures tallies { IfOk result (λ list. map tally_value list.items
        ≡ tallies_in (V.accepted keys.now) cluster.now pool.now.posts (transaction_of t.entry) decision) }
    ensures fits { IfOk result (λ list. FitsTallies widest (map tally_value list.items)) }
{
    let id = t.id();
    match decision {
        Decision::Commit => commit_tallies(alloc, keys, cluster, pool, &id, t),
        Decision::Abort => abort_tallies(alloc, keys, cluster, pool, &id, t),
    }
}

/// The frame of a second stage with these tallies.
fn second_frame(
    alloc: Global,
    t: TransactionView<'_>,
    signature: &[u8],
    decision: Decision,
    tallies: &[ShardVotes],
) -> Result<Vec<u8>, NoMemory>
    requires signed { IsSignature signature.now }
    requires fits { FitsTallies widest (map tally_value tallies.now) }
    ensures { IfOk result (λ frame. frame.items ≡ spelling (St2 (record {
      transaction = transaction_of t.entry;
      signature = signature.now;
      decision = decision;
      tallies = map tally_value tallies.now;
    }))) }
{
    let _ = t.bytes();
    let mut frame = Vec::new(alloc);
    let second = St2Parts {
        transaction: t,
        signature,
        decision,
        tallies,
    };
    put_st2_parts(&second, &mut frame)?;
    Ok(frame)
}

/// The second stage of a faulty client for its transaction, which isn't empty, with the signature that it gave the
/// first, to this replica of the log shard; or memory is wanting.
pub fn second<V: Verifier>(
    alloc: Global,
    keys: &V,
    cluster: &Cluster,
    pool: &Pool,
    t: TransactionView<'_>,
    signature: &[u8],
    decision: Decision,
    replica: u8,
) -> Result<Envelope, NoMemory>
    requires keys { is_empty (transaction_of t) ≡ false }
    requires signed { IsSignature signature.now }
    ensures { (s : Setup) (st : State) (f : FormedValue) → cluster.now ≡ s.cluster →
        V.accepted keys.now ≡ s.kit.accepts → pool.now.posts ≡ st.pool → transaction_of t.entry ≡ f.transaction →
        signature.now ≡ f.signature →
        IfOk result (λ e.
        faulty_second s f decision replica st ≡ mail_from (parties.Client f.transaction.client) e ∷ []) }
{
    let list = tallies(alloc, keys, cluster, pool, t, decision)?;
    let frame = second_frame(alloc, t, signature, decision, list.as_slice())?;
    let to = Party::Replica {
        shard: log_shard(t, cluster),
        index: replica,
    };
    Ok(Envelope {
        to,
        frame: Bytes::from_vec(frame),
    })
}

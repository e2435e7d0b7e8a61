//! Proposals of faulty leaders, with election words that are taken from a pool.

ghost use Rattle.std.specs.Prelude.{◌≡◌, ◌≤◌, [], IfOk, map};
ghost use Rattle.basil_types.specs.Limits.{signature_limit};
ghost use Rattle.basil_types.specs.Shown.{transaction_of};
ghost use Rattle.basil_types.specs.Transaction as transactions;
ghost use Rattle.cluster_run.specs.Faulty.{words_from};
ghost use Rattle.cluster_run.specs.States.{Setup, State};
ghost use Rattle.frame_values.specs.Owned.{word_value};
ghost use Rattle.frame_views.specs.Fitting.{AreCounted, FitsWord, after_word, widest};
ghost use Rattle.frame_writing.specs.Unsigned.{unsigned_decide};
ghost use Rattle.faulty_parties.specs.Lies.{CanBeSaid, Says};
ghost use Rattle.faulty_parties.specs.Tallies.{words_in};
ghost use Rattle.faulty_parties.specs.Unsaid.{proposed, unsaid_proposal};

use crate::hearing::hear;
use crate::lie::Lie;
use crate::listing::{first_ones, listed};
use crate::place::Place;
use crate::question::Question;
use basil_types::cluster::Cluster;
use basil_types::memory::NoMemory;
use basil_types::party::{Decision, Party};
use basil_types::transaction::TransactionView;
use basil_types::words::Words;
use frame_values::lending::DecideParts;
use frame_values::owned::ElectPart;
use frame_writing::{put_unsigned_decide_parts, signatures_end_frames};
use keyring::verifier::Verifier;
use message_pool::Pool;
use node_steps::pending::Pending;
use std::alloc::Global;

/// What a proposal says: a decision and its view.
#[derive(Clone, Copy)]
pub struct Proposed {
    pub decision: Decision,
    pub view: u64,
}

/// The election words of a shard for a view, those with the decision first, at most a log quorum of them; by replicas,
/// ascending.
fn words_of<V: Verifier>(
    alloc: Global,
    keys: &V,
    cluster: &Cluster,
    pool: &Pool,
    id: &[u8; 32],
    shard: u8,
    proposed: Proposed,
) -> Result<Vec<ElectPart>, NoMemory>
    ensures words { IfOk result (λ words. map word_value words.items
        ≡ words_in (V.accepted keys.now) cluster.now pool.now.posts id.now proposed.decision shard proposed.view) }
    ensures counted { IfOk result (λ words. AreCounted (FitsWord widest) after_word (map word_value words.items)) }
{
    let Proposed { decision, view } = proposed;
    let agree = Question::Words {
        shard,
        view,
        decision,
        agrees: true,
    };
    let others = Question::Words {
        shard,
        view,
        decision,
        agrees: false,
    };
    let mut words = Vec::new(alloc);
    hear(alloc, &mut words, keys, cluster, pool, id, agree)?;
    hear(alloc, &mut words, keys, cluster, pool, id, others)?;
    let words = first_ones(words, cluster.log_quorum());
    listed(alloc, cluster, words.as_slice())
}

/// A proposal but its signature.
fn proposal_frame(
    alloc: Global,
    place: Place,
    t: TransactionView<'_>,
    said: Proposed,
    words: &[ElectPart],
) -> Result<Vec<u8>, NoMemory>
    requires { AreCounted (FitsWord widest) after_word (map word_value words.now) }
    ensures { IfOk result (λ f. f.items ≡ unsigned_decide
        (proposed place.shard place.index (transaction_of t.entry) said.decision said.view
        (map word_value words.now) [])) }
{
    let mut frame = Vec::new(alloc);
    let parts = DecideParts {
        transaction: t,
        shard: place.shard,
        replica: place.index,
        decision: said.decision,
        view: said.view,
        words,
        signature: &[],
    };
    put_unsigned_decide_parts(&parts, &mut frame)?;
    Ok(frame)
}

/// A proposal of a replica in a view of a transaction, with these words, to one replica of its shard, which waits for a
/// signature of this size.
fn proposal_with(
    alloc: Global,
    place: Place,
    t: TransactionView<'_>,
    said: Proposed,
    to: u8,
    words: &[ElectPart],
    size: usize,
) -> Result<Lie, NoMemory>
    requires counted { AreCounted (FitsWord widest) after_word (map word_value words.now) }
    requires some { 1 ≤ size }
    requires short { size ≤ signature_limit }
    ensures ready { IfOk result (CanBeSaid size) }
    ensures says { IfOk result (Says (unsaid_proposal place.shard place.index (transaction_of t.entry) said.decision
        said.view to (map word_value words.now))) }
{
    signatures_end_frames();
    let id = t.id();
    let frame = proposal_frame(alloc, place, t, said, words)?;
    let words = Words::proposal(place.shard, place.index, &id, said.decision, said.view);
    let to = Party::Replica {
        shard: place.shard,
        index: to,
    };
    let pending = Pending::of_one(alloc, words, to, frame, size)?;
    Lie::of(alloc, pending, size)
}

/// A proposal of a replica in a view of a transaction, with the election words of its shard in the pool, to one replica
/// of that shard, which waits for a signature of this size; or memory is wanting.
pub fn proposal<V: Verifier>(
    alloc: Global,
    keys: &V,
    cluster: &Cluster,
    pool: &Pool,
    place: Place,
    t: TransactionView<'_>,
    said: Proposed,
    to: u8,
    size: usize,
) -> Result<Lie, NoMemory>
    requires some { 1 ≤ size }
    requires short { size ≤ signature_limit }
    ensures ready { IfOk result (CanBeSaid size) }
    ensures says { (s : Setup) (st : State) → cluster.now ≡ s.cluster → V.accepted keys.now ≡ s.kit.accepts →
        pool.now.posts ≡ st.pool → IfOk result
        (Says (unsaid_proposal place.shard place.index (transaction_of t.entry) said.decision said.view to
        (words_from s st (transaction_of t.entry) said.decision place.shard said.view))) }
{
    let id = t.id();
    let words = words_of(alloc, keys, cluster, pool, &id, place.shard, said)?;
    proposal_with(alloc, place, t, said, to, words.as_slice(), size)
}

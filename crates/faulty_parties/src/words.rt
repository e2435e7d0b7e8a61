//! Election words of faulty replicas.

ghost use Rattle.std.specs.Prelude.{◌≡◌, ◌≤◌, [], false, IfOk};
ghost use Rattle.basil_types.specs.Limits.{signature_limit};
ghost use Rattle.basil_types.specs.Shown.{transaction_of};
ghost use Rattle.frame_writing.specs.Unsigned.{unsigned_elect};
ghost use Rattle.txn_meta.specs.Form.{is_empty};
ghost use Rattle.faulty_parties.specs.Lies.{CanBeSaid, Says};
ghost use Rattle.faulty_parties.specs.Unsaid.{elected, unsaid_word};

use crate::lie::Lie;
use crate::place::Place;
use basil_types::cluster::Cluster;
use basil_types::memory::NoMemory;
use basil_types::party::{Decision, Party};
use basil_types::transaction::TransactionView;
use basil_types::words::Words;
use frame_views::frames::ElectView;
use frame_writing::{put_unsigned_elect, signatures_end_frames};
use node_steps::pending::Pending;
use std::alloc::Global;
use txn_meta::places::{leader_of, log_shard};

/// The replica that leads a view of a transaction.
fn leads(cluster: &Cluster, t: TransactionView<'_>, view: u64) -> Party
    requires { is_empty (transaction_of t) ≡ false }
    ensures { result ≡ Rattle.faulty_parties.specs.Unsaid.leads cluster.now (transaction_of t.entry) view }
{
    Party::Replica {
        shard: log_shard(t, cluster),
        index: leader_of(t.time(), view, cluster),
    }
}

/// An election word but its signature.
fn word_frame(
    alloc: Global,
    place: Place,
    t: TransactionView<'_>,
    decision: Decision,
    view: u64,
) -> Result<Vec<u8>, NoMemory>
    ensures { IfOk result (λ f. f.items
        ≡ unsigned_elect (elected place.shard place.index (transaction_of t.entry) decision view [])) }
{
    let mut frame = Vec::new(alloc);
    let word = ElectView {
        transaction: t,
        shard: place.shard,
        replica: place.index,
        decision,
        view,
        signature: &[],
    };
    put_unsigned_elect(&word, &mut frame)?;
    Ok(frame)
}

/// An election word of a replica for a view of a transaction that isn't empty, to the leader of that view, which waits
/// for a signature of this size; or memory is wanting.
pub fn word(
    alloc: Global,
    cluster: &Cluster,
    place: Place,
    t: TransactionView<'_>,
    decision: Decision,
    view: u64,
    size: usize,
) -> Result<Lie, NoMemory>
    requires some { 1 ≤ size }
    requires short { size ≤ signature_limit }
    requires keys { is_empty (transaction_of t) ≡ false }
    ensures ready { IfOk result (CanBeSaid size) }
    ensures says { IfOk result
        (Says (unsaid_word cluster.now place.shard place.index (transaction_of t.entry) decision view)) }
{
    signatures_end_frames();
    let id = t.id();
    let frame = word_frame(alloc, place, t, decision, view)?;
    let words = Words::election(place.shard, place.index, &id, decision, view);
    let to = leads(cluster, t, view);
    let pending = Pending::of_one(alloc, words, to, frame, size)?;
    Lie::of(alloc, pending, size)
}

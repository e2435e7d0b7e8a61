//! Votes of faulty replicas.

ghost use Rattle.std.specs.Prelude.{◌≡◌, ◌≤◌, [], IfOk, None};
ghost use Rattle.basil_types.specs.Limits.{signature_limit};
ghost use Rattle.basil_types.specs.Shown.{transaction_of};
ghost use Rattle.frame_writing.specs.Unsigned.{unsigned_vote};
ghost use Rattle.faulty_parties.specs.Lies.{CanBeSaid, Says};
ghost use Rattle.faulty_parties.specs.Unsaid.{unsaid_vote, voted};

use crate::lie::Lie;
use crate::place::Place;
use basil_types::memory::NoMemory;
use basil_types::party::{Decision, Party};
use basil_types::transaction::TransactionView;
use basil_types::words::Words;
use frame_views::frames::VoteView;
use frame_writing::{put_unsigned_vote, signatures_end_frames};
use node_steps::pending::Pending;
use std::alloc::Global;

/// A vote but its signature.
fn vote_frame(
    alloc: Global,
    place: Place,
    id: &[u8; 32],
    decision: Decision,
) -> Result<Vec<u8>, NoMemory>
    ensures { IfOk result (λ f. f.items ≡ unsigned_vote (voted place.shard place.index id.now decision [])) }
{
    let mut frame = Vec::new(alloc);
    let view = VoteView {
        shard: place.shard,
        replica: place.index,
        id: *id,
        decision,
        proof: None,
        signature: &[],
    };
    put_unsigned_vote(&view, &mut frame)?;
    Ok(frame)
}

/// A vote of a replica on a transaction, for a client, which waits for a signature of this size; or memory is wanting.
pub fn vote(
    alloc: Global,
    place: Place,
    t: TransactionView<'_>,
    decision: Decision,
    client: u8,
    size: usize,
) -> Result<Lie, NoMemory>
    requires some { 1 ≤ size }
    requires short { size ≤ signature_limit }
    ensures ready { IfOk result (CanBeSaid size) }
    ensures says { IfOk result
        (Says (unsaid_vote place.shard place.index (transaction_of t.entry) decision client)) }
{
    signatures_end_frames();
    let id = t.id();
    let frame = vote_frame(alloc, place, &id, decision)?;
    let words = Words::vote(place.shard, place.index, &id, decision);
    let to = Party::Client { number: client };
    let pending = Pending::of_one(alloc, words, to, frame, size)?;
    Lie::of(alloc, pending, size)
}

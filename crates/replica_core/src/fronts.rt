//! Votes without their signature, and what waits for one.

ghost use Rattle.std.specs.Prelude.{◌≡◌, ◌+◌, ◌<◌, ◌≤◌, [], ◌∷◌, IfOk, option_map, map, length, vec_len, vec_capacity};
ghost use Rattle.std.specs.Option.{ForSome, option_and_then};
ghost use Rattle.basil_types.specs.Limits.{signature_limit};
ghost use Rattle.basil_types.specs.Words.{words_of};
ghost use Rattle.frame_views.specs.Shown.{committed_of};
ghost use Rattle.frame_writing.specs.Unsigned.{unsigned_vote};
ghost use Rattle.node_steps.specs.Pendings.{front_of, fronts_of, IsReady};
ghost use Rattle.replica_core.specs.Fronts as fronts;
ghost use Rattle.replica_core.specs.Fronts.{front_to, vote_said};
ghost use Rattle.replica_core.specs.Known.{proven_at};

use crate::known::Known;
use crate::seat::Seat;
use basil_types::memory::NoMemory;
use basil_types::party::{Decision, Party};
use basil_types::words::Words;
use frame_views::certificates::CertificateView;
use frame_views::frames::{CommittedView, VoteView};
use frame_writing::put_unsigned_vote;
use node_steps::pending::Pending;
use txn_table::laws::stored_ones_stay;

/// The transaction at a held place, with the certificate of its outcome. None exactly where it has no outcome.
pub(crate) fn proof_at(known: &Known, place: u32) -> Option<CommittedView<'_>>
    requires { place < length known.now.table.entries }
    ensures { option_map committed_of result ≡ proven_at known.now.table.entries place }
{
    stored_ones_stay();
    let entry = known.table.entry(place);
    match entry.outcome() {
        Some((_, certificate)) => Some(CommittedView {
            transaction: entry.view(),
            certificate: CertificateView::of(certificate),
        }),
        None => None,
    }
}

/// The proof that a vote names, if any.
pub(crate) fn proof_of(known: &Known, proof: Option<u32>) -> Option<CommittedView<'_>>
    requires { ForSome proof (λ at. at < length known.now.table.entries) }
    ensures { option_map committed_of result ≡ option_and_then (proven_at known.now.table.entries) proof }
{
    match proof {
        Some(place) => proof_at(known, place),
        None => None,
    }
}

/// A vote without its signature.
pub(crate) fn vote_front(
    seat: &Seat,
    id: &[u8; 32],
    decision: Decision,
    proof: Option<CommittedView<'_>>,
) -> Result<Vec<u8>, NoMemory>
    ensures { IfOk result (λ frame. frame.items
        ≡ unsigned_vote (fronts.vote_front seat.now id.now decision (option_map committed_of proof.entry))) }
{
    let mut frame = Vec::new(seat.alloc);
    let view = VoteView {
        shard: seat.home.shard,
        replica: seat.index,
        id: *id,
        decision,
        proof,
        signature: &[],
    };
    put_unsigned_vote(&view, &mut frame)?;
    Ok(frame)
}

/// A vote to one party, which waits for its signature.
pub(crate) fn pending_vote(
    seat: &Seat,
    size: usize,
    to: Party,
    id: &[u8; 32],
    decision: Decision,
    proof: Option<CommittedView<'_>>,
) -> Result<Pending, NoMemory>
    requires some { 1 ≤ size }
    requires short { size ≤ signature_limit }
    ensures ready { IfOk result (IsReady size) }
    ensures words { IfOk result (λ p. p.words ≡ words_of (vote_said seat.now id.now decision)) }
    ensures fronts { IfOk result (λ p. fronts_of p
        ≡ front_to seat.now id.now decision (option_map committed_of proof.entry) to ∷ []) }
{
    let front = vote_front(seat, id, decision, proof)?;
    let words = Words::vote(seat.home.shard, seat.index, id, decision);
    Pending::of_one(seat.alloc, words, to, front, size)
}

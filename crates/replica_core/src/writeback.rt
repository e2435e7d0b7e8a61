//! Writebacks are planned: an outcome, and the votes that it releases (Basil, writeback phase).

ghost use Rattle.std.specs.Prelude.{◌≡◌, ◌<◌, ◌≤◌, All, Some, IfOk, is_some, length, map, slice_get};
ghost use Rattle.std.specs.Option.{ForSome};
ghost use Rattle.basil_types.specs.Limits.{signature_limit};
ghost use Rattle.basil_types.specs.Shown.{transaction_of};
ghost use Rattle.basil_types.specs.Transaction as transactions;
ghost use Rattle.certificates.specs.Refusals as refusals;
ghost use Rattle.frame_views.specs.Shown.{certificate_of};
ghost use Rattle.node_steps.specs.Pendings.{front_of, HasRoomFor};
ghost use Rattle.node_steps.specs.Pens.{pen_value};
ghost use Rattle.txn_table.specs.Tables as tables;
ghost use Rattle.txn_table.specs.Tables.{entry_with};
ghost use Rattle.replica_core.specs.Holding.{KeepsNoted};
ghost use Rattle.replica_core.specs.Known.{outcome_with};
ghost use Rattle.replica_core.specs.KnownWorks.{CanPerform, IsPlanOf};
ghost use Rattle.replica_core.specs.Placing.{IsOpen};
ghost use Rattle.replica_core.specs.Releases.{released_by, release_front, IsReleaseOf, AreReleasesOf, AreWithin};
ghost use Rattle.replica_core.specs.Writebacks.{releases, end_with, answer_writeback};

use crate::arriving::place_for;
use crate::fronts::vote_front;
use crate::known::Known;
use crate::refusal::Refusal;
use crate::seat::Seat;
use crate::work::{KnownWork, Release};
use basil_types::memory::NoMemory;
use basil_types::party::{Decision, Party};
use basil_types::transaction::TransactionView;
use basil_types::words::Words;
use certificates::decision_of;
use frame_views::certificates::CertificateView;
use frame_writing::signatures_end_frames;
use keyring::signer::Signer;
use node_steps::pending::{Pending, Unsigned};
use std::alloc::Global;
use txn_table::laws::released_votes_ascend;

/// The frame of a released vote for one asker.
fn release_frame(
    seat: &Seat,
    size: usize,
    id: &[u8; 32],
    decision: Decision,
    to: Party,
) -> Result<Unsigned, NoMemory>
    requires { size ≤ signature_limit }
    ensures front { IfOk result (λ u. front_of u ≡ release_front seat.now id.now decision to) }
    ensures room { IfOk result (HasRoomFor size) }
{
    let frame = vote_front(seat, id, decision, None)?;
    Unsigned::with_room(to, frame, size)
}

/// The frames of a released vote, one for each asker.
fn release_frames(
    seat: &Seat,
    size: usize,
    id: &[u8; 32],
    decision: Decision,
    askers: &[Party],
) -> Result<Vec<Unsigned>, NoMemory>
    requires { size ≤ signature_limit }
    ensures fronts { IfOk result (λ frames. map front_of frames.items
        ≡ map (release_front seat.now id.now decision) askers.now) }
    ensures rooms { IfOk result (λ frames. All (HasRoomFor size) frames.items) }
{
    let mut frames = Vec::new(seat.alloc);
    for asker in askers {
        let unsigned = release_frame(seat, size, id, decision, *asker)?;
        frames.push(unsigned)?;
    }
    Ok(frames)
}

/// A released vote, which waits for its signature.
fn plan_release(
    known: &Known,
    seat: &Seat,
    size: usize,
    place: u32,
    decision: Decision,
) -> Result<Release, NoMemory>
    requires held { place < length known.now.table.entries }
    requires some { 1 ≤ size }
    requires short { size ≤ signature_limit }
    ensures { IfOk result (IsReleaseOf seat.now size known.now.table.entries (place, decision)) }
{
    let entry = known.table.entry(place);
    let id = entry.view().id();
    let frames = release_frames(seat, size, &id, decision, entry.askers())?;
    let words = Words::vote(seat.home.shard, seat.index, &id, decision);
    let pending = Pending::new(seat.alloc, words, frames, size)?;
    Ok(Release {
        place,
        decision,
        pending,
    })
}

/// The released votes, which wait for their signatures.
fn plan_releases(
    known: &Known,
    seat: &Seat,
    size: usize,
    votes: Vec<(u32, Decision)>,
) -> Result<Vec<Release>, NoMemory>
    requires within { AreWithin known.now.table.entries votes.items }
    requires some { 1 ≤ size }
    requires short { size ≤ signature_limit }
    ensures { IfOk result (λ planned. AreReleasesOf seat.now size known.now.table.entries votes.items planned.items) }
{
    let mut planned = Vec::new(seat.alloc);
    for vote in votes {
        let release = plan_release(known, seat, size, vote.0, vote.1)?;
        planned.push(release)?;
    }
    Ok(planned)
}

/// A copy of these bytes.
fn copy_of(alloc: Global, bytes: &[u8]) -> Result<Vec<u8>, NoMemory>
    ensures { IfOk result (λ v. v.items ≡ bytes.now) }
{
    let copy = Vec::from_slice(alloc, bytes)?;
    Ok(copy)
}

/// Whether a transaction has an outcome.
fn is_ended(known: &Known, id: &[u8; 32]) -> bool
    ensures { result ≡ is_some (outcome_with known.now.table.entries id.now) }
{
    match known.table.place_of(id) {
        Some(place) => known.table.entry(place).outcome().is_some(),
        None => false,
    }
}

/// The votes that an outcome of a transaction without one releases.
fn released_votes(
    known: &Known,
    seat: &Seat,
    id: &[u8; 32],
    outcome: Decision,
) -> Result<Vec<(u32, Decision)>, NoMemory>
    requires { ForSome (entry_with known.now.table.entries id.now) IsOpen }
    ensures { IfOk result (λ votes. votes.items ≡ released_by seat.now.home known.now.table.entries
        (tables.place_of known.now.table.entries id.now) outcome) }
{
    match known.table.place_of(id) {
        Some(place) => {
            known
                .table
                .released(place, outcome, &seat.home.cluster, seat.home.shard)
        }
        None => Ok(Vec::new(seat.alloc)),
    }
}

/// Plans the outcome of a transaction without one.
fn plan_end<S: Signer>(
    known: &mut Known,
    pen: &S,
    seat: &Seat,
    t: TransactionView<'_>,
    certificate: &CertificateView<'_>,
) -> Result<KnownWork, Refusal>
    requires { ForSome (entry_with known.old.table.entries (transactions.id (transaction_of t))) IsOpen }
    ensures answer { IsPlanOf seat.now (S.fixed pen.now) (pen_value (S.spent pen.now) (S.left_of pen.now)) known.old
        result (λ me book. end_with me book (transaction_of t.entry)
        (refusals.decision_of (certificate_of certificate.now).body) (certificate_of certificate.now)
        (releases me book.entries (tables.place_of book.entries (transactions.id (transaction_of t.entry)))
        (refusals.decision_of (certificate_of certificate.now).body))) }
    ensures ready { IfOk result (CanPerform (S.fixed pen.now).size (S.left_of pen.now) known.new) }
    ensures entries { known.new.table.entries ≡ known.old.table.entries }
    ensures noted { KeepsNoted known.old known.new }
{
    signatures_end_frames();
    released_votes_ascend();
    let id = t.id();
    let outcome = decision_of(&certificate.body());
    let votes = released_votes(known, seat, &id, outcome)?;
    let count = votes.len();
    let left = pen.left();
    if left < count as u64 {
        return Err(Refusal::Exhausted(left));
    }
    let size = pen.size();
    let planned = plan_releases(known, seat, size, votes)?;
    let bytes = copy_of(seat.alloc, certificate.bytes())?;
    let arrival = place_for(known, seat.alloc, t)?;
    Ok(KnownWork::End {
        arrives: arrival.arrives,
        place: arrival.place,
        outcome,
        certificate: bytes,
        votes: planned,
    })
}

/// Plans the answer to a writeback.
pub(crate) fn plan_writeback<S: Signer>(
    known: &mut Known,
    pen: &S,
    seat: &Seat,
    t: TransactionView<'_>,
    certificate: &CertificateView<'_>,
) -> Result<KnownWork, Refusal>
    ensures answer { IsPlanOf seat.now (S.fixed pen.now) (pen_value (S.spent pen.now) (S.left_of pen.now)) known.old
        result (λ me book. answer_writeback me book
        (record { transaction = transaction_of t.entry; certificate = certificate_of certificate.now })) }
    ensures ready { IfOk result (CanPerform (S.fixed pen.now).size (S.left_of pen.now) known.new) }
    ensures entries { known.new.table.entries ≡ known.old.table.entries }
    ensures noted { KeepsNoted known.old known.new }
{
    let id = t.id();
    if is_ended(known, &id) {
        return Ok(KnownWork::Nothing);
    }
    plan_end(known, pen, seat, t, certificate)
}

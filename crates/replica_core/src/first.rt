//! First stages are planned: an outcome or a vote that is known is told again, and the rest gets the verdict, and by
//! it a vote or somebody who waits for one (Basil, stage 1).

ghost use Rattle.std.specs.Prelude.{◌≡◌, ℕ, ◌<◌, ◌≤◌, [], ◌∷◌, List, None, Some, IfOk, Ok};
ghost use Rattle.std.specs.Prelude.{IsTrue, Result, length, true};
ghost use Rattle.std.specs.Option.{ForSome};
ghost use Rattle.basil_types.specs.Shown.{transaction_of};
ghost use Rattle.basil_types.specs.Transaction as transactions;
ghost use Rattle.frame_views.specs.Stored.{spells_certificate, certificate_in};
ghost use Rattle.keyring.specs.Signing.{Signing};
ghost use Rattle.mv_store.specs.Held.{NotedRead};
ghost use Rattle.mvtso_check.specs.declared.verdict.Verdict.TheVariants as verdicts;
ghost use Rattle.mvtso_check.specs.Standing.{StandsFor};
ghost use Rattle.mvtso_check.specs.Verdict as rules;
ghost use Rattle.node_steps.specs.Pens.{PenValue, pen_value};
ghost use Rattle.txn_table.specs.Tables as tables;
ghost use Rattle.txn_table.specs.Tables.{entry_with};
ghost use Rattle.replica_core.specs.declared.known.Known.{Known};
ghost use Rattle.replica_core.specs.declared.refusal.Refusal.{Refusal};
ghost use Rattle.replica_core.specs.FirstStage.{vote_to, vote_value, writeback_to, votes, wait_done, first_vote};
ghost use Rattle.replica_core.specs.FirstStage.{first_stage, unless_ended, answer_st1};
ghost use Rattle.replica_core.specs.Holding.{KeepsNoted};
ghost use Rattle.replica_core.specs.Known.{known_of};
ghost use Rattle.replica_core.specs.KnownWorks.{CanPerform, IsPlanOf, perform_known};
ghost use Rattle.replica_core.specs.Placing.{IsOpen, IsUndecided, IsUntouched};
ghost use Rattle.replica_core.specs.Replicas.{BookValue, Done};
ghost use Rattle.replica_core.specs.Seats.{book_with};
ghost use Rattle.replica_core.specs.Telling.{IsPlanned};
ghost use Rattle.replica_core.specs.Whole.{is_signature};

use crate::arriving::place_for;
use crate::fronts::{pending_vote, proof_of, vote_front};
use crate::known::Known;
use crate::refusal::Refusal;
use crate::seat::Seat;
use crate::work::KnownWork;
use basil_types::bytes::Bytes;
use basil_types::outbox::Envelope;
use basil_types::party::{Decision, Party};
use basil_types::transaction::TransactionView;
use frame_views::certificates::CertificateView;
use frame_views::frames::WritebackView;
use frame_writing::{put_writeback, signatures_end_frames};
use keyring::signer::Signer;
use mvtso_check::check::check;
use mvtso_check::verdict::Verdict;
use node_steps::pending::{Unsigned, seal};
use txn_table::entry::VoteState;
use txn_table::laws::stored_ones_stay;

/// The verdict on a transaction without a vote. Its proof is a held place.
fn verdict_of(known: &Known, seat: &Seat, now: u64, t: TransactionView<'_>) -> Verdict
    ensures verdict { (noted : List NotedRead) → StandsFor known.now.store known.now.table.entries noted
        → result ≡ rules.verdict seat.now.home now (record { entries = known.now.table.entries; noted = noted })
        (transaction_of t.entry) }
    ensures within { (place : ℕ) → result ≡ verdicts.AbortBy place → place < length known.now.table.entries }
{
    let found = check(
        &known.store,
        &known.table,
        &seat.home.cluster,
        seat.home.shard,
        now,
        t,
    );
    match found {
        // The proof stands in the table, which has its place.
        Verdict::AbortBy { place } => {
            if place < known.table.len() {
                Verdict::AbortBy { place }
            } else {
                Verdict::Abort
            }
        }
        Verdict::Abort => Verdict::Abort,
        Verdict::Commit => Verdict::Commit,
        Verdict::Wait => Verdict::Wait,
    }
}

/// The verdict on a transaction, by what is known of it.
fn verdict_on(known: &Known, seat: &Seat, now: u64, t: TransactionView<'_>) -> Verdict
    ensures verdict { (noted : List NotedRead) → StandsFor known.now.store known.now.table.entries noted
        → result ≡ rules.verdict seat.now.home now (record { entries = known.now.table.entries; noted = noted })
        (known_of known.now.table.entries (transaction_of t.entry)) }
    ensures within { (place : ℕ) → result ≡ verdicts.AbortBy place → place < length known.now.table.entries }
{
    let id = t.id();
    match known.table.place_of(&id) {
        Some(place) => verdict_of(known, seat, now, known.table.entry(place).view()),
        None => verdict_of(known, seat, now, t),
    }
}

/// Plans a vote on a transaction without vote and outcome.
fn plan_vote<S: Signer>(
    known: &mut Known,
    pen: &S,
    seat: &Seat,
    from: Party,
    t: TransactionView<'_>,
    decision: Decision,
    proof: Option<u32>,
) -> Result<KnownWork, Refusal>
    requires untouched { ForSome (entry_with known.old.table.entries (transactions.id (transaction_of t))) IsUntouched }
    requires proof { ForSome proof (λ at. at < length known.old.table.entries) }
    ensures answer { IsPlanOf seat.now (S.fixed pen.now) (pen_value (S.spent pen.now) (S.left_of pen.now)) known.old
        result (λ me book. votes me from book (known_of book.entries (transaction_of t.entry)) decision proof) }
    ensures ready { IfOk result (CanPerform (S.fixed pen.now).size (S.left_of pen.now) known.new) }
    ensures entries { known.new.table.entries ≡ known.old.table.entries }
    ensures noted { KeepsNoted known.old known.new }
{
    signatures_end_frames();
    let left = pen.left();
    if left == 0 {
        return Err(Refusal::Exhausted(left));
    }
    let size = pen.size();
    let arrival = place_for(known, seat.alloc, t)?;
    let id = t.id();
    let pending = pending_vote(seat, size, from, &id, decision, proof_of(known, proof))?;
    Ok(KnownWork::Vote {
        arrives: arrival.arrives,
        place: arrival.place,
        decision,
        proof,
        pending,
    })
}

/// Plans that somebody waits for the vote on a transaction without vote and outcome.
fn plan_wait<S: Signer>(
    known: &mut Known,
    pen: &S,
    seat: &Seat,
    from: Party,
    t: TransactionView<'_>,
) -> Result<KnownWork, Refusal>
    requires { ForSome (entry_with known.old.table.entries (transactions.id (transaction_of t))) IsUndecided }
    ensures answer { IsPlanOf seat.now (S.fixed pen.now) (pen_value (S.spent pen.now) (S.left_of pen.now)) known.old
        result (λ me book. Ok (wait_done from book (known_of book.entries (transaction_of t.entry)))) }
    ensures ready { IfOk result (CanPerform (S.fixed pen.now).size (S.left_of pen.now) known.new) }
    ensures entries { known.new.table.entries ≡ known.old.table.entries }
    ensures noted { KeepsNoted known.old known.new }
{
    let arrival = place_for(known, seat.alloc, t)?;
    Ok(KnownWork::Wait {
        arrives: arrival.arrives,
        place: arrival.place,
        asker: from,
    })
}

/// Plans the first vote on a transaction without vote and outcome, or the waiting for it.
fn plan_first_vote<S: Signer>(
    known: &mut Known,
    pen: &S,
    seat: &Seat,
    now: u64,
    from: Party,
    t: TransactionView<'_>,
) -> Result<KnownWork, Refusal>
    requires { ForSome (entry_with known.old.table.entries (transactions.id (transaction_of t))) IsUntouched }
    ensures answer { IsPlanOf seat.now (S.fixed pen.now) (pen_value (S.spent pen.now) (S.left_of pen.now)) known.old
        result (λ me book. first_vote me now from book (known_of book.entries (transaction_of t.entry))) }
    ensures ready { IfOk result (CanPerform (S.fixed pen.now).size (S.left_of pen.now) known.new) }
    ensures entries { known.new.table.entries ≡ known.old.table.entries }
    ensures noted { KeepsNoted known.old known.new }
{
    match verdict_on(known, seat, now, t) {
        Verdict::Commit => plan_vote(known, pen, seat, from, t, Decision::Commit, None),
        Verdict::Abort => plan_vote(known, pen, seat, from, t, Decision::Abort, None),
        Verdict::AbortBy { place } => {
            plan_vote(known, pen, seat, from, t, Decision::Abort, Some(place))
        }
        Verdict::Wait => plan_wait(known, pen, seat, from, t),
    }
}

/// Plans that a transaction with an outcome is answered by its certificate.
fn plan_outcome(
    seat: &Seat,
    from: Party,
    t: TransactionView<'_>,
    certificate: &[u8],
) -> Result<KnownWork, Refusal>
    requires { IsTrue (spells_certificate certificate.now) }
    ensures answer { (signing : Signing) (book : BookValue) → IsPlanned (perform_known signing) book result
        (Ok (record {
          book = book;
          signed = [];
          sent = writeback_to from (record {
            transaction = transaction_of t.entry;
            certificate = certificate_in certificate.now;
          }) ∷ [];
        })) }
    ensures ready { IfOk result (λ w. (size left : ℕ) (known : Known) → CanPerform size left known w) }
{
    let mut frame = Vec::new(seat.alloc);
    let view = WritebackView {
        transaction: t,
        certificate: CertificateView::of(certificate),
    };
    put_writeback(&view, &mut frame)?;
    Ok(KnownWork::Tell(Envelope {
        to: from,
        frame: Bytes::from_vec(frame),
    }))
}

/// Plans that a stored vote is given again.
fn plan_again(
    known: &Known,
    seat: &Seat,
    from: Party,
    id: &[u8; 32],
    decision: Decision,
    signature: &[u8],
    proof: Option<u32>,
) -> Result<KnownWork, Refusal>
    requires signature { is_signature signature.now ≡ true }
    requires proof { ForSome proof (λ at. at < length known.now.table.entries) }
    ensures answer { (signing : Signing) (pen : PenValue) → IsPlanOf seat.now signing pen known.now result
        (λ me book. Ok (record {
          book = book;
          signed = [];
          sent = vote_to from
              (vote_value me book.entries id.now decision proof signature.now) ∷ [];
        })) }
    ensures ready { IfOk result (λ w. (size left : ℕ) (known : Known) → CanPerform size left known w) }
{
    signatures_end_frames();
    let front = vote_front(seat, id, decision, proof_of(known, proof))?;
    let unsigned = Unsigned::with_room(from, front, signature.len())?;
    Ok(KnownWork::Tell(Envelope {
        to: from,
        frame: seal(unsigned.frame, signature),
    }))
}

/// Plans the answer to a first stage of a known transaction without outcome.
fn plan_held<S: Signer>(
    known: &mut Known,
    pen: &S,
    seat: &Seat,
    now: u64,
    from: Party,
    place: u32,
    t: TransactionView<'_>,
) -> Result<KnownWork, Refusal>
    requires place { tables.place_of known.old.table.entries (transactions.id (transaction_of t)) ≡ Some place }
    requires held { place < length known.old.table.entries }
    requires undecided { ForSome (entry_with known.old.table.entries (transactions.id (transaction_of t))) IsOpen }
    ensures answer { IsPlanOf seat.now (S.fixed pen.now) (pen_value (S.spent pen.now) (S.left_of pen.now)) known.old
        result (λ me book. first_stage me now from book (transaction_of t.entry)) }
    ensures ready { IfOk result (CanPerform (S.fixed pen.now).size (S.left_of pen.now) known.new) }
    ensures entries { known.new.table.entries ≡ known.old.table.entries }
    ensures noted { KeepsNoted known.old known.new }
{
    stored_ones_stay();
    match known.table.entry(place).vote() {
        VoteState::Unvoted => plan_first_vote(known, pen, seat, now, from, t),
        VoteState::Waiting => plan_wait(known, pen, seat, from, t),
        VoteState::Voted {
            vote,
            signature,
            proof,
        } => {
            let id = known.table.entry(place).view().id();
            plan_again(known, seat, from, &id, vote, signature, proof)
        }
    }
}

/// Plans the answer to a first stage of a transaction without outcome.
pub(crate) fn plan_first_stage<S: Signer>(
    known: &mut Known,
    pen: &S,
    seat: &Seat,
    now: u64,
    from: Party,
    t: TransactionView<'_>,
) -> Result<KnownWork, Refusal>
    requires { ForSome (entry_with known.old.table.entries (transactions.id (transaction_of t))) IsOpen }
    ensures answer { IsPlanOf seat.now (S.fixed pen.now) (pen_value (S.spent pen.now) (S.left_of pen.now)) known.old
        result (λ me book. first_stage me now from book (transaction_of t.entry)) }
    ensures ready { IfOk result (CanPerform (S.fixed pen.now).size (S.left_of pen.now) known.new) }
    ensures entries { known.new.table.entries ≡ known.old.table.entries }
    ensures noted { KeepsNoted known.old known.new }
{
    let id = t.id();
    match known.table.place_of(&id) {
        Some(place) => plan_held(known, pen, seat, now, from, place, t),
        None => plan_first_vote(known, pen, seat, now, from, t),
    }
}

/// Plans the answer to anything about a transaction with an outcome. None where there is no outcome.
pub(crate) fn plan_ended(
    known: &Known,
    seat: &Seat,
    from: Party,
    id: &[u8; 32],
) -> Option<Result<KnownWork, Refusal>>
    ensures ended { ForSome result (λ r. (signing : Signing) (book : BookValue) (pen : PenValue)
        (answer : Result Done Refusal) → IsPlanned (perform_known signing)
        (book_with book known.now.table.entries pen) r
        (unless_ended from (book_with book known.now.table.entries pen) id.now answer)) }
    ensures ready { ForSome result (λ r. IfOk r (λ w. (size left : ℕ) (known : Known)
        → CanPerform size left known w)) }
    ensures goes_on { result ≡ None → (book : BookValue) (pen : PenValue) (answer : Result Done Refusal)
        → unless_ended from (book_with book known.now.table.entries pen) id.now answer ≡ answer }
    ensures undecided { result ≡ None → ForSome (entry_with known.now.table.entries id.now) IsOpen }
{
    stored_ones_stay();
    let place = known.table.place_of(id)?;
    let entry = known.table.entry(place);
    match entry.outcome() {
        Some((_, certificate)) => Some(plan_outcome(seat, from, entry.view(), certificate)),
        None => None,
    }
}

/// Plans the answer to a first stage.
pub(crate) fn plan_st1<S: Signer>(
    known: &mut Known,
    pen: &S,
    seat: &Seat,
    now: u64,
    from: Party,
    t: TransactionView<'_>,
) -> Result<KnownWork, Refusal>
    ensures answer { IsPlanOf seat.now (S.fixed pen.now) (pen_value (S.spent pen.now) (S.left_of pen.now)) known.old
        result (λ me book. answer_st1 me now from book (transaction_of t.entry)) }
    ensures ready { IfOk result (CanPerform (S.fixed pen.now).size (S.left_of pen.now) known.new) }
    ensures entries { known.new.table.entries ≡ known.old.table.entries }
    ensures noted { KeepsNoted known.old known.new }
{
    let id = t.id();
    match plan_ended(known, seat, from, &id) {
        Some(planned) => planned,
        None => plan_first_stage(known, pen, seat, now, from, t),
    }
}

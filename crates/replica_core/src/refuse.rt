//! What is refused of a frame before what it asks for is looked at.

ghost use Rattle.std.specs.Prelude.{◌≡◌, ◌<◌, ◌^◌, ◌==◌, ◌&&◌, [], ◌∷◌, None, OnOk, length, option_map};
ghost use Rattle.basil_types.specs.Refusals.{Refuses};
ghost use Rattle.basil_types.specs.Shown.{transaction_of};
ghost use Rattle.certificates.specs.Accepted.{Accepted, first_refused};
ghost use Rattle.certificates.specs.Refusals as certs;
ghost use Rattle.frame_views.specs.Fitting.{bounds_of, FitsMessage, FitsCertificate, IsSpoken};
ghost use Rattle.frame_views.specs.Shown.{message_of, certificate_of};
ghost use Rattle.frame_views.specs.Signed.{client_signed};
ghost use Rattle.frame_views.specs.Walks.{signed_left};
ghost use Rattle.keyring.specs.Signing.{Signing};
ghost use Rattle.txn_meta.specs.Form.{form_fault};
ghost use Rattle.replica_core.specs.declared.refusal.Refusal.TheVariants as refusal;
ghost use Rattle.replica_core.specs.Refused.{IsWellFormed};
ghost use Rattle.replica_core.specs.Refusals as rules;
ghost use Rattle.replica_core.specs.SecondStage as stages;
ghost use Rattle.replica_core.specs.Seats.{self_at};

use crate::refusal::Refusal;
use crate::seat::Seat;
use basil_types::party::{Decision, Party};
use basil_types::transaction::TransactionView;
use basil_types::words::Words;
use certificates::{CertRefusal, check_abort, check_commit, check_tallies, decision_of};
use frame_views::certificates::CertificateView;
use frame_views::frames::MessageView;
use frame_views::signed::{Signatures, signatures};
use keyring::verifier::Verifier;
use txn_meta::form::check_form;
use txn_meta::places::log_shard;
use txn_meta::shards::{is_involved, shard_of};

/// The transaction that a frame is about.
fn subject<'a>(m: &MessageView<'a>) -> Option<TransactionView<'a>>
    ensures { option_map transaction_of result ≡ rules.subject (message_of m.now) }
{
    match m {
        MessageView::Read(_)
        | MessageView::ReadReply(_)
        | MessageView::Vote(_)
        | MessageView::LogReply(_)
        | MessageView::Invoke(_) => None,
        MessageView::St1(m) => Some(m.transaction),
        MessageView::St2(m) => Some(m.transaction),
        MessageView::Writeback(m) => Some(m.transaction),
        MessageView::Recover(m) => Some(m.transaction),
        MessageView::Elect(m) => Some(m.transaction),
        MessageView::Decide(m) => Some(m.transaction),
    }
}

/// Whether the transaction of a frame has a good form.
fn refuse_form(m: &MessageView<'_>) -> Result<(), Refusal>
    ensures { Refuses result (rules.bad_transaction (message_of m.now)) }
{
    match subject(m) {
        Some(t) => match check_form(t) {
            Ok(()) => Ok(()),
            Err(fault) => Err(Refusal::BadTransaction(fault)),
        },
        None => Ok(()),
    }
}

/// Whether the replica's shard logs the decision of a transaction of good form.
pub(crate) fn logs_here(seat: &Seat, t: TransactionView<'_>) -> bool
    requires { form_fault (transaction_of t) ≡ None }
    ensures { (accepts : Accepted) (signing : Signing)
        → result ≡ stages.logs_here (self_at seat.now accepts signing) (transaction_of t.entry) }
{
    log_shard(t, &seat.home.cluster) == seat.home.shard
}

/// Whether the replica's shard is this one, and logs the decision of a transaction of good form.
fn is_own_log(seat: &Seat, t: TransactionView<'_>, shard: u8) -> bool
    requires { form_fault (transaction_of t) ≡ None }
    ensures { (accepts : Accepted) (signing : Signing)
        → result ≡ (stages.logs_here (self_at seat.now accepts signing) (transaction_of t.entry)
        && (shard == seat.now.home.shard)) }
{
    logs_here(seat, t) && shard == seat.home.shard
}

/// Whether a frame is for this replica.
fn is_mine(seat: &Seat, m: &MessageView<'_>) -> bool
    requires { IsWellFormed (message_of m.now) }
    ensures { (accepts : Accepted) (signing : Signing)
        → result ≡ rules.is_mine (self_at seat.now accepts signing) (message_of m.now) }
{
    let home = &seat.home;
    match m {
        MessageView::ReadReply(_) | MessageView::Vote(_) | MessageView::LogReply(_) => false,
        MessageView::Read(m) => shard_of(m.key, &home.cluster) == home.shard,
        MessageView::St1(m) => is_involved(m.transaction, &home.cluster, home.shard),
        MessageView::Writeback(m) => is_involved(m.transaction, &home.cluster, home.shard),
        MessageView::Recover(m) => is_involved(m.transaction, &home.cluster, home.shard),
        MessageView::St2(m) => logs_here(seat, m.transaction),
        MessageView::Invoke(m) => m.shard == home.shard,
        MessageView::Elect(m) => is_own_log(seat, m.transaction, m.shard),
        MessageView::Decide(m) => is_own_log(seat, m.transaction, m.shard),
    }
}

/// Whether all signatures are accepted, or the place of the first that isn't.
fn refuse_all<V: Verifier>(keys: &V, signed: Signatures<'_>) -> Result<(), Refusal>
    requires { length (signed_left signed) < 2 ^ 64 }
    ensures { Refuses result
        (option_map refusal.BadSignature (first_refused (V.accepted keys.now) (signed_left signed.entry))) }
{
    let mut place = 0usize;
    for item in signed {
        if !keys.accepts(item.party, item.words.bytes(), item.signature) {
            return Err(Refusal::BadSignature(place));
        }
        place += 1;
    }
    Ok(())
}

/// Whether the signature of a transaction's client is accepted.
fn refuse_client<V: Verifier>(
    keys: &V,
    t: TransactionView<'_>,
    signature: &[u8],
) -> Result<(), Refusal>
    ensures { Refuses result (option_map refusal.BadSignature
        (first_refused (V.accepted keys.now) (client_signed (transaction_of t.entry) signature.now ∷ []))) }
{
    let id = t.id();
    let words = Words::transaction(&id);
    let client = Party::Client { number: t.client() };
    if keys.accepts(client, words.bytes(), signature) {
        Ok(())
    } else {
        Err(Refusal::BadSignature(0))
    }
}

/// Whether the signatures that are tested as the frame's own are accepted.
fn refuse_signatures<V: Verifier>(keys: &V, seat: &Seat, m: &MessageView<'_>) -> Result<(), Refusal>
    requires spoken { IsSpoken (message_of m.now) }
    requires fits { FitsMessage (bounds_of seat.now.home.cluster) (message_of m.now) }
    ensures { (signing : Signing) → Refuses result
        (rules.bad_signature (self_at seat.now (V.accepted keys.now) signing) (message_of m.now)) }
{
    match m {
        MessageView::Read(_)
        | MessageView::ReadReply(_)
        | MessageView::Vote(_)
        | MessageView::LogReply(_)
        | MessageView::Writeback(_) => Ok(()),
        MessageView::St1(m) => refuse_client(keys, m.transaction, m.signature),
        MessageView::St2(m) => refuse_client(keys, m.transaction, m.signature),
        MessageView::Recover(m) => refuse_client(keys, m.transaction, m.signature),
        MessageView::Invoke(_) | MessageView::Elect(_) | MessageView::Decide(_) => {
            refuse_all(keys, signatures(m))
        }
    }
}

/// Whether a certificate proves its decision.
fn refuse_certificate<V: Verifier>(
    keys: &V,
    seat: &Seat,
    t: TransactionView<'_>,
    certificate: &CertificateView<'_>,
) -> Result<(), CertRefusal>
    requires form { form_fault (transaction_of t) ≡ None }
    requires fits { FitsCertificate (bounds_of seat.now.home.cluster) (certificate_of certificate.now) }
    ensures { Refuses result (certs.refusal (V.accepted keys.now) seat.now.home.cluster (transaction_of t.entry)
        (certs.decision_of (certificate_of certificate.now).body) (certificate_of certificate.now)) }
{
    match decision_of(&certificate.body()) {
        Decision::Commit => check_commit(keys, &seat.home.cluster, t, certificate),
        Decision::Abort => check_abort(keys, &seat.home.cluster, t, certificate),
    }
}

/// Whether the tallies of a second stage let its decision be logged, and a writeback's certificate proves its own.
fn refuse_proof<V: Verifier>(keys: &V, seat: &Seat, m: &MessageView<'_>) -> Result<(), Refusal>
    requires form { IsWellFormed (message_of m.now) }
    requires fits { FitsMessage (bounds_of seat.now.home.cluster) (message_of m.now) }
    ensures { (signing : Signing) → Refuses result
        (rules.bad_proof (self_at seat.now (V.accepted keys.now) signing) (message_of m.now)) }
{
    match m {
        MessageView::St2(m) => {
            match check_tallies(
                keys,
                &seat.home.cluster,
                m.transaction,
                m.decision,
                &m.tallies,
            ) {
                Ok(()) => Ok(()),
                Err(refused) => Err(Refusal::BadTally(refused)),
            }
        }
        MessageView::Writeback(m) => {
            match refuse_certificate(keys, seat, m.transaction, &m.certificate) {
                Ok(()) => Ok(()),
                Err(refused) => Err(Refusal::BadCertificate(refused)),
            }
        }
        _ => Ok(()),
    }
}

/// Whether nothing is refused of a frame of the cluster, or the first refusal.
pub(crate) fn refuse<V: Verifier>(keys: &V, seat: &Seat, m: &MessageView<'_>) -> Result<(), Refusal>
    requires spoken { IsSpoken (message_of m.now) }
    requires fits { FitsMessage (bounds_of seat.now.home.cluster) (message_of m.now) }
    ensures exact { (signing : Signing) → Refuses result
        (rules.refused (self_at seat.now (V.accepted keys.now) signing) (message_of m.now)) }
    ensures form { OnOk result (IsWellFormed (message_of m.now)) }
{
    refuse_form(m)?;
    if !is_mine(seat, m) {
        return Err(Refusal::NotMine);
    }
    match refuse_signatures(keys, seat, m) {
        Ok(()) => refuse_proof(keys, seat, m),
        Err(refused) => Err(refused),
    }
}

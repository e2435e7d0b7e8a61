//! Log replies are planned: of a second stage and of a recovery (Basil, stage 2 and fallback).

ghost use Rattle.std.specs.Prelude.{◌≡◌, ◌≤◌, ◌++◌, Ok, Some, IfOk, ℕ, is_some, length, true};
ghost use Rattle.basil_types.specs.Shown.{transaction_of};
ghost use Rattle.basil_types.specs.Limits.{signature_limit};
ghost use Rattle.basil_types.specs.Transaction as transactions;
ghost use Rattle.basil_types.specs.Transaction.{TransactionValue, long_text};
ghost use Rattle.basil_types.specs.Words.{words_of};
ghost use Rattle.certificates.specs.Accepted.{Accepted};
ghost use Rattle.frame_writing.specs.Unsigned.{unsigned_log_reply};
ghost use Rattle.keyring.specs.Signing.{Signing};
ghost use Rattle.node_steps.specs.Pendings.{fronts_of, IsReady};
ghost use Rattle.node_steps.specs.Pens.{pen_value};
ghost use Rattle.node_steps.specs.Refusing.{unless};
ghost use Rattle.replica_core.specs.Replicas.{BookValue, LoggedEntry};
ghost use Rattle.replica_core.specs.Known as tables;
ghost use Rattle.replica_core.specs.Known.{logged_with, with_known};
ghost use Rattle.replica_core.specs.SecondStage.{reply_of, reply_anew, reply_again, log_or_reply};
ghost use Rattle.replica_core.specs.Signing.{exhausted};
ghost use Rattle.replica_core.specs.Holding.{KeepsNoted, arrived_in};
ghost use Rattle.replica_core.specs.Logs.{logged_as};
ghost use Rattle.replica_core.specs.LogFronts.{said_reply, said_words_of, pen_at, logged_at};
ghost use Rattle.replica_core.specs.LogWorks.{CanSay, CanLog, log_book_of, perform_log};
ghost use Rattle.replica_core.specs.Seats.{self_at};
ghost use Rattle.replica_core.specs.Telling.{IsPlanned};

use crate::arriving::newcomer;
use crate::known::Known;
use crate::log::Log;
use crate::logged::{Logged, asked_by};
use crate::logging::{LogWork, Said};
use crate::refusal::Refusal;
use crate::seat::Seat;
use basil_types::bytes::Bytes;
use basil_types::memory::NoMemory;
use basil_types::outbox::Envelope;
use basil_types::party::{Decision, Party};
use basil_types::transaction::{Transaction, TransactionView};
use basil_types::words::Words;
use decision_log::{LogCell, log_first};
use frame_views::frames::LogReplyView;
use frame_writing::{put_unsigned_log_reply, signatures_end_frames};
use keyring::signer::Signer;
use node_steps::pending::{Pending, Unsigned, seal};
use std::alloc::Global;

/// The log reply that says a cell, but its signature.
pub(crate) fn reply_frame(seat: &Seat, id: &[u8; 32], cell: LogCell) -> Result<Vec<u8>, NoMemory>
    ensures { IfOk result (λ f. f.items ≡ unsigned_log_reply (said_reply seat.now id.now cell)) }
{
    let mut frame = Vec::new(seat.alloc);
    let view = LogReplyView {
        shard: seat.home.shard,
        replica: seat.index,
        id: *id,
        decision: cell.decision,
        decided: cell.decided,
        current: cell.current,
        signature: &[],
    };
    put_unsigned_log_reply(&view, &mut frame)?;
    Ok(frame)
}

/// The words of the log reply that says a cell.
pub(crate) fn reply_words(seat: &Seat, id: &[u8; 32], cell: LogCell) -> Words
    ensures { result ≡ words_of (said_words_of seat.now id.now cell) }
{
    Words::log_reply(
        seat.home.shard,
        seat.index,
        id,
        cell.decision,
        cell.decided,
        cell.current,
    )
}

/// Plans that a log reply is signed, stored and sent.
fn plan_anew<S: Signer>(
    pen: &S,
    seat: &Seat,
    from: Party,
    id: &[u8; 32],
    cell: LogCell,
    askers: &[u8],
    arrives: Option<Transaction>,
) -> Result<LogWork, Refusal>
    ensures answer { (accepts : Accepted) (book : BookValue) (t : TransactionValue)
        → arrived_in book.entries arrives ≡ with_known book.entries t
        → IsPlanned (perform_log (S.fixed pen.now)) (pen_at book (S.spent pen.now) (S.left_of pen.now)) result
        (unless (exhausted 1 (pen_value (S.spent pen.now) (S.left_of pen.now)))
        (reply_anew (self_at seat.now accepts (S.fixed pen.now)) from
        (pen_at book (S.spent pen.now) (S.left_of pen.now)) t (logged_at id.now cell askers.now))) }
    ensures says { IfOk result (λ w. CanSay (S.fixed pen.now).size (S.left_of pen.now) w.said) }
    ensures arrives { IfOk result (λ w. w.arrives ≡ arrives) }
{
    signatures_end_frames();
    let left = pen.left();
    if left == 0 {
        return Err(Refusal::Exhausted(left));
    }
    let frame = reply_frame(seat, id, cell)?;
    let words = reply_words(seat, id, cell);
    let pending = Pending::of_one(seat.alloc, words, from, frame, pen.size())?;
    let askers = asked_by(seat.alloc, from, askers)?;
    Ok(LogWork {
        arrives,
        id: *id,
        cell,
        askers,
        said: Said::Anew { pending },
    })
}

/// A frame with a signature behind it.
fn signed(frame: Vec<u8>, signature: &[u8]) -> Result<Bytes, NoMemory>
    requires { length signature.now ≤ signature_limit }
    ensures { IfOk result (λ f. f ≡ frame.items ++ long_text signature.now) }
{
    let mut frame = frame;
    frame.reserve(2 + signature.len())?;
    Ok(seal(frame, signature))
}

/// Plans that a stored log reply is given again.
fn plan_again(
    seat: &Seat,
    from: Party,
    id: &[u8; 32],
    cell: LogCell,
    askers: &[u8],
    stored: &[u8],
    arrives: Option<Transaction>,
) -> Result<LogWork, Refusal>
    requires { length stored.now ≤ signature_limit }
    ensures answer { (accepts : Accepted) (signing : Signing) (book : BookValue) (t : TransactionValue)
        → arrived_in book.entries arrives ≡ with_known book.entries t
        → IsPlanned (perform_log signing) book result
        (Ok (reply_again (self_at seat.now accepts signing) from book t (logged_at id.now cell askers.now)
        stored.now)) }
    ensures says { IfOk result (λ w. (size left : ℕ) → CanSay size left w.said) }
    ensures arrives { IfOk result (λ w. w.arrives ≡ arrives) }
{
    signatures_end_frames();
    let frame = reply_frame(seat, id, cell)?;
    let frame = signed(frame, stored)?;
    let reply = Bytes::copy_of(seat.alloc, stored)?;
    let askers = asked_by(seat.alloc, from, askers)?;
    Ok(LogWork {
        arrives,
        id: *id,
        cell,
        askers,
        said: Said::Again {
            reply,
            sent: Envelope { to: from, frame },
        },
    })
}

/// Plans the reply that says what is logged.
fn plan_reply<S: Signer>(
    pen: &S,
    seat: &Seat,
    from: Party,
    id: &[u8; 32],
    log: &Log,
    arrives: Option<Transaction>,
) -> Result<LogWork, Refusal>
    ensures answer { (accepts : Accepted) (book : BookValue) (t : TransactionValue)
        → arrived_in book.entries arrives ≡ with_known book.entries t
        → IsPlanned (perform_log (S.fixed pen.now)) (pen_at book (S.spent pen.now) (S.left_of pen.now)) result
        (reply_of (self_at seat.now accepts (S.fixed pen.now)) from
        (pen_at book (S.spent pen.now) (S.left_of pen.now)) t (logged_as id.now log.now)) }
    ensures says { IfOk result (λ w. CanSay (S.fixed pen.now).size (S.left_of pen.now) w.said) }
    ensures arrives { IfOk result (λ w. w.arrives ≡ arrives) }
{
    let askers = log.askers.as_slice();
    match &log.reply {
        Some(stored) => plan_again(seat, from, id, log.cell, askers, stored.as_slice(), arrives),
        None => plan_anew(pen, seat, from, id, log.cell, askers, arrives),
    }
}

/// Plans the answer to a second stage of a transaction without outcome: what is logged stays.
pub(crate) fn plan_log<S: Signer>(
    known: &mut Known,
    logged: &mut Logged,
    pen: &S,
    seat: &Seat,
    from: Party,
    t: TransactionView<'_>,
    decision: Decision,
) -> Result<LogWork, Refusal>
    ensures answer { (accepts : Accepted) (book : BookValue)
        → IsPlanned (perform_log (S.fixed pen.now))
        (log_book_of book known.old logged.old (S.spent pen.now) (S.left_of pen.now)) result
        (log_or_reply (self_at seat.now accepts (S.fixed pen.now)) from
        (log_book_of book known.old logged.old (S.spent pen.now) (S.left_of pen.now)) (transaction_of t.entry) decision
        (logged_with logged.old.entries (transactions.id (transaction_of t.entry)))) }
    ensures ready { IfOk result (CanLog (S.fixed pen.now).size (S.left_of pen.now) known.new logged.new) }
    ensures entries { known.new.table.entries ≡ known.old.table.entries }
    ensures noted { KeepsNoted known.old known.new }
    ensures logged { logged.new.entries ≡ logged.old.entries }
{
    logged.make_room()?;
    let arrives = newcomer(known, seat.alloc, t)?;
    let id = t.id();
    match logged.find(&id) {
        Some(log) => plan_reply(pen, seat, from, &id, log, arrives),
        None => plan_anew(pen, seat, from, &id, log_first(decision), &[], arrives),
    }
}

/// Plans the reply that says what is logged of a transaction without outcome, of which something is.
pub(crate) fn plan_told<S: Signer>(
    known: &mut Known,
    logged: &mut Logged,
    pen: &S,
    seat: &Seat,
    from: Party,
    id: &[u8; 32],
    t: TransactionView<'_>,
) -> Result<LogWork, Refusal>
    requires { is_some (logged_with logged.old.entries id.now) ≡ true }
    ensures answer { (accepts : Accepted) (book : BookValue) (l : LoggedEntry)
        → logged_with logged.old.entries id.now ≡ Some l
        → IsPlanned (perform_log (S.fixed pen.now))
        (log_book_of book known.old logged.old (S.spent pen.now) (S.left_of pen.now)) result
        (reply_of (self_at seat.now accepts (S.fixed pen.now)) from
        (log_book_of book known.old logged.old (S.spent pen.now) (S.left_of pen.now)) (transaction_of t.entry) l) }
    ensures ready { IfOk result (CanLog (S.fixed pen.now).size (S.left_of pen.now) known.new logged.new) }
    ensures entries { known.new.table.entries ≡ known.old.table.entries }
    ensures noted { KeepsNoted known.old known.new }
    ensures logged { logged.new.entries ≡ logged.old.entries }
{
    logged.make_room()?;
    let arrives = newcomer(known, seat.alloc, t)?;
    match logged.find(id) {
        Some(log) => plan_reply(pen, seat, from, id, log, arrives),
        None => unreachable!(),
    }
}

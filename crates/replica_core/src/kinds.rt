//! The answer to a frame of which nothing is refused so far is planned, by the frame's kind.

ghost use Rattle.std.specs.Prelude.{◌≡◌, true, None, IfOk, is_some};
ghost use Rattle.std.specs.Option.{ForSome};
ghost use Rattle.basil_types.specs.Shown.{transaction_of};
ghost use Rattle.basil_types.specs.Transaction as transactions;
ghost use Rattle.certificates.specs.Accepted.{Accepted};
ghost use Rattle.frame_views.specs.Fitting.{bounds_of, FitsMessage};
ghost use Rattle.frame_views.specs.Shown.{invoke_of, message_of};
ghost use Rattle.keyring.specs.Signing.{Signing};
ghost use Rattle.node_steps.specs.Pens.{pen_value};
ghost use Rattle.txn_meta.specs.Form as forms;
ghost use Rattle.txn_table.specs.Tables.{entry_with};
ghost use Rattle.replica_core.specs.Answers.{answer_kind};
ghost use Rattle.replica_core.specs.FirstStage.{unless_ended};
ghost use Rattle.replica_core.specs.Invokes.{answer_invoke};
ghost use Rattle.replica_core.specs.Kinds as kinds;
ghost use Rattle.replica_core.specs.Kinds.{IsWorkOf};
ghost use Rattle.replica_core.specs.Known.{logged_with};
ghost use Rattle.replica_core.specs.Nodes.{ShowsSame};
ghost use Rattle.replica_core.specs.Placing.{IsOpen};
ghost use Rattle.replica_core.specs.Refused.{IsWellFormed};
ghost use Rattle.replica_core.specs.Replicas.{BookValue};
ghost use Rattle.replica_core.specs.SecondStage as stages;
ghost use Rattle.replica_core.specs.SecondStage.{answer_st2, answer_recover, recover_by};
ghost use Rattle.replica_core.specs.Seats.{self_at};
ghost use Rattle.replica_core.specs.Works.{CanPerform};

use crate::election::{LeadWork, known_text, plan_decide, plan_elect};
use crate::first::{plan_ended, plan_first_stage, plan_st1};
use crate::invoke::plan_invoke;
use crate::logging::LogWork;
use crate::parts::Parts;
use crate::plan::Work;
use crate::reads::{ReadWork, plan_read};
use crate::refusal::Refusal;
use crate::seat::Seat;
use crate::second::{plan_log, plan_told};
use crate::work::KnownWork;
use crate::writeback::plan_writeback;
use basil_types::party::{Decision, Party};
use basil_types::transaction::TransactionView;
use frame_views::frames::{InvokeView, MessageView};
use keyring::signer::Signer;
use txn_meta::places::log_shard;

/// Work on the known transactions, as work.
fn known_work(planned: Result<KnownWork, Refusal>) -> Result<Work, Refusal>
    ensures { result ≡ kinds.as_known planned }
{
    match planned {
        Ok(work) => Ok(Work::Known(work)),
        Err(refused) => Err(refused),
    }
}

/// A noted read, as work.
fn read_work(planned: Result<ReadWork, Refusal>) -> Result<Work, Refusal>
    ensures { result ≡ kinds.as_read planned }
{
    match planned {
        Ok(work) => Ok(Work::Read(work)),
        Err(refused) => Err(refused),
    }
}

/// Work on what is logged, as work.
fn log_work(planned: Result<LogWork, Refusal>) -> Result<Work, Refusal>
    ensures { result ≡ kinds.as_log planned }
{
    match planned {
        Ok(work) => Ok(Work::Log(work)),
        Err(refused) => Err(refused),
    }
}

/// An election word, as work.
fn lead_work(planned: Result<LeadWork, Refusal>) -> Result<Work, Refusal>
    ensures { result ≡ kinds.as_lead planned }
{
    match planned {
        Ok(work) => Ok(Work::Lead(work)),
        Err(refused) => Err(refused),
    }
}

/// Plans the answer to a second stage.
fn plan_second<S: Signer>(
    parts: &mut Parts,
    pen: &S,
    seat: &Seat,
    from: Party,
    t: TransactionView<'_>,
    decision: Decision,
) -> Result<Work, Refusal>
    ensures answer { IsWorkOf seat.now (S.fixed pen.now) (pen_value (S.spent pen.now) (S.left_of pen.now))
        parts.old parts.new result (λ me book. answer_st2 me from book (transaction_of t.entry) decision) }
    ensures ready { IfOk result (CanPerform (S.fixed pen.now).size (S.left_of pen.now) parts.new) }
    ensures same { ShowsSame parts.old parts.new }
{
    let id = t.id();
    match plan_ended(&parts.known, seat, from, &id) {
        Some(planned) => known_work(planned),
        None => {
            let known = &mut parts.known;
            let planned = plan_log(known, &mut parts.logged, pen, seat, from, t, decision);
            log_work(planned)
        }
    }
}

/// Plans the answer to an invoke.
fn plan_invocation<S: Signer>(
    parts: &mut Parts,
    pen: &S,
    seat: &Seat,
    from: Party,
    m: &InvokeView<'_>,
) -> Result<Work, Refusal>
    ensures answer { IsWorkOf seat.now (S.fixed pen.now) (pen_value (S.spent pen.now) (S.left_of pen.now))
        parts.old parts.new result (λ me book. answer_invoke me from book (invoke_of m.now)) }
    ensures ready { IfOk result (CanPerform (S.fixed pen.now).size (S.left_of pen.now) parts.new) }
    ensures same { ShowsSame parts.old parts.new }
{
    match plan_ended(&parts.known, seat, from, &m.id) {
        Some(planned) => known_work(planned),
        None => {
            let planned = plan_invoke(&parts.known, &mut parts.logged, pen, seat, from, m);
            log_work(planned)
        }
    }
}

/// Whether a transaction has neither reads nor writes.
fn is_empty(t: TransactionView<'_>) -> bool
    ensures { result ≡ forms.is_empty (transaction_of t.entry) }
{
    t.read_at(0).is_none() && t.write_at(0).is_none()
}

/// Whether the replica's shard logs the decision of a transaction, of good form or not.
fn logs_any(seat: &Seat, t: TransactionView<'_>) -> bool
    ensures { (accepts : Accepted) (signing : Signing)
        → result ≡ stages.logs_here (self_at seat.now accepts signing) (transaction_of t.entry) }
{
    if is_empty(t) {
        0 == seat.home.shard
    } else {
        log_shard(t, &seat.home.cluster) == seat.home.shard
    }
}

/// Whether a recovery is told what is logged: on the log shard, where something is.
fn is_told(parts: &Parts, seat: &Seat, id: &[u8; 32], t: TransactionView<'_>) -> bool
    requires { id.now ≡ transactions.id (transaction_of t) }
    ensures tells { (accepts : Accepted) (signing : Signing) (book : BookValue)
        → result ≡ kinds.tells (self_at seat.now accepts signing)
        (record book { entries = parts.now.known.table.entries; logged = parts.now.logged.entries })
        (transaction_of t.entry) }
    ensures logged { result ≡ true → is_some (logged_with parts.now.logged.entries id.now) ≡ true }
{
    parts.logged.find(id).is_some() && logs_any(seat, known_text(&parts.known, id, t))
}

/// Plans the answer to a recovery of a transaction without outcome.
fn plan_unended<S: Signer>(
    parts: &mut Parts,
    pen: &S,
    seat: &Seat,
    now: u64,
    from: Party,
    id: &[u8; 32],
    t: TransactionView<'_>,
) -> Result<Work, Refusal>
    requires named { id.now ≡ transactions.id (transaction_of t) }
    requires undecided { ForSome (entry_with parts.old.known.table.entries id.now) IsOpen }
    ensures answer { IsWorkOf seat.now (S.fixed pen.now) (pen_value (S.spent pen.now) (S.left_of pen.now))
        parts.old parts.new result (λ me book. recover_by me now from book (transaction_of t.entry)
        (logged_with book.logged (transactions.id (transaction_of t.entry)))) }
    ensures ready { IfOk result (CanPerform (S.fixed pen.now).size (S.left_of pen.now) parts.new) }
    ensures same { ShowsSame parts.old parts.new }
{
    if is_told(parts, seat, id, t) {
        let planned = plan_told(&mut parts.known, &mut parts.logged, pen, seat, from, id, t);
        log_work(planned)
    } else {
        let planned = plan_first_stage(&mut parts.known, pen, seat, now, from, t);
        known_work(planned)
    }
}

/// Plans the answer to a recovery.
fn plan_recovery<S: Signer>(
    parts: &mut Parts,
    pen: &S,
    seat: &Seat,
    now: u64,
    from: Party,
    t: TransactionView<'_>,
) -> Result<Work, Refusal>
    ensures answer { IsWorkOf seat.now (S.fixed pen.now) (pen_value (S.spent pen.now) (S.left_of pen.now))
        parts.old parts.new result (λ me book. answer_recover me now from book (transaction_of t.entry)) }
    ensures ready { IfOk result (CanPerform (S.fixed pen.now).size (S.left_of pen.now) parts.new) }
    ensures same { ShowsSame parts.old parts.new }
{
    let id = t.id();
    match plan_ended(&parts.known, seat, from, &id) {
        Some(planned) => known_work(planned),
        None => plan_unended(parts, pen, seat, now, from, &id, t),
    }
}

/// Plans the answer to a frame of which nothing is refused so far.
pub(crate) fn plan_kind<S: Signer>(
    parts: &mut Parts,
    pen: &S,
    seat: &Seat,
    now: u64,
    from: Party,
    m: &MessageView<'_>,
) -> Result<Work, Refusal>
    requires { FitsMessage (bounds_of seat.now.home.cluster) (message_of m.now) }
    ensures answer { IsWorkOf seat.now (S.fixed pen.now) (pen_value (S.spent pen.now) (S.left_of pen.now))
        parts.old parts.new result (λ me book. answer_kind me now from book (message_of m.now)) }
    ensures ready { IfOk result (CanPerform (S.fixed pen.now).size (S.left_of pen.now) parts.new) }
    ensures same { ShowsSame parts.old parts.new }
{
    match m {
        MessageView::ReadReply(_) | MessageView::Vote(_) | MessageView::LogReply(_) => {
            Err(Refusal::NotMine)
        }
        MessageView::Read(m) => { read_work(plan_read(&mut parts.known, pen, seat, now, from, m)) }
        MessageView::St1(m) => {
            known_work(plan_st1(&mut parts.known, pen, seat, now, from, m.transaction))
        }
        MessageView::St2(m) => plan_second(parts, pen, seat, from, m.transaction, m.decision),
        MessageView::Writeback(m) => {
            known_work(plan_writeback(&mut parts.known, pen, seat, m.transaction, &m.certificate))
        }
        MessageView::Recover(m) => plan_recovery(parts, pen, seat, now, from, m.transaction),
        MessageView::Invoke(m) => plan_invocation(parts, pen, seat, from, m),
        MessageView::Elect(m) => {
            lead_work(plan_elect(&parts.known, &mut parts.leading, pen, seat, m))
        }
        MessageView::Decide(m) => {
            log_work(plan_decide(&mut parts.known, &mut parts.logged, pen, seat, m))
        }
    }
}

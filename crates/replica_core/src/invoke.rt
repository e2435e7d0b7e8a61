//! Invokes are planned: a view is entered, with a word for its election (Basil, fallback).

ghost use Rattle.std.specs.Prelude.{◌≡◌, [], ◌∷◌, None, Some, IfOk};
ghost use Rattle.basil_types.specs.Shown.{transaction_of};
ghost use Rattle.basil_types.specs.Words.{words_of};
ghost use Rattle.certificates.specs.Accepted.{Accepted};
ghost use Rattle.frame_views.specs.Shown.{invoke_of};
ghost use Rattle.frame_writing.specs.Unsigned.{unsigned_elect};
ghost use Rattle.node_steps.specs.Pens.{pen_value};
ghost use Rattle.txn_table.specs.Tables.{entry_with};
ghost use Rattle.replica_core.specs.Replicas.{BookValue};
ghost use Rattle.replica_core.specs.Invokes.{reported, enter_view, invoke_logged};
ghost use Rattle.replica_core.specs.Known.{logged_with};
ghost use Rattle.replica_core.specs.ElectFronts.{elect_said};
ghost use Rattle.replica_core.specs.LogFronts.{pen_at};
ghost use Rattle.replica_core.specs.Logs.{logged_as};
ghost use Rattle.replica_core.specs.LogWorks.{CanSay, CanLog, log_book_of, perform_log};
ghost use Rattle.replica_core.specs.Seats.{self_at};
ghost use Rattle.replica_core.specs.Telling.{IsPlanned};

use crate::known::Known;
use crate::log::Log;
use crate::logged::{Logged, asked_by};
use crate::logging::{LogWork, Said};
use crate::refusal::Refusal;
use crate::seat::Seat;
use basil_types::memory::NoMemory;
use basil_types::party::{Decision, Party};
use basil_types::transaction::TransactionView;
use basil_types::words::Words;
use decision_log::enter;
use fallback_views::raise;
use frame_views::frames::{ElectView, InvokeView};
use frame_writing::{put_unsigned_elect, signatures_end_frames};
use keyring::signer::Signer;
use node_steps::pending::Pending;
use std::alloc::Global;
use txn_meta::places::leader_of;

/// The views that the log replies of an invoke report.
fn reported(alloc: Global, m: &InvokeView<'_>) -> Result<Vec<u64>, NoMemory>
    ensures { IfOk result (λ views. views.items ≡ reported (invoke_of m.now)) }
{
    let views: Vec<u64> = m.replies.iter().map(|reply| reply.current).collect(alloc)?;
    Ok(views)
}

/// An election word, but its signature.
fn elect_frame(
    seat: &Seat,
    t: TransactionView<'_>,
    decision: Decision,
    view: u64,
) -> Result<Vec<u8>, NoMemory>
    ensures { IfOk result (λ f. f.items
        ≡ unsigned_elect (elect_said seat.now (transaction_of t.entry) decision view)) }
{
    let mut frame = Vec::new(seat.alloc);
    let word = ElectView {
        transaction: t,
        shard: seat.home.shard,
        replica: seat.index,
        decision,
        view,
        signature: &[],
    };
    put_unsigned_elect(&word, &mut frame)?;
    Ok(frame)
}

/// Plans that a raised view is entered.
fn plan_enter<S: Signer>(
    pen: &S,
    seat: &Seat,
    from: Party,
    id: &[u8; 32],
    t: TransactionView<'_>,
    log: &Log,
    view: u64,
) -> Result<LogWork, Refusal>
    ensures answer { (accepts : Accepted) (book : BookValue)
        → IsPlanned (perform_log (S.fixed pen.now)) (pen_at book (S.spent pen.now) (S.left_of pen.now)) result
        (enter_view (self_at seat.now accepts (S.fixed pen.now)) from
        (pen_at book (S.spent pen.now) (S.left_of pen.now)) (transaction_of t.entry) (logged_as id.now log.now) view) }
    ensures says { IfOk result (λ w. CanSay (S.fixed pen.now).size (S.left_of pen.now) w.said) }
    ensures arrives { IfOk result (λ w. w.arrives ≡ None) }
{
    signatures_end_frames();
    if view <= log.cell.current {
        return Err(Refusal::StaleView(log.cell.current));
    }
    let left = pen.left();
    if left == 0 {
        return Err(Refusal::Exhausted(left));
    }
    let frame = elect_frame(seat, t, log.cell.decision, view)?;
    let words = Words::election(seat.home.shard, seat.index, id, log.cell.decision, view);
    let leader = Party::Replica {
        shard: seat.home.shard,
        index: leader_of(t.time(), view, &seat.home.cluster),
    };
    let pending = Pending::of_one(seat.alloc, words, leader, frame, pen.size())?;
    let askers = asked_by(seat.alloc, from, log.askers.as_slice())?;
    Ok(LogWork {
        arrives: None,
        id: *id,
        cell: enter(log.cell, view),
        askers,
        said: Said::Entered { pending },
    })
}

/// Plans the answer to an invoke about a transaction without outcome.
pub(crate) fn plan_invoke<S: Signer>(
    known: &Known,
    logged: &mut Logged,
    pen: &S,
    seat: &Seat,
    from: Party,
    m: &InvokeView<'_>,
) -> Result<LogWork, Refusal>
    ensures answer { (accepts : Accepted) (book : BookValue)
        → IsPlanned (perform_log (S.fixed pen.now))
        (log_book_of book known.now logged.old (S.spent pen.now) (S.left_of pen.now)) result
        (invoke_logged (self_at seat.now accepts (S.fixed pen.now)) from
        (log_book_of book known.now logged.old (S.spent pen.now) (S.left_of pen.now)) (invoke_of m.now)
        (entry_with known.now.table.entries m.now.id) (logged_with logged.old.entries m.now.id)) }
    ensures ready { IfOk result (CanLog (S.fixed pen.now).size (S.left_of pen.now) known.now logged.new) }
    ensures logged { logged.new.entries ≡ logged.old.entries }
{
    logged.make_room()?;
    let Some(entry) = known.table.entry_with(&m.id) else {
        return Err(Refusal::NotLogged);
    };
    let Some(log) = logged.find(&m.id) else {
        return Err(Refusal::NotLogged);
    };
    let views = reported(seat.alloc, m)?;
    let view = raise(&seat.home.cluster, views.as_slice(), log.cell.current);
    plan_enter(pen, seat, from, &m.id, entry.view(), log, view)
}

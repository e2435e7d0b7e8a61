//! The answer to a frame is planned: what is refused of it, and otherwise the work that it asks for.

ghost use Rattle.std.specs.Prelude.{◌≡◌, IfOk};
ghost use Rattle.frame_views.specs.Fitting.{bounds_of, FitsMessage, IsSpoken};
ghost use Rattle.frame_views.specs.Shown.{message_of};
ghost use Rattle.mvtso_check.specs.Standing.{StandsFor};
ghost use Rattle.node_steps.specs.Pens.{pen_value};
ghost use Rattle.replica_core.specs.Answers.{answer, answer_message};
ghost use Rattle.replica_core.specs.Leads.{kept_next};
ghost use Rattle.replica_core.specs.Nodes.{Shows, ShowsSame, book_shown};
ghost use Rattle.replica_core.specs.Replicas.{BookValue};
ghost use Rattle.replica_core.specs.Seats.{self_at};
ghost use Rattle.replica_core.specs.Telling.{IsPlanned};
ghost use Rattle.replica_core.specs.Works.{CanPerform, perform_work};

use crate::kinds::plan_kind;
use crate::parts::Parts;
use crate::plan::Work;
use crate::refusal::Refusal;
use crate::refuse::refuse;
use crate::seat::Seat;
use basil_types::party::Party;
use frame_views::frames::{MessageView, check};
use keyring::signer::Signer;
use keyring::verifier::Verifier;

/// Plans the answer to a message of the cluster.
fn plan_message<V: Verifier, S: Signer>(
    parts: &mut Parts,
    keys: &V,
    pen: &S,
    seat: &Seat,
    now: u64,
    from: Party,
    m: &MessageView<'_>,
) -> Result<Work, Refusal>
    requires spoken { IsSpoken (message_of m.now) }
    requires fits { FitsMessage (bounds_of seat.now.home.cluster) (message_of m.now) }
    ensures answer { (book : BookValue) → StandsFor parts.old.known.store parts.old.known.table.entries book.noted
        → IsPlanned (perform_work (S.fixed pen.now) (kept_next parts.new.leading))
        (book_shown book parts.old (pen_value (S.spent pen.now) (S.left_of pen.now))) result
        (answer_message (self_at seat.now (V.accepted keys.now) (S.fixed pen.now)) now from
        (book_shown book parts.old (pen_value (S.spent pen.now) (S.left_of pen.now))) (message_of m.now)) }
    ensures ready { IfOk result (CanPerform (S.fixed pen.now).size (S.left_of pen.now) parts.new) }
    ensures same { ShowsSame parts.old parts.new }
{
    match refuse(keys, seat, m) {
        Ok(()) => plan_kind(parts, pen, seat, now, from, m),
        Err(refused) => Err(refused),
    }
}

/// Plans the answer to a frame.
pub(crate) fn plan_frame<V: Verifier, S: Signer>(
    parts: &mut Parts,
    keys: &V,
    pen: &S,
    seat: &Seat,
    now: u64,
    from: Party,
    frame: &[u8],
) -> Result<Work, Refusal>
    ensures answer { (book : BookValue) → Shows parts.old (pen_value (S.spent pen.now) (S.left_of pen.now)) book
        → IsPlanned (perform_work (S.fixed pen.now) (kept_next parts.new.leading)) book result
        (answer (self_at seat.now (V.accepted keys.now) (S.fixed pen.now)) now from book frame.now) }
    ensures ready { IfOk result (CanPerform (S.fixed pen.now).size (S.left_of pen.now) parts.new) }
    ensures same { ShowsSame parts.old parts.new }
{
    match check(frame, &seat.home.cluster) {
        Ok(m) => plan_message(parts, keys, pen, seat, now, from, &m),
        Err(fault) => Err(Refusal::BadFrame(fault)),
    }
}

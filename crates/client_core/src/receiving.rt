//! Planning the answer to a frame.

ghost use Rattle.std.specs.Prelude.{◌≡◌, ℕ, IfOk, None};
ghost use Rattle.client_core.specs.Answers.{on_frame, on_message};
ghost use Rattle.client_core.specs.Clients.{ClientValue};
ghost use Rattle.client_core.specs.Receiving.{IsPlannedFrame};
ghost use Rattle.client_core.specs.Seats.{self_at};
ghost use Rattle.client_core.specs.Showing.{ShowsHeld};
ghost use Rattle.client_core.specs.Works.{CanPerform};
ghost use Rattle.frame_views.specs.Fitting.{FitsMessage, bounds_of};
ghost use Rattle.frame_views.specs.Shown.{message_of};
ghost use Rattle.keyring.specs.Signing.{Signing};

use crate::held::Held;
use crate::reply_plans::plan_reply;
use crate::seat::Seat;
use crate::taking::plan_named;
use crate::work::ClientPlan;
use certificates::FrameFault;
use frame_views::frames::{MessageView, check};
use keyring::verifier::Verifier;

/// Plans the answer to a message.
fn plan_message<V: Verifier>(
    held: &mut Held,
    seat: &Seat,
    keys: &V,
    m: &MessageView<'_>,
) -> Result<ClientPlan, FrameFault>
    requires cluster { held.old.cluster ≡ seat.now.cluster }
    requires fits { FitsMessage (bounds_of seat.now.cluster) (message_of m.now) }
    ensures answer { (signing : Signing) (v : ClientValue) → ShowsHeld held.old v → IsPlannedFrame signing held.new v
        result (on_message (self_at seat.now (V.accepted keys.now) signing) v (message_of m.now)) }
    ensures ready { (size left : ℕ) → IfOk result (CanPerform size left held.new) }
    ensures shown { (v : ClientValue) → ShowsHeld held.old v → ShowsHeld held.new v }
    ensures slot { IfOk result (λ plan. plan.slot ≡ None) }
    ensures cluster { held.new.cluster ≡ held.old.cluster }
{
    match m {
        MessageView::ReadReply(reply) => plan_reply(held, seat, keys, reply),
        MessageView::Vote(vote) => plan_named(held, seat, keys, &vote.id, m),
        MessageView::LogReply(reply) => plan_named(held, seat, keys, &reply.id, m),
        MessageView::Writeback(writeback) => {
            let named = writeback.transaction.id();
            plan_named(held, seat, keys, &named, m)
        }
        MessageView::Read(_)
        | MessageView::St1(_)
        | MessageView::St2(_)
        | MessageView::Recover(_)
        | MessageView::Invoke(_)
        | MessageView::Elect(_)
        | MessageView::Decide(_) => Err(FrameFault::NotMine),
    }
}

/// Plans the answer to a frame.
pub(crate) fn plan_frame<V: Verifier>(
    held: &mut Held,
    seat: &Seat,
    keys: &V,
    frame: &[u8],
) -> Result<ClientPlan, FrameFault>
    requires { held.old.cluster ≡ seat.now.cluster }
    ensures answer { (signing : Signing) (v : ClientValue) → ShowsHeld held.old v → IsPlannedFrame signing held.new v
        result (on_frame (self_at seat.now (V.accepted keys.now) signing) v frame.now) }
    ensures ready { (size left : ℕ) → IfOk result (CanPerform size left held.new) }
    ensures shown { (v : ClientValue) → ShowsHeld held.old v → ShowsHeld held.new v }
    ensures slot { IfOk result (λ plan. plan.slot ≡ None) }
    ensures cluster { held.new.cluster ≡ held.old.cluster }
{
    match check(frame, &seat.cluster) {
        Ok(m) => plan_message(held, seat, keys, &m),
        Err(fault) => Err(FrameFault::BadFrame(fault)),
    }
}

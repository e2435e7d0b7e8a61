//! Planning the answer to a read reply.

ghost use Rattle.std.specs.Prelude.{◌≡◌, ◌<◌, ℕ, IfOk, Option, None, Some, length, slice_get};
ghost use Rattle.std.specs.Option.{ForSome};
ghost use Rattle.client_core.specs.Clients.{AskedRead, ClientValue, SlotValue, quiet};
ghost use Rattle.client_core.specs.Frames.{on_read_reply, reply_by};
ghost use Rattle.client_core.specs.Receiving.{IsPlannedFrame};
ghost use Rattle.client_core.specs.Replying.{HasReplyRoomAt, TellsAt};
ghost use Rattle.client_core.specs.Seats.{self_at};
ghost use Rattle.client_core.specs.Showing.{ShowsHeld};
ghost use Rattle.client_core.specs.Slots.{asked, put_read, with_slot};
ghost use Rattle.client_core.specs.Works.{CanPerform, WillDo};
ghost use Rattle.frame_views.specs.Fitting.{FitsReadReply, bounds_of};
ghost use Rattle.frame_views.specs.Shown.{read_reply_of};
ghost use Rattle.keyring.specs.Signing.{Signing};

use crate::held::{Held, Slot};
use crate::reading::plan_nothing;
use crate::replies::KeptReply;
use crate::seat::Seat;
use crate::work::{ClientPlan, Work};
use certificates::FrameFault;
use frame_views::frames::ReadReplyView;
use keyring::verifier::Verifier;
use node_steps::pending::outbox;

/// A plan to keep a reply to the read at a place of a slot, or to keep nothing.
fn plan_kept(seat: &Seat, slot: usize, read: usize, kept: Option<KeptReply>) -> ClientPlan
    ensures planned { (signing : Signing) (held : Held) (v : ClientValue) (s : SlotValue) (r : AskedRead) →
        ShowsHeld held v → slot < length held.slots.items → slice_get v.slots slot ≡ Some s →
        ForSome (slice_get held.slots.items slot) (HasReplyRoomAt read) →
        ForSome (slice_get held.slots.items slot) (TellsAt read kept r) →
        WillDo signing held v result (quiet (with_slot v slot (record s { reads = put_read r s.reads }))) }
    ensures ready { (size left : ℕ) (held : Held) → slot < length held.slots.items →
        ForSome (slice_get held.slots.items slot) (HasReplyRoomAt read) → CanPerform size left held result }
    ensures slot { result.slot ≡ None }
{
    match kept {
        Some(reply) => ClientPlan {
            work: Work::Reply { slot, read, reply },
            out: outbox(seat.alloc),
            slot: None,
            messages: 0,
            bytes: 0,
        },
        None => plan_nothing(seat),
    }
}

/// Plans the answer to a reply to the read at a place of a slot.
fn plan_reply_to<V: Verifier>(
    held: &mut Held,
    seat: &Seat,
    keys: &V,
    slot: usize,
    read: usize,
    reply: &ReadReplyView<'_>,
) -> Result<ClientPlan, FrameFault>
    requires held { slot < length held.old.slots.items }
    requires read { ForSome (slice_get held.old.slots.items slot) (λ (x : Slot). read < length x.reads.items) }
    requires fits { FitsReadReply (bounds_of seat.now.cluster) (read_reply_of reply.now) }
    ensures answer { (signing : Signing) (v : ClientValue) (s : SlotValue) (r : AskedRead) → ShowsHeld held.old v →
        slice_get v.slots slot ≡ Some s → slice_get s.reads read ≡ Some r → IsPlannedFrame signing held.new v result
        (reply_by (self_at seat.now (V.accepted keys.now) signing) v slot s (read_reply_of reply.now) (Some r)) }
    ensures ready { (size left : ℕ) → IfOk result (CanPerform size left held.new) }
    ensures shown { (v : ClientValue) → ShowsHeld held.old v → ShowsHeld held.new v }
    ensures slot { IfOk result (λ plan. plan.slot ≡ None) }
    ensures cluster { held.new.cluster ≡ held.old.cluster }
{
    match held.room_for_reply(slot, read) {
        Ok(()) => {}
        Err(_) => return Err(FrameFault::NoMemory),
    }
    let place = &held.slots[slot];
    match place.take_reply(keys, seat, read, reply) {
        Ok(kept) => Ok(plan_kept(seat, slot, read, kept)),
        Err(fault) => Err(fault),
    }
}

/// Plans the answer to a reply to a read of the transaction in a slot.
fn plan_reply_in<V: Verifier>(
    held: &mut Held,
    seat: &Seat,
    keys: &V,
    slot: usize,
    reply: &ReadReplyView<'_>,
) -> Result<ClientPlan, FrameFault>
    requires held { slot < length held.old.slots.items }
    requires fits { FitsReadReply (bounds_of seat.now.cluster) (read_reply_of reply.now) }
    ensures answer { (signing : Signing) (v : ClientValue) (s : SlotValue) → ShowsHeld held.old v →
        slice_get v.slots slot ≡ Some s → IsPlannedFrame signing held.new v result
        (reply_by (self_at seat.now (V.accepted keys.now) signing) v slot s (read_reply_of reply.now)
        (asked (read_reply_of reply.now).key s)) }
    ensures ready { (size left : ℕ) → IfOk result (CanPerform size left held.new) }
    ensures shown { (v : ClientValue) → ShowsHeld held.old v → ShowsHeld held.new v }
    ensures slot { IfOk result (λ plan. plan.slot ≡ None) }
    ensures cluster { held.new.cluster ≡ held.old.cluster }
{
    let place = &held.slots[slot];
    match place.asked_at(reply.key) {
        Some(read) => plan_reply_to(held, seat, keys, slot, read, reply),
        None => Err(FrameFault::NotMine),
    }
}

/// Plans the answer to a read reply.
pub(crate) fn plan_reply<V: Verifier>(
    held: &mut Held,
    seat: &Seat,
    keys: &V,
    reply: &ReadReplyView<'_>,
) -> Result<ClientPlan, FrameFault>
    requires { FitsReadReply (bounds_of seat.now.cluster) (read_reply_of reply.now) }
    ensures answer { (signing : Signing) (v : ClientValue) → ShowsHeld held.old v →
        IsPlannedFrame signing held.new v result
        (on_read_reply (self_at seat.now (V.accepted keys.now) signing) v (read_reply_of reply.now)) }
    ensures ready { (size left : ℕ) → IfOk result (CanPerform size left held.new) }
    ensures shown { (v : ClientValue) → ShowsHeld held.old v → ShowsHeld held.new v }
    ensures slot { IfOk result (λ plan. plan.slot ≡ None) }
    ensures cluster { held.new.cluster ≡ held.old.cluster }
{
    if reply.client != seat.number {
        return Err(FrameFault::NotMine);
    }
    match held.slot_of_time(reply.time) {
        Some(slot) => plan_reply_in(held, seat, keys, slot, reply),
        None => Err(FrameFault::NotMine),
    }
}

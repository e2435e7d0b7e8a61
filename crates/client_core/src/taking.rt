//! Planning that the pursuit of a transaction takes a frame.

ghost use Rattle.std.specs.Prelude.{◌≡◌, ◌<◌, ℕ, IfOk, IfErr, None, Some, length, slice_get};
ghost use Rattle.certificates.specs.declared.fault.FrameFault.TheVariants as faults;
ghost use Rattle.client_core.specs.Clients.{ClientValue, SlotValue};
ghost use Rattle.client_core.specs.Frames.{held_at_slot};
ghost use Rattle.client_core.specs.Receiving.{IsPlannedFrame, IsTake};
ghost use Rattle.client_core.specs.Seats.{self_at};
ghost use Rattle.client_core.specs.Showing.{ShowsHeld, ShowsPursuit};
ghost use Rattle.client_core.specs.Taking.{on_named, on_pursuit, taken_of};
ghost use Rattle.client_core.specs.Works.{CanPerform, IsPlanOf};
ghost use Rattle.client_core.specs.declared.work.Work.TheVariants as works;
ghost use Rattle.client_recover.specs.Taken.{PursuitValue};
ghost use Rattle.frame_views.specs.Fitting.{FitsMessage, bounds_of};
ghost use Rattle.frame_views.specs.Shown.{message_of};
ghost use Rattle.keyring.specs.Signing.{Signing};

use crate::held::{Formed, Held};
use crate::seat::Seat;
use crate::work::{ClientPlan, Work};
use certificates::FrameFault;
use client_steps::sending::{Sending, send_taken};
use frame_views::frames::MessageView;
use keyring::verifier::Verifier;

/// The plan that the pursuit in a slot takes what it holds back, with what is sent then.
fn plan_sent(slot: usize, sent: Sending) -> Result<ClientPlan, FrameFault>
    ensures plan { IfOk result (IsPlanOf 0 (works.Take slot sent.starts) sent.out) }
    ensures slot { IfOk result (λ plan. plan.slot ≡ None) }
    ensures wanting { IfErr result (λ e. e ≡ faults.NoMemory) }
{
    let work = Work::Take {
        slot,
        starts: sent.starts,
    };
    match ClientPlan::of(work, sent.out, 0) {
        Ok(plan) => Ok(plan),
        Err(_) => Err(FrameFault::NoMemory),
    }
}

/// Plans that a pursuit takes a frame, which it holds back.
fn plan_formed<V: Verifier>(
    formed: &mut Formed,
    seat: &Seat,
    keys: &V,
    slot: usize,
    m: &MessageView<'_>,
) -> Result<ClientPlan, FrameFault>
    requires cluster { formed.old.pursuit.cluster ≡ seat.now.cluster }
    requires fits { FitsMessage (bounds_of seat.now.cluster) (message_of m.now) }
    ensures planned { (p : PursuitValue) → ShowsPursuit formed.old p → IsTake seat.now.cluster formed.new p slot result
        (taken_of (V.accepted keys.now) seat.now.cluster p.transaction (message_of m.now)) }
    ensures ready { (size left : ℕ) (held : Held) → slot < length held.slots.items →
        IfOk result (CanPerform size left held) }
    ensures shown { (p : PursuitValue) → ShowsPursuit formed.old p → ShowsPursuit formed.new p }
    ensures slot { IfOk result (λ plan. plan.slot ≡ None) }
    ensures cluster { formed.new.pursuit.cluster ≡ formed.old.pursuit.cluster }
    ensures transaction { formed.new.pursuit.transaction ≡ formed.old.pursuit.transaction }
{
    formed.let_go();
    let decided = formed.is_decided();
    match formed.hold_back(keys, m) {
        Ok(()) => {}
        Err(fault) => return Err(fault),
    }
    match send_taken(seat.alloc, &formed.pursuit, formed.second, decided) {
        Ok(sent) => plan_sent(slot, sent),
        Err(_) => Err(FrameFault::NoMemory),
    }
}

/// Plans that the pursuit in a slot takes a frame.
fn plan_take<V: Verifier>(
    held: &mut Held,
    seat: &Seat,
    keys: &V,
    slot: usize,
    m: &MessageView<'_>,
) -> Result<ClientPlan, FrameFault>
    requires held { slot < length held.old.slots.items }
    requires cluster { held.old.cluster ≡ seat.now.cluster }
    requires fits { FitsMessage (bounds_of seat.now.cluster) (message_of m.now) }
    ensures answer { (signing : Signing) (v : ClientValue) (s : SlotValue) → ShowsHeld held.old v →
        slice_get v.slots slot ≡ Some s → IsPlannedFrame signing held.new v result
        (on_pursuit (self_at seat.now (V.accepted keys.now) signing) v (message_of m.now) (held_at_slot slot s)) }
    ensures ready { (size left : ℕ) → IfOk result (CanPerform size left held.new) }
    ensures shown { (v : ClientValue) → ShowsHeld held.old v → ShowsHeld held.new v }
    ensures slot { IfOk result (λ plan. plan.slot ≡ None) }
    ensures cluster { held.new.cluster ≡ held.old.cluster }
{
    let place = &mut held.slots[slot];
    match &mut place.formed {
        Some(formed) => plan_formed(formed, seat, keys, slot, m),
        None => Err(FrameFault::NotMine),
    }
}

/// Plans that the pursuit of the transaction with an id takes a frame.
pub(crate) fn plan_named<V: Verifier>(
    held: &mut Held,
    seat: &Seat,
    keys: &V,
    named: &[u8; 32],
    m: &MessageView<'_>,
) -> Result<ClientPlan, FrameFault>
    requires cluster { held.old.cluster ≡ seat.now.cluster }
    requires fits { FitsMessage (bounds_of seat.now.cluster) (message_of m.now) }
    ensures answer { (signing : Signing) (v : ClientValue) → ShowsHeld held.old v →
        IsPlannedFrame signing held.new v result
        (on_named (self_at seat.now (V.accepted keys.now) signing) v named.now (message_of m.now)) }
    ensures ready { (size left : ℕ) → IfOk result (CanPerform size left held.new) }
    ensures shown { (v : ClientValue) → ShowsHeld held.old v → ShowsHeld held.new v }
    ensures slot { IfOk result (λ plan. plan.slot ≡ None) }
    ensures cluster { held.new.cluster ≡ held.old.cluster }
{
    match held.slot_of_id(named) {
        Some(slot) => plan_take(held, seat, keys, slot, m),
        None => Err(FrameFault::NotMine),
    }
}

//! Planning that a second stage starts.

ghost use Rattle.std.specs.Prelude.{◌≡◌, ◌<◌, ◌||◌, false, ℕ, None, Some, IfOk, is_some, length, slice_get};
ghost use Rattle.certificates.specs.Accepted.{Accepted};
ghost use Rattle.client_core.specs.Calls.{call_settle, pursuit_done};
ghost use Rattle.client_core.specs.Clients.{ClientSelf, ClientValue, SlotValue};
ghost use Rattle.client_core.specs.Seats.{self_at};
ghost use Rattle.client_core.specs.Showing.{ShowsHeld, ShowsPursuit};
ghost use Rattle.client_core.specs.Works.{CanPerform, IsPlanned, WillDo};
ghost use Rattle.client_recover.specs.Pursuits as pursuits;
ghost use Rattle.client_recover.specs.Taken.{PursuitValue};
ghost use Rattle.keyring.specs.Signing.{Signing};

use crate::held::{Formed, Held};
use crate::reading::plan_nothing;
use crate::seat::Seat;
use crate::work::{ClientPlan, Work};
use basil_types::memory::NoMemory;
use client_steps::fault::CallFault;
use client_steps::sending::second_frames;
use client_steps::stages::is_over;

impl Formed {
    /// Whether no second stage starts any more: it is decided, or its second stage has started.
    fn is_over(&self) -> bool
        ensures { (p : PursuitValue) → ShowsPursuit self.now p →
            result ≡ (is_some (pursuits.outcome self.now.pursuit.cluster p) || p.second) }
    {
        is_over(self.has_outcome(), self.second)
    }
}

/// Plans that the second stage of the transaction in a slot starts, where the votes that count allow it.
fn plan_second(seat: &Seat, slot: usize, formed: &Formed) -> Result<ClientPlan, NoMemory>
    requires cluster { formed.now.pursuit.cluster ≡ seat.now.cluster }
    requires none { formed.now.held_back ≡ false }
    ensures planned { (me : ClientSelf) (held : Held) (v : ClientValue) (s : SlotValue) (p : PursuitValue) →
        ShowsHeld held v → slice_get v.slots slot ≡ Some s → s.pursuit ≡ Some p → ShowsPursuit formed.now p →
        me.cluster ≡ seat.now.cluster →
        IfOk result (λ plan. WillDo me.signing held v plan (pursuit_done v slot s (pursuits.settle me.cluster p))) }
    ensures ready { (size left : ℕ) (held : Held) → slot < length held.slots.items →
        IfOk result (CanPerform size left held) }
    ensures slot { IfOk result (λ plan. plan.slot ≡ None) }
{
    if formed.is_over() {
        return Ok(plan_nothing(seat));
    }
    let frames = second_frames(seat.alloc, &formed.pursuit)?;
    match frames {
        Some(out) => {
            let plan = ClientPlan::of(Work::Start { slot }, out, 0)?;
            Ok(plan)
        }
        None => Ok(plan_nothing(seat)),
    }
}

/// Plans that the second stage of the transaction in a slot starts, once it is formed.
pub(crate) fn plan_settle(
    held: &mut Held,
    seat: &Seat,
    slot: usize,
) -> Result<ClientPlan, CallFault>
    requires held { slot < length held.old.slots.items }
    requires cluster { held.old.cluster ≡ seat.now.cluster }
    ensures answer { (signing : Signing) (accepts : Accepted) (v : ClientValue) → ShowsHeld held.old v →
        IsPlanned signing held.new v result (call_settle (self_at seat.now accepts signing) v slot) }
    ensures ready { (size left : ℕ) → IfOk result (CanPerform size left held.new) }
    ensures shown { (v : ClientValue) → ShowsHeld held.old v → ShowsHeld held.new v }
    ensures slot { IfOk result (λ plan. plan.slot ≡ None) }
    ensures cluster { held.new.cluster ≡ held.old.cluster }
{
    held.let_go(slot);
    let place = &held.slots[slot];
    match &place.formed {
        Some(formed) => match plan_second(seat, slot, formed) {
            Ok(plan) => Ok(plan),
            Err(_) => Err(CallFault::NoMemory),
        },
        None => Err(CallFault::NotPrepared),
    }
}

//! Planning that the fallback is invoked.

ghost use Rattle.std.specs.Prelude.{◌≡◌, ◌<◌, false, ℕ, [], None, Some, IfOk, IfSome, length};
ghost use Rattle.certificates.specs.Accepted.{Accepted};
ghost use Rattle.client_core.specs.Calls.{call_invoke, invoke_by};
ghost use Rattle.client_core.specs.Clients.{ClientSelf, ClientValue};
ghost use Rattle.client_core.specs.Invoking.{SendsInvoke};
ghost use Rattle.client_core.specs.Seats.{self_at};
ghost use Rattle.client_core.specs.Showing.{ShowsHeld, ShowsPursuit};
ghost use Rattle.client_core.specs.Works.{CanPerform, IsPlanned};
ghost use Rattle.client_recover.specs.Standing.{StandsFor};
ghost use Rattle.client_recover.specs.Taken.{PursuitValue};
ghost use Rattle.keyring.specs.Signing.{Signing};

use crate::held::{Formed, Held};
use crate::reading::plan_nothing;
use crate::seat::Seat;
use crate::work::{ClientPlan, Work};
use basil_types::memory::NoMemory;
use basil_types::outbox::Outbox;
use client_recover::Pursuit;
use client_steps::fault::CallFault;
use client_steps::sending::log_shard_frames;
use std::alloc::Global;

/// The messages that invoke the fallback, or want of memory. None exactly where no log reply is held.
fn invoke_frames(alloc: Global, pursuit: &Pursuit) -> Result<Option<Outbox>, NoMemory>
    ensures sends { (p : PursuitValue) → StandsFor pursuit.now p → IfOk result (SendsInvoke pursuit.now.cluster p) }
    ensures signed { IfOk result (λ o. IfSome o (λ out. out.signed.items ≡ [])) }
{
    let invoke = pursuit.invoke()?;
    match invoke {
        Some(message) => {
            let out = log_shard_frames(alloc, pursuit, &message)?;
            Ok(Some(out))
        }
        None => Ok(None),
    }
}

/// Plans that the fallback is invoked for a transaction, unless it is decided.
fn plan_fallback(seat: &Seat, formed: &Formed) -> Result<ClientPlan, CallFault>
    requires cluster { formed.now.pursuit.cluster ≡ seat.now.cluster }
    requires none { formed.now.held_back ≡ false }
    ensures answer { (me : ClientSelf) (held : Held) (v : ClientValue) (p : PursuitValue) →
        ShowsHeld held v → ShowsPursuit formed.now p → me.cluster ≡ seat.now.cluster →
        IsPlanned me.signing held v result (invoke_by me v (Some p)) }
    ensures ready { (size left : ℕ) (held : Held) → IfOk result (CanPerform size left held) }
    ensures slot { IfOk result (λ plan. plan.slot ≡ None) }
{
    if formed.has_outcome() {
        return Ok(plan_nothing(seat));
    }
    let frames = invoke_frames(seat.alloc, &formed.pursuit)?;
    match frames {
        Some(out) => {
            let plan = ClientPlan::of(Work::Nothing, out, 0)?;
            Ok(plan)
        }
        None => Err(CallFault::NothingLogged),
    }
}

/// Plans that the fallback is invoked for the transaction in a slot, once it is formed.
pub(crate) fn plan_invoke(
    held: &mut Held,
    seat: &Seat,
    slot: usize,
) -> Result<ClientPlan, CallFault>
    requires held { slot < length held.old.slots.items }
    requires cluster { held.old.cluster ≡ seat.now.cluster }
    ensures answer { (signing : Signing) (accepts : Accepted) (v : ClientValue) → ShowsHeld held.old v →
        IsPlanned signing held.new v result (call_invoke (self_at seat.now accepts signing) v slot) }
    ensures ready { (size left : ℕ) → IfOk result (CanPerform size left held.new) }
    ensures shown { (v : ClientValue) → ShowsHeld held.old v → ShowsHeld held.new v }
    ensures slot { IfOk result (λ plan. plan.slot ≡ None) }
    ensures cluster { held.new.cluster ≡ held.old.cluster }
{
    held.let_go(slot);
    let place = &held.slots[slot];
    match &place.formed {
        Some(formed) => match plan_fallback(seat, formed) {
            Ok(plan) => Ok(plan),
            Err(fault) => Err(fault),
        },
        None => Err(CallFault::NotPrepared),
    }
}

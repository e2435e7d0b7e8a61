//! Planning that a transaction is recovered.

ghost use Rattle.std.specs.Prelude.{◌≡◌, ◌≤◌, ◌<◌, ℕ, [], None, Some, IfOk, OnOk, length, map, slice_get};
ghost use Rattle.basil_types.specs.Setting.{Setting};
ghost use Rattle.certificates.specs.Accepted.{Accepted};
ghost use Rattle.certificates.specs.Deciding.{HasGoodForm};
ghost use Rattle.client_core.specs.Calls.{call_recover, recovered_at, recovered_slot};
ghost use Rattle.client_core.specs.Clients.{ClientSelf, ClientValue};
ghost use Rattle.client_core.specs.Clusters.{IsOf};
ghost use Rattle.client_core.specs.Recovering.{again_done, hold_done};
ghost use Rattle.client_core.specs.Seats.{self_at};
ghost use Rattle.client_core.specs.Showing.{ShowsHeld, ShowsSlot};
ghost use Rattle.client_core.specs.Works.{CanPerform, IsPlanned, WillDo};
ghost use Rattle.client_recover.specs.Pursuits.{to_involved};
ghost use Rattle.frame_views.specs.Fitting.{IsSignature};
ghost use Rattle.frame_views.specs.Values.{Recover};
ghost use Rattle.keyring.specs.Signing.{Signing};
ghost use Rattle.node_steps.specs.Framed.{framed};

use crate::held::{Formed, Held, MOST_SLOTS, Slot};
use crate::reading::plan_nothing;
use crate::seat::Seat;
use crate::work::{ClientPlan, Work};
use basil_types::bytes::Bytes;
use basil_types::cluster::Cluster;
use basil_types::memory::NoMemory;
use basil_types::outbox::Outbox;
use basil_types::transaction::Transaction;
use client_recover::Pursuit;
use client_steps::address::{frames_reach_shards, involved_parties, sent_to};
use client_steps::fault::CallFault;
use frame_views::frames::RecoverView;
use frame_writing::put_recover;
use std::alloc::Global;
use txn_meta::form::check_form;

impl Slot {
    /// A transaction of good form that is recovered with its client's signature, or memory is wanting.
    fn recovered(
        alloc: Global,
        cluster: Cluster,
        t: &Transaction,
        signature: &[u8],
    ) -> Result<Slot, NoMemory>
        requires form { HasGoodForm t.now }
        requires signature { IsSignature signature.now }
        ensures shown { IfOk result (λ slot. ShowsSlot slot (recovered_slot t.now signature.now)) }
        ensures cluster { IfOk result (λ slot. IsOf cluster slot.formed) }
    {
        let transaction = t.try_copy(alloc)?;
        let signature = Bytes::copy_of(alloc, signature)?;
        let time = t.view().time();
        let pursuit = Pursuit::new(alloc, transaction, signature, cluster);
        Ok(Slot {
            begun: false,
            time,
            reads: Vec::new(alloc),
            writes: Vec::new(alloc),
            formed: Some(Formed {
                pursuit,
                second: false,
                held_back: false,
            }),
        })
    }
}

/// The frames that ask every replica of every involved shard what is known of a transaction.
fn recover_frames(seat: &Seat, t: &Transaction, signature: &[u8]) -> Result<Outbox, NoMemory>
    requires { IsSignature signature.now }
    ensures messages { IfOk result (λ out. out.messages.items ≡ map framed (to_involved seat.now.cluster t.now
        (Recover (record { transaction = t.now; signature = signature.now })))) }
    ensures signed { IfOk result (λ out. out.signed.items ≡ []) }
{
    let mut frame = Vec::new(seat.alloc);
    let question = RecoverView {
        transaction: t.view(),
        signature,
    };
    put_recover(&question, &mut frame)?;
    let parties = involved_parties(seat.alloc, &seat.cluster, t.view())?;
    let out = sent_to(seat.alloc, parties.as_slice(), frame.as_slice())?;
    frames_reach_shards();
    Ok(out)
}

/// Plans that what is held in a slot is asked for again.
fn plan_again(held: &Held, seat: &Seat, place: usize) -> Result<ClientPlan, NoMemory>
    requires { place < length held.now.slots.items }
    ensures planned { (me : ClientSelf) (v : ClientValue) → ShowsHeld held.now v → me.cluster ≡ seat.now.cluster →
        IfOk result (λ plan. WillDo me.signing held.now v plan (again_done me v place)) }
    ensures ready { (size left : ℕ) → IfOk result (CanPerform size left held.now) }
{
    let slot = &held.slots[place];
    match &slot.formed {
        Some(formed) => {
            let pursuit = &formed.pursuit;
            let out = recover_frames(seat, pursuit.transaction(), pursuit.signature())?;
            let plan = ClientPlan::of(Work::Nothing, out, 0)?;
            Ok(plan)
        }
        None => Ok(plan_nothing(seat)),
    }
}

/// Plans that a transaction of good form is held in a new slot, and asked for.
fn plan_hold(
    held: &mut Held,
    seat: &Seat,
    t: &Transaction,
    signature: &[u8],
) -> Result<ClientPlan, NoMemory>
    requires form { HasGoodForm t.now }
    requires signature { IsSignature signature.now }
    ensures planned { (me : ClientSelf) (v : ClientValue) → ShowsHeld held.old v → me.cluster ≡ seat.now.cluster →
        IfOk result (λ plan. WillDo me.signing held.new v plan (hold_done me v t.now signature.now)) }
    ensures ready { (size left : ℕ) → IfOk result (CanPerform size left held.new) }
    ensures shown { (v : ClientValue) → ShowsHeld held.old v → ShowsHeld held.new v }
    ensures slot { (v : ClientValue) → ShowsHeld held.old v → IfOk result (λ plan. plan.slot ≡ Some (length v.slots)) }
    ensures cluster { held.new.cluster ≡ held.old.cluster }
{
    let recovered = Slot::recovered(seat.alloc, held.cluster, t, signature)?;
    let out = recover_frames(seat, t, signature)?;
    let slot = held.room_for_slot()?;
    let plan = ClientPlan::of(Work::Hold { recovered }, out, 0)?;
    Ok(plan.in_slot(slot))
}

/// Plans that what is held in a slot is asked for again, and tells the slot.
fn plan_held(held: &Held, seat: &Seat, place: usize) -> Result<ClientPlan, NoMemory>
    requires { place < length held.now.slots.items }
    ensures planned { (me : ClientSelf) (v : ClientValue) → ShowsHeld held.now v → me.cluster ≡ seat.now.cluster →
        IfOk result (λ plan. WillDo me.signing held.now v plan (again_done me v place)) }
    ensures ready { (size left : ℕ) → IfOk result (CanPerform size left held.now) }
    ensures slot { IfOk result (λ plan. plan.slot ≡ Some place) }
{
    if place >= MOST_SLOTS {
        return Err(NoMemory);
    }
    let plan = plan_again(held, seat, place)?;
    Ok(plan.in_slot(place as u32))
}

/// Plans that a transaction is recovered: one that is held keeps its slot.
pub(crate) fn plan_recover(
    held: &mut Held,
    seat: &Seat,
    t: &Transaction,
    signature: &[u8],
) -> Result<ClientPlan, CallFault>
    requires { IsSignature signature.now }
    ensures answer { (signing : Signing) (accepts : Accepted) (v : ClientValue) → ShowsHeld held.old v →
        IsPlanned signing held.new v result
        (call_recover (self_at seat.now accepts signing) v t.now signature.now) }
    ensures ready { (size left : ℕ) → IfOk result (CanPerform size left held.new) }
    ensures shown { (v : ClientValue) → ShowsHeld held.old v → ShowsHeld held.new v }
    ensures slot { (v : ClientValue) → ShowsHeld held.old v →
        IfOk result (λ plan. plan.slot ≡ Some (recovered_at v t.now)) }
    ensures cluster { held.new.cluster ≡ held.old.cluster }
{
    match check_form(t.view()) {
        Ok(()) => {}
        Err(fault) => return Err(CallFault::BadTransaction(fault)),
    }
    let id = t.view().id();
    match held.slot_of_id(&id) {
        Some(place) => match plan_held(held, seat, place) {
            Ok(plan) => Ok(plan),
            Err(_) => Err(CallFault::NoMemory),
        },
        None => match plan_hold(held, seat, t, signature) {
            Ok(plan) => Ok(plan),
            Err(_) => Err(CallFault::NoMemory),
        },
    }
}

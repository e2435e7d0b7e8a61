//! Planning a read.

ghost use Rattle.std.specs.Prelude.{◌≡◌, ◌<◌, ℕ, [], true, None, Some, IfOk, length, map, slice_get};
ghost use Rattle.basil_types.specs.Built.{key_fits};
ghost use Rattle.certificates.specs.Accepted.{Accepted};
ghost use Rattle.client_core.specs.Calls.{call_read, read_done};
ghost use Rattle.client_core.specs.Clients.{ClientValue, SlotValue};
ghost use Rattle.client_core.specs.Seats.{self_at};
ghost use Rattle.client_core.specs.Showing.{ShowsHeld};
ghost use Rattle.client_core.specs.Works.{CanPerform, Counts, IsPlanned, WillDo};
ghost use Rattle.client_core.specs.declared.work.Work.TheVariants as works;
ghost use Rattle.client_recover.specs.Pursuits.{to_shard};
ghost use Rattle.frame_views.specs.Values.{Read};
ghost use Rattle.keyring.specs.Signing.{Signing};
ghost use Rattle.node_steps.specs.Framed.{framed};
ghost use Rattle.txn_meta.specs.Places as places;

use crate::asking::Asking;
use crate::held::Held;
use crate::seat::Seat;
use crate::work::{ClientPlan, Work};
use basil_types::memory::NoMemory;
use basil_types::outbox::Outbox;
use client_steps::address::{frames_reach_shards, sent_to, shard_parties};
use client_steps::fault::CallFault;
use client_steps::steps::ReadStep;
use frame_views::frames::ReadView;
use frame_writing::put_read;
use node_steps::pending::outbox;
use txn_meta::shards::shard_of;

/// The frames that ask every replica of the key's shard.
fn ask_frames(seat: &Seat, time: u64, key: &[u8]) -> Result<Outbox, NoMemory>
    requires { key_fits key.now ≡ true }
    ensures messages { IfOk result (λ out. out.messages.items ≡ map framed (to_shard seat.now.cluster
        (Read (record { key = key.now; time = time; client = seat.now.number }))
        (places.shard_of seat.now.cluster key.now))) }
    ensures signed { IfOk result (λ out. out.signed.items ≡ []) }
{
    let client = seat.number;
    let mut frame = Vec::new(seat.alloc);
    put_read(&ReadView { key, time, client }, &mut frame)?;
    let shard = shard_of(key, &seat.cluster);
    let parties = shard_parties(seat.alloc, &seat.cluster, shard)?;
    let out = sent_to(seat.alloc, parties.as_slice(), frame.as_slice())?;
    frames_reach_shards();
    Ok(out)
}

/// Plans that a key is asked for, which is neither written nor asked for.
fn plan_ask(held: &mut Held, seat: &Seat, slot: usize, key: &[u8]) -> Result<ClientPlan, NoMemory>
    requires held { slot < length held.old.slots.items }
    requires fits { key_fits key.now ≡ true }
    ensures planned { (signing : Signing) (accepts : Accepted) (v : ClientValue) (s : SlotValue) →
        ShowsHeld held.old v → slice_get v.slots slot ≡ Some s →
        IfOk result (λ plan. WillDo signing held.new v plan
        (read_done (self_at seat.now accepts signing) v slot s key.now)) }
    ensures ready { (size left : ℕ) → IfOk result (CanPerform size left held.new) }
    ensures shown { (v : ClientValue) → ShowsHeld held.old v → ShowsHeld held.new v }
    ensures slot { IfOk result (λ plan. plan.slot ≡ None) }
    ensures cluster { held.new.cluster ≡ held.old.cluster }
{
    let place = &held.slots[slot];
    let time = place.time;
    let asked = Asking::new(seat.alloc, key)?;
    let out = ask_frames(seat, time, key)?;
    held.room_for_read(slot)?;
    let plan = ClientPlan::of(Work::Ask { slot, asked }, out, 0)?;
    Ok(plan)
}

/// A plan of nothing.
pub(crate) fn plan_nothing(seat: &Seat) -> ClientPlan
    ensures work { result.work ≡ works.Nothing }
    ensures messages { result.out.messages.items ≡ [] }
    ensures signed { result.out.signed.items ≡ [] }
    ensures slot { result.slot ≡ None }
    ensures counts { (size : ℕ) → Counts size result }
{
    ClientPlan {
        work: Work::Nothing,
        out: outbox(seat.alloc),
        slot: None,
        messages: 0,
        bytes: 0,
    }
}

/// Plans a read of a key.
pub(crate) fn plan_read(
    held: &mut Held,
    seat: &Seat,
    slot: usize,
    key: &[u8],
) -> Result<ClientPlan, CallFault>
    requires { slot < length held.old.slots.items }
    ensures answer { (signing : Signing) (accepts : Accepted) (v : ClientValue) → ShowsHeld held.old v →
        IsPlanned signing held.new v result (call_read (self_at seat.now accepts signing) v slot key.now) }
    ensures ready { (size left : ℕ) → IfOk result (CanPerform size left held.new) }
    ensures shown { (v : ClientValue) → ShowsHeld held.old v → ShowsHeld held.new v }
    ensures slot { IfOk result (λ plan. plan.slot ≡ None) }
    ensures cluster { held.new.cluster ≡ held.old.cluster }
{
    let place = &held.slots[slot];
    match place.read_step(key) {
        ReadStep::Refused(fault) => Err(fault),
        ReadStep::Known => Ok(plan_nothing(seat)),
        ReadStep::Asks => match plan_ask(held, seat, slot, key) {
            Ok(plan) => Ok(plan),
            Err(_) => Err(CallFault::NoMemory),
        },
    }
}

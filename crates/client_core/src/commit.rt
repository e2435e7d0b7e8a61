//! Doing what was planned, or letting it go.

ghost use Rattle.std.specs.Prelude.{◌≡◌, ◌++◌};
ghost use Rattle.client_core.specs.Clients.{ClientValue};
ghost use Rattle.client_core.specs.Letting.{HoldsNothingBack, IsLetGo};
ghost use Rattle.client_core.specs.Showing.{ShowsHeld};
ghost use Rattle.client_core.specs.Works.{CanWork, Leaves, pending_bytes, pending_count, sealed_by, words_by};
ghost use Rattle.node_steps.specs.Pendings.{Sends};
ghost use Rattle.node_steps.specs.Pens.{pen_value};

use crate::held::Held;
use crate::work::Work;
use basil_types::bytes::Bytes;
use basil_types::outbox::Outbox;
use keyring::signer::Signer;
use node_steps::pending::sign;
use std::alloc::Global;

/// Does what was planned, and sends what waits for a signature. Takes no memory.
pub(crate) fn perform<S: Signer>(
    held: &mut Held,
    pen: &mut S,
    alloc: Global,
    out: &mut Outbox,
    work: Work,
)
    requires { CanWork (S.fixed pen.old).size (S.left_of pen.old) held.old out.old work }
    ensures held { (v after : ClientValue) → v.pen ≡ pen_value (S.spent pen.old) (S.left_of pen.old) →
        Leaves (S.fixed pen.old) held.old v work after → ShowsHeld held.new after }
    ensures pen { (v after : ClientValue) → v.pen ≡ pen_value (S.spent pen.old) (S.left_of pen.old) →
        Leaves (S.fixed pen.old) held.old v work after → after.pen ≡ pen_value (S.spent pen.new) (S.left_of pen.new) }
    ensures messages { out.new.messages.items ≡ out.old.messages.items
        ++ sealed_by (S.fixed pen.old) (pen_value (S.spent pen.old) (S.left_of pen.old)) work }
    ensures words { out.new.signed.items ≡ out.old.signed.items ++ words_by work }
    ensures sends { Sends out.old out.new (pending_count work) (pending_bytes (S.fixed pen.old).size work) }
    ensures fixed { S.fixed pen.new ≡ S.fixed pen.old }
    ensures cluster { held.new.cluster ≡ held.old.cluster }
{
    match work {
        Work::Nothing => {}
        Work::Ask { slot, asked } => held.ask(slot, asked),
        Work::Pursue {
            slot,
            formed,
            pending,
        } => {
            let signature = Bytes::from_vec(sign(pen, pending, out));
            held.pursue(alloc, slot, formed, signature);
        }
        Work::Start { slot } => held.start(slot),
        Work::Hold { recovered } => held.hold(recovered),
        Work::Reply { slot, read, reply } => held.reply(slot, read, reply),
        Work::Take { slot, starts } => held.take(slot, starts),
    }
}

/// Lets go what the transaction in a slot holds back, if there is that slot. Takes no memory.
fn let_go_at(held: &mut Held, slot: usize)
    ensures shown { (v : ClientValue) → ShowsHeld held.old v → ShowsHeld held.new v }
    ensures none { HoldsNothingBack held.new slot }
    ensures cluster { held.new.cluster ≡ held.old.cluster }
{
    if slot < held.slots.len() {
        held.let_go(slot);
    }
}

/// Lets go what a planned work holds back. Takes no memory.
pub(crate) fn let_go(held: &mut Held, work: &Work)
    ensures shown { (v : ClientValue) → ShowsHeld held.old v → ShowsHeld held.new v }
    ensures let_go { IsLetGo held.new work.now }
    ensures cluster { held.new.cluster ≡ held.old.cluster }
{
    match work.takes_in() {
        Some(slot) => let_go_at(held, slot),
        None => {}
    }
}

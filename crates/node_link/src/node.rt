//! A replica that answers envelopes.

ghost use Rattle.std.specs.Prelude.{◌≡◌, ◌+◌, ◌-◌, ◌^◌, ◌<◌, ◌≤◌, ◌∷◌, [], IfErr, IfOk, OnErr, OnOk};
ghost use Rattle.basil_types.specs.Causes.{HasLinkCause};
ghost use Rattle.basil_types.specs.Links.{LinkState};
ghost use Rattle.node_link.specs.Answering.{answer_bytes};
ghost use Rattle.node_link.specs.Serving.{Carries, Handles, HasServed, IsAt, Served, planned, serves};
ghost use Rattle.replica_core.specs.Shown.{ShowsBook, own};
ghost use Rattle.replica_core.specs.Answers.{answer};
ghost use Rattle.replica_core.specs.Nodes.{CanCommit};
ghost use Rattle.replica_core.specs.Replicas.{BookValue};

use crate::answer::{answer_room, put_answer};
use basil_types::clock::Clock;
use basil_types::links::{LinkFail, Links};
use basil_types::memory::NoMemory;
use basil_types::outbox::Envelope;
use keyring::signer::Signer;
use keyring::verifier::Verifier;
use replica_core::{Plan, Refusal, Replica};
use std::alloc::Global;

/// Carries a plan out, and gives the bytes of its answer. Where memory is wanting for these, the plan is let go, and
/// the replica is as before.
fn carry_out<V: Verifier, S: Signer>(
    alloc: Global,
    replica: &mut Replica<V, S>,
    plan: Plan,
) -> Result<Vec<u8>, NoMemory>
    requires { CanCommit (S.fixed replica.old.pen).size (S.left_of replica.old.pen) replica.old.parts plan }
    ensures done { (book : BookValue) → ShowsBook replica.old book → IfOk result (λ bytes.
        Carries replica.new (planned replica.old book plan) bytes.items) }
    ensures as_before { (book : BookValue) → ShowsBook replica.old book → OnErr result (ShowsBook replica.new book) }
    ensures own { own replica.new ≡ own replica.old }
{
    match answer_room(alloc, plan.messages(), plan.bytes()) {
        Ok(room) => {
            let mut out = room;
            let sent = replica.commit(plan);
            put_answer(&mut out, sent.messages.as_slice());
            Ok(out)
        }
        Err(wanting) => {
            replica.give_up(plan);
            Err(wanting)
        }
    }
}

/// The answer without a message.
fn empty_answer(alloc: Global) -> Result<Vec<u8>, NoMemory>
    ensures { IfOk result (λ bytes. bytes.items ≡ answer_bytes []) }
{
    let mut out = answer_room(alloc, 0, 0)?;
    put_answer(&mut out, &[]);
    Ok(out)
}

/// What the replica answers to the frame of an envelope at this moment, in bytes: no message where it refuses it. Want
/// of memory leaves the replica as before.
fn handle<V: Verifier, S: Signer>(
    alloc: Global,
    replica: &mut Replica<V, S>,
    now: u64,
    envelope: &Envelope,
) -> Result<Vec<u8>, NoMemory>
    ensures handled { (book : BookValue) → ShowsBook replica.old book →
        IfOk result (λ bytes. Handles (answer (own replica.old) now envelope.now.to book envelope.now.frame) book
        replica.new bytes.items) }
    ensures as_before { (book : BookValue) → ShowsBook replica.old book → OnErr result (ShowsBook replica.new book) }
    ensures own { own replica.new ≡ own replica.old }
{
    match replica.plan(now, envelope.to, envelope.frame.as_slice()) {
        Ok(plan) => carry_out(alloc, replica, plan),
        Err(refused) => {
            if refused == Refusal::NoMemory {
                Err(NoMemory)
            } else {
                empty_answer(alloc)
            }
        }
    }
}

/// Handles the frame of an envelope at the clock's next moment, counts it, and writes the answer. Memory may be wanting
/// only before it is handled.
pub(crate) fn answer_one<V: Verifier, S: Signer, L: Links, C: Clock>(
    alloc: Global,
    replica: &mut Replica<V, S>,
    links: &mut L,
    clock: &mut C,
    envelope: &Envelope,
    frames: &mut u64,
) -> Result<(), LinkFail>
    requires { frames.old < 2 ^ 64 - 1 }
    ensures all { (state : LinkState) (s : Served) →
        IsAt replica.old (C.moments clock.old) (L.told links.old) state s →
        OnOk result (IsAt replica.new (C.moments clock.new) (L.told links.new) state
        (serves (own replica.old) s envelope.now)) }
    ensures some { (state : LinkState) (s : Served) →
        IsAt replica.old (C.moments clock.old) (L.told links.old) state s →
        IfErr result (λ fail. HasServed replica.new (C.moments clock.new) (L.told links.new) (own replica.old) state s
        (envelope.now ∷ []) (frames.new - frames.old) fail) }
    ensures counted { OnOk result (frames.new ≡ frames.old + 1) }
    ensures later { frames.old ≤ frames.new }
    ensures few { frames.new ≤ frames.old + 1 }
    ensures own { own replica.new ≡ own replica.old }
    ensures cause { HasLinkCause (L.faults links.old) (L.faults links.new) result }
{
    let now = clock.now();
    let answer = handle(alloc, replica, now, envelope)?;
    *frames += 1;
    links.write(&answer)
}

//! The reads and writes of a transaction.

ghost use Rattle.std.specs.Prelude.{◌≡◌, ◌<◌, ◌≤◌, ◌∷◌, [], Option, Result, length};
ghost use Rattle.basil_types.specs.Links.{LinkState};
ghost use Rattle.client_core.specs.Shown.{own, ShowsClient};
ghost use Rattle.client_steps.specs.declared.fault.CallFault.{CallFault};
ghost use Rattle.client_core.specs.Clients.{ClientDone, ClientValue};
ghost use Rattle.client_core.specs.Done.{KeepsSlots};
ghost use Rattle.client_link.specs.Having.{ComesTo, HasCalled, HasTurned, IsTalk, fault_told};
ghost use Rattle.client_link.specs.Running.{held_at, turn_of, turns_of};
ghost use Rattle.client_link.specs.Talking.{Talk};

use crate::asking::ask_all;
use crate::errands::Errands;
use crate::fault::RunFault;
use crate::op::Op;
use basil_types::links::Links;
use client_core::{CallFault, Client, ReadState};
use cluster_file::ClusterFile;
use keyring::signer::Signer;
use keyring::verifier::Verifier;
use std::alloc::Global;

/// A refused call. Want of memory is told as such.
pub(crate) fn refused(fault: CallFault) -> RunFault
    ensures { result ≡ fault_told fault }
{
    match fault {
        CallFault::NoMemory => RunFault::NoMemory,
        fault => RunFault::Call(fault),
    }
}

/// Asks what a call sent, and all that comes of it; or the call was refused.
pub(crate) fn ask_for<V: Verifier, S: Signer, L: Links>(
    alloc: Global,
    client: &mut Client<V, S>,
    number: u8,
    file: &ClusterFile,
    links: &mut L,
    errands: &mut Errands,
    called: Result<(), CallFault>,
) -> Result<(), RunFault>
    requires number { number ≡ client.old.seat.number }
    requires cluster { client.old.seat.cluster ≡ file.now.cluster }
    ensures came { (t : Talk) (answer : Result ClientDone CallFault) →
        HasCalled client.old (L.told links.old) errands.old t answer called →
        ComesTo client.new file.now (L.told links.new) errands.new t answer
        (L.faults links.old) (L.faults links.new) result }
    ensures own { own client.new ≡ own client.old }
    ensures seat { client.new.seat ≡ client.old.seat }
    ensures slots { KeepsSlots client.old.held client.new.held }
    ensures faults { L.faults links.old ≤ L.faults links.new }
{
    match called {
        Ok(()) => match ask_all(alloc, client, number, file, links, errands) {
            Ok(()) => Ok(()),
            Err(_wanting) => Err(RunFault::NoMemory),
        },
        Err(fault) => Err(refused(fault)),
    }
}

/// How many votes and log replies are held.
pub(crate) fn held_of<V: Verifier, S: Signer>(client: &Client<V, S>, slot: u32) -> u32
    requires { slot < length client.now.held.slots.items }
    ensures { (v : ClientValue) → ShowsClient client.now v → result ≡ held_at slot v }
{
    let _ = client.slots();
    client.held(slot)
}

/// Makes the call of a read or a write.
fn call_op<V: Verifier, S: Signer>(
    client: &mut Client<V, S>,
    slot: u32,
    op: &Op,
    errands: &mut Errands,
) -> Result<(), CallFault>
    requires { slot < length client.old.held.slots.items }
    ensures called { (told : Option LinkState) (t : Talk) → IsTalk client.old told errands.old t →
        HasCalled client.new told errands.new t ((turn_of (own client.old) slot op.now).call t.client) result }
    ensures own { own client.new ≡ own client.old }
    ensures seat { client.new.seat ≡ client.old.seat }
    ensures slots { KeepsSlots client.old.held client.new.held }
{
    match op {
        Op::Read { key } => client.read(slot, key.as_slice(), &mut errands.out),
        Op::Write { key, value } => client.write(slot, key.as_slice(), value.as_slice()),
    }
}

/// Whether a read is without a choice.
fn is_pending<V: Verifier, S: Signer>(client: &Client<V, S>, slot: u32, op: &Op) -> bool
    requires { slot < length client.now.held.slots.items }
    ensures { (v : ClientValue) → ShowsClient client.now v →
        result ≡ (turn_of (own client.now) slot op.now).stops v }
{
    let _ = client.slots();
    match op {
        Op::Read { key } => matches!(client.value(slot, key.as_slice()), ReadState::Pending),
        Op::Write { .. } => false,
    }
}

/// Reads or writes, asks for it, and stops where a read is without a choice then.
fn run_op<V: Verifier, S: Signer, L: Links>(
    alloc: Global,
    client: &mut Client<V, S>,
    number: u8,
    file: &ClusterFile,
    links: &mut L,
    errands: &mut Errands,
    slot: u32,
    op: &Op,
) -> Result<(), RunFault>
    requires number { number ≡ client.old.seat.number }
    requires cluster { client.old.seat.cluster ≡ file.now.cluster }
    requires held { slot < length client.old.held.slots.items }
    ensures turned { (t : Talk) → IsTalk client.old (L.told links.old) errands.old t →
        HasTurned client.new file.now slot (turn_of (own client.old) slot op.now ∷ []) (L.told links.new) errands.new t
        (L.faults links.old) (L.faults links.new) result }
    ensures own { own client.new ≡ own client.old }
    ensures seat { client.new.seat ≡ client.old.seat }
    ensures slots { KeepsSlots client.old.held client.new.held }
    ensures faults { L.faults links.old ≤ L.faults links.new }
{
    let called = call_op(client, slot, op, errands);
    match ask_for(alloc, client, number, file, links, errands, called) {
        Ok(()) => {
            if is_pending(client, slot, op) {
                Err(RunFault::Undecided(held_of(client, slot)))
            } else {
                Ok(())
            }
        }
        Err(fault) => Err(fault),
    }
}

/// Reads and writes in order, until a read stops it or a call is refused.
pub(crate) fn run_ops<V: Verifier, S: Signer, L: Links>(
    alloc: Global,
    client: &mut Client<V, S>,
    number: u8,
    file: &ClusterFile,
    links: &mut L,
    errands: &mut Errands,
    slot: u32,
    plan: &[Op],
) -> Result<(), RunFault>
    requires number { number ≡ client.old.seat.number }
    requires cluster { client.old.seat.cluster ≡ file.now.cluster }
    requires held { slot < length client.old.held.slots.items }
    ensures turned { (t : Talk) → IsTalk client.old (L.told links.old) errands.old t →
        HasTurned client.new file.now slot (turns_of (own client.old) slot plan.now) (L.told links.new) errands.new t
        (L.faults links.old) (L.faults links.new) result }
    ensures own { own client.new ≡ own client.old }
    ensures seat { client.new.seat ≡ client.old.seat }
    ensures slots { KeepsSlots client.old.held client.new.held }
    ensures faults { L.faults links.old ≤ L.faults links.new }
{
    let mut left = plan;
    while let Some((op, others)) = left.split_first() {
        match run_op(alloc, client, number, file, links, errands, slot, op) {
            Ok(()) => left = others,
            Err(fault) => return Err(fault),
        }
    }
    Ok(())
}

//! A transaction, carried through over links.

ghost use Rattle.std.specs.Prelude.{◌≡◌, ◌<◌, ◌≤◌, ◌∷◌, ◌++◌, [], Some, IfOk, length};
ghost use Rattle.basil_types.specs.Links.{LinkState};
ghost use Rattle.client_core.specs.Calls.{recovered_at};
ghost use Rattle.client_core.specs.Shown.{own, ShowsClient};
ghost use Rattle.client_core.specs.Clients.{ClientValue};
ghost use Rattle.client_core.specs.Done.{KeepsSlots};
ghost use Rattle.client_link.specs.Having.{HasRun, HasTurned, IsTalk, OnEnd, slot_given};
ghost use Rattle.client_link.specs.Running.{Runs, RunsPlan, RunsRecovery, closing, starting, takes_up, turns_of};
ghost use Rattle.client_link.specs.Talking.{Talk};

use crate::aim::Aim;
use crate::calling::{ask_for, refused, run_ops};
use crate::closing::{close, finish, form};
use crate::errands::Errands;
use crate::fault::RunFault;
use crate::op::Op;
use crate::signed::Signed;
use basil_types::links::Links;
use client_core::Client;
use cluster_file::ClusterFile;
use keyring::signer::Signer;
use keyring::verifier::Verifier;
use std::alloc::Global;

/// Carries through or forms a transaction that was begun in a slot.
fn run_begun<V: Verifier, S: Signer, L: Links>(
    alloc: Global,
    client: &mut Client<V, S>,
    number: u8,
    file: &ClusterFile,
    links: &mut L,
    slot: u32,
    aim: Aim,
    plan: &[Op],
) -> Result<(), RunFault>
    requires number { number ≡ client.old.seat.number }
    requires cluster { client.old.seat.cluster ≡ file.now.cluster }
    requires held { slot < length client.old.held.slots.items }
    ensures ran { (v : ClientValue) (s : LinkState) → ShowsClient client.old v → L.told links.old ≡ Some s →
        OnEnd result (HasRun client.new (L.told links.new)
        (Runs (own client.old) file.now slot aim
        (turns_of (own client.old) slot plan.now ++ closing (own client.old) slot aim))
        (starting v s) (L.faults links.old) (L.faults links.new)) }
    ensures own { own client.new ≡ own client.old }
    ensures seat { client.new.seat ≡ client.old.seat }
    ensures slots { KeepsSlots client.old.held client.new.held }
    ensures faults { L.faults links.old ≤ L.faults links.new }
{
    let mut errands = Errands::new(alloc);
    match run_ops(alloc, client, number, file, links, &mut errands, slot, plan) {
        Ok(()) => {}
        Err(fault) => return Err(fault),
    }
    match aim {
        Aim::Decision => close(alloc, client, number, file, links, &mut errands, slot),
        Aim::Form => form(alloc, client, slot, &mut errands),
    }
}

/// Begins a transaction of this time in a client of this number over the file's cluster, carries it through over links
/// or only forms it, and answers its slot. It reads and writes in order. For a decision it then goes through the
/// stages: the first, the second, and at most two rounds of recovery while there is no decision. Behind each call it
/// asks its messages, first in first out, each at the file's address of its receiver; what an answer brings for the
/// client the client takes, and what it brings for replicas is asked as well, at most 4,096 envelopes in all. Only to
/// form the transaction it signs it, and asks nothing behind the reads.
///
/// - `Call` where the client refuses a call, such as a 33rd key, or where it has no signature left.
/// - `Undecided` where a read is without a choice once all is asked, or where there is no decision in the end.
pub fn client_run<V: Verifier, S: Signer, L: Links>(
    alloc: Global,
    client: &mut Client<V, S>,
    number: u8,
    file: &ClusterFile,
    time: u64,
    aim: Aim,
    plan: &[Op],
    links: &mut L,
) -> Result<u32, RunFault>
    requires number { number ≡ client.old.seat.number }
    requires cluster { client.old.seat.cluster ≡ file.now.cluster }
    ensures ran { (v : ClientValue) (s : LinkState) → ShowsClient client.old v → L.told links.old ≡ Some s →
        OnEnd result (HasRun client.new (L.told links.new) (RunsPlan (own client.old) file.now aim time plan.now)
        (starting v s) (L.faults links.old) (L.faults links.new)) }
    ensures slot { (v : ClientValue) → ShowsClient client.old v → IfOk result (λ slot. slot ≡ length v.slots) }
    ensures held { IfOk result (λ slot. slot < length client.new.held.slots.items) }
    ensures own { own client.new ≡ own client.old }
    ensures seat { client.new.seat ≡ client.old.seat }
    ensures faults { L.faults links.old ≤ L.faults links.new }
{
    match client.begin(time) {
        Ok(slot) => match run_begun(alloc, client, number, file, links, slot, aim, plan) {
            Ok(()) => Ok(slot),
            Err(fault) => Err(fault),
        },
        Err(fault) => Err(refused(fault)),
    }
}

/// Takes up a transaction that was formed, asks what comes of that, and answers its slot.
fn take_up<V: Verifier, S: Signer, L: Links>(
    alloc: Global,
    client: &mut Client<V, S>,
    number: u8,
    file: &ClusterFile,
    links: &mut L,
    errands: &mut Errands,
    signed: &Signed,
) -> Result<u32, RunFault>
    requires number { number ≡ client.old.seat.number }
    requires cluster { client.old.seat.cluster ≡ file.now.cluster }
    ensures turned { (t : Talk) → IsTalk client.old (L.told links.old) errands.old t →
        HasTurned client.new file.now (recovered_at t.client signed.now.transaction)
        (takes_up (own client.old) signed.now ∷ []) (L.told links.new) errands.new
        t (L.faults links.old) (L.faults links.new) (slot_given result) }
    ensures slot { (v : ClientValue) → ShowsClient client.old v →
        IfOk result (λ slot. slot ≡ recovered_at v signed.now.transaction) }
    ensures held { IfOk result (λ slot. slot < length client.new.held.slots.items) }
    ensures own { own client.new ≡ own client.old }
    ensures seat { client.new.seat ≡ client.old.seat }
    ensures faults { L.faults links.old ≤ L.faults links.new }
{
    match client.recover(signed.transaction(), signed.signature(), &mut errands.out) {
        Ok(slot) => match ask_for(alloc, client, number, file, links, errands, Ok(())) {
            Ok(()) => Ok(slot),
            Err(fault) => Err(fault),
        },
        Err(fault) => Err(refused(fault)),
    }
}

/// Carries a transaction that was formed, by this client or another, through over links, and answers its slot, which is
/// the one that it has if the client holds it. Every replica of every involved shard is asked what it knows; then it
/// goes through the second stage and the fallback, and one more round of recovery, while there is no decision. It asks
/// as `client_run` does.
///
/// - `Call` where the transaction is in no good form.
/// - `Undecided` where there is no decision in the end.
pub fn client_finish<V: Verifier, S: Signer, L: Links>(
    alloc: Global,
    client: &mut Client<V, S>,
    number: u8,
    file: &ClusterFile,
    signed: &Signed,
    links: &mut L,
) -> Result<u32, RunFault>
    requires number { number ≡ client.old.seat.number }
    requires cluster { client.old.seat.cluster ≡ file.now.cluster }
    ensures ran { (v : ClientValue) (s : LinkState) → ShowsClient client.old v → L.told links.old ≡ Some s →
        OnEnd result (HasRun client.new (L.told links.new) (RunsRecovery (own client.old) file.now signed.now)
        (starting v s) (L.faults links.old) (L.faults links.new)) }
    ensures slot { (v : ClientValue) → ShowsClient client.old v →
        IfOk result (λ slot. slot ≡ recovered_at v signed.now.transaction) }
    ensures held { IfOk result (λ slot. slot < length client.new.held.slots.items) }
    ensures own { own client.new ≡ own client.old }
    ensures seat { client.new.seat ≡ client.old.seat }
    ensures faults { L.faults links.old ≤ L.faults links.new }
{
    let mut errands = Errands::new(alloc);
    match take_up(alloc, client, number, file, links, &mut errands, signed) {
        Ok(slot) => match finish(alloc, client, number, file, links, &mut errands, slot) {
            Ok(()) => Ok(slot),
            Err(fault) => Err(fault),
        },
        Err(fault) => Err(fault),
    }
}

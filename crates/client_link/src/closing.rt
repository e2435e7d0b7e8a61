//! The stages of a transaction behind its reads and writes (Basil, sections 4 and 5).

ghost use Rattle.std.specs.Prelude.{◌≡◌, ◌<◌, ◌≤◌, ◌∷◌, [], ℕ, IfOk, Option, length, is_some};
ghost use Rattle.basil_types.specs.Links.{LinkState};
ghost use Rattle.client_core.specs.Shown.{own, ShowsClient};
ghost use Rattle.client_core.specs.Clients.{ClientValue};
ghost use Rattle.client_core.specs.Done.{KeepsSlots};
ghost use Rattle.client_link.specs.Having.{HasCalled, HasRun, HasTurned, IsTalk, OnEnd};
ghost use Rattle.client_link.specs.Running.{Runs, closing, finishing, formed_at, invokes, outcome_at, recovers};
ghost use Rattle.client_link.specs.Stages.{stage_turn, stage_turns};
ghost use Rattle.client_link.specs.Talking.{Talk};
ghost use Rattle.cluster_file.specs.Listing.{Listing};

use crate::aim::Aim;
use crate::calling::{ask_for, held_of, refused};
use crate::errands::Errands;
use crate::fault::RunFault;
use crate::signed::Signed;
use basil_types::links::Links;
use basil_types::memory::NoMemory;
use client_core::{CallFault, Client};
use cluster_file::ClusterFile;
use keyring::signer::Signer;
use keyring::verifier::Verifier;
use std::alloc::Global;

/// A call behind the reads and writes.
#[derive(Clone, Copy)]
pub(crate) enum Stage {
    Prepare,
    Settle,
    Recover,
    Invoke,
}

/// The stages in order: the first and the second, and two rounds of recovery.
const STAGES: [Stage; 8] = [
    Stage::Prepare,
    Stage::Settle,
    Stage::Recover,
    Stage::Settle,
    Stage::Invoke,
    Stage::Recover,
    Stage::Settle,
    Stage::Invoke,
];

/// The stages of a transaction that was taken up: the rest of a round of recovery, and one more.
const LATER_STAGES: [Stage; 5] = [
    Stage::Settle,
    Stage::Invoke,
    Stage::Recover,
    Stage::Settle,
    Stage::Invoke,
];

/// Whether there is a decision.
fn is_decided<V: Verifier, S: Signer>(client: &Client<V, S>, slot: u32) -> bool
    requires { slot < length client.now.held.slots.items }
    ensures { (v : ClientValue) → ShowsClient client.now v → result ≡ is_some (outcome_at (own client.now) slot v) }
{
    let _ = client.slots();
    client.outcome(slot).is_some()
}

/// A copy of the transaction in a slot, if it is formed.
fn signed_in<V: Verifier, S: Signer>(
    alloc: Global,
    client: &Client<V, S>,
    slot: u32,
) -> Result<Option<Signed>, NoMemory>
    requires { slot < length client.now.held.slots.items }
    ensures { (v : ClientValue) → ShowsClient client.now v → IfOk result (λ copy. copy ≡ formed_at slot v) }
{
    let _ = client.slots();
    match client.formed(slot) {
        Some((transaction, signature)) => {
            Ok(Some(Signed::copy_of(alloc, transaction, signature)?))
        }
        None => Ok(None),
    }
}

/// Recovers the transaction in a slot, unless there is a decision.
fn recover_own<V: Verifier, S: Signer>(
    alloc: Global,
    client: &mut Client<V, S>,
    slot: u32,
    errands: &mut Errands,
) -> Result<(), CallFault>
    requires { slot < length client.old.held.slots.items }
    ensures called { (told : Option LinkState) (t : Talk) → IsTalk client.old told errands.old t →
        HasCalled client.new told errands.new t ((recovers (own client.old) slot).call t.client) result }
    ensures own { own client.new ≡ own client.old }
    ensures seat { client.new.seat ≡ client.old.seat }
    ensures slots { KeepsSlots client.old.held client.new.held }
{
    if is_decided(client, slot) {
        return Ok(());
    }
    match signed_in(alloc, client, slot) {
        Ok(Some(signed)) => {
            match client.recover(signed.transaction(), signed.signature(), &mut errands.out) {
                Ok(_) => Ok(()),
                Err(fault) => Err(fault),
            }
        }
        Ok(None) => Ok(()),
        Err(_wanting) => Err(CallFault::NoMemory),
    }
}

/// Invokes the fallback, if a log reply is held.
fn invoke_logged<V: Verifier, S: Signer>(
    client: &mut Client<V, S>,
    slot: u32,
    errands: &mut Errands,
) -> Result<(), CallFault>
    requires { slot < length client.old.held.slots.items }
    ensures called { (told : Option LinkState) (t : Talk) → IsTalk client.old told errands.old t →
        HasCalled client.new told errands.new t ((invokes (own client.old) slot).call t.client) result }
    ensures own { own client.new ≡ own client.old }
    ensures seat { client.new.seat ≡ client.old.seat }
    ensures slots { KeepsSlots client.old.held client.new.held }
{
    match client.invoke(slot, &mut errands.out) {
        Ok(()) => Ok(()),
        Err(CallFault::NothingLogged) => Ok(()),
        Err(fault) => Err(fault),
    }
}

/// Makes the call of a stage.
fn call_stage<V: Verifier, S: Signer>(
    alloc: Global,
    client: &mut Client<V, S>,
    slot: u32,
    stage: Stage,
    errands: &mut Errands,
) -> Result<(), CallFault>
    requires { slot < length client.old.held.slots.items }
    ensures called { (told : Option LinkState) (t : Talk) → IsTalk client.old told errands.old t →
        HasCalled client.new told errands.new t ((stage_turn (own client.old) slot stage).call t.client) result }
    ensures own { own client.new ≡ own client.old }
    ensures seat { client.new.seat ≡ client.old.seat }
    ensures slots { KeepsSlots client.old.held client.new.held }
{
    match stage {
        Stage::Prepare => client.prepare(slot, &mut errands.out),
        Stage::Settle => client.settle(slot, &mut errands.out),
        Stage::Recover => recover_own(alloc, client, slot, errands),
        Stage::Invoke => invoke_logged(client, slot, errands),
    }
}

/// Makes the call of a stage, and asks for it.
fn run_stage<V: Verifier, S: Signer, L: Links>(
    alloc: Global,
    client: &mut Client<V, S>,
    number: u8,
    file: &ClusterFile,
    links: &mut L,
    errands: &mut Errands,
    slot: u32,
    stage: Stage,
) -> Result<(), RunFault>
    requires number { number ≡ client.old.seat.number }
    requires cluster { client.old.seat.cluster ≡ file.now.cluster }
    requires held { slot < length client.old.held.slots.items }
    ensures turned { (t : Talk) → IsTalk client.old (L.told links.old) errands.old t →
        HasTurned client.new file.now slot (stage_turn (own client.old) slot stage ∷ []) (L.told links.new) errands.new
        t (L.faults links.old) (L.faults links.new) result }
    ensures own { own client.new ≡ own client.old }
    ensures seat { client.new.seat ≡ client.old.seat }
    ensures slots { KeepsSlots client.old.held client.new.held }
    ensures faults { L.faults links.old ≤ L.faults links.new }
{
    let called = call_stage(alloc, client, slot, stage, errands);
    ask_for(alloc, client, number, file, links, errands, called)
}

/// Goes through these stages.
fn run_each<V: Verifier, S: Signer, L: Links>(
    alloc: Global,
    client: &mut Client<V, S>,
    number: u8,
    file: &ClusterFile,
    links: &mut L,
    errands: &mut Errands,
    slot: u32,
    stages: &[Stage],
) -> Result<(), RunFault>
    requires number { number ≡ client.old.seat.number }
    requires cluster { client.old.seat.cluster ≡ file.now.cluster }
    requires held { slot < length client.old.held.slots.items }
    ensures turned { (t : Talk) → IsTalk client.old (L.told links.old) errands.old t →
        HasTurned client.new file.now slot (stage_turns (own client.old) slot stages.now) (L.told links.new) errands.new
        t (L.faults links.old) (L.faults links.new) result }
    ensures own { own client.new ≡ own client.old }
    ensures seat { client.new.seat ≡ client.old.seat }
    ensures slots { KeepsSlots client.old.held client.new.held }
    ensures faults { L.faults links.old ≤ L.faults links.new }
{
    let mut left = stages;
    while let Some((stage, others)) = left.split_first() {
        match run_stage(alloc, client, number, file, links, errands, slot, *stage) {
            Ok(()) => left = others,
            Err(fault) => return Err(fault),
        }
    }
    Ok(())
}

/// Goes through these stages, behind which there is a decision, or none.
fn close_by<V: Verifier, S: Signer, L: Links>(
    alloc: Global,
    client: &mut Client<V, S>,
    number: u8,
    file: &ClusterFile,
    links: &mut L,
    errands: &mut Errands,
    slot: u32,
    stages: &[Stage],
) -> Result<(), RunFault>
    requires number { number ≡ client.old.seat.number }
    requires cluster { client.old.seat.cluster ≡ file.now.cluster }
    requires held { slot < length client.old.held.slots.items }
    ensures ran { (t : Talk) → IsTalk client.old (L.told links.old) errands.old t → OnEnd result (HasRun client.new
        (L.told links.new)
        (Runs (own client.old) file.now slot Aim.Decision (stage_turns (own client.old) slot stages.now))
        t (L.faults links.old) (L.faults links.new)) }
    ensures own { own client.new ≡ own client.old }
    ensures seat { client.new.seat ≡ client.old.seat }
    ensures slots { KeepsSlots client.old.held client.new.held }
    ensures faults { L.faults links.old ≤ L.faults links.new }
{
    match run_each(alloc, client, number, file, links, errands, slot, stages) {
        Ok(()) => {}
        Err(fault) => return Err(fault),
    }
    if is_decided(client, slot) {
        Ok(())
    } else {
        Err(RunFault::Undecided(held_of(client, slot)))
    }
}

/// Goes through all stages behind the reads and writes.
pub(crate) fn close<V: Verifier, S: Signer, L: Links>(
    alloc: Global,
    client: &mut Client<V, S>,
    number: u8,
    file: &ClusterFile,
    links: &mut L,
    errands: &mut Errands,
    slot: u32,
) -> Result<(), RunFault>
    requires number { number ≡ client.old.seat.number }
    requires cluster { client.old.seat.cluster ≡ file.now.cluster }
    requires held { slot < length client.old.held.slots.items }
    ensures ran { (t : Talk) → IsTalk client.old (L.told links.old) errands.old t → OnEnd result (HasRun client.new
        (L.told links.new)
        (Runs (own client.old) file.now slot Aim.Decision (closing (own client.old) slot Aim.Decision))
        t (L.faults links.old) (L.faults links.new)) }
    ensures own { own client.new ≡ own client.old }
    ensures seat { client.new.seat ≡ client.old.seat }
    ensures slots { KeepsSlots client.old.held client.new.held }
    ensures faults { L.faults links.old ≤ L.faults links.new }
{
    close_by(alloc, client, number, file, links, errands, slot, &STAGES)
}

/// Goes through the stages of a transaction that was taken up.
pub(crate) fn finish<V: Verifier, S: Signer, L: Links>(
    alloc: Global,
    client: &mut Client<V, S>,
    number: u8,
    file: &ClusterFile,
    links: &mut L,
    errands: &mut Errands,
    slot: u32,
) -> Result<(), RunFault>
    requires number { number ≡ client.old.seat.number }
    requires cluster { client.old.seat.cluster ≡ file.now.cluster }
    requires held { slot < length client.old.held.slots.items }
    ensures ran { (t : Talk) → IsTalk client.old (L.told links.old) errands.old t → OnEnd result (HasRun client.new
        (L.told links.new)
        (Runs (own client.old) file.now slot Aim.Decision (finishing (own client.old) slot))
        t (L.faults links.old) (L.faults links.new)) }
    ensures own { own client.new ≡ own client.old }
    ensures seat { client.new.seat ≡ client.old.seat }
    ensures slots { KeepsSlots client.old.held client.new.held }
    ensures faults { L.faults links.old ≤ L.faults links.new }
{
    close_by(
        alloc,
        client,
        number,
        file,
        links,
        errands,
        slot,
        &LATER_STAGES,
    )
}

/// Forms the transaction in a slot, and asks nothing.
pub(crate) fn form<V: Verifier, S: Signer>(
    alloc: Global,
    client: &mut Client<V, S>,
    slot: u32,
    errands: &mut Errands,
) -> Result<(), RunFault>
    requires held { slot < length client.old.held.slots.items }
    ensures ran { (told : Option LinkState) (t : Talk) (l : Listing) (count : ℕ) →
        IsTalk client.old told errands.old t → OnEnd result (HasRun client.new told
        (Runs (own client.old) l slot Aim.Form (closing (own client.old) slot Aim.Form)) t count count) }
    ensures own { own client.new ≡ own client.old }
    ensures seat { client.new.seat ≡ client.old.seat }
    ensures slots { KeepsSlots client.old.held client.new.held }
{
    match call_stage(alloc, client, slot, Stage::Prepare, errands) {
        Ok(()) => Ok(()),
        Err(fault) => Err(refused(fault)),
    }
}

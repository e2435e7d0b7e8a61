//! Asks, until nothing waits.

ghost use Rattle.std.specs.Prelude.{◌≡◌, ◌<◌, ◌≤◌, true, false, Some, Ok, IfOk, length, slice_get};
ghost use Rattle.basil_types.specs.Links.{LinkState};
ghost use Rattle.client_core.specs.Shown.{own};
ghost use Rattle.client_core.specs.Done.{KeepsSlots};
ghost use Rattle.client_link.specs.Having.{HasAskedAll, HasAskedOne, HasAskedSome, IsAskedAt, IsTalk, work_left};
ghost use Rattle.client_link.specs.Talking.{Talk};

use crate::errands::Errands;
use crate::taking::take_all;
use basil_types::links::Links;
use basil_types::memory::NoMemory;
use basil_types::outbox::Envelope;
use basil_types::party::Party;
use client_core::Client;
use client_laws::speaking::speaks_twice;
use cluster_file::ClusterFile;
use keyring::signer::Signer;
use keyring::verifier::Verifier;
use node_link::ask;
use std::alloc::Global;
use std::collections::VecDeque;

/// Asks a message at its receiver's address, and gives the envelopes of the answer. A receiver without an address isn't
/// asked.
fn ask_at<L: Links>(
    alloc: Global,
    file: &ClusterFile,
    number: u8,
    links: &mut L,
    message: &Envelope,
) -> Result<VecDeque<Envelope>, NoMemory>
    ensures asked { (s : LinkState) → L.told links.old ≡ Some s → IfOk result (λ given. IsAskedAt file.now number
        message.now s (L.told links.new) (L.faults links.old) (L.faults links.new) given.items) }
    ensures faults { L.faults links.old ≤ L.faults links.new }
{
    let asker = Party::Client { number };
    match file.address(message.to) {
        Some(address) => ask(
            alloc,
            file.cluster,
            links,
            address,
            asker,
            message.frame.as_slice(),
        ),
        None => Ok(VecDeque::new(alloc)),
    }
}

/// The message at a place.
fn message_at(messages: &[Envelope], place: usize) -> &Envelope
    requires { place < length messages.now }
    ensures { slice_get messages.now place ≡ Some result.now }
{
    &messages[place]
}

/// Asks the first message that waits, takes the answer, and tells whether that made the client send anything.
fn ask_next<V: Verifier, S: Signer, L: Links>(
    alloc: Global,
    client: &mut Client<V, S>,
    number: u8,
    file: &ClusterFile,
    links: &mut L,
    errands: &mut Errands,
) -> Result<bool, NoMemory>
    requires number { number ≡ client.old.seat.number }
    requires cluster { client.old.seat.cluster ≡ file.now.cluster }
    requires waits { errands.old.asked < length errands.old.out.messages.items }
    ensures asked { (t : Talk) → IsTalk client.old (L.told links.old) errands.old t → IfOk result (λ sent.
        HasAskedOne client.new file.now (L.told links.new) errands.new t sent
        (L.faults links.old) (L.faults links.new)) }
    ensures nearer { result ≡ Ok false → work_left errands.new < work_left errands.old }
    ensures own { own client.new ≡ own client.old }
    ensures seat { client.new.seat ≡ client.old.seat }
    ensures slots { KeepsSlots client.old.held client.new.held }
    ensures faults { L.faults links.old ≤ L.faults links.new }
{
    let message = message_at(errands.out.messages.as_slice(), errands.asked);
    match ask_at(alloc, file, number, links, message) {
        Ok(given) => {
            errands.asked += 1;
            take_all(client, number, given, errands)
        }
        Err(wanting) => Err(wanting),
    }
}

/// Asks until the client sent anything, or nothing waits, and tells which.
fn ask_until_sent<V: Verifier, S: Signer, L: Links>(
    alloc: Global,
    client: &mut Client<V, S>,
    number: u8,
    file: &ClusterFile,
    links: &mut L,
    errands: &mut Errands,
) -> Result<bool, NoMemory>
    requires number { number ≡ client.old.seat.number }
    requires cluster { client.old.seat.cluster ≡ file.now.cluster }
    ensures asked { (t : Talk) → IsTalk client.old (L.told links.old) errands.old t → IfOk result (λ sent.
        HasAskedSome client.new file.now (L.told links.new) errands.new t sent
        (L.faults links.old) (L.faults links.new)) }
    ensures own { own client.new ≡ own client.old }
    ensures seat { client.new.seat ≡ client.old.seat }
    ensures slots { KeepsSlots client.old.held client.new.held }
    ensures faults { L.faults links.old ≤ L.faults links.new }
{
    while errands.asked < errands.out.messages.as_slice().len() {
        match ask_next(alloc, client, number, file, links, errands) {
            Ok(sent) => {
                if sent {
                    return Ok(sent);
                }
            }
            Err(wanting) => return Err(wanting),
        }
    }
    Ok(false)
}

/// Asks until nothing waits. Of itself a client sends at most two messages for each transaction: its second stage, and
/// its outcome.
pub(crate) fn ask_all<V: Verifier, S: Signer, L: Links>(
    alloc: Global,
    client: &mut Client<V, S>,
    number: u8,
    file: &ClusterFile,
    links: &mut L,
    errands: &mut Errands,
) -> Result<(), NoMemory>
    requires number { number ≡ client.old.seat.number }
    requires cluster { client.old.seat.cluster ≡ file.now.cluster }
    ensures asked { (t : Talk) → IsTalk client.old (L.told links.old) errands.old t → IfOk result (λ _.
        HasAskedAll client.new file.now (L.told links.new) errands.new t (L.faults links.old) (L.faults links.new)) }
    ensures own { own client.new ≡ own client.old }
    ensures seat { client.new.seat ≡ client.old.seat }
    ensures slots { KeepsSlots client.old.held client.new.held }
    ensures faults { L.faults links.old ≤ L.faults links.new }
{
    speaks_twice();
    let most = 2 * u64::from(client.slots()) + 1;
    let mut turn = 0u64;
    while turn < most {
        match ask_until_sent(alloc, client, number, file, links, errands) {
            Ok(sent) => {
                if !sent {
                    return Ok(());
                }
                turn += 1;
            }
            Err(wanting) => return Err(wanting),
        }
    }
    Ok(())
}

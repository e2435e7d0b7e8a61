//! What is taken of an answer.

ghost use Rattle.std.specs.Prelude.{◌≡◌, false, Option, IfOk, Ok};
ghost use Rattle.basil_types.specs.Links.{LinkState};
ghost use Rattle.client_core.specs.Shown.{own};
ghost use Rattle.client_core.specs.Done.{KeepsSlots};
ghost use Rattle.client_link.specs.Having.{Carries, HasTaken, IsTalk, SameWork};
ghost use Rattle.client_link.specs.Talking.{Talk, answered, takes, takes_all};
ghost use Rattle.client_core.specs.Answers.{on_frame};

use crate::errands::Errands;
use basil_types::memory::NoMemory;
use basil_types::outbox::Envelope;
use basil_types::party::Party;
use client_core::{Client, FrameFault};
use client_laws::speaking::speaks_twice;
use keyring::signer::Signer;
use keyring::verifier::Verifier;
use std::collections::VecDeque;

/// Hands the client a frame, and tells whether it sent anything.
fn hand<V: Verifier, S: Signer>(
    client: &mut Client<V, S>,
    frame: &[u8],
    errands: &mut Errands,
) -> Result<bool, NoMemory>
    ensures handed { (told : Option LinkState) (t : Talk) → IsTalk client.old told errands.old t → IfOk result (λ sent.
        HasTaken client.new told errands.new t (answered t (on_frame (own client.old) t.client frame.now)) sent) }
    ensures kept { result ≡ Ok false → SameWork errands.old errands.new }
    ensures own { own client.new ≡ own client.old }
    ensures seat { client.new.seat ≡ client.old.seat }
    ensures slots { KeepsSlots client.old.held client.new.held }
    ensures asked { errands.new.asked ≡ errands.old.asked }
{
    speaks_twice();
    let before = errands.out.messages.as_slice().len();
    match client.on_frame(frame, &mut errands.out) {
        Ok(()) => Ok(errands.out.messages.as_slice().len() != before),
        Err(fault) => {
            if fault == FrameFault::NoMemory {
                Err(NoMemory)
            } else {
                Ok(false)
            }
        }
    }
}

/// Puts an envelope for a replica behind the messages that wait, while so many are carried.
fn carry(envelope: Envelope, errands: &mut Errands) -> Result<(), NoMemory>
    ensures carried { IfOk result (λ _. Carries errands.old errands.new envelope) }
    ensures asked { errands.new.asked ≡ errands.old.asked }
{
    if errands.left == 0 {
        return Ok(());
    }
    errands.out.messages.room_for(1)?;
    errands.out.messages.push(envelope);
    errands.left -= 1;
    Ok(())
}

/// Takes an envelope of an answer, and tells whether the client sent anything.
fn take_one<V: Verifier, S: Signer>(
    client: &mut Client<V, S>,
    number: u8,
    envelope: Envelope,
    errands: &mut Errands,
) -> Result<bool, NoMemory>
    requires { number ≡ client.old.seat.number }
    ensures taken { (told : Option LinkState) (t : Talk) → IsTalk client.old told errands.old t → IfOk result (λ sent.
        HasTaken client.new told errands.new t (takes (own client.old) t envelope) sent) }
    ensures kept { result ≡ Ok false → SameWork errands.old errands.new }
    ensures own { own client.new ≡ own client.old }
    ensures seat { client.new.seat ≡ client.old.seat }
    ensures slots { KeepsSlots client.old.held client.new.held }
    ensures asked { errands.new.asked ≡ errands.old.asked }
{
    match envelope.to {
        Party::Client { number: receiver } => {
            if receiver == number {
                hand(client, envelope.frame.as_slice(), errands)
            } else {
                Ok(false)
            }
        }
        Party::Replica { .. } => match carry(envelope, errands) {
            Ok(()) => Ok(false),
            Err(wanting) => Err(wanting),
        },
    }
}

/// Takes the envelopes of an answer in order, and tells whether the client sent anything.
pub(crate) fn take_all<V: Verifier, S: Signer>(
    client: &mut Client<V, S>,
    number: u8,
    given: VecDeque<Envelope>,
    errands: &mut Errands,
) -> Result<bool, NoMemory>
    requires { number ≡ client.old.seat.number }
    ensures taken { (told : Option LinkState) (t : Talk) → IsTalk client.old told errands.old t → IfOk result (λ sent.
        HasTaken client.new told errands.new t (takes_all (own client.old) t given.items) sent) }
    ensures kept { result ≡ Ok false → SameWork errands.old errands.new }
    ensures own { own client.new ≡ own client.old }
    ensures seat { client.new.seat ≡ client.old.seat }
    ensures slots { KeepsSlots client.old.held client.new.held }
    ensures asked { errands.new.asked ≡ errands.old.asked }
{
    let mut given = given;
    let mut sent = false;
    while let Some(envelope) = given.pop_front() {
        match take_one(client, number, envelope, errands) {
            Ok(more) => sent = sent || more,
            Err(wanting) => return Err(wanting),
        }
    }
    Ok(sent)
}

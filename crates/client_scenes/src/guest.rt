//! A client, and how many slots it holds.

ghost use Rattle.std.specs.Prelude.{◌≡◌, ◌≤◌, ◌<◌, ℕ, Some};
ghost use Rattle.basil_types.specs.Limits.{most_clients};
ghost use Rattle.client_scenes.specs.Guests.{HoldsSlots};
ghost use Rattle.node_steps.specs.Pens.{pen_value};

use basil_types::cluster::Cluster;
use basil_types::outbox::Outbox;
use basil_types::party::Decision;
use basil_types::transaction::Transaction;
use client_core::{Ask, AskFault, CallFault, Client, FrameFault, ReadState};
use frame_values::owned::Certificate;
use keyring::plain::PlainKeys;
use keyring::signer::Signer;
use keyring_lms::LmsPen;
use std::alloc::Global;
use std::test::Fail;

/// A client over plain keys, with a pen of its own, and how many slots it holds.
#[derive(Drop)]
pub(crate) struct Guest {
    client: Client<PlainKeys, LmsPen>,
    slots: u32,
    ghost shown: { ∥ HoldsSlots client.held
        (pen_value (⟦<LmsPen as Signer>⟧.spent client.pen) (⟦<LmsPen as Signer>⟧.left_of client.pen)) slots ∥₁ },
}

/// What a client did in two halves: the outbox, what the plan told of its messages and their bytes, and its slot.
#[derive(Drop)]
pub(crate) struct Halves {
    pub(crate) out: Outbox,
    pub(crate) messages: u64,
    pub(crate) bytes: u64,
    pub(crate) slot: Option<u32>,
}

/// The slot that a recovery answers, none for the other asks; fails where a slot isn't held, or a signature is out of
/// size.
pub(crate) type Answer = Result<Result<Option<u32>, AskFault>, Fail>;

fn no_slot() -> Fail {
    Fail::new("no such slot, or no signature")
}

/// What a call that answers no slot answers.
fn called(answer: Result<(), CallFault>) -> Result<Option<u32>, AskFault> {
    match answer {
        Ok(()) => Ok(None),
        Err(fault) => Err(AskFault::Call(fault)),
    }
}

/// What a frame that came is answered.
fn answered(answer: Result<(), FrameFault>) -> Result<Option<u32>, AskFault> {
    match answer {
        Ok(()) => Ok(None),
        Err(fault) => Err(AskFault::Frame(fault)),
    }
}

/// So many slots, or one more than the slot that is answered.
fn counted(slots: u32, slot: Option<u32>) -> u32
    ensures { (m : ℕ) → slots ≤ m → ((s : ℕ) → slot ≡ Some s → s < m) → result ≤ m }
{
    match slot {
        Some(slot) => {
            if slot >= slots {
                slot.saturating_add(1)
            } else {
                slots
            }
        }
        None => slots,
    }
}

impl Guest {
    ghost use Rattle.client_scenes.specs.Guests.{can_ask};
    ghost use Rattle.basil_types.specs.declared.party.Party.TheVariants as parties;

    /// A client of this number before its first call.
    pub(crate) fn new(alloc: Global, cluster: Cluster, number: u8, pen: LmsPen) -> Guest
        requires number { (1 ≤ number) × (number ≤ most_clients) }
        requires party { (⟦<LmsPen as Signer>⟧.fixed pen).party ≡ parties.Client number }
    {
        let keys = PlainKeys::new(&cluster);
        Guest {
            client: Client::new(alloc, cluster, number, keys, pen),
            slots: 0,
        }
    }

    /// How many slots it holds.
    pub(crate) fn slots(&self) -> u32 {
        self.slots
    }

    pub(crate) fn begin(&mut self, time: u64) -> Result<u32, CallFault> {
        match self.client.begin(time) {
            Ok(slot) => {
                self.slots = counted(self.slots, Some(slot));
                Ok(slot)
            }
            Err(fault) => Err(fault),
        }
    }

    pub(crate) fn write(&mut self, slot: u32, key: &[u8], value: &[u8]) -> Answer {
        if slot >= self.slots {
            return Err(no_slot());
        }
        Ok(called(self.client.write(slot, key, value)))
    }

    pub(crate) fn delete(&mut self, slot: u32, key: &[u8]) -> Answer {
        if slot >= self.slots {
            return Err(no_slot());
        }
        Ok(called(self.client.delete(slot, key)))
    }

    fn read(&mut self, slot: u32, key: &[u8], out: &mut Outbox) -> Answer {
        if slot >= self.slots {
            return Err(no_slot());
        }
        Ok(called(self.client.read(slot, key, out)))
    }

    fn prepare(&mut self, slot: u32, out: &mut Outbox) -> Answer {
        if slot >= self.slots {
            return Err(no_slot());
        }
        Ok(called(self.client.prepare(slot, out)))
    }

    fn settle(&mut self, slot: u32, out: &mut Outbox) -> Answer {
        if slot >= self.slots {
            return Err(no_slot());
        }
        Ok(called(self.client.settle(slot, out)))
    }

    fn invoke(&mut self, slot: u32, out: &mut Outbox) -> Answer {
        if slot >= self.slots {
            return Err(no_slot());
        }
        Ok(called(self.client.invoke(slot, out)))
    }

    fn recover(&mut self, t: &Transaction, signature: &[u8], out: &mut Outbox) -> Answer {
        if signature.is_empty() || signature.len() > 8192 {
            return Err(no_slot());
        }
        match self.client.recover(t, signature, out) {
            Ok(slot) => {
                self.slots = counted(self.slots, Some(slot));
                Ok(Ok(Some(slot)))
            }
            Err(fault) => Ok(Err(AskFault::Call(fault))),
        }
    }

    fn on_frame(&mut self, frame: &[u8], out: &mut Outbox) -> Answer {
        Ok(answered(self.client.on_frame(frame, out)))
    }

    /// Does what is asked by its own call.
    pub(crate) fn whole(&mut self, ask: Ask<'_>, out: &mut Outbox) -> Answer {
        match ask {
            Ask::Read { slot, key } => self.read(slot, key, out),
            Ask::Prepare { slot } => self.prepare(slot, out),
            Ask::Settle { slot } => self.settle(slot, out),
            Ask::Recover { t, signature } => self.recover(t, signature, out),
            Ask::Invoke { slot } => self.invoke(slot, out),
            Ask::Frame { frame } => self.on_frame(frame, out),
        }
    }

    /// Whether what is asked is about a slot that is held, or a signature of a good length.
    fn can_be_asked(&self, ask: Ask<'_>) -> bool
        ensures { result ≡ can_ask self.now.slots ask.entry }
    {
        match ask {
            Ask::Read { slot, .. } => slot < self.slots,
            Ask::Prepare { slot } => slot < self.slots,
            Ask::Settle { slot } => slot < self.slots,
            Ask::Recover { signature, .. } => 1 <= signature.len() && signature.len() <= 8192,
            Ask::Invoke { slot } => slot < self.slots,
            Ask::Frame { .. } => true,
        }
    }

    /// Plans what is asked, and does it.
    pub(crate) fn halves(&mut self, ask: Ask<'_>) -> Result<Result<Halves, AskFault>, Fail> {
        if !self.can_be_asked(ask) {
            return Err(no_slot());
        }
        match self.client.plan(ask) {
            Ok(plan) => {
                let messages = plan.messages();
                let bytes = plan.bytes();
                let slot = plan.slot();
                let out = self.client.commit(plan);
                self.slots = counted(self.slots, slot);
                Ok(Ok(Halves {
                    out,
                    messages,
                    bytes,
                    slot,
                }))
            }
            Err(fault) => Ok(Err(fault)),
        }
    }

    /// Plans what is asked, and gives it up.
    pub(crate) fn give_up(&mut self, ask: Ask<'_>) -> Answer {
        if !self.can_be_asked(ask) {
            return Err(no_slot());
        }
        match self.client.plan(ask) {
            Ok(plan) => {
                self.client.give_up(plan);
                Ok(Ok(None))
            }
            Err(fault) => Ok(Err(fault)),
        }
    }

    pub(crate) fn value(&self, slot: u32, key: &[u8]) -> Result<ReadState<'_>, Fail> {
        if slot >= self.slots {
            return Err(no_slot());
        }
        Ok(self.client.value(slot, key))
    }

    pub(crate) fn formed(&self, slot: u32) -> Result<Option<(&Transaction, &[u8])>, Fail> {
        if slot >= self.slots {
            return Err(no_slot());
        }
        Ok(self.client.formed(slot))
    }

    pub(crate) fn held(&self, slot: u32) -> Result<u32, Fail> {
        if slot >= self.slots {
            return Err(no_slot());
        }
        Ok(self.client.held(slot))
    }

    pub(crate) fn outcome(&self, slot: u32) -> Result<Option<(Decision, &Certificate)>, Fail> {
        if slot >= self.slots {
            return Err(no_slot());
        }
        Ok(self.client.outcome(slot))
    }
}

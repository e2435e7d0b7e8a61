//! What a caller sees of a client: what its slots tell, and what it sent and signed.

use crate::asking::slot_in;
use crate::casts::{Role, name_with, token_at};
use crate::phrases::plain_signature;
use crate::stages::Stage;
use crate::telling::{leaf_of, name_of, push_bytes, tell_held};
use basil_types::bytes::id_of;
use basil_types::outbox::Envelope;
use basil_types::party::Party;
use basil_types::version::Version;
use basil_types::words::Words;
use client_core::ReadState;
use keyring::verifier::Verifier;
use std::alloc::AllocError;
use std::test::Fail;

/// The name of the transaction whose words these are.
fn name_in(cast: &[Role], words: &Words) -> &'static str {
    for role in cast {
        let wanted = Words::transaction(&id_of(&role.bytes));
        if words.bytes() == wanted.bytes() {
            return role.name;
        }
    }
    "another"
}

/// The bytes of all frames.
pub(crate) fn bytes_of(messages: &[Envelope]) -> u64 {
    let mut bytes = 0u64;
    for envelope in messages {
        bytes = bytes.saturating_add(envelope.frame.as_slice().len() as u64);
    }
    bytes
}

// ---- what a slot tells

impl Stage<'_> {
    fn name(&self, version: Version) -> &'static str {
        name_with(self.reader.cast, &version.id)
    }

    fn tell_value(&self, text: &mut String, slot: u32, key: &[u8]) -> Result<(), Fail> {
        match self.guest.value(slot, key)? {
            ReadState::NotRead => text.push_str("not read")?,
            ReadState::Pending => text.push_str("pending")?,
            ReadState::Absent => text.push_str("absent")?,
            ReadState::Found { writer, value } => {
                write!(text, "{} gave ", self.name(writer))?;
                push_bytes(text, value)?;
            }
            ReadState::Deleted { writer } => write!(text, "{} deleted", self.name(writer))?,
            ReadState::Own { value } => {
                text.push_str("own ")?;
                push_bytes(text, value)?;
            }
            ReadState::OwnDeleted => text.push_str("own deleted")?,
        }
        Ok(())
    }

    /// The formed transaction, and the leaf that signed it, or `plain` where another client's plain key did.
    fn tell_formed(&self, text: &mut String, slot: u32) -> Result<(), Fail> {
        let Some((t, signature)) = self.guest.formed(slot)? else {
            text.push_str("none")?;
            return Ok(());
        };
        let id = id_of(t.view().bytes());
        text.push_str(name_with(self.reader.cast, &id))?;
        let client = Party::Client {
            number: t.view().client(),
        };
        let words = Words::transaction(&id);
        if self.reader.key.accepts(client, words.bytes(), signature) {
            write!(text, " #{}", leaf_of(signature))?;
        } else if signature == plain_signature(client, &words).as_slice() {
            text.push_str(" plain")?;
        }
        Ok(())
    }

    fn tell_outcome(&self, text: &mut String, slot: u32) -> Result<(), Fail> {
        match self.guest.outcome(slot)? {
            Some((decision, certificate)) => {
                text.push_str(name_of(decision))?;
                tell_held(text, self.reader.cast, certificate)?;
            }
            None => text.push_str("none")?,
        }
        Ok(())
    }

    /// The transactions that the client signed.
    fn tell_signed(&self, text: &mut String) -> Result<(), AllocError> {
        for words in self.out.signed.as_slice() {
            if !text.is_empty() {
                text.push_str(" ")?;
            }
            text.push_str(name_in(self.reader.cast, words))?;
        }
        Ok(())
    }

    /// The answer to a question; none where the phrase asks none.
    pub(crate) fn tell_question(&self, text: &mut String, phrase: &str) -> Result<bool, Fail> {
        let slot = slot_in(phrase);
        match token_at(phrase, 0).as_bytes() {
            b"value" => self.tell_value(text, slot, token_at(phrase, 2).as_bytes())?,
            b"formed" => self.tell_formed(text, slot)?,
            b"held" => write!(text, "{}", self.guest.held(slot)?)?,
            b"outcome" => self.tell_outcome(text, slot)?,
            b"signed" => self.tell_signed(text)?,
            _ => return Ok(false),
        }
        Ok(true)
    }
}

// ---- marks, by which what is before and behind a call is compared

/// The keys that a mark tells of every slot.
const KEYS: &[&str] = &["a", "b", "c", "d", "e"];

impl Stage<'_> {
    /// The name of the formed transaction, how long its signature is, and the leaf that its first bytes name.
    fn mark_formed(&self, text: &mut String, slot: u32) -> Result<(), Fail> {
        if let Some((t, signature)) = self.guest.formed(slot)? {
            let name = name_with(self.reader.cast, &id_of(t.view().bytes()));
            write!(text, "{name} {} {}", signature.len(), leaf_of(signature))?;
        }
        Ok(())
    }

    fn mark_slot(&self, text: &mut String, slot: u32) -> Result<(), Fail> {
        write!(text, "{slot}: {} ", self.guest.held(slot)?)?;
        self.mark_formed(text, slot)?;
        text.push_str(" ")?;
        self.tell_outcome(text, slot)?;
        for key in KEYS {
            text.push_str(", ")?;
            self.tell_value(text, slot, key.as_bytes())?;
        }
        text.push_str("; ")?;
        Ok(())
    }

    fn mark_slots(&self, text: &mut String) -> Result<(), Fail> {
        for slot in 0..self.guest.slots() {
            self.mark_slot(text, slot)?;
        }
        Ok(())
    }

    /// What every slot tells of this key.
    fn mark_key(&self, text: &mut String, key: &[u8]) -> Result<(), Fail> {
        for slot in 0..self.guest.slots() {
            self.tell_value(text, slot, key)?;
            text.push_str("; ")?;
        }
        Ok(())
    }

    /// How many messages were sent and words signed, and how many bytes the messages have.
    fn mark_sent(&self, text: &mut String) -> Result<(), AllocError> {
        let (sent, signed) = (self.out.messages.as_slice(), self.out.signed.as_slice());
        write!(text, "{} {} {}", sent.len(), signed.len(), bytes_of(sent))
    }

    fn mark_all(&self, text: &mut String, key: &[u8]) -> Result<(), Fail> {
        self.mark_slots(text)?;
        self.mark_key(text, key)?;
        Ok(self.mark_sent(text)?)
    }

    /// What all slots tell: what is held, formed and decided, and the keys a to e.
    pub(crate) fn slots_told(&self) -> Result<String, Fail> {
        let mut text = String::new(self.alloc);
        self.mark_slots(&mut text)?;
        Ok(text)
    }

    /// All that a caller sees: the same, what all slots tell of the key that a call is about, and how much was sent and
    /// signed.
    pub(crate) fn all_told(&self, key: &[u8]) -> Result<String, Fail> {
        let mut text = String::new(self.alloc);
        self.mark_all(&mut text, key)?;
        Ok(text)
    }
}

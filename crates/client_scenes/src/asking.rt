//! What a phrase asks of a client, and what is told of that: what is sent, or why it is refused.

use crate::casts::{Role, byte_of, number_of, role_named, token_at};
use crate::guest::{Answer, Halves};
use crate::phrases::{Sender, plain_signature, put_frame, senders_of};
use crate::seen::bytes_of;
use crate::stages::{Stage, Way};
use crate::telling::{push_bytes, tell};
use basil_types::bytes::id_of;
use basil_types::party::Party;
use basil_types::transaction::{Transaction, TransactionView};
use basil_types::words::Words;
use client_core::{Ask, AskFault, CallFault};
use std::alloc::{AllocError, Global};
use std::test::Fail;

/// What is asked of a client.
#[derive(Clone, Copy)]
enum Call<'a> {
    /// A transaction begins.
    Begin {
        time: u64,
    },
    /// A key gets a value.
    Write {
        slot: u32,
        key: &'a [u8],
        value: &'a [u8],
    },
    /// A key is deleted.
    Delete {
        slot: u32,
        key: &'a [u8],
    },
    /// What can be planned.
    Planned(Ask<'a>),
}

impl<'a> Call<'a> {
    /// The key that it is about; empty where it is about none.
    fn key(self) -> &'a [u8] {
        match self {
            Call::Write { key, .. } => key,
            Call::Delete { key, .. } => key,
            Call::Planned(Ask::Read { key, .. }) => key,
            Call::Begin { .. } | Call::Planned(_) => &[],
        }
    }
}

/// A token's bytes: `a*65` spells 65 letters a.
fn spelled(alloc: Global, token: &str) -> Result<Vec<u8>, AllocError> {
    let mut bytes = Vec::new(alloc);
    match token.split_once('*') {
        Some((letter, count)) => {
            for _ in 0..number_of(count) {
                bytes.extend_from_slice(letter.as_bytes())?;
            }
        }
        None => bytes.extend_from_slice(token.as_bytes())?,
    }
    Ok(bytes)
}

/// The slot that the second token of a phrase names.
pub(crate) fn slot_in(phrase: &str) -> u32 {
    u32::from(byte_of(token_at(phrase, 1)))
}

/// A role's transaction; fails where it is none.
fn transaction_of(alloc: Global, role: &Role) -> Result<Transaction, Fail> {
    match TransactionView::read(&role.bytes, 0) {
        Ok(t) => Ok(t.try_owned(alloc)?),
        Err(_) => Err(Fail::new("no transaction")),
    }
}

/// The plain signature of a role's client.
fn signature_of(role: &Role) -> [u8; 32] {
    let client = Party::Client {
        number: role.client,
    };
    plain_signature(client, &Words::transaction(&id_of(&role.bytes)))
}

// ---- why it is refused

fn tell_call_fault(text: &mut String, fault: &CallFault) -> Result<(), AllocError> {
    match fault {
        CallFault::ReadPending(key) => {
            text.push_str("ReadPending of ")?;
            push_bytes(text, key.as_slice())
        }
        _ => write!(text, "{fault:?}"),
    }
}

fn tell_fault(text: &mut String, fault: &AskFault) -> Result<(), AllocError> {
    text.push_str("refused ")?;
    match fault {
        AskFault::Call(fault) => tell_call_fault(text, fault),
        AskFault::Frame(fault) => write!(text, "{fault:?}"),
    }
}

// ---- calls and frames

/// What a transaction that begins is answered: its slot, which is new.
fn begun(answer: Result<u32, CallFault>) -> Result<Option<u32>, AskFault> {
    match answer {
        Ok(slot) => Ok(Some(slot)),
        Err(fault) => Err(AskFault::Call(fault)),
    }
}

impl Stage<'_> {
    /// Asks in two halves; fails where the plan tells other messages or bytes than are sent.
    fn ask_halves(&mut self, ask: Ask<'_>) -> Answer {
        match self.guest.halves(ask)? {
            Ok(halves) => {
                let Halves {
                    out,
                    messages,
                    bytes,
                    slot,
                } = halves;
                self.out = out;
                let sent = self.out.messages.as_slice();
                if messages == sent.len() as u64 && bytes == bytes_of(sent) {
                    Ok(Ok(slot))
                } else {
                    Err(Fail::new("the plan told something else"))
                }
            }
            Err(fault) => Ok(Err(fault)),
        }
    }

    /// Plans and gives up; fails where a caller sees anything else than before.
    fn give_up(&mut self, ask: Ask<'_>, before: &str) -> Answer {
        let answer = self.guest.give_up(ask)?;
        if self.all_told(Call::Planned(ask).key())?.as_str() == before {
            Ok(answer)
        } else {
            Err(Fail::new("a plan that was given up changed something"))
        }
    }

    fn ask(&mut self, way: Way, ask: Ask<'_>, before: &str) -> Answer {
        match way {
            Way::Whole => self.guest.whole(ask, &mut self.out),
            Way::Halves => self.ask_halves(ask),
            Way::Again => {
                drop(self.give_up(ask, before)?);
                self.guest.whole(ask, &mut self.out)
            }
            Way::Dropped => self.give_up(ask, before),
        }
    }

    /// Does what is asked, before which a caller sees this.
    fn answered(&mut self, way: Way, call: Call<'_>, before: &str) -> Answer {
        match call {
            Call::Begin { time } => Ok(begun(self.guest.begin(time))),
            Call::Write { slot, key, value } => self.guest.write(slot, key, value),
            Call::Delete { slot, key } => self.guest.delete(slot, key),
            Call::Planned(ask) => self.ask(way, ask, before),
        }
    }

    /// The place of the first message that a call sends: one that is asked in two halves begins an outbox of its own.
    fn place(&self, way: Way, call: Call<'_>) -> usize {
        match (way, call) {
            (Way::Halves, Call::Planned(_)) => 0,
            _ => self.out.messages.as_slice().len(),
        }
    }

    /// Tells the messages from a place on.
    fn tell_sent(&mut self, text: &mut String, from: usize) -> Result<(), AllocError> {
        for envelope in self.out.messages.as_slice().iter().skip(from) {
            self.sent.extend_from_slice(envelope.frame.as_slice())?;
        }
        tell(text, &self.reader, self.out.messages.as_slice(), from)
    }

    /// Tells the slot that is answered, and the messages from a place on.
    fn tell_taken(
        &mut self,
        text: &mut String,
        slot: Option<u32>,
        from: usize,
    ) -> Result<(), AllocError> {
        if let Some(slot) = slot {
            write!(text, "slot {slot}")?;
        }
        self.tell_sent(text, from)
    }

    /// Tells why a call or a frame is refused; fails where a caller sees anything else than before.
    fn tell_refused(
        &self,
        text: &mut String,
        call: Call<'_>,
        fault: &AskFault,
        before: &str,
    ) -> Result<(), Fail> {
        tell_fault(text, fault)?;
        if self.all_told(call.key())?.as_str() == before {
            Ok(())
        } else {
            Err(Fail::new("what was refused changed something"))
        }
    }

    /// Does what is asked, before which a caller sees this, and tells what is answered and sent.
    fn tell_answered(
        &mut self,
        text: &mut String,
        way: Way,
        call: Call<'_>,
        before: &str,
    ) -> Result<(), Fail> {
        let from = self.place(way, call);
        match self.answered(way, call, before)? {
            Ok(slot) => Ok(self.tell_taken(text, slot, from)?),
            Err(fault) => self.tell_refused(text, call, &fault, before),
        }
    }

    /// Does what is asked, and tells what is answered and sent.
    fn tell_call(&mut self, text: &mut String, way: Way, call: Call<'_>) -> Result<(), Fail> {
        let before = self.all_told(call.key())?;
        self.tell_answered(text, way, call, &before)
    }

    // ---- phrases

    /// Reads, writes or deletes a key.
    fn tell_keyed(&mut self, text: &mut String, way: Way, phrase: &str) -> Result<(), Fail> {
        let slot = slot_in(phrase);
        let key = spelled(self.alloc, token_at(phrase, 2))?;
        let value = spelled(self.alloc, token_at(phrase, 3))?;
        let call = match token_at(phrase, 0).as_bytes() {
            b"read" => Call::Planned(Ask::Read { slot, key: &key }),
            b"write" => Call::Write {
                slot,
                key: &key,
                value: &value,
            },
            _ => Call::Delete { slot, key: &key },
        };
        self.tell_call(text, way, call)
    }

    /// Reads or writes the key of this number.
    fn tell_numbered(
        &mut self,
        text: &mut String,
        way: Way,
        phrase: &str,
        number: u64,
    ) -> Result<(), Fail> {
        let (alloc, slot) = (self.alloc, slot_in(phrase));
        let keyed = if token_at(phrase, 0) == "writes" {
            format!(in alloc; "write {slot} w{number} v")?
        } else {
            format!(in alloc; "read {slot} r{number}")?
        };
        self.tell_keyed(text, way, &keyed)
    }

    /// Reads or writes so many keys; fails where one is refused.
    fn fill(&mut self, text: &mut String, way: Way, phrase: &str) -> Result<(), Fail> {
        for number in 0..number_of(token_at(phrase, 2)) {
            self.tell_numbered(text, way, phrase, number)?;
        }
        if text.contains("refused") {
            return Err(Fail::new("a key is refused"));
        }
        text.clear();
        Ok(())
    }

    fn tell_recover(&mut self, text: &mut String, way: Way, phrase: &str) -> Result<(), Fail> {
        let role = role_named(self.reader.cast, token_at(phrase, 1))?;
        let signature = signature_of(role);
        let t = transaction_of(self.alloc, role)?;
        let ask = Ask::Recover {
            t: &t,
            signature: &signature,
        };
        self.tell_call(text, way, Call::Planned(ask))
    }

    /// Hands the frame of a phrase that this replica sends.
    fn tell_frame(
        &mut self,
        text: &mut String,
        way: Way,
        phrase: &str,
        sender: &Sender,
    ) -> Result<(), Fail> {
        let mut frame = Vec::new(self.alloc);
        put_frame(self.alloc, &mut frame, self.reader.cast, phrase, sender)?;
        self.tell_call(text, way, Call::Planned(Ask::Frame { frame: &frame }))
    }

    fn tell_each(
        &mut self,
        text: &mut String,
        way: Way,
        phrase: &str,
        senders: &[Sender],
    ) -> Result<(), Fail> {
        for sender in senders {
            self.tell_frame(text, way, phrase, sender)?;
        }
        Ok(())
    }

    /// Hands the frames of a phrase, one after the other.
    fn tell_frames(&mut self, text: &mut String, way: Way, phrase: &str) -> Result<(), Fail> {
        let senders = senders_of(self.alloc, phrase)?;
        self.tell_each(text, way, phrase, &senders)
    }

    /// Does what a phrase says that isn't a question.
    fn tell_done(&mut self, text: &mut String, way: Way, phrase: &str) -> Result<(), Fail> {
        let slot = slot_in(phrase);
        let time = number_of(token_at(phrase, 1));
        match token_at(phrase, 0).as_bytes() {
            b"begin" => self.tell_call(text, way, Call::Begin { time }),
            b"read" | b"write" | b"delete" => self.tell_keyed(text, way, phrase),
            b"prepare" => self.tell_call(text, way, Call::Planned(Ask::Prepare { slot })),
            b"settle" => self.tell_call(text, way, Call::Planned(Ask::Settle { slot })),
            b"invoke" => self.tell_call(text, way, Call::Planned(Ask::Invoke { slot })),
            b"recover" => self.tell_recover(text, way, phrase),
            b"reads" | b"writes" => self.fill(text, way, phrase),
            _ => self.tell_frames(text, way, phrase),
        }
    }

    /// Does what a phrase says, before which the slots tell this; `same` where nothing is sent and they tell it still.
    fn tell_changed(
        &mut self,
        text: &mut String,
        way: Way,
        phrase: &str,
        before: &str,
    ) -> Result<(), Fail> {
        self.tell_done(text, way, phrase)?;
        if text.is_empty() && self.slots_told()?.as_str() == before {
            text.push_str("same")?;
        }
        Ok(())
    }

    fn tell_change(&mut self, text: &mut String, way: Way, phrase: &str) -> Result<(), Fail> {
        let before = self.slots_told()?;
        self.tell_changed(text, way, phrase, &before)
    }

    fn tell_phrase(&mut self, text: &mut String, way: Way, phrase: &str) -> Result<(), Fail> {
        if let Some(rest) = phrase.strip_prefix("drop ") {
            return self.tell_change(text, Way::Dropped, rest);
        }
        if self.tell_question(text, phrase)? {
            return Ok(());
        }
        self.tell_change(text, way, phrase)
    }

    /// The answer to a phrase.
    pub(crate) fn answer(&mut self, way: Way, phrase: &str) -> Result<String, Fail> {
        let mut text = String::new(self.alloc);
        self.tell_phrase(&mut text, way, phrase)?;
        Ok(text)
    }
}

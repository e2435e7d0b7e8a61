//! Frames that wait for their signature, which is their last field.

ghost use Rattle.std.specs.Prelude.{◌≡◌, ◌+◌, ◌<◌, ◌≤◌, ◌++◌, ◌∷◌, [], All, IfOk};
ghost use Rattle.std.specs.Prelude.{IfSome, OnOk, length, map, vec_len, vec_capacity};
ghost use Rattle.basil_types.specs.Limits.{signature_limit};
ghost use Rattle.basil_types.specs.Transaction.{long_text};
ghost use Rattle.frame_views.specs.Fitting.{IsSignature};
ghost use Rattle.node_steps.specs.Pendings.{front_of, sealed, sealed_all, bytes_in};
ghost use Rattle.node_steps.specs.Pendings.{Sends, HasRoomFor, IsReady, CanSign};
ghost use Rattle.node_steps.specs.Pens.{pen_value, after_one};

use basil_types::bytes::Bytes;
use basil_types::list::List;
use basil_types::memory::NoMemory;
use basil_types::outbox::{Envelope, Outbox};
use basil_types::party::Party;
use basil_types::words::Words;
use frame_writing::put_signature_reserved;
use keyring::signer::Signer;
use std::alloc::Global;

/// A frame for a party that lacks its signature.
#[derive(Drop)]
pub struct Unsigned {
    pub to: Party,
    pub frame: Vec<u8>,
}

impl Unsigned {
    /// A frame with room for a signature of this size, or memory is wanting.
    pub fn with_room(to: Party, frame: Vec<u8>, size: usize) -> Result<Unsigned, NoMemory>
        requires { size ≤ signature_limit }
        ensures front { IfOk result (λ u. front_of u ≡ record { to = to; bytes = frame.items }) }
        ensures room { IfOk result (HasRoomFor size) }
    {
        let mut frame = frame;
        frame.reserve(2 + size)?;
        Ok(Unsigned { to, frame })
    }
}

/// Words that wait for their signature, a buffer for it, and the frames that end with it.
#[derive(Drop)]
pub struct Pending {
    pub words: Words,
    pub stored: Vec<u8>,
    pub frames: Vec<Unsigned>,
}

impl Pending {
    /// Words and frames that wait for one signature of this size, or memory is wanting.
    pub fn new(
        alloc: Global,
        words: Words,
        frames: Vec<Unsigned>,
        size: usize,
    ) -> Result<Pending, NoMemory>
        requires some { 1 ≤ size }
        requires short { size ≤ signature_limit }
        requires rooms { All (HasRoomFor size) frames.items }
        ensures ready { IfOk result (IsReady size) }
        ensures words { IfOk result (λ p. p.words ≡ words) }
        ensures frames { IfOk result (λ p. p.frames ≡ frames) }
    {
        let stored = vec![in alloc; 0u8; size]?;
        Ok(Pending {
            words,
            stored,
            frames,
        })
    }

    /// Words and one frame that wait for one signature of this size, or memory is wanting.
    pub fn of_one(
        alloc: Global,
        words: Words,
        to: Party,
        frame: Vec<u8>,
        size: usize,
    ) -> Result<Pending, NoMemory>
        requires some { 1 ≤ size }
        requires short { size ≤ signature_limit }
        ensures ready { IfOk result (IsReady size) }
        ensures words { IfOk result (λ p. p.words ≡ words) }
        ensures fronts { IfOk result (λ p. map front_of p.frames.items ≡ record { to = to; bytes = frame.items } ∷ []) }
        ensures count { IfOk result (λ p. length p.frames.items ≡ 1) }
    {
        let unsigned = Unsigned::with_room(to, frame, size)?;
        let mut frames = Vec::new(alloc);
        frames.push(unsigned)?;
        Pending::new(alloc, words, frames, size)
    }

    /// The bytes of the frames, once each has a signature of this size. None only where the sum passes 2^64 - 1.
    pub fn bytes(&self, size: usize) -> Option<u64>
        ensures { IfSome result (λ n. n ≡ bytes_in size self.now.frames.items) }
    {
        let mut bytes = 0u64;
        for unsigned in &self.frames {
            let sealed = unsigned.frame.len().checked_add(2)?.checked_add(size)?;
            bytes = bytes.checked_add(sealed as u64)?;
        }
        Some(bytes)
    }
}

/// Ends a frame with this signature. Takes no memory.
pub fn seal(frame: Vec<u8>, signature: &[u8]) -> Bytes
    requires short { length signature.now ≤ signature_limit }
    requires room { vec_len frame + (2 + length signature.now) ≤ vec_capacity frame }
    ensures { result ≡ frame.items ++ long_text signature.now }
{
    let mut frame = frame;
    put_signature_reserved(signature, &mut frame);
    Bytes::from_vec(frame)
}

/// Sends the frames with this signature. Takes no memory.
pub fn send(frames: Vec<Unsigned>, signature: &[u8], out: &mut Outbox)
    requires rooms { All (HasRoomFor (length signature.now)) frames.items }
    requires short { length signature.now ≤ signature_limit }
    requires room { length frames.items ≤ out.old.messages.room }
    ensures messages { out.new.messages.items ≡ out.old.messages.items ++ map (sealed signature.now) frames.items }
    ensures room { out.new.messages.room + length frames.items ≡ out.old.messages.room }
    ensures signed { out.new.signed ≡ out.old.signed }
{
    for unsigned in frames {
        let frame = seal(unsigned.frame, signature);
        out.messages.push(Envelope {
            to: unsigned.to,
            frame,
        });
    }
}

/// Signs what waits and sends the frames, and gives the signature. Takes no memory.
pub fn sign<S: Signer>(pen: &mut S, pending: Pending, out: &mut Outbox) -> Vec<u8>
    requires { CanSign (S.fixed pen.old).size (S.left_of pen.old) out.old pending }
    ensures signature { result.items ≡ (S.fixed pen.old).gives (S.spent pen.old) pending.words }
    ensures size { length result.items ≡ (S.fixed pen.old).size }
    ensures whole { IsSignature result.items }
    ensures sends { Sends out.old out.new (length pending.frames.items)
        (bytes_in (S.fixed pen.old).size pending.frames.items) }
    ensures messages { out.new.messages.items
        ≡ out.old.messages.items ++ sealed_all ((S.fixed pen.old).gives (S.spent pen.old) pending.words) pending }
    ensures message_room { out.new.messages.room + length pending.frames.items ≡ out.old.messages.room }
    ensures words { out.new.signed.items ≡ out.old.signed.items ++ pending.words ∷ [] }
    ensures word_room { out.new.signed.room + 1 ≡ out.old.signed.room }
    ensures pen { pen_value (S.spent pen.new) (S.left_of pen.new)
        ≡ after_one (pen_value (S.spent pen.old) (S.left_of pen.old)) }
    ensures fixed { S.fixed pen.new ≡ S.fixed pen.old }
{
    let Pending {
        words,
        stored,
        frames,
    } = pending;
    let mut stored = stored;
    pen.sign_into(words.bytes(), &mut stored).unwrap();
    out.signed.push(words);
    send(frames, stored.as_slice(), out);
    stored
}

/// An empty outbox.
pub fn outbox(alloc: Global) -> Outbox
    ensures messages { result.messages.items ≡ [] }
    ensures signed { result.signed.items ≡ [] }
{
    Outbox {
        messages: List::new(alloc),
        signed: List::new(alloc),
    }
}

/// Makes room for this many more messages and words, or finds memory wanting. Either way the outbox holds what it held.
pub fn make_room(out: &mut Outbox, messages: usize, words: usize) -> Result<(), NoMemory>
    ensures messages { out.new.messages.items ≡ out.old.messages.items }
    ensures signed { out.new.signed.items ≡ out.old.signed.items }
    ensures message_room { OnOk result (messages ≤ out.new.messages.room) }
    ensures word_room { OnOk result (words ≤ out.new.signed.room) }
{
    out.messages.room_for(messages)?;
    out.signed.room_for(words)
}

//! Planned work of every kind.

ghost use Rattle.std.specs.Prelude.{◌≡◌, ◌≤◌, [], IfOk, IfSome, OnOk};
ghost use Rattle.mvtso_check.specs.Standing.{StandsFor};
ghost use Rattle.node_steps.specs.Pendings.{Sends};
ghost use Rattle.node_steps.specs.Pens.{pen_value};
ghost use Rattle.replica_core.specs.KnownWorks.{HasRoomFor};
ghost use Rattle.replica_core.specs.Leads.{kept_next};
ghost use Rattle.replica_core.specs.Nodes.{Performs, book_shown};
ghost use Rattle.replica_core.specs.Replicas.{BookValue};
ghost use Rattle.replica_core.specs.Telling.{told_with};
ghost use Rattle.replica_core.specs.Works.{CanPerform, perform_work, message_count, word_count, byte_count};

use crate::election::LeadWork;
use crate::logging::LogWork;
use crate::parts::Parts;
use crate::reads::ReadWork;
use crate::work::KnownWork;
use basil_types::memory::NoMemory;
use basil_types::outbox::Outbox;
use keyring::signer::Signer;
use node_steps::pending::{make_room, outbox};
use std::alloc::Global;

/// What a planned answer does.
#[derive(Drop)]
pub(crate) enum Work {
    Known(KnownWork),
    Read(ReadWork),
    Log(LogWork),
    Lead(LeadWork),
}

/// A planned answer, with all the memory that it takes.
#[derive(Drop)]
pub struct Plan {
    pub(crate) work: Work,
    pub(crate) out: Outbox,
    pub(crate) messages: u64,
    pub(crate) bytes: u64,
}

impl Plan {
    /// Planned work with room for what it sends, by a pen with signatures of this size; or memory is wanting.
    pub(crate) fn of(alloc: Global, work: Work, size: usize) -> Result<Plan, NoMemory>
        ensures work { IfOk result (λ p. p.work ≡ work) }
        ensures room { IfOk result (λ p. HasRoomFor p.out (message_count work) (word_count work)) }
        ensures unsent { IfOk result (λ p. p.out.messages.items ≡ []) }
        ensures unsigned { IfOk result (λ p. p.out.signed.items ≡ []) }
        ensures messages { IfOk result (λ p. p.messages ≡ message_count work) }
        ensures bytes { IfOk result (λ p. p.bytes ≡ byte_count size work) }
    {
        let mut out = outbox(alloc);
        work.room_in(&mut out)?;
        let Some(messages) = work.messages() else {
            return Err(NoMemory);
        };
        let Some(bytes) = work.bytes(size) else {
            return Err(NoMemory);
        };
        Ok(Plan {
            work,
            out,
            messages: messages as u64,
            bytes,
        })
    }

    /// How many messages it sends.
    pub fn messages(&self) -> u64
        ensures { result ≡ self.now.messages }
    {
        self.messages
    }

    /// How many words it signs.
    pub fn words(&self) -> usize
        ensures { result ≡ word_count self.now.work }
    {
        self.work.words()
    }

    /// How many bytes the frames of its messages have together.
    pub fn bytes(&self) -> u64
        ensures { result ≡ self.now.bytes }
    {
        self.bytes
    }

    /// Makes room in a lent outbox for its messages and words, or finds memory wanting. Either way the outbox holds what
    /// it held.
    pub fn room_in(&self, out: &mut Outbox) -> Result<(), NoMemory>
        ensures messages { out.new.messages.items ≡ out.old.messages.items }
        ensures signed { out.new.signed.items ≡ out.old.signed.items }
        ensures message_room { OnOk result (self.now.messages ≤ out.new.messages.room) }
        ensures word_room { OnOk result (word_count self.now.work ≤ out.new.signed.room) }
    {
        make_room(out, self.messages as usize, self.words())
    }
}

impl Work {
    /// How many messages it sends. None only where the sum passes 2^64 - 1.
    pub(crate) fn messages(&self) -> Option<usize>
        ensures { IfSome result (λ n. n ≡ message_count self.now) }
    {
        match self {
            Work::Known(work) => work.messages(),
            Work::Read(work) => Some(work.messages()),
            Work::Log(work) => Some(work.messages()),
            Work::Lead(work) => Some(work.messages()),
        }
    }

    /// How many words it signs.
    pub(crate) fn words(&self) -> usize
        ensures { result ≡ word_count self.now }
    {
        match self {
            Work::Known(work) => work.words(),
            Work::Read(_) => 1,
            Work::Log(work) => work.words(),
            Work::Lead(work) => work.words(),
        }
    }

    /// The bytes of its frames, with signatures of this size. None only where the sum passes 2^64 - 1.
    pub(crate) fn bytes(&self, size: usize) -> Option<u64>
        ensures { IfSome result (λ n. n ≡ byte_count size self.now) }
    {
        match self {
            Work::Known(work) => work.bytes(size),
            Work::Read(work) => work.bytes(size),
            Work::Log(work) => work.bytes(size),
            Work::Lead(work) => work.bytes(size),
        }
    }

    /// Makes room for its messages and words, or finds memory wanting. Either way the outbox holds what it held.
    pub(crate) fn room_in(&self, out: &mut Outbox) -> Result<(), NoMemory>
        ensures messages { out.new.messages.items ≡ out.old.messages.items }
        ensures signed { out.new.signed.items ≡ out.old.signed.items }
        ensures room { OnOk result (HasRoomFor out.new (message_count self.now) (word_count self.now)) }
    {
        match self.messages() {
            Some(messages) => make_room(out, messages, self.words()),
            None => Err(NoMemory),
        }
    }

    /// Does what was planned. Takes no memory.
    pub(crate) fn perform<S: Signer>(self, parts: &mut Parts, pen: &mut S, out: &mut Outbox)
        requires can { CanPerform (S.fixed pen.old).size (S.left_of pen.old) parts.old self }
        requires room { HasRoomFor out.old (message_count self) (word_count self) }
        ensures performs { (book : BookValue)
            → StandsFor parts.old.known.store parts.old.known.table.entries book.noted
            → Performs parts.new (pen_value (S.spent pen.new) (S.left_of pen.new)) out.new
            (perform_work (S.fixed pen.old) (kept_next parts.old.leading)
            (told_with (book_shown book parts.old (pen_value (S.spent pen.old) (S.left_of pen.old))) out.old) self) }
        ensures sends { Sends out.old out.new (message_count self) (byte_count (S.fixed pen.old).size self) }
        ensures fixed { S.fixed pen.new ≡ S.fixed pen.old }
    {
        match self {
            Work::Known(work) => work.perform(&mut parts.known, pen, out),
            Work::Read(work) => work.perform(&mut parts.known, pen, out),
            Work::Log(work) => work.perform(&mut parts.known, &mut parts.logged, pen, out),
            Work::Lead(work) => work.perform(&mut parts.leading, pen, out),
        }
    }
}

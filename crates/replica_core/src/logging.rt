//! Planned changes of what is logged, with all the memory that they take, and their performance, which takes none.

ghost use Rattle.std.specs.Prelude.{IfSome, ◌≡◌, true};
ghost use Rattle.node_steps.specs.Pens.{pen_value};
ghost use Rattle.replica_core.specs.Replicas.{BookValue};
ghost use Rattle.replica_core.specs.Holding.{KeepsNoted};
ghost use Rattle.replica_core.specs.KnownWorks.{HasRoomFor};
ghost use Rattle.replica_core.specs.ShortReplies.{is_short_reply};
ghost use Rattle.replica_core.specs.LogWorks.{CanSay, CanLog, log_book_of, perform_log, reply_after, said_told};
ghost use Rattle.replica_core.specs.LogWorks.{said_messages, said_words, said_bytes};
ghost use Rattle.node_steps.specs.Pendings.{Sends};
ghost use Rattle.replica_core.specs.Telling.{told_with};

use crate::known::Known;
use crate::log::Log;
use crate::logged::Logged;
use basil_types::bytes::Bytes;
use basil_types::outbox::{Envelope, Outbox};
use basil_types::transaction::Transaction;
use decision_log::LogCell;
use keyring::signer::Signer;
use node_steps::pending::{Pending, sign};

/// What is said of a log.
#[derive(Drop)]
pub(crate) enum Said {
    /// The stored reply is given again.
    Again { reply: Bytes, sent: Envelope },
    /// The reply is signed, stored and sent.
    Anew { pending: Pending },
    /// A word for an election is signed and sent. No reply says the cell yet.
    Entered { pending: Pending },
}

/// A change of what is logged of one transaction, which arrives if it isn't known.
#[derive(Drop)]
pub(crate) struct LogWork {
    pub(crate) arrives: Option<Transaction>,
    pub(crate) id: [u8; 32],
    pub(crate) cell: LogCell,
    pub(crate) askers: Vec<u8>,
    pub(crate) said: Said,
}

impl Said {
    /// Says it, and gives the signature of the reply that says the cell. Takes no memory.
    fn say<S: Signer>(self, pen: &mut S, out: &mut Outbox) -> Option<Bytes>
        requires can { CanSay (S.fixed pen.old).size (S.left_of pen.old) self }
        requires room { HasRoomFor out.old (said_messages self) (said_words self) }
        ensures told { (book : BookValue)
            → told_with (record book { pen = pen_value (S.spent pen.new) (S.left_of pen.new) }) out.new
            ≡ said_told (S.fixed pen.old)
            (told_with (record book { pen = pen_value (S.spent pen.old) (S.left_of pen.old) }) out.old) self }
        ensures reply { (book : BookValue) → result
            ≡ reply_after (S.fixed pen.old)
            (told_with (record book { pen = pen_value (S.spent pen.old) (S.left_of pen.old) }) out.old) self }
        ensures sends { Sends out.old out.new (said_messages self) (said_bytes (S.fixed pen.old).size self) }
        ensures short { is_short_reply result ≡ true }
        ensures fixed { S.fixed pen.new ≡ S.fixed pen.old }
    {
        match self {
            Said::Again { reply, sent } => {
                out.messages.push(sent);
                Some(reply)
            }
            Said::Anew { pending } => Some(Bytes::from_vec(sign(pen, pending, out))),
            Said::Entered { pending } => {
                drop(sign(pen, pending, out));
                None
            }
        }
    }
}

impl LogWork {
    /// How many messages it sends.
    pub(crate) fn messages(&self) -> usize
        ensures { result ≡ said_messages self.now.said }
    {
        match &self.said {
            Said::Again { .. } => 1,
            Said::Anew { pending } | Said::Entered { pending } => pending.frames.len(),
        }
    }

    /// How many words it signs.
    pub(crate) fn words(&self) -> usize
        ensures { result ≡ said_words self.now.said }
    {
        match &self.said {
            Said::Again { .. } => 0,
            Said::Anew { .. } | Said::Entered { .. } => 1,
        }
    }

    /// The bytes of its frames, with signatures of this size. None only where the sum passes 2^64 - 1.
    pub(crate) fn bytes(&self, size: usize) -> Option<u64>
        ensures { IfSome result (λ n. n ≡ said_bytes size self.now.said) }
    {
        match &self.said {
            Said::Again { sent, .. } => Some(sent.frame.as_slice().len() as u64),
            Said::Anew { pending } | Said::Entered { pending } => pending.bytes(size),
        }
    }

    /// Does what was planned. Takes no memory.
    pub(crate) fn perform<S: Signer>(
        self,
        known: &mut Known,
        logged: &mut Logged,
        pen: &mut S,
        out: &mut Outbox,
    )
        requires can { CanLog (S.fixed pen.old).size (S.left_of pen.old) known.old logged.old self }
        requires room { HasRoomFor out.old (said_messages self.said) (said_words self.said) }
        ensures told { (book : BookValue)
            → told_with (log_book_of book known.new logged.new (S.spent pen.new) (S.left_of pen.new)) out.new
            ≡ perform_log (S.fixed pen.old)
            (told_with (log_book_of book known.old logged.old (S.spent pen.old) (S.left_of pen.old)) out.old) self }
        ensures sends { Sends out.old out.new (said_messages self.said) (said_bytes (S.fixed pen.old).size self.said) }
        ensures noted { KeepsNoted known.old known.new }
        ensures fixed { S.fixed pen.new ≡ S.fixed pen.old }
    {
        let LogWork {
            arrives,
            id,
            cell,
            askers,
            said,
        } = self;
        known.arrive(arrives);
        let reply = said.say(pen, out);
        logged.put(
            id,
            Log {
                cell,
                reply,
                askers,
            },
        );
    }
}

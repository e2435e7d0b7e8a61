//! Planned answers, with all the memory that they take, and their performance, which takes none.

ghost use Rattle.std.specs.Prelude.{◌≡◌, ◌+◌, ◌-◌, ◌<◌, ◌≤◌, None, IfSome, length, slice_get};
ghost use Rattle.std.specs.Option.{ForSome};
ghost use Rattle.node_steps.specs.Pendings.{IsReady, Sends, bytes_in};
ghost use Rattle.txn_table.specs.Entries.{voted};
ghost use Rattle.txn_table.specs.Tables.{changed};
ghost use Rattle.replica_core.specs.Replicas.{BookValue};
ghost use Rattle.replica_core.specs.Holding.{KeepsNoted, arrived_in};
ghost use Rattle.replica_core.specs.KnownWorks.{CanArrive, CanVote, CanRelease, CanReleaseAll, CanPerform, HasRoomFor};
ghost use Rattle.replica_core.specs.KnownWorks.{all_released, released_told, perform_known, frames_in};
ghost use Rattle.replica_core.specs.KnownWorks.{message_count, word_count, byte_count, release_bytes};
ghost use Rattle.replica_core.specs.Seats.{book_of};
ghost use Rattle.replica_core.specs.Telling.{told_with};

use crate::known::Known;
use basil_types::outbox::{Envelope, Outbox};
use basil_types::party::{Decision, Party};
use basil_types::transaction::Transaction;
use keyring::signer::Signer;
use node_steps::pending::{Pending, sign};

/// A vote that is given at a place where somebody waits for it.
#[derive(Drop)]
pub(crate) struct Release {
    pub(crate) place: u32,
    pub(crate) decision: Decision,
    pub(crate) pending: Pending,
}

/// What a planned answer does about the known transactions. One that isn't known yet arrives at its place.
#[derive(Drop)]
pub(crate) enum KnownWork {
    Nothing,
    /// A message that needs no signature is sent.
    Tell(Envelope),
    /// Somebody waits for the vote.
    Wait {
        arrives: Option<Transaction>,
        place: u32,
        asker: Party,
    },
    /// The vote is signed, given and sent.
    Vote {
        arrives: Option<Transaction>,
        place: u32,
        decision: Decision,
        proof: Option<u32>,
        pending: Pending,
    },
    /// The outcome is told, and the votes that it releases are given.
    End {
        arrives: Option<Transaction>,
        place: u32,
        outcome: Decision,
        certificate: Vec<u8>,
        votes: Vec<Release>,
    },
}

/// Signs a vote and gives it.
fn give_vote<S: Signer>(
    known: &mut Known,
    pen: &mut S,
    out: &mut Outbox,
    arrives: Option<Transaction>,
    place: u32,
    decision: Decision,
    proof: Option<u32>,
    pending: Pending,
)
    requires arrives { CanArrive known.old.table arrives }
    requires can { CanVote known.old (arrived_in known.old.table.entries arrives) place proof }
    requires ready { IsReady (S.fixed pen.old).size pending }
    requires left { 0 < S.left_of pen.old }
    requires room { HasRoomFor out.old (length pending.frames.items) 1 }
    ensures told { (book : BookValue)
        → told_with (book_of book known.new (S.spent pen.new) (S.left_of pen.new)) out.new
        ≡ perform_known (S.fixed pen.old)
        (told_with (book_of book known.old (S.spent pen.old) (S.left_of pen.old)) out.old)
        (KnownWork.Vote arrives place decision proof pending) }
    ensures sends { Sends out.old out.new (length pending.frames.items)
        (bytes_in (S.fixed pen.old).size pending.frames.items) }
    ensures noted { KeepsNoted known.old known.new }
    ensures fixed { S.fixed pen.new ≡ S.fixed pen.old }
{
    known.arrive(arrives);
    let signature = sign(pen, pending, out);
    known.vote(place, decision, signature, proof);
}

/// Signs a released vote and gives it.
fn give_release<S: Signer>(known: &mut Known, pen: &mut S, out: &mut Outbox, release: Release)
    requires can { CanRelease (S.fixed pen.old).size known.old.table.entries release }
    requires left { 0 < S.left_of pen.old }
    requires room { HasRoomFor out.old (length release.pending.frames.items) 1 }
    ensures told { (book : BookValue)
        → told_with (book_of book known.new (S.spent pen.new) (S.left_of pen.new)) out.new
        ≡ released_told (S.fixed pen.old)
        (told_with (book_of book known.old (S.spent pen.old) (S.left_of pen.old)) out.old) release }
    ensures entries { known.new.table.entries
        ≡ changed (voted release.decision ((S.fixed pen.old).gives (S.spent pen.old) release.pending.words) None)
        release.place known.old.table.entries }
    ensures sends { Sends out.old out.new (length release.pending.frames.items)
        (bytes_in (S.fixed pen.old).size release.pending.frames.items) }
    ensures left { S.left_of pen.new + 1 ≡ S.left_of pen.old }
    ensures message_room { out.new.messages.room + length release.pending.frames.items ≡ out.old.messages.room }
    ensures word_room { out.new.signed.room + 1 ≡ out.old.signed.room }
    ensures noted { KeepsNoted known.old known.new }
    ensures fixed { S.fixed pen.new ≡ S.fixed pen.old }
{
    let Release {
        place,
        decision,
        pending,
    } = release;
    let signature = sign(pen, pending, out);
    known.release(place, decision, signature);
}

/// Gives released votes, one after the other.
fn give_releases<S: Signer>(known: &mut Known, pen: &mut S, out: &mut Outbox, votes: Vec<Release>)
    requires can { CanReleaseAll (S.fixed pen.old).size known.old.table.entries votes.items }
    requires left { length votes.items ≤ S.left_of pen.old }
    requires room { HasRoomFor out.old (frames_in votes.items) (length votes.items) }
    ensures told { (book : BookValue)
        → told_with (book_of book known.new (S.spent pen.new) (S.left_of pen.new)) out.new
        ≡ all_released (S.fixed pen.old) votes.items
        (told_with (book_of book known.old (S.spent pen.old) (S.left_of pen.old)) out.old) }
    ensures sends { Sends out.old out.new (frames_in votes.items)
        (release_bytes (S.fixed pen.old).size votes.items) }
    ensures noted { KeepsNoted known.old known.new }
    ensures fixed { S.fixed pen.new ≡ S.fixed pen.old }
{
    for release in votes {
        give_release(known, pen, out, release);
    }
}

/// How many frames released votes have. None only where the sum passes 2^64 - 1.
fn frames_of(votes: &[Release]) -> Option<usize>
    ensures { IfSome result (λ n. n ≡ frames_in votes.now) }
{
    let mut frames = 0usize;
    for release in votes {
        frames = frames.checked_add(release.pending.frames.len())?;
    }
    Some(frames)
}

/// The bytes of released votes with signatures of this size. None only where the sum passes 2^64 - 1.
fn bytes_of(votes: &[Release], size: usize) -> Option<u64>
    ensures { IfSome result (λ n. n ≡ release_bytes size votes.now) }
{
    let mut bytes = 0u64;
    for release in votes {
        bytes = bytes.checked_add(release.pending.bytes(size)?)?;
    }
    Some(bytes)
}

impl KnownWork {
    /// How many messages it sends. None only where the sum passes 2^64 - 1.
    pub(crate) fn messages(&self) -> Option<usize>
        ensures { IfSome result (λ n. n ≡ message_count self.now) }
    {
        match self {
            KnownWork::Nothing | KnownWork::Wait { .. } => Some(0),
            KnownWork::Tell(_) => Some(1),
            KnownWork::Vote { pending, .. } => Some(pending.frames.len()),
            KnownWork::End { votes, .. } => frames_of(votes),
        }
    }

    /// How many words it signs.
    pub(crate) fn words(&self) -> usize
        ensures { result ≡ word_count self.now }
    {
        match self {
            KnownWork::Nothing | KnownWork::Wait { .. } | KnownWork::Tell(_) => 0,
            KnownWork::Vote { .. } => 1,
            KnownWork::End { votes, .. } => votes.len(),
        }
    }

    /// The bytes of its frames, with signatures of this size. None only where the sum passes 2^64 - 1.
    pub(crate) fn bytes(&self, size: usize) -> Option<u64>
        ensures { IfSome result (λ n. n ≡ byte_count size self.now) }
    {
        match self {
            KnownWork::Nothing | KnownWork::Wait { .. } => Some(0),
            KnownWork::Tell(envelope) => Some(envelope.frame.as_slice().len() as u64),
            KnownWork::Vote { pending, .. } => pending.bytes(size),
            KnownWork::End { votes, .. } => bytes_of(votes, size),
        }
    }

    /// Does what was planned.
    pub(crate) fn perform<S: Signer>(self, known: &mut Known, pen: &mut S, out: &mut Outbox)
        requires can { CanPerform (S.fixed pen.old).size (S.left_of pen.old) known.old self }
        requires room { HasRoomFor out.old (message_count self) (word_count self) }
        ensures told { (book : BookValue)
            → told_with (book_of book known.new (S.spent pen.new) (S.left_of pen.new)) out.new
            ≡ perform_known (S.fixed pen.old)
            (told_with (book_of book known.old (S.spent pen.old) (S.left_of pen.old)) out.old) self }
        ensures sends { Sends out.old out.new (message_count self) (byte_count (S.fixed pen.old).size self) }
        ensures noted { KeepsNoted known.old known.new }
        ensures fixed { S.fixed pen.new ≡ S.fixed pen.old }
    {
        match self {
            KnownWork::Nothing => {}
            KnownWork::Tell(envelope) => out.messages.push(envelope),
            KnownWork::Wait {
                arrives,
                place,
                asker,
            } => {
                known.arrive(arrives);
                known.wait(place, asker);
            }
            KnownWork::Vote {
                arrives,
                place,
                decision,
                proof,
                pending,
            } => give_vote(known, pen, out, arrives, place, decision, proof, pending),
            KnownWork::End {
                arrives,
                place,
                outcome,
                certificate,
                votes,
            } => {
                known.arrive(arrives);
                known.end(place, outcome, certificate);
                give_releases(known, pen, out, votes);
            }
        }
    }
}

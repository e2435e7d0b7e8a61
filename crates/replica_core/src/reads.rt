//! Reads are planned: they are noted, and answered by the latest versions below them (Basil, reads).

ghost use Rattle.node_steps.specs.Pendings.{Sends, bytes_in};
ghost use Rattle.std.specs.Prelude.{◌≡◌, [], ◌∷◌, ◌++◌, ◌+◌, ◌<◌, ◌≤◌, ℕ, List, None, IfOk, IfSome, length, nat_lt};
ghost use Rattle.std.specs.Prelude.{option_map, slice_get};
ghost use Rattle.basil_types.specs.Limits.{signature_limit};
ghost use Rattle.basil_types.specs.Shown.{transaction_of};
ghost use Rattle.basil_types.specs.Words.{words_of};
ghost use Rattle.certificates.specs.Accepted.{Accepted};
ghost use Rattle.frame_views.specs.Fitting.{IsKeyLength};
ghost use Rattle.frame_views.specs.Shown.{committed_of, read_of};
ghost use Rattle.frame_views.specs.Signed.{committed_told, version_told};
ghost use Rattle.frame_writing.specs.Unsigned.{unsigned_read_reply};
ghost use Rattle.mv_store.specs.Held.{NotedRead};
ghost use Rattle.mvtso_check.specs.Standing.{StandsFor};
ghost use Rattle.node_steps.specs.Limits.{limit_of};
ghost use Rattle.node_steps.specs.Pendings.{fronts_of, IsReady};
ghost use Rattle.txn_table.specs.Entries.{EntryValue};
ghost use Rattle.replica_core.specs.Replicas.{BookValue};
ghost use Rattle.replica_core.specs.Known.{proven_at};
ghost use Rattle.replica_core.specs.Reads.{answer_read, committed_below, prepared_below};
ghost use Rattle.replica_core.specs.Holding.{KeepsNoted};
ghost use Rattle.replica_core.specs.KnownWorks.{HasRoomFor};
ghost use Rattle.replica_core.specs.ReadWorks.{CanRead, perform_read, read_in, with_read, reply_said, reply_words_of};
ghost use Rattle.replica_core.specs.Seats.{self_at, book_of};
ghost use Rattle.replica_core.specs.Telling.{IsPlanned, told_with};

use crate::fronts::proof_at;
use crate::known::Known;
use crate::refusal::Refusal;
use crate::seat::Seat;
use basil_types::bytes::Bytes;
use basil_types::memory::NoMemory;
use basil_types::outbox::Outbox;
use basil_types::party::Party;
use basil_types::transaction::TransactionView;
use basil_types::version::Version;
use basil_types::words::Words;
use frame_views::frames::{CommittedView, ReadReplyView, ReadView};
use frame_views::signed::{committed_version, prepared_version};
use frame_writing::{put_unsigned_read_reply, signatures_end_frames};
use keyring::signer::Signer;
use mv_store::laws::order_decides_nothing;
use node_steps::pending::{Pending, sign};
use txn_meta::form::version_of;

/// A read that is noted, and its reply, which waits for its signature.
#[derive(Drop)]
pub(crate) struct ReadWork {
    pub(crate) key: Bytes,
    pub(crate) time: u64,
    pub(crate) client: u8,
    pub(crate) pending: Pending,
}

impl ReadWork {
    /// How many messages it sends.
    pub(crate) fn messages(&self) -> usize
        ensures { result ≡ length self.now.pending.frames.items }
    {
        self.pending.frames.len()
    }

    /// The bytes of its frames, with signatures of this size. None only where the sum passes 2^64 - 1.
    pub(crate) fn bytes(&self, size: usize) -> Option<u64>
        ensures { IfSome result (λ n. n ≡ bytes_in size self.now.pending.frames.items) }
    {
        self.pending.bytes(size)
    }

    /// Does what was planned. Takes no memory.
    pub(crate) fn perform<S: Signer>(self, known: &mut Known, pen: &mut S, out: &mut Outbox)
        requires can { CanRead (S.fixed pen.old).size (S.left_of pen.old) known.old self }
        requires room { HasRoomFor out.old (length self.pending.frames.items) 1 }
        ensures told { (book : BookValue)
            → told_with (with_read (book_of book known.new (S.spent pen.new) (S.left_of pen.new)) self) out.new
            ≡ perform_read (S.fixed pen.old)
            (told_with (book_of book known.old (S.spent pen.old) (S.left_of pen.old)) out.old) self }
        ensures sends { Sends out.old out.new (length self.pending.frames.items)
            (bytes_in (S.fixed pen.old).size self.pending.frames.items) }
        ensures table { known.new.table ≡ known.old.table }
        ensures noted { (noted : List NotedRead) → StandsFor known.old.store known.old.table.entries noted
            → StandsFor known.new.store known.new.table.entries (noted ++ read_in self ∷ []) }
        ensures fixed { S.fixed pen.new ≡ S.fixed pen.old }
    {
        let ReadWork {
            key,
            time,
            client,
            pending,
        } = self;
        order_decides_nothing();
        known.store.note_read(key.as_slice(), time, client);
        drop(sign(pen, pending, out));
    }
}

/// What a read sees: versions below its own time and client.
fn limit_of(m: &ReadView<'_>) -> Version
    ensures { result ≡ limit_of (read_of m.now) }
{
    Version {
        time: m.time,
        client: m.client,
        id: [0; 32],
    }
}

/// The transaction with its certificate at a place, None where there is none.
fn committed_at(known: &Known, place: u32) -> Option<CommittedView<'_>>
    ensures { option_map committed_of result ≡ proven_at known.now.table.entries place }
{
    if place < known.table.len() {
        proof_at(known, place)
    } else {
        None
    }
}

/// The latest committed version below a read, with its certificate.
fn latest_committed<'a>(known: &'a Known, m: &ReadView<'_>) -> Option<CommittedView<'a>>
    ensures { (noted : List NotedRead) → StandsFor known.now.store known.now.table.entries noted
        → option_map committed_of result ≡ committed_below known.now.table.entries (read_of m.now) }
{
    match known.store.latest_committed(m.key, &limit_of(m)) {
        Some((_, place)) => committed_at(known, place),
        None => None,
    }
}

/// The transaction at a place, None where there is none.
fn text_at(known: &Known, place: u32) -> Option<TransactionView<'_>>
    ensures { option_map transaction_of result
        ≡ option_map (λ (e : EntryValue). e.transaction) (slice_get known.now.table.entries place) }
{
    if place < known.table.len() {
        Some(known.table.entry(place).view())
    } else {
        None
    }
}

/// The latest prepared version below a read.
fn latest_prepared<'a>(known: &'a Known, m: &ReadView<'_>) -> Option<TransactionView<'a>>
    ensures { (noted : List NotedRead) → StandsFor known.now.store known.now.table.entries noted
        → option_map transaction_of result ≡ prepared_below known.now.table.entries (read_of m.now) }
{
    match known.store.latest_prepared(m.key, &limit_of(m)) {
        Some((_, place)) => text_at(known, place),
        None => None,
    }
}

/// Whether a read's time is more than delta above this moment.
fn is_from_future(seat: &Seat, now: u64, m: &ReadView<'_>) -> bool
    ensures { result ≡ nat_lt (now + seat.now.home.cluster.delta) (read_of m.now).time }
{
    let time = m.time;
    match now.checked_add(seat.home.cluster.delta) {
        Some(limit) => limit < time,
        None => false,
    }
}

/// The reply to a read, which waits for its signature.
fn pending_reply(
    seat: &Seat,
    size: usize,
    from: Party,
    m: &ReadView<'_>,
    committed: Option<CommittedView<'_>>,
    prepared: Option<TransactionView<'_>>,
) -> Result<Pending, NoMemory>
    requires key { IsKeyLength (length m.now.key.now) }
    requires some { 1 ≤ size }
    requires short { size ≤ signature_limit }
    ensures ready { IfOk result (IsReady size) }
    ensures words { IfOk result (λ p. p.words ≡ words_of (reply_words_of seat.now (read_of m.now)
        (option_map committed_of committed.entry) (option_map transaction_of prepared.entry))) }
    ensures fronts { IfOk result (λ p. fronts_of p ≡ record {
      to = from;
      bytes = unsigned_read_reply (reply_said seat.now (read_of m.now)
          (option_map committed_of committed.entry) (option_map transaction_of prepared.entry));
    } ∷ []) }
{
    let reply = ReadReplyView {
        shard: seat.home.shard,
        replica: seat.index,
        key: m.key,
        time: m.time,
        client: m.client,
        committed,
        prepared,
        signature: &[],
    };
    let mut frame = Vec::new(seat.alloc);
    put_unsigned_read_reply(&reply, &mut frame)?;
    let words = Words::read_reply(
        seat.home.shard,
        seat.index,
        m.key,
        m.time,
        m.client,
        committed_version(committed),
        prepared_version(prepared),
    );
    Pending::of_one(seat.alloc, words, from, frame, size)
}

/// Plans the answer to a read.
pub(crate) fn plan_read<S: Signer>(
    known: &mut Known,
    pen: &S,
    seat: &Seat,
    now: u64,
    from: Party,
    m: &ReadView<'_>,
) -> Result<ReadWork, Refusal>
    requires { IsKeyLength (length m.now.key.now) }
    ensures answer { (accepts : Accepted) (book : BookValue)
        → StandsFor known.old.store known.old.table.entries book.noted
        → IsPlanned (perform_read (S.fixed pen.now))
        (book_of book known.old (S.spent pen.now) (S.left_of pen.now)) result
        (answer_read (self_at seat.now accepts (S.fixed pen.now)) now from
        (book_of book known.old (S.spent pen.now) (S.left_of pen.now)) (read_of m.now)) }
    ensures ready { IfOk result (CanRead (S.fixed pen.now).size (S.left_of pen.now) known.new) }
    ensures entries { known.new.table.entries ≡ known.old.table.entries }
    ensures noted { KeepsNoted known.old known.new }
{
    signatures_end_frames();
    if is_from_future(seat, now, m) {
        return Err(Refusal::FromFuture(now));
    }
    let left = pen.left();
    if left == 0 {
        return Err(Refusal::Exhausted(left));
    }
    known.store.room_for_read(m.key)?;
    let committed = latest_committed(known, m);
    let prepared = latest_prepared(known, m);
    let pending = pending_reply(seat, pen.size(), from, m, committed, prepared)?;
    let key = Bytes::copy_of(seat.alloc, m.key)?;
    Ok(ReadWork {
        key,
        time: m.time,
        client: m.client,
        pending,
    })
}

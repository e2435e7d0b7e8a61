//! Asks: an envelope that is written to an address, and the answer to it.

ghost use Rattle.std.specs.Prelude.{◌≡◌, ◌||◌, ◌≤◌, ℕ, List, Some, IfOk, OnErr, is_some, length, nat_le};
ghost use Rattle.basil_types.specs.Causes.{HasLinkCause};
ghost use Rattle.basil_types.specs.Links.{LinkState, writes};
ghost use Rattle.node_link.specs.Answering.{envelope_bytes};
ghost use Rattle.node_link.specs.Asking.{IsAsked, IsCut, IsLeft, IsOpen, IsTalked, ReadsAnswer, ReadsByte, ReadsCount};
ghost use Rattle.node_link.specs.Asking.{envelopes_in};

use crate::answer::{answer_room, put, put_count};
use crate::reader::{CONNECTION_LIMIT, FrameReader};
use basil_types::cluster::Cluster;
use basil_types::links::{LinkFail, Links};
use basil_types::memory::NoMemory;
use basil_types::outbox::Envelope;
use basil_types::party::{Party, party_bytes};
use std::alloc::Global;
use std::collections::VecDeque;

/// Envelopes of an answer that are read, at most.
pub const ANSWER_ENVELOPES: usize = 64;

/// Bytes that an answer may have behind its count.
const ANSWER_LIMIT: usize = CONNECTION_LIMIT - 4;

/// Bytes that are read at once, at most.
const PIECE: usize = 4096;

/// The bytes of an envelope from this party.
fn envelope_of(alloc: Global, asker: Party, frame: &[u8]) -> Result<Vec<u8>, NoMemory>
    ensures { IfOk result (λ bytes. bytes.items ≡ envelope_bytes (record { to = asker; frame = frame.now })) }
{
    let mut out = answer_room(alloc, 1, frame.len() as u64)?;
    put(&mut out, &party_bytes(asker));
    put_count(&mut out, frame.len());
    put(&mut out, frame);
    Ok(out)
}

/// The next byte of the open connection; none at its end.
fn read_byte<L: Links>(links: &mut L) -> Result<Option<u8>, LinkFail>
    ensures byte { (s : LinkState) (bytes : List ℕ) → IsLeft s (L.told links.old) bytes →
        IfOk result (λ byte. ReadsByte bytes byte s (L.told links.new)) }
    ensures as_before { OnErr result (L.told links.new ≡ L.told links.old) }
    ensures cause { HasLinkCause (L.faults links.old) (L.faults links.new) result }
{
    let mut buf = [0u8];
    let count = links.read(&mut buf)?;
    if count == 0 {
        return Ok(None);
    }
    Ok(Some(buf[0]))
}

/// The count of an answer; none where the connection ends before.
fn read_count<L: Links>(links: &mut L) -> Result<Option<u32>, LinkFail>
    ensures count { (s : LinkState) (bytes : List ℕ) → IsLeft s (L.told links.old) bytes →
        IfOk result (λ count. ReadsCount bytes count s (L.told links.new)) }
    ensures stays { (s : LinkState) (bytes : List ℕ) → IsLeft s (L.told links.old) bytes →
        IsOpen s (L.told links.new) }
    ensures cause { HasLinkCause (L.faults links.old) (L.faults links.new) result }
{
    let Some(first) = read_byte(links)? else {
        return Ok(None);
    };
    let Some(second) = read_byte(links)? else {
        return Ok(None);
    };
    let Some(third) = read_byte(links)? else {
        return Ok(None);
    };
    let Some(fourth) = read_byte(links)? else {
        return Ok(None);
    };
    Ok(Some(u32::from_be_bytes([first, second, third, fourth])))
}

/// Whether no more is read of an answer: so many envelopes are whole, or the rules ended it.
fn is_settled(reader: &FrameReader, wanted: usize) -> bool
    ensures { result ≡ (nat_le wanted (length reader.now.waiting) || is_some reader.now.ended) }
{
    wanted <= reader.waits() || reader.ended().is_some()
}

/// The first envelopes of an answer behind its count, so many; none where they aren't whole.
fn read_envelopes<L: Links>(
    alloc: Global,
    cluster: Cluster,
    links: &mut L,
    wanted: usize,
) -> Result<VecDeque<Envelope>, LinkFail>
    ensures given { (s : LinkState) (bytes : List ℕ) → IsLeft s (L.told links.old) bytes →
        IfOk result (λ given. given.items ≡ envelopes_in cluster wanted bytes) }
    ensures stays { (s : LinkState) (bytes : List ℕ) → IsLeft s (L.told links.old) bytes →
        IsOpen s (L.told links.new) }
    ensures cause { HasLinkCause (L.faults links.old) (L.faults links.new) result }
{
    let mut reader = FrameReader::new(alloc, cluster);
    let mut left = ANSWER_LIMIT;
    let mut buf = [0u8; PIECE];
    while left > 0 && !is_settled(&reader, wanted) {
        let got = links.read(&mut buf)?;
        if got == 0 {
            return Ok(reader.into_first(wanted));
        }
        let count = got.min(left);
        reader.feed(&buf[..count])?;
        left -= count;
    }
    Ok(reader.into_first(wanted))
}

/// What is taken of the answer on the open connection.
fn read_answer<L: Links>(
    alloc: Global,
    cluster: Cluster,
    links: &mut L,
) -> Result<VecDeque<Envelope>, LinkFail>
    ensures answer { (s : LinkState) (bytes : List ℕ) → IsLeft s (L.told links.old) bytes →
        IfOk result (λ given. ReadsAnswer cluster bytes given.items s (L.told links.new)) }
    ensures stays { (s : LinkState) (bytes : List ℕ) → IsLeft s (L.told links.old) bytes →
        IsOpen s (L.told links.new) }
    ensures cause { HasLinkCause (L.faults links.old) (L.faults links.new) result }
{
    match read_count(links) {
        Ok(Some(count)) => {
            let wanted = (count as usize).min(ANSWER_ENVELOPES);
            read_envelopes(alloc, cluster, links, wanted)
        }
        Ok(None) => Ok(VecDeque::new(alloc)),
        Err(fail) => Err(fail),
    }
}

/// Writes an envelope to the open connection, and what is taken of the answer.
fn exchange<L: Links>(
    alloc: Global,
    cluster: Cluster,
    links: &mut L,
    envelope: &[u8],
) -> Result<VecDeque<Envelope>, LinkFail>
    ensures answer { (s : LinkState) (bytes : List ℕ) → IsLeft s (L.told links.old) bytes →
        IfOk result (λ given. ReadsAnswer cluster bytes given.items (writes envelope.now s) (L.told links.new)) }
    ensures cut { (s : LinkState) (bytes : List ℕ) → IsLeft s (L.told links.old) bytes →
        OnErr result (IsCut s (L.told links.new) envelope.now) }
    ensures cause { HasLinkCause (L.faults links.old) (L.faults links.new) result }
{
    match links.write(envelope) {
        Ok(()) => read_answer(alloc, cluster, links),
        Err(fail) => Err(fail),
    }
}

/// Writes an envelope to the open connection, reads the answer, and closes the connection.
fn talk_once<L: Links>(
    alloc: Global,
    cluster: Cluster,
    links: &mut L,
    envelope: &[u8],
) -> Result<VecDeque<Envelope>, NoMemory>
    ensures talked { (s : LinkState) (bytes : List ℕ) → IsLeft s (L.told links.old) bytes → IfOk result (λ given.
        IsTalked cluster bytes envelope.now s (L.told links.new) (L.faults links.old) (L.faults links.new)
        given.items) }
    ensures faults { L.faults links.old ≤ L.faults links.new }
{
    let answered = exchange(alloc, cluster, links, envelope);
    links.close();
    match answered {
        Ok(given) => Ok(given),
        Err(LinkFail::Failed) => Ok(VecDeque::new(alloc)),
        Err(LinkFail::NoMemory) => Err(NoMemory),
    }
}

/// Asks a party at an address: opens it, writes an envelope with this frame from the asker, reads the answer and closes
/// the connection. Gives the envelopes of the answer, of which the first 64 are read. It is silence, without an
/// envelope, where opening, writing or reading fails, where the rules end the answer within what is read, or where the
/// connection ends before that is whole. Memory may be wanting at any place; the connection is closed then too.
pub fn ask<L: Links>(
    alloc: Global,
    cluster: Cluster,
    links: &mut L,
    address: &str,
    asker: Party,
    frame: &[u8],
) -> Result<VecDeque<Envelope>, NoMemory>
    ensures asked { (s : LinkState) → L.told links.old ≡ Some s → IfOk result (λ given.
        IsAsked cluster address.now (envelope_bytes (record { to = asker; frame = frame.now })) s
        (L.told links.new) (L.faults links.old) (L.faults links.new) given.items) }
    ensures faults { L.faults links.old ≤ L.faults links.new }
{
    let envelope = envelope_of(alloc, asker, frame)?;
    match links.open(address) {
        Ok(()) => talk_once(alloc, cluster, links, &envelope),
        Err(LinkFail::Failed) => Ok(VecDeque::new(alloc)),
        Err(LinkFail::NoMemory) => Err(NoMemory),
    }
}

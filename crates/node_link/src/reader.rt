//! A reader of the bytes of one connection.

ghost use Rattle.std.specs.Prelude.{◌≡◌, ◌++◌, ◌-◌, ◌≤◌, ℕ, List, [], IfOk, MatchOption, OnErr, OnOk, drop, length};
ghost use Rattle.std.specs.Prelude.{slice_get};
ghost use Rattle.node_link.specs.Asking.{so_many};
ghost use Rattle.node_link.specs.Dialogue.{dialogue_of, or_connection, spoken_in};
ghost use Rattle.node_link.specs.Standing.{Adds, Stands, and_taken};

use crate::cause::EndCause;
use crate::found::find;
use basil_types::cluster::Cluster;
use basil_types::memory::NoMemory;
use basil_types::outbox::Envelope;
use std::alloc::Global;
use std::collections::VecDeque;
use std::marker::Model;

/// Bytes that a connection may have.
pub const CONNECTION_LIMIT: usize = 16_777_216;

/// Makes envelopes of the bytes of one connection, in whatever pieces they come. It stands for all bytes that it was
/// fed, and for how many envelopes were taken of it; it keeps the envelopes that weren't, and the bytes of one that
/// isn't whole.
#[derive(Drop)]
pub struct FrameReader {
    alloc: Global,
    cluster: Cluster,
    waiting: VecDeque<Envelope>,
    partial: Vec<u8>,
    left: usize,
    ended: Option<EndCause>,
}

impl Model for FrameReader {
    ghost use Rattle.node_link.specs.Standing.{Reading};

    ghost Value = { Reading };

    ghost view = { λ r. record {
      cluster = r.cluster;
      waiting = r.waiting.items;
      partial = r.partial.items;
      left = r.left;
      ended = r.ended;
    } };
}

/// A copy of the last bytes, as many as `left` says; none where these are all.
fn last_of(alloc: Global, bytes: &[u8], left: usize) -> Result<Option<Vec<u8>>, NoMemory>
    requires { left ≤ length bytes.now }
    ensures { IfOk result (λ last. MatchOption last (left ≡ length bytes.now)
        (λ last. last.items ≡ drop (length bytes.now - left) bytes.now)) }
{
    if left == bytes.len() {
        return Ok(None);
    }
    let last = Vec::from_slice(alloc, &bytes[bytes.len() - left..])?;
    Ok(Some(last))
}

impl FrameReader {
    /// A reader of a connection of this cluster, before its first byte. Takes no memory.
    pub fn new(alloc: Global, cluster: Cluster) -> FrameReader
        ensures cluster { result.cluster ≡ cluster }
        ensures stands { Stands result [] 0 }
    {
        FrameReader {
            alloc,
            cluster,
            waiting: VecDeque::new(alloc),
            partial: Vec::new(alloc),
            left: CONNECTION_LIMIT,
            ended: None,
        }
    }

    /// Moves the whole envelopes out of the bytes that are kept.
    fn sort_out(&mut self) -> Result<(), NoMemory>
        ensures adds { OnOk result (Adds self.old self.new (spoken_in self.old.cluster self.old.partial)) }
        ensures as_before { OnErr result (self.new ≡ self.old) }
    {
        let mut found = find(self.alloc, &self.cluster, &self.partial)?;
        let last = last_of(self.alloc, &self.partial, found.left)?;
        self.waiting.append(&mut found.envelopes)?;
        if let Some(last) = last {
            self.partial = last;
        }
        self.ended = found.ended;
        Ok(())
    }

    /// Takes a piece behind the bytes that are kept.
    fn take_in(&mut self, piece: &[u8]) -> Result<(), NoMemory>
        ensures adds { OnOk result
            (Adds self.old self.new (spoken_in self.old.cluster (self.old.partial ++ piece.now))) }
        ensures as_before { OnErr result (self.new ≡ self.old) }
    {
        let before = self.partial.len();
        self.partial.extend_from_slice(piece)?;
        match self.sort_out() {
            Ok(()) => Ok(()),
            Err(refused) => {
                self.partial.truncate(before);
                Err(refused)
            }
        }
    }

    /// A byte too many came.
    fn cut_off(&mut self)
        ensures { self.new ≡ record self.old { partial = []; ended = or_connection self.old.ended } }
    {
        self.partial.clear();
        if self.ended.is_none() {
            self.ended = Some(EndCause::Connection);
        }
    }

    /// Takes the next bytes of the connection, up to the first place where the rules end it: a party that isn't of the
    /// cluster, once its three bytes are there; a length of 0 or above 1,048,576, once its four are; the 16,777,217th
    /// byte. What comes from there on is dropped, in this call and later ones. Want of memory leaves the reader as
    /// before.
    pub fn feed(&mut self, piece: &[u8]) -> Result<(), NoMemory>
        ensures fed { (bytes : List ℕ) (taken : ℕ) → Stands self.old bytes taken →
            OnOk result (Stands self.new (bytes ++ piece.now) taken) }
        ensures as_before { OnErr result (self.new ≡ self.old) }
        ensures cluster { self.new.cluster ≡ self.old.cluster }
    {
        if self.ended.is_some() {
            return Ok(());
        }
        let count = piece.len().min(self.left);
        self.take_in(&piece[..count])?;
        self.left -= count;
        if count < piece.len() {
            self.cut_off();
        }
        Ok(())
    }

    /// Why the rules ended the connection, if they did.
    pub fn ended(&self) -> Option<EndCause>
        ensures kept { result ≡ self.now.ended }
        ensures told { (bytes : List ℕ) (taken : ℕ) → Stands self.now bytes taken →
            result ≡ (dialogue_of self.now.cluster bytes).ended }
    {
        self.ended
    }

    /// How many whole envelopes weren't taken.
    pub fn waits(&self) -> usize
        ensures { result ≡ length self.now.waiting }
    {
        self.waiting.len()
    }

    /// The first whole envelopes that weren't taken, so many; none where there are fewer.
    pub(crate) fn into_first(self, count: usize) -> VecDeque<Envelope>
        ensures { result.items ≡ so_many count self.waiting }
    {
        let mut first = self.waiting;
        if first.len() < count {
            first.clear();
        } else {
            first.truncate(count);
        }
        first
    }

    /// The next whole envelope that wasn't taken, if there is one.
    pub fn next(&mut self) -> Option<Envelope>
        ensures given { (bytes : List ℕ) (taken : ℕ) → Stands self.old bytes taken →
            result ≡ slice_get (dialogue_of self.old.cluster bytes).envelopes taken }
        ensures took { (bytes : List ℕ) (taken : ℕ) → Stands self.old bytes taken →
            Stands self.new bytes (and_taken result taken) }
        ensures first { result ≡ slice_get self.old.waiting 0 }
        ensures rest { self.new ≡ record self.old { waiting = drop 1 self.old.waiting } }
    {
        self.waiting.pop_front()
    }
}

//! Signed words: what a signature is made of.

ghost use Rattle.std.specs.Prelude.{◌≡◌, ◌+◌, ◌≤◌, ◌<◌, [], ◌∷◌, ◌++◌, length};
ghost use Rattle.std.specs.Int.{to_be_bytes, w64};
ghost use Rattle.basil_types.specs.Limits.{longest_key};
ghost use Rattle.basil_types.specs.Transaction.{version_bytes};
ghost use Rattle.basil_types.specs.Words.{words_of, view_bytes, WordsTellFields, TransactionWords, VoteWords};
ghost use Rattle.basil_types.specs.Words.{ReadReplyWords, LogReplyWords, ElectionWords, ProposalWords};

use crate::party::Decision;
use crate::version::Version;
use std::marker::Model;

/// Words that a party signs: at most 160 bytes, of one of six kinds, which the first byte tells.
#[derive(Debug, Drop)]
pub struct Words {
    buf: [u8; 160],
    len: usize,
}

impl Model for Words {
    ghost use Rattle.std.specs.Prelude.{List, ℕ, take, ◌≤◌};

    ghost Value = { List ℕ };

    ghost view = { λ w. take w.len w.buf };

    ghost invariant = { λ w. w.len ≤ 160 };
}

impl Words {
    /// The bytes, lent.
    pub fn bytes(&self) -> &[u8]
        ensures { result.now ≡ self.now }
    {
        &self.buf[..self.len]
    }

    /// A client's words on the id of a transaction.
    pub fn transaction(id: &[u8; 32]) -> Words
        ensures { result ≡ words_of (TransactionWords id.now) }
    {
        let mut words = Words::empty();
        words.push(1);
        words.append(id);
        words
    }

    /// A replica's vote on a transaction.
    pub fn vote(shard: u8, replica: u8, id: &[u8; 32], decision: Decision) -> Words
        ensures { result ≡ words_of
            (VoteWords (record { shard = shard; replica = replica; id = id.now; decision = decision })) }
    {
        let mut words = Words::of_replica(2, shard, replica);
        words.append(id);
        words.push(decision_byte(decision));
        words
    }

    /// A replica's answer to a read of a key of 1 to 64 bytes; a missing version is genesis.
    pub fn read_reply(
        shard: u8,
        replica: u8,
        key: &[u8],
        time: u64,
        client: u8,
        committed: Version,
        prepared: Version,
    ) -> Words
        requires some { 1 ≤ length key.now }
        requires short { length key.now ≤ longest_key }
        ensures { result ≡ words_of
            (ReadReplyWords
            (record {
              shard = shard;
              replica = replica;
              key = key.now;
              time = time;
              client = client;
              committed = committed;
              prepared = prepared;
            })) }
    {
        let mut words = Words::of_replica(3, shard, replica);
        words.push(key.len() as u8);
        words.append(key);
        words.append(&time.to_be_bytes());
        words.push(client);
        words.put_version(committed);
        words.put_version(prepared);
        words
    }

    /// A replica's log of a decision: the view in which it was decided, and the current view.
    pub fn log_reply(
        shard: u8,
        replica: u8,
        id: &[u8; 32],
        decision: Decision,
        decided: u64,
        current: u64,
    ) -> Words
        ensures { result ≡ words_of
            (LogReplyWords
            (record {
              shard = shard;
              replica = replica;
              id = id.now;
              decision = decision;
              decided = decided;
              current = current;
            })) }
    {
        let mut words = Words::of_replica(4, shard, replica);
        words.append(id);
        words.push(decision_byte(decision));
        words.append(&decided.to_be_bytes());
        words.append(&current.to_be_bytes());
        words
    }

    /// A replica's word in the election of a view.
    pub fn election(shard: u8, replica: u8, id: &[u8; 32], decision: Decision, view: u64) -> Words
        ensures { result ≡ words_of
            (ElectionWords
            (record { shard = shard; replica = replica; id = id.now; decision = decision; view = view })) }
    {
        Words::of_view(5, shard, replica, id, decision, view)
    }

    /// A leader's proposal in a view.
    pub fn proposal(shard: u8, replica: u8, id: &[u8; 32], decision: Decision, view: u64) -> Words
        ensures { result ≡ words_of
            (ProposalWords
            (record { shard = shard; replica = replica; id = id.now; decision = decision; view = view })) }
    {
        Words::of_view(6, shard, replica, id, decision, view)
    }

    fn of_view(
        kind: u8,
        shard: u8,
        replica: u8,
        id: &[u8; 32],
        decision: Decision,
        view: u64,
    ) -> Words
        ensures { result ≡ kind ∷ view_bytes
            (record { shard = shard; replica = replica; id = id.now; decision = decision; view = view }) }
    {
        let mut words = Words::of_replica(kind, shard, replica);
        words.append(id);
        words.push(decision_byte(decision));
        words.append(&view.to_be_bytes());
        words
    }

    fn of_replica(kind: u8, shard: u8, replica: u8) -> Words
        ensures { result ≡ kind ∷ shard ∷ replica ∷ [] }
    {
        let mut words = Words::empty();
        words.push(kind);
        words.push(shard);
        words.push(replica);
        words
    }

    fn put_version(&mut self, version: Version)
        requires { length self.old + 41 ≤ 160 }
        ensures { self.new ≡ self.old ++ version_bytes version }
    {
        self.append(&version.time.to_be_bytes());
        self.push(version.client);
        self.append(&version.id);
    }

    fn empty() -> Words
        ensures { result ≡ [] }
    {
        Words {
            buf: [0; 160],
            len: 0,
        }
    }

    fn push(&mut self, byte: u8)
        requires { length self.old < 160 }
        ensures { self.new ≡ self.old ++ byte ∷ [] }
    {
        self.buf[self.len] = byte;
        self.len += 1;
    }

    fn append(&mut self, bytes: &[u8])
        requires { length self.old + length bytes.now ≤ 160 }
        ensures { self.new ≡ self.old ++ bytes.now }
    {
        let end = self.len + bytes.len();
        self.buf[self.len..end].copy_from_slice(bytes);
        self.len = end;
    }
}

fn decision_byte(decision: Decision) -> u8
    ensures { result ≡ Rattle.basil_types.specs.Words.decision_byte decision }
{
    match decision {
        Decision::Commit => 0,
        Decision::Abort => 1,
    }
}

/// A law: equal words have equal fields, whatever their kinds.
pub fn words_tell_fields()
    ensures { WordsTellFields }
{}

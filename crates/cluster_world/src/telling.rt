//! What a world tells of its run.

ghost use Rattle.std.specs.Prelude.{◌≡◌, IfOk, length, option_map};
ghost use Rattle.basil_types.specs.Shown.{transaction_of};
ghost use Rattle.client_core.specs.Keeping.{told_state};
ghost use Rattle.cluster_run.specs.States as states;
ghost use Rattle.cluster_run.specs.States.{Setup, State};
ghost use Rattle.cluster_run.specs.Telling as telling;
ghost use Rattle.cluster_world.specs.Shows.{Shows};
ghost use Rattle.cluster_world.specs.Telling.{told_mail};

use crate::engine::Engine;
use basil_types::memory::NoMemory;
use basil_types::party::{Decision, Party};
use basil_types::transaction::{Transaction, TransactionView};
use client_core::ReadState;
use keyring::signer::Signer;
use keyring::verifier::Verifier;

impl<V: Verifier, S: Signer> Engine<V, S> {
    /// How many messages have entered the pool.
    pub fn messages(&self) -> u64
        ensures { (s : Setup) (st : State) → Shows s self.now st → result ≡ length st.pool }
    {
        self.pool.len()
    }

    /// The least number, of this and later ones, of a message that is neither delivered nor lost.
    pub fn undelivered(&self, from: u64) -> Option<u64>
        ensures { (s : Setup) (st : State) → Shows s self.now st → result ≡ telling.undelivered st from }
    {
        self.pool.next_waiting(from)
    }

    /// The sender, the receiver and the frame of a message. Messages are numbered from 1.
    pub fn frame(&self, message: u64) -> Option<(Party, Party, &[u8])>
        ensures { (s : Setup) (st : State) → Shows s self.now st →
            option_map told_mail result ≡ telling.mail_at st message }
    {
        match self.pool.at(message) {
            Some(posted) => Some((posted.from, posted.to, posted.frame.as_slice())),
            None => None,
        }
    }

    /// What the clock of a replica of the cluster shows.
    pub fn moment(&self, shard: u8, index: u8) -> Option<u64>
        ensures { (s : Setup) (st : State) → Shows s self.now st → result ≡ telling.moment_at st shard index }
    {
        match self.place_of_replica(shard, index) {
            Some(place) => Some(self.replicas[place].moment()),
            None => None,
        }
    }

    /// The transaction of a number, from 0 on, once it is formed.
    pub fn transaction(&self, tx: u32) -> Option<TransactionView<'_>>
        ensures { (s : Setup) (st : State) → Shows s self.now st →
            option_map transaction_of result ≡ telling.transaction_at st tx }
    {
        let formed = self.begun.get(tx as usize)?.formed()?;
        Some(formed.transaction().view())
    }

    /// What a key gives to a begun transaction of a correct client; of a faulty one nothing was read.
    pub fn value(&self, tx: u32, key: &[u8]) -> ReadState<'_>
        ensures { (s : Setup) (st : State) → Shows s self.now st →
            told_state result ≡ telling.value_at s st tx key.now }
    {
        let Some(begun) = self.begun.get(tx as usize) else {
            return ReadState::NotRead;
        };
        let Some(slot) = begun.slot() else {
            return ReadState::NotRead;
        };
        match self.place_of_client(begun.client()) {
            Some(place) => self.clients[place].value(slot, key),
            None => ReadState::NotRead,
        }
    }

    /// The decision on the transaction with this id that the first certificate proved, of those that were seen.
    pub fn decision_of(&self, id: &[u8; 32]) -> Option<Decision>
        ensures { (s : Setup) (st : State) → Shows s self.now st → result ≡ telling.decision_at st id.now }
    {
        self.sight.decision_of(id)
    }

    /// The transactions that a certificate which was seen proves to be committed, each once, ascending by version.
    pub fn committed(&self) -> Result<Vec<Transaction>, NoMemory>
        ensures { IfOk result (λ ts. (s : Setup) (st : State) → Shows s self.now st →
            ts.items ≡ telling.committed_by_version st) }
    {
        self.sight.committed(self.alloc)
    }

    /// The message that a node refused last.
    pub fn last_refused(&self) -> Option<u64>
        ensures { (s : Setup) (st : State) → Shows s self.now st → result ≡ st.refused }
    {
        self.refused
    }

    /// Whether a party is one of the faulty ones.
    pub fn is_faulty(&self, party: Party) -> bool
        ensures { (s : Setup) (st : State) → Shows s self.now st → result ≡ states.is_faulty s party }
    {
        self.sight.is_faulty(party)
    }
}

//! What a replica keeps of one transaction.

ghost use Rattle.std.specs.Prelude.{◌≡◌, ◌<◌, [], None, Some, OnOk, OnErr, option_map, true, false};
ghost use Rattle.basil_types.specs.Shown.{transaction_of};
ghost use Rattle.txn_table.specs.Entries.{arrived, asked, voted, decided, is_waiting};
ghost use Rattle.txn_table.specs.Entries.{askers_of, decision_of, outcome_of};
ghost use Rattle.txn_table.specs.Shown.{entry_of, has_room, Tells};
ghost use Rattle.txn_table.specs.Tables as tables;

use basil_types::bytes::Bytes;
use basil_types::list::List;
use basil_types::memory::NoMemory;
use basil_types::party::{Decision, Party};
use basil_types::transaction::{Transaction, TransactionView};

/// How far a replica's own vote on a transaction is.
#[derive(Clone, Copy)]
pub enum VoteState<'a> {
    /// Nobody has waited for it, and there is none.
    Unvoted,
    /// Somebody waits for it, until the transaction's dependencies have outcomes.
    Waiting,
    /// It was given.
    Voted {
        vote: Decision,
        signature: &'a [u8],
        /// The place of the committed transaction that this one conflicts with, where an abort has that proof.
        proof: Option<u32>,
    },
}

/// A vote as it is kept.
#[derive(Drop)]
pub(crate) enum Stage {
    /// There is no vote; who waits for it, in order of asking.
    Open {
        askers: List<Party>,
    },
    Voted {
        vote: Decision,
        signature: Bytes,
        proof: Option<u32>,
    },
}

/// An outcome, and the bytes of the certificate that proves it.
#[derive(Drop)]
pub(crate) struct Outcome {
    pub(crate) decision: Decision,
    pub(crate) certificate: Bytes,
}

/// A transaction, the replica's vote on it, and its outcome.
#[derive(Drop)]
pub struct Entry {
    transaction: Transaction,
    stage: Stage,
    outcome: Option<Outcome>,
}

impl Entry {
    /// The transaction.
    pub fn view(&self) -> TransactionView<'_>
        ensures { transaction_of result ≡ (entry_of self.now).transaction }
    {
        self.transaction.view()
    }

    /// The transaction's id.
    pub(crate) fn id(&self) -> [u8; 32]
        ensures { result ≡ tables.id_of (entry_of self.now) }
    {
        self.view().id()
    }

    /// The replica's own vote.
    pub fn vote(&self) -> VoteState<'_>
        ensures { Tells result (entry_of self.now).vote }
    {
        match &self.stage {
            Stage::Open { askers } => {
                if askers.as_slice().is_empty() {
                    VoteState::Unvoted
                } else {
                    VoteState::Waiting
                }
            }
            Stage::Voted {
                vote,
                signature,
                proof,
            } => VoteState::Voted {
                vote: *vote,
                signature: signature.as_slice(),
                proof: *proof,
            },
        }
    }

    /// The outcome, and the bytes of the certificate that proves it. None exactly where there is no outcome yet.
    pub fn outcome(&self) -> Option<(Decision, &[u8])>
        ensures { option_map (λ o. outcome_of o.0 o.1.now) result ≡ (entry_of self.now).outcome }
    {
        match &self.outcome {
            Some(outcome) => Some((outcome.decision, outcome.certificate.as_slice())),
            None => None,
        }
    }

    /// Who waits for the vote, in order of asking: nobody unless the entry is waiting.
    pub fn askers(&self) -> &[Party]
        ensures { result.now ≡ askers_of (entry_of self.now).vote }
    {
        match &self.stage {
            Stage::Open { askers } => askers.as_slice(),
            Stage::Voted { .. } => &[],
        }
    }

    /// The entry of a transaction that has arrived, which keeps its askers in this empty list.
    pub(crate) fn new(transaction: Transaction, askers: List<Party>) -> Entry
        requires { askers.items ≡ [] }
        ensures entry { entry_of result ≡ arrived transaction }
        ensures room { 0 < askers.room → has_room result ≡ true }
    {
        Entry {
            transaction,
            stage: Stage::Open { askers },
            outcome: None,
        }
    }

    /// Makes room for one more asker, or finds memory wanting and changes nothing.
    pub(crate) fn make_room(&mut self) -> Result<(), NoMemory>
        ensures same { entry_of self.new ≡ entry_of self.old }
        ensures room { OnOk result (has_room self.new ≡ true) }
        ensures as_before { OnErr result (self.new ≡ self.old) }
    {
        match &mut self.stage {
            Stage::Open { askers } => askers.room_for(1),
            Stage::Voted { .. } => Ok(()),
        }
    }

    /// Has somebody wait for the vote, unless they do already.
    pub(crate) fn wait(&mut self, asker: Party)
        requires { has_room self.old ≡ true }
        ensures { entry_of self.new ≡ asked asker (entry_of self.old) }
    {
        match &mut self.stage {
            Stage::Open { askers } => {
                if !askers.as_slice().contains(&asker) {
                    askers.push(asker);
                }
            }
            Stage::Voted { .. } => {}
        }
    }

    /// Gives the vote. Nobody waits for it any more.
    pub(crate) fn set_vote(&mut self, vote: Decision, signature: Vec<u8>, proof: Option<u32>)
        ensures entry { entry_of self.new ≡ voted vote signature.items proof (entry_of self.old) }
        ensures room { has_room self.new ≡ true }
    {
        self.stage = Stage::Voted {
            vote,
            signature: Bytes::from_vec(signature),
            proof,
        };
    }

    /// Gives the outcome.
    pub(crate) fn set_outcome(&mut self, decision: Decision, certificate: Vec<u8>)
        ensures entry { entry_of self.new ≡ decided decision certificate.items (entry_of self.old) }
        ensures room { has_room self.new ≡ has_room self.old }
    {
        self.outcome = Some(Outcome {
            decision,
            certificate: Bytes::from_vec(certificate),
        });
    }

    /// What the outcome says.
    pub(crate) fn decision(&self) -> Option<Decision>
        ensures { result ≡ decision_of (entry_of self.now) }
    {
        match &self.outcome {
            Some(outcome) => Some(outcome.decision),
            None => None,
        }
    }

    /// Whether somebody waits for the vote.
    pub(crate) fn is_waiting(&self) -> bool
        ensures { result ≡ is_waiting (entry_of self.now).vote }
    {
        match &self.stage {
            Stage::Open { askers } => !askers.as_slice().is_empty(),
            Stage::Voted { .. } => false,
        }
    }
}

//! Plain keys, which are for a replay alone: anybody who knows the rule can sign with them.

ghost use Rattle.std.specs.Prelude.{◌≡◌, ◌-◌, ◌^◌};
ghost use Rattle.keyring.specs.Plain.{plain_signature, plain_accepts, plain_signing};

use crate::signer::{Exhausted, Signer};
use crate::verifier::Verifier;
use basil_types::bytes::id_of;
use basil_types::cluster::Cluster;
use basil_types::party::Party;
use sha2::{Digest, Sha256};

/// The seed of a party in a replay: SHA-256 of three bytes, 52 (hexadecimal), shard and index for a replica, and 43
/// (hexadecimal), 0 and number for a client.
pub fn seed_of(party: Party) -> [u8; 32]
    ensures { result ≡ Rattle.keyring.specs.Plain.seed_of party }
{
    match party {
        Party::Replica { shard, index } => id_of(&[0x52, shard, index]),
        Party::Client { number } => id_of(&[0x43, 0, number]),
    }
}

/// The plain signature of a party on words: SHA-256 of the party's seed and the words.
fn plain_sign(party: Party, words: &[u8]) -> [u8; 32]
    ensures { result ≡ plain_signature party words.now }
{
    let mut hasher = Sha256::new();
    hasher.update(&seed_of(party));
    hasher.update(words);
    hasher.finalize()
}

/// The plain keyring of a replay: it accepts by the rule of plain signatures alone.
#[derive(Clone, Copy)]
pub struct PlainKeys;

impl PlainKeys {
    /// The keyring of a replay over this cluster. The rule is the same for each cluster.
    pub fn new(_cluster: &Cluster) -> PlainKeys
        ensures { ⟦<PlainKeys as Verifier>⟧.accepted result ≡ plain_accepts }
    {
        PlainKeys
    }
}

impl Verifier for PlainKeys {
    ghost accepted = { λ _. plain_accepts };

    fn accepts(&self, party: Party, words: &[u8], signature: &[u8]) -> bool {
        signature == plain_sign(party, words).as_slice()
    }
}

/// A plain signer of one party, with 2^64 - 1 signatures.
#[derive(Drop)]
pub struct PlainPen {
    party: Party,
    left: u64,
}

impl PlainPen {
    /// The pen of this party, from its first signature on.
    pub fn new(party: Party) -> PlainPen
        ensures fixed { ⟦<PlainPen as Signer>⟧.fixed result ≡ plain_signing party }
        ensures spent { ⟦<PlainPen as Signer>⟧.spent result ≡ 0 }
        ensures left { ⟦<PlainPen as Signer>⟧.left_of result ≡ 2 ^ 64 - 1 }
    {
        PlainPen {
            party,
            left: u64::MAX,
        }
    }
}

impl Signer for PlainPen {
    ghost fixed = { λ s. plain_signing s.party };

    ghost spent = { λ s. 2 ^ 64 - 1 - s.left };

    ghost left_of = { λ s. s.left };

    fn party(&self) -> Party {
        self.party
    }

    fn left(&self) -> u64 {
        self.left
    }

    fn size(&self) -> usize {
        32
    }

    fn sign_into(&mut self, words: &[u8], out: &mut [u8]) -> Result<(), Exhausted> {
        if self.left == 0 {
            return Err(Exhausted);
        }
        out.copy_from_slice(&plain_sign(self.party, words));
        self.left -= 1;
        Ok(())
    }
}

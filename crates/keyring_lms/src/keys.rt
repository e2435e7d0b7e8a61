//! Keyrings.
ghost use Rattle.std.specs.Prelude.{◌≡◌, IfOk};
ghost use Rattle.keyring_lms.specs.Keys.{public_in, lms_accepts};
ghost use Rattle.keyring_lms.specs.Replay.{replay_accepts, listed_accepts};

use crate::listed::parties_listed;
use crate::replay::{parties_of, publics_of};
use basil_types::cluster::Cluster;
use basil_types::memory::NoMemory;
use basil_types::party::Party;
use keyring::verifier::Verifier;
use lms_sign::{LmsSet, verify};
use std::alloc::Global;
use std::marker::Model;

/// A keyring: a list of parties with their public keys, which contracts see as that list. It accepts what is valid
/// (RFC 8554, section 5.4.2) under the public key of the party's first entry, and nothing of a party with no entry.
#[derive(Drop)]
pub struct LmsKeys {
    pub(crate) publics: Vec<(Party, [u8; 56])>,
}

impl Model for LmsKeys {
    ghost use Rattle.std.specs.Prelude.{ℕ, List};
    ghost use Rattle.basil_types.specs.declared.party.Party.{Party};

    ghost Value = { List (Party × List ℕ) };

    ghost view = { λ k. k.publics.items };
}

impl LmsKeys {
    /// The keyring of a replay over this cluster: the keys of this set that are made of the parties' seeds, for the
    /// replicas of each shard and for the clients 1 to 16. Makes each key once, which takes long at height 10.
    pub fn replay(alloc: Global, cluster: &Cluster, set: LmsSet) -> Result<LmsKeys, NoMemory>
        ensures { IfOk result (λ keys. ⟦<LmsKeys as Verifier>⟧.accepted keys ≡ replay_accepts cluster.now set) }
    {
        let parties = parties_of(alloc, cluster)?;
        let publics = publics_of(alloc, set, &parties)?;
        Ok(LmsKeys { publics })
    }

    /// The keyring of the listed parties in a replay over this cluster: of each that is listed it accepts what the
    /// whole replay's keyring accepts, and nothing of any other. Makes the keys of the listed parties alone, each once.
    pub fn replay_of(
        alloc: Global,
        cluster: &Cluster,
        set: LmsSet,
        listed: &[Party],
    ) -> Result<LmsKeys, NoMemory>
        ensures { IfOk result (λ keys.
            ⟦<LmsKeys as Verifier>⟧.accepted keys ≡ listed_accepts cluster.now set listed.now) }
    {
        let parties = parties_listed(alloc, cluster, listed)?;
        let publics = publics_of(alloc, set, &parties)?;
        Ok(LmsKeys { publics })
    }

    /// The keyring of these parties and public keys of 56 bytes. Of a party that is listed twice the first entry
    /// counts.
    pub fn from_publics(alloc: Global, list: &[(Party, [u8; 56])]) -> Result<LmsKeys, NoMemory>
        ensures list { IfOk result (λ keys. keys ≡ list.now) }
        ensures accepted { IfOk result (λ keys. ⟦<LmsKeys as Verifier>⟧.accepted keys ≡ lms_accepts list.now) }
    {
        let publics = Vec::from_slice(alloc, list)?;
        Ok(LmsKeys { publics })
    }

    /// The same keyring once more, at the cost of its memory alone.
    pub fn copy(&self, alloc: Global) -> Result<LmsKeys, NoMemory>
        ensures { IfOk result (λ keys. keys ≡ self.now) }
    {
        let publics = Vec::from_slice(alloc, self.publics.as_slice())?;
        Ok(LmsKeys { publics })
    }

    /// The public key of the party's first entry.
    fn public_of(&self, party: Party) -> Option<[u8; 56]>
        ensures { result ≡ public_in self.now party }
    {
        for entry in self.publics.iter() {
            if entry.0 == party {
                return Some(entry.1);
            }
        }
        None
    }
}

impl Verifier for LmsKeys {
    ghost accepted = { lms_accepts };

    fn accepts(&self, party: Party, words: &[u8], signature: &[u8]) -> bool {
        match self.public_of(party) {
            None => false,
            Some(public) => verify(&public, words, signature).is_ok(),
        }
    }
}

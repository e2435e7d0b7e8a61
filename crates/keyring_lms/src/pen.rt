//! Pens.
ghost use Rattle.std.specs.Prelude.{◌≡◌, ◌-◌, IfOk};
ghost use Rattle.lms_sign.specs.Sets.{leaves_of};
ghost use Rattle.keyring_lms.specs.Pens.{lms_signing};
ghost use Rattle.keyring_lms.specs.Replay.{tree_in_replay};

use crate::replay::key_of;
use basil_types::memory::NoMemory;
use basil_types::party::Party;
use keyring::signer::{Exhausted, Signer};
use lms_sign::{LmsKey, LmsSet};
use std::alloc::Global;
use std::marker::Model;

/// A signer of one party with the leaves of one key, each once. Its relation is validity (RFC 8554, section 5.4.2)
/// under its key's public key, for its own party alone.
#[derive(Drop)]
pub struct LmsPen {
    party: Party,
    key: LmsKey,
    given: u32,
}

impl Model for LmsPen {
    ghost use Rattle.std.specs.Prelude.{◌≤◌};
    ghost use Rattle.keyring_lms.specs.Pens.{Pen};

    ghost Value = { Pen };

    ghost view = { λ p. record { party = p.party; key = p.key; given = p.given } };

    ghost invariant = { λ p. p.given ≤ p.key.next };
}

impl LmsPen {
    /// The pen of this party that signs with the leaves of this key that aren't spent.
    pub fn new(party: Party, key: LmsKey) -> LmsPen
        ensures value { result ≡ record { party = party; key = key; given = 0 } }
        ensures fixed { ⟦<LmsPen as Signer>⟧.fixed result ≡ lms_signing party key.tree key.next }
        ensures spent { ⟦<LmsPen as Signer>⟧.spent result ≡ 0 }
        ensures left { ⟦<LmsPen as Signer>⟧.left_of result ≡ leaves_of key.tree.set - key.next }
    {
        LmsPen {
            party,
            key,
            given: 0,
        }
    }

    /// The pen of a party in a replay: its key of this set from leaf 0 on.
    pub fn replay(alloc: Global, party: Party, set: LmsSet) -> Result<LmsPen, NoMemory>
        ensures fixed { IfOk result
            (λ pen. ⟦<LmsPen as Signer>⟧.fixed pen ≡ lms_signing party (tree_in_replay set party) 0) }
        ensures spent { IfOk result (λ pen. ⟦<LmsPen as Signer>⟧.spent pen ≡ 0) }
        ensures left { IfOk result (λ pen. ⟦<LmsPen as Signer>⟧.left_of pen ≡ leaves_of set) }
    {
        let key = key_of(alloc, set, party)?;
        Ok(LmsPen::new(party, key))
    }
}

impl Signer for LmsPen {
    ghost fixed = { λ p. lms_signing p.party p.key.tree (p.key.next - p.given) };

    ghost spent = { λ p. p.given };

    ghost left_of = { λ p. leaves_of p.key.tree.set - p.key.next };

    fn party(&self) -> Party {
        self.party
    }

    fn left(&self) -> u64 {
        self.key.left()
    }

    fn size(&self) -> usize {
        self.key.size()
    }

    fn sign_into(&mut self, words: &[u8], out: &mut [u8]) -> Result<(), Exhausted> {
        match self.key.sign_into(words, out) {
            Err(_) => Err(Exhausted),
            Ok(()) => {
                self.given += 1;
                Ok(())
            }
        }
    }
}

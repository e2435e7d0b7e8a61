//! Keyrings.

ghost use Rattle.certificates.specs.Accepted.{Accepted};

use basil_types::party::Party;
use batch_sign::BatchKeys;
use keyring::plain::PlainKeys;
use keyring::verifier::Verifier;
use keyring_lms::LmsKeys;

/// A keyring of a kit, which accepts what the one in it accepts.
#[derive(Drop)]
pub enum ReplayRing {
    /// Plain keys.
    Plain(PlainKeys),
    /// Public keys of LMS.
    Lms(LmsKeys),
    /// Signatures in batches, by plain keys.
    Batch(BatchKeys<PlainKeys>),
}

impl Verifier for ReplayRing {
    ghost use Rattle.replay_kit.specs.declared.ring.ReplayRing.TheVariants.{Plain, Lms, Batch};

    ghost accepted = { λ ring. elim ring as (λ _. Accepted) [
      | Plain own ↦ ⟦<PlainKeys as Verifier>⟧.accepted own
      | Lms own ↦ ⟦<LmsKeys as Verifier>⟧.accepted own
      | Batch own ↦ ⟦<BatchKeys<PlainKeys> as Verifier>⟧.accepted own
    ] };

    fn accepts(&self, party: Party, words: &[u8], signature: &[u8]) -> bool {
        match self {
            ReplayRing::Plain(keys) => keys.accepts(party, words, signature),
            ReplayRing::Lms(keys) => keys.accepts(party, words, signature),
            ReplayRing::Batch(keys) => keys.accepts(party, words, signature),
        }
    }
}

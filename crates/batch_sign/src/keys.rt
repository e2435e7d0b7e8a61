//! Keyrings that take signatures in batches.

ghost use Rattle.std.specs.Prelude.{◌≡◌};
ghost use Rattle.batch_sign.specs.Signatures.{in_batch};

use crate::climbing::{inner_of, named};
use crate::form::test_form;
use basil_types::party::Party;
use keyring::verifier::Verifier;

/// A keyring over another: it accepts a signature of words exactly where that has the form of one in a batch, and the
/// inner keyring accepts its inner signature on the root words to which the words and the path lead.
#[derive(Drop)]
pub struct BatchKeys<V> {
    inner: V,
}

impl<V: Verifier> BatchKeys<V> {
    /// The keyring over this one.
    pub fn new(inner: V) -> BatchKeys<V>
        ensures { ⟦<BatchKeys<V> as Verifier>⟧.accepted result ≡ in_batch (V.accepted inner) }
    {
        BatchKeys { inner }
    }
}

impl<V: Verifier> Verifier for BatchKeys<V> {
    ghost accepted = { λ keys. in_batch (V.accepted keys.inner) };

    fn accepts(&self, party: Party, words: &[u8], signature: &[u8]) -> bool {
        if test_form(signature).is_err() {
            return false;
        }
        self.inner
            .accepts(party, &named(words, signature), inner_of(signature))
    }
}

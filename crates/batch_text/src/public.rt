//! A keyring of one public key.

ghost use Rattle.std.specs.Prelude.{◌≡◌, ℕ, List};
ghost use Rattle.basil_types.specs.declared.party.Party.{Party};
ghost use Rattle.lms_sign.specs.Verifying.{is_valid};

use basil_types::bytes::Bytes;
use basil_types::party::Party;
use keyring::verifier::Verifier;
use lms_sign::verify;

/// A keyring with one LMS public key for every party; its bytes may be no key, under which nothing is valid.
#[derive(Drop)]
pub(crate) struct OnePublic {
    public: Bytes,
}

impl OnePublic {
    /// The keyring of this key.
    pub(crate) fn new(public: Bytes) -> OnePublic
        ensures { ⟦<OnePublic as Verifier>⟧.accepted result
            ≡ (λ (party : Party) (words signature : List ℕ). is_valid public words signature) }
    {
        OnePublic { public }
    }
}

impl Verifier for OnePublic {
    ghost accepted = { λ keys party words signature. is_valid keys.public words signature };

    fn accepts(&self, _party: Party, words: &[u8], signature: &[u8]) -> bool {
        verify(self.public.as_slice(), words, signature).is_ok()
    }
}

//! Keyrings.

ghost use Rattle.std.specs.Prelude.{◌≡◌, ℕ, List, Bool};
ghost use Rattle.basil_types.specs.declared.party.Party.{Party};

use basil_types::party::Party;

/// A keyring. Its meaning is a fixed relation: which signatures it accepts, of which party, on which words.
pub trait Verifier {
    // Whether a signature of a party on these words is accepted.
    ghost accepted: { Self → Party → List ℕ → List ℕ → Bool };

    /// Whether the party's signature on these words is accepted. Takes no memory.
    fn accepts(&self, party: Party, words: &[u8], signature: &[u8]) -> bool
        ensures { result ≡ accepted self.now party words.now signature.now };
}

//! Signers of one party.

ghost use Rattle.std.specs.Prelude.{◌≡◌, ℕ, ◌+◌, ◌≤◌, ◌<◌, true, IsOk, OnOk, OnErr, length, ◌↔◌};
ghost use Rattle.basil_types.specs.Limits.{signature_limit};
ghost use Rattle.keyring.specs.Signing.{Signing};

use basil_types::party::Party;

/// The signer has no signature left.
#[derive(Clone, Copy, Debug, PartialEq, Eq)]
pub struct Exhausted;

/// A signer of one party. Its meaning is a fixed part, which no call changes: whose it is, the size of a signature, the
/// signature that it gives at each place of the list of words that it signs, and a relation that holds of what it
/// signs; and beside it how many signatures it has given, and how many are left.
pub trait Signer {
    // The fixed part.
    ghost fixed: { Self → Signing };
    // How many signatures it has given.
    ghost spent: { Self → ℕ };
    // How many signatures it has left.
    ghost left_of: { Self → ℕ };

    /// Whose signatures it makes.
    fn party(&self) -> Party
        ensures { result ≡ (fixed self.now).party };

    /// How many signatures are left.
    fn left(&self) -> u64
        ensures { result ≡ left_of self.now };

    /// The bytes of each signature: 1 to 8,192.
    fn size(&self) -> usize
        ensures size { result ≡ (fixed self.now).size }
        ensures least { 1 ≤ result }
        ensures most { result ≤ signature_limit };

    /// Writes the signature of these words into `out`, which has `size` bytes, and spends one. Exhausted exactly where
    /// none is left, and then nothing changes. Takes no memory.
    fn sign_into(&mut self, words: &[u8], out: &mut [u8]) -> Result<(), Exhausted>
        requires { length out.old ≡ (fixed self.old).size }
        ensures signature { OnOk result (out.new ≡ (fixed self.old).gives (spent self.old) words.now) }
        ensures holds { OnOk result ((fixed self.old).holds (fixed self.old).party words.now out.new ≡ true) }
        ensures spent { OnOk result (spent self.new ≡ spent self.old + 1) }
        ensures left { OnOk result (left_of self.new + 1 ≡ left_of self.old) }
        ensures fixed { fixed self.new ≡ fixed self.old }
        ensures exhausted { IsOk result ↔ (0 < left_of self.old) }
        ensures as_before { OnErr result (self.new ≡ self.old) }
        ensures untouched { OnErr result (out.new ≡ out.old) };
}

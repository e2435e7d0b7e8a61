//! Laws of keyrings and signers, proved from their traits alone.

ghost use Rattle.std.specs.Prelude.{◌≡◌, ◌+◌, ◌<◌, ◌↔◌, true, IfOk, IsOk, OnOk, OnErr, length};
ghost use Rattle.keyring.specs.Signing.{AcceptsSigner};

use crate::signer::{Exhausted, Signer};
use crate::verifier::Verifier;

/// A law: what a signer signs is accepted by each keyring that has the signer's relation for its party.
/// Signs the words into `out`, which has the signer's size, and asks the keyring. Exhausted exactly where no signature
/// is left, and then nothing changes. Takes no memory.
pub fn sign_and_ask<V: Verifier, S: Signer>(
    keys: &V,
    signer: &mut S,
    words: &[u8],
    out: &mut [u8],
) -> Result<bool, Exhausted>
    requires size { length out.old ≡ (S.fixed signer.old).size }
    requires same { AcceptsSigner (V.accepted keys.now) (S.fixed signer.old) }
    ensures accepted { OnOk result (V.accepted keys.now (S.fixed signer.old).party words.now out.new ≡ true) }
    ensures answer { IfOk result (λ answer. answer ≡ true) }
    ensures signature { OnOk result (out.new ≡ (S.fixed signer.old).gives (S.spent signer.old) words.now) }
    ensures spent { OnOk result (S.spent signer.new ≡ S.spent signer.old + 1) }
    ensures left { OnOk result (S.left_of signer.new + 1 ≡ S.left_of signer.old) }
    ensures fixed { S.fixed signer.new ≡ S.fixed signer.old }
    ensures exhausted { IsOk result ↔ (0 < S.left_of signer.old) }
    ensures as_before { OnErr result (signer.new ≡ signer.old) }
    ensures untouched { OnErr result (out.new ≡ out.old) }
{
    let party = signer.party();
    signer.sign_into(words, out)?;
    Ok(keys.accepts(party, words, out))
}

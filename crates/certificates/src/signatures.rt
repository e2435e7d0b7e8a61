//! Which signatures are accepted.

ghost use Rattle.std.specs.Prelude.{◌<◌, ◌^◌, length};
ghost use Rattle.basil_types.specs.Refusals.{Refuses};
ghost use Rattle.frame_views.specs.Walks.{signed_left};
ghost use Rattle.certificates.specs.Refusals.{bad_signature};

use crate::refusal::CertRefusal;
use frame_views::signed::Signatures;
use keyring::verifier::Verifier;

/// Refuses signatures by the first that isn't accepted.
pub(crate) fn all_accepted<V: Verifier>(keys: &V, signed: Signatures<'_>) -> Result<(), CertRefusal>
    requires { length (signed_left signed) < 2 ^ 64 }
    ensures { Refuses result (bad_signature (V.accepted keys.now) (signed_left signed.entry)) }
{
    let mut place = 0usize;
    for item in signed {
        if !keys.accepts(item.party, item.words.bytes(), item.signature) {
            return Err(CertRefusal::BadSignature(place));
        }
        place += 1;
    }
    Ok(())
}

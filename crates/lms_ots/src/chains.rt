//! The secret starts of hash chains.
ghost use Rattle.std.specs.Prelude.{◌≡◌};
ghost use Rattle.lms_ots.specs.Chains.{leaf_of, start_of};

use sha2::{Digest, Sha256};

/// The secret start of chain `i` (RFC 8554, appendix A).
#[tactic(auto, unfolding(crate::specs::Chains::start_of))]
pub(crate) fn start(ident: &[u8; 16], q: u32, seed: &[u8; 32], i: u16) -> [u8; 32]
    ensures { result ≡ start_of (leaf_of ident.now q) seed.now i }
{
    let mut hasher = Sha256::new();
    hasher.update(ident);
    hasher.update(q.to_be_bytes());
    hasher.update(i.to_be_bytes());
    hasher.update([0xff]);
    hasher.update(seed);
    hasher.finalize()
}

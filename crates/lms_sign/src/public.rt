//! Identifiers and public keys.
ghost use Rattle.std.specs.Prelude.{◌≡◌};
ghost use Rattle.lms_sign.specs.Tree.{ident_of_seed, public_with};

use crate::sets::LmsSet;
use lms_ots::put;
use sha2::{Digest, Sha256};

/// The identifier that is made of a seed: the first 16 bytes of SHA-256 of 49 (hexadecimal) and the seed.
#[tactic(auto, unfolding(crate::specs::Tree::ident_of_seed))]
pub fn ident_of_seed(seed: &[u8; 32]) -> [u8; 16]
    ensures { result ≡ ident_of_seed seed.now }
{
    let mut hasher = Sha256::new();
    hasher.update([0x49]);
    hasher.update(seed);
    let digest = hasher.finalize();
    let mut ident = [0u8; 16];
    ident.copy_from_slice(&digest[..16]);
    ident
}

/// The public key with an identifier and a root, 56 bytes.
pub(crate) fn public_with(set: LmsSet, ident: &[u8; 16], root: &[u8; 32]) -> [u8; 56]
    ensures { result ≡ public_with set ident.now root.now }
{
    let mut public = [0u8; 56];
    put(&mut public, 0, &set.type_number().to_be_bytes());
    put(&mut public, 4, &set.one_time_type_number().to_be_bytes());
    put(&mut public, 8, ident);
    put(&mut public, 24, root);
    public
}

//! One-time keys and signatures.
ghost use Rattle.std.specs.Prelude.{◌≡◌, ◌≢◌, ◌≤◌, ◌+◌, ◌*◌, ◌++◌, ◌↔◌, length, take, IfOk, IsOk};
ghost use Rattle.lms_ots.specs.Sets.{signature_length, type_of};
ghost use Rattle.lms_ots.specs.Chains.{leaf_of, public_of, key_of_ends};
ghost use Rattle.lms_ots.specs.Lanes.{end_in};
ghost use Rattle.lms_ots.specs.Signatures.{message_digest, signature_of, type_in, part_in, end_from, candidate_of};

use crate::bytes::put;
use crate::digits::with_checksum;
use crate::lanes::run_all;
use crate::sets::OtsSet;
use crate::tables::{candidate_lanes, key_lanes, signing_lanes};
use sha2::{Digest, Sha256};

/// Why bytes are no one-time signature of a set.
#[derive(Clone, Copy, Debug, PartialEq, Eq)]
pub enum OtsRefusal {
    /// The length isn't that of the set's signatures.
    Length,
    /// The type isn't the set's.
    SetType,
}

/// The one-time public key K of leaf `q` (RFC 8554, section 4.3).
pub fn ots_public(set: OtsSet, ident: &[u8; 16], q: u32, seed: &[u8; 32]) -> [u8; 32]
    ensures { result ≡ public_of set (leaf_of ident.now q) seed.now }
{
    let lanes = key_lanes(set, ident, q, seed);
    key_of_chains(set, ident, q, &run_all(ident, q, &lanes))
}

/// Writes the signature of a message by leaf `q` under the randomizer `c` into `out`, of
/// 4 + 32(p + 1) bytes (RFC 8554, section 4.5).
pub fn ots_sign(
    set: OtsSet,
    ident: &[u8; 16],
    q: u32,
    seed: &[u8; 32],
    c: &[u8; 32],
    message: &[u8],
    out: &mut [u8],
)
    requires { length out.old ≡ signature_length set }
    ensures signature { out.new ≡ signature_of set (leaf_of ident.now q) seed.now c.now message.now }
    ensures leads_to_the_key { candidate_of set (leaf_of ident.now q) message.now out.new
        ≡ public_of set (leaf_of ident.now q) seed.now }
{
    let string = with_checksum(set, &digest_of(ident, q, c, message));
    let lanes = signing_lanes(set, ident, q, seed, &string);
    let ends = run_all(ident, q, &lanes);
    put(out, 0, &set.type_number().to_be_bytes());
    put(out, 4, c);
    for i in 0..set.chains() {
        put(out, 36 + 32 * i as usize, &ends[i as usize]);
    }
}

/// The key that a signature leads to, which is the public key of the leaf if it made the signature
/// of this message (RFC 8554, section 4.6). Refuses a wrong length first, then a wrong type.
pub fn ots_candidate(
    set: OtsSet,
    ident: &[u8; 16],
    q: u32,
    message: &[u8],
    signature: &[u8],
) -> Result<[u8; 32], OtsRefusal>
    ensures candidate { IfOk result (λ key. key ≡ candidate_of set (leaf_of ident.now q) message.now signature.now) }
    ensures answers { IsOk result ↔ (length signature.now ≡ signature_length set) ×
        (type_in signature.now ≡ type_of set) }
    ensures length { result ≡ Err OtsRefusal.Length ↔ (length signature.now ≢ signature_length set) }
    ensures set_type { result ≡ Err OtsRefusal.SetType
        ↔ (length signature.now ≡ signature_length set) × (type_in signature.now ≢ type_of set) }
{
    if signature.len() != set.signature_size() {
        return Err(OtsRefusal::Length);
    }
    let type_number = u32::from_be_bytes([signature[0], signature[1], signature[2], signature[3]]);
    if type_number != set.type_number() {
        return Err(OtsRefusal::SetType);
    }
    let string = with_checksum(set, &digest_of(ident, q, &signature[4..36], message));
    Ok(key_of_parts(set, ident, q, &string, signature))
}

/// The digest Q of a message under a randomizer.
#[tactic(auto, unfolding(crate::specs::Signatures::message_digest))]
pub(crate) fn digest_of(ident: &[u8; 16], q: u32, c: &[u8], message: &[u8]) -> [u8; 32]
    ensures { result ≡ message_digest (leaf_of ident.now q) c.now message.now }
{
    let mut hasher = Sha256::new();
    hasher.update(ident);
    hasher.update(q.to_be_bytes());
    hasher.update([0x81, 0x81]);
    hasher.update(c);
    hasher.update(message);
    hasher.finalize()
}

/// K of the ends of the chains.
fn key_of_chains(set: OtsSet, ident: &[u8; 16], q: u32, ends: &[[u8; 32]; 72]) -> [u8; 32]
    ensures { result ≡ key_of_ends set (leaf_of ident.now q) (end_in ends.now) }
{
    let mut hasher = Sha256::new();
    hasher.update(ident);
    hasher.update(q.to_be_bytes());
    hasher.update([0x80, 0x80]);
    for i in 0..set.chains() {
        hasher.update(ends[i as usize]);
    }
    hasher.finalize()
}

/// K of the ends to which a signature's parts lead.
fn key_of_parts(
    set: OtsSet,
    ident: &[u8; 16],
    q: u32,
    string: &[u8; 34],
    signature: &[u8],
) -> [u8; 32]
    requires { length signature.now ≡ signature_length set }
    ensures { result ≡ key_of_ends set (leaf_of ident.now q)
        (end_from set (leaf_of ident.now q) string.now signature.now) }
{
    let lanes = candidate_lanes(set, string, signature);
    key_of_chains(set, ident, q, &run_all(ident, q, &lanes))
}

/// The part of a signature for chain `i`.
pub(crate) fn part_of(signature: &[u8], i: u16) -> [u8; 32]
    requires { 36 + 32 * i + 32 ≤ length signature.now }
    ensures { result ≡ part_in signature.now i }
{
    let mut part = [0u8; 32];
    let at = 36 + 32 * i as usize;
    part.copy_from_slice(&signature[at..at + 32]);
    part
}

//! Verification.
ghost use Rattle.std.specs.Prelude.{◌≡◌, ◌≤◌, ◌<◌, ◌+◌, ◌*◌, ◌↔◌, ℕ, List, length, take, drop, IsOk, is_ok};
ghost use Rattle.lms_ots.specs.Signatures.{candidate_of};
ghost use Rattle.lms_sign.specs.Sets.{leaves_of, height_of, size_of, one_time_length, one_time_type_of};
ghost use Rattle.lms_sign.specs.Numbers.{refusal_number};
ghost use Rattle.lms_sign.specs.Verifying.{Valid, first_refusal, refusal_in, is_valid, answer_of, ident_in};
ghost use Rattle.lms_sign.specs.Verifying.{root_from, candidate_leaf, climbed, path_in, leaf_in, one_time_type_in};

use crate::bytes::{read_node, read_number};
use crate::nodes::{leaf, parent_of};
use crate::sets::LmsSet;
use lms_ots::ots_candidate;

/// Which test fails first of bytes that are no valid signature of a message under a public key.
#[derive(Clone, Copy, Debug, PartialEq, Eq)]
pub enum LmsRefusal {
    /// The public key hasn't 56 bytes.
    KeyLength,
    /// The public key's two types are those of no set.
    SetType,
    /// The signature hasn't the bytes of the set.
    SignatureLength,
    /// A type in the signature isn't the set's.
    TypeDiffers,
    /// The leaf isn't below the number of leaves.
    LeafRange,
    /// The signature leads to another root.
    Root,
}

impl LmsRefusal {
    /// The number of the test, from 1 to 6.
    pub fn number(&self) -> u8
        ensures { result ≡ refusal_number self.now }
    {
        match self {
            LmsRefusal::KeyLength => 1,
            LmsRefusal::SetType => 2,
            LmsRefusal::SignatureLength => 3,
            LmsRefusal::TypeDiffers => 4,
            LmsRefusal::LeafRange => 5,
            LmsRefusal::Root => 6,
        }
    }
}

/// Whether a signature of a message is valid under a public key (RFC 8554, section 5.4.2). It
/// takes no memory. The refusal names the first test that fails, in the order of [`LmsRefusal`].
pub fn verify(public: &[u8], message: &[u8], signature: &[u8]) -> Result<(), LmsRefusal>
    ensures valid { IsOk result ↔ Valid public.now message.now signature.now }
    ensures told { is_ok result ≡ is_valid public.now message.now signature.now }
    ensures first { result ≡ answer_of (first_refusal public.now message.now signature.now) }
{
    check_key(public, message, signature)
}

/// Tests the key, and then the signature under it.
fn check_key(public: &[u8], message: &[u8], signature: &[u8]) -> Result<(), LmsRefusal>
    ensures { result ≡ answer_of (first_refusal public.now message.now signature.now) }
{
    if public.len() != 56 {
        return Err(LmsRefusal::KeyLength);
    }
    match LmsSet::of_types(read_number(public, 0), read_number(public, 4)) {
        None => Err(LmsRefusal::SetType),
        Some(set) => check_signature(set, public, message, signature),
    }
}

/// Tests a signature under a key of a set.
fn check_signature(
    set: LmsSet,
    public: &[u8],
    message: &[u8],
    signature: &[u8],
) -> Result<(), LmsRefusal>
    requires { length public.now ≡ 56 }
    ensures { result ≡ answer_of (refusal_in set public.now message.now signature.now) }
{
    if signature.len() != set.size() {
        return Err(LmsRefusal::SignatureLength);
    }
    if read_number(signature, 4) != set.one_time_type_number()
        || read_number(signature, 4 + set.one_time_size()) != set.type_number()
    {
        return Err(LmsRefusal::TypeDiffers);
    }
    if read_number(signature, 0) >= set.leaves() {
        return Err(LmsRefusal::LeafRange);
    }
    let root = root_of(set, &ident_of(public), message, signature);
    if root != read_node(public, 24) {
        return Err(LmsRefusal::Root);
    }
    Ok(())
}

/// The identifier I in a public key (RFC 8554, section 5.3).
pub fn ident_of(public: &[u8]) -> [u8; 16]
    requires { 24 ≤ length public.now }
    ensures { result ≡ ident_in public.now }
{
    let mut ident = [0u8; 16];
    ident.copy_from_slice(&public[8..24]);
    ident
}

/// The root to which a signature leads.
fn root_of(set: LmsSet, ident: &[u8; 16], message: &[u8], signature: &[u8]) -> [u8; 32]
    requires size { length signature.now ≡ size_of set }
    requires one_time_type { one_time_type_in signature.now ≡ one_time_type_of set }
    requires range { leaf_in signature.now < leaves_of set }
    ensures { result ≡ root_from set ident.now message.now signature.now }
{
    let q = read_number(signature, 0);
    climb(
        set,
        ident,
        signature,
        set.leaves() + q,
        leaf_of_signature(set, ident, q, message, signature),
    )
}

/// The leaf to which a signature's one-time signature leads.
fn leaf_of_signature(
    set: LmsSet,
    ident: &[u8; 16],
    q: u32,
    message: &[u8],
    signature: &[u8],
) -> [u8; 32]
    requires size { length signature.now ≡ size_of set }
    requires one_time_type { one_time_type_in signature.now ≡ one_time_type_of set }
    requires leaf { q ≡ leaf_in signature.now }
    requires range { q < leaves_of set }
    ensures { result ≡ candidate_leaf set ident.now message.now signature.now }
{
    let one_time = &signature[4..4 + set.one_time_size()];
    match ots_candidate(set.one_time(), ident, q, message, one_time) {
        Ok(key) => leaf(ident, set.leaves() + q, &key),
        Err(_) => unreachable!(),
    }
}

/// The root to which a signature's path leads from the leaf with number `r`.
#[tactic(auto, unfolding(crate::specs::Verifying::climbed))]
fn climb(set: LmsSet, ident: &[u8; 16], signature: &[u8], r: u32, leaf: [u8; 32]) -> [u8; 32]
    requires { length signature.now ≡ size_of set }
    ensures { result ≡ climbed ident.now (path_in set signature.now) r leaf (height_of set) }
{
    let path = 8 + set.one_time_size();
    let mut number = r;
    let mut node = leaf;
    for level in 0..set.height() {
        let sibling = read_node(signature, path + 32 * level);
        let next = parent_of(ident, number, &sibling, &node);
        node = next;
        number /= 2;
    }
    node
}

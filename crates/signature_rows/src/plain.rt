//! RFC 8554, section 4, as it is written: one chain after the other.

use basil_types::memory::NoMemory;
use lms_ots::OtsSet;
use sha2::{Digest, Sha256};
use std::alloc::Global;

/// A leaf of a tree: the tree's identifier and the leaf's number.
#[derive(Clone, Copy)]
pub(crate) struct Leaf {
    pub(crate) ident: [u8; 16],
    pub(crate) q: u32,
}

/// The number of chains, p (section 4.1).
fn chains_of(set: OtsSet) -> u16 {
    match set {
        OtsSet::W4 => 67,
        OtsSet::W8 => 34,
    }
}

/// The last place of a chain, 2^w - 1.
fn last_of(set: OtsSet) -> u8 {
    match set {
        OtsSet::W4 => 15,
        OtsSet::W8 => 255,
    }
}

/// The byte at a place, and 0 behind the last.
fn byte_at(string: &[u8], place: usize) -> u8 {
    string.get(place).copied().unwrap_or(0)
}

/// The digit `i` of a string (section 3.1.3).
pub(crate) fn coef(set: OtsSet, string: &[u8], i: u16) -> u8 {
    match set {
        OtsSet::W8 => byte_at(string, i as usize),
        OtsSet::W4 => {
            let byte = byte_at(string, (i / 2) as usize);
            if i % 2 == 0 { byte >> 4 } else { byte & 15 }
        }
    }
}

/// The digest of a message under C, and its checksum (section 4.4).
fn signed_string(set: OtsSet, leaf: &Leaf, c: &[u8], message: &[u8]) -> [u8; 34] {
    let mut hasher = Sha256::new();
    hasher.update(leaf.ident);
    hasher.update(leaf.q.to_be_bytes());
    hasher.update([0x81, 0x81]);
    hasher.update(c);
    hasher.update(message);
    let digest = hasher.finalize();
    let mut sum = 0u16;
    let digits = match set {
        OtsSet::W4 => 64u16,
        OtsSet::W8 => 32,
    };
    for i in 0..digits {
        let missing = last_of(set).wrapping_sub(coef(set, &digest, i));
        sum = sum.wrapping_add(u16::from(missing));
    }
    let checksum = match set {
        OtsSet::W4 => sum.wrapping_mul(16),
        OtsSet::W8 => sum,
    };
    let mut string = [0u8; 34];
    string[..32].copy_from_slice(&digest);
    string[32..].copy_from_slice(&checksum.to_be_bytes());
    string
}

/// The step of chain `i` at place `j`.
fn step(leaf: &Leaf, i: u16, j: u8, tmp: &[u8; 32]) -> [u8; 32] {
    let mut hasher = Sha256::new();
    hasher.update(leaf.ident);
    hasher.update(leaf.q.to_be_bytes());
    hasher.update(i.to_be_bytes());
    hasher.update([j]);
    hasher.update(tmp);
    hasher.finalize()
}

/// Chain `i` from the place `from`, where it has the value `begin`, to the place `to`.
pub(crate) fn run_chain(leaf: &Leaf, i: u16, from: u8, to: u8, begin: [u8; 32]) -> [u8; 32] {
    let mut tmp = begin;
    for j in from..to {
        let next = step(leaf, i, j, &tmp);
        tmp = next;
    }
    tmp
}

/// The secret start of chain `i` (appendix A).
fn start(leaf: &Leaf, seed: &[u8; 32], i: u16) -> [u8; 32] {
    let mut hasher = Sha256::new();
    hasher.update(leaf.ident);
    hasher.update(leaf.q.to_be_bytes());
    hasher.update(i.to_be_bytes());
    hasher.update([0xff]);
    hasher.update(seed);
    hasher.finalize()
}

/// The hasher of a key after its first bytes.
fn key_hasher(leaf: &Leaf) -> Sha256 {
    let mut hasher = Sha256::new();
    hasher.update(leaf.ident);
    hasher.update(leaf.q.to_be_bytes());
    hasher.update([0x80, 0x80]);
    hasher
}

/// The one-time public key K (section 4.3).
pub(crate) fn public(set: OtsSet, leaf: &Leaf, seed: &[u8; 32]) -> [u8; 32] {
    let mut hasher = key_hasher(leaf);
    for i in 0..chains_of(set) {
        let end = run_chain(leaf, i, 0, last_of(set), start(leaf, seed, i));
        hasher.update(end);
    }
    hasher.finalize()
}

/// The one-time signature of a message under C (section 4.5).
pub(crate) fn signature(
    alloc: Global,
    set: OtsSet,
    leaf: &Leaf,
    seed: &[u8; 32],
    c: &[u8; 32],
    message: &[u8],
) -> Result<Vec<u8>, NoMemory> {
    let string = signed_string(set, leaf, c, message);
    let mut signature = Vec::new(alloc);
    let type_byte = match set {
        OtsSet::W4 => 3u8,
        OtsSet::W8 => 4,
    };
    signature.extend_from_slice(&[0, 0, 0, type_byte])?;
    signature.extend_from_slice(c)?;
    for i in 0..chains_of(set) {
        let part = run_chain(leaf, i, 0, coef(set, &string, i), start(leaf, seed, i));
        signature.extend_from_slice(&part)?;
    }
    Ok(signature)
}

/// The bytes at a place of a signature, and zeros behind its last.
fn piece_at(signature: &[u8], place: usize) -> [u8; 32] {
    let mut piece = [0u8; 32];
    for (i, byte) in piece.iter_mut().enumerate() {
        *byte = byte_at(signature, place.wrapping_add(i));
    }
    piece
}

/// The candidate Kc (section 4.6).
pub(crate) fn candidate(set: OtsSet, leaf: &Leaf, message: &[u8], signature: &[u8]) -> [u8; 32] {
    let c = piece_at(signature, 4);
    let string = signed_string(set, leaf, &c, message);
    let mut hasher = key_hasher(leaf);
    for i in 0..chains_of(set) {
        let part = piece_at(signature, 36usize.wrapping_add(i as usize * 32));
        let end = run_chain(leaf, i, coef(set, &string, i), last_of(set), part);
        hasher.update(end);
    }
    hasher.finalize()
}

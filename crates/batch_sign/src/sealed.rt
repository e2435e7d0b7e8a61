//! Batches that were signed.

ghost use Rattle.std.specs.Prelude.{◌≡◌, ℕ, ◌<◌, ◌≤◌, ◌+◌, ◌*◌, ◌-◌, ◌^◌, ◌++◌, length, take, true};
ghost use Rattle.std.specs.Prelude.{IfOk, IfSome, OnOk, OnErr, IsSome, ◌↔◌};
ghost use Rattle.lms_ots.specs.Chains.{joined};
ghost use Rattle.batch_sign.specs.Filled.{AreNodesFrom};
ghost use Rattle.batch_sign.specs.Signatures.{Sealing, signature_of};
ghost use Rattle.batch_sign.specs.Trees.{depth_over, most_depth, most_messages, words_over};

use crate::hashing::root_words;
use crate::sizes::{depth_of, width_of};
use crate::tree::{nodes_over, put_path};
use basil_types::memory::NoMemory;
use keyring::signer::{Exhausted, Signer};
use lms_ots::put;
use std::alloc::Global;
use std::marker::Model;

/// A batch that was signed: a signature for each of its messages. Contracts see its leaves and the signature of its
/// root words.
#[derive(Drop)]
pub struct SealedBatch {
    leaves: Vec<[u8; 32]>,
    inner: Vec<u8>,
    bytes: Vec<u8>,
    size: usize,
}

impl Model for SealedBatch {
    ghost use Rattle.std.specs.Prelude.{vec_len};
    ghost use Rattle.batch_sign.specs.Sealed.{IsSealed};
    ghost use Rattle.batch_sign.specs.Signatures.{Sealing};

    ghost Value = { Sealing };

    ghost view = { λ s. record { leaves = s.leaves.items; inner = s.inner.items } };

    ghost invariant = { λ s.
        IsSealed (record { leaves = s.leaves.items; inner = s.inner.items }) s.size s.bytes.items };
}

impl SealedBatch {
    /// How many messages it has.
    pub fn count(&self) -> u16
        ensures { result ≡ length self.now.leaves }
    {
        self.leaves.len() as u16
    }

    /// The signature of the message at a place; none exactly past the end.
    pub fn signature(&self, place: u16) -> Option<&[u8]>
        ensures there { IsSome result ↔ (place < length self.now.leaves) }
        ensures is { IfSome result (λ s. s.now ≡ signature_of self.now place) }
    {
        let place = usize::from(place);
        let bytes = self.bytes.as_slice();
        if place >= self.leaves.len() {
            return None;
        }
        let at = place * self.size;
        Some(&bytes[at..at + self.size])
    }
}

/// Signs the root words of a tree.
fn sign_root<S: Signer>(depth: u8, root: &[u8; 32], pen: &mut S, out: &mut [u8])
    requires left { 0 < S.left_of pen.old }
    requires size { length out.old ≡ (S.fixed pen.old).size }
    ensures signature { out.new ≡ (S.fixed pen.old).gives (S.spent pen.old)
        (Rattle.batch_sign.specs.Trees.root_words depth root.now) }
    ensures holds { (S.fixed pen.old).holds (S.fixed pen.old).party
        (Rattle.batch_sign.specs.Trees.root_words depth root.now) out.new ≡ true }
    ensures spent { S.spent pen.new ≡ S.spent pen.old + 1 }
    ensures left { S.left_of pen.new + 1 ≡ S.left_of pen.old }
    ensures fixed { S.fixed pen.new ≡ S.fixed pen.old }
{
    let words = root_words(depth, root);
    match pen.sign_into(&words, out) {
        Ok(()) => (),
        Err(Exhausted) => unreachable!(),
    }
}

/// Writes the signature of the message at a place.
fn put_signature(
    leaves: &[[u8; 32]],
    nodes: &[[u8; 32]],
    inner: &[u8],
    place: u8,
    out: &mut [u8],
    at: usize,
)
    requires place { place < length leaves.now }
    requires most { length leaves.now ≤ most_messages }
    requires count { length nodes.now ≡ 2 * 2 ^ depth_over leaves.now }
    requires filled { AreNodesFrom leaves.now (depth_over leaves.now) 1 nodes.now }
    requires room { at + (2 + 32 * depth_over leaves.now + length inner.now) ≤ length out.old }
    ensures { take (at + (2 + 32 * depth_over leaves.now + length inner.now)) out.new
        ≡ take at out.old ++ signature_of (record { leaves = leaves.now; inner = inner.now }) place }
{
    let depth = depth_of(leaves.len());
    let number = u32::from(width_of(depth)) + u32::from(place);
    put(out, at, &[depth, place]);
    put_path(depth, leaves, nodes, number, out, at + 2);
    put(out, at + 2 + 32 * usize::from(depth), inner);
}

/// Writes the signature of each message, one behind the other.
fn put_all(leaves: &[[u8; 32]], nodes: &[[u8; 32]], inner: &[u8], size: usize, out: &mut [u8])
    requires most { length leaves.now ≤ most_messages }
    requires count { length nodes.now ≡ 2 * 2 ^ depth_over leaves.now }
    requires filled { AreNodesFrom leaves.now (depth_over leaves.now) 1 nodes.now }
    requires size { size ≡ 2 + 32 * depth_over leaves.now + length inner.now }
    requires some { 0 < length leaves.now }
    requires room { length out.old ≡ length leaves.now * size }
    ensures bytes { out.new
        ≡ joined (signature_of (record { leaves = leaves.now; inner = inner.now })) (length leaves.now) }
    ensures each { (place : ℕ) →
        length (signature_of (record { leaves = leaves.now; inner = inner.now }) place) ≡ size }
{
    for place in 0..leaves.len() {
        put_signature(leaves, nodes, inner, place as u8, out, place * size);
    }
}

/// Signs the root of the tree over leaves, of which there is one at least, with a pen that has a signature left.
pub(crate) fn seal<S: Signer>(
    alloc: Global,
    leaves: Vec<[u8; 32]>,
    pen: &mut S,
) -> Result<SealedBatch, NoMemory>
    requires some { 0 < length leaves.items }
    requires most { length leaves.items ≤ most_messages }
    requires left { 0 < S.left_of pen.old }
    ensures sealed { IfOk result (λ s. s ≡ record {
      leaves = leaves.items;
      inner = (S.fixed pen.old).gives (S.spent pen.old) (words_over leaves.items);
    }) }
    ensures holds { OnOk result ((S.fixed pen.old).holds (S.fixed pen.old).party (words_over leaves.items)
        ((S.fixed pen.old).gives (S.spent pen.old) (words_over leaves.items)) ≡ true) }
    ensures deep { depth_over leaves.items ≤ most_depth }
    ensures wide { length leaves.items ≤ 2 ^ depth_over leaves.items }
    ensures spent { OnOk result (S.spent pen.new ≡ S.spent pen.old + 1) }
    ensures left { OnOk result (S.left_of pen.new + 1 ≡ S.left_of pen.old) }
    ensures fixed { S.fixed pen.new ≡ S.fixed pen.old }
    ensures as_before { OnErr result (pen.new ≡ pen.old) }
{
    let depth = depth_of(leaves.len());
    let nodes = nodes_over(alloc, &leaves, depth)?;
    let mut inner = vec![in alloc; 0u8; pen.size()]?;
    let size = 2 + 32 * usize::from(depth) + inner.len();
    let mut bytes = vec![in alloc; 0u8; leaves.len() * size]?;
    sign_root(depth, &nodes[1], pen, &mut inner);
    put_all(&leaves, &nodes, &inner, size, &mut bytes);
    Ok(SealedBatch {
        leaves,
        inner,
        bytes,
        size,
    })
}

//! A message's place in a batch, by its signature.

ghost use Rattle.std.specs.Prelude.{◌≡◌, ◌<◌, ◌≤◌, ◌*◌, ◌^◌, [], length, slice_index_or, true, Option, Some, IfOk};
ghost use Rattle.std.specs.Str.{bytes_eq};
ghost use Rattle.batch_sign.specs.Filled.{AreNodesFrom};
ghost use Rattle.batch_sign.specs.Parting.{Shows, later_of, nodes_at};
ghost use Rattle.batch_sign.specs.Places.{IsReal, Tells, found_in, parting, text_above, way_of};
ghost use Rattle.batch_sign.specs.Signatures.{depth_in, is_formed, leaf_number_in, leaves_of, named};
ghost use Rattle.batch_sign.specs.Trees as trees;
ghost use Rattle.batch_sign.specs.Trees.{depth_over, most_messages, path_over, words_over};

use crate::batch::{Batch, leaves_of};
use crate::climbing::{leaf_number, named, path_node};
use crate::hashing::{leaf_of, parent_text, root_words, sibling_of};
use crate::sizes::depth_of;
use crate::tree::{nodes_over, place_among};
use basil_types::bytes::Bytes;
use basil_types::memory::NoMemory;
use sha2::{Digest, Sha256};
use std::alloc::Global;

/// Why a message has no place in a batch.
#[derive(Debug, Drop)]
pub enum PlaceFault {
    /// The message and the path of its signature don't lead to the batch's root words.
    OtherBatch,
    /// Two different texts have one digest.
    Collision {
        /// The text that the signature leads to.
        first: Bytes,
        /// The batch's own.
        second: Bytes,
    },
    /// Memory is wanting.
    NoMemory,
}

impl From<NoMemory> for PlaceFault {
    ghost use Rattle.std.specs.Prelude.{◌≡◌};
    ghost use Rattle.batch_sign.specs.declared.finding.PlaceFault.{PlaceFault};

    ghost from_gives = { λ _ fault. fault ≡ PlaceFault.NoMemory };

    fn from(_refused: NoMemory) -> PlaceFault {
        PlaceFault::NoMemory
    }
}

/// Copies of two texts with one digest.
fn collision(alloc: Global, first: &[u8], second: &[u8]) -> PlaceFault
    ensures { Shows first.now second.now result }
{
    let Ok(first) = Bytes::copy_of(alloc, first) else {
        return PlaceFault::NoMemory;
    };
    match Bytes::copy_of(alloc, second) {
        Ok(second) => PlaceFault::Collision { first, second },
        Err(NoMemory) => PlaceFault::NoMemory,
    }
}

/// The text of a leaf.
fn leaf_text(alloc: Global, message: &[u8]) -> Result<Vec<u8>, NoMemory>
    ensures { IfOk result (λ text. text.items ≡ trees.leaf_text message.now) }
{
    let mut text = Vec::new(alloc);
    text.push(0)?;
    text.extend_from_slice(message)?;
    Ok(text)
}

/// Two leaves of different messages, and one digest.
fn leaves_collide(alloc: Global, message: &[u8], held: &[u8]) -> PlaceFault
    ensures { Shows (trees.leaf_text message.now) (trees.leaf_text held.now) result }
{
    let Ok(first) = leaf_text(alloc, message) else {
        return PlaceFault::NoMemory;
    };
    match leaf_text(alloc, held) {
        Ok(second) => collision(alloc, &first, &second),
        Err(NoMemory) => PlaceFault::NoMemory,
    }
}

/// The texts of the two nodes at which two ways to one root part.
#[derive(Clone, Copy)]
pub(crate) struct Parted {
    pub(crate) first: [u8; 65],
    pub(crate) second: [u8; 65],
}

/// Two texts where they differ, else those that differed below.
fn later(first: &[u8; 65], second: &[u8; 65], last: Option<Parted>) -> Option<Parted>
    ensures { result ≡ later_of first.now second.now last }
{
    if first.as_slice() == second.as_slice() {
        return last;
    }
    Some(Parted {
        first: *first,
        second: *second,
    })
}

/// The highest nodes at which the way of a message by a signature's path differs from that of the batch's own message,
/// as texts; none where they differ in their leaves alone.
fn ways_part(
    leaves: &[[u8; 32]],
    nodes: &[[u8; 32]],
    signature: &[u8],
    message: &[u8],
    held: &[u8],
) -> Option<Parted>
    requires formed { is_formed signature.now ≡ true }
    requires depth { depth_in signature.now ≡ depth_over leaves.now }
    requires count { length nodes.now ≡ 2 * 2 ^ depth_over leaves.now }
    requires filled { AreNodesFrom leaves.now (depth_over leaves.now) 1 nodes.now }
    ensures { let own = way_of message.now signature.now in
        let other = text_above (path_over leaves.now (depth_over leaves.now) (leaf_number_in signature.now))
        (leaf_number_in signature.now) held.now in
        result ≡ nodes_at own other (parting own other (depth_in signature.now)) }
{
    let depth = usize::from(signature[0]);
    let mut number = leaf_number(signature);
    let mut own = leaf_of(message);
    let mut other = leaf_of(held);
    let mut last = None;
    for level in 0..depth {
        let first = parent_text(number, &path_node(signature, level), &own);
        let second = parent_text(number, &nodes[sibling_of(number) as usize], &other);
        last = later(&first, &second, last);
        own = Sha256::digest(&first);
        other = Sha256::digest(&second);
        number /= 2;
    }
    last
}

/// The two texts with one digest, where a message leads to the root of a tree and the one at its place is another.
fn collide(
    alloc: Global,
    leaves: &[[u8; 32]],
    nodes: &[[u8; 32]],
    signature: &[u8],
    message: &[u8],
    held: &[u8],
) -> PlaceFault
    requires formed { is_formed signature.now ≡ true }
    requires depth { depth_in signature.now ≡ depth_over leaves.now }
    requires count { length nodes.now ≡ 2 * 2 ^ depth_over leaves.now }
    requires filled { AreNodesFrom leaves.now (depth_over leaves.now) 1 nodes.now }
    ensures { let own = way_of message.now signature.now in
        let other = text_above (path_over leaves.now (depth_over leaves.now) (leaf_number_in signature.now))
        (leaf_number_in signature.now) held.now in
        let level = parting own other (depth_in signature.now) in
        Shows (own level) (other level) result }
{
    match ways_part(leaves, nodes, signature, message, held) {
        Some(parted) => collision(alloc, &parted.first, &parted.second),
        None => leaves_collide(alloc, message, held),
    }
}

/// The message at a place.
fn message_at(messages: &[Bytes], place: usize) -> &[u8]
    requires { place < length messages.now }
    ensures { result.now ≡ slice_index_or messages.now place [] }
{
    messages[place].as_slice()
}

/// Whether a signature leads from a message to the root words of a tree.
fn is_led(leaves: &[[u8; 32]], nodes: &[[u8; 32]], message: &[u8], signature: &[u8]) -> bool
    requires formed { is_formed signature.now ≡ true }
    requires some { 0 < length leaves.now }
    requires most { length leaves.now ≤ most_messages }
    requires count { length nodes.now ≡ 2 * 2 ^ depth_over leaves.now }
    requires filled { AreNodesFrom leaves.now (depth_over leaves.now) 1 nodes.now }
    ensures led { result ≡ bytes_eq (named message.now signature.now) (words_over leaves.now) }
    ensures depth { result ≡ true → depth_in signature.now ≡ depth_over leaves.now }
{
    let words = root_words(depth_of(leaves.len()), &nodes[1]);
    named(message, signature).as_slice() == words.as_slice()
}

/// The place in a batch whose tree this is.
fn find(
    alloc: Global,
    messages: &[Bytes],
    leaves: &[[u8; 32]],
    nodes: &[[u8; 32]],
    message: &[u8],
    signature: &[u8],
) -> Result<u16, PlaceFault>
    requires formed { is_formed signature.now ≡ true }
    requires leaves { leaves.now ≡ leaves_of messages.now }
    requires some { 0 < length messages.now }
    requires most { length messages.now ≤ most_messages }
    requires count { length nodes.now ≡ 2 * 2 ^ depth_over leaves.now }
    requires filled { AreNodesFrom leaves.now (depth_over leaves.now) 1 nodes.now }
    ensures { Tells (found_in messages.now message.now signature.now) result }
{
    if !is_led(leaves, nodes, message, signature) {
        return Err(PlaceFault::OtherBatch);
    }
    let place = place_among(messages.len(), usize::from(signature[1]));
    let held = message_at(messages, place);
    if held == message {
        return Ok(place as u16);
    }
    Err(collide(alloc, leaves, nodes, signature, message, held))
}

/// The place of a message in a batch, by a signature that has the form of one: the place that the signature names, and
/// where that is beyond them that of the last message. OtherBatch exactly where the message and the signature's path
/// don't lead to the root words of the batch, of which an empty one has none. Where they do, and another message stands
/// at the place, the two texts are told at which the ways to the root part: they differ and have one digest.
pub fn place_in(
    alloc: Global,
    batch: &Batch,
    message: &[u8],
    signature: &[u8],
) -> Result<u16, PlaceFault>
    requires { is_formed signature.now ≡ true }
    ensures found { Tells (found_in batch.now message.now signature.now) result }
    ensures real { IsReal batch.now message.now (found_in batch.now message.now signature.now) }
{
    let messages = batch.messages();
    if messages.is_empty() {
        return Err(PlaceFault::OtherBatch);
    }
    let leaves = leaves_of(alloc, messages)?;
    let nodes = nodes_over(alloc, &leaves, depth_of(leaves.len()))?;
    find(alloc, messages, &leaves, &nodes, message, signature)
}

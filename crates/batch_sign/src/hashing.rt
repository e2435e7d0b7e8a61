//! The hashes of a tree.

ghost use Rattle.std.specs.Prelude.{◌≡◌, ◌<◌};
ghost use Rattle.batch_sign.specs.Trees as trees;
ghost use Rattle.batch_sign.specs.Trees.{inner_node, parent};

use lms_ots::put;
use sha2::{Digest, Sha256};

/// The leaf of a message.
#[tactic(auto, unfolding(crate::specs::Trees::leaf_of))]
pub(crate) fn leaf_of(message: &[u8]) -> [u8; 32]
    ensures { result ≡ trees.leaf_of message.now }
{
    let mut hasher = Sha256::new();
    hasher.update([0]);
    hasher.update(message);
    hasher.finalize()
}

/// The node over two nodes.
#[tactic(auto, unfolding(crate::specs::Trees::inner_node))]
pub(crate) fn inner(left: &[u8; 32], right: &[u8; 32]) -> [u8; 32]
    ensures { result ≡ inner_node left.now right.now }
{
    let mut hasher = Sha256::new();
    hasher.update([1]);
    hasher.update(left);
    hasher.update(right);
    hasher.finalize()
}

/// The node above the node `r`, of which the sibling is known too.
pub(crate) fn parent_of(r: u32, sibling: &[u8; 32], own: &[u8; 32]) -> [u8; 32]
    ensures { result ≡ parent r sibling.now own.now }
{
    if r % 2 == 0 {
        inner(own, sibling)
    } else {
        inner(sibling, own)
    }
}

/// The other child of the same node.
pub(crate) fn sibling_of(r: u32) -> u32
    requires { r < 1000 }
    ensures { result ≡ trees.sibling r }
{
    if r % 2 == 0 { r + 1 } else { r - 1 }
}

/// What is signed of a batch.
pub(crate) fn root_words(depth: u8, root: &[u8; 32]) -> [u8; 34]
    ensures { result ≡ trees.root_words depth root.now }
{
    let mut words = [0u8; 34];
    words[0] = 7;
    words[1] = depth;
    words[2..].copy_from_slice(root);
    words
}

/// The text of the node over two nodes.
fn node_text(left: &[u8; 32], right: &[u8; 32]) -> [u8; 65]
    ensures { result ≡ trees.node_text left.now right.now }
{
    let mut text = [0u8; 65];
    put(&mut text, 0, &[1]);
    put(&mut text, 1, left);
    put(&mut text, 33, right);
    text
}

/// The text of the node above the node `r`.
pub(crate) fn parent_text(r: u32, sibling: &[u8; 32], own: &[u8; 32]) -> [u8; 65]
    ensures { result ≡ trees.parent_text r sibling.now own.now }
{
    if r % 2 == 0 {
        node_text(own, sibling)
    } else {
        node_text(sibling, own)
    }
}

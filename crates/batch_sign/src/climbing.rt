//! The root to which a message and a path lead.

ghost use Rattle.std.specs.Prelude.{◌≡◌, ◌≤◌, ◌+◌, ◌*◌, true, length, take, drop};
ghost use Rattle.batch_sign.specs.Trees.{climbed, most_depth};
ghost use Rattle.batch_sign.specs.Signatures as signatures;
ghost use Rattle.batch_sign.specs.Signatures.{depth_in, is_formed, leaf_number_in, path_in};

use crate::hashing::{leaf_of, parent_of, root_words};
use crate::sizes::width_of;

/// The node that a signature has for a level.
pub(crate) fn path_node(signature: &[u8], level: usize) -> [u8; 32]
    requires { 2 + 32 * level + 32 ≤ length signature.now }
    ensures { result ≡ path_in signature.now level }
{
    let at = 2 + 32 * level;
    let mut node = [0u8; 32];
    node.copy_from_slice(&signature[at..at + 32]);
    node
}

/// The number of the leaf that a signature names.
pub(crate) fn leaf_number(signature: &[u8]) -> u32
    requires { is_formed signature.now ≡ true }
    ensures number { result ≡ leaf_number_in signature.now }
    ensures most { result ≤ 512 }
{
    u32::from(width_of(signature[0])) + u32::from(signature[1])
}

/// The node to which a signature's path leads from a leaf.
fn climb(signature: &[u8], leaf: [u8; 32]) -> [u8; 32]
    requires { is_formed signature.now ≡ true }
    ensures { result ≡ climbed (path_in signature.now) (leaf_number_in signature.now) leaf (depth_in signature.now) }
{
    let depth = usize::from(signature[0]);
    let mut number = leaf_number(signature);
    let mut node = leaf;
    for level in 0..depth {
        let sibling = path_node(signature, level);
        let next = parent_of(number, &sibling, &node);
        node = next;
        number /= 2;
    }
    node
}

/// The root words to which a message and a signature's path lead.
pub(crate) fn named(message: &[u8], signature: &[u8]) -> [u8; 34]
    requires { is_formed signature.now ≡ true }
    ensures { result ≡ signatures.named message.now signature.now }
{
    let root = climb(signature, leaf_of(message));
    root_words(signature[0], &root)
}

/// The signature of the root words.
pub(crate) fn inner_of(signature: &[u8]) -> &[u8]
    requires { is_formed signature.now ≡ true }
    ensures { result.now ≡ signatures.inner_in signature.now }
{
    &signature[2 + 32 * usize::from(signature[0])..]
}

//! The nodes of a tree.
ghost use Rattle.std.specs.Prelude.{◌≡◌, ◌<◌, ◌≤◌, ◌+◌, ◌*◌, ◌-◌, ◌/◌, ◌^◌, IfOk, length, vec_len};
ghost use Rattle.lms_sign.specs.Sets.{leaves_of, height_of};
ghost use Rattle.lms_sign.specs.Tree.{tree_of, leaf_node, inner_node, node};
ghost use Rattle.lms_sign.specs.Filled.{AreNodesFrom};
ghost use Rattle.lms_sign.specs.Verifying.{parent};
ghost use Rattle.lms_sign.specs.Signing.{sibling};

use crate::sets::LmsSet;
use basil_types::memory::NoMemory;
use lms_ots::ots_public;
use sha2::{Digest, Sha256};
use std::alloc::Global;

/// The node with number `r` over a one-time key.
#[tactic(auto, unfolding(crate::specs::Tree::leaf_node))]
pub(crate) fn leaf(ident: &[u8; 16], r: u32, key: &[u8; 32]) -> [u8; 32]
    ensures { result ≡ leaf_node ident.now r key.now }
{
    let mut hasher = Sha256::new();
    hasher.update(ident);
    hasher.update(r.to_be_bytes());
    hasher.update([0x82, 0x82]);
    hasher.update(key);
    hasher.finalize()
}

/// The node with number `r` over two nodes.
#[tactic(auto, unfolding(crate::specs::Tree::inner_node))]
fn inner(ident: &[u8; 16], r: u32, left: &[u8; 32], right: &[u8; 32]) -> [u8; 32]
    ensures { result ≡ inner_node ident.now r left.now right.now }
{
    let mut hasher = Sha256::new();
    hasher.update(ident);
    hasher.update(r.to_be_bytes());
    hasher.update([0x83, 0x83]);
    hasher.update(left);
    hasher.update(right);
    hasher.finalize()
}

/// The node above the node `r`, of which the sibling is known too.
pub(crate) fn parent_of(ident: &[u8; 16], r: u32, sibling: &[u8; 32], own: &[u8; 32]) -> [u8; 32]
    ensures { result ≡ parent ident.now r sibling.now own.now }
{
    if r % 2 == 0 {
        inner(ident, r / 2, own, sibling)
    } else {
        inner(ident, r / 2, sibling, own)
    }
}

/// The other child of the same node.
pub(crate) fn sibling_of(r: u32) -> u32
    requires { r < 2 ^ 31 }
    ensures { result ≡ sibling r }
{
    if r % 2 == 0 { r + 1 } else { r - 1 }
}

/// The node of leaf `q`.
#[tactic(auto, unfolding(crate::specs::Tree::node))]
fn leaf_of_tree(set: LmsSet, ident: &[u8; 16], seed: &[u8; 32], q: u32) -> [u8; 32]
    requires { q < leaves_of set }
    ensures { result ≡ node (tree_of set ident.now seed.now) 0 (leaves_of set + q) }
{
    let key = ots_public(set.one_time(), ident, q, seed);
    leaf(ident, set.leaves() + q, &key)
}

/// The nodes of a tree by their numbers: the leaves first, then each node over two that stand.
pub(crate) fn nodes_of(
    alloc: Global,
    set: LmsSet,
    ident: &[u8; 16],
    seed: &[u8; 32],
) -> Result<Vec<[u8; 32]>, NoMemory>
    ensures count { IfOk result (λ v. vec_len v ≡ 2 * leaves_of set) }
    ensures nodes { IfOk result (λ v. AreNodesFrom (tree_of set ident.now seed.now) 1 v.items) }
{
    let leaves = set.leaves() as usize;
    let mut nodes = vec![in alloc; [0u8; 32]; 2 * leaves]?;
    for q in 0..leaves {
        nodes[leaves + q] = leaf_of_tree(set, ident, seed, q as u32);
    }
    for done in 1..leaves {
        let r = leaves - done;
        nodes[r] = inner(ident, r as u32, &nodes[2 * r], &nodes[2 * r + 1]);
    }
    Ok(nodes)
}

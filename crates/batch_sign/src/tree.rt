//! Trees.

ghost use Rattle.std.specs.Prelude.{◌≡◌, ◌<◌, ◌≤◌, ◌+◌, ◌*◌, ◌++◌, ◌^◌, IfOk, length, take, vec_len};
ghost use Rattle.lms_ots.specs.Chains.{joined};
ghost use Rattle.batch_sign.specs.Filled.{AreNodesFrom};
ghost use Rattle.batch_sign.specs.Trees.{most_depth, path_over};

use crate::hashing::{inner, sibling_of};
use crate::sizes::width_of;
use basil_types::memory::NoMemory;
use lms_ots::put;
use std::alloc::Global;

/// The place at which what stands at a place among so many stands: behind the last that is the last.
pub(crate) fn place_among(count: usize, place: usize) -> usize
    requires { 0 < count }
    ensures is { result ≡ Rattle.batch_sign.specs.Trees.place_among count place }
    ensures below { result < count }
{
    if place < count { place } else { count - 1 }
}

/// The leaf at a place.
fn leaf_at(leaves: &[[u8; 32]], place: usize) -> [u8; 32]
    requires { 0 < length leaves.now }
    ensures { result ≡ Rattle.batch_sign.specs.Trees.leaf_at leaves.now place }
{
    leaves[place_among(leaves.len(), place)]
}

/// The nodes of the tree over some leaves by their numbers: the leaves first, then each node over two that stand.
pub(crate) fn nodes_over(
    alloc: Global,
    leaves: &[[u8; 32]],
    depth: u8,
) -> Result<Vec<[u8; 32]>, NoMemory>
    requires some { 0 < length leaves.now }
    requires depth { depth ≤ most_depth }
    ensures count { IfOk result (λ v. vec_len v ≡ 2 * 2 ^ depth) }
    ensures nodes { IfOk result (λ v. AreNodesFrom leaves.now depth 1 v.items) }
{
    let width = usize::from(width_of(depth));
    let mut nodes = vec![in alloc; [0u8; 32]; 2 * width]?;
    for place in 0..width {
        nodes[width + place] = leaf_at(leaves, place);
    }
    for done in 1..width {
        let r = width - done;
        nodes[r] = inner(&nodes[2 * r], &nodes[2 * r + 1]);
    }
    Ok(nodes)
}

/// Writes the siblings of the nodes from the leaf with number `r` up to the root.
pub(crate) fn put_path(
    depth: u8,
    leaves: &[[u8; 32]],
    nodes: &[[u8; 32]],
    r: u32,
    out: &mut [u8],
    at: usize,
)
    requires depth { depth ≤ most_depth }
    requires leaf { 2 ^ depth ≤ r }
    requires inside { r < 2 * 2 ^ depth }
    requires count { length nodes.now ≡ 2 * 2 ^ depth }
    requires filled { AreNodesFrom leaves.now depth 1 nodes.now }
    requires room { at + 32 * depth ≤ length out.old }
    ensures { take (at + 32 * depth) out.new ≡ take at out.old ++ joined (path_over leaves.now depth r) depth }
{
    let mut number = r;
    for level in 0..usize::from(depth) {
        put(out, at + 32 * level, &nodes[sibling_of(number) as usize]);
        number /= 2;
    }
}

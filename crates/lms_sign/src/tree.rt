//! Trees, of which several keys can be made.
ghost use Rattle.std.specs.Prelude.{◌≡◌, ◌≤◌, ◌*◌, vec_len, IfOk};
ghost use Rattle.lms_sign.specs.Sets.{leaves_of};
ghost use Rattle.lms_sign.specs.Tree.{Tree, tree_of, public_of};
ghost use Rattle.lms_sign.specs.Filled.{AreNodesFrom};

use crate::key::LmsKey;
use crate::nodes::nodes_of;
use crate::public::public_with;
use crate::sets::LmsSet;
use basil_types::memory::NoMemory;
use std::alloc::Global;
use std::marker::Model;

/// A tree of one-time keys with all its nodes, of which keys are made at the cost of their memory alone. Contracts see
/// its set, its identifier and its seed. Two keys of one tree sign with the same leaves.
#[derive(Drop)]
pub struct LmsTree {
    set: LmsSet,
    ident: [u8; 16],
    seed: [u8; 32],
    nodes: Vec<[u8; 32]>,
}

impl Model for LmsTree {
    ghost Value = { Tree };

    ghost view = { λ t. tree_of t.set t.ident t.seed };

    ghost invariant = { λ t. (vec_len t.nodes ≡ 2 * leaves_of t.set)
        × AreNodesFrom (tree_of t.set t.ident t.seed) 1 t.nodes.items };
}

impl LmsTree {
    /// The tree of a seed, an identifier and a set. Makes every one-time key of the tree once.
    pub fn make(
        alloc: Global,
        seed: &[u8; 32],
        ident: &[u8; 16],
        set: LmsSet,
    ) -> Result<LmsTree, NoMemory>
        ensures { IfOk result (λ tree. tree ≡ tree_of set ident.now seed.now) }
    {
        let nodes = nodes_of(alloc, set, ident, seed)?;
        Ok(LmsTree {
            set,
            ident: *ident,
            seed: *seed,
            nodes,
        })
    }

    /// The public key, 56 bytes.
    pub fn public(&self) -> [u8; 56]
        ensures { result ≡ public_of self.now }
    {
        public_with(self.set, &self.ident, &self.nodes[1])
    }

    /// The key of this tree whose first leaf to sign is `first`, at most the number of leaves.
    pub fn key(&self, alloc: Global, first: u32) -> Result<LmsKey, NoMemory>
        requires { first ≤ leaves_of self.now.set }
        ensures { IfOk result (λ key. key ≡ record { tree = self.now; next = first }) }
    {
        let nodes = Vec::from_slice(alloc, self.nodes.as_slice())?;
        Ok(LmsKey {
            set: self.set,
            ident: self.ident,
            seed: self.seed,
            next: first,
            nodes,
        })
    }
}

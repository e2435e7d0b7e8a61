//! Keys.
ghost use Rattle.std.specs.Prelude.{◌≡◌, ◌<◌, ◌≤◌, ◌+◌, ◌-◌, ◌*◌, ◌↔◌, length, vec_len, IfOk, IfErr, OnOk, OnErr, IsOk};
ghost use Rattle.lms_sign.specs.Sets.{leaves_of, size_of};
ghost use Rattle.lms_sign.specs.Tree.{tree_of, public_of};
ghost use Rattle.lms_sign.specs.Signing.{Key, signature_of};
ghost use Rattle.lms_sign.specs.Filled.{AreNodesFrom};
ghost use Rattle.lms_sign.specs.Verifying.{Valid, leaf_in};

use crate::nodes::nodes_of;
use crate::public::public_with;
use crate::sets::LmsSet;
use crate::signing::write_signature;
use basil_types::memory::NoMemory;
use std::alloc::Global;
use std::marker::Model;

/// Each leaf of the key is spent.
#[derive(Clone, Copy, Debug, PartialEq, Eq)]
pub struct Exhausted;

/// A key that signs once with each leaf of its tree, in order. Contracts see the tree, which never
/// changes, and the next leaf. There is no way to copy a key or to set its next leaf back.
#[derive(Drop)]
pub struct LmsKey {
    pub(crate) set: LmsSet,
    pub(crate) ident: [u8; 16],
    pub(crate) seed: [u8; 32],
    pub(crate) next: u32,
    pub(crate) nodes: Vec<[u8; 32]>,
}

impl Model for LmsKey {
    ghost Value = { Key };

    ghost view = { λ k. record { tree = tree_of k.set k.ident k.seed; next = k.next } };

    ghost invariant = { λ k. (k.next ≤ leaves_of k.set) × (vec_len k.nodes ≡ 2 * leaves_of k.set)
        × AreNodesFrom (tree_of k.set k.ident k.seed) 1 k.nodes.items };
}

impl LmsKey {
    /// The key of a seed, an identifier and a set, whose first leaf to sign is `first`, at most the
    /// number of leaves. Makes every one-time key of the tree once.
    pub fn make(
        alloc: Global,
        seed: &[u8; 32],
        ident: &[u8; 16],
        set: LmsSet,
        first: u32,
    ) -> Result<LmsKey, NoMemory>
        requires { first ≤ leaves_of set }
        ensures { IfOk result (λ key. key ≡ record { tree = tree_of set ident.now seed.now; next = first }) }
    {
        let nodes = nodes_of(alloc, set, ident, seed)?;
        Ok(LmsKey {
            set,
            ident: *ident,
            seed: *seed,
            next: first,
            nodes,
        })
    }

    /// The public key, 56 bytes.
    pub fn public(&self) -> [u8; 56]
        ensures { result ≡ public_of self.now.tree }
    {
        public_with(self.set, &self.ident, &self.nodes[1])
    }

    /// The number of leaves that are not spent.
    pub fn left(&self) -> u64
        ensures { result ≡ leaves_of self.now.tree.set - self.now.next }
    {
        u64::from(self.set.leaves() - self.next)
    }

    /// The bytes of a signature.
    pub fn size(&self) -> usize
        ensures { result ≡ size_of self.now.tree.set }
    {
        self.set.size()
    }

    /// Signs a message with the next leaf, which is then spent, and writes the signature into `out`,
    /// of `size` bytes. Exhausted exactly where no leaf is left, and then all is as before.
    pub fn sign_into(&mut self, message: &[u8], out: &mut [u8]) -> Result<(), Exhausted>
        requires { length out.old ≡ size_of self.old.tree.set }
        ensures signs { IsOk result ↔ (self.old.next < leaves_of self.old.tree.set) }
        ensures signature { OnOk result (out.new ≡ signature_of self.old.tree self.old.next message.now) }
        ensures valid { OnOk result (Valid (public_of self.old.tree) message.now out.new) }
        ensures leaf { OnOk result (leaf_in out.new ≡ self.old.next) }
        ensures tree { self.new.tree ≡ self.old.tree }
        ensures spends { OnOk result (self.new.next ≡ self.old.next + 1) }
        ensures refused { OnErr result ((self.new ≡ self.old) × (out.new ≡ out.old)) }
    {
        if self.next == self.set.leaves() {
            return Err(Exhausted);
        }
        write_signature(
            self.set,
            &self.ident,
            &self.seed,
            self.nodes.as_slice(),
            self.next,
            message,
            out,
        );
        self.next += 1;
        Ok(())
    }
}

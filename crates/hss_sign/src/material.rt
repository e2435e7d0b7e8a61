//! What a key of two levels is made of.
ghost use Rattle.std.specs.Prelude.{◌≡◌, ◌≤◌, IfOk};
ghost use Rattle.lms_sign.specs.Sets.{leaves_of};
ghost use Rattle.hss_sign.specs.Keys.{bottom_seed, bottom_tree};

use basil_types::memory::NoMemory;
use lms_sign::{LmsKey, LmsSet, ident_of_seed};
use sha2::{Digest, Sha256};
use std::alloc::Global;

/// The seed and the identifier of the top level, and the sets of both levels.
#[derive(Clone, Copy)]
pub(crate) struct Material {
    pub(crate) seed: [u8; 32],
    pub(crate) ident: [u8; 16],
    pub(crate) top: LmsSet,
    pub(crate) bottom: LmsSet,
}

impl Material {
    /// The seed of the bottom key under a top leaf.
    #[tactic(auto, unfolding(crate::specs::Keys::bottom_seed))]
    fn bottom_seed(&self, top_leaf: u32) -> [u8; 32]
        ensures { result ≡ bottom_seed self.now top_leaf }
    {
        let mut hasher = Sha256::new();
        hasher.update([0x48]);
        hasher.update(self.seed);
        hasher.update(self.ident);
        hasher.update(top_leaf.to_be_bytes());
        hasher.finalize()
    }

    /// The bottom key under a top leaf, whose first leaf to sign is `first`.
    pub(crate) fn bottom_key(
        &self,
        alloc: Global,
        top_leaf: u32,
        first: u32,
    ) -> Result<LmsKey, NoMemory>
        requires { first ≤ leaves_of self.now.bottom }
        ensures { IfOk result (λ key. key ≡ record { tree = bottom_tree self.now top_leaf; next = first }) }
    {
        let seed = self.bottom_seed(top_leaf);
        LmsKey::make(alloc, &seed, &ident_of_seed(&seed), self.bottom, first)
    }
}

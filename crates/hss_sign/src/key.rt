//! Keys.
ghost use Rattle.std.specs.Prelude.{◌≡◌, ◌≢◌, ◌≤◌, ◌-◌, ◌↔◌, length, IfOk, OnOk, OnErr, Err};
ghost use Rattle.hss_sign.specs.Keys.{material_of, made_before, after_signing, numbers_of};
ghost use Rattle.hss_sign.specs.Keys.{top_leaf_of, hss_signature_of, hss_public_of, hss_size_of};
ghost use Rattle.hss_sign.specs.Verifying.{HssValid};

use crate::levels::Levels;
use crate::material::Material;
use basil_types::memory::NoMemory;
use lms_ots::put;
use lms_sign::LmsSet;
use std::alloc::Global;
use std::marker::Model;

/// Why a key doesn't sign.
#[derive(Clone, Copy, Debug, PartialEq, Eq)]
pub enum HssFault {
    /// Each number is spent.
    Exhausted,
    /// Memory is wanting for the next bottom key.
    NoMemory,
}

impl From<NoMemory> for HssFault {
    ghost use Rattle.std.specs.Prelude.{◌≡◌};
    ghost use Rattle.hss_sign.specs.declared.key.HssFault.{HssFault};

    ghost from_gives = { λ _ fault. fault ≡ HssFault.NoMemory };

    fn from(_refused: NoMemory) -> HssFault {
        HssFault::NoMemory
    }
}

/// A key of two levels that signs once with each bottom leaf under each top leaf, in order. Contracts see
/// its material, which never changes, the number of its next signature, and the top leaf whose bottom key
/// it holds. There is no way to copy a key or to set its next number back.
#[derive(Drop)]
pub struct HssKey {
    alloc: Global,
    levels: Levels,
}

impl Model for HssKey {
    ghost use Rattle.hss_sign.specs.Keys.{HssState, state_of};
    ghost use Rattle.hss_sign.specs.Kept.{IsKept, number_of};

    ghost Value = { HssState };

    ghost view = { λ k. state_of k.levels.material (number_of k.levels) k.levels.top_leaf };

    ghost invariant = { λ k. IsKept k.levels };
}

impl HssKey {
    /// The key of a seed, an identifier and the sets of both levels, whose first signature has the number
    /// `first`, at most the number of bottom leaves under all top leaves. Makes every one-time key of the
    /// top level once, and those of one bottom level.
    pub fn make(
        alloc: Global,
        seed: &[u8; 32],
        ident: &[u8; 16],
        top: LmsSet,
        bottom: LmsSet,
        first: u64,
    ) -> Result<HssKey, NoMemory>
        requires { first ≤ numbers_of (material_of seed.now ident.now top bottom) }
        ensures { IfOk result (λ key. key ≡ made_before (material_of seed.now ident.now top bottom) first) }
    {
        let material = Material {
            seed: *seed,
            ident: *ident,
            top,
            bottom,
        };
        let levels = Levels::make(alloc, material, first)?;
        Ok(HssKey { alloc, levels })
    }

    /// The public key, 60 bytes.
    #[tactic(auto, unfolding(crate::specs::Keys::hss_public_of))]
    pub fn public(&self) -> [u8; 60]
        ensures { result ≡ hss_public_of self.now.material }
    {
        let mut public = [0u8; 60];
        put(&mut public, 0, &2u32.to_be_bytes());
        put(&mut public, 4, &self.levels.top.public());
        public
    }

    /// The number of signatures that are left.
    pub fn left(&self) -> u64
        ensures { result ≡ numbers_of self.now.material - self.now.next }
    {
        self.levels.left()
    }

    /// The bytes of a signature.
    pub fn size(&self) -> usize
        ensures { result ≡ hss_size_of self.now.material }
    {
        let material = &self.levels.material;
        60 + material.top.size() + material.bottom.size()
    }

    /// Signs a message with the next number, which is then spent, and writes the signature into `out`,
    /// of `size` bytes. Exhausted exactly where no number is left. NoMemory only where the bottom key that
    /// is held isn't the number's, and spends nothing. After either, all is as before.
    pub fn sign_into(&mut self, message: &[u8], out: &mut [u8]) -> Result<(), HssFault>
        requires { length out.old ≡ hss_size_of self.old.material }
        ensures exhausted { (result ≡ Err HssFault.Exhausted) ↔ (numbers_of self.old.material ≤ self.old.next) }
        ensures memory { (result ≡ Err HssFault.NoMemory)
            → self.old.held ≢ top_leaf_of self.old.material self.old.next }
        ensures signature { OnOk result (out.new ≡ hss_signature_of self.old.material self.old.next message.now) }
        ensures valid { OnOk result (HssValid (hss_public_of self.old.material) message.now out.new) }
        ensures spends { OnOk result (self.new ≡ after_signing self.old) }
        ensures refused { OnErr result ((self.new ≡ self.old) × (out.new ≡ out.old)) }
    {
        self.levels.prepare(self.alloc)?;
        self.levels.bottom.sign_into(message, out);
        Ok(())
    }
}

//! The two levels of a key.
ghost use Rattle.std.specs.Prelude.{◌≡◌, ◌<◌, ◌≤◌, ◌+◌, ◌-◌, ◌*◌, ◌↔◌, IfOk, OnOk, OnErr, Err};
ghost use Rattle.lms_sign.specs.Sets.{leaves_of};
ghost use Rattle.hss_sign.specs.Keys.{numbers_of, first_held};
ghost use Rattle.hss_sign.specs.Kept.{IsKept, number_of};

use crate::bottom::Bottom;
use crate::key::HssFault;
use crate::material::Material;
use basil_types::memory::NoMemory;
use lms_sign::LmsKey;
use std::alloc::Global;

/// The top key, and the bottom key under the top leaf that was spent last.
#[derive(Drop)]
pub(crate) struct Levels {
    pub(crate) material: Material,
    pub(crate) top_leaf: u32,
    pub(crate) top: LmsKey,
    pub(crate) bottom: Bottom,
}

impl Levels {
    /// The levels before the signature with a number.
    pub(crate) fn make(alloc: Global, material: Material, number: u64) -> Result<Levels, NoMemory>
        requires { number ≤ numbers_of material }
        ensures kept { IfOk result (λ levels. IsKept levels) }
        ensures material { IfOk result (λ levels. levels.material ≡ material) }
        ensures number { IfOk result (λ levels. number_of levels ≡ number) }
        ensures held { IfOk result (λ levels. levels.top_leaf ≡ first_held material number) }
    {
        let (top_leaf, bottom_leaf) = leaves_at(&material, number);
        let mut top = LmsKey::make(
            alloc,
            &material.seed,
            &material.ident,
            material.top,
            top_leaf,
        )?;
        let bottom = Bottom::make(alloc, &material, &mut top, top_leaf, bottom_leaf)?;
        Ok(Levels {
            material,
            top_leaf,
            top,
            bottom,
        })
    }

    /// Makes the bottom key of the next top leaf where that of the last is spent.
    pub(crate) fn prepare(&mut self, alloc: Global) -> Result<(), HssFault>
        requires { IsKept self.old }
        ensures kept { OnOk result (IsKept self.new) }
        ensures material { OnOk result (self.new.material ≡ self.old.material) }
        ensures number { OnOk result (number_of self.new ≡ number_of self.old) }
        ensures more { OnOk result (self.new.bottom.key.next < leaves_of self.new.material.bottom) }
        ensures spent { OnErr result (self.old.bottom.key.next ≡ leaves_of self.old.material.bottom) }
        ensures exhausted { (result ≡ Err HssFault.Exhausted) →
            self.old.top_leaf + 1 ≡ leaves_of self.old.material.top }
        ensures memory { (result ≡ Err HssFault.NoMemory) → self.old.top_leaf + 1 < leaves_of self.old.material.top }
        ensures as_before { OnErr result (self.new ≡ self.old) }
    {
        if self.bottom.key.left() > 0 {
            return Ok(());
        }
        if self.top.left() == 0 {
            return Err(HssFault::Exhausted);
        }
        let next = self.top_leaf + 1;
        self.bottom = Bottom::make(alloc, &self.material, &mut self.top, next, 0)?;
        self.top_leaf = next;
        Ok(())
    }

    /// The number of signatures that are left.
    pub(crate) fn left(&self) -> u64
        requires { IsKept self.now }
        ensures { result ≡ numbers_of self.now.material - number_of self.now }
    {
        let under_each = u64::from(self.material.bottom.leaves());
        self.top.left() * under_each + self.bottom.key.left()
    }
}

/// The top leaf and the bottom leaf of a number. Behind the last number these are the last top leaf, and
/// as many bottom leaves as there are.
fn leaves_at(material: &Material, number: u64) -> (u32, u32)
    requires { number ≤ numbers_of material.now }
    ensures in_top { result.0 < leaves_of material.now.top }
    ensures in_bottom { result.1 ≤ leaves_of material.now.bottom }
    ensures number { result.0 * leaves_of material.now.bottom + result.1 ≡ number }
    ensures held { result.0 ≡ first_held material.now number }
{
    let top_leaves = material.top.leaves();
    let bottom_leaves = material.bottom.leaves();
    let under_each = u64::from(bottom_leaves);
    if number / under_each == u64::from(top_leaves) {
        return (top_leaves - 1, bottom_leaves);
    }
    ((number / under_each) as u32, (number % under_each) as u32)
}

//! The bottom level of a key.
ghost use Rattle.std.specs.Prelude.{◌≡◌, ◌<◌, ◌≤◌, ◌+◌, ◌++◌, length, vec_len, IfOk, OnOk, OnErr};
ghost use Rattle.std.specs.Int.{w32, to_be_bytes};
ghost use Rattle.lms_sign.specs.Sets.{leaves_of, size_of};
ghost use Rattle.lms_sign.specs.Tree.{public_of};
ghost use Rattle.lms_sign.specs.Signing.{signature_of};
ghost use Rattle.lms_sign.specs.Verifying.{Valid};
ghost use Rattle.hss_sign.specs.Keys.{top_tree};
ghost use Rattle.hss_sign.specs.Kept.{IsUnder};

use crate::material::Material;
use basil_types::memory::NoMemory;
use lms_ots::put;
use lms_sign::LmsKey;
use std::alloc::Global;

/// The bottom key under a top leaf, and the bytes that stand before each of its signatures: the
/// count of levels less one, the signature of this key's public key by the top leaf, and that public key.
#[derive(Drop)]
pub(crate) struct Bottom {
    pub(crate) key: LmsKey,
    pub(crate) heading: Vec<u8>,
}

impl Bottom {
    /// Makes the bottom key under a top leaf, which is the next of the top key and is then spent.
    #[tactic(auto, unfolding(crate::specs::Keys::bottom_key, crate::specs::Keys::top_signature, crate::specs::Keys::heading_of))]
    pub(crate) fn make(
        alloc: Global,
        material: &Material,
        top: &mut LmsKey,
        top_leaf: u32,
        bottom_leaf: u32,
    ) -> Result<Bottom, NoMemory>
        requires top { top.old ≡ record { tree = top_tree material.now; next = top_leaf } }
        requires in_top { top_leaf < leaves_of material.now.top }
        requires in_bottom { bottom_leaf ≤ leaves_of material.now.bottom }
        ensures made { IfOk result (λ bottom. IsUnder material.now top_leaf bottom_leaf bottom) }
        ensures spends { OnOk result (top.new ≡ record { tree = top_tree material.now; next = top_leaf + 1 }) }
        ensures as_before { OnErr result (top.new ≡ top.old) }
    {
        let key = material.bottom_key(alloc, top_leaf, bottom_leaf)?;
        let heading = signed_heading(alloc, top, &key.public())?;
        Ok(Bottom { key, heading })
    }

    /// Signs a message with the next bottom leaf.
    pub(crate) fn sign_into(&mut self, message: &[u8], out: &mut [u8])
        requires more { self.old.key.next < leaves_of self.old.key.tree.set }
        requires size { length out.old ≡ vec_len self.old.heading + size_of self.old.key.tree.set }
        ensures signature { out.new ≡ self.old.heading.items
            ++ signature_of self.old.key.tree self.old.key.next message.now }
        ensures valid { Valid (public_of self.old.key.tree) message.now
            (signature_of self.old.key.tree self.old.key.next message.now) }
        ensures spends { self.new ≡ record self.old { key = record self.old.key { next = self.old.key.next + 1 } } }
    {
        let end = self.heading.len();
        put(out, 0, self.heading.as_slice());
        match self.key.sign_into(message, &mut out[end..]) {
            Ok(()) => (),
            Err(_) => unreachable!(),
        }
    }
}

/// Signs a bottom key with the next leaf of the top key, and gives what stands before each signature of
/// that bottom key.
fn signed_heading(alloc: Global, top: &mut LmsKey, bottom: &[u8; 56]) -> Result<Vec<u8>, NoMemory>
    requires more { top.old.next < leaves_of top.old.tree.set }
    ensures heading { IfOk result (λ heading. heading.items
        ≡ to_be_bytes w32 1 ++ signature_of top.old.tree top.old.next bottom.now ++ bottom.now) }
    ensures size { IfOk result (λ heading. vec_len heading ≡ 60 + size_of top.old.tree.set) }
    ensures valid { OnOk result
        (Valid (public_of top.old.tree) bottom.now (signature_of top.old.tree top.old.next bottom.now)) }
    ensures spends { OnOk result (top.new ≡ record top.old { next = top.old.next + 1 }) }
    ensures as_before { OnErr result (top.new ≡ top.old) }
{
    let mut heading = vec![in alloc; 0u8; 60 + top.size()]?;
    write_heading(top, bottom, heading.as_mut_slice());
    Ok(heading)
}

/// Writes what stands before each signature of a bottom key.
fn write_heading(top: &mut LmsKey, bottom: &[u8; 56], heading: &mut [u8])
    requires more { top.old.next < leaves_of top.old.tree.set }
    requires size { length heading.old ≡ 60 + size_of top.old.tree.set }
    ensures heading { heading.new ≡ to_be_bytes w32 1
        ++ signature_of top.old.tree top.old.next bottom.now ++ bottom.now }
    ensures valid { Valid (public_of top.old.tree) bottom.now (signature_of top.old.tree top.old.next bottom.now) }
    ensures spends { top.new ≡ record top.old { next = top.old.next + 1 } }
{
    let end = 4 + top.size();
    put(heading, 0, &1u32.to_be_bytes());
    match top.sign_into(bottom, &mut heading[4..end]) {
        Ok(()) => (),
        Err(_) => unreachable!(),
    }
    put(heading, end, bottom);
}

//! The pen of a party of a cluster's file.

ghost use Rattle.std.specs.Prelude.{◌≡◌, ◌-◌, Ok, IfOk, IfErr};
ghost use Rattle.keyring_lms.specs.Keys.{public_in};
ghost use Rattle.keyring_lms.specs.Pens.{lms_signing};
ghost use Rattle.lms_sign.specs.Sets.{leaves_of};
ghost use Rattle.party_seat.specs.Keys.{Tells, key_in, key_with};

use crate::fault::SeatFault;
use basil_types::party::Party;
use cluster_file::ClusterFile;
use keyring::signer::Signer;
use keyring_lms::LmsPen;
use lms_sign::{LmsKey, LmsSet, ident_of};
use std::alloc::Global;

/// The public key of a party's entry.
fn public_of(publics: &[(Party, [u8; 56])], party: Party) -> Option<[u8; 56]>
    ensures { result ≡ public_in publics.now party }
{
    for entry in publics {
        if entry.0 == party {
            return Some(entry.1);
        }
    }
    None
}

/// The key that the seed gives with the identifier of this public key, with its first leaf to sign; if that public key
/// is its own, and it has so many leaves.
fn key_of(
    alloc: Global,
    set: LmsSet,
    public: &[u8; 56],
    seed: &[u8; 32],
    leaf: u32,
) -> Result<LmsKey, SeatFault>
    ensures made { IfOk result (λ key. key_with set public.now seed.now leaf ≡ Ok key) }
    ensures refused { IfErr result (λ fault. Tells fault (key_with set public.now seed.now leaf)) }
{
    let leaves = set.leaves();
    let key = LmsKey::make(
        alloc,
        seed,
        &ident_of(public.as_slice()),
        set,
        leaf.min(leaves),
    )?;
    if key.public() != *public {
        return Err(SeatFault::WrongKey);
    }
    if leaf > leaves {
        return Err(SeatFault::WrongLeaf);
    }
    Ok(key)
}

/// The pen of a party that the file lists, which signs with its key from this leaf on, 0 to the number of leaves. The
/// key is that of the file's set, of the party's own seed and of the identifier in its public key. `WrongKey` where the
/// file doesn't list the party, or the key has another public key; and then `WrongLeaf`.
pub fn pen_of(
    alloc: Global,
    file: &ClusterFile,
    party: Party,
    seed: &[u8; 32],
    leaf: u32,
) -> Result<LmsPen, SeatFault>
    ensures made { IfOk result (λ pen. key_in file.now party seed.now leaf ≡ Ok pen.key) }
    ensures fixed { IfOk result (λ pen.
        ⟦<LmsPen as Signer>⟧.fixed pen ≡ lms_signing party pen.key.tree pen.key.next) }
    ensures spent { IfOk result (λ pen. ⟦<LmsPen as Signer>⟧.spent pen ≡ 0) }
    ensures left { IfOk result (λ pen.
        ⟦<LmsPen as Signer>⟧.left_of pen ≡ leaves_of pen.key.tree.set - pen.key.next) }
    ensures refused { IfErr result (λ fault. Tells fault (key_in file.now party seed.now leaf)) }
{
    let Some(public) = public_of(file.publics(), party) else {
        return Err(SeatFault::WrongKey);
    };
    let key = key_of(alloc, file.set, &public, seed, leaf)?;
    Ok(LmsPen::new(party, key))
}

//! What the chains of a key, a signature and a candidate run, by their numbers.
ghost use Rattle.std.specs.Prelude.{◌≡◌, ℕ, ◌+◌, ◌*◌, ◌<◌, ◌≤◌, ◌/◌, length};
ghost use Rattle.lms_ots.specs.Sets.{chains_of, signature_length};
ghost use Rattle.lms_ots.specs.Chains.{Leaf, leaf_of, end_of};
ghost use Rattle.lms_ots.specs.Signatures.{signed_part, end_from};
ghost use Rattle.lms_ots.specs.Lanes.{end_of_lane, IsNumbered, LeadTo};

use crate::chains::start;
use crate::digits::digit_at;
use crate::lanes::ended;
use crate::sets::OtsSet;
use crate::signatures::part_of;
use sha256_lanes::Lane;

/// Chain `i` of a key, from its start to its last place.
fn key_lane(set: OtsSet, ident: &[u8; 16], q: u32, seed: &[u8; 32], i: u16) -> Lane
    ensures number { result.chain ≡ i }
    ensures end { i < chains_of set → end_of_lane (leaf_of ident.now q) result
        ≡ end_of set (leaf_of ident.now q) seed.now i }
{
    if i >= set.chains() {
        return ended(i, 0);
    }
    Lane {
        chain: i,
        place: 0,
        last: set.last(),
        value: start(ident, q, seed, i),
    }
}

/// The chains of a key.
pub(crate) fn key_lanes(set: OtsSet, ident: &[u8; 16], q: u32, seed: &[u8; 32]) -> [Lane; 72]
    ensures numbered { IsNumbered result }
    ensures ends { LeadTo (end_of set (leaf_of ident.now q) seed.now) (leaf_of ident.now q) result (chains_of set) }
{
    let mut lanes = [ended(0, 0); 72];
    'lanes: for i in 0..72 {
        lanes[i as usize] = key_lane(set, ident, q, seed, i);
    }
    lanes
}

/// Chain `i` of a signature, from its start to its digit.
fn signing_lane(
    set: OtsSet,
    ident: &[u8; 16],
    q: u32,
    seed: &[u8; 32],
    string: &[u8; 34],
    i: u16,
) -> Lane
    ensures number { result.chain ≡ i }
    ensures end { i < chains_of set → end_of_lane (leaf_of ident.now q) result
        ≡ signed_part set (leaf_of ident.now q) seed.now string.now i }
{
    if i >= set.chains() {
        return ended(i, 0);
    }
    Lane {
        chain: i,
        place: 0,
        last: digit_at(set, string, i),
        value: start(ident, q, seed, i),
    }
}

/// The chains of a signature.
pub(crate) fn signing_lanes(
    set: OtsSet,
    ident: &[u8; 16],
    q: u32,
    seed: &[u8; 32],
    string: &[u8; 34],
) -> [Lane; 72]
    ensures numbered { IsNumbered result }
    ensures ends { LeadTo (signed_part set (leaf_of ident.now q) seed.now string.now)
        (leaf_of ident.now q) result (chains_of set) }
{
    let mut lanes = [ended(0, 0); 72];
    'lanes: for i in 0..72 {
        lanes[i as usize] = signing_lane(set, ident, q, seed, string, i);
    }
    lanes
}

/// Chain `i` of a candidate, from a signature's part at its digit to its last place.
fn candidate_lane(set: OtsSet, string: &[u8; 34], signature: &[u8], i: u16) -> Lane
    requires { length signature.now ≡ signature_length set }
    ensures number { result.chain ≡ i }
    ensures end { (leaf : Leaf) → i < chains_of set →
        end_of_lane leaf result ≡ end_from set leaf string.now signature.now i }
{
    if i >= set.chains() {
        return ended(i, set.last());
    }
    Lane {
        chain: i,
        place: digit_at(set, string, i),
        last: set.last(),
        value: part_of(signature, i),
    }
}

/// The chains of a candidate.
pub(crate) fn candidate_lanes(set: OtsSet, string: &[u8; 34], signature: &[u8]) -> [Lane; 72]
    requires { length signature.now ≡ signature_length set }
    ensures numbered { IsNumbered result }
    ensures ends { (leaf : Leaf) → LeadTo (end_from set leaf string.now signature.now) leaf result (chains_of set) }
{
    let mut lanes = [ended(0, 0); 72];
    'lanes: for i in 0..72 {
        lanes[i as usize] = candidate_lane(set, string, signature, i);
    }
    lanes
}

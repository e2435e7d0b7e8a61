//! Digests as digits, and their checksum.
ghost use Rattle.std.specs.Prelude.{◌≡◌, ◌<◌, ◌≤◌, ◌*◌, ◌/◌, ◌^◌, length};
ghost use Rattle.lms_ots.specs.Sets.{width_of, last_of};
ghost use Rattle.lms_ots.specs.Digits.{coef, digit, missing, checksum as cksm, signed_string};

use crate::bytes::put;
use crate::sets::OtsSet;

/// The digit `i` of a string (RFC 8554, section 3.1.3).
pub(crate) fn digit_at(set: OtsSet, string: &[u8], i: u16) -> u8
    requires { i * width_of set / 8 < length string.now }
    ensures value { result ≡ digit set string.now i }
    ensures bound { result ≤ last_of set }
{
    match set {
        OtsSet::W4 => {
            let byte = string[i as usize * 4 / 8];
            15 & (byte >> (8 - (4 * (i % 2) + 4)))
        }
        OtsSet::W8 => {
            let byte = string[i as usize * 8 / 8];
            255 & (byte >> (8 - (8 * (i % 1) + 8)))
        }
    }
}

/// What the first `count` digits lack to the last place, in sum.
#[tactic(auto, unfolding(crate::specs::Digits::missing))]
fn missing_sum(set: OtsSet, digest: &[u8], count: u16) -> u16
    requires inside { count * width_of set ≤ 8 * length digest.now }
    requires fits { last_of set * count < 2 ^ 16 }
    ensures value { result ≡ missing set digest.now count }
    ensures bound { result ≤ last_of set * count }
{
    let mut sum = 0u16;
    for i in 0..count {
        sum += u16::from(set.last() - digit_at(set, digest, i));
    }
    sum
}

/// The checksum of a digest (RFC 8554, section 4.4).
fn checksum(set: OtsSet, digest: &[u8; 32]) -> u16
    ensures { result ≡ cksm set digest.now }
{
    match set {
        OtsSet::W4 => missing_sum(OtsSet::W4, digest, 64) * 16,
        OtsSet::W8 => missing_sum(OtsSet::W8, digest, 32),
    }
}

/// The digest followed by its checksum.
pub(crate) fn with_checksum(set: OtsSet, digest: &[u8; 32]) -> [u8; 34]
    ensures { result ≡ signed_string set digest.now }
{
    let mut string = [0u8; 34];
    put(&mut string, 0, digest);
    put(&mut string, 32, &checksum(set, digest).to_be_bytes());
    string
}

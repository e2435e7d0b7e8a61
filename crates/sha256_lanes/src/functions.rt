//! The six logical functions of SHA-256 (section 4.1.2), in each lane.
ghost use Rattle.std.specs.Prelude.{◌≡◌, ℕ, ◌<◌, slice_index};
ghost use Rattle.sha2.specs.Sha256.{big_sigma0, big_sigma1, ch, maj, small_sigma0, small_sigma1};

use crate::words::{Words, and, rotate_right, shift_right, xor};

/// Ch (equation 4.2), which takes the bits of `y` where `x` has a 1 and those of `z` elsewhere, in
/// three operations and no complement.
#[inline(always)]
pub(crate) fn ch(x: Words, y: Words, z: Words) -> Words
    ensures { (k : ℕ) → k < 8
        → slice_index result k ≡ ch (slice_index x k) (slice_index y k) (slice_index z k) }
{
    xor(z, and(x, xor(y, z)))
}

/// Maj (equation 4.3), which takes the bit that two or more of the three have, in four operations.
#[inline(always)]
pub(crate) fn maj(x: Words, y: Words, z: Words) -> Words
    ensures { (k : ℕ) → k < 8
        → slice_index result k ≡ maj (slice_index x k) (slice_index y k) (slice_index z k) }
{
    xor(y, and(xor(x, y), xor(y, z)))
}

/// The upper case sigma 0 (equation 4.4): the rotations by 2, 13 and 22, each inside of the one before.
#[inline(always)]
pub(crate) fn big_sigma0(x: Words) -> Words
    ensures { (k : ℕ) → k < 8 → slice_index result k ≡ big_sigma0 (slice_index x k) }
{
    let far = xor(x, rotate_right(x, 9));
    rotate_right(xor(x, rotate_right(far, 11)), 2)
}

/// The upper case sigma 1 (equation 4.5): the rotations by 6, 11 and 25, each inside of the one before.
#[inline(always)]
pub(crate) fn big_sigma1(x: Words) -> Words
    ensures { (k : ℕ) → k < 8 → slice_index result k ≡ big_sigma1 (slice_index x k) }
{
    let far = xor(x, rotate_right(x, 14));
    rotate_right(xor(x, rotate_right(far, 5)), 6)
}

/// The lower case sigma 0 (equation 4.6): the rotation by 18 inside of that by 7.
#[inline(always)]
pub(crate) fn small_sigma0(x: Words) -> Words
    ensures { (k : ℕ) → k < 8 → slice_index result k ≡ small_sigma0 (slice_index x k) }
{
    let both = rotate_right(xor(x, rotate_right(x, 11)), 7);
    xor(both, shift_right(x, 3))
}

/// The lower case sigma 1 (equation 4.7): the rotation by 19 inside of that by 17.
#[inline(always)]
pub(crate) fn small_sigma1(x: Words) -> Words
    ensures { (k : ℕ) → k < 8 → slice_index result k ≡ small_sigma1 (slice_index x k) }
{
    let both = rotate_right(xor(x, rotate_right(x, 2)), 17);
    xor(both, shift_right(x, 10))
}

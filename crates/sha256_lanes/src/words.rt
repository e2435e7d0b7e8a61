//! Operations on one word in each lane (section 3.2).
ghost use Rattle.std.specs.Prelude.{◌≡◌, ℕ, ◌-◌, ◌<◌, ◌*◌, ◌/◌, ◌%◌, ◌^◌, slice_index};
ghost use Rattle.std.specs.Prelude.{bit_and, bit_or, bit_xor, if◌then◌else◌, nat_lt};
ghost use Rattle.std.specs.Int.{w32, rotate_right};
ghost use Rattle.sha2.specs.Sha256.{add32};

use std::simd::prelude::*;
use std::simd::u32x8;

/// A word of 32 bits in each of the eight lanes.
pub(crate) type Words = u32x8;

/// The same word in each lane.
#[inline(always)]
pub(crate) fn splat(x: u32) -> Words
    ensures { (k : ℕ) → k < 8 → slice_index result k ≡ x }
{
    Words::splat(x)
}

/// The sums modulo 2^32 (section 3.2, operation 2).
#[inline(always)]
pub(crate) fn add(x: Words, y: Words) -> Words
    ensures { (k : ℕ) → k < 8 → slice_index result k ≡ add32 (slice_index x k) (slice_index y k) }
{
    x + y
}

/// The bitwise exclusive or (section 3.2, operation 1).
#[inline(always)]
pub(crate) fn xor(x: Words, y: Words) -> Words
    ensures { (k : ℕ) → k < 8 → slice_index result k ≡ bit_xor (slice_index x k) (slice_index y k) }
{
    x ^ y
}

/// The bitwise and (section 3.2, operation 1).
#[inline(always)]
pub(crate) fn and(x: Words, y: Words) -> Words
    ensures { (k : ℕ) → k < 8 → slice_index result k ≡ bit_and (slice_index x k) (slice_index y k) }
{
    x & y
}

/// The bitwise or (section 3.2, operation 1).
#[inline(always)]
pub(crate) fn or(x: Words, y: Words) -> Words
    ensures { (k : ℕ) → k < 8 → slice_index result k ≡ bit_or (slice_index x k) (slice_index y k) }
{
    x | y
}

/// SHR, the right shift (section 3.2, operation 3).
#[inline(always)]
pub(crate) fn shift_right(x: Words, by: u32) -> Words
    requires { by < 32 }
    ensures { (k : ℕ) → k < 8 → slice_index result k ≡ slice_index x k / 2 ^ by }
{
    x >> Words::splat(by)
}

/// The left shift: bits past the highest are dropped.
#[inline(always)]
pub(crate) fn shift_left(x: Words, by: u32) -> Words
    requires { by < 32 }
    ensures { (k : ℕ) → k < 8 → slice_index result k ≡ slice_index x k * 2 ^ by % 2 ^ 32 }
{
    x << Words::splat(by)
}

/// ROTR, the rotation to the right, as two shifts (section 3.2, operation 4).
#[inline(always)]
pub(crate) fn rotate_right(x: Words, by: u32) -> Words
    requires { (0 < by) × (by < 32) }
    ensures { (k : ℕ) → k < 8 → slice_index result k ≡ rotate_right w32 (slice_index x k) by }
{
    or(shift_right(x, by), shift_left(x, 32 - by))
}

/// The words of `x` in the lanes where `a` is below `b`, and those of `y` in the others.
#[inline(always)]
pub(crate) fn where_below(a: Words, b: Words, x: Words, y: Words) -> Words
    ensures { (k : ℕ) → k < 8 → slice_index result k
        ≡ (if nat_lt (slice_index a k) (slice_index b k) then slice_index x k else slice_index y k) }
{
    a.simd_lt(b).select(x, y)
}

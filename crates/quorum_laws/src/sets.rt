//! Sets of numbers below 32, as masks of bits.

ghost use Rattle.std.specs.Prelude.{◌≡◌, ℕ, ◌+◌, ◌≤◌, ◌&&◌, nat_lt};
ghost use Rattle.quorum_laws.specs.Sets.{size, members};

/// The common members of two sets of numbers below `n`.
///
/// A set is a mask: number i is a member where bit i is 1. Bits from `n` on are taken for no members, and an `n`
/// above 32 is as good as 32. Of two sets with |a| and |b| members at least |a| + |b| - n are common.
pub fn meet(a: u32, b: u32, n: u8) -> u32
    ensures common { (i : ℕ) → members result i ≡ (nat_lt i n && (members a i && members b i)) }
    ensures many { size (members a) n + size (members b) n ≤ n + size (members result) n }
{
    a & b & numbers_below(n)
}

/// The set of the numbers below `n`, or of all 32 where `n` is above 32.
fn numbers_below(n: u8) -> u32
    ensures { (i : ℕ) → members result i ≡ (nat_lt i n && nat_lt i 32) }
{
    if n < 32 { (1u32 << n) - 1 } else { u32::MAX }
}

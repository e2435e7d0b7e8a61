//! Counts, each at a place of its own.

ghost use Rattle.std.specs.Prelude.{◌≡◌, ℕ, ◌+◌, ◌-◌, ◌<◌, ◌^◌, ◌==◌, if◌then◌else◌};
ghost use Rattle.client_recover.specs.Counts.{count_at};

/// The count at a place; none behind the last.
pub(crate) fn count_of<const N: usize>(counts: &[u32; N], place: usize) -> u32
    ensures { result ≡ count_at counts.now place }
{
    if place < N { counts[place] } else { 0 }
}

/// Counts one more at a place.
pub(crate) fn raise<const N: usize>(counts: &mut [u32; N], raised: usize)
    requires place { raised < N }
    requires few { count_at counts.old raised + 1 < 2 ^ 32 }
    ensures { (place : ℕ) →
        count_at counts.new place ≡ count_at counts.old place + (if raised == place then 1 else 0) }
{
    counts[raised] += 1;
}

/// Counts one less at a place.
pub(crate) fn lower<const N: usize>(counts: &mut [u32; N], lowered: usize)
    ensures { (place : ℕ) →
        count_at counts.new place ≡ count_at counts.old place - (if lowered == place then 1 else 0) }
{
    if lowered < N {
        counts[lowered] = counts[lowered].saturating_sub(1);
    }
}

/// The small count at a place; none behind the last.
pub(crate) fn small_of<const N: usize>(counts: &[u8; N], place: usize) -> u8
    ensures { result ≡ count_at counts.now place }
{
    if place < N { counts[place] } else { 0 }
}

/// Counts one more at a place of small counts.
pub(crate) fn raise_small<const N: usize>(counts: &mut [u8; N], raised: usize)
    requires place { raised < N }
    requires few { count_at counts.old raised + 1 < 2 ^ 8 }
    ensures { (place : ℕ) →
        count_at counts.new place ≡ count_at counts.old place + (if raised == place then 1 else 0) }
{
    counts[raised] += 1;
}

/// Counts one less at a place of small counts.
pub(crate) fn lower_small<const N: usize>(counts: &mut [u8; N], lowered: usize)
    ensures { (place : ℕ) →
        count_at counts.new place ≡ count_at counts.old place - (if lowered == place then 1 else 0) }
{
    if lowered < N {
        counts[lowered] = counts[lowered].saturating_sub(1);
    }
}

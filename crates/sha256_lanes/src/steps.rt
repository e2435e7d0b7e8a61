//! One step of a chain in each lane.
ghost use Rattle.std.specs.Prelude.{◌≡◌, ℕ, ◌+◌, ◌<◌, ◌≤◌, ◌^◌, ◌∷◌, [], ◌++◌, length, slice_index};
ghost use Rattle.std.specs.Int.{w16, w32, to_be_bytes, from_be_bytes};
ghost use Rattle.sha2.specs.Sha256.{digest_bytes, word_at};
ghost use Rattle.sha256_lanes.specs.Chains.{head_of, message_of, step_of};
ghost use Rattle.sha256_lanes.specs.Lanes.{state_of, HoldsBlock, byte_of, padding_55};

use crate::compression::compress;
use crate::words::{Words, or, shift_left, shift_right, splat};

/// The word of four bytes, high byte first (section 5.2.1).
#[inline(always)]
pub(crate) fn word_in(bytes: &[u8], at: usize) -> u32
    requires { at + 4 ≤ length bytes.now }
    ensures { result ≡ word_at bytes.now at }
{
    u32::from_be_bytes([bytes[at], bytes[at + 1], bytes[at + 2], bytes[at + 3]])
}

/// What each message of a leaf begins with, as words: the identifier of its tree, and its number.
pub(crate) fn head_words(ident: &[u8; 16], q: u32) -> [u32; 5]
    ensures { digest_bytes result 5 ≡ head_of ident.now q }
{
    [
        word_in(ident, 0),
        word_in(ident, 4),
        word_in(ident, 8),
        word_in(ident, 12),
        q,
    ]
}

/// A word of the head, in each lane.
#[inline(always)]
fn head_word(x: u32) -> Words
    ensures { (k : ℕ) → k < 8
        → slice_index result k ≡ from_be_bytes w32 (byte_of x 0 ∷ byte_of x 1 ∷ byte_of x 2 ∷ byte_of x 3 ∷ []) }
{
    splat(x)
}

/// The word of the chain's number, the place and the first byte of the value, which begins with `first`.
#[inline(always)]
fn place_word(chains: Words, places: Words, first: Words) -> Words
    requires chains { (k : ℕ) → k < 8 → slice_index chains k < 2 ^ 16 }
    requires places { (k : ℕ) → k < 8 → slice_index places k < 2 ^ 8 }
    ensures { (k : ℕ) → k < 8 → slice_index result k
        ≡ from_be_bytes w32 (slice_index (to_be_bytes w16 (slice_index chains k)) 0
        ∷ slice_index (to_be_bytes w16 (slice_index chains k)) 1
        ∷ slice_index places k ∷ byte_of (slice_index first k) 0 ∷ []) }
{
    or(
        or(shift_left(chains, 16), shift_left(places, 8)),
        shift_right(first, 24),
    )
}

/// The last three bytes of a word of the value, and the first byte of the next one.
#[inline(always)]
fn shifted_word(word: Words, next: Words) -> Words
    ensures { (k : ℕ) → k < 8 → slice_index result k
        ≡ from_be_bytes w32 (byte_of (slice_index word k) 1 ∷ byte_of (slice_index word k) 2
        ∷ byte_of (slice_index word k) 3 ∷ byte_of (slice_index next k) 0 ∷ []) }
{
    or(shift_left(word, 8), shift_right(next, 24))
}

/// The last three bytes of the value, and the byte 0x80 that begins the padding (section 5.1.1).
#[inline(always)]
fn last_word(word: Words) -> Words
    ensures { (k : ℕ) → k < 8 → slice_index result k
        ≡ from_be_bytes w32 (byte_of (slice_index word k) 1 ∷ byte_of (slice_index word k) 2
        ∷ byte_of (slice_index word k) 3 ∷ 0x80 ∷ []) }
{
    or(shift_left(word, 8), splat(0x80))
}

/// The block of a step's message in each lane: the message, the byte 0x80, and the message's length of 440 bits as a
/// number of 64 bits (section 5.1.1).
#[inline(always)]
fn step_blocks(head: &[u32; 5], chains: Words, places: Words, values: [Words; 8]) -> [Words; 16]
    requires chains { (k : ℕ) → k < 8 → slice_index chains k < 2 ^ 16 }
    requires places { (k : ℕ) → k < 8 → slice_index places k < 2 ^ 8 }
    ensures { (k : ℕ) → k < 8 → HoldsBlock k result
        (message_of (digest_bytes head.now 5) (slice_index chains k) (slice_index places k)
        (digest_bytes (state_of k values) 8) ++ padding_55) }
{
    let [v0, v1, v2, v3, v4, v5, v6, v7] = values;
    [
        head_word(head[0]),
        head_word(head[1]),
        head_word(head[2]),
        head_word(head[3]),
        head_word(head[4]),
        place_word(chains, places, v0),
        shifted_word(v0, v1),
        shifted_word(v1, v2),
        shifted_word(v2, v3),
        shifted_word(v3, v4),
        shifted_word(v4, v5),
        shifted_word(v5, v6),
        shifted_word(v6, v7),
        last_word(v7),
        splat(0),
        splat(440),
    ]
}

/// One step in each lane, of the chain and at the place that the lane's word names: the SHA-256 of the lane's 55 bytes.
#[inline(always)]
pub(crate) fn step_each(
    head: &[u32; 5],
    chains: Words,
    places: Words,
    values: [Words; 8],
) -> [Words; 8]
    requires chains { (k : ℕ) → k < 8 → slice_index chains k < 2 ^ 16 }
    requires places { (k : ℕ) → k < 8 → slice_index places k < 2 ^ 8 }
    ensures { (k : ℕ) → k < 8 → digest_bytes (state_of k result) 8
        ≡ step_of (digest_bytes head.now 5) (slice_index chains k) (slice_index places k)
        (digest_bytes (state_of k values) 8) }
{
    compress(&step_blocks(head, chains, places, values))
}

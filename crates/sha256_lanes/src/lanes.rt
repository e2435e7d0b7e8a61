//! Eight chains side by side.
ghost use Rattle.std.specs.Prelude.{◌≡◌, ℕ, ◌+◌, ◌<◌, ◌≤◌, ◌^◌, [], if◌then◌else◌};
ghost use Rattle.std.specs.Prelude.{nat_lt, length, slice_index, slice_index_or};
ghost use Rattle.sha2.specs.Sha256.{digest_bytes, sha256, word_at};
ghost use Rattle.sha256_lanes.specs.Chains.{head_of, end_of_lane, message_of_lane, lane_of};
ghost use Rattle.sha256_lanes.specs.Lanes.{state_of};

use crate::steps::{head_words, step_each, word_in};
use crate::words::{Words, splat, where_below};

/// A chain on its way: its number, the place that it has come to, its last place, and its value here.
#[derive(Clone, Copy)]
pub struct Lane {
    /// The number of the chain.
    pub chain: u16,
    /// The place that it has come to. One past `last` has no step to go.
    pub place: u8,
    /// The place to which it goes.
    pub last: u8,
    /// The value at `place`.
    pub value: [u8; 32],
}

/// The number of a lane's chain, as a word.
#[inline(always)]
fn chain_in(lane: &Lane) -> u32
    ensures chain { result ≡ lane.now.chain }
    ensures small { result < 2 ^ 16 }
{
    u32::from(lane.chain)
}

/// The number of each lane's chain.
fn chains_in(lanes: &[Lane; 8]) -> Words
    ensures chains { (k : ℕ) → k < 8 → slice_index result k ≡ (lane_of lanes.now k).chain }
    ensures small { (k : ℕ) → k < 8 → slice_index result k < 2 ^ 16 }
{
    Words::from_array([
        chain_in(&lanes[0]),
        chain_in(&lanes[1]),
        chain_in(&lanes[2]),
        chain_in(&lanes[3]),
        chain_in(&lanes[4]),
        chain_in(&lanes[5]),
        chain_in(&lanes[6]),
        chain_in(&lanes[7]),
    ])
}

/// The place that each lane has come to.
fn places_in(lanes: &[Lane; 8]) -> Words
    ensures { (k : ℕ) → k < 8 → slice_index result k ≡ (lane_of lanes.now k).place }
{
    Words::from_array([
        u32::from(lanes[0].place),
        u32::from(lanes[1].place),
        u32::from(lanes[2].place),
        u32::from(lanes[3].place),
        u32::from(lanes[4].place),
        u32::from(lanes[5].place),
        u32::from(lanes[6].place),
        u32::from(lanes[7].place),
    ])
}

/// The place to which each lane goes.
fn lasts_in(lanes: &[Lane; 8]) -> Words
    ensures { (k : ℕ) → k < 8 → slice_index result k ≡ (lane_of lanes.now k).last }
{
    Words::from_array([
        u32::from(lanes[0].last),
        u32::from(lanes[1].last),
        u32::from(lanes[2].last),
        u32::from(lanes[3].last),
        u32::from(lanes[4].last),
        u32::from(lanes[5].last),
        u32::from(lanes[6].last),
        u32::from(lanes[7].last),
    ])
}

/// The word at byte `at` of a value. That it has 32 bytes is known where they are read.
#[inline(always)]
fn value_word(value: &[u8; 32], at: usize) -> u32
    requires { at + 4 ≤ 32 }
    ensures word { result ≡ word_at value.now at }
    ensures size { length value.now ≡ 32 }
    ensures bytes { (i : ℕ) → slice_index value.now i < 256 }
{
    word_in(value, at)
}

/// The word at byte `at` of each lane's value.
#[inline(always)]
fn words_in(lanes: &[Lane; 8], at: usize) -> Words
    requires { at + 4 ≤ 32 }
    ensures words { (k : ℕ) → k < 8 → slice_index result k ≡ word_at (lane_of lanes.now k).value at }
    ensures size { (k : ℕ) → k < 8 → length (lane_of lanes.now k).value ≡ 32 }
    ensures bytes { (k : ℕ) → k < 8 → (i : ℕ) → slice_index (lane_of lanes.now k).value i < 256 }
{
    Words::from_array([
        value_word(&lanes[0].value, at),
        value_word(&lanes[1].value, at),
        value_word(&lanes[2].value, at),
        value_word(&lanes[3].value, at),
        value_word(&lanes[4].value, at),
        value_word(&lanes[5].value, at),
        value_word(&lanes[6].value, at),
        value_word(&lanes[7].value, at),
    ])
}

/// The value of each lane, as words.
fn values_in(lanes: &[Lane; 8]) -> [Words; 8]
    ensures { (k : ℕ) → k < 8 → digest_bytes (state_of k result) 8 ≡ (lane_of lanes.now k).value }
{
    [
        words_in(lanes, 0),
        words_in(lanes, 4),
        words_in(lanes, 8),
        words_in(lanes, 12),
        words_in(lanes, 16),
        words_in(lanes, 20),
        words_in(lanes, 24),
        words_in(lanes, 28),
    ]
}

/// The bytes of lane `lane`: its eight words, high byte first (section 6.2.2).
fn bytes_of(values: &[Words; 8], lane: usize) -> [u8; 32]
    requires { lane < 8 }
    ensures { result ≡ digest_bytes (state_of lane values.now) 8 }
{
    let mut bytes = [0u8; 32];
    'words: for i in 0..8 {
        let lanes = values[i].to_array();
        bytes[4 * i..4 * i + 4].copy_from_slice(&lanes[lane].to_be_bytes());
    }
    bytes
}

/// The bytes of each lane.
fn all_bytes(values: &[Words; 8]) -> [[u8; 32]; 8]
    ensures { (k : ℕ) → k < 8 → slice_index_or result k [] ≡ digest_bytes (state_of k values.now) 8 }
{
    [
        bytes_of(values, 0),
        bytes_of(values, 1),
        bytes_of(values, 2),
        bytes_of(values, 3),
        bytes_of(values, 4),
        bytes_of(values, 5),
        bytes_of(values, 6),
        bytes_of(values, 7),
    ]
}

/// The word `next` in the lanes whose way lies at this place, and `old` in the others.
#[inline(always)]
fn kept(here: Words, from: Words, to: Words, next: Words, old: Words) -> Words
    ensures { (k : ℕ) → k < 8 → slice_index result k
        ≡ (if nat_lt (slice_index here k) (slice_index from k) then slice_index old k
        else (if nat_lt (slice_index here k) (slice_index to k) then slice_index next k else slice_index old k)) }
{
    where_below(here, from, old, where_below(here, to, next, old))
}

/// The values `next` in the lanes whose way lies at this place, and `old` in the others.
#[inline(always)]
fn kept_values(here: Words, from: Words, to: Words, next: [Words; 8], old: [Words; 8]) -> [Words; 8]
    ensures { (k : ℕ) → k < 8 → state_of k result
        ≡ (if nat_lt (slice_index here k) (slice_index from k) then state_of k old
        else (if nat_lt (slice_index here k) (slice_index to k) then state_of k next else state_of k old)) }
{
    let [n0, n1, n2, n3, n4, n5, n6, n7] = next;
    let [v0, v1, v2, v3, v4, v5, v6, v7] = old;
    [
        kept(here, from, to, n0, v0),
        kept(here, from, to, n1, v1),
        kept(here, from, to, n2, v2),
        kept(here, from, to, n3, v3),
        kept(here, from, to, n4, v4),
        kept(here, from, to, n5, v5),
        kept(here, from, to, n6, v6),
        kept(here, from, to, n7, v7),
    ]
}

/// A place before which no lane is.
fn lowest(lanes: &[Lane; 8]) -> u8
    ensures { (k : ℕ) → k < 8 → result ≤ (lane_of lanes.now k).place }
{
    let mut lowest = u8::MAX;
    'lanes: for k in 0..8 {
        lowest = lowest.min(lanes[k].place);
    }
    lowest
}

/// A place past which no lane goes.
fn highest(lanes: &[Lane; 8]) -> u8
    ensures { (k : ℕ) → k < 8 → (lane_of lanes.now k).last ≤ result }
{
    let mut highest = 0u8;
    'lanes: for k in 0..8 {
        highest = highest.max(lanes[k].last);
    }
    highest
}

/// The values in which eight chains end, as words. Takes as many steps as there are places from the lowest at which a
/// lane is to the highest to which one goes.
fn ends_of(head: &[u32; 5], lanes: &[Lane; 8]) -> [Words; 8]
    ensures { (k : ℕ) → k < 8 → digest_bytes (state_of k result) 8
        ≡ end_of_lane (digest_bytes head.now 5) (lane_of lanes.now k) }
{
    let chains = chains_in(lanes);
    let from = places_in(lanes);
    let to = lasts_in(lanes);
    let mut values = values_in(lanes);
    'steps: for j in lowest(lanes)..highest(lanes) {
        let here = splat(u32::from(j));
        let next = step_each(head, chains, here, values);
        let moved = kept_values(here, from, to, next, values);
        values = moved;
    }
    values
}

/// The values in which eight chains of leaf `q` end, in the order of the lanes. Takes as many steps as there are places
/// from the lowest at which a lane is to the highest to which one goes: lanes do best that are side by side on their
/// way.
pub fn run_chains(ident: &[u8; 16], q: u32, lanes: &[Lane; 8]) -> [[u8; 32]; 8]
    ensures ends { (k : ℕ) → k < 8
        → slice_index_or result k [] ≡ end_of_lane (head_of ident.now q) (lane_of lanes.now k) }
    ensures one_step { (k : ℕ) → k < 8 → (lane_of lanes.now k).last ≡ (lane_of lanes.now k).place + 1
        → slice_index_or result k [] ≡ sha256 (message_of_lane (head_of ident.now q) (lane_of lanes.now k)) }
{
    all_bytes(&ends_of(&head_words(ident, q), lanes))
}

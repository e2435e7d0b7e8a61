//! The hash computation of one block in each lane (section 6.2.2).
ghost use Rattle.std.specs.Prelude.{◌≡◌, ℕ, ◌+◌, ◌<◌, ◌≤◌, ◌*◌, slice_index, slice_set, List};
ghost use Rattle.sha2.specs.Sha256.{round, rounds, schedule, window_word, compress};
ghost use Rattle.sha2.specs.Sha256.{initial_hash_256, IsWindow, IsRoundsAt};
ghost use Rattle.sha256_lanes.specs.Lanes.{state_of, block_of, HoldsBlock};

use crate::constants::{INITIAL_HASH, ROUND_CONSTANTS};
use crate::functions::{big_sigma0, big_sigma1, ch, maj, small_sigma0, small_sigma1};
use crate::words::{Words, add, splat};

/// The next word W(t) of the message schedule (section 6.2.2, step 1), where `place` is t modulo 16.
/// The window holds the 16 words before it, and W(t) is written over W(t - 16).
#[inline(always)]
fn next_word(window: &mut [Words; 16], place: usize) -> Words
    requires { place < 16 }
    ensures value { (k : ℕ) → k < 8
        → slice_index result k ≡ window_word (block_of k window.old) place }
    ensures written { (k : ℕ) → k < 8
        → block_of k window.new ≡ slice_set (block_of k window.old) place (slice_index result k) }
{
    let near = add(
        small_sigma1(window[(place + 14) % 16]),
        window[(place + 9) % 16],
    );
    let far = add(near, small_sigma0(window[(place + 1) % 16]));
    let word = add(far, window[place]);
    window[place] = word;
    word
}

/// One round on the working variables a to h (section 6.2.2, step 3), with its constant K(t) and word W(t).
#[inline(always)]
fn round(working: [Words; 8], constant: u32, word: Words) -> [Words; 8]
    ensures { (k : ℕ) → k < 8
        → state_of k result ≡ round (state_of k working) constant (slice_index word k) }
{
    let [a, b, c, d, e, f, g, h] = working;
    let sum1 = add(h, big_sigma1(e));
    let sum2 = add(sum1, ch(e, f, g));
    let sum3 = add(sum2, splat(constant));
    let temp1 = add(sum3, word);
    let temp2 = add(big_sigma0(a), maj(a, b, c));
    let first = add(temp1, temp2);
    let fifth = add(d, temp1);
    [first, a, b, c, fifth, e, f, g]
}

/// Round `t` of the first 16, whose words are the block's.
#[inline(always)]
fn first_step(words: &[Words; 16], working: [Words; 8], t: usize) -> [Words; 8]
    requires { t < 16 }
    ensures { (k : ℕ) (b h : List ℕ) → k < 8 → IsWindow (block_of k words.now) (schedule b 48) 16
        → state_of k working ≡ rounds h (schedule b 48) t
        → state_of k result ≡ rounds h (schedule b 48) (t + 1) }
{
    round(working, ROUND_CONSTANTS[t], words[t])
}

/// Four of the first 16 rounds, from round `t` on.
#[inline(always)]
fn first_four_steps(words: &[Words; 16], working: [Words; 8], t: usize) -> [Words; 8]
    requires { t + 4 ≤ 16 }
    ensures { (k : ℕ) (b h : List ℕ) → k < 8 → IsWindow (block_of k words.now) (schedule b 48) 16
        → state_of k working ≡ rounds h (schedule b 48) t
        → state_of k result ≡ rounds h (schedule b 48) (t + 4) }
{
    let v = first_step(words, working, t);
    let v = first_step(words, v, t + 1);
    let v = first_step(words, v, t + 2);
    first_step(words, v, t + 3)
}

/// Round `16 * turn + place`, from round 16 on, with the next word of the schedule.
#[inline(always)]
fn step(window: &mut [Words; 16], working: [Words; 8], turn: usize, place: usize) -> [Words; 8]
    requires low { 1 ≤ turn }
    requires high { turn < 4 }
    requires place { place < 16 }
    ensures { (k : ℕ) (b h : List ℕ) → k < 8
        → IsRoundsAt b h (block_of k window.old) (state_of k working) (16 * turn + place)
        → IsRoundsAt b h (block_of k window.new) (state_of k result) (16 * turn + (place + 1)) }
{
    let word = next_word(window, place);
    round(working, ROUND_CONSTANTS[16 * turn + place], word)
}

/// Four rounds, from round `16 * turn + place` on.
#[inline(always)]
fn four_steps(
    window: &mut [Words; 16],
    working: [Words; 8],
    turn: usize,
    place: usize,
) -> [Words; 8]
    requires low { 1 ≤ turn }
    requires high { turn < 4 }
    requires place { place + 4 ≤ 16 }
    ensures { (k : ℕ) (b h : List ℕ) → k < 8
        → IsRoundsAt b h (block_of k window.old) (state_of k working) (16 * turn + place)
        → IsRoundsAt b h (block_of k window.new) (state_of k result) (16 * turn + (place + 4)) }
{
    let v = step(window, working, turn, place);
    let v = step(window, v, turn, place + 1);
    let v = step(window, v, turn, place + 2);
    step(window, v, turn, place + 3)
}

/// The first 16 rounds, from the working variables `start`.
#[inline(always)]
fn first_sixteen_steps(words: &[Words; 16], start: [Words; 8]) -> [Words; 8]
    ensures { (k : ℕ) (b : List ℕ) → k < 8 → IsWindow (block_of k words.now) (schedule b 48) 16
        → state_of k result ≡ rounds (state_of k start) (schedule b 48) 16 }
{
    let v = first_four_steps(words, start, 0);
    let v = first_four_steps(words, v, 4);
    let v = first_four_steps(words, v, 8);
    first_four_steps(words, v, 12)
}

/// Sixteen rounds, from round `16 * turn` on.
#[inline(always)]
fn sixteen_steps(window: &mut [Words; 16], working: [Words; 8], turn: usize) -> [Words; 8]
    requires low { 1 ≤ turn }
    requires high { turn < 4 }
    ensures { (k : ℕ) (b h : List ℕ) → k < 8
        → IsRoundsAt b h (block_of k window.old) (state_of k working) (16 * turn)
        → IsRoundsAt b h (block_of k window.new) (state_of k result) (16 * (turn + 1)) }
{
    let v = four_steps(window, working, turn, 0);
    let v = four_steps(window, v, turn, 4);
    let v = four_steps(window, v, turn, 8);
    four_steps(window, v, turn, 12)
}

/// The initial hash value (section 5.3.3) in each lane.
#[inline(always)]
fn initial_state() -> [Words; 8]
    ensures { (k : ℕ) → k < 8 → state_of k result ≡ initial_hash_256 }
{
    [
        splat(INITIAL_HASH[0]),
        splat(INITIAL_HASH[1]),
        splat(INITIAL_HASH[2]),
        splat(INITIAL_HASH[3]),
        splat(INITIAL_HASH[4]),
        splat(INITIAL_HASH[5]),
        splat(INITIAL_HASH[6]),
        splat(INITIAL_HASH[7]),
    ]
}

/// The 64 rounds (section 6.2.2, steps 1 to 3) of the block `words`, from the hash value `start`.
#[inline(always)]
fn all_rounds(words: &[Words; 16], start: [Words; 8]) -> [Words; 8]
    ensures { (k : ℕ) (b : List ℕ) → k < 8 → HoldsBlock k words.now b
        → state_of k result ≡ rounds (state_of k start) (schedule b 48) 64 }
{
    let mut window = *words;
    let mut v = first_sixteen_steps(&window, start);
    'schedule: for turn in 1..4 {
        let next = sixteen_steps(&mut window, v, turn);
        v = next;
    }
    v
}

/// The hash value after one block in each lane: the initial value with the rounds added (section 6.2.2, step 4).
pub(crate) fn compress(words: &[Words; 16]) -> [Words; 8]
    ensures { (k : ℕ) (b : List ℕ) → k < 8 → HoldsBlock k words.now b
        → state_of k result ≡ compress initial_hash_256 b }
{
    let start = initial_state();
    let [h0, h1, h2, h3, h4, h5, h6, h7] = start;
    let [a, b, c, d, e, f, g, h] = all_rounds(words, start);
    [
        add(h0, a),
        add(h1, b),
        add(h2, c),
        add(h3, d),
        add(h4, e),
        add(h5, f),
        add(h6, g),
        add(h7, h),
    ]
}

//! Hash chains side by side, eight at a time.
ghost use Rattle.std.specs.Prelude.{◌≡◌, ◌≢◌, ℕ, ◌+◌, ◌-◌, ◌%◌, ◌<◌, ◌≤◌, [], slice_index_or};
ghost use Rattle.sha256_lanes.specs.Chains.{lane_of};
ghost use Rattle.lms_ots.specs.Chains.{leaf_of};
ghost use Rattle.lms_ots.specs.Lanes.{steps_left, end_of_lane, IsNumbered, HoldsEnds};

use sha256_lanes::{Lane, run_chains};

/// A lane that has no step to go, and is at this place.
pub(crate) fn ended(chain: u16, place: u8) -> Lane
    ensures chain { result.chain ≡ chain }
    ensures ended { steps_left result ≡ 0 }
{
    Lane {
        chain,
        place,
        last: place,
        value: [0u8; 32],
    }
}

/// The steps that a lane has still to go.
fn left(lane: &Lane) -> u8
    ensures { result ≡ steps_left lane.now }
{
    lane.last.saturating_sub(lane.place)
}

/// The lanes, those with most steps to go first, so that lanes which run together end together.
fn longest_first(lanes: &[Lane; 72]) -> [Lane; 72]
    requires { IsNumbered lanes.now }
    ensures bound { (m : ℕ) → m < 72 → (lane_of result m).chain < 72 }
    ensures same { (m : ℕ) → m < 72 → lane_of lanes.now (lane_of result m).chain ≡ lane_of result m }
    ensures all { (i : ℕ) → i < 72 → (m : ℕ) × (m < 72) × (lane_of result m ≡ lane_of lanes.now i) }
{
    let mut order = *lanes;
    order.sort_unstable_by_key(|lane| 255 - left(lane));
    order
}

/// The ends of the eight lanes from `first` on.
fn run_from(ident: &[u8; 16], q: u32, lanes: &[Lane; 72], first: usize) -> [[u8; 32]; 8]
    requires { first + 8 ≤ 72 }
    ensures { HoldsEnds (leaf_of ident.now q) lanes.now first result }
{
    let eight = [
        lanes[first],
        lanes[first + 1],
        lanes[first + 2],
        lanes[first + 3],
        lanes[first + 4],
        lanes[first + 5],
        lanes[first + 6],
        lanes[first + 7],
    ];
    run_chains(ident, q, &eight)
}

/// The ends of the eight lanes among which lane `n` is: those at hand, or new ones at the first of eight.
fn ends_at(
    ident: &[u8; 16],
    q: u32,
    lanes: &[Lane; 72],
    n: usize,
    at_hand: [[u8; 32]; 8],
) -> [[u8; 32]; 8]
    requires inside { n < 72 }
    requires at_hand { n % 8 ≢ 0 → HoldsEnds (leaf_of ident.now q) lanes.now (n - n % 8) at_hand }
    ensures { HoldsEnds (leaf_of ident.now q) lanes.now (n - n % 8) result }
{
    if n % 8 == 0 {
        run_from(ident, q, lanes, n)
    } else {
        at_hand
    }
}

/// The ends of chains 0 to 71, each at its number.
pub(crate) fn run_all(ident: &[u8; 16], q: u32, lanes: &[Lane; 72]) -> [[u8; 32]; 72]
    requires { IsNumbered lanes.now }
    ensures { (i : ℕ) → i < 72
        → slice_index_or result i [] ≡ end_of_lane (leaf_of ident.now q) (lane_of lanes.now i) }
{
    let order = longest_first(lanes);
    let mut ends = [[0u8; 32]; 72];
    let mut group = [[0u8; 32]; 8];
    'lanes: for n in 0..72 {
        let next = ends_at(ident, q, &order, n, group);
        group = next;
        ends[order[n].chain as usize] = group[n % 8];
    }
    ends
}

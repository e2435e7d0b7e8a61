//! Sets of replicas as masks.

use quorum_laws::meet;

/// Two sets, a bound, and what they have in common below it.
const MEETINGS: &[(u32, u32, u8, u32)] = &[
    (0b001111, 0b111100, 6, 0b001100),
    (0b111111, 0b111111, 5, 0b011111),
    (0b101010, 0b010101, 6, 0),
    (u32::MAX, u32::MAX, 32, u32::MAX),
    (u32::MAX, 1 << 31, 255, 1 << 31),
    (u32::MAX, u32::MAX, 0, 0),
];

#[test]
fn sets_have_their_common_members(rt: HostRuntime) {
    for &(a, b, n, common) in MEETINGS {
        assert!(rt; meet(a, b, n) == common, "{a} and {b} below {n}");
    }
}

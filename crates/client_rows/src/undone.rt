//! What a client holds of the frames that it took, and what it goes back to.

use crate::pursuing::{Asked, are_answered};
use std::test::Fail;

/// The shards of the cluster, the frames, and how many votes and log replies are held.
const HELD: &[(u8, &str, &str)] = &[
    (1, "c00", "1"),
    (1, "c00 a01", "2"),
    (2, "c00 c10", "2"),
    // A replica's votes after its first don't count, and each of its log replies does.
    (1, "c00 c00", "1"),
    (1, "c00 a00", "1"),
    (1, "C0000", "1"),
    (1, "C0000 C0000", "2"),
    (1, "C0000 C0001 A0012", "3"),
    (1, "c00 C0103 a00 A0103 c00", "3"),
    // A certificate isn't counted, nor what comes after an outcome.
    (1, "w", "0"),
    (1, "c00 C0000 w", "2"),
    (1, "w c00 C0000", "0"),
    (1, "p03 c00", "1"),
    (1, "a00 a01 a02 a03 a04", "4"),
];

#[test]
fn votes_count_once_and_log_replies_each(rt: HostRuntime) -> Result<(), Fail> {
    are_answered(&rt, rt.alloc(), HELD, Asked::Held)
}

/// The shards of the cluster, the frames, how many are held without the last add, and what is decided then.
const UNDONE: &[(u8, &str, &str)] = &[
    // A vote, and one that decides.
    (1, "c00 c01", "1"),
    (1, "c05 c04 c03 c02 c01 c00", "5"),
    (1, "a00 a01 a02 a03", "3"),
    (1, "c00 p03", "1"),
    // A log reply, and one that decides.
    (1, "C0000", "0"),
    (1, "C0203 C0205", "1"),
    (1, "C0000 C0100 C0200 C0300 C0400", "4"),
    // A certificate.
    (1, "w", "0"),
    (1, "c00 C0000 x", "2"),
    // What changed nothing.
    (1, "c00 a00", "1"),
    (1, "w x", "0 fast commit 0:012345"),
    (1, "w c00", "0 fast commit 0:012345"),
    (1, "p03 C0000", "1 conflict 0:3"),
    // A frame that was refused: the last add is the one before it.
    (2, "c00 c01 !C1000", "1"),
    (2, "C0000 !C1000", "0"),
    (2, "w !C1000", "0"),
    // What was taken back before.
    (1, "c00 c01 u", "1"),
    (1, "c00 u", "0"),
    (1, "c00 c01 u c02", "1"),
    (1, "w u c00", "0"),
];

#[test]
fn the_last_add_is_taken_back_once(rt: HostRuntime) -> Result<(), Fail> {
    are_answered(&rt, rt.alloc(), UNDONE, Asked::Back)
}

//! The lines of a replica's votes, decisions and logs.

use crate::lines::{Row, are_told};

const ROWS: &[Row] = &[
    // Votes with the least numbers and with the greatest, one for each decision.
    (b"vote 0 0 a commit 1", 0),
    (b"vote 7 30 a abort 16", 0),
    // The same of log replies.
    (b"logged 0 0 a commit 0 0 1", 0),
    (
        b"logged 7 30 a abort 18446744073709551615 18446744073709551615 16",
        0,
    ),
    // The current view may be above the decided one.
    (b"logged 0 0 a commit 1 2 1", 0),
    // Election words of the views 1 and 2^64 - 1, the least and the greatest.
    (b"elect 0 0 a commit 1", 0),
    (b"elect 7 30 a abort 18446744073709551615", 0),
    // Decide frames, the same, for replica 0 and for replica 30.
    (b"decide 0 0 a commit 1 0", 0),
    (b"decide 7 30 a abort 18446744073709551615 30", 0),
    // A frame of one zero byte.
    (b"show 00", 0),
    // A decision has no capital letter (reason 2).
    (b"vote 0 0 a Commit 1", 2),
    // The client is missing (reason 2).
    (b"vote 0 0 a commit", 2),
    // The frame is missing (reason 2).
    (b"show", 2),
    // A byte has two digits (reason 2).
    (b"show 0", 2),
    // A frame is one token, and here it is two (reason 2).
    (b"show 00 00", 2),
    // A log reply lacks the client that it goes to (reason 2).
    (b"logged 0 0 a commit 1 1", 2),
    // An election word lacks the view (reason 2).
    (b"elect 0 0 a commit", 2),
    // A decide frame lacks the replica that it goes to (reason 2).
    (b"decide 0 0 a commit 1", 2),
    // No client has the number 17 (reason 3).
    (b"vote 0 0 a commit 17", 3),
    // The current view is below the decided one (reason 3).
    (b"logged 0 0 a commit 2 1 1", 3),
    // A view is 2^64 (reason 3).
    (b"logged 0 0 a commit 1 18446744073709551616 1", 3),
    // The view of an election isn't 0 (reason 3).
    (b"elect 0 0 a commit 0", 3),
    (b"decide 0 0 a commit 0 0", 3),
    // No cluster has a replica 31 (reason 3).
    (b"decide 0 0 a commit 1 31", 3),
    // A decision that is neither is told before a client that nobody is (reason 2).
    (b"vote 0 0 a maybe 17", 2),
];

#[test]
fn each_line_is_read_or_refused(rt: HostRuntime) {
    are_told(&rt, rt.alloc(), ROWS);
}

//! The lines that begin transactions and carry them on.

use crate::lines::{Row, are_told};

const ROWS: &[Row] = &[
    // A name of one letter with the least numbers, and one of 16 letters with the greatest.
    (b"begin a 1 0", 0),
    (b"begin abcdefghijklmnop 16 18446744073709551615", 0),
    // Digits may stand behind the first letter of a name.
    (b"begin a0 1 1", 0),
    // A transaction is formed, settled by the first client, and taken up by the last.
    (b"prepare a", 0),
    (b"settle a 1", 0),
    (b"recover a 16", 0),
    // Second stages with either decision, for the first replica and the last.
    (b"second a commit 0", 0),
    (b"second a abort 30", 0),
    // A token too few, and one too many (reason 2).
    (b"begin a 1", 2),
    (b"begin a 1 2 3", 2),
    // A name has no capital letter (reason 2).
    (b"begin A 1 2", 2),
    (b"begin aB 1 2", 2),
    // A name begins with a letter (reason 2).
    (b"begin 1a 1 2", 2),
    // A name has letters and digits alone (reason 2).
    (b"begin a-b 1 2", 2),
    // A name of 17 letters (reason 2).
    (b"begin abcdefghijklmnopq 1 2", 2),
    // `-` is no name (reason 2).
    (b"begin - 1 2", 2),
    // The byte 7f in a name (reason 2).
    (b"begin a\x7f 1 2", 2),
    // A name has ASCII alone, and not the bytes c3 a9, an e with an accent in UTF-8 (reason 2).
    (b"begin a\xc3\xa9 1 2", 2),
    // A token is missing, or there is one too many (reason 2).
    (b"prepare", 2),
    (b"prepare a b", 2),
    (b"settle a", 2),
    (b"settle a 1 1", 2),
    // The decision and the replica have changed places (reason 2).
    (b"second a 0 commit", 2),
    // A client is 1 to 16, and here 0 and 17 (reason 3).
    (b"begin a 0 1", 3),
    (b"begin a 17 1", 3),
    // A client and a time have a leading zero (reason 3).
    (b"begin a 01 1", 3),
    (b"begin a 1 00", 3),
    // No client has the number 0 (reason 3).
    (b"settle a 0", 3),
    // No cluster has a replica 31 (reason 3).
    (b"second a commit 31", 3),
    // A misspelt name is told before a leading zero (reason 2).
    (b"begin A 01 1", 2),
];

#[test]
fn each_line_is_read_or_refused(rt: HostRuntime) {
    are_told(&rt, rt.alloc(), ROWS);
}

//! The lines of faulty parties.

use crate::lines::{Row, are_told};

const ROWS: &[Row] = &[
    // The first replica of the first shard, and the last one of the last shard that any cluster has.
    (b"faulty replica 0 0", 0),
    (b"faulty replica 7 30", 0),
    // The first client, and the last.
    (b"faulty client 1", 0),
    (b"faulty client 16", 0),
    // A claim of a read of genesis.
    (b"claim a k -", 0),
    // A claim of a read of the version of b.
    (b"claim a k b", 0),
    // Client 1 asks for an election.
    (b"invoke a 1", 0),
    // Messages are diverted: the first to a client, and the one with the greatest number to a replica.
    (b"divert 1 client 1", 0),
    (b"divert 18446744073709551615 replica 7 30", 0),
    // Tokens are missing, or there is one too many (reason 2).
    (b"faulty", 2),
    (b"faulty client", 2),
    (b"faulty client 1 2", 2),
    (b"faulty replica 0", 2),
    (b"faulty replica 0 0 0", 2),
    // A party is a replica or a client (reason 2).
    (b"faulty node 1", 2),
    // A letter instead of a client's number (reason 2).
    (b"faulty client x", 2),
    // The writer is missing (reason 2).
    (b"claim a k", 2),
    // A writer is a name or `-` alone (reason 2).
    (b"claim a k B", 2),
    (b"claim a k --", 2),
    // The number of the message is missing (reason 2).
    (b"divert client 1", 2),
    // The number of the client is missing (reason 2).
    (b"divert 1 client", 2),
    // A client is 1 to 16, and here 0 and 17 (reason 3).
    (b"faulty client 0", 3),
    (b"faulty client 17", 3),
    // No cluster has a shard 8 (reason 3).
    (b"faulty replica 8 0", 3),
    // No cluster has a replica 31 (reason 3).
    (b"faulty replica 0 31", 3),
    // A shard and a message's number have a leading zero (reason 3).
    (b"faulty replica 00 0", 3),
    (b"divert 01 client 1", 3),
    // A key of 65 bytes (reason 8).
    (
        b"claim a kkkkkkkkkkkkkkkkkkkkkkkkkkkkkkkkkkkkkkkkkkkkkkkkkkkkkkkkkkkkkkkkk -",
        8,
    ),
    // A writer that is misspelt, with a capital letter, is told before a key of 65 bytes (reason 2).
    (
        b"claim a kkkkkkkkkkkkkkkkkkkkkkkkkkkkkkkkkkkkkkkkkkkkkkkkkkkkkkkkkkkkkkkkk B",
        2,
    ),
];

#[test]
fn each_line_is_read_or_refused(rt: HostRuntime) {
    are_told(&rt, rt.alloc(), ROWS);
}

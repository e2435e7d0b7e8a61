//! The words that parties sign.

use basil_types::party::Decision;
use basil_types::version::Version;
use basil_types::words::Words;

const SEVENS: [u8; 32] = [7; 32];

const COMMITTED: Version = Version {
    time: 5,
    client: 4,
    id: [6; 32],
};

// A client's words: 1, the id.
const TRANSACTION: &[u8] = &[
    1, 7, 7, 7, 7, 7, 7, 7, 7, 7, 7, 7, 7, 7, 7, 7, 7, 7, 7, 7, 7, 7, 7, 7, 7, 7, 7, 7, 7, 7, 7, 7,
    7,
];

// A vote: 2, shard 1, replica 2, the id, 1 for abort.
const VOTE: &[u8] = &[
    2, 1, 2, 7, 7, 7, 7, 7, 7, 7, 7, 7, 7, 7, 7, 7, 7, 7, 7, 7, 7, 7, 7, 7, 7, 7, 7, 7, 7, 7, 7, 7,
    7, 7, 7, 1,
];

// A read's answer: 3, shard 1, replica 2, the key a behind its length, time 10, client 3, the committed version and
// genesis.
const READ_REPLY: &[u8] = &[
    3, 1, 2, 1, 0x61, 0, 0, 0, 0, 0, 0, 0, 10, 3, 0, 0, 0, 0, 0, 0, 0, 5, 4, 6, 6, 6, 6, 6, 6, 6,
    6, 6, 6, 6, 6, 6, 6, 6, 6, 6, 6, 6, 6, 6, 6, 6, 6, 6, 6, 6, 6, 6, 6, 6, 6, 0, 0, 0, 0, 0, 0, 0,
    0, 0, 0, 0, 0, 0, 0, 0, 0, 0, 0, 0, 0, 0, 0, 0, 0, 0, 0, 0, 0, 0, 0, 0, 0, 0, 0, 0, 0, 0, 0, 0,
    0, 0,
];

// A log reply: 4, shard 1, replica 2, the id, 0 for commit, the views 1 and 258.
const LOG_REPLY: &[u8] = &[
    4, 1, 2, 7, 7, 7, 7, 7, 7, 7, 7, 7, 7, 7, 7, 7, 7, 7, 7, 7, 7, 7, 7, 7, 7, 7, 7, 7, 7, 7, 7, 7,
    7, 7, 7, 0, 0, 0, 0, 0, 0, 0, 0, 1, 0, 0, 0, 0, 0, 0, 1, 2,
];

// A word of an election: 5, shard 1, replica 2, the id, 0 for commit, the view 3.
const ELECTION: &[u8] = &[
    5, 1, 2, 7, 7, 7, 7, 7, 7, 7, 7, 7, 7, 7, 7, 7, 7, 7, 7, 7, 7, 7, 7, 7, 7, 7, 7, 7, 7, 7, 7, 7,
    7, 7, 7, 0, 0, 0, 0, 0, 0, 0, 0, 3,
];

// A proposal: 6, shard 1, replica 2, the id, 1 for abort, the view 3.
const PROPOSAL: &[u8] = &[
    6, 1, 2, 7, 7, 7, 7, 7, 7, 7, 7, 7, 7, 7, 7, 7, 7, 7, 7, 7, 7, 7, 7, 7, 7, 7, 7, 7, 7, 7, 7, 7,
    7, 7, 7, 1, 0, 0, 0, 0, 0, 0, 0, 3,
];

#[test]
fn words_have_their_bytes(rt: HostRuntime) {
    let rows = [
        (Words::transaction(&SEVENS), TRANSACTION),
        (Words::vote(1, 2, &SEVENS, Decision::Abort), VOTE),
        (
            Words::read_reply(1, 2, b"a", 10, 3, COMMITTED, Version::genesis()),
            READ_REPLY,
        ),
        (
            Words::log_reply(1, 2, &SEVENS, Decision::Commit, 1, 258),
            LOG_REPLY,
        ),
        (
            Words::election(1, 2, &SEVENS, Decision::Commit, 3),
            ELECTION,
        ),
        (Words::proposal(1, 2, &SEVENS, Decision::Abort, 3), PROPOSAL),
    ];
    for (words, bytes) in &rows {
        assert!(rt; words.bytes() == *bytes);
    }
}

//! Nodes that serve.

use crate::frames::{BAD, FILE, FIRST, NONE, SEED, VOTE, WRITEBACK};
use crate::support::{Given, Row, are_answered};
use basil_cli::status::Status;
use std::test::Fail;

/// As replica 0 of shard 0, from leaf 0 on, over two connections.
const TWO: &[&str] = &["node", "0", "0", SEED, "0", "2"];

const ONE: &[&str] = &["node", "0", "0", SEED, "0", "1"];

/// Behind the last leaf.
const SPENT: &[&str] = &["node", "0", "0", SEED, "32", "1"];

/// A client's first stage and its writeback, one on each connection.
const BOTH: Given = Given {
    connections: &[FIRST, WRITEBACK],
    ..Given::NOTHING
};

/// A byte that is no frame, and a first stage.
const BAD_FIRST: Given = Given {
    connections: &[BAD, FIRST],
    ..Given::NOTHING
};

/// It fails to listen.
const DEAF: Given = Given {
    failing_links: &[1],
    ..BOTH
};

/// It fails to accept the first connection.
const UNMET: Given = Given {
    failing_links: &[2],
    ..BOTH
};

/// It fails to accept the second connection.
const MET_ONCE: Given = Given {
    failing_links: &[6],
    ..BOTH
};

/// The first read fails.
const UNHEARD: Given = Given {
    failing_links: &[3],
    ..BAD_FIRST
};

/// The first write fails.
const MUTE: Given = Given {
    failing_links: &[4],
    ..BAD_FIRST
};

/// The file can't be read.
const UNREAD: Given = Given {
    failing_reads: &[1],
    ..BOTH
};

/// The sink can't be written.
const UNWRITTEN: Given = Given {
    failing_writes: &[1],
    ..BOTH
};

const ROWS: &[Row] = &[
    // The replica votes to commit, and then learns that it is.
    (TWO, BOTH, Status::Done, "served 2\n", &[VOTE, NONE]),
    // One connection is served.
    (ONE, BOTH, Status::Done, "served 1\n", &[VOTE]),
    // What is no frame is handed to the replica too, which refuses it.
    (TWO, BAD_FIRST, Status::Done, "served 2\n", &[NONE, VOTE]),
    // No leaf is left for a vote, so the first stage is refused.
    (SPENT, BOTH, Status::Done, "served 1\n", &[NONE]),
    // Nothing comes on either connection.
    (TWO, Given::NOTHING, Status::Done, "served 0\n", &[]),
    // It fails to listen, and to accept the first and the second connection.
    (TWO, DEAF, Status::LinkFault, "link fault\n", &[]),
    (TWO, UNMET, Status::LinkFault, "link fault\n", &[]),
    (TWO, MET_ONCE, Status::LinkFault, "link fault\n", &[VOTE]),
    // The first read fails, and the second connection is served.
    (TWO, UNHEARD, Status::Done, "served 1\n", &[VOTE]),
    // The first write fails: its frame was handled.
    (TWO, MUTE, Status::Done, "served 2\n", &[VOTE]),
    // The file can't be read.
    (TWO, UNREAD, Status::ReadFault, "read fault\n", &[]),
    // The number can't be written, behind what was served.
    (TWO, UNWRITTEN, Status::WriteFault, "", &[VOTE, NONE]),
];

#[test]
fn nodes_serve(rt: HostRuntime) -> Result<(), Fail> {
    are_answered(&rt, rt.alloc(), FILE, ROWS)
}

//! Every reason that the cluster and the run show, with its causes.
//!
//! A row says what it shows, and then has its lines behind the header. The last line is refused, and no line before it.
//! `33 * LINES` stands for the lines 33 times, with the numbers 0 to 32 for `#`.

use crate::support::is_refused;
use crate::texts::{count_lines, laid_out};
use std::alloc::Global;
use std::process::Abort;
use std::test::Fail;

/// Two shards of six replicas, of which each may have one that is faulty.
const TWO_SHARDS: &str = "basil 1 f=1 shards=2 reads=2 delta=100 clock=50 keys=plain\n";

/// One replica. Each party's key has 32 leaves.
const ONE_REPLICA: &str = "basil 1 f=0 shards=1 reads=1 delta=100 clock=50 keys=w4h5\n";

/// Six replicas, of which one may be faulty. Each party's key has 32 leaves.
const SIX_REPLICAS: &str = "basil 1 f=1 shards=1 reads=2 delta=100 clock=50 keys=w4h5\n";

/// Reason 3: the cluster has no such replica.
const OUTSIDE: &[&str] = &[
    "a faulty replica of shard 2: faulty replica 2 0",
    "a faulty replica 6: faulty replica 0 6",
    "a message for a replica of shard 2: divert 1 replica 2 0",
    "a message for replica 6: divert 1 replica 0 6",
    "the clock of a replica of shard 2: clock 2 0 5",
    "the clock of replica 6: clock 0 6 5",
    "a vote of shard 2: vote 2 0 t1 commit 1",
    "a vote of replica 6: vote 0 6 t1 commit 1",
    "a second stage for replica 6: second t1 commit 6",
    "a log reply of shard 2: logged 2 0 t1 commit 0 0 1",
    "a log reply of replica 6: logged 0 6 t1 commit 0 0 1",
    "an election word of shard 2: elect 2 0 t1 commit 1",
    "an election word of replica 6: elect 0 6 t1 commit 1",
    "a decide of shard 2: decide 2 0 t1 commit 1 0",
    "a decide of replica 6: decide 0 6 t1 commit 1 0",
    "a decide for replica 6: decide 0 0 t1 commit 1 6",
    "a frame from a replica of shard 2: raw replica 2 0 client 1 03",
    "a frame from replica 6: raw replica 0 6 client 1 03",
    "a frame for a replica of shard 2: raw client 1 replica 2 0 03",
    "a frame for replica 6: raw client 1 replica 0 6 03",
    "a journal of a replica of shard 2: stop 2 0 1 1 01",
    "a journal of replica 6: stop 0 6 1 1 01",
];

/// Reason 4: a name that isn't begun, is begun twice, or isn't formed where it must be.
const UNNAMED: &[&str] = &[
    "a name is begun twice: \
        begin t1 1 10; \
        begin t1 2 20",
    "a read in nothing begun: read t1 a",
    "a write in nothing begun: write t1 a x",
    "a deletion in nothing begun: delete t1 a",
    "a claim in nothing begun: claim t1 a -",
    "nothing begun is formed: prepare t1",
    "nothing begun is settled: settle t1 1",
    "nothing formed is settled: \
        begin t1 1 10; \
        settle t1 1",
    "nothing formed is taken up: \
        begin t1 1 10; \
        recover t1 1",
    "nothing formed has an election: \
        begin t1 1 10; \
        invoke t1 1",
    "a vote on nothing formed: \
        faulty replica 0 0; \
        begin t1 1 10; \
        vote 0 0 t1 commit 1",
    "a second stage of nothing formed: \
        faulty client 1; \
        begin t1 1 10; \
        second t1 commit 0",
    "a log reply on nothing formed: \
        faulty replica 0 0; \
        begin t1 1 10; \
        logged 0 0 t1 commit 0 0 1",
    "an election word on nothing formed: \
        faulty replica 0 0; \
        begin t1 1 10; \
        elect 0 0 t1 commit 1",
    "a decide on nothing formed: \
        faulty replica 0 0; \
        begin t1 1 10; \
        decide 0 0 t1 commit 1 0",
    "a claim's writer isn't begun: \
        faulty client 1; \
        begin t1 1 10; \
        claim t1 a t2",
    "a claim's writer isn't formed: \
        faulty client 1; \
        begin t1 1 10; \
        claim t1 a t1",
    "this is tested before reason 6, as the client is faulty too: \
        faulty client 1; \
        begin t1 2 10; \
        settle t1 1",
];

/// Reason 5: a faulty party that is named too late, twice, or as one too many.
const LATE: &[&str] = &[
    "a client is named twice: \
        faulty client 1; \
        faulty client 1",
    "a replica is named twice: \
        faulty replica 0 1; \
        faulty replica 0 1",
    "a shard has a second one: \
        faulty replica 0 1; \
        faulty replica 0 2",
    "the other shard has one too: \
        faulty replica 0 1; \
        faulty replica 1 1; \
        faulty replica 1 2",
    "a party behind a transaction: \
        begin t1 1 10; \
        faulty client 1",
    "a party behind a round: \
        round; \
        faulty client 1",
    "skipped lines part nothing: \
        faulty replica 0 1; \
        # more; \
        ; \
        faulty replica 0 1",
];

/// Reason 6: a line for a faulty party names a correct one, or the other way round.
const OTHERS: &[&str] = &[
    "a faulty client reads: \
        faulty client 1; \
        begin t1 1 10; \
        read t1 a",
    "a correct client claims: \
        begin t1 1 10; \
        claim t1 a -",
    "a faulty client settles: \
        faulty client 2; \
        begin t1 1 10; \
        write t1 a x; \
        prepare t1; \
        settle t1 2",
    "a faulty client recovers: \
        faulty client 2; \
        begin t1 1 10; \
        write t1 a x; \
        prepare t1; \
        recover t1 2",
    "a faulty client invokes: \
        faulty client 2; \
        begin t1 1 10; \
        write t1 a x; \
        prepare t1; \
        invoke t1 2",
    "a correct replica's vote: \
        begin t1 1 10; \
        write t1 a x; \
        prepare t1; \
        vote 0 0 t1 commit 1",
    "a correct client's second stage: \
        begin t1 1 10; \
        write t1 a x; \
        prepare t1; \
        second t1 commit 0",
    "a correct replica's log reply: \
        begin t1 1 10; \
        write t1 a x; \
        prepare t1; \
        logged 0 0 t1 commit 0 0 1",
    "a correct replica's election word: \
        begin t1 1 10; \
        write t1 a x; \
        prepare t1; \
        elect 0 0 t1 commit 1",
    "a correct replica's decide: \
        begin t1 1 10; \
        write t1 a x; \
        prepare t1; \
        decide 0 0 t1 commit 1 0",
    "a faulty replica's journal: \
        faulty replica 0 5; \
        raw client 1 client 2 03; \
        stop 0 5 1 1 01",
];

/// Reason 7: a message that isn't there.
const MISSING: &[&str] = &[
    "the first of none is delivered: deliver 1",
    "the second of one is delivered: \
        raw client 1 client 2 03; \
        deliver 2",
    "the number 0 is delivered: \
        raw client 1 client 2 03; \
        deliver 0",
    "the first of none is lost: lose 1",
    "the number 0 is lost: lose 0",
    "the first of none is diverted: divert 1 client 1",
    "the number 0 is diverted: \
        raw client 1 client 2 03; \
        divert 0 client 1",
    "this is tested before reason 11: stop 0 0 1 1 01",
];

/// Reason 9: a call that the client refuses.
const CALLS: &[&str] = &[
    "a client's time stays: \
        begin t1 1 10; \
        begin t2 1 10",
    "a client's time falls: \
        begin t1 1 10; \
        begin t2 1 9",
    "nothing is read and nothing is written: \
        begin t1 1 10; \
        prepare t1",
    "a read waits for its choice: \
        begin t1 1 10; \
        read t1 a; \
        prepare t1",
    "a formed transaction reads: \
        begin t1 1 10; \
        write t1 a x; \
        prepare t1; \
        read t1 b",
    "a formed transaction writes: \
        begin t1 1 10; \
        write t1 a x; \
        prepare t1; \
        write t1 b y",
    "a formed transaction deletes: \
        begin t1 1 10; \
        write t1 a x; \
        prepare t1; \
        delete t1 a",
    "a formed transaction is formed again: \
        begin t1 1 10; \
        write t1 a x; \
        prepare t1; \
        prepare t1",
    "a client settles what it doesn't hold: \
        begin t1 1 10; \
        write t1 a x; \
        prepare t1; \
        settle t1 2",
    "a client invokes for what it doesn't hold: \
        begin t1 1 10; \
        write t1 a x; \
        prepare t1; \
        invoke t1 2",
    "a client invokes before any log reply: \
        begin t1 1 10; \
        write t1 a x; \
        prepare t1; \
        invoke t1 1",
    "so does one that took the transaction up: \
        begin t1 1 10; \
        write t1 a x; \
        prepare t1; \
        recover t1 2; \
        invoke t1 2",
];

/// Reason 9: what a faulty client's transaction refuses, and a transaction of a faulty client that no good form has.
const FAULTY_CALLS: &[&str] = &[
    "an empty one is formed: \
        faulty client 1; \
        begin t1 1 10; \
        prepare t1",
    "a formed one is formed again: \
        faulty client 1; \
        begin t1 1 10; \
        write t1 a x; \
        prepare t1; \
        prepare t1",
    "a formed one writes: \
        faulty client 1; \
        begin t1 1 10; \
        write t1 a x; \
        prepare t1; \
        write t1 b y",
    "a formed one deletes: \
        faulty client 1; \
        begin t1 1 10; \
        write t1 a x; \
        prepare t1; \
        delete t1 b",
    "a formed one claims: \
        faulty client 1; \
        begin t1 1 10; \
        write t1 a x; \
        prepare t1; \
        claim t1 b -",
    "one of time 0 is taken up: \
        faulty client 1; \
        begin t1 1 0; \
        write t1 a x; \
        prepare t1; \
        recover t1 2",
    "one that reads above itself is taken up: \
        faulty client 1; \
        begin t2 1 20; \
        write t2 a x; \
        prepare t2; \
        begin t1 1 10; \
        claim t1 a t2; \
        prepare t1; \
        recover t1 2",
];

/// Reason 9: a 33rd key of one transaction. A faulty client may list it, and may not form the transaction.
const KEYS: &[&str] = &[
    "a client reads a 33rd key: \
        begin t1 1 10; \
        33 * read t1 k#",
    "a client writes a 33rd key: \
        begin t1 1 10; \
        33 * write t1 k# v",
    "a client deletes a 33rd key: \
        begin t1 1 10; \
        32 * write t1 k# v; \
        delete t1 z",
    "a faulty client has written a 33rd key: \
        faulty client 1; \
        begin t1 1 10; \
        33 * write t1 k# v; \
        prepare t1",
    "a faulty client has claimed a 33rd read: \
        faulty client 1; \
        begin t1 1 10; \
        33 * claim t1 k# -; \
        prepare t1",
];

/// Reason 9: a client's 33rd signature.
const CLIENT_LEAVES: &[&str] = &[
    "a client forms a 33rd transaction: 33 * begin t# 1 1#, write t# a x, prepare t#",
    "a faulty client forms one: \
        faulty client 1; \
        33 * begin t# 1 1#, write t# a x, prepare t#",
];

/// Reason 9: a faulty replica's 33rd signature, of each kind that it may give.
const REPLICA_LEAVES: &[&str] = &[
    "a vote: \
        faulty replica 0 0; \
        begin t1 1 10; \
        write t1 a x; \
        prepare t1; \
        33 * vote 0 0 t1 commit 1",
    "a log reply: \
        faulty replica 0 0; \
        begin t1 1 10; \
        write t1 a x; \
        prepare t1; \
        33 * logged 0 0 t1 commit 0 0 1",
    "an election word: \
        faulty replica 0 0; \
        begin t1 1 10; \
        write t1 a x; \
        prepare t1; \
        33 * elect 0 0 t1 commit 1",
    "a decide behind 32 votes: \
        faulty replica 0 0; \
        begin t1 1 10; \
        write t1 a x; \
        prepare t1; \
        32 * vote 0 0 t1 commit 1; \
        decide 0 0 t1 commit 1 0",
];

/// Reason 11: a disk is stopped where no replica has a journal.
const STOPS: &[&str] = &[
    "in its first write: \
        raw client 1 client 2 03; \
        stop 0 0 1 1 01",
    "in its second write: \
        raw client 1 client 2 03; \
        stop 0 0 1 2 4d",
];

/// What the line alone shows comes first: reason 2.
const MISSPELT: &[&str] = &[
    "settle lacks the client: settle t1",
    "a decision is neither: vote 0 0 t1 maybe 1",
    "a byte has one digit: raw client 1 client 2 0",
];

/// The same: reason 3.
const OUT_OF_RANGE: &[&str] = &[
    "a leading zero, before a message that isn't there: deliver 01",
    "a client that nobody is: begin t1 17 10",
    "the view 0, before a name that isn't begun: elect 0 0 t1 commit 0",
    "a current view below the decided one: logged 0 0 t1 commit 2 1 1",
    "a third write of a journal, before a message that isn't there: stop 0 0 1 3 01",
];

/// The same: reason 8.
const OUT_OF_SIZE: &[&str] = &[
    "a key of 65 bytes: write t1 12345678901234567890123456789012345678901234567890123456789012345 v",
];

/// Whether the last line behind the header is the first that is refused, for this reason.
fn is_last_refused(alloc: Global, header: &str, lines: &str, reason: u8) -> Result<bool, Fail> {
    let schedule = laid_out(alloc, header, lines)?;
    Ok(is_refused(alloc, &schedule, count_lines(&schedule), reason)?)
}

/// So it is of the schedule of each row.
fn are_refused(
    rt: &impl Abort,
    alloc: Global,
    header: &str,
    reason: u8,
    rows: &[&str],
) -> Result<(), Fail> {
    for row in rows {
        let (_shows, lines) = row.split_once(": ").ok_or("a row without lines")?;
        assert!(rt; is_last_refused(alloc, header, lines, reason)?, "{row}");
    }
    Ok(())
}

#[test]
fn each_cause_of_what_the_cluster_shows(rt: HostRuntime) -> Result<(), Fail> {
    let alloc = rt.alloc();
    are_refused(&rt, alloc, TWO_SHARDS, 3, OUTSIDE)?;
    are_refused(&rt, alloc, TWO_SHARDS, 4, UNNAMED)?;
    are_refused(&rt, alloc, TWO_SHARDS, 5, LATE)?;
    are_refused(&rt, alloc, TWO_SHARDS, 6, OTHERS)
}

#[test]
fn each_cause_of_what_the_run_shows(rt: HostRuntime) -> Result<(), Fail> {
    let alloc = rt.alloc();
    are_refused(&rt, alloc, TWO_SHARDS, 7, MISSING)?;
    are_refused(&rt, alloc, TWO_SHARDS, 9, CALLS)?;
    are_refused(&rt, alloc, TWO_SHARDS, 9, FAULTY_CALLS)?;
    are_refused(&rt, alloc, TWO_SHARDS, 11, STOPS)
}

#[test]
fn what_the_line_alone_shows_comes_first(rt: HostRuntime) -> Result<(), Fail> {
    let alloc = rt.alloc();
    are_refused(&rt, alloc, TWO_SHARDS, 2, MISSPELT)?;
    are_refused(&rt, alloc, TWO_SHARDS, 3, OUT_OF_RANGE)?;
    are_refused(&rt, alloc, TWO_SHARDS, 8, OUT_OF_SIZE)
}

#[test]
fn a_33rd_key(rt: HostRuntime) -> Result<(), Fail> {
    are_refused(&rt, rt.alloc(), TWO_SHARDS, 9, KEYS)
}

#[test]
fn a_33rd_signature_of_a_client(rt: HostRuntime) -> Result<(), Fail> {
    are_refused(&rt, rt.alloc(), ONE_REPLICA, 9, CLIENT_LEAVES)
}

#[test]
fn a_33rd_signature_of_a_faulty_replica(rt: HostRuntime) -> Result<(), Fail> {
    are_refused(&rt, rt.alloc(), SIX_REPLICAS, 9, REPLICA_LEAVES)
}

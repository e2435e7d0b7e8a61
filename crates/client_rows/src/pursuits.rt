//! When a client decides, and by which certificate, by the frames that it took; and which frames it takes.

use crate::answers::{Pursued, frame_of};
use crate::made::fast_commit;
use crate::pursuing::{Asked, READS_A, are_answered, pursuit_of, take};
use crate::vectors::{WRITES_A, WRITES_B, WRITES_BOTH};
use basil_types::cluster::Cluster;
use certificates::CertRefusal;
use client_recover::{FrameFault, Pursuit};
use std::alloc::Global;
use std::test::Fail;

/// The shards of the cluster, the frames, and the certificate that decides, with f = 1: a fast commit wants six votes
/// of each shard, a fast abort four of one, and a logged decision five log replies.
const OUTCOMES: &[(u8, &str, &str)] = &[
    // Each rule alone, and with one frame too few.
    (1, "w", "fast commit 0:012345"), // A writeback alone: its commit.
    (1, "x", "fast abort 0:0123"), // A writeback alone: its abort.
    (1, "c05 c04 c03 c02 c01", ""), // Five votes to commit, one too few.
    (1, "c05 c04 c03 c02 c01 c00", "fast commit 0:012345"), // All six votes are a fast commit.
    (1, "a05 a01 a03", ""), // Three votes to abort, one too few.
    (1, "a05 a01 a03 a02", "fast abort 0:1235"), // Four votes to abort, told ascending.
    (1, "p03", "conflict 0:3"), // One vote to abort with a proof is a conflict abort.
    (1, "C0400 C0300 C0200 C0100", ""), // Four log replies to commit, one too few.
    // Five log replies to commit of decided view 0 are a logged commit, with the replicas ascending.
    (
        1,
        "C0400 C0300 C0200 C0100 C0000",
        "logged commit in 0: 0@0 1@0 2@0 3@0 4@0",
    ),
    // Five log replies to abort of decided view 1 are a logged abort; their current views may differ.
    (
        1,
        "A0512 A0413 A0311 A0212 A0112",
        "logged abort in 1: 1@2 2@2 3@1 4@3 5@2",
    ),
    // Every involved shard commits; one aborts alone.
    (2, "c00 c01 c02 c03 c04 c05", ""), // Shard 0 commits, and shard 1 hasn't voted.
    // Six votes to commit in both shards are a fast commit, with shard 1 last though its votes came first.
    (
        2,
        "c10 c11 c12 c13 c14 c15 c00 c01 c02 c03 c04 c05",
        "fast commit 0:012345 1:012345",
    ),
    // Four votes to abort in shard 1 are a fast abort, though all of shard 0 voted commit.
    (
        2,
        "c00 c01 c02 c03 c04 c05 a12 a13 a14 a15",
        "fast abort 1:2345",
    ),
    (2, "a10 a11 a12 a00 a01 a02 a13", "fast abort 1:0123"), // Shard 1 has its fourth vote first.
    // The first vote of a replica counts, and the first log reply of one decision in one view.
    (1, "c00 a00 a01 a02 a03", ""), // Replica 0 voted commit first: three votes to abort count.
    (1, "c00 a00 a01 a02 a03 a04", "fast abort 0:1234"), // Replica 4's is the fourth that counts.
    // Replica 0's first reply, of current view 3, counts, and its second one, of current view 5, doesn't.
    (
        1,
        "C0003 C0005 C0103 C0203 C0303 C0403",
        "logged commit in 0: 0@3 1@3 2@3 3@3 4@3",
    ),
    // Decisions and views are counted apart.
    (1, "C0000 C0100 C0200 C0300 A0400", ""), // Four replies to commit and one to abort.
    (1, "C0000 C0100 C0200 C0300 C0411", ""), // Four of decided view 0 and one of view 1.
    // What decides first stays, whatever comes then.
    (1, "p03 w", "conflict 0:3"), // A conflict abort stays when a writeback to commit comes.
    (1, "a00 a01 a02 a03 p04 w", "fast abort 0:0123"), // A proof and a writeback come too late.
    (1, "w x", "fast commit 0:012345"), // Of two writebacks the first one stays.
    (1, "w a00 a01 a02 a03", "fast commit 0:012345"), // Four votes to abort come too late.
    (1, "w p03", "fast commit 0:012345"), // A vote with a proof comes too late.
    // A logged commit stays when six votes to commit come.
    (
        1,
        "C0000 C0100 C0200 C0300 C0400 c00 c01 c02 c03 c04 c05",
        "logged commit in 0: 0@0 1@0 2@0 3@0 4@0",
    ),
    (1, "c00 c01 c02 c03 c04 x c05", "fast abort 0:0123"), // The sixth vote comes too late.
    // One frame that ends two ways: a fast abort comes before the conflict that its last vote shows.
    (1, "a00 a01 a02 p05", "fast abort 0:0125"), // The fourth vote to abort has a proof.
];

#[test]
fn five_rules_decide_in_their_order(rt: HostRuntime) -> Result<(), Fail> {
    are_answered(&rt, rt.alloc(), OUTCOMES, Asked::Outcome)
}

/// What a frame with one byte changed meets: the shards of the cluster, the transaction that is pursued, the committed
/// one that `p` shows as its rival, the frame, the place of the byte, the bits of it that are turned, and the answer.
type Row = (
    u8,
    &'static [u8],
    &'static [u8],
    &'static str,
    usize,
    u8,
    Result<(), FrameFault>,
);

const MINE: Result<(), FrameFault> = Ok(());

const NOT_MINE: Result<(), FrameFault> = Err(FrameFault::NotMine);

const UNSIGNED: Result<(), FrameFault> = Err(FrameFault::BadSignature);

const WRONG_ID: Result<(), FrameFault> = Err(FrameFault::BadCertificate(CertRefusal::WrongId));

const NO_CONFLICT: Result<(), FrameFault> = Err(FrameFault::BadCertificate(
    CertRefusal::NoConflict,
));

/// The last of a certificate's six signatures.
const SIXTH: Result<(), FrameFault> = Err(FrameFault::BadCertificate(CertRefusal::BadSignature(5)));

const FAULTS: &[Row] = &[
    (1, WRITES_A, READS_A, "c00", 70, 0, MINE), // An unchanged vote is taken.
    (1, WRITES_A, READS_A, "p00", 372, 0, MINE), // An unchanged vote with a proof is taken.
    (1, WRITES_A, READS_A, "C0000", 85, 0, MINE), // An unchanged log reply is taken.
    (1, WRITES_A, READS_A, "w", 264, 0, MINE), // An unchanged writeback is taken.
    // Another transaction, a shard that isn't involved, and one that isn't the log shard.
    (1, WRITES_A, READS_A, "c00", 3, 1, NOT_MINE), // The vote's id is changed.
    (1, WRITES_A, READS_A, "C0000", 3, 1, NOT_MINE), // The log reply's id is changed.
    (1, WRITES_A, READS_A, "w", 9, 1, NOT_MINE), // The writeback's transaction has time 11.
    (2, WRITES_A, READS_A, "c00", 70, 0, NOT_MINE), // A vote of shard 0; of two, `a` is of shard 1.
    (2, WRITES_BOTH, READS_A, "C1000", 85, 0, NOT_MINE), // Shard 1 isn't the log shard.
    // Signatures, of a vote before its proof.
    (1, WRITES_A, READS_A, "c00", 70, 1, UNSIGNED), // The vote's signature is changed.
    (1, WRITES_A, READS_A, "C0000", 85, 1, UNSIGNED), // The log reply's signature is changed.
    (1, WRITES_A, WRITES_B, "p00", 334, 1, UNSIGNED), // The vote's own; its proof is bad too.
    // A proof: its transaction of time 0 and with that another id, one that doesn't conflict, and its certificate.
    (1, WRITES_A, READS_A, "p00", 45, 30, NO_CONFLICT), // Time 0 has no good form.
    (1, WRITES_A, READS_A, "p00", 45, 1, WRONG_ID), // At time 31 it has another id.
    (1, WRITES_A, WRITES_B, "p00", 300, 0, NO_CONFLICT), // Unchanged: neither of the two reads.
    (1, WRITES_A, WRITES_B, "p00", 300, 1, NO_CONFLICT), // Its sixth signature is bad too.
    (1, WRITES_A, READS_A, "p00", 338, 1, SIXTH), // Its certificate's last signature is changed.
    // A writeback's certificate.
    (1, WRITES_A, READS_A, "w", 20, 1, WRONG_ID), // The certificate's id is changed.
    (1, WRITES_A, READS_A, "w", 264, 1, SIXTH), // The certificate's last signature is changed.
];

/// A row's frame with its byte changed.
fn changed(alloc: Global, row: &Row) -> Result<Vec<u8>, Fail> {
    let (_, transaction, rival, token, place, mask, _) = *row;
    let writeback = fast_commit(alloc, rival, &[(0, 6)])?;
    let pursued = Pursued {
        transaction,
        rival: &writeback,
        tallies: &[(0, 6)],
    };
    let mut frame = frame_of(alloc, &pursued, token)?;
    if place < frame.len() {
        frame[place] ^= mask;
    }
    Ok(frame)
}

/// The answer to a frame; fails where it is no frame of the cluster, or is refused and something is held.
fn taken(pursuit: &mut Pursuit, frame: &[u8]) -> Result<Result<(), FrameFault>, Fail> {
    let answer = take(pursuit, frame)?;
    if answer.is_err() && (pursuit.held() != 0 || pursuit.outcome().is_some()) {
        return Err(Fail::new("a refused frame was taken"));
    }
    Ok(answer)
}

/// The answer to a row's frame.
fn answer(alloc: Global, row: &Row) -> Result<Result<(), FrameFault>, Fail> {
    let cluster = Cluster::new(1, row.0, 2, 100)?;
    let frame = changed(alloc, row)?;
    let mut pursuit = pursuit_of(alloc, row.1, &cluster)?;
    taken(&mut pursuit, &frame)
}

#[test]
fn the_first_fault_is_told(rt: HostRuntime) -> Result<(), Fail> {
    for row in FAULTS {
        let found = answer(rt.alloc(), row)?;
        assert!(rt; found == row.6, "{} with byte {} changed", row.3, row.4);
    }
    Ok(())
}

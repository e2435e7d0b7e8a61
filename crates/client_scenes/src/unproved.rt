//! Certificates that prove nothing, of transactions in two shards, as they come in votes, writebacks and read replies;
//! and votes and log replies whose signatures aren't accepted, which fill no tally.

use crate::stages::{Scene, plays};
use std::test::Fail;

/// Client 1 in a cluster of two shards with f = 1: a, c and e are in shard 1, b and d in shard 0. B and C wrote a and
/// b.
///
/// D read both as genesis has them, and so conflicts with B and C; it is logged in shard 1. E read b alone so, and J a
/// alone. None of F, H and I conflicts with B: F only writes, H read what B wrote, and I comes before B. G read a
/// version above its own, Z begins at time 0, N neither reads nor writes.
const TWO: Scene = Scene {
    f: 1,
    shards: 2,
    reads: 2,
    leaf: 0,
    cast: &[
        "B 20 1 +a +b",
        "C 21 3 +a +b",
        "D 31 2 a=- b=-",
        "E 30 2 b=-",
        "J 35 2 a=-",
        "F 32 2 +a +b",
        "H 33 2 a=B b=B",
        "I 19 2 a=- b=-",
        "G 18 2 a=B b=-",
        "Z 0 2 a=- b=-",
        "N 34 2",
    ],
    steps: &[],
};

/// A vote whose proof has a signature that isn't accepted, in its first tally or in its second, or too few votes in
/// one.
const SPOILED_PROOFS: Scene = Scene {
    steps: &[
        ("begin 20", "slot 0"),
        ("write 0 a x1", ""),
        ("write 0 b x1", ""),
        ("prepare 0", "st1 B #0 to 0:012345 1:012345"),
        // The first one, counted over both tallies.
        (
            "vote 0:0 B abort by D fast 0:x012345 1:012345",
            "refused BadCertificate(BadSignature(0))",
        ),
        (
            "vote 0:0 B abort by D fast 0:01234x5 1:x012345",
            "refused BadCertificate(BadSignature(5))",
        ),
        (
            "vote 0:0 B abort by D fast 0:012345 1:01x2345",
            "refused BadCertificate(BadSignature(8))",
        ),
        (
            "vote 1:3 B abort by D fast 0:012345 1:01234x5",
            "refused BadCertificate(BadSignature(11))",
        ),
        // Log replies.
        (
            "vote 0:0 B abort by D logged commit 2 1:x01234",
            "refused BadCertificate(BadSignature(0))",
        ),
        (
            "vote 1:3 B abort by D logged commit 2 1:01234x5",
            "refused BadCertificate(BadSignature(5))",
        ),
        (
            "vote 0:0 B abort by E logged commit 0 0:12x345",
            "refused BadCertificate(BadSignature(2))",
        ),
        // Too few stand before a signature, and a shard before both.
        (
            "vote 0:0 B abort by D fast 0:x012345 1:01234",
            "refused BadCertificate(Few { count: 5, needed: 6 })",
        ),
        (
            "vote 0:0 B abort by D fast 0:01234 1:0123",
            "refused BadCertificate(Few { count: 5, needed: 6 })",
        ),
        (
            "vote 0:0 B abort by D logged commit 2 1:012x3",
            "refused BadCertificate(Few { count: 4, needed: 5 })",
        ),
        (
            "vote 0:0 B abort by D fast 0:x0",
            "refused BadCertificate(NotInvolved(1))",
        ),
        (
            "vote 0:0 B abort by D fast 1:012345",
            "refused BadCertificate(NotInvolved(0))",
        ),
        (
            "vote 0:0 B abort by D logged commit 2 0:01234",
            "refused BadCertificate(NotInvolved(0))",
        ),
        // Inside of a conflict abort, where the vote's signature comes first.
        (
            "writeback B conflict 0:0 D fast 0:012345 1:01x2345",
            "refused BadCertificate(BadSignature(9))",
        ),
        (
            "writeback B conflict 0:0 D logged commit 2 1:01x234",
            "refused BadCertificate(BadSignature(3))",
        ),
        (
            "writeback B conflict 0:x0 D fast 0:x012345 1:012345",
            "refused BadCertificate(BadSignature(0))",
        ),
        (
            "writeback B conflict 0:0 D fast 0:012345 1:01234",
            "refused BadCertificate(Few { count: 5, needed: 6 })",
        ),
        (
            "writeback B conflict 0:0 D fast 0:012345",
            "refused BadCertificate(NotInvolved(1))",
        ),
        // None was the replica's first vote.
        ("held 0", "0"),
        ("outcome 0", "none"),
        (
            "vote 1:3 B abort by D fast 0:012345 1:012345",
            "writeback B conflict 1:3 D fast 0:012345 1:012345 to 0:012345 1:012345",
        ),
        ("held 0", "1"),
    ],
    ..TWO
};

/// A vote whose proof is of a transaction without a good form, or of one that doesn't conflict, with a certificate that
/// is good otherwise and with one that isn't.
const PROOFS_OF_OTHERS: Scene = Scene {
    steps: &[
        ("begin 20", "slot 0"),
        ("write 0 a x1", ""),
        ("write 0 b x1", ""),
        ("prepare 0", "st1 B #0 to 0:012345 1:012345"),
        // No good form: whatever the certificate is.
        (
            "vote 0:0 B abort by G fast 0:012345 1:012345",
            "refused BadCertificate(NoConflict)",
        ),
        (
            "vote 1:3 B abort by G logged commit 0 0:01234",
            "refused BadCertificate(NoConflict)",
        ),
        (
            "vote 0:0 B abort by G/D logged abort 0 1:x0",
            "refused BadCertificate(NoConflict)",
        ),
        (
            "vote 0:0 B abort by Z fast 0:012345 1:012345",
            "refused BadCertificate(NoConflict)",
        ),
        (
            "vote 1:3 B abort by Z logged commit 0 0:01234",
            "refused BadCertificate(NoConflict)",
        ),
        (
            "vote 0:0 B abort by N logged commit 0 0:01234",
            "refused BadCertificate(NoConflict)",
        ),
        (
            "writeback B conflict 0:0 G fast 0:012345 1:012345",
            "refused BadCertificate(NoConflict)",
        ),
        (
            "writeback B conflict 0:x0 G/D fast 0:0",
            "refused BadCertificate(NoConflict)",
        ),
        // No conflict: a transaction that only writes, that read what was written, that is too early, and B itself.
        (
            "vote 0:0 B abort by F fast 0:012345 1:012345",
            "refused BadCertificate(NoConflict)",
        ),
        (
            "vote 1:3 B abort by F logged commit 0 0:01234",
            "refused BadCertificate(NoConflict)",
        ),
        (
            "vote 0:0 B abort by H fast 0:012345 1:012345",
            "refused BadCertificate(NoConflict)",
        ),
        (
            "vote 1:3 B abort by H logged commit 7 1:12345",
            "refused BadCertificate(NoConflict)",
        ),
        (
            "vote 0:0 B abort by I fast 0:012345 1:012345",
            "refused BadCertificate(NoConflict)",
        ),
        (
            "vote 0:0 B abort by B fast 0:012345 1:012345",
            "refused BadCertificate(NoConflict)",
        ),
        (
            "writeback B conflict 0:0 H fast 0:012345 1:012345",
            "refused BadCertificate(NoConflict)",
        ),
        (
            "writeback B conflict 0:0 B fast 0:012345 1:012345",
            "refused BadCertificate(NoConflict)",
        ),
        // It stands before a signature, and behind all others.
        (
            "vote 0:0 B abort by H fast 0:012345 1:01234x5",
            "refused BadCertificate(NoConflict)",
        ),
        (
            "vote 0:0 B abort by H fast 0:012345 1:01234",
            "refused BadCertificate(Few { count: 5, needed: 6 })",
        ),
        (
            "vote 0:0 B abort by H logged abort 7 1:12345",
            "refused BadCertificate(Mixed)",
        ),
        (
            "vote 0:0 B abort by D/E fast 0:012345 1:012345",
            "refused BadCertificate(WrongId)",
        ),
        ("held 0", "0"),
        ("outcome 0", "none"),
        // A conflict on a key of another shard than the replica's is one too.
        (
            "vote 0:0 B abort by J fast 1:012345",
            "writeback B conflict 0:0 J fast 1:012345 to 0:012345 1:012345",
        ),
        ("held 0", "1"),
    ],
    ..TWO
};

/// The same of a transaction that is recovered.
const RECOVERED: Scene = Scene {
    steps: &[
        ("recover C", "slot 0; recover C to 0:012345 1:012345"),
        (
            "vote 0:0 C abort by D fast 0:012345 1:01234x5",
            "refused BadCertificate(BadSignature(11))",
        ),
        (
            "vote 0:0 C abort by G fast 0:012345 1:012345",
            "refused BadCertificate(NoConflict)",
        ),
        (
            "vote 0:0 C abort by F fast 0:012345 1:012345",
            "refused BadCertificate(NoConflict)",
        ),
        // H, which read what B wrote, missed what C wrote.
        (
            "vote 0:0 C abort by H fast 0:012345 1:01234x5",
            "refused BadCertificate(BadSignature(11))",
        ),
        ("held 0", "0"),
        (
            "vote 0:0 C abort by H logged commit 7 1:12345",
            "writeback C conflict 0:0 H logged commit 7 1:12345 to 0:012345 1:012345",
        ),
    ],
    ..TWO
};

const PROOFS: &[Scene] = &[SPOILED_PROOFS, PROOFS_OF_OTHERS, RECOVERED];

#[test]
fn a_proof_that_proves_nothing_is_no_vote(rt: HostRuntime) -> Result<(), Fail> {
    plays(&rt, rt.alloc(), 1, PROOFS)
}

/// Neither a vote nor a log reply counts whose own signature isn't accepted, and the replica's next one does.
const SPOILED_VOTES: Scene = Scene {
    steps: &[
        ("begin 20", "slot 0"),
        ("write 0 a x1", ""),
        ("write 0 b x1", ""),
        ("prepare 0", "st1 B #0 to 0:012345 1:012345"),
        ("vote 0:012345 B commit", ""),
        ("vote 1:01234 B commit", ""),
        ("vote 1:x5 B commit", "refused BadSignature"),
        ("held 0", "11"),
        // With a commit it would be decided.
        (
            "vote 1:5 B abort",
            "st2 B commit 0:0123 1:0123 #0 to 0:012345",
        ),
        // Log replies, which carry no certificate.
        ("log 0:x0 B commit 0 0", "refused BadSignature"),
        ("invoke 0", "refused NothingLogged"),
        ("log 0:0123 B commit 0 0", ""),
        ("log 0:x4 B commit 0 0", "refused BadSignature"),
        ("held 0", "16"),
        ("outcome 0", "none"),
        ("invoke 0", "invoke B 0 0c0/0 1c0/0 2c0/0 3c0/0 to 0:012345"),
        ("log 0:x3 B abort 9 9", "refused BadSignature"),
        ("invoke 0", "invoke B 0 0c0/0 1c0/0 2c0/0 3c0/0 to 0:012345"),
        (
            "log 0:5 B commit 0 0",
            "writeback B logged commit 0 0:01235 to 0:012345 1:012345",
        ),
        ("log 0:x4 B commit 0 0", "refused BadSignature"),
        ("outcome 0", "commit logged commit 0 0:01235"),
    ],
    ..TWO
};

const VOTES: &[Scene] = &[SPOILED_VOTES];

#[test]
fn what_is_badly_signed_fills_no_tally(rt: HostRuntime) -> Result<(), Fail> {
    plays(&rt, rt.alloc(), 1, VOTES)
}

/// E and L wrote a, in shard 1, and b, in shard 0; E is logged in shard 0, L in shard 1. G wrote a and read a version
/// above its own, Z begins at time 0, N neither reads nor writes.
const CARRIED: Scene = Scene {
    cast: &[
        "E 20 2 +a +b",
        "L 21 2 +a=l1 +b",
        "U 50 3 +b",
        "G 22 2 b=U +a",
        "Z 0 2 +a",
        "N 23 2",
        "T 40 1 a=L",
    ],
    steps: &[
        ("begin 40", "slot 0"),
        ("read 0 a", "read a 40 1 to 1:012345"),
        // Signatures, counted over both tallies, and of log replies.
        (
            "reply 1:0 a 40 1 committed E fast 0:x012345 1:012345",
            "refused BadCertificate(BadSignature(0))",
        ),
        (
            "reply 1:0 a 40 1 committed E fast 0:012345 1:01x2345",
            "refused BadCertificate(BadSignature(8))",
        ),
        (
            "reply 1:0 a 40 1 committed L logged commit 3 1:01x234",
            "refused BadCertificate(BadSignature(2))",
        ),
        (
            "reply 1:0 a 40 1 committed E fast 0:012345 1:01234x5 prepared L",
            "refused BadCertificate(BadSignature(11))",
        ),
        // What stands before them.
        (
            "reply 1:0 a 40 1 committed E fast 0:x012345 1:01234",
            "refused BadCertificate(Few { count: 5, needed: 6 })",
        ),
        (
            "reply 1:0 a 40 1 committed L logged commit 3 1:012x3",
            "refused BadCertificate(Few { count: 4, needed: 5 })",
        ),
        (
            "reply 1:0 a 40 1 committed E fast 1:x0",
            "refused BadCertificate(NotInvolved(0))",
        ),
        (
            "reply 1:0 a 40 1 committed E fast 0:012345",
            "refused BadCertificate(NotInvolved(1))",
        ),
        (
            "reply 1:0 a 40 1 committed E logged commit 3 1:01234",
            "refused BadCertificate(NotInvolved(1))",
        ),
        // No good form, whatever the certificate is.
        (
            "reply 1:0 a 40 1 committed G fast 0:012345 1:012345",
            "refused BadVersion",
        ),
        (
            "reply 1:0 a 40 1 committed G/E logged abort 0 0:x0",
            "refused BadVersion",
        ),
        (
            "reply 1:0 a 40 1 committed Z fast 1:012345",
            "refused BadVersion",
        ),
        (
            "reply 1:0 a 40 1 committed N fast 1:012345",
            "refused BadVersion",
        ),
        ("reply 1:0 a 40 1 prepared G", "refused BadVersion"),
        ("reply 1:0 a 40 1 prepared N", "refused BadVersion"),
        (
            "reply 1:0 a 40 1 committed E fast 0:012345 1:012345 prepared G",
            "refused BadVersion",
        ),
        // None was the replica's first reply. Nothing is tested against other transactions: E and L may both be
        // committed.
        ("value 0 a", "pending"),
        (
            "reply 1:0 a 40 1 committed E fast 0:012345 1:012345",
            "same",
        ),
        ("reply 1:1 a 40 1 committed L logged commit 3 1:12345", ""),
        ("value 0 a", "L gave l1"),
        ("prepare 0", "st1 T #0 to 1:012345"),
    ],
    ..TWO
};

const REPLIES: &[Scene] = &[CARRIED];

#[test]
fn a_reply_that_proves_nothing_is_not_kept(rt: HostRuntime) -> Result<(), Fail> {
    plays(&rt, rt.alloc(), 1, REPLIES)
}

//! What a client refuses of the frames that come, the first refusal of each. That nothing changes by it each scene
//! tests by itself: what every slot tells, what was sent and signed, and, by the next signature, the pen.

use crate::stages::{Scene, plays};
use std::test::Fail;

/// Client 1 in a cluster of one shard with f = 1, whose reads wait for two replies.
const ONE: Scene = Scene {
    f: 1,
    shards: 1,
    reads: 2,
    leaf: 0,
    cast: &[],
    steps: &[],
};

/// The same with two shards: a, c and e are in shard 1, b and d in shard 0.
const TWO: Scene = Scene { shards: 2, ..ONE };

const NO_FRAMES: Scene = Scene {
    cast: &["A 10 1 +b"],
    steps: &[
        ("frame", "refused BadFrame(Short(0))"),
        ("frame 03", "refused BadFrame(Short(1))"),
        ("frame 0c", "refused BadFrame(Kind)"),
        ("frame 0100", "refused BadFrame(Range(1))"),
        // A vote of replica 6.
        ("frame 040006", "refused BadFrame(Range(2))"),
        // A read with one byte more.
        (
            "frame 010161000000000000000a0100",
            "refused BadFrame(Trailing(12))",
        ),
        // A writeback with votes of one replica twice, made by an independent program.
        (
            "frame 0701000000000000000a01000101610002783101000102030405060708090a0b0c0d0e0f101112131415161718191a1b1c1d1e1f0100020100010701000107",
            "refused BadFrame(Order(59))",
        ),
        ("zeros 1048577", "refused BadFrame(Length)"),
        ("zeros 1048576", "refused BadFrame(Kind)"),
        ("begin 10", "slot 0"),
        ("write 0 b x1", ""),
        ("prepare 0", "st1 A #0 to 0:012345"),
        // Replicas 6 and 7, and shard 2.
        ("vote 0:6 A commit", "refused BadFrame(Range(2))"),
        ("log 0:7 A commit 0 0", "refused BadFrame(Range(2))"),
        ("vote 2:0 A commit", "refused BadFrame(Range(1))"),
        // A current view below the decided one.
        ("log 0:0 A commit 2 1", "refused BadFrame(Range(44))"),
        // A proof of a vote to commit, and votes and shards out of order.
        (
            "vote 0:0 A commit by A fast 0:012345",
            "refused BadFrame(Range(36))",
        ),
        ("writeback A fast 0:102345", "refused BadFrame(Order(90))"),
        (
            "vote 0:012345 A commit",
            "writeback A fast 0:012345 to 0:012345",
        ),
    ],
    ..TWO
};

const FRAMELESS: &[Scene] = &[NO_FRAMES];

#[test]
fn what_is_no_frame_is_refused(rt: HostRuntime) -> Result<(), Fail> {
    plays(&rt, rt.alloc(), 1, FRAMELESS)
}

/// One frame of each kind that goes to replicas, made by an independent program.
const OTHER_KINDS: Scene = Scene {
    cast: &["A 10 1 +a"],
    steps: &[
        ("begin 10", "slot 0"),
        ("write 0 a x1", ""),
        ("prepare 0", "st1 A #0 to 0:012345"),
        ("frame 010161000000000000001e02", "refused NotMine"),
        (
            "frame 0301000000000000000a0100010161000278310020b7ce6222f675a2b67a124d4894840b2e26b2b6bee0809dd2c429ea5e33f23d6b",
            "refused NotMine",
        ),
        (
            "frame 0501000000000000000a0100010161000278310020b7ce6222f675a2b67a124d4894840b2e26b2b6bee0809dd2c429ea5e33f23d6b00010004000020d17ba9b479b2c2cf6b13b608f7eff5dd627ef785fc88c830f762e3d4189f33440100208fffcd9a0830cbe7417deca3c67cfb2d550eb186e3cfdb2c75ceb401f70f99390200201ea23e4ccbfac176c12d38c211f73953544665a9f4bf5cf76b51d2a1ba74eeed0300208bb8436a07a1d40487f041f09314f8a3e755aa1acd037a1cb1959801582fde9f",
            "refused NotMine",
        ),
        (
            "frame 0801000000000000000d0100010161000278310020c1555d0613128b5c6094b93df121ad8840967a1a48c2221a642a045869b16d40",
            "refused NotMine",
        ),
        (
            "frame 0929a0feecdad5974b73307ee274b9dfc83943677a637b2d31459e0fe91224aa100005000000000000000000000000000000000000002034608f503119b69f50735320539bb456f68bc7838cbda05e77b592d750e0150d01000000000000000000000000000000000000208d83e0f7e3ff1f91387526811b8171fad98bff1e29ff1d7be6d4cfacc78c371e02000000000000000000000000000000000000209557a74c0721ac658b3b1ef966c98df75cd33c42d9560cb03c9b880e586af5ac030100000000000000000000000000000000002048eced98e4cf14328347df4f53a1b322207906d8a1a6e0f985a90a3949de6acf0401000000000000000000000000000000000020df1f2dc81942b14ab0ed398f9bae09daf95dcc505a48fe3252d8312c178a3449",
            "refused NotMine",
        ),
        (
            "frame 0a01000000000000000d01000101610002783100000000000000000000010020b41d860c630a4bfb079458967b202ccbc7de6d97f29fc181dc95e68ee4619348",
            "refused NotMine",
        ),
        (
            "frame 0b01000000000000000d01000101610002783100020000000000000000010500000020b41d860c630a4bfb079458967b202ccbc7de6d97f29fc181dc95e68ee461934801000020e5a8006a88f0d993f202df81c15c4199ae82168c5d0c2a71dbc341539cb083ea020000208a11d1f9fc981c7f5ac0dfeb1cec1c017e733ad968b7549b6c6d1f04430102f70301002092f7ddd741439f8534fe436dea8d2ee8dcb77aa1c894a24100770f793115c9f8040100207b0d31f702936766ebf12f7faeadf815a3dea62c1906d0adccbe4c06a7ad3d840020a9446b78200c6e8900f8f783a0a31fae71ddcb712c8fc8584ac16a051bbad02b",
            "refused NotMine",
        ),
        ("vote 0:0 A commit", ""),
    ],
    ..ONE
};

/// Of two shards A is in shard 0 alone, B in both, and both are logged in shard 0; C, which is in both, is logged in
/// shard 1.
const NOTHING_ASKED: Scene = Scene {
    cast: &["A 10 1 +b", "B 12 1 +a +b", "C 13 1 a=- b=-", "D 9 2 +b"],
    steps: &[
        // Before anything is held.
        ("vote 0:0 A commit", "refused NotMine"),
        ("log 0:0 A commit 0 0", "refused NotMine"),
        ("writeback A fast 0:012345", "refused NotMine"),
        ("reply 0:0 b 10 1", "refused NotMine"),
        ("begin 10", "slot 0"),
        ("write 0 b x1", ""),
        ("begin 12", "slot 1"),
        ("write 1 a x1", ""),
        ("write 1 b x1", ""),
        ("begin 13", "slot 2"),
        // A transaction that isn't formed yet, and a key that isn't asked for.
        ("vote 0:0 A commit", "refused NotMine"),
        ("log 0:0 A commit 0 0", "refused NotMine"),
        ("writeback A fast 0:012345", "refused NotMine"),
        ("reply 0:0 b 10 1", "refused NotMine"),
        ("reply 0:0 b 13 1", "refused NotMine"),
        ("read 2 b", "read b 13 1 to 0:012345"),
        // Another client, another time, another key, another shard.
        ("reply 0:0 b 13 2", "refused NotMine"),
        ("reply 0:0 b 12 1", "refused NotMine"),
        ("reply 0:0 b 14 1", "refused NotMine"),
        ("reply 0:0 d 13 1", "refused NotMine"),
        ("reply 1:0 b 13 1", "refused NotMine"),
        ("prepare 0", "st1 A #0 to 0:012345"),
        ("prepare 1", "st1 B #1 to 0:012345 1:012345"),
        // A shard that isn't involved, and one that isn't the log shard.
        ("vote 1:0 A commit", "refused NotMine"),
        ("vote 1:0 A abort", "refused NotMine"),
        ("log 1:0 A commit 0 0", "refused NotMine"),
        ("log 1:0 B commit 0 0", "refused NotMine"),
        ("vote 1:0 B commit", ""),
        ("log 0:0 B commit 0 0", ""),
        ("read 2 a", "read a 13 1 to 1:012345"),
        ("reply 0:01 b 13 1", ""),
        // The choice is made.
        ("reply 0:2 b 13 1", "refused NotMine"),
        ("reply 0:0 b 13 1", "refused NotMine"),
        ("reply 1:45 a 13 1", ""),
        ("prepare 2", "st1 C #2 to 0:012345 1:012345"),
        ("reply 0:2 b 13 1", "refused NotMine"),
        ("log 0:0 C commit 0 0", "refused NotMine"),
        ("log 1:0 C commit 0 0", ""),
        // A recovered transaction asked for nothing.
        ("recover D", "slot 3; recover D to 0:012345"),
        ("reply 0:0 b 9 2", "refused NotMine"),
        ("reply 0:0 b 9 1", "refused NotMine"),
        // Of one frame the first refusal.
        ("vote 1:x0 A commit", "refused NotMine"),
        ("log 1:x0 B commit 0 0", "refused NotMine"),
        ("reply 1:x0 b 13 1", "refused NotMine"),
        ("reply 0:x2 b 13 1", "refused NotMine"),
        ("signed", "A B C"),
    ],
    ..TWO
};

const UNASKED: &[Scene] = &[OTHER_KINDS, NOTHING_ASKED];

#[test]
fn what_nobody_asked_for_is_not_mine(rt: HostRuntime) -> Result<(), Fail> {
    plays(&rt, rt.alloc(), 1, UNASKED)
}

/// F, L and S can't be read at time 40 by client 1: the first writes another key, the second comes later, as S does, of
/// the same time by client 2. Z begins at time 0, N writes nothing.
const REPLIES: Scene = Scene {
    cast: &[
        "E 20 2 +a",
        "F 21 2 +c",
        "L 41 2 +a",
        "S 40 2 +a",
        "O 40 1 +a",
        "Z 0 2 +a",
        "N 22 2 a=E",
        "T 40 1 a=E +b",
    ],
    steps: &[
        ("begin 40", "slot 0"),
        ("read 0 a", "read a 40 1 to 0:012345"),
        ("reply 0:x0 a 40 1", "refused BadSignature"),
        (
            "reply 0:x0 a 40 1 committed E fast 0:012345",
            "refused BadSignature",
        ),
        ("reply 0:x0 a 40 1 prepared E", "refused BadSignature"),
        // A committed transaction of no good form, one that doesn't write the key, one that isn't below the reader.
        (
            "reply 0:0 a 40 1 committed Z fast 0:012345",
            "refused BadVersion",
        ),
        (
            "reply 0:0 a 40 1 committed N fast 0:012345",
            "refused BadVersion",
        ),
        (
            "reply 0:0 a 40 1 committed F fast 0:012345",
            "refused BadVersion",
        ),
        (
            "reply 0:0 a 40 1 committed L fast 0:012345",
            "refused BadVersion",
        ),
        (
            "reply 0:0 a 40 1 committed S fast 0:012345",
            "refused BadVersion",
        ),
        (
            "reply 0:0 a 40 1 committed O fast 0:012345",
            "refused BadVersion",
        ),
        // The same of a prepared one, alone and beside a committed one.
        ("reply 0:0 a 40 1 prepared Z", "refused BadVersion"),
        ("reply 0:0 a 40 1 prepared N", "refused BadVersion"),
        ("reply 0:0 a 40 1 prepared F", "refused BadVersion"),
        ("reply 0:0 a 40 1 prepared L", "refused BadVersion"),
        ("reply 0:0 a 40 1 prepared S", "refused BadVersion"),
        ("reply 0:0 a 40 1 prepared O", "refused BadVersion"),
        (
            "reply 0:0 a 40 1 committed E fast 0:012345 prepared F",
            "refused BadVersion",
        ),
        // A certificate.
        (
            "reply 0:0 a 40 1 committed E/F fast 0:012345",
            "refused BadCertificate(WrongId)",
        ),
        (
            "reply 0:0 a 40 1 committed E logged abort 0 0:01234",
            "refused BadCertificate(Mixed)",
        ),
        (
            "reply 0:0 a 40 1 committed E fast",
            "refused BadCertificate(NotInvolved(0))",
        ),
        (
            "reply 0:0 a 40 1 committed E fast 0:01234",
            "refused BadCertificate(Few { count: 5, needed: 6 })",
        ),
        (
            "reply 0:0 a 40 1 committed E logged commit 0 0:0123",
            "refused BadCertificate(Few { count: 4, needed: 5 })",
        ),
        (
            "reply 0:0 a 40 1 committed E fast 0:01234x5",
            "refused BadCertificate(BadSignature(5))",
        ),
        (
            "reply 0:0 a 40 1 committed E logged commit 0 0:0123x4",
            "refused BadCertificate(BadSignature(4))",
        ),
        // Of one frame the first refusal.
        (
            "reply 0:x0 a 40 1 committed F/E fast 0:0",
            "refused BadSignature",
        ),
        (
            "reply 0:0 a 40 1 committed F/E fast 0:0",
            "refused BadVersion",
        ),
        (
            "reply 0:0 a 40 1 committed E/F fast 0:01234 prepared L",
            "refused BadVersion",
        ),
        (
            "reply 0:0 a 40 1 committed E/F logged abort 0 0:x0",
            "refused BadCertificate(WrongId)",
        ),
        (
            "reply 0:0 a 40 1 committed E logged abort 0 0:x0",
            "refused BadCertificate(Mixed)",
        ),
        (
            "reply 0:0 a 40 1 committed E fast 0:x0",
            "refused BadCertificate(Few { count: 1, needed: 6 })",
        ),
        // None of them was kept.
        ("reply 0:0 a 40 1 committed E fast 0:012345", "same"),
        ("reply 0:1 a 40 1 committed E logged commit 3 0:12345", ""),
        ("value 0 a", "E gave x1"),
        ("write 0 b x1", ""),
        ("prepare 0", "st1 T #0 to 0:012345"),
    ],
    ..ONE
};

const READ_REPLIES: &[Scene] = &[REPLIES];

#[test]
fn replies_that_prove_nothing_are_refused(rt: HostRuntime) -> Result<(), Fail> {
    plays(&rt, rt.alloc(), 1, READ_REPLIES)
}

/// E read b before B wrote it, and is B's rival; F isn't. Z begins at time 0, N neither reads nor writes.
const UNPROVEN: Scene = Scene {
    cast: &[
        "B 20 1 +a +b",
        "E 31 2 b=-",
        "F 32 2 +b",
        "Z 0 2 b=-",
        "N 33 2",
    ],
    steps: &[
        ("begin 20", "slot 0"),
        ("write 0 a x1", ""),
        ("write 0 b x1", ""),
        ("prepare 0", "st1 B #0 to 0:012345 1:012345"),
        // Signatures.
        ("vote 0:x0 B commit", "refused BadSignature"),
        ("vote 1:x5 B abort", "refused BadSignature"),
        ("log 0:x0 B commit 0 0", "refused BadSignature"),
        (
            "vote 0:x0 B abort by E fast 0:012345",
            "refused BadSignature",
        ),
        ("vote 0:x0 B abort by N/E fast 0:0", "refused BadSignature"),
        // A vote's proof: a transaction of no good form, and then in their order the refusals of the certificate, of
        // which that there is no conflict comes right before the signatures.
        (
            "vote 0:0 B abort by Z fast 0:012345",
            "refused BadCertificate(NoConflict)",
        ),
        (
            "vote 0:0 B abort by N fast 0:012345",
            "refused BadCertificate(NoConflict)",
        ),
        (
            "vote 0:0 B abort by Z/E fast 0:0",
            "refused BadCertificate(NoConflict)",
        ),
        (
            "vote 0:0 B abort by F/E logged abort 0 1:x0",
            "refused BadCertificate(WrongId)",
        ),
        (
            "vote 0:0 B abort by F logged abort 0 1:x0",
            "refused BadCertificate(Mixed)",
        ),
        (
            "vote 0:0 B abort by F logged commit 0 1:x0",
            "refused BadCertificate(NotInvolved(1))",
        ),
        (
            "vote 0:0 B abort by F fast 0:x0 1:0",
            "refused BadCertificate(NotInvolved(1))",
        ),
        (
            "vote 0:0 B abort by F fast 0:x0",
            "refused BadCertificate(Few { count: 1, needed: 6 })",
        ),
        (
            "vote 0:0 B abort by F fast 0:x012345",
            "refused BadCertificate(NoConflict)",
        ),
        (
            "vote 0:0 B abort by F fast 0:012345",
            "refused BadCertificate(NoConflict)",
        ),
        (
            "vote 0:0 B abort by E fast 0:0x12345",
            "refused BadCertificate(BadSignature(1))",
        ),
        // The certificate of a writeback.
        ("writeback B/E fast 0:0", "refused BadCertificate(WrongId)"),
        (
            "writeback B fast 0:x0",
            "refused BadCertificate(NotInvolved(1))",
        ),
        (
            "writeback B logged commit 0 1:x0",
            "refused BadCertificate(NotInvolved(1))",
        ),
        (
            "writeback B fast 0:x012345 1:01234",
            "refused BadCertificate(Few { count: 5, needed: 6 })",
        ),
        (
            "writeback B logged abort 0 0:x0123",
            "refused BadCertificate(Few { count: 4, needed: 5 })",
        ),
        (
            "writeback B abort 1:x012",
            "refused BadCertificate(Few { count: 3, needed: 4 })",
        ),
        (
            "writeback B fast 0:012345 1:01234x5",
            "refused BadCertificate(BadSignature(11))",
        ),
        (
            "writeback B logged abort 0 0:01x234",
            "refused BadCertificate(BadSignature(2))",
        ),
        (
            "writeback B abort 1:012x3",
            "refused BadCertificate(BadSignature(3))",
        ),
        // A conflict abort, and the certificate inside of it.
        (
            "writeback B conflict 0:x0 E/F logged abort 1 1:0",
            "refused BadCertificate(WrongId)",
        ),
        (
            "writeback B conflict 0:x0 F logged abort 1 1:0",
            "refused BadCertificate(Mixed)",
        ),
        (
            "writeback B conflict 0:x0 F logged commit 1 1:0",
            "refused BadCertificate(NotInvolved(1))",
        ),
        (
            "writeback B conflict 0:x0 F logged commit 1 0:0",
            "refused BadCertificate(Few { count: 1, needed: 5 })",
        ),
        (
            "writeback B conflict 0:x0 F fast 0:012345",
            "refused BadCertificate(NoConflict)",
        ),
        (
            "writeback B conflict 0:x0 Z/E fast 0:0",
            "refused BadCertificate(NoConflict)",
        ),
        (
            "writeback B conflict 0:x0 E fast 0:01234x5",
            "refused BadCertificate(BadSignature(0))",
        ),
        (
            "writeback B conflict 0:0 E fast 0:01234x5",
            "refused BadCertificate(BadSignature(6))",
        ),
        // None of them was taken.
        ("held 0", "0"),
        (
            "vote 0:0 B abort by E fast 0:012345",
            "writeback B conflict 0:0 E fast 0:012345 to 0:012345 1:012345",
        ),
        ("held 0", "1"),
        ("signed", "B"),
    ],
    ..TWO
};

const PURSUED: &[Scene] = &[UNPROVEN];

#[test]
fn what_is_not_proved_is_refused(rt: HostRuntime) -> Result<(), Fail> {
    plays(&rt, rt.alloc(), 1, PURSUED)
}

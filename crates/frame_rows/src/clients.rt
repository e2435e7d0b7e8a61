//! Frames that clients send: reads, both stages, and recovery.
//!
//! Above each frame stands what it says: (10, 1) is the transaction of client 1 at time 10, and 0:012 are the replicas 0, 1 and 2 of
//! shard 0.

use crate::telling::{By, Sample, are_told};
use std::test::Fail;

const FIRST: &[Sample] = &[
    // Read of a at (30, 2).
    Sample {
        cluster: [0, 1, 1, 100],
        frame: "010161000000000000001e02",
        signed: &[],
    },
    // First stage of (10, 1) writes x1 to a.
    Sample {
        cluster: [1, 1, 2, 100],
        frame: "0301000000000000000a0100010161000278310020b7ce6222f675a2b67a124d4894840b2e26b2b6bee0809dd2c429ea5e33f23d6b",
        signed: &[(
            By::Client(1),
            "012c05d55955a67c7b2d552c41c183b8433d6f2aea3709642bef3b7298bbcf7158",
            "b7ce6222f675a2b67a124d4894840b2e26b2b6bee0809dd2c429ea5e33f23d6b",
        )],
    },
    // First stage of (20, 2) deletes a.
    Sample {
        cluster: [0, 1, 1, 100],
        frame: "03020000000000000014020001016100002023bf9e1a5df172dc31de7a4ec172f7626155088c7cc2380553e721649917051a",
        signed: &[(
            By::Client(2),
            "01105dbf6aa7d6bc537d9ba202da94bce92e0796f8bc281f94207d315aac6b0c07",
            "23bf9e1a5df172dc31de7a4ec172f7626155088c7cc2380553e721649917051a",
        )],
    },
];

/// Reads and first stages.
#[test]
fn reads_and_first_stages_are_told(rt: HostRuntime) -> Result<(), Fail> {
    assert!(rt; are_told(rt.alloc(), FIRST)?);
    Ok(())
}

const SECOND: &[Sample] = &[
    // Second stage of (10, 1) writes x1 to a: commit by 0:0123.
    Sample {
        cluster: [1, 1, 2, 100],
        frame: "0501000000000000000a0100010161000278310020b7ce6222f675a2b67a124d4894840b2e26b2b6bee0809dd2c429ea5e33f23d6b00010004000020d17ba9b479b2c2cf6b13b608f7eff5dd627ef785fc88c830f762e3d4189f33440100208fffcd9a0830cbe7417deca3c67cfb2d550eb186e3cfdb2c75ceb401f70f99390200201ea23e4ccbfac176c12d38c211f73953544665a9f4bf5cf76b51d2a1ba74eeed0300208bb8436a07a1d40487f041f09314f8a3e755aa1acd037a1cb1959801582fde9f",
        signed: &[
            (
                By::Client(1),
                "012c05d55955a67c7b2d552c41c183b8433d6f2aea3709642bef3b7298bbcf7158",
                "b7ce6222f675a2b67a124d4894840b2e26b2b6bee0809dd2c429ea5e33f23d6b",
            ),
            (
                By::Replica(0, 0),
                "0200002c05d55955a67c7b2d552c41c183b8433d6f2aea3709642bef3b7298bbcf715800",
                "d17ba9b479b2c2cf6b13b608f7eff5dd627ef785fc88c830f762e3d4189f3344",
            ),
            (
                By::Replica(0, 1),
                "0200012c05d55955a67c7b2d552c41c183b8433d6f2aea3709642bef3b7298bbcf715800",
                "8fffcd9a0830cbe7417deca3c67cfb2d550eb186e3cfdb2c75ceb401f70f9939",
            ),
            (
                By::Replica(0, 2),
                "0200022c05d55955a67c7b2d552c41c183b8433d6f2aea3709642bef3b7298bbcf715800",
                "1ea23e4ccbfac176c12d38c211f73953544665a9f4bf5cf76b51d2a1ba74eeed",
            ),
            (
                By::Replica(0, 3),
                "0200032c05d55955a67c7b2d552c41c183b8433d6f2aea3709642bef3b7298bbcf715800",
                "8bb8436a07a1d40487f041f09314f8a3e755aa1acd037a1cb1959801582fde9f",
            ),
        ],
    },
    // Second stage of (13, 1) writes x1 to a: abort by 0:45.
    Sample {
        cluster: [1, 1, 2, 10],
        frame: "0501000000000000000d0100010161000278310020c1555d0613128b5c6094b93df121ad8840967a1a48c2221a642a045869b16d40010100020400200c37c5f55f503f60e015044d439a50eba2524469cc60ba94b568fde8950cf7d70500200890436a31753bdaffff9c4760096ddadfc161d7b9fec2c8e365420cddf122ec",
        signed: &[
            (
                By::Client(1),
                "0129a0feecdad5974b73307ee274b9dfc83943677a637b2d31459e0fe91224aa10",
                "c1555d0613128b5c6094b93df121ad8840967a1a48c2221a642a045869b16d40",
            ),
            (
                By::Replica(0, 4),
                "02000429a0feecdad5974b73307ee274b9dfc83943677a637b2d31459e0fe91224aa1001",
                "0c37c5f55f503f60e015044d439a50eba2524469cc60ba94b568fde8950cf7d7",
            ),
            (
                By::Replica(0, 5),
                "02000529a0feecdad5974b73307ee274b9dfc83943677a637b2d31459e0fe91224aa1001",
                "0890436a31753bdaffff9c4760096ddadfc161d7b9fec2c8e365420cddf122ec",
            ),
        ],
    },
];

/// Second stages.
#[test]
fn second_stages_are_told(rt: HostRuntime) -> Result<(), Fail> {
    assert!(rt; are_told(rt.alloc(), SECOND)?);
    Ok(())
}

const RECOVERY: &[Sample] = &[
    // Recover of (13, 1) writes x1 to a.
    Sample {
        cluster: [1, 1, 2, 10],
        frame: "0801000000000000000d0100010161000278310020c1555d0613128b5c6094b93df121ad8840967a1a48c2221a642a045869b16d40",
        signed: &[(
            By::Client(1),
            "0129a0feecdad5974b73307ee274b9dfc83943677a637b2d31459e0fe91224aa10",
            "c1555d0613128b5c6094b93df121ad8840967a1a48c2221a642a045869b16d40",
        )],
    },
    // Invoke on shard 0 by 0: commit 0 0, 1: commit 0 0, 2: commit 0 0, 3: abort 0 0, 4: abort 0 0.
    Sample {
        cluster: [1, 1, 2, 10],
        frame: "0929a0feecdad5974b73307ee274b9dfc83943677a637b2d31459e0fe91224aa100005000000000000000000000000000000000000002034608f503119b69f50735320539bb456f68bc7838cbda05e77b592d750e0150d01000000000000000000000000000000000000208d83e0f7e3ff1f91387526811b8171fad98bff1e29ff1d7be6d4cfacc78c371e02000000000000000000000000000000000000209557a74c0721ac658b3b1ef966c98df75cd33c42d9560cb03c9b880e586af5ac030100000000000000000000000000000000002048eced98e4cf14328347df4f53a1b322207906d8a1a6e0f985a90a3949de6acf0401000000000000000000000000000000000020df1f2dc81942b14ab0ed398f9bae09daf95dcc505a48fe3252d8312c178a3449",
        signed: &[
            (
                By::Replica(0, 0),
                "04000029a0feecdad5974b73307ee274b9dfc83943677a637b2d31459e0fe91224aa100000000000000000000000000000000000",
                "34608f503119b69f50735320539bb456f68bc7838cbda05e77b592d750e0150d",
            ),
            (
                By::Replica(0, 1),
                "04000129a0feecdad5974b73307ee274b9dfc83943677a637b2d31459e0fe91224aa100000000000000000000000000000000000",
                "8d83e0f7e3ff1f91387526811b8171fad98bff1e29ff1d7be6d4cfacc78c371e",
            ),
            (
                By::Replica(0, 2),
                "04000229a0feecdad5974b73307ee274b9dfc83943677a637b2d31459e0fe91224aa100000000000000000000000000000000000",
                "9557a74c0721ac658b3b1ef966c98df75cd33c42d9560cb03c9b880e586af5ac",
            ),
            (
                By::Replica(0, 3),
                "04000329a0feecdad5974b73307ee274b9dfc83943677a637b2d31459e0fe91224aa100100000000000000000000000000000000",
                "48eced98e4cf14328347df4f53a1b322207906d8a1a6e0f985a90a3949de6acf",
            ),
            (
                By::Replica(0, 4),
                "04000429a0feecdad5974b73307ee274b9dfc83943677a637b2d31459e0fe91224aa100100000000000000000000000000000000",
                "df1f2dc81942b14ab0ed398f9bae09daf95dcc505a48fe3252d8312c178a3449",
            ),
        ],
    },
];

/// A recover, and an invoke.
#[test]
fn recovery_is_told(rt: HostRuntime) -> Result<(), Fail> {
    assert!(rt; are_told(rt.alloc(), RECOVERY)?);
    Ok(())
}

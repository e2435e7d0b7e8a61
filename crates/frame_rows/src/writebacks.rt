//! Writebacks, with certificates of each kind.
//!
//! Above each frame stands what it says: (10, 1) is the transaction of client 1 at time 10, and 0:012 are the replicas 0, 1 and 2 of
//! shard 0.

use crate::telling::{By, Sample, are_told};
use std::test::Fail;

/// The writeback of a conflict abort.
pub(crate) const CONFLICT_ABORT: &str =
    "0701000000000000001402000101610002783204ce0d8c72ad7b6c80b8656c2d8d0e49e261d3394a4a8e0c27e663d5d995b3e0350000002007e07c08abc4a0603fe71f94be9d11e45736da7b2fb8ba8abbb225f6ddd4723301000000000000001e0101016100000000000000000000000000000000000000000000000000000000000000000000000000000000000000019cb39ac9c7cc56642ea9ceeb9862380d3273ca0ea7f07365ef32b2d151ed9c32010006000020d280728d92fcf4263707240560683ead8a22b5a37033bd62c3a87b8af23877ac010020c0f2858aed2558cff97d2a45210973d86440868dce6e17f635adb3f78ae6de43020020b4b8f2a6412a3d6e6ba809d6b62eefc27d5745badc054c367b2bc4ebeaaca80103002014f6ff0f789ac29cb952178d5ed37e961acd7c12e8818f452e79455500802f7a040020f28bd5829193302705c6835a2ad1d0eca6e72b61a25bbdfbfb186a81fb90b63605002051d569c4c2a59f38867df60c191465265f6015c289fb1105c10c280d9a5202e0";

const COMMITS: &[Sample] = &[
    // Writeback of (30, 1) reads a of genesis: fast commit of 0:012345.
    Sample {
        cluster: [1, 1, 2, 100],
        frame: "0701000000000000001e0101016100000000000000000000000000000000000000000000000000000000000000000000000000000000000000019cb39ac9c7cc56642ea9ceeb9862380d3273ca0ea7f07365ef32b2d151ed9c32010006000020d280728d92fcf4263707240560683ead8a22b5a37033bd62c3a87b8af23877ac010020c0f2858aed2558cff97d2a45210973d86440868dce6e17f635adb3f78ae6de43020020b4b8f2a6412a3d6e6ba809d6b62eefc27d5745badc054c367b2bc4ebeaaca80103002014f6ff0f789ac29cb952178d5ed37e961acd7c12e8818f452e79455500802f7a040020f28bd5829193302705c6835a2ad1d0eca6e72b61a25bbdfbfb186a81fb90b63605002051d569c4c2a59f38867df60c191465265f6015c289fb1105c10c280d9a5202e0",
        signed: &[
            (
                By::Replica(0, 0),
                "0200009cb39ac9c7cc56642ea9ceeb9862380d3273ca0ea7f07365ef32b2d151ed9c3200",
                "d280728d92fcf4263707240560683ead8a22b5a37033bd62c3a87b8af23877ac",
            ),
            (
                By::Replica(0, 1),
                "0200019cb39ac9c7cc56642ea9ceeb9862380d3273ca0ea7f07365ef32b2d151ed9c3200",
                "c0f2858aed2558cff97d2a45210973d86440868dce6e17f635adb3f78ae6de43",
            ),
            (
                By::Replica(0, 2),
                "0200029cb39ac9c7cc56642ea9ceeb9862380d3273ca0ea7f07365ef32b2d151ed9c3200",
                "b4b8f2a6412a3d6e6ba809d6b62eefc27d5745badc054c367b2bc4ebeaaca801",
            ),
            (
                By::Replica(0, 3),
                "0200039cb39ac9c7cc56642ea9ceeb9862380d3273ca0ea7f07365ef32b2d151ed9c3200",
                "14f6ff0f789ac29cb952178d5ed37e961acd7c12e8818f452e79455500802f7a",
            ),
            (
                By::Replica(0, 4),
                "0200049cb39ac9c7cc56642ea9ceeb9862380d3273ca0ea7f07365ef32b2d151ed9c3200",
                "f28bd5829193302705c6835a2ad1d0eca6e72b61a25bbdfbfb186a81fb90b636",
            ),
            (
                By::Replica(0, 5),
                "0200059cb39ac9c7cc56642ea9ceeb9862380d3273ca0ea7f07365ef32b2d151ed9c3200",
                "51d569c4c2a59f38867df60c191465265f6015c289fb1105c10c280d9a5202e0",
            ),
        ],
    },
    // Writeback of (10, 1) writes x1 to a: logged commit in view 0 of shard 0 by 0@0 1@0 2@0 3@0 4@0.
    Sample {
        cluster: [1, 1, 2, 100],
        frame: "0701000000000000000a010001016100027831022c05d55955a67c7b2d552c41c183b8433d6f2aea3709642bef3b7298bbcf715800000000000000000000050000000000000000000020fcf7a151b3435ef06637b4c5f992b9b6ddf19735d707d744e957199d1bc04be50100000000000000000020cd1ad38c39ad3137c95ff65edd07d8b1534996e3ed8a8b354627ef666da4c90102000000000000000000207375852d70239a3f1350f30502f410afb9af1d2203f43745ad12d26b58443cc903000000000000000000205614cf6ca660a27baf175873c9a6f956271ed94fa7cabc35618accc2fd91d53704000000000000000000205b66a1c8be57ab9f4dcd49e1a2f31f673f5d2303cbf07d15d9684cff82443009",
        signed: &[
            (
                By::Replica(0, 0),
                "0400002c05d55955a67c7b2d552c41c183b8433d6f2aea3709642bef3b7298bbcf71580000000000000000000000000000000000",
                "fcf7a151b3435ef06637b4c5f992b9b6ddf19735d707d744e957199d1bc04be5",
            ),
            (
                By::Replica(0, 1),
                "0400012c05d55955a67c7b2d552c41c183b8433d6f2aea3709642bef3b7298bbcf71580000000000000000000000000000000000",
                "cd1ad38c39ad3137c95ff65edd07d8b1534996e3ed8a8b354627ef666da4c901",
            ),
            (
                By::Replica(0, 2),
                "0400022c05d55955a67c7b2d552c41c183b8433d6f2aea3709642bef3b7298bbcf71580000000000000000000000000000000000",
                "7375852d70239a3f1350f30502f410afb9af1d2203f43745ad12d26b58443cc9",
            ),
            (
                By::Replica(0, 3),
                "0400032c05d55955a67c7b2d552c41c183b8433d6f2aea3709642bef3b7298bbcf71580000000000000000000000000000000000",
                "5614cf6ca660a27baf175873c9a6f956271ed94fa7cabc35618accc2fd91d537",
            ),
            (
                By::Replica(0, 4),
                "0400042c05d55955a67c7b2d552c41c183b8433d6f2aea3709642bef3b7298bbcf71580000000000000000000000000000000000",
                "5b66a1c8be57ab9f4dcd49e1a2f31f673f5d2303cbf07d15d9684cff82443009",
            ),
        ],
    },
];

/// A fast commit, and log replies.
#[test]
fn commits_are_told(rt: HostRuntime) -> Result<(), Fail> {
    assert!(rt; are_told(rt.alloc(), COMMITS)?);
    Ok(())
}

const ABORTS: &[Sample] = &[
    // Writeback of (20, 1) writes x1 to a: fast abort of 0:0.
    Sample {
        cluster: [0, 1, 1, 100],
        frame: "0701000000000000001401000101610002783103bb9dd16ff21101d20968a3a181411ad02c8cef92dc8ab6fe86906b60a8701a32000100002091e46b4fb403f28c31547574428d5aeb705a38f0c0f3fe0d4ab9080fb7d79af6",
        signed: &[(
            By::Replica(0, 0),
            "020000bb9dd16ff21101d20968a3a181411ad02c8cef92dc8ab6fe86906b60a8701a3201",
            "91e46b4fb403f28c31547574428d5aeb705a38f0c0f3fe0d4ab9080fb7d79af6",
        )],
    },
    Sample {
        cluster: [1, 1, 2, 100],
        frame: CONFLICT_ABORT,
        signed: &[
            (
                By::Replica(0, 0),
                "020000ce0d8c72ad7b6c80b8656c2d8d0e49e261d3394a4a8e0c27e663d5d995b3e03501",
                "07e07c08abc4a0603fe71f94be9d11e45736da7b2fb8ba8abbb225f6ddd47233",
            ),
            (
                By::Replica(0, 0),
                "0200009cb39ac9c7cc56642ea9ceeb9862380d3273ca0ea7f07365ef32b2d151ed9c3200",
                "d280728d92fcf4263707240560683ead8a22b5a37033bd62c3a87b8af23877ac",
            ),
            (
                By::Replica(0, 1),
                "0200019cb39ac9c7cc56642ea9ceeb9862380d3273ca0ea7f07365ef32b2d151ed9c3200",
                "c0f2858aed2558cff97d2a45210973d86440868dce6e17f635adb3f78ae6de43",
            ),
            (
                By::Replica(0, 2),
                "0200029cb39ac9c7cc56642ea9ceeb9862380d3273ca0ea7f07365ef32b2d151ed9c3200",
                "b4b8f2a6412a3d6e6ba809d6b62eefc27d5745badc054c367b2bc4ebeaaca801",
            ),
            (
                By::Replica(0, 3),
                "0200039cb39ac9c7cc56642ea9ceeb9862380d3273ca0ea7f07365ef32b2d151ed9c3200",
                "14f6ff0f789ac29cb952178d5ed37e961acd7c12e8818f452e79455500802f7a",
            ),
            (
                By::Replica(0, 4),
                "0200049cb39ac9c7cc56642ea9ceeb9862380d3273ca0ea7f07365ef32b2d151ed9c3200",
                "f28bd5829193302705c6835a2ad1d0eca6e72b61a25bbdfbfb186a81fb90b636",
            ),
            (
                By::Replica(0, 5),
                "0200059cb39ac9c7cc56642ea9ceeb9862380d3273ca0ea7f07365ef32b2d151ed9c3200",
                "51d569c4c2a59f38867df60c191465265f6015c289fb1105c10c280d9a5202e0",
            ),
        ],
    },
];

/// A fast abort, and a conflict abort.
#[test]
fn aborts_are_told(rt: HostRuntime) -> Result<(), Fail> {
    assert!(rt; are_told(rt.alloc(), ABORTS)?);
    Ok(())
}

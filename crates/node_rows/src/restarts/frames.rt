//! Frames in hex, as docs/formats.md makes them: of a cluster of one shard, with plain signatures.

use basil_types::party::Party;
use std::alloc::Global;
use std::test::Fail;

pub(crate) const CLIENT_1: Party = Party::Client { number: 1 };

pub(crate) const CLIENT_2: Party = Party::Client { number: 2 };

pub(crate) const CLIENT_3: Party = Party::Client { number: 3 };

pub(crate) const REPLICA_0: Party = Party::Replica { shard: 0, index: 0 };

pub(crate) const REPLICA_1: Party = Party::Replica { shard: 0, index: 1 };

pub(crate) const REPLICA_2: Party = Party::Replica { shard: 0, index: 2 };

pub(crate) const REPLICA_3: Party = Party::Replica { shard: 0, index: 3 };

pub(crate) const REPLICA_4: Party = Party::Replica { shard: 0, index: 4 };

/// The id of A, the transaction of client 1 at time 10 that writes x1 to a.
pub(crate) const ID_A: [u8; 32] = [
    0x2c, 0x05, 0xd5, 0x59, 0x55, 0xa6, 0x7c, 0x7b, 0x2d, 0x55, 0x2c, 0x41, 0xc1, 0x83, 0xb8, 0x43,
    0x3d, 0x6f, 0x2a, 0xea, 0x37, 0x09, 0x64, 0x2b, 0xef, 0x3b, 0x72, 0x98, 0xbb, 0xcf, 0x71, 0x58,
];

/// The first stage of A.
pub(crate) const FIRST_A: &str =
    "0301000000000000000a0100010161000278310020b7ce6222f675a2b67a124d4894840b2e26b2b6bee0809dd2c429ea5e33f23d6b";

/// The vote of replica 0 to commit A.
pub(crate) const VOTE_A: &str =
    "0400002c05d55955a67c7b2d552c41c183b8433d6f2aea3709642bef3b7298bbcf715800000020d17ba9b479b2c2cf6b13b608f7eff5dd627ef785fc88c830f762e3d4189f3344";

/// The writeback of A, which commits with f = 0.
pub(crate) const WRITEBACK_A: &str =
    "0701000000000000000a010001016100027831012c05d55955a67c7b2d552c41c183b8433d6f2aea3709642bef3b7298bbcf7158010001000020d17ba9b479b2c2cf6b13b608f7eff5dd627ef785fc88c830f762e3d4189f3344";

/// The first stage of B, the transaction of client 2 at time 20 that deletes a.
pub(crate) const FIRST_B: &str =
    "03020000000000000014020001016100002023bf9e1a5df172dc31de7a4ec172f7626155088c7cc2380553e721649917051a";

/// The vote of replica 0 to abort B, without a proof.
pub(crate) const ABORT_B: &str =
    "040000105dbf6aa7d6bc537d9ba202da94bce92e0796f8bc281f94207d315aac6b0c0701000020580a187340481fadc7195fa305901e96ac48d7cd9e89282dc256505afa20a067";

/// The first stage of D, the transaction of client 3 at time 1060 that writes x1 to b.
pub(crate) const FIRST_D: &str =
    "030100000000000004240300010162000278310020ea9cbe2a383bebd112428298c2d59b6cbd9ba320f5f375d8ae015fa21758f083";

/// The vote of replica 0 to abort D, without a proof.
pub(crate) const ABORT_D: &str =
    "040000696732ab75de083448205ef5752e54ab27c527dd545825804ee7145866d2a8f401000020ba601bc7401878894d283cac727e3f57613fa331685a2bb3193b8671d0083a26";

/// The first stage of E, the transaction of client 3 at time 1054 that writes x1 to c.
pub(crate) const FIRST_E: &str =
    "0301000000000000041e0300010163000278310020165325ec1a7502f44e165b16309189d22b613987f2ba8fe3944a17b3a596ebfa";

/// The vote of replica 0 to commit E.
pub(crate) const VOTE_E: &str =
    "040000922622e3803a0e70d701f83a796f2e224945cfee299a6fb7d6272d26cc8098890000002041444f513798bb056235ff0c4774265ca8553df5db513aa380dcd62d9b4b8c2b";

/// A read of a at time 30 by client 2.
pub(crate) const READ: &str = "010161000000000000001e02";

/// The reply of replica 0 that A is prepared.
pub(crate) const REPLY_PREPARED: &str =
    "0200000161000000000000001e02000101000000000000000a01000101610002783100203d283516c7ccb6cff2dec71f8288b4dcc03d40f824a7724fb9072d67c8fcf5ed";

/// The reply of replica 0 that A is committed, by the certificate of the writeback.
pub(crate) const REPLY_COMMITTED: &str =
    "0200000161000000000000001e020101000000000000000a010001016100027831012c05d55955a67c7b2d552c41c183b8433d6f2aea3709642bef3b7298bbcf7158010001000020d17ba9b479b2c2cf6b13b608f7eff5dd627ef785fc88c830f762e3d4189f3344000020be08a55bf4e21880f64316821a9351c82ee290c973d9392dabec0a309ab2cd21";

/// Words of the replicas 0 to 4 for view 1 of the transaction of client 1 at time 13 that writes x1 to a: the first
/// three to commit it, the others to abort it.
pub(crate) const ELECT_0: &str =
    "0a01000000000000000d01000101610002783100000000000000000000010020b41d860c630a4bfb079458967b202ccbc7de6d97f29fc181dc95e68ee4619348";

pub(crate) const ELECT_1: &str =
    "0a01000000000000000d01000101610002783100010000000000000000010020e5a8006a88f0d993f202df81c15c4199ae82168c5d0c2a71dbc341539cb083ea";

pub(crate) const ELECT_2: &str =
    "0a01000000000000000d010001016100027831000200000000000000000100208a11d1f9fc981c7f5ac0dfeb1cec1c017e733ad968b7549b6c6d1f04430102f7";

pub(crate) const ELECT_3: &str =
    "0a01000000000000000d0100010161000278310003010000000000000001002092f7ddd741439f8534fe436dea8d2ee8dcb77aa1c894a24100770f793115c9f8";

pub(crate) const ELECT_4: &str =
    "0a01000000000000000d010001016100027831000401000000000000000100207b0d31f702936766ebf12f7faeadf815a3dea62c1906d0adccbe4c06a7ad3d84";

/// The proposal of replica 2 in view 1 to commit it, with these words.
pub(crate) const DECIDE: &str =
    "0b01000000000000000d01000101610002783100020000000000000000010500000020b41d860c630a4bfb079458967b202ccbc7de6d97f29fc181dc95e68ee461934801000020e5a8006a88f0d993f202df81c15c4199ae82168c5d0c2a71dbc341539cb083ea020000208a11d1f9fc981c7f5ac0dfeb1cec1c017e733ad968b7549b6c6d1f04430102f70301002092f7ddd741439f8534fe436dea8d2ee8dcb77aa1c894a24100770f793115c9f8040100207b0d31f702936766ebf12f7faeadf815a3dea62c1906d0adccbe4c06a7ad3d840020a9446b78200c6e8900f8f783a0a31fae71ddcb712c8fc8584ac16a051bbad02b";

/// The bytes that these texts spell, one after another.
pub(crate) fn joined(alloc: Global, texts: &[&str]) -> Result<Vec<u8>, Fail> {
    let mut all = Vec::new(alloc);
    for text in texts {
        let bytes = hex::decode(alloc, *text)?;
        all.extend_from_slice(&bytes)?;
    }
    Ok(all)
}

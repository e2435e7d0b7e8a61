//! The plain keys of a replay.

use basil_types::cluster::Cluster;
use basil_types::party::Party;
use keyring::laws::sign_and_ask;
use keyring::plain::{PlainKeys, PlainPen, seed_of};
use keyring::signer::Signer;
use keyring::verifier::Verifier;
use std::test::Fail;

// SHA-256 of 52 00 00, by sha256sum.
const SEED: [u8; 32] = [
    0x44, 0x20, 0x7d, 0x21, 0x03, 0x48, 0x1d, 0x8c, 0x66, 0x80, 0x55, 0xa4, 0xec, 0x4b, 0x0a, 0x32,
    0x4a, 0x4e, 0x53, 0x30, 0x42, 0x8a, 0x97, 0x14, 0x5b, 0x2c, 0x6c, 0xb6, 0xa5, 0xeb, 0x25, 0x26,
];

// SHA-256 of 43 00 01, by sha256sum.
const CLIENT_SEED: [u8; 32] = [
    0xb1, 0xcc, 0xed, 0xfa, 0xda, 0xf7, 0x6d, 0x32, 0xd3, 0xe5, 0xd5, 0x69, 0xd5, 0x6a, 0xd0, 0x04,
    0x47, 0x08, 0x52, 0x53, 0xda, 0x6b, 0x68, 0x11, 0x8c, 0x15, 0x01, 0x1e, 0x62, 0xae, 0x42, 0xd6,
];

// SHA-256 of the first seed followed by the one byte 07, by sha256sum.
const SIGNATURE: [u8; 32] = [
    0xc6, 0x2c, 0x14, 0x1b, 0x4f, 0xf8, 0x9c, 0x7d, 0x98, 0x59, 0x3e, 0x4f, 0x13, 0x7d, 0x62, 0x26,
    0x07, 0x66, 0x8b, 0xbf, 0x47, 0xff, 0x18, 0x91, 0x4a, 0x3d, 0x14, 0xe3, 0x63, 0xf7, 0xa6, 0x0e,
];

const REPLICA: Party = Party::Replica { shard: 0, index: 0 };

const CLIENT: Party = Party::Client { number: 1 };

/// Parties and their seeds.
const SEEDS: &[(Party, [u8; 32])] = &[(REPLICA, SEED), (CLIENT, CLIENT_SEED)];

#[test]
fn a_seed_is_a_digest_of_its_party(rt: HostRuntime) -> Result<(), Fail> {
    for &(party, seed) in SEEDS {
        assert!(rt; seed_of(party) == seed);
    }
    Ok(())
}

/// Parties, messages, and whether the replica's signature of the byte 07 is accepted of them.
const ASKED: &[(Party, &[u8], bool)] = &[
    // The signer and its message.
    (REPLICA, &[7], true),
    // Another message.
    (REPLICA, &[8], false),
    // Another party.
    (CLIENT, &[7], false),
];

#[test]
fn a_signature_is_of_one_party_and_message(rt: HostRuntime) -> Result<(), Fail> {
    let cluster = Cluster::new(0, 1, 1, 100)?;
    let keys = PlainKeys::new(&cluster);
    for &(party, message, accepted) in ASKED {
        assert!(rt; keys.accepts(party, message, &SIGNATURE) == accepted);
    }
    Ok(())
}

/// A pen gives the signature of its party, which is accepted, and has one fewer left.
#[test]
fn a_plain_pen_signs(rt: HostRuntime) -> Result<(), Fail> {
    let cluster = Cluster::new(0, 1, 1, 100)?;
    let keys = PlainKeys::new(&cluster);
    let mut pen = PlainPen::new(REPLICA);
    let mut out = [0u8; 32];
    assert!(rt; pen.party() == REPLICA);
    assert!(rt; pen.size() == out.len());
    assert!(rt; sign_and_ask(&keys, &mut pen, &[7], &mut out).is_ok());
    assert!(rt; out == SIGNATURE);
    assert!(rt; pen.left() == u64::MAX - 1);
    Ok(())
}

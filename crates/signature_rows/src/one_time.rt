//! One-time signatures and the chains that they are made of.

use crate::plain::{self, Leaf};
use crate::vectors::{W8H5_CHOSEN_C, W8H5_STREAM_C};
use hex::FromHex;
use lms_ots::{OtsRefusal, OtsSet, ots_candidate, ots_public, ots_sign};
use sha256_lanes::{Lane, run_chains};
use std::test::Fail;

const SEED: &str = "000102030405060708090a0b0c0d0e0f101112131415161718191a1b1c1d1e1f";

const IDENT: &str = "6465666768696a6b6c6d6e6f70717273";

/// C of leaf 0.
const STREAM: &str = "2fa4f10250808e89a25231e50fdf6ee071c65f21ef9eee784c3f2d89061ae895";

/// The one-time signature in a w8h5 signature, of 1,124 bytes behind the number of the leaf.
fn one_time_in(signature: &[u8]) -> &[u8] {
    signature.get(4..1128).unwrap_or(&[])
}

#[test]
fn one_time_signatures_of_another_program(rt: HostRuntime) -> Result<(), Fail> {
    let seed = <[u8; 32] as FromHex>::from_hex(SEED)?;
    let ident = <[u8; 16] as FromHex>::from_hex(IDENT)?;
    let c = <[u8; 32] as FromHex>::from_hex(STREAM)?;
    let public = ots_public(OtsSet::W8, &ident, 0, &seed);
    let mut made = [0u8; 1124];
    ots_sign(OtsSet::W8, &ident, 0, &seed, &c, b"", &mut made);
    let stream_c = hex::decode(rt.alloc(), W8H5_STREAM_C)?;
    assert!(rt; made.as_slice() == one_time_in(&stream_c));
    for text in [W8H5_STREAM_C, W8H5_CHOSEN_C] {
        let whole = hex::decode(rt.alloc(), text)?;
        let signature = one_time_in(&whole);
        assert!(rt; ots_candidate(OtsSet::W8, &ident, 0, b"", signature) == Ok(public));
        let refused = ots_candidate(OtsSet::W4, &ident, 0, b"", signature);
        assert!(rt; refused == Err(OtsRefusal::Length));
    }
    made[3] = 3;
    let refused = ots_candidate(OtsSet::W8, &ident, 0, b"", &made);
    assert!(rt; refused == Err(OtsRefusal::SetType));
    Ok(())
}

/// The example of RFC 8554, section 3.1.3, and its neighbours: the digits of 1234.
#[test]
fn digits_of_a_string(rt: HostRuntime) {
    let string = [0x12u8, 0x34];
    for (set, i, digit) in [
        (OtsSet::W4, 0, 1),
        (OtsSet::W4, 1, 2),
        (OtsSet::W4, 3, 4),
        (OtsSet::W8, 1, 0x34),
    ] {
        assert!(rt; plain::coef(set, &string, i) == digit);
    }
}

/// A leaf and its secrets.
struct Secrets {
    set: OtsSet,
    leaf: Leaf,
    seed: [u8; 32],
    c: [u8; 32],
}

const SECRETS: &[Secrets] = &[
    Secrets {
        set: OtsSet::W4,
        leaf: Leaf {
            ident: [0x42; 16],
            q: 3,
        },
        seed: [0x17; 32],
        c: [0xc3; 32],
    },
    Secrets {
        set: OtsSet::W8,
        leaf: Leaf {
            ident: [0x24; 16],
            q: 5,
        },
        seed: [0x71; 32],
        c: [0x3c; 32],
    },
];

#[test]
fn lanes_and_one_chain_at_a_time(rt: HostRuntime) -> Result<(), Fail> {
    for row in SECRETS {
        let (ident, q) = (row.leaf.ident, row.leaf.q);
        let plain = plain::signature(rt.alloc(), row.set, &row.leaf, &row.seed, &row.c, b"lanes")?;
        let mut made = vec![in rt.alloc(); 0u8; row.set.signature_size()]?;
        ots_sign(row.set, &ident, q, &row.seed, &row.c, b"lanes", &mut made);
        assert!(rt; made.as_slice() == plain.as_slice());
        let public = ots_public(row.set, &ident, q, &row.seed);
        assert!(rt; public == plain::public(row.set, &row.leaf, &row.seed));
        let candidate = plain::candidate(row.set, &row.leaf, b"another", &made);
        assert!(rt; ots_candidate(row.set, &ident, q, b"another", &made) == Ok(candidate));
    }
    Ok(())
}

/// A lane whose value has no byte in common with another's, with a way of `k` places.
fn lane_number(k: u8) -> Lane {
    let mut value = [0u8; 32];
    for (i, byte) in value.iter_mut().enumerate() {
        *byte = (i as u8).wrapping_mul(8).wrapping_add(k);
    }
    Lane {
        chain: u16::from(k).wrapping_mul(1000),
        place: k.wrapping_add(3),
        last: k.wrapping_mul(2).wrapping_add(3),
        value,
    }
}

/// Eight lanes with ways of 0 to 7 places.
fn different_lanes() -> [Lane; 8] {
    [
        lane_number(0),
        lane_number(1),
        lane_number(2),
        lane_number(3),
        lane_number(4),
        lane_number(5),
        lane_number(6),
        lane_number(7),
    ]
}

#[test]
fn lanes_of_different_ways(rt: HostRuntime) {
    let leaf = Leaf {
        ident: [0x42; 16],
        q: 0x0102_0304,
    };
    let lanes = different_lanes();
    let ends = run_chains(&leaf.ident, leaf.q, &lanes);
    for (lane, end) in lanes.iter().zip(ends.iter()) {
        let plain = plain::run_chain(&leaf, lane.chain, lane.place, lane.last, lane.value);
        assert!(rt; *end == plain);
    }
}

/// The digest of 55 zero bytes, from NIST's further examples of SHA-256 and from `sha256sum`: one step from zeros.
#[test]
fn known_digest_in_one_lane(rt: HostRuntime) -> Result<(), Fail> {
    let known = <[u8; 32] as FromHex>::from_hex(
        "02779466cdec163811d078815c633f21901413081449002f24aa3e80f0b88ef7",
    )?;
    let mut lanes = different_lanes();
    lanes[5] = Lane {
        chain: 0,
        place: 0,
        last: 1,
        value: [0; 32],
    };
    assert!(rt; run_chains(&[0; 16], 0, &lanes)[5] == known);
    Ok(())
}

//! HSS keys and signatures.

ghost use Rattle.std.specs.Prelude.{◌≡◌, ◌≤◌, length, IfOk};
ghost use Rattle.hss_sign.specs.Keys.{hss_size_of};

use crate::vectors::{
    RFC_LOWER_PUBLIC, RFC_LOWER_SIGNATURE, RFC_MESSAGE, RFC_UPPER_PUBLIC, RFC_UPPER_SIGNATURE,
};
use hex::FromHex;
use hss_sign::{HssFault, HssKey, HssRefusal, hss_verify};
use lms_sign::{LmsKey, LmsSet};
use sha2::{Digest, Sha256};
use std::alloc::Global;
use std::test::Fail;

/// A public key, a message and a signature.
#[derive(Drop)]
struct Signed {
    public: Vec<u8>,
    message: Vec<u8>,
    signature: Vec<u8>,
}

/// The bytes that some hexadecimal texts spell in turn.
fn bytes_of(alloc: Global, texts: &[&str]) -> Result<Vec<u8>, Fail> {
    let mut bytes = Vec::new(alloc);
    for text in texts {
        let piece = hex::decode(alloc, *text)?;
        bytes.extend_from_slice(&piece)?;
    }
    Ok(bytes)
}

/// What `hss_verify` tells: the number of the test that refuses, its level, and the number of the LMS test there; zeros
/// where none refuses.
fn told(public: &[u8], message: &[u8], signature: &[u8]) -> (u8, u8, u8) {
    match hss_verify(public, message, signature) {
        Ok(()) => (0, 0, 0),
        Err(refusal) => {
            let number = refusal.number();
            match refusal {
                HssRefusal::SetType(level) | HssRefusal::Short(level) => (number, level, 0),
                HssRefusal::Lms { level, refusal } => (number, level, refusal.number()),
                _ => (number, 0, 0),
            }
        }
    }
}

/// The two levels of RFC 8554, appendix F, test case 2: w4h10 over w8h5.
fn two_levels(alloc: Global) -> Result<Signed, Fail> {
    Ok(Signed {
        public: bytes_of(alloc, &["00000002", RFC_UPPER_PUBLIC])?,
        message: bytes_of(alloc, &[RFC_MESSAGE])?,
        signature: bytes_of(
            alloc,
            &[
                "00000001",
                RFC_UPPER_SIGNATURE,
                RFC_LOWER_PUBLIC,
                RFC_LOWER_SIGNATURE,
            ],
        )?,
    })
}

/// The lower level of that case as the only one.
#[test]
fn one_level_of_the_rfc(rt: HostRuntime) -> Result<(), Fail> {
    let public = bytes_of(rt.alloc(), &["00000001", RFC_LOWER_PUBLIC])?;
    let message = bytes_of(rt.alloc(), &[RFC_MESSAGE])?;
    let signature = bytes_of(rt.alloc(), &["00000000", RFC_LOWER_SIGNATURE])?;
    assert!(rt; told(&public, &message, &signature) == (0, 0, 0));
    Ok(())
}

/// A change of the public key or of the signature.
enum Change {
    /// None.
    None,
    /// Turns the lowest bit of the public key's byte at a place.
    Public(usize),
    /// Writes the number of levels.
    LevelCount(u8),
    /// Keeps the first bytes of the public key alone.
    CutPublic(usize),
    /// Turns the lowest bit of the signature's byte at a place.
    Signature(usize),
    /// Keeps the first bytes of the signature alone.
    Cut(usize),
}

/// Turns the lowest bit of the byte at a place.
fn turn(bytes: &mut Vec<u8>, place: usize) {
    if let Some(byte) = bytes.get_mut(place) {
        *byte ^= 1;
    }
}

fn apply(change: &Change, signed: &mut Signed) {
    match change {
        Change::None => (),
        Change::Public(place) => turn(&mut signed.public, *place),
        Change::LevelCount(count) => {
            if let Some(byte) = signed.public.get_mut(3) {
                *byte = *count;
            }
        }
        Change::CutPublic(length) => signed.public.truncate(*length),
        Change::Signature(place) => turn(&mut signed.signature, *place),
        Change::Cut(length) => signed.signature.truncate(*length),
    }
}

/// Changes of the case of two levels, whose upper signature has 2,508 bytes, and its whole signature 3,860.
const CHANGES: &[(Change, (u8, u8, u8))] = &[
    (Change::None, (0, 0, 0)), // Nothing is changed: valid.
    (Change::CutPublic(59), (1, 0, 0)), // The key lacks its last byte.
    (Change::LevelCount(0), (2, 0, 0)), // A key of no level.
    (Change::LevelCount(9), (2, 0, 0)), // A key of 9 levels, one too many.
    (Change::Public(0), (2, 0, 0)), // A key of 2^24 + 2 levels.
    (Change::LevelCount(3), (3, 0, 0)), // A key of 3 levels; the signature has 2.
    (Change::LevelCount(1), (3, 0, 0)), // A key of 1 level; the signature has 2.
    (Change::Signature(3), (3, 0, 0)), // A signature of 1 level; the key has 2.
    (Change::Cut(3), (3, 0, 0)), // The number of levels isn't whole.
    (Change::Public(11), (4, 0, 0)), // The top key's LM-OTS type is 2, of no set.
    (Change::Cut(4), (5, 0, 0)), // Nothing follows the number of levels.
    (Change::Cut(100), (5, 0, 0)), // The signature ends inside the upper one.
    (Change::Cut(2567), (5, 0, 0)), // The signature ends a byte before the end of the lower key.
    (Change::Public(59), (6, 0, 6)), // The last byte of the top key's root is another.
    (Change::Signature(2511), (6, 0, 6)), // The last byte of the upper signature is another.
    (Change::Signature(2519), (6, 0, 6)), // The lower key has LM-OTS type 5, but isn't signed so.
    (Change::Cut(3859), (6, 1, 3)), // The lower signature lacks its last byte.
    (Change::Signature(3859), (6, 1, 6)), // The last byte of the lower signature is another.
];

#[test]
fn refused_changes(rt: HostRuntime) -> Result<(), Fail> {
    for (change, refused) in CHANGES {
        let mut signed = two_levels(rt.alloc())?;
        apply(change, &mut signed);
        assert!(rt; told(&signed.public, &signed.message, &signed.signature) == *refused);
    }
    Ok(())
}

/// The next key is of no set, though it is signed.
#[test]
fn a_lower_key_of_no_set(rt: HostRuntime) -> Result<(), Fail> {
    let mut upper = LmsKey::make(rt.alloc(), &[7; 32], &[8; 16], LmsSet::W4H5, 0)?;
    let next = [0u8; 56];
    let mut part = [0u8; 2348];
    assert!(rt; upper.sign_into(&next, &mut part).is_ok());
    let mut public = bytes_of(rt.alloc(), &["00000002"])?;
    public.extend_from_slice(&upper.public())?;
    let mut signature = bytes_of(rt.alloc(), &["00000001"])?;
    signature.extend_from_slice(&part)?;
    signature.extend_from_slice(&next)?;
    assert!(rt; told(&public, b"", &signature) == (4, 1, 0));
    Ok(())
}

const SEED: &str = "000102030405060708090a0b0c0d0e0f101112131415161718191a1b1c1d1e1f";

const IDENT: &str = "6465666768696a6b6c6d6e6f70717273";

/// The public key of 32 bottom leaves under each of 32 top leaves of that seed: the number of levels, and Bouncy
/// Castle's key of the top level.
const PUBLIC: &str =
    "0000000200000005000000036465666768696a6b6c6d6e6f70717273f503830a2b4a384d52564ac898b14d11c8372b5c842aa5915c277a9efd92d2d1";

/// That key before a number.
fn key_at(alloc: Global, number: u64) -> Result<HssKey, Fail>
    requires { number ≤ 1024 }
    ensures { IfOk result (λ key. hss_size_of key.material ≡ 4756) }
{
    let seed = <[u8; 32] as FromHex>::from_hex(SEED)?;
    let ident = <[u8; 16] as FromHex>::from_hex(IDENT)?;
    let key = HssKey::make(alloc, &seed, &ident, LmsSet::W4H5, LmsSet::W4H5, number)?;
    Ok(key)
}

/// Signs with a key of signatures of 4,756 bytes, and keeps it one.
fn sign(key: &mut HssKey, message: &[u8], out: &mut [u8]) -> Result<(), HssFault>
    requires size { hss_size_of key.old.material ≡ 4756 }
    requires room { length out.old ≡ 4756 }
    ensures { hss_size_of key.new.material ≡ 4756 }
{
    key.sign_into(message, out)
}

/// A number, a message, and the SHA-256 of the signature with that number, by a Python program after RFC 8554 with
/// hashlib's SHA-256.
struct Made {
    number: u64,
    message: &'static [u8],
    digest: &'static str,
}

/// The first number, the last under the first top leaf and the first under the second, one in the middle, and the last.
const MADE: &[Made] = &[
    // The first number: top leaf 0, bottom leaf 0.
    Made {
        number: 0,
        message: b"message",
        digest: "a912a75db9a89b7b9434945006ccfa83ae0548de63b2f840b1c63088ac3c4e9d",
    },
    // The last number under the first top leaf: top leaf 0, bottom leaf 31.
    Made {
        number: 31,
        message: b"last",
        digest: "fd3dd51ff7238a7bd719d3fa23b199a1de7ecf3333f2452204e786c699fd23a5",
    },
    // The first number under the second top leaf: top leaf 1, bottom leaf 0.
    Made {
        number: 32,
        message: b"first",
        digest: "7492e4caaf850a62d76f196dd85b1dc439c72c6790fac0089b38eb258829a2ec",
    },
    // One in the middle: top leaf 2, bottom leaf 7.
    Made {
        number: 71,
        message: b"another",
        digest: "be3fe9bd86d3dfa149219693eebf62acb91cbbbb60a19b942675a07606cf03a1",
    },
    // The last but one: top leaf 31, bottom leaf 30.
    Made {
        number: 1022,
        message: b"last but one",
        digest: "9645efa61f1728f30abe3fcea5bcd2dda82d8abdcbd6923543e6f43fe162f6b9",
    },
    // The last number: top leaf 31, bottom leaf 31.
    Made {
        number: 1023,
        message: b"last",
        digest: "6ec2eebef3b6281116225988c4d1898b5bba7b657d535d76e28a0d6520deba64",
    },
];

/// Whether these are the bytes of a digest.
fn is_digest(bytes: &[u8], digest: &str) -> Result<bool, Fail> {
    let wanted = <[u8; 32] as FromHex>::from_hex(digest)?;
    Ok(Sha256::digest(bytes) == wanted)
}

/// A key that is made before a number gives that number's signature.
#[test]
fn keys_begin_at_numbers(rt: HostRuntime) -> Result<(), Fail> {
    let public = bytes_of(rt.alloc(), &[PUBLIC])?;
    for row in MADE {
        let number = row.number.min(1024);
        let left = 1024 - number;
        let mut key = key_at(rt.alloc(), number)?;
        let mut out = [0u8; 4756];
        assert!(rt; key.public().as_slice() == public.as_slice());
        assert!(rt; key.size() == 4756);
        assert!(rt; key.left() == left);
        assert!(rt; sign(&mut key, row.message, &mut out).is_ok());
        assert!(rt; is_digest(&out, row.digest)?);
        assert!(rt; told(&public, row.message, &out) == (0, 0, 0));
        assert!(rt; key.left() == left.wrapping_sub(1));
    }
    Ok(())
}

/// The next top leaf signs the next bottom key, and each number signs once.
#[test]
fn keys_go_on(rt: HostRuntime) -> Result<(), Fail> {
    // Numbers 31 and 32 pass from the first top leaf to the second; 1022 and 1023 are the last two.
    for (first, second) in [(1, 2), (4, 5)] {
        let (first, second): (&Made, &Made) = (&MADE[first], &MADE[second]);
        let mut key = key_at(rt.alloc(), first.number.min(1024))?;
        let mut out = [0u8; 4756];
        assert!(rt; sign(&mut key, first.message, &mut out).is_ok());
        assert!(rt; is_digest(&out, first.digest)?);
        assert!(rt; sign(&mut key, second.message, &mut out).is_ok());
        assert!(rt; is_digest(&out, second.digest)?);
    }
    Ok(())
}

/// A key whose last two numbers are left, and one with none.
#[test]
fn a_key_is_spent(rt: HostRuntime) -> Result<(), Fail> {
    for first in [1022u64, 1024] {
        let mut key = key_at(rt.alloc(), first)?;
        let mut out = [0u8; 4756];
        for _ in first..1024 {
            assert!(rt; key.size() == out.len());
            assert!(rt; sign(&mut key, b"message", &mut out).is_ok());
        }
        let last = out;
        assert!(rt; key.left() == 0);
        assert!(rt; key.size() == out.len());
        assert!(rt; sign(&mut key, b"one more", &mut out) == Err(HssFault::Exhausted));
        assert!(rt; out == last);
    }
    Ok(())
}

/// A signature cut to its first bytes.
fn cut(signature: &[u8; 4756]) -> &[u8] {
    &signature[..100]
}

/// What becomes of a signature and its key when a byte changes.
#[test]
fn changes_of_a_made_signature(rt: HostRuntime) -> Result<(), Fail> {
    let mut key = key_at(rt.alloc(), 0)?;
    let mut public = key.public();
    let mut out = [0u8; 4756];
    assert!(rt; sign(&mut key, b"message", &mut out).is_ok());
    assert!(rt; told(&public, b"message", cut(&out)) == (5, 0, 0));
    out[4755] ^= 1;
    assert!(rt; told(&public, b"message", &out) == (6, 1, 6));
    public[3] = 3;
    assert!(rt; told(&public, b"message", &out) == (3, 0, 0));
    Ok(())
}

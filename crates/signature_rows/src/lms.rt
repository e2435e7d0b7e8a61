//! LMS keys and signatures.

use crate::vectors::{
    CHANGED_MESSAGE, CHANGED_SIGNATURE, RFC_LOWER_PUBLIC, RFC_LOWER_SIGNATURE, RFC_MESSAGE,
    RFC_UPPER_PUBLIC, RFC_UPPER_SIGNATURE, W4H5_CHOSEN_C, W4H5_STREAM_C, W4H10_CHOSEN_C,
    W4H10_STREAM_C, W8H5_CHOSEN_C, W8H5_STREAM_C, W8H10_CHOSEN_C, W8H10_STREAM_C,
};
use hex::FromHex;
use lms_sign::{Exhausted, LmsKey, LmsSet, LmsTree, verify};
use std::test::Fail;

const ONES: &str = "0101010101010101010101010101010101010101010101010101010101010101";

const ONES_IDENT: &str = "01010101010101010101010101010101";

const COUNTING: &str = "000102030405060708090a0b0c0d0e0f101112131415161718191a1b1c1d1e1f";

const COUNTING_IDENT: &str = "6465666768696a6b6c6d6e6f70717273";

const COUNTING_W4H5: &str =
    "00000005000000036465666768696a6b6c6d6e6f70717273f503830a2b4a384d52564ac898b14d11c8372b5c842aa5915c277a9efd92d2d1";

const COUNTING_W4H10: &str =
    "00000006000000036465666768696a6b6c6d6e6f70717273c97543139bba184cfb4c94b9ade8245cd5fcd9ec0164c21be4757e3e986842a7";

const COUNTING_W8H5: &str =
    "00000005000000046465666768696a6b6c6d6e6f70717273655b375ee590821e22b1b1d97bcda24e899fa1a5354fedd9319a9df69bfd147f";

const COUNTING_W8H10: &str =
    "00000006000000046465666768696a6b6c6d6e6f70717273f9703527c6df4e305e10cb6232da1c37f27fdd992c6838886757c4ead31a151e";

/// A key that another program made from the same seed.
struct PublicKey {
    set: LmsSet,
    seed: &'static str,
    ident: &'static str,
    public: &'static str,
}

/// The public keys of Bouncy Castle, of the RFC authors' program (the first) and of RFC 8554,
/// appendix F, test case 2 (the last two).
const PUBLIC_KEYS: &[PublicKey] = &[
    // LMS type 5 and LM-OTS type 3 (w4h5), 16 bytes 01 as I, then the root; the seed is 32 bytes 01.
    PublicKey {
        set: LmsSet::W4H5,
        seed: ONES,
        ident: ONES_IDENT,
        public: "00000005000000030101010101010101010101010101010166bf6f5816eee4bbf33c50acb480e09b4169ebb533372959bc4315c388e501ac",
    },
    // The same seed and I under w4h10: LMS type 6, LM-OTS type 3, I, and the root.
    PublicKey {
        set: LmsSet::W4H10,
        seed: ONES,
        ident: ONES_IDENT,
        public: "000000060000000301010101010101010101010101010101f59d2b7804e210b9265620a3d4f64005aa1c786bf805f2ba113c77aabb20ce19",
    },
    // The same seed and I under w8h5: LMS type 5, LM-OTS type 4, I, and the root.
    PublicKey {
        set: LmsSet::W8H5,
        seed: ONES,
        ident: ONES_IDENT,
        public: "000000050000000401010101010101010101010101010101599d16861dc9aacdc40b4275991c60ebdf9decfb219eb795df51d5c9a347762a",
    },
    // The same seed and I under w8h10: LMS type 6, LM-OTS type 4, I, and the root.
    PublicKey {
        set: LmsSet::W8H10,
        seed: ONES,
        ident: ONES_IDENT,
        public: "00000006000000040101010101010101010101010101010163f3aa29d987632d5bddaa237e3d676706638f8bb9dd19da28c8fce34d2f3ccf",
    },
    // The RFC's SEED and I of the upper level give its upper public key.
    PublicKey {
        set: LmsSet::W4H10,
        seed: "558b8966c48ae9cb898b423c83443aae014a72f1b1ab5cc85cf1d892903b5439",
        ident: "d08fabd4a2091ff0a8cb4ed834e74534",
        public: RFC_UPPER_PUBLIC,
    },
    // The RFC's SEED and I of the lower level give its lower public key.
    PublicKey {
        set: LmsSet::W8H5,
        seed: "a1c4696e2608035a886100d05cd99945eb3370731884a8235e2fb3d4d71f2547",
        ident: "215f83b7ccb9acbcd08db97b0d04dc2b",
        public: RFC_LOWER_PUBLIC,
    },
];

#[test]
fn public_keys_of_other_programs(rt: HostRuntime) -> Result<(), Fail> {
    for key in PUBLIC_KEYS {
        let seed = <[u8; 32] as FromHex>::from_hex(key.seed)?;
        let ident = <[u8; 16] as FromHex>::from_hex(key.ident)?;
        let public = hex::decode(rt.alloc(), key.public)?;
        let made = LmsKey::make(rt.alloc(), &seed, &ident, key.set, 0)?;
        assert!(rt; made.public().as_slice() == public.as_slice());
    }
    Ok(())
}

/// A set, the counting seed's public key, and its signatures of the empty message by leaf 0.
struct Signed {
    set: LmsSet,
    public: &'static str,
    stream_c: &'static str,
    chosen_c: &'static str,
}

const SIGNED: &[Signed] = &[
    // Digits of 4 bits and 32 leaves: signatures of 2,348 bytes.
    Signed {
        set: LmsSet::W4H5,
        public: COUNTING_W4H5,
        stream_c: W4H5_STREAM_C,
        chosen_c: W4H5_CHOSEN_C,
    },
    // Digits of 4 bits and 1,024 leaves: signatures of 2,508 bytes.
    Signed {
        set: LmsSet::W4H10,
        public: COUNTING_W4H10,
        stream_c: W4H10_STREAM_C,
        chosen_c: W4H10_CHOSEN_C,
    },
    // Digits of 8 bits and 32 leaves: signatures of 1,292 bytes.
    Signed {
        set: LmsSet::W8H5,
        public: COUNTING_W8H5,
        stream_c: W8H5_STREAM_C,
        chosen_c: W8H5_CHOSEN_C,
    },
    // Digits of 8 bits and 1,024 leaves: signatures of 1,452 bytes.
    Signed {
        set: LmsSet::W8H10,
        public: COUNTING_W8H10,
        stream_c: W8H10_STREAM_C,
        chosen_c: W8H10_CHOSEN_C,
    },
];

/// The number of the test that refuses a signature, and 0 where none does.
fn told(public: &[u8], message: &[u8], signature: &[u8]) -> u8 {
    match verify(public, message, signature) {
        Ok(()) => 0,
        Err(refusal) => refusal.number(),
    }
}

#[test]
fn signatures_of_other_programs(rt: HostRuntime) -> Result<(), Fail> {
    let seed = <[u8; 32] as FromHex>::from_hex(COUNTING)?;
    let ident = <[u8; 16] as FromHex>::from_hex(COUNTING_IDENT)?;
    for signed in SIGNED {
        let public = hex::decode(rt.alloc(), signed.public)?;
        let stream_c = hex::decode(rt.alloc(), signed.stream_c)?;
        let chosen_c = hex::decode(rt.alloc(), signed.chosen_c)?;
        assert!(rt; told(&public, b"", &stream_c) == 0);
        assert!(rt; told(&public, b"", &chosen_c) == 0);
        let mut key = LmsKey::make(rt.alloc(), &seed, &ident, signed.set, 0)?;
        let mut made = vec![in rt.alloc(); 0u8; key.size()]?;
        assert!(rt; key.public().as_slice() == public.as_slice());
        assert!(rt; key.sign_into(b"", made.as_mut_slice()).is_ok());
        assert!(rt; made.as_slice() == stream_c.as_slice());
    }
    Ok(())
}

/// A key, a message, a signature, and the number of the test that refuses it.
struct Verdict {
    public: &'static str,
    message: &'static str,
    signature: &'static str,
    refused: u8,
}

/// RFC 8554, appendix F, test case 2: the lower signature of the message, and the upper one of the lower public key.
const OF_THE_RFC: &[Verdict] = &[
    // The lower key accepts the lower signature of the message.
    Verdict {
        public: RFC_LOWER_PUBLIC,
        message: RFC_MESSAGE,
        signature: RFC_LOWER_SIGNATURE,
        refused: 0,
    },
    // The upper key refuses the lower signature by its length: 1,292 bytes, and w4h10 has 2,508.
    Verdict {
        public: RFC_UPPER_PUBLIC,
        message: RFC_MESSAGE,
        signature: RFC_LOWER_SIGNATURE,
        refused: 3,
    },
    // The upper key accepts the upper signature of the lower public key.
    Verdict {
        public: RFC_UPPER_PUBLIC,
        message: RFC_LOWER_PUBLIC,
        signature: RFC_UPPER_SIGNATURE,
        refused: 0,
    },
    // The upper signature isn't of the message, so it leads to another root.
    Verdict {
        public: RFC_UPPER_PUBLIC,
        message: RFC_MESSAGE,
        signature: RFC_UPPER_SIGNATURE,
        refused: 6,
    },
];

#[test]
fn signatures_of_the_rfc(rt: HostRuntime) -> Result<(), Fail> {
    for row in OF_THE_RFC {
        let public = hex::decode(rt.alloc(), row.public)?;
        let message = hex::decode(rt.alloc(), row.message)?;
        let signature = hex::decode(rt.alloc(), row.signature)?;
        assert!(rt; told(&public, &message, &signature) == row.refused);
    }
    Ok(())
}

/// A change of the public key or of the signature.
enum Change {
    /// Turns a bit of the signature's byte at a place.
    Flip(usize, u8),
    /// Writes bytes of the signature at a place.
    Put(usize, [u8; 4]),
    /// Keeps the first bytes of the signature alone.
    Cut(usize),
    /// Writes the first bytes of the public key.
    Types([u8; 4]),
    /// Keeps the first bytes of the public key alone.
    CutKey(usize),
}

/// Writes bytes at a place.
fn put(bytes: &mut Vec<u8>, place: usize, piece: &[u8; 4]) {
    for (i, new) in piece.iter().enumerate() {
        if let Some(byte) = bytes.get_mut(place.wrapping_add(i)) {
            *byte = *new;
        }
    }
}

fn apply(change: &Change, public: &mut Vec<u8>, signature: &mut Vec<u8>) {
    match change {
        Change::Flip(place, bit) => {
            if let Some(byte) = signature.get_mut(*place) {
                *byte ^= 1u8.wrapping_shl(u32::from(*bit));
            }
        }
        Change::Put(place, piece) => put(signature, *place, piece),
        Change::Cut(length) => signature.truncate(*length),
        Change::Types(piece) => put(public, 0, piece),
        Change::CutKey(length) => public.truncate(*length),
    }
}

/// Changes of a signature with leaf 31, and the number of the test that refuses it then.
struct Refused {
    changes: &'static [Change],
    number: u8,
}

/// What other programs refuse, and which test fails first.
const REFUSED: &[Refused] = &[
    // Leaf 30 instead of 31 leads to another root.
    Refused {
        changes: &[Change::Flip(3, 0)],
        number: 6,
    },
    // Leaf 32 is the first behind the last.
    Refused {
        changes: &[Change::Put(0, [0x00, 0x00, 0x00, 0x20])],
        number: 5,
    },
    // Leaf 63 is out of range, though its low five bits are those of 31.
    Refused {
        changes: &[Change::Put(0, [0x00, 0x00, 0x00, 0x3f])],
        number: 5,
    },
    // The top bit of q is turned: leaf 2^31 + 31 is out of range.
    Refused {
        changes: &[Change::Flip(0, 7)],
        number: 5,
    },
    // Leaf 0 is in range, but leads to another root.
    Refused {
        changes: &[Change::Put(0, [0x00, 0x00, 0x00, 0x00])],
        number: 6,
    },
    // The signature's LM-OTS type is 0, and the key's is 3.
    Refused {
        changes: &[Change::Put(4, [0x00, 0x00, 0x00, 0x00])],
        number: 4,
    },
    // LM-OTS type 1 isn't the key's.
    Refused {
        changes: &[Change::Put(4, [0x00, 0x00, 0x00, 0x01])],
        number: 4,
    },
    // LM-OTS type 2 isn't the key's.
    Refused {
        changes: &[Change::Put(4, [0x00, 0x00, 0x00, 0x02])],
        number: 4,
    },
    // Leaf 2^32 - 1, LM-OTS type 9 and a last byte missing: the length is tested first.
    Refused {
        changes: &[
            Change::Put(0, [0xff, 0xff, 0xff, 0xff]),
            Change::Put(4, [0x00, 0x00, 0x00, 0x09]),
            Change::Cut(2347),
        ],
        number: 3,
    },
    // An empty key and an empty signature: the key's length is tested first.
    Refused {
        changes: &[Change::CutKey(0), Change::Cut(0)],
        number: 1,
    },
    // Nothing is changed, and the signature is valid.
    Refused {
        changes: &[],
        number: 0,
    },
    // The signature lacks its last byte.
    Refused {
        changes: &[Change::Cut(2347)],
        number: 3,
    },
    // LM-OTS type 4 is that of the w8 sets, but not the key's.
    Refused {
        changes: &[Change::Put(4, [0x00, 0x00, 0x00, 0x04])],
        number: 4,
    },
    // Leaf 2^32 - 1 and LM-OTS type 9: the type is tested before the leaf.
    Refused {
        changes: &[
            Change::Put(0, [0xff, 0xff, 0xff, 0xff]),
            Change::Put(4, [0x00, 0x00, 0x00, 0x09]),
        ],
        number: 4,
    },
    // The top bit of C's first byte is turned, and the signature leads to another root.
    Refused {
        changes: &[Change::Flip(8, 7)],
        number: 6,
    },
    // The signature is one byte, the first of q.
    Refused {
        changes: &[Change::Cut(1)],
        number: 3,
    },
    // The signature ends inside q.
    Refused {
        changes: &[Change::Cut(3)],
        number: 3,
    },
    // The key is one byte, the first of its LMS type.
    Refused {
        changes: &[Change::CutKey(1)],
        number: 1,
    },
    // The key ends behind its LMS type.
    Refused {
        changes: &[Change::CutKey(4)],
        number: 1,
    },
    // The key ends behind I, without a root.
    Refused {
        changes: &[Change::CutKey(24)],
        number: 1,
    },
    // The key's LMS type is 0, which is that of no set.
    Refused {
        changes: &[Change::Types([0x00, 0x00, 0x00, 0x00])],
        number: 2,
    },
    // The key's LMS type is 1, which is that of no set.
    Refused {
        changes: &[Change::Types([0x00, 0x00, 0x00, 0x01])],
        number: 2,
    },
    // The key's LMS type is 4, one below those of the sets.
    Refused {
        changes: &[Change::Types([0x00, 0x00, 0x00, 0x04])],
        number: 2,
    },
];

#[test]
fn refused_changes(rt: HostRuntime) -> Result<(), Fail> {
    let message = hex::decode(rt.alloc(), CHANGED_MESSAGE)?;
    for row in REFUSED {
        let mut public = hex::decode(rt.alloc(), COUNTING_W4H5)?;
        let mut signature = hex::decode(rt.alloc(), CHANGED_SIGNATURE)?;
        for change in row.changes {
            apply(change, &mut public, &mut signature);
        }
        assert!(rt; told(&public, &message, &signature) == row.number);
    }
    Ok(())
}

/// A key of 32 leaves signs 32 times.
#[test]
fn each_leaf_signs_once(rt: HostRuntime) -> Result<(), Fail> {
    let seed = <[u8; 32] as FromHex>::from_hex(COUNTING)?;
    let ident = <[u8; 16] as FromHex>::from_hex(COUNTING_IDENT)?;
    let mut key = LmsKey::make(rt.alloc(), &seed, &ident, LmsSet::W4H5, 0)?;
    let public = key.public();
    let mut out = [0u8; 2348];
    for q in 0..32u8 {
        assert!(rt; key.left() == 32 - u64::from(q));
        assert!(rt; key.size() == out.len());
        assert!(rt; key.sign_into(&[q], &mut out).is_ok());
        assert!(rt; out.starts_with(&[0, 0, 0, q, 0, 0, 0, 3]));
        assert!(rt; told(&public, &[q], &out) == 0);
    }
    let last = out;
    assert!(rt; key.size() == out.len());
    assert!(rt; key.sign_into(b"one more", &mut out) == Err(Exhausted));
    assert!(rt; key.left() == 0);
    assert!(rt; out == last);
    Ok(())
}

/// Keys that are made at their last leaf, of a seed and of a tree.
#[test]
fn a_key_begins_at_a_leaf(rt: HostRuntime) -> Result<(), Fail> {
    let seed = <[u8; 32] as FromHex>::from_hex(COUNTING)?;
    let ident = <[u8; 16] as FromHex>::from_hex(COUNTING_IDENT)?;
    let public = hex::decode(rt.alloc(), COUNTING_W4H5)?;
    let message = hex::decode(rt.alloc(), CHANGED_MESSAGE)?;
    let signature = hex::decode(rt.alloc(), CHANGED_SIGNATURE)?;
    let tree = LmsTree::make(rt.alloc(), &seed, &ident, LmsSet::W4H5)?;
    assert!(rt; tree.public().as_slice() == public.as_slice());
    let mut key = LmsKey::make(rt.alloc(), &seed, &ident, LmsSet::W4H5, 31)?;
    let mut another = tree.key(rt.alloc(), 31)?;
    let mut out = [0u8; 2348];
    let mut again = [0u8; 2348];
    assert!(rt; key.sign_into(&message, &mut out).is_ok());
    assert!(rt; another.sign_into(&message, &mut again).is_ok());
    assert!(rt; out == again);
    assert!(rt; out.starts_with(&[0, 0, 0, 0x1f, 0, 0, 0, 3]));
    assert!(rt; told(&public, &message, &out) == 0);
    assert!(rt; told(&public, &message, &signature) == 0);
    assert!(rt; key.sign_into(&message, &mut out) == Err(Exhausted));
    Ok(())
}

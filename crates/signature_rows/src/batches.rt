//! Batches: their signatures, what is refused, and where a message stands.

use basil_types::party::Party;
use batch_sign::{
    Batch, BatchFault, BatchKeys, BatchPen, BatchRefusal, PlaceFault, SealedBatch, place_in,
    test_form,
};
use hex::FromHex;
use keyring::plain::{PlainKeys, PlainPen};
use keyring::signer::Signer;
use keyring::verifier::Verifier;
use keyring_lms::LmsPen;
use lms_sign::LmsSet;
use sha2::{Digest, Sha256};
use std::alloc::Global;
use std::test::Fail;

pub(crate) const CLIENT: Party = Party::Client { number: 1 };

const OTHER: Party = Party::Client { number: 2 };

/// The batch of so many messages, `message 0`, `message 1` and so on.
fn numbered(alloc: Global, count: u16) -> Result<Batch, Fail> {
    let mut batch = Batch::new(alloc);
    for number in 0..count {
        let message = format!(in alloc; "message {number}")?;
        batch.add(message.as_bytes()).map_err(|_| "not added")?;
    }
    Ok(batch)
}

/// A batch of so many messages that the plain pen of client 1 signs first, and no signature behind the last.
fn sealed(alloc: Global, count: u16) -> Result<SealedBatch, Fail> {
    let batch = numbered(alloc, count)?;
    let mut pen = PlainPen::new(CLIENT);
    Ok(batch.sign(&mut pen).map_err(|_| "not signed")?)
}

/// How many messages there are, the place of one, the bytes of its signature, and their SHA-256, by a Python program
/// with hashlib's SHA-256.
const SEALED: &[(u16, u16, usize, &str)] = &[
    (
        1,
        0,
        34,
        "3c999f91277625e77f10560d4be6ad61e561ae3e93ccdd47c4b91a09239bbb3c",
    ), // alone
    (
        2,
        0,
        66,
        "2539da7526f211b09af00edec385d76ead758698160fc035dfcf6af184b75268",
    ), // a level
    (
        2,
        1,
        66,
        "a3c902e4d96905181cfbe2d567ad8347e4292612b7be062dfbb45914bf35f1bd",
    ),
    (
        3,
        0,
        98,
        "4e02325a99aaa48b42d7266916aae9d0fbcdcbaeb83125d51532a04720619d62",
    ), // the last stands twice
    (
        3,
        1,
        98,
        "f35b6ce4bec607bfea135dd3a466046c8233748b3cc9516b947ab94944a5485e",
    ),
    (
        3,
        2,
        98,
        "76665aa297e992c214dedde8d5a763ef1c12a6af702c41a8925100c4c6d4002c",
    ),
    (
        5,
        0,
        130,
        "627401849cd52846ad20e68f4a38b3eaca21aeebce5c8fe39355491202372427",
    ),
    (
        5,
        2,
        130,
        "2a03e5269553dd5730dbfa4b4bf76d2028675af4ad65e09ef71bb32934c14c3b",
    ),
    (
        5,
        4,
        130,
        "69ddac718d9f6aa47a29c29c1a9d6e5071c7b3006a5abf5ba5f89378d0774dc6",
    ),
    (
        256,
        0,
        290,
        "66b9293809cf9d917973fe5dd225286605c0935c7877c08255a2572440d05965",
    ), // full
    (
        256,
        128,
        290,
        "416a48bd7abbdd01980e09703b9c2083f48d4bc96a24fd548763978516411a2e",
    ),
    (
        256,
        255,
        290,
        "2281ae6b7c1e21cd7f727e2d7cb523493b735438b5347afabe4fbcd62b622c84",
    ),
];

/// Whether a signature has so many bytes and this digest, is accepted for its message and its party alone, and leads to
/// its place.
fn is_right(alloc: Global, row: &(u16, u16, usize, &str)) -> Result<bool, Fail> {
    let (count, place, size, digest) = *row;
    let wanted = <[u8; 32] as FromHex>::from_hex(digest)?;
    let batch = numbered(alloc, count)?;
    let made = sealed(alloc, count)?;
    let signature = made.signature(place).ok_or("no signature")?;
    let message = format!(in alloc; "message {place}")?;
    let keys = BatchKeys::new(PlainKeys);
    let accepted = keys.accepts(CLIENT, message.as_bytes(), signature)
        && !keys.accepts(OTHER, message.as_bytes(), signature)
        && !keys.accepts(CLIENT, b"another", signature);
    let found = found(alloc, &batch, message.as_bytes(), signature)?;
    Ok(
        signature.len() == size
            && Sha256::digest(signature) == wanted
            && made.signature(count).is_none()
            && accepted
            && found == Some(place),
    )
}

/// The place of a message, by a signature; none where that has no good form, or is another batch's.
fn found(
    alloc: Global,
    batch: &Batch,
    message: &[u8],
    signature: &[u8],
) -> Result<Option<u16>, Fail> {
    if test_form(signature).is_err() {
        return Ok(None);
    }
    match place_in(alloc, batch, message, signature) {
        Ok(place) => Ok(Some(place)),
        Err(PlaceFault::OtherBatch) => Ok(None),
        Err(PlaceFault::Collision { .. }) => Err("a collision".into()),
        Err(PlaceFault::NoMemory) => Err("no memory".into()),
    }
}

#[test]
fn signatures_of_batches(rt: HostRuntime) -> Result<(), Fail> {
    for row in SEALED {
        assert!(rt; is_right(rt.alloc(), row)?, "{} of {}", row.1, row.0);
    }
    Ok(())
}

/// What a batch answers where it takes no message, and how many it has then.
#[test]
fn messages_that_are_refused(rt: HostRuntime) -> Result<(), Fail> {
    let long = [0u8; 8193];
    let mut batch = numbered(rt.alloc(), 255)?;
    assert!(rt; batch.add(&[]) == Err(BatchFault::SizeOut));
    assert!(rt; batch.add(&long) == Err(BatchFault::SizeOut));
    assert!(rt; batch.add(&long[..8192]) == Ok(255));
    assert!(rt; batch.add(b"one more") == Err(BatchFault::Full));
    assert!(rt; batch.add(&[]) == Err(BatchFault::Full));
    assert!(rt; batch.messages().len() == 256);
    Ok(())
}

/// A pen of LMS signs 32 batches, whatever they have. A batch without a message spends nothing.
#[test]
fn batches_that_are_not_signed(rt: HostRuntime) -> Result<(), Fail> {
    let mut pen = LmsPen::replay(rt.alloc(), CLIENT, LmsSet::W4H5)?;
    let empty = Batch::new(rt.alloc());
    assert!(rt; empty.sign(&mut pen).err() == Some(BatchFault::Empty));
    let batch = numbered(rt.alloc(), 2)?;
    for _ in 0..32 {
        assert!(rt; batch.sign(&mut pen).is_ok());
    }
    assert!(rt; batch.sign(&mut pen).err() == Some(BatchFault::Exhausted));
    assert!(rt; empty.sign(&mut pen).err() == Some(BatchFault::Empty));
    Ok(())
}

/// The signature of the third of three messages, signed with w4h5.
fn third_signature(alloc: Global) -> Result<Vec<u8>, Fail> {
    let mut pen = LmsPen::replay(alloc, CLIENT, LmsSet::W4H5)?;
    let made = numbered(alloc, 3)?
        .sign(&mut pen)
        .map_err(|_| "not signed")?;
    let third = made.signature(2).ok_or("no signature")?;
    Ok(Vec::from_slice(alloc, third)?)
}

/// How many messages a batch has, a message, and where it stands there by that signature.
const PLACES: &[(u16, &[u8], Option<u16>)] = &[
    (3, b"message 2", Some(2)),
    // Another batch, and another message.
    (2, b"message 2", None),
    (3, b"message 1", None),
];

/// Whether it stands so.
fn is_found(
    alloc: Global,
    signature: &[u8],
    row: &(u16, &[u8], Option<u16>),
) -> Result<bool, Fail> {
    let (count, message, place) = *row;
    let batch = numbered(alloc, count)?;
    Ok(found(alloc, &batch, message, signature)? == place)
}

#[test]
fn places_of_a_signature(rt: HostRuntime) -> Result<(), Fail> {
    let third = third_signature(rt.alloc())?;
    assert!(rt; third.len() == 2414);
    for row in PLACES {
        assert!(rt;
            is_found(rt.alloc(), &third, row)?,
            "{:?} of {}",
            row.1,
            row.0
        );
    }
    Ok(())
}

/// How many of its bytes are kept, which of them are changed, and whether what is left has the form of a signature.
type Changes = (usize, &'static [(usize, u8)], Result<(), BatchRefusal>);

const CHANGES: &[Changes] = &[
    (66, &[], Ok(())),
    (65, &[], Err(BatchRefusal::Short)),
    (2414, &[(1, 4)], Err(BatchRefusal::Range)),
    (2414, &[(1, 4), (0, 9)], Err(BatchRefusal::Range)),
];

/// Whether it is so.
fn has_form(alloc: Global, signature: &[u8], row: &Changes) -> Result<bool, Fail> {
    let (kept, changes, form) = row;
    let mut changed = Vec::from_slice(alloc, signature.get(..*kept).ok_or("too short")?)?;
    for &(at, byte) in *changes {
        *changed.get_mut(at).ok_or("no such byte")? = byte;
    }
    Ok(test_form(&changed) == *form)
}

#[test]
fn changes_of_a_signature(rt: HostRuntime) -> Result<(), Fail> {
    let third = third_signature(rt.alloc())?;
    let mut place = 0usize;
    for row in CHANGES {
        assert!(rt; has_form(rt.alloc(), &third, row)?, "row {place}");
        place = place.saturating_add(1);
    }
    Ok(())
}

/// A pen of batches of one signs as a batch of one is signed, and its keyring accepts that.
#[test]
fn a_pen_of_batches(rt: HostRuntime) -> Result<(), Fail> {
    let mut pen = BatchPen::new(PlainPen::new(CLIENT));
    let mut out = [0u8; 34];
    assert!(rt; pen.size() == 34);
    assert!(rt; pen.sign_into(b"message 0", &mut out).is_ok());
    let made = sealed(rt.alloc(), 1)?;
    assert!(rt; made.signature(0) == Some(out.as_slice()));
    assert!(rt; BatchKeys::new(PlainKeys).accepts(CLIENT, b"message 0", &out));
    assert!(rt; !BatchKeys::new(PlainKeys).accepts(OTHER, b"message 0", &out));
    Ok(())
}

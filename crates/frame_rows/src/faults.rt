//! The faults of a first stage of 53 bytes: the transaction of time 10 and client 1 that writes `x1` to `a`, and its
//! client's plain signature.

use crate::answers::fault_of;
use basil_codec::BadFrame;
use basil_types::cluster::Cluster;
use std::alloc::Global;
use std::test::Fail;

/// The frame, by another program.
const FRAME: &str =
    "0301000000000000000a0100010161000278310020b7ce6222f675a2b67a124d4894840b2e26b2b6bee0809dd2c429ea5e33f23d6b";

/// Lengths from the first to the last, and the field in which a frame of such a length ends.
struct Cut {
    first: usize,
    last: usize,
    field: usize,
}

const CUTS: &[Cut] = &[
    // The empty frame lacks its kind.
    Cut {
        first: 0,
        last: 0,
        field: 0,
    },
    // A frame of the kind alone lacks the transaction's format.
    Cut {
        first: 1,
        last: 1,
        field: 1,
    },
    // The time at 2 to 9 is missing, or up to seven of its eight bytes are there.
    Cut {
        first: 2,
        last: 9,
        field: 2,
    },
    // The client, behind the time, is missing.
    Cut {
        first: 10,
        last: 10,
        field: 10,
    },
    // The number of reads is missing.
    Cut {
        first: 11,
        last: 11,
        field: 11,
    },
    // The number of writes is missing.
    Cut {
        first: 12,
        last: 12,
        field: 12,
    },
    // The length of the written key is missing.
    Cut {
        first: 13,
        last: 13,
        field: 13,
    },
    // The key's one byte, `a`, is missing.
    Cut {
        first: 14,
        last: 14,
        field: 14,
    },
    // The length of the value is missing, or its second byte is.
    Cut {
        first: 15,
        last: 16,
        field: 15,
    },
    // The value `x1` is missing, or its second byte is.
    Cut {
        first: 17,
        last: 18,
        field: 17,
    },
    // The length of the signature is missing, or its second byte is.
    Cut {
        first: 19,
        last: 20,
        field: 19,
    },
    // The signature at 21 to 52 is missing, or at most 31 of its 32 bytes are there.
    Cut {
        first: 21,
        last: 52,
        field: 21,
    },
];

/// Bytes in hex that stand at a place, and the fault that is met first.
struct Change {
    place: usize,
    digits: &'static str,
    fault: BadFrame,
}

const CHANGES: &[Change] = &[
    // The kind is 0, and kinds begin at 1.
    Change {
        place: 0,
        digits: "00",
        fault: BadFrame::Kind,
    },
    // The kind is 12, and 11 is the last.
    Change {
        place: 0,
        digits: "0c",
        fault: BadFrame::Kind,
    },
    // The transaction's format is 3, and only 1 and 2 are formats.
    Change {
        place: 1,
        digits: "03",
        fault: BadFrame::Range(1),
    },
    // The client is 0, and clients begin at 1.
    Change {
        place: 10,
        digits: "00",
        fault: BadFrame::Range(10),
    },
    // The client is 17, and 16 is the last.
    Change {
        place: 10,
        digits: "11",
        fault: BadFrame::Range(10),
    },
    // The number of reads is 33, one above the most.
    Change {
        place: 11,
        digits: "21",
        fault: BadFrame::Range(11),
    },
    // With 0 writes the key's two bytes `0161` are read as the signature's length, 353, and fewer bytes are there.
    Change {
        place: 12,
        digits: "00",
        fault: BadFrame::Short(15),
    },
    // The length of the written key is 0, and a key has a byte at least.
    Change {
        place: 13,
        digits: "00",
        fault: BadFrame::Range(13),
    },
    // The length of the written key is 65, one above the most.
    Change {
        place: 13,
        digits: "41",
        fault: BadFrame::Range(13),
    },
    // The length of the value is 257, one above the most.
    Change {
        place: 15,
        digits: "0101",
        fault: BadFrame::Range(15),
    },
    // The length of the signature is 0, and a signature has a byte at least.
    Change {
        place: 19,
        digits: "0000",
        fault: BadFrame::Range(19),
    },
];

/// The frame with other bytes at a place.
fn changed(alloc: Global, place: usize, digits: &str) -> Result<Vec<u8>, Fail> {
    let start = place.checked_mul(2).ok_or("too far")?;
    let behind = start.checked_add(digits.len()).ok_or("too far")?;
    let before = FRAME.get(..start).ok_or("too far")?;
    let after = FRAME.get(behind..).ok_or("too far")?;
    let text = format!(in alloc; "{before}{digits}{after}")?;
    Ok(hex::decode(alloc, text.as_str())?)
}

/// Whether a frame of so many bytes ends in this field.
fn ends_in(frame: &[u8], cluster: &Cluster, len: usize, field: usize) -> bool {
    match frame.get(..len) {
        Some(bytes) => fault_of(bytes, cluster) == Some(BadFrame::Short(field)),
        None => false,
    }
}

/// Whether each of these lengths ends in the field.
fn is_cut(frame: &[u8], cluster: &Cluster, cut: &Cut) -> bool {
    for len in cut.first..=cut.last {
        if !ends_in(frame, cluster, len, cut.field) {
            return false;
        }
    }
    true
}

#[test]
fn each_shorter_frame_ends_in_its_field(rt: HostRuntime) -> Result<(), Fail> {
    let cluster = Cluster::new(0, 1, 1, 100)?;
    let frame = hex::decode(rt.alloc(), FRAME)?;
    assert!(rt; frame.len() == 53 && fault_of(&frame, &cluster).is_none());
    for cut in CUTS {
        assert!(rt; is_cut(&frame, &cluster, cut));
    }
    Ok(())
}

#[test]
fn each_change_has_its_fault(rt: HostRuntime) -> Result<(), Fail> {
    let cluster = Cluster::new(0, 1, 1, 100)?;
    for change in CHANGES {
        let bytes = changed(rt.alloc(), change.place, change.digits)?;
        assert!(rt; fault_of(&bytes, &cluster) == Some(change.fault));
    }
    Ok(())
}

#[test]
fn one_byte_more_is_trailing_and_another_signature_stands(rt: HostRuntime) -> Result<(), Fail> {
    let cluster = Cluster::new(0, 1, 1, 100)?;
    let mut longer = hex::decode(rt.alloc(), FRAME)?;
    longer.push(0)?;
    assert!(rt; fault_of(&longer, &cluster) == Some(BadFrame::Trailing(53)));
    let other = changed(rt.alloc(), 52, "ff")?;
    assert!(rt; fault_of(&other, &cluster).is_none());
    Ok(())
}

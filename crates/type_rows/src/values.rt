//! Byte strings, lists and versions.

use basil_types::bytes::{Bytes, id_of};
use basil_types::list::List;
use basil_types::version::Version;
use std::test::Fail;

// SHA-256 of the three bytes abc (FIPS 180-4, its first example).
const ABC: [u8; 32] = [
    0xba, 0x78, 0x16, 0xbf, 0x8f, 0x01, 0xcf, 0xea, 0x41, 0x41, 0x40, 0xde, 0x5d, 0xae, 0x22, 0x23,
    0xb0, 0x03, 0x61, 0xa3, 0x96, 0x17, 0x7a, 0x9c, 0xb4, 0x10, 0xff, 0x61, 0xf2, 0x00, 0x15, 0xad,
];

/// Versions in ascending order: by time, then client, then id.
const ASCENDING: &[Version] = &[
    Version {
        time: 5,
        client: 4,
        id: [6; 32],
    },
    Version {
        time: 5,
        client: 4,
        id: [7; 32],
    },
    Version {
        time: 5,
        client: 5,
        id: [0; 32],
    },
    Version {
        time: 6,
        client: 0,
        id: [0; 32],
    },
];

#[test]
fn versions_are_ordered(rt: HostRuntime) {
    for (place, left) in ASCENDING.iter().enumerate() {
        assert!(rt; Version::genesis().is_below(left));
        for (other, right) in ASCENDING.iter().enumerate() {
            assert!(rt;
                left.is_below(right) == (place < other),
                "{place} and {other}"
            );
        }
    }
}

#[test]
fn bytes_are_ordered_and_have_an_id(rt: HostRuntime) -> Result<(), Fail> {
    let alloc = rt.alloc();
    let a = Bytes::copy_of(alloc, b"a")?;
    let ab = Bytes::from_vec(Vec::from_slice(alloc, b"ab")?);
    assert!(rt; ab.as_slice() == b"ab".as_slice());
    assert!(rt; a == a);
    assert!(rt; a != ab);
    assert!(rt; a.cmp(&ab).is_lt());
    assert!(rt; id_of(b"abc") == ABC);
    Ok(())
}

#[test]
fn lists_keep_their_items(rt: HostRuntime) -> Result<(), Fail> {
    let mut list: List<u8> = List::new(rt.alloc());
    list.room_for(2)?;
    list.push(3);
    list.push(4);
    assert!(rt; list.as_slice() == [3, 4].as_slice());
    let list = List::from_vec(list.into_vec());
    assert!(rt; list.as_slice() == [3, 4].as_slice());
    Ok(())
}

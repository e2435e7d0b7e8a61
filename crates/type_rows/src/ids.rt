//! Maps by ids.

use id_maps::hasher::IdHasher;
use id_maps::map::{IdMap, empty_map};
use std::hash::Hasher;
use std::test::Fail;

/// Bytes, and what they are hashed to: each byte behind a rotation by eight bits, by a program of its own.
const HASHES: &[(&[u8], u64)] = &[
    (b"", 0),
    (b"a", 0x61),
    (b"abcdefgh", 0x6162_6364_6566_6768),
    (b"abcdefghi", 0x6263_6465_6667_6808),
];

#[test]
fn bytes_are_hashed_one_after_the_other(rt: HostRuntime) -> Result<(), Fail> {
    for &(bytes, hash) in HASHES {
        let mut hasher = IdHasher::default();
        hasher.write(bytes);
        assert!(rt; hasher.finish() == hash, "{bytes:?}");
    }
    Ok(())
}

/// The rotations bring the same bytes together, so both have one hash.
const FIRST: [u8; 32] = [1; 32];

const SECOND: [u8; 32] = [2; 32];

#[test]
fn ids_of_one_hash_are_told_apart(rt: HostRuntime) -> Result<(), Fail> {
    let mut places: IdMap<[u8; 32], u32> = empty_map(rt.alloc());
    assert!(rt; places.len() == 0);
    let _ = places.insert(FIRST, 10)?;
    let _ = places.insert(SECOND, 20)?;
    assert!(rt; places.get(&FIRST) == Some(&10));
    assert!(rt; places.get(&SECOND) == Some(&20));
    assert!(rt; places.get(&[3; 32]) == None);
    Ok(())
}

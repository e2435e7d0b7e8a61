//! Bytes of transactions that were cut or altered.

use super::{DELETES, WRITES, verdict};
use basil_types::transaction::PartFault;

/// At each length the field in which the bytes end: the fields begin at 0, 1 (the time), 9, 10, 11, 12 (the key's
/// length), 13 (its byte), 14 and 16.
const FIELDS: [usize; 18] = [0, 1, 1, 1, 1, 1, 1, 1, 1, 9, 10, 11, 12, 13, 14, 14, 16, 16];

#[test]
fn each_cut_is_short_at_its_field(rt: HostRuntime) {
    for (cut, field) in FIELDS.iter().enumerate() {
        let short = Err(PartFault::Short(*field));
        assert!(rt; verdict(&WRITES[..cut], 0) == short, "cut at {cut}");
        if cut < DELETES.len() {
            assert!(rt; verdict(&DELETES[..cut], 0) == short, "cut at {cut}");
        }
    }
}

/// The write behind three other bytes.
const BEHIND: [u8; 21] = [
    7, 7, 7, 1, 0, 0, 0, 0, 0, 0, 0, 10, 1, 0, 1, 1, 0x61, 0, 2, 0x78, 0x31,
];

/// A length and a place from which the bytes are read, and what is answered.
const PLACED: &[(usize, usize, Result<(), PartFault>)] = &[
    (21, 3, Ok(())),
    (8, 3, Err(PartFault::Short(4))),
    (20, 3, Err(PartFault::Short(19))),
    (21, 0, Err(PartFault::Range(0))),
    (21, 21, Err(PartFault::Short(21))),
];

#[test]
fn offsets_count_all_the_bytes(rt: HostRuntime) {
    for &(length, at, expected) in PLACED {
        assert!(rt; length <= BEHIND.len());
        assert!(rt;
            verdict(&BEHIND[..length], at) == expected,
            "{length} from {at}"
        );
    }
}

/// Place, new byte, and what is answered.
const ALTERED_WRITES: &[(usize, u8, Result<(), PartFault>)] = &[
    (0, 0, Err(PartFault::Range(0))),
    // A deletion, with three bytes behind it.
    (0, 2, Ok(())),
    (0, 3, Err(PartFault::Range(0))),
    (1, 254, Ok(())),
    (2, 255, Ok(())),
    (3, 255, Ok(())),
    (4, 255, Ok(())),
    (5, 255, Ok(())),
    (6, 255, Ok(())),
    (7, 255, Ok(())),
    (8, 0, Ok(())),
    (9, 0, Err(PartFault::Range(9))),
    (9, 16, Ok(())),
    (9, 17, Err(PartFault::Range(9))),
    // A read of the key 01, whose version begins at 13.
    (10, 1, Err(PartFault::Short(13))),
    (10, 33, Err(PartFault::Range(10))),
    (11, 0, Ok(())),
    // The second key's length is missing.
    (11, 2, Err(PartFault::Short(18))),
    (11, 33, Err(PartFault::Range(11))),
    (12, 0, Err(PartFault::Range(12))),
    // The key is 61 00, and the value's length 02 78.
    (12, 2, Err(PartFault::Range(15))),
    (12, 64, Err(PartFault::Short(13))),
    (12, 65, Err(PartFault::Range(12))),
    (13, 0, Ok(())),
    // 01 02 is 258.
    (14, 1, Err(PartFault::Range(14))),
    (15, 1, Ok(())),
    (15, 3, Err(PartFault::Short(16))),
    (16, 0, Ok(())),
    (17, 0, Ok(())),
];

#[test]
fn each_altered_byte_has_its_verdict(rt: HostRuntime) {
    for &(place, byte, expected) in ALTERED_WRITES {
        assert!(rt; place < WRITES.len());
        let mut bytes = WRITES;
        bytes[place] = byte;
        assert!(rt; verdict(&bytes, 0) == expected, "{byte} at {place}");
    }
}

/// The same of the deletion.
const ALTERED_DELETES: &[(usize, u8, Result<(), PartFault>)] = &[
    (0, 0, Err(PartFault::Range(0))),
    // The value's length has one byte.
    (0, 1, Err(PartFault::Short(14))),
    (0, 3, Err(PartFault::Range(0))),
    (1, 254, Ok(())),
    (2, 255, Ok(())),
    (3, 255, Ok(())),
    (4, 255, Ok(())),
    (5, 255, Ok(())),
    (6, 255, Ok(())),
    (7, 255, Ok(())),
    (8, 0, Ok(())),
    (9, 0, Err(PartFault::Range(9))),
    (9, 17, Err(PartFault::Range(9))),
    (10, 1, Err(PartFault::Short(13))),
    (10, 33, Err(PartFault::Range(10))),
    (11, 0, Ok(())),
    (11, 2, Err(PartFault::Short(15))),
    (12, 0, Err(PartFault::Range(12))),
    // The key is 61 00, and the flag is missing.
    (12, 2, Err(PartFault::Short(15))),
    (13, 255, Ok(())),
    (14, 1, Err(PartFault::Short(15))),
    (14, 2, Err(PartFault::Range(14))),
];

#[test]
fn each_altered_byte_of_a_deletion_has_its_verdict(rt: HostRuntime) {
    for &(place, byte, expected) in ALTERED_DELETES {
        assert!(rt; place < DELETES.len());
        let mut bytes = DELETES;
        bytes[place] = byte;
        assert!(rt; verdict(&bytes, 0) == expected, "{byte} at {place}");
    }
}

/// Two writes, whose keys' lengths stand at 12 and 16.
const TWO_WRITES: [u8; 20] = [
    1, 0, 0, 0, 0, 0, 0, 0, 10, 1, 0, 2, 1, 0x61, 0, 0, 1, 0x61, 0, 0,
];

/// The second key's length and byte, how many bytes there are, and what is answered.
const SECOND_KEYS: &[(u8, u8, usize, Result<(), PartFault>)] = &[
    (1, 0x61, 20, Err(PartFault::Order(16))),
    (1, 0x61, 17, Err(PartFault::Short(17))),
    (0, 0x61, 20, Err(PartFault::Range(16))),
    (1, 0x62, 20, Ok(())),
];

#[test]
fn keys_ascend(rt: HostRuntime) {
    for &(length, byte, cut, expected) in SECOND_KEYS {
        assert!(rt; cut <= TWO_WRITES.len());
        let mut bytes = TWO_WRITES;
        bytes[16] = length;
        bytes[17] = byte;
        assert!(rt;
            verdict(&bytes[..cut], 0) == expected,
            "{length} {byte} cut at {cut}"
        );
    }
}

/// One read of genesis: its version of 41 bytes begins at 13, its flag stands at 54, the number of writes at 55. The
/// flag, how many bytes there are, and what is answered.
const ONE_READ: &[(u8, usize, Result<(), PartFault>)] = &[
    (0, 56, Ok(())),
    (0, 13, Err(PartFault::Short(13))),
    (0, 22, Err(PartFault::Short(13))),
    (0, 53, Err(PartFault::Short(13))),
    (0, 54, Err(PartFault::Short(54))),
    (2, 56, Err(PartFault::Range(54))),
];

#[test]
fn a_version_is_one_field(rt: HostRuntime) {
    for &(flag, cut, expected) in ONE_READ {
        let mut bytes = [0u8; 56];
        assert!(rt; cut <= bytes.len());
        for place in [0, 9, 10, 11] {
            bytes[place] = 1;
        }
        bytes[54] = flag;
        assert!(rt;
            verdict(&bytes[..cut], 0) == expected,
            "flag {flag} cut at {cut}"
        );
    }
}

//! The texts of loads. The expected ones are of a Python program that has the block function of RFC 8439 (2.3) and
//! reproduces that section's example.

use hex::FromHex;
use load_maker::load::schedule_of;
use sha2::{Digest, Sha256};
use std::alloc::Global;
use std::test::Fail;

/// A load, and its text.
struct Whole {
    seed: u64,
    count: u32,
    text: &'static [u8],
}

const WHOLE: &[Whole] = &[
    // each transaction writes two keys
    Whole {
        seed: 7,
        count: 3,
        text: b"\
            basil 1 f=1 shards=2 reads=2 delta=1000000 clock=0 keys=plain\n\
            begin t1 2 1\n\
            read t1 k5\n\
            round\n\
            round\n\
            write t1 k5 v1\n\
            write t1 k4 v1\n\
            prepare t1\n\
            round\n\
            round\n\
            begin t2 8 2\n\
            read t2 k2\n\
            round\n\
            round\n\
            write t2 k2 v2\n\
            write t2 k3 v2\n\
            prepare t2\n\
            round\n\
            begin t3 4 3\n\
            read t3 k14\n\
            round\n\
            round\n\
            write t3 k14 v3\n\
            write t3 k7 v3\n\
            prepare t3\n\
            round\n\
            settle t1 2\n\
            settle t2 8\n\
            settle t3 4\n\
            round\n\
            round\n\
            round\n\
            round\n",
    },
    // the first transaction draws one key twice and has three rounds, the second has none
    Whole {
        seed: 167,
        count: 2,
        text: b"\
            basil 1 f=1 shards=2 reads=2 delta=1000000 clock=0 keys=plain\n\
            begin t1 4 1\n\
            read t1 k1\n\
            round\n\
            round\n\
            write t1 k1 v1\n\
            prepare t1\n\
            round\n\
            round\n\
            round\n\
            begin t2 4 2\n\
            read t2 k14\n\
            round\n\
            round\n\
            write t2 k14 v2\n\
            write t2 k0 v2\n\
            prepare t2\n\
            settle t1 4\n\
            settle t2 4\n\
            round\n\
            round\n\
            round\n\
            round\n",
    },
    // no transaction
    Whole {
        seed: 7,
        count: 0,
        text: b"\
            basil 1 f=1 shards=2 reads=2 delta=1000000 clock=0 keys=plain\n\
            round\n\
            round\n\
            round\n\
            round\n",
    },
];

#[test]
fn texts_are_the_schedules(rt: HostRuntime) -> Result<(), Fail> {
    for row in WHOLE {
        let text = schedule_of(rt.alloc(), row.seed, row.count)?;
        assert!(rt; text.as_slice() == row.text);
    }
    Ok(())
}

/// A load, and the length and the SHA-256 of its text.
struct Digested {
    seed: u64,
    count: u32,
    len: usize,
    digest: &'static str,
}

const DIGESTED: &[Digested] = &[
    Digested {
        seed: 7,
        count: 200,
        len: 22391,
        digest: "d9327a678a30914a2e17439fd7203b691fba175c0d27690d112cd00b02bbe849",
    },
    Digested {
        seed: 0,
        count: 1,
        len: 178,
        digest: "a433462f3c015ef397723837dee218226d9cc86c5bd84c132fd19afb0d88cee2",
    },
    Digested {
        seed: 18_446_744_073_709_551_615,
        count: 2,
        len: 292,
        digest: "6bdab36716020b2da6b183355571081dc77c1c9bcdc52efb7641353d4730b264",
    },
    Digested {
        seed: 12,
        count: 16,
        len: 1714,
        digest: "949d4f492f695d13917715a7a3f52209e88e38bf46cf7fe7faaa1f4614b384da",
    },
];

/// Whether the text of a load has its length and its digest.
fn is_digested(alloc: Global, row: &Digested) -> Result<bool, Fail> {
    let text = schedule_of(alloc, row.seed, row.count)?;
    let wanted = <[u8; 32] as FromHex>::from_hex(row.digest)?;
    Ok(text.len() == row.len && Sha256::digest(&text) == wanted)
}

#[test]
fn texts_have_their_digests(rt: HostRuntime) -> Result<(), Fail> {
    for row in DIGESTED {
        assert!(rt; is_digested(rt.alloc(), row)?, "{} {}", row.seed, row.count);
    }
    Ok(())
}

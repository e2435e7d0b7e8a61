//! Links in memory.

use basil_types::links::{LinkFail, Links, MemLinks, SureLinks};
use std::alloc::Global;
use std::test::Fail;

/// Two connections, the second of which is empty.
fn connections(alloc: Global) -> Result<Vec<Vec<u8>>, Fail> {
    let mut all = Vec::new(alloc);
    all.push(Vec::from_slice(alloc, &[1, 2, 3])?)?;
    all.push(Vec::new(alloc))?;
    Ok(all)
}

/// A call of links.
enum Call {
    Carry(&'static [u8]),
    Open,
    Listen,
    Accept,
    Read,
    Write(&'static [u8]),
    Close,
}

/// Makes one call, whose bytes go into the vector: what was carried, or read by a buffer of two.
fn make<L: Links>(links: &mut L, what: &Call, given: &mut Vec<u8>) -> Result<(), LinkFail> {
    match what {
        Call::Carry(frame) => links.carry(frame, given),
        Call::Open => links.open("party:1"),
        Call::Listen => links.listen("party:1"),
        Call::Accept => links.accept(),
        Call::Read => {
            let mut buf = [0u8; 2];
            let count = links.read(&mut buf)?;
            given.clear();
            if given.extend_from_slice(&buf[..count]).is_err() {
                return Err(LinkFail::NoMemory);
            }
            Ok(())
        }
        Call::Write(bytes) => links.write(bytes),
        Call::Close => {
            links.close();
            Ok(())
        }
    }
}

/// Calls of which the third and the ninth fail, where the second carry changes a bit; and the bytes given by then.
const CALLS: &[(Call, Result<(), LinkFail>, &[u8])] = &[
    (Call::Carry(&[8, 7]), Ok(()), &[8, 7]),
    (Call::Carry(&[8, 7]), Ok(()), &[8, 6]),
    (Call::Open, Err(LinkFail::Failed), &[8, 6]),
    (Call::Open, Ok(()), &[8, 6]),
    (Call::Read, Ok(()), &[1, 2]),
    (Call::Read, Ok(()), &[3]),
    (Call::Read, Ok(()), &[]),
    (Call::Write(&[9]), Ok(()), &[]),
    (Call::Write(&[8]), Err(LinkFail::Failed), &[]),
    (Call::Close, Ok(()), &[]),
    (Call::Read, Ok(()), &[]),
    (Call::Carry(&[8, 7]), Ok(()), &[8, 7]),
    (Call::Listen, Ok(()), &[8, 7]),
    (Call::Accept, Ok(()), &[8, 7]),
    (Call::Accept, Ok(()), &[8, 7]),
    (Call::Read, Ok(()), &[]),
    (Call::Write(&[7]), Ok(()), &[]),
];

#[test]
fn links_carry_and_connect(rt: HostRuntime) -> Result<(), Fail> {
    let alloc = rt.alloc();
    let changed = Vec::from_slice(alloc, &[2u64])?;
    let failing = Vec::from_slice(alloc, &[3u64, 9])?;
    let mut links = MemLinks::new(alloc, connections(alloc)?, changed, failing);
    let mut given = Vec::new(alloc);
    for (place, (what, answer, bytes)) in CALLS.iter().enumerate() {
        assert!(rt;
            make(&mut links, what, &mut given) == *answer,
            "call {place}"
        );
        assert!(rt; given.as_slice() == *bytes, "call {place}");
    }
    assert!(rt; links.written() == [9, 7].as_slice());
    Ok(())
}

/// Calls that never fail, and the bytes given by then.
const SURE_CALLS: &[(Call, &[u8])] = &[
    (Call::Carry(&[8, 7]), &[8, 6]),
    (Call::Carry(&[8, 7]), &[8, 7]),
    (Call::Listen, &[8, 7]),
    (Call::Accept, &[8, 7]),
    (Call::Read, &[1, 2]),
    (Call::Open, &[1, 2]),
    (Call::Read, &[]),
    (Call::Write(&[9]), &[]),
    (Call::Close, &[]),
    (Call::Read, &[]),
];

#[test]
fn sure_links_carry_and_connect(rt: HostRuntime) -> Result<(), Fail> {
    let alloc = rt.alloc();
    let changed = Vec::from_slice(alloc, &[1u64])?;
    let mut links = SureLinks::new(alloc, connections(alloc)?, changed);
    let mut given = Vec::new(alloc);
    for (place, (what, bytes)) in SURE_CALLS.iter().enumerate() {
        assert!(rt;
            make(&mut links, what, &mut given) == Ok(()),
            "call {place}"
        );
        assert!(rt; given.as_slice() == *bytes, "call {place}");
    }
    Ok(())
}

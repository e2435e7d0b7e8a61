//! A replica that serves connections in memory. Expected bytes are from the worked example of docs/formats.md and an
//! independent program that follows it.

use basil_types::clock::MemClock;
use basil_types::cluster::Cluster;
use basil_types::links::MemLinks;
use basil_types::party::Party;
use keyring::plain::{PlainKeys, PlainPen};
use node_link::{ServeFault, serve};
use replica_core::Replica;
use std::alloc::Global;
use std::test::Fail;

/// A first stage from client 1, and then a byte that is no frame.
const FIRST: &str =
    "010001000000350301000000000000000a0100010161000278310020b7ce6222f675a2b67a124d4894840b2e26b2b6bee0809dd2c429ea5e33f23d6b0100010000000103";
/// One vote for client 1.
const VOTE: &str =
    "00000001010001000000470400002c05d55955a67c7b2d552c41c183b8433d6f2aea3709642bef3b7298bbcf715800000020d17ba9b479b2c2cf6b13b608f7eff5dd627ef785fc88c830f762e3d4189f3344";
/// A read from client 2, and its reply.
const READ: &str = "0100020000000c010161000000000000001e02";

const REPLY: &str =
    "00000001010002000000320200000161000000000000001e0200000020412f4adb799dfb5ec5d25e6c70c8267bbda5e218018a8adcb2ba051ef76655d7";
/// A byte that is no frame, and the answer to it.
const BAD: &str = "0100010000000103";

const NONE: &str = "00000000";
/// A party that nobody has, before a byte that is no frame.
const NOBODY: &str = "0200010100010000000103";

/// Connections, the calls of links that fail, what serving them answers, and what is written.
type Row = (
    &'static [&'static str],
    &'static [u64],
    Result<u64, ServeFault>,
    &'static [&'static str],
);

/// The calls are: listen; of the first connection accept, read, a write for each envelope and the last read; and so on.
const ROWS: &[Row] = &[
    // Two connections: a first stage is answered by a vote, and each byte that is no frame by the count 0.
    (&[FIRST, BAD], &[], Ok(3), &[VOTE, NONE, NONE]),
    // A read is answered by its reply.
    (&[READ], &[], Ok(1), &[REPLY]),
    // No connection is accepted.
    (&[], &[], Ok(0), &[]),
    // Of three connections the second alone has bytes.
    (&["", BAD, ""], &[], Ok(1), &[NONE]),
    // A party that nobody has ends the first connection before its frame, and the second is served.
    (&[NOBODY, BAD], &[], Ok(1), &[NONE]),
    // Client 1 with the frame `03`, a party that nobody has, and client 1 with `03` again: the first alone is answered.
    (
        &["01000100000001030200010100010000000103"],
        &[],
        Ok(1),
        &[NONE],
    ),
    // Client 1 and a length of 1 without the frame: nothing of it is handled, and the next connection is served.
    (&["01000100000001", BAD], &[], Ok(1), &[NONE]),
    // It fails to listen.
    (&[FIRST, BAD], &[1], Err(ServeFault::LinkFault), &[]),
    // It fails to accept the first connection.
    (&[FIRST, BAD], &[2], Err(ServeFault::LinkFault), &[]),
    // It fails to accept the second connection: what the first was answered is written.
    (
        &[FIRST, BAD],
        &[7],
        Err(ServeFault::LinkFault),
        &[VOTE, NONE],
    ),
    // The first read fails, and the next connection is served.
    (&[FIRST, BAD], &[3], Ok(1), &[NONE]),
    // The first write fails: its frame was handled, the one behind it isn't, and the next connection is served.
    (&[FIRST, BAD], &[4], Ok(2), &[NONE]),
    // The second write fails: both frames were handled, one answer is written, and the next connection is served.
    (&[FIRST, BAD], &[5], Ok(3), &[VOTE, NONE]),
    // The read behind both envelopes fails: both were answered, and the next connection is served.
    (&[FIRST, BAD], &[6], Ok(3), &[VOTE, NONE, NONE]),
];

/// The texts, in bytes.
fn bytes_of(alloc: Global, texts: &[&str]) -> Result<Vec<Vec<u8>>, Fail> {
    let mut all = Vec::new(alloc);
    for text in texts {
        all.push(hex::decode(alloc, *text)?)?;
    }
    Ok(all)
}

/// The texts, one after another.
fn joined(alloc: Global, texts: &[&str]) -> Result<Vec<u8>, Fail> {
    let mut all = Vec::new(alloc);
    for text in texts {
        let bytes = hex::decode(alloc, *text)?;
        all.extend_from_slice(&bytes)?;
    }
    Ok(all)
}

/// Links over these connections, of which these calls fail.
fn links_of(alloc: Global, connections: &[&str], failing: &[u64]) -> Result<MemLinks, Fail> {
    let failing = Vec::from_slice(alloc, failing)?;
    Ok(MemLinks::new(
        alloc,
        bytes_of(alloc, connections)?,
        Vec::new(alloc),
        failing,
    ))
}

/// What the only replica of a cluster answers, whose clock stands at 10 and then at 0.
fn served(
    alloc: Global,
    links: &mut MemLinks,
    connections: u64,
) -> Result<Result<u64, ServeFault>, Fail> {
    if connections > 1000 {
        return Err("too many".into());
    }
    let cluster = Cluster::new(0, 1, 1, 100)?;
    let mut clock = MemClock::new(Vec::from_slice(alloc, &[10u64])?);
    let party = Party::Replica { shard: 0, index: 0 };
    let mut replica = Replica::new(
        alloc,
        cluster,
        0,
        0,
        PlainKeys::new(&cluster),
        PlainPen::new(party),
    );
    Ok(serve(
        alloc,
        &mut replica,
        cluster,
        "127.0.0.1:7000",
        links,
        &mut clock,
        connections,
    ))
}

#[test]
fn connections_are_served(rt: HostRuntime) -> Result<(), Fail> {
    let alloc = rt.alloc();
    for &(connections, failing, answer, written) in ROWS {
        let mut links = links_of(alloc, connections, failing)?;
        let given = served(alloc, &mut links, connections.len() as u64)?;
        assert!(rt; given == answer, "{connections:?} {failing:?}");
        let bytes = joined(alloc, written)?;
        assert!(rt;
            links.written() == bytes.as_slice(),
            "{connections:?} {failing:?}"
        );
    }
    Ok(())
}

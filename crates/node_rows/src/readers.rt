//! Readers of connections, fed in pieces.

use basil_types::cluster::Cluster;
use basil_types::outbox::Envelope;
use basil_types::party::Party;
use node_link::{EndCause, FrameReader};
use std::alloc::Global;
use std::test::Fail;

/// A cluster of six replicas in each of two shards.
fn cluster_of() -> Result<Cluster, Fail> {
    Ok(Cluster::new(1, 2, 2, 5)?)
}

/// A reader that was fed these pieces.
fn reader_of(alloc: Global, pieces: &[&[u8]]) -> Result<FrameReader, Fail> {
    let mut reader = FrameReader::new(alloc, cluster_of()?);
    for piece in pieces {
        reader.feed(piece)?;
    }
    Ok(reader)
}

/// Whether the envelope is to or from this party, with this frame.
fn is_envelope(given: &Option<Envelope>, party: Party, frame: &[u8]) -> bool {
    match given {
        Some(envelope) => envelope.to == party && envelope.frame.as_slice() == frame,
        None => false,
    }
}

/// A byte from client 1.
const SHORT: &[u8] = &[1, 0, 1, 0, 0, 0, 1, 3];

const CLIENT: Party = Party::Client { number: 1 };

#[test]
fn an_envelope_comes_with_its_last_byte(rt: HostRuntime) -> Result<(), Fail> {
    let mut reader = reader_of(rt.alloc(), &[])?;
    let mut fed = 0usize;
    for byte in SHORT {
        assert!(rt; reader.next().is_none(), "byte {fed}");
        reader.feed(&[*byte])?;
        fed = fed.saturating_add(1);
    }
    assert!(rt; is_envelope(&reader.next(), CLIENT, &[3]));
    assert!(rt; reader.next().is_none());
    assert!(rt; reader.ended() == None);
    Ok(())
}

/// What is fed at once, how many whole envelopes it has, and why it ends.
const ENDS: &[(&[u8], usize, Option<EndCause>)] = &[
    // A whole envelope, and a second one whose length is a byte above the greatest.
    (
        &[1, 0, 1, 0, 0, 0, 1, 3, 1, 0, 1, 0, 0x10, 0, 1],
        1,
        Some(EndCause::TooLong(1_048_577)),
    ),
    // The greatest length, 1,048,576.
    (&[1, 0, 1, 0, 0x10, 0, 0], 0, None),
    // The greatest number of four bytes as a length.
    (
        &[1, 0, 1, 0xff, 0xff, 0xff, 0xff],
        0,
        Some(EndCause::TooLong(4_294_967_295)),
    ),
    // The length 0.
    (&[1, 0, 1, 0, 0, 0, 0], 0, Some(EndCause::Empty)),
    // A length isn't tested before its fourth byte.
    (&[1, 0, 1, 0, 0, 0], 0, None),
    // The first byte of a party is 0 or 1, and here 2.
    (&[2, 0, 1], 0, Some(EndCause::Party)),
    // A party isn't tested before its third byte.
    (&[2, 0], 0, None),
    // The second byte of a client is 0, and here 1.
    (&[1, 1, 1], 0, Some(EndCause::Party)),
    // A client is 1 to 16: 0 and 17 are none.
    (&[1, 0, 0], 0, Some(EndCause::Party)),
    (&[1, 0, 16], 0, None),
    (&[1, 0, 17], 0, Some(EndCause::Party)),
    // The last replica of the last shard.
    (&[0, 1, 5], 0, None),
    // There is no shard 2, and no replica 6.
    (&[0, 2, 5], 0, Some(EndCause::Party)),
    (&[0, 1, 6], 0, Some(EndCause::Party)),
    // A whole envelope is dropped behind the end, which is a party that nobody has, or the length 0.
    (&[2, 0, 1, 1, 0, 1, 0, 0, 0, 1, 3], 0, Some(EndCause::Party)),
    (
        &[1, 0, 1, 0, 0, 0, 0, 1, 0, 1, 0, 0, 0, 1, 3],
        0,
        Some(EndCause::Empty),
    ),
    // No byte at all.
    (&[], 0, None),
];

/// How many envelopes a reader still has, at most 100.
fn count_of(reader: &mut FrameReader) -> usize {
    for count in 0..100 {
        if reader.next().is_none() {
            return count;
        }
    }
    100
}

#[test]
fn a_connection_ends_where_the_rules_say(rt: HostRuntime) -> Result<(), Fail> {
    let alloc = rt.alloc();
    for &(bytes, count, cause) in ENDS {
        let mut reader = reader_of(alloc, &[bytes])?;
        assert!(rt; reader.ended() == cause, "{bytes:?}");
        assert!(rt; count_of(&mut reader) == count, "{bytes:?}");
    }
    Ok(())
}

#[test]
fn an_envelope_stands_before_the_end(rt: HostRuntime) -> Result<(), Fail> {
    let mut reader = reader_of(rt.alloc(), &[SHORT, &[1, 0, 1, 0, 0x10, 0, 1]])?;
    assert!(rt; is_envelope(&reader.next(), CLIENT, &[3]));
    assert!(rt; reader.next().is_none());
    assert!(rt; reader.ended() == Some(EndCause::TooLong(1_048_577)));
    reader.feed(SHORT)?;
    assert!(rt; reader.next().is_none());
    assert!(rt; reader.ended() == Some(EndCause::TooLong(1_048_577)));
    Ok(())
}

/// Three envelopes: of client 1, of replica 5 of shard 1, and of client 16.
const THREE: &[u8] = &[
    1, 0, 1, 0, 0, 0, 1, 3, 0, 1, 5, 0, 0, 0, 2, 8, 9, 1, 0, 16, 0, 0, 0, 3, 5, 6, 7,
];

/// Whether a reader has these three and nothing else.
fn has_three(reader: &mut FrameReader) -> bool {
    is_envelope(&reader.next(), CLIENT, &[3])
        && is_envelope(
            &reader.next(),
            Party::Replica { shard: 1, index: 5 },
            &[8, 9],
        )
        && is_envelope(&reader.next(), Party::Client { number: 16 }, &[5, 6, 7])
        && reader.next().is_none()
        && reader.ended() == None
}

#[test]
fn pieces_decide_nothing(rt: HostRuntime) -> Result<(), Fail> {
    let alloc = rt.alloc();
    for at in 0..THREE.len() {
        let mut reader = reader_of(alloc, &[&THREE[..at], &THREE[at..]])?;
        assert!(rt; has_three(&mut reader), "split at {at}");
    }
    Ok(())
}

/// Takes envelopes of the longest frames, one after another, until so many bytes were fed.
fn fill(reader: &mut FrameReader, envelope: &[u8], bytes: usize) -> Result<usize, Fail> {
    let mut fed = 0usize;
    for _ in 0..20 {
        if fed == bytes {
            break;
        }
        let count = envelope.len().min(bytes.saturating_sub(fed));
        reader.feed(&envelope[..count])?;
        fed = fed.saturating_add(count);
    }
    Ok(count_of(reader))
}

/// The 16,777,217th byte ends a connection, and what came whole before it stays.
#[test]
fn a_connection_has_a_limit(rt: HostRuntime) -> Result<(), Fail> {
    let alloc = rt.alloc();
    let mut envelope = Vec::from_slice(alloc, &[1, 0, 1, 0, 0x10, 0, 0])?;
    envelope.resize(1_048_583, 7)?;
    let mut reader = reader_of(alloc, &[])?;
    assert!(rt; fill(&mut reader, envelope.as_slice(), 16_777_216)? == 15);
    assert!(rt; reader.ended() == None);
    reader.feed(&[7])?;
    assert!(rt; reader.ended() == Some(EndCause::Connection));
    assert!(rt; reader.next().is_none());
    Ok(())
}

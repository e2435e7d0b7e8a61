//! Asks, and what is taken of their answers.

use basil_types::cluster::Cluster;
use basil_types::links::MemLinks;
use basil_types::outbox::Envelope;
use basil_types::party::Party;
use node_link::{ANSWER_ENVELOPES, ask};
use std::alloc::Global;
use std::collections::VecDeque;
use std::test::Fail;

/// Client 2 of a cluster of six replicas in each of two shards.
const ASKER: Party = Party::Client { number: 2 };

/// What client 2 writes to ask the frame 05 06.
const ASKED: &[u8] = &[1, 0, 2, 0, 0, 0, 2, 5, 6];

/// What the frames of these envelopes say in a row, and how many envelopes there are.
#[derive(Drop)]
struct Taken {
    frames: Vec<u8>,
    count: usize,
    written: Vec<u8>,
}

/// Links whose next connection brings these bytes, and whose calls with these numbers, from 1, fail.
fn links_of(alloc: Global, answer: &[u8], failing: &[u64]) -> Result<MemLinks, Fail> {
    let mut connections = Vec::new(alloc);
    connections.push(Vec::from_slice(alloc, answer)?)?;
    let failing = Vec::from_slice(alloc, failing)?;
    Ok(MemLinks::new(alloc, connections, Vec::new(alloc), failing))
}

/// The frames of envelopes, one behind another.
fn frames_of(alloc: Global, given: &VecDeque<Envelope>) -> Result<Vec<u8>, Fail> {
    let mut frames = Vec::new(alloc);
    for envelope in given {
        frames.extend_from_slice(envelope.frame.as_slice())?;
    }
    Ok(frames)
}

/// What client 2 takes of an answer over links.
fn taken_over(alloc: Global, links: &mut MemLinks) -> Result<Taken, Fail> {
    let cluster = Cluster::new(1, 2, 2, 5)?;
    let given = ask(alloc, cluster, links, "there:1", ASKER, &[5, 6])?;
    let frames = frames_of(alloc, &given)?;
    let written = Vec::from_slice(alloc, links.written())?;
    Ok(Taken {
        frames,
        count: given.len(),
        written,
    })
}

/// What is taken where the next connection brings these bytes, and these calls of the links, from 1, fail.
fn taken_of(alloc: Global, answer: &[u8], failing: &[u64]) -> Result<Taken, Fail> {
    let mut links = links_of(alloc, answer, failing)?;
    taken_over(alloc, &mut links)
}

/// An answer, and the frames of the envelopes that are taken of it.
const ANSWERS: &[(&[u8], &[u8])] = &[
    // Two envelopes: the frame 03 for client 1, and 04 04 for replica 5 of shard 1.
    (
        &[
            0, 0, 0, 2, 1, 0, 1, 0, 0, 0, 1, 3, 0, 1, 5, 0, 0, 0, 2, 4, 4,
        ],
        &[3, 4, 4],
    ),
    // One, and bytes behind it that aren't read: the party 2.
    (&[0, 0, 0, 1, 1, 0, 1, 0, 0, 0, 1, 3, 2, 0, 1], &[3]),
    // None.
    (&[0, 0, 0, 0], &[]),
    // The connection ends within the count.
    (&[0, 0, 0], &[]),
    (&[], &[]),
    // It ends before the second envelope is whole.
    (&[0, 0, 0, 2, 1, 0, 1, 0, 0, 0, 1, 3], &[]),
    (
        &[0, 0, 0, 2, 1, 0, 1, 0, 0, 0, 1, 3, 0, 1, 5, 0, 0, 0, 2, 4],
        &[],
    ),
    // The second envelope has a party that isn't there, and then a length of 0.
    (
        &[
            0, 0, 0, 2, 1, 0, 1, 0, 0, 0, 1, 3, 0, 2, 5, 0, 0, 0, 2, 4, 4,
        ],
        &[],
    ),
    (
        &[
            0, 0, 0, 2, 1, 0, 1, 0, 0, 0, 1, 3, 0, 1, 5, 0, 0, 0, 0, 4, 4,
        ],
        &[],
    ),
];

#[test]
fn whole_answers_are_taken(rt: HostRuntime) -> Result<(), Fail> {
    let mut row = 0usize;
    for (answer, frames) in ANSWERS {
        let taken = taken_of(rt.alloc(), answer, &[])?;
        assert!(rt; taken.frames.as_slice() == *frames, "row {row}");
        assert!(rt; taken.written.as_slice() == ASKED, "row {row}");
        row = row.saturating_add(1);
    }
    Ok(())
}

/// An answer that tells a count of 65 and has so many envelopes, each with the frame 07.
fn long_answer(alloc: Global, count: usize) -> Result<Vec<u8>, Fail> {
    let mut answer = Vec::from_slice(alloc, &[0, 0, 0, 65])?;
    for _ in 0..count {
        answer.extend_from_slice(&[1, 0, 1, 0, 0, 0, 1, 7])?;
    }
    Ok(answer)
}

#[test]
fn sixty_four_envelopes_are_read(rt: HostRuntime) -> Result<(), Fail> {
    for (count, taken) in [(63, 0), (64, ANSWER_ENVELOPES), (65, ANSWER_ENVELOPES)] {
        let answer = long_answer(rt.alloc(), count)?;
        assert!(rt;
            taken_of(rt.alloc(), &answer, &[])?.count == taken,
            "{count} envelopes"
        );
    }
    Ok(())
}

/// Calls that fail, and how many bytes were written: opening, writing, and reading the count or behind it.
const FAILURES: &[(&[u64], usize)] = &[(&[1], 0), (&[2], 0), (&[3], 9), (&[7], 9)];

#[test]
fn a_failing_call_is_silence(rt: HostRuntime) -> Result<(), Fail> {
    let answer: &[u8] = &[0, 0, 0, 1, 1, 0, 1, 0, 0, 0, 1, 3];
    for (failing, written) in FAILURES {
        let taken = taken_of(rt.alloc(), answer, failing)?;
        assert!(rt; taken.count == 0, "{failing:?}");
        assert!(rt; taken.written.len() == *written, "{failing:?}");
    }
    Ok(())
}

//! The works, by name.

use crate::answers::{Answering, Later, answer_often, flood};
use crate::decisions::{Proving, make_rings, prove};
use crate::frames::{Place, Reading, Size, read_often};
use crate::lines::{long_line, short_lines};
use crate::made::Votes;
use crate::releases::releases;
use crate::signatures::{make_keys, sign, verify_often};
use crate::steps::{Handing, Stepping, lms_steps, plain_steps};
use basil_types::memory::NoMemory;
use lms_sign::LmsSet;
use std::alloc::Global;

/// A work that is timed.
#[derive(Clone, Copy)]
pub enum Work {
    /// Reads so many short lines.
    ShortLines,
    /// Reads one line of so many pairs of hexadecimal digits.
    LongLine,
    /// Makes so many keys.
    Keys(LmsSet),
    /// Makes a key, and signs with so many of its leaves.
    Sign(LmsSet),
    /// Makes a key and a signature, and verifies it so many times.
    Verify(LmsSet),
    /// Makes frames of a size, and reads so many.
    Read(Reading, Size, Place),
    /// Makes a certificate of 21 replicas of so many shards, and proves it so many times.
    Prove(Proving, Votes, u8),
    /// Makes the keys of a replay of the largest cluster so many times.
    Rings(LmsSet),
    /// Hands a replica of plain keys that knows so many transactions so many frames.
    Step(Stepping, Handing, u32),
    /// Releases so many votes at a time of a replica of plain keys that knows so many decided transactions.
    Release(Handing, u32, u32),
    /// Hands a replica of LMS keys so many first stages.
    LmsStep(LmsSet, Handing),
    /// Hands so many clients of plain keys, in a cluster of this f, the answers of every replica about a transaction.
    Answer(Answering, Handing, u8),
    /// Hands a client of plain keys so many log replies of one replica about one transaction, and then has it do
    /// something so many times.
    Flood(Later, Handing, u32),
}

/// The works, and their names.
const WORKS: &[(&str, Work)] = &[
    ("short-lines", Work::ShortLines),
    ("long-line", Work::LongLine),
    ("keys-w4h5", Work::Keys(LmsSet::W4H5)),
    ("keys-w4h10", Work::Keys(LmsSet::W4H10)),
    ("keys-w8h5", Work::Keys(LmsSet::W8H5)),
    ("keys-w8h10", Work::Keys(LmsSet::W8H10)),
    ("sign-w4h5", Work::Sign(LmsSet::W4H5)),
    ("sign-w4h10", Work::Sign(LmsSet::W4H10)),
    ("sign-w8h5", Work::Sign(LmsSet::W8H5)),
    ("sign-w8h10", Work::Sign(LmsSet::W8H10)),
    ("verify-w4h5", Work::Verify(LmsSet::W4H5)),
    ("verify-w4h10", Work::Verify(LmsSet::W4H10)),
    ("verify-w8h5", Work::Verify(LmsSet::W8H5)),
    ("verify-w8h10", Work::Verify(LmsSet::W8H10)),
    (
        "check-small",
        Work::Read(Reading::Check, Size::Small, Place::Caches),
    ),
    (
        "check-half",
        Work::Read(Reading::Check, Size::Half, Place::Caches),
    ),
    (
        "check-whole",
        Work::Read(Reading::Check, Size::Whole, Place::Caches),
    ),
    (
        "check-half-received",
        Work::Read(Reading::Check, Size::Half, Place::Received),
    ),
    (
        "check-whole-received",
        Work::Read(Reading::Check, Size::Whole, Place::Received),
    ),
    (
        "signatures-small",
        Work::Read(Reading::Signatures, Size::Small, Place::Caches),
    ),
    (
        "signatures-half",
        Work::Read(Reading::Signatures, Size::Half, Place::Caches),
    ),
    (
        "signatures-whole",
        Work::Read(Reading::Signatures, Size::Whole, Place::Caches),
    ),
    (
        "signatures-half-received",
        Work::Read(Reading::Signatures, Size::Half, Place::Received),
    ),
    (
        "signatures-whole-received",
        Work::Read(Reading::Signatures, Size::Whole, Place::Received),
    ),
    (
        "walk-small",
        Work::Read(Reading::Walk, Size::Small, Place::Caches),
    ),
    (
        "walk-half",
        Work::Read(Reading::Walk, Size::Half, Place::Caches),
    ),
    (
        "walk-whole",
        Work::Read(Reading::Walk, Size::Whole, Place::Caches),
    ),
    (
        "walk-half-received",
        Work::Read(Reading::Walk, Size::Half, Place::Received),
    ),
    (
        "walk-whole-received",
        Work::Read(Reading::Walk, Size::Whole, Place::Received),
    ),
    (
        "prove-plain-half",
        Work::Prove(Proving::Certificate, Votes::Plain, 4),
    ),
    (
        "prove-plain",
        Work::Prove(Proving::Certificate, Votes::Plain, 8),
    ),
    (
        "prove-w4h5",
        Work::Prove(Proving::Certificate, Votes::Lms(LmsSet::W4H5), 8),
    ),
    (
        "accept-w4h5",
        Work::Prove(Proving::Signatures, Votes::Lms(LmsSet::W4H5), 8),
    ),
    ("rings-w4h5", Work::Rings(LmsSet::W4H5)),
    ("rings-w8h5", Work::Rings(LmsSet::W8H5)),
    (
        "first-1000",
        Work::Step(Stepping::FirstStage, Handing::Handed, 1000),
    ),
    (
        "first-400000",
        Work::Step(Stepping::FirstStage, Handing::Handed, 400000),
    ),
    (
        "first-made",
        Work::Step(Stepping::FirstStage, Handing::Made, 0),
    ),
    (
        "writeback-1000",
        Work::Step(Stepping::Writeback, Handing::Handed, 1000),
    ),
    (
        "writeback-400000",
        Work::Step(Stepping::Writeback, Handing::Handed, 400000),
    ),
    (
        "writeback-made",
        Work::Step(Stepping::Writeback, Handing::Made, 0),
    ),
    (
        "read-1000",
        Work::Step(Stepping::Read, Handing::Handed, 1000),
    ),
    (
        "read-400000",
        Work::Step(Stepping::Read, Handing::Handed, 400000),
    ),
    ("read-made", Work::Step(Stepping::Read, Handing::Made, 0)),
    ("release-1-1000", Work::Release(Handing::Handed, 1, 1000)),
    ("release-1-1000-made", Work::Release(Handing::Made, 1, 1000)),
    ("release-16-1000", Work::Release(Handing::Handed, 16, 1000)),
    (
        "release-16-1000-made",
        Work::Release(Handing::Made, 16, 1000),
    ),
    (
        "release-1-400000",
        Work::Release(Handing::Handed, 1, 400000),
    ),
    (
        "release-1-400000-made",
        Work::Release(Handing::Made, 1, 400000),
    ),
    (
        "release-16-400000",
        Work::Release(Handing::Handed, 16, 400000),
    ),
    (
        "release-16-400000-made",
        Work::Release(Handing::Made, 16, 400000),
    ),
    ("first-w4h10", Work::LmsStep(LmsSet::W4H10, Handing::Handed)),
    (
        "first-w4h10-made",
        Work::LmsStep(LmsSet::W4H10, Handing::Made),
    ),
    (
        "votes-f1",
        Work::Answer(Answering::Votes, Handing::Handed, 1),
    ),
    (
        "votes-f1-made",
        Work::Answer(Answering::Votes, Handing::Made, 1),
    ),
    (
        "votes-f6",
        Work::Answer(Answering::Votes, Handing::Handed, 6),
    ),
    (
        "votes-f6-made",
        Work::Answer(Answering::Votes, Handing::Made, 6),
    ),
    ("logs-f1", Work::Answer(Answering::Logs, Handing::Handed, 1)),
    (
        "logs-f1-made",
        Work::Answer(Answering::Logs, Handing::Made, 1),
    ),
    ("logs-f6", Work::Answer(Answering::Logs, Handing::Handed, 6)),
    (
        "logs-f6-made",
        Work::Answer(Answering::Logs, Handing::Made, 6),
    ),
    ("flood-0", Work::Flood(Later::Log, Handing::Handed, 0)),
    (
        "flood-100000",
        Work::Flood(Later::Log, Handing::Handed, 100000),
    ),
    ("flood-made", Work::Flood(Later::Log, Handing::Made, 0)),
    (
        "vote-behind-1",
        Work::Flood(Later::Vote, Handing::Handed, 1),
    ),
    (
        "vote-behind-100000",
        Work::Flood(Later::Vote, Handing::Handed, 100000),
    ),
    (
        "vote-behind-made",
        Work::Flood(Later::Vote, Handing::Made, 0),
    ),
    (
        "invoke-behind-1",
        Work::Flood(Later::Invoke, Handing::Handed, 1),
    ),
    (
        "invoke-behind-100000",
        Work::Flood(Later::Invoke, Handing::Handed, 100000),
    ),
];

impl Work {
    /// The work of a name.
    pub fn named(name: &str) -> Option<Work> {
        for (known, work) in WORKS {
            if *known == name {
                return Some(*work);
            }
        }
        None
    }
}

/// Does the work, and gives the sum of what came of it.
pub fn checksum(alloc: Global, work: Work, count: u32) -> Result<u64, NoMemory> {
    match work {
        Work::ShortLines => Ok(short_lines(alloc, count)),
        Work::LongLine => long_line(alloc, count),
        Work::Keys(set) => make_keys(alloc, set, count),
        Work::Sign(set) => sign(alloc, set, count),
        Work::Verify(set) => verify_often(alloc, set, count),
        Work::Read(reading, size, place) => read_often(alloc, reading, size, place, count),
        Work::Prove(proving, votes, shards) => prove(alloc, proving, votes, shards, count),
        Work::Rings(set) => make_rings(alloc, set, count),
        Work::Step(stepping, handing, known) => plain_steps(alloc, stepping, handing, known, count),
        Work::Release(handing, waiters, known) => releases(alloc, handing, waiters, known, count),
        Work::LmsStep(set, handing) => lms_steps(alloc, set, handing, count),
        Work::Answer(answering, handing, f) => answer_often(alloc, f, answering, handing, count),
        Work::Flood(later, handing, known) => flood(alloc, later, handing, known, count),
    }
}

//! Reading frames.

ghost use Rattle.frame_views.specs.Fitting.{IsSpoken};
ghost use Rattle.frame_views.specs.Shown.{message_of};

use crate::made::{Votes, first_stage, writeback};
use basil_types::cluster::Cluster;
use basil_types::memory::NoMemory;
use frame_views::certificates::CertBody;
use frame_views::frames::{MessageView, check};
use frame_views::items::{TalliesView, VotesView};
use frame_views::signed::signatures;
use std::alloc::Global;

/// A frame of each size.
#[derive(Clone, Copy)]
pub enum Size {
    /// A first stage of 53 bytes.
    Small,
    /// A writeback with 124 votes of the longest signatures.
    Half,
    /// The same with 248 votes, as many as a certificate may hold.
    Whole,
}

/// What is done with a frame once it is checked.
#[derive(Clone, Copy)]
pub enum Reading {
    /// Nothing more.
    Check,
    /// Every signature is asked for.
    Signatures,
    /// Its lists are walked.
    Walk,
}

/// Where a frame lies when it is read.
#[derive(Clone, Copy)]
pub enum Place {
    /// One frame is read again and again, so that it lies in the processor's caches.
    Caches,
    /// Copies of some 64 million bytes are read in turn, so that each lies beyond the near caches, as one does
    /// that has just been received.
    Received,
}

/// The bytes of the copies that are read in turn.
const COPIED: usize = 64_000_000;

/// The cluster of the largest shards, with so many of them.
fn cluster_of(shards: u8) -> Option<Cluster> {
    Cluster::new(6, shards, 7, 100).ok()
}

fn frame_of(alloc: Global, cluster: &Cluster, size: Size) -> Result<Vec<u8>, NoMemory> {
    match size {
        Size::Small => first_stage(alloc),
        Size::Half | Size::Whole => writeback(alloc, cluster, Votes::Filler),
    }
}

/// The bytes of all signatures of a message.
fn signature_bytes(m: &MessageView<'_>) -> u64
    requires { IsSpoken (message_of m.now) }
{
    let mut sum = 0u64;
    for item in signatures(m) {
        sum = sum.saturating_add(item.signature.len() as u64);
    }
    sum
}

fn walk_votes(votes: &VotesView<'_>) -> u64 {
    let mut sum = 0u64;
    for vote in votes.iter() {
        sum = sum.saturating_add(vote.signature.len() as u64);
    }
    sum
}

fn walk_tallies(tallies: &TalliesView<'_>) -> u64 {
    let mut sum = 0u64;
    for tally in tallies.iter() {
        sum = sum.saturating_add(walk_votes(&tally.votes));
    }
    sum
}

/// The bytes of the signatures of a first stage or of a fast commit, from its views.
fn walk(m: &MessageView<'_>) -> u64 {
    match m {
        MessageView::St1(m) => m.signature.len() as u64,
        MessageView::Writeback(m) => match m.certificate.body() {
            CertBody::FastCommit { tallies } => walk_tallies(&tallies),
            _ => 0,
        },
        _ => 0,
    }
}

/// What comes of one reading of a frame.
fn read(frame: &[u8], cluster: &Cluster, reading: Reading) -> u64 {
    let Ok(m) = check(frame, cluster) else {
        return 0;
    };
    match reading {
        Reading::Check => 1,
        Reading::Signatures => signature_bytes(&m),
        Reading::Walk => walk(&m),
    }
}

/// As many copies of the frame as a place wants.
fn copies_of(alloc: Global, frame: &[u8], place: Place) -> Result<Vec<Vec<u8>>, NoMemory> {
    let copies = match place {
        Place::Caches => 1,
        Place::Received => COPIED / frame.len().max(1),
    };
    let mut frames = Vec::new(alloc);
    for _ in 0..copies {
        frames.push(Vec::from_slice(alloc, frame)?)?;
    }
    Ok(frames)
}

/// Reads so many frames, in turn, and adds up what comes of it.
fn read_in_turn(frames: &[Vec<u8>], cluster: &Cluster, reading: Reading, count: u32) -> u64 {
    let mut sum = 0u64;
    for i in 0..count {
        if let Some(frame) = frames.get(i as usize % frames.len().max(1)) {
            sum = sum.saturating_add(read(frame, cluster, reading));
        }
    }
    sum
}

/// Reads frames of this size so many times, and adds up what comes of it.
pub fn read_often(
    alloc: Global,
    reading: Reading,
    size: Size,
    place: Place,
    count: u32,
) -> Result<u64, NoMemory> {
    let shards = match size {
        Size::Small => 1,
        Size::Half => 4,
        Size::Whole => 8,
    };
    let Some(cluster) = cluster_of(shards) else {
        return Ok(0);
    };
    let frame = frame_of(alloc, &cluster, size)?;
    let frames = copies_of(alloc, &frame, place)?;
    Ok(read_in_turn(&frames, &cluster, reading, count))
}

//! What is tried in a world over plain keys, which is let go in one place.

use crate::breaches::goes_on_by_a_vote;
use crate::limits::{is_left_as_before, is_written_back, prepares_in_vain, takes_one};
use crate::telling::{is_empty, is_read, is_refused, is_written};
use crate::worlds::{cluster_of, world_of};
use cluster_world::world::World;
use message_pool::Room;
use replay_kit::{KitKind, ReplayKit};
use std::alloc::Global;
use std::test::Fail;

/// What is tried.
#[derive(Clone, Copy)]
pub(crate) enum Trial {
    /// Nothing is told yet.
    Empty,
    /// A write, its votes and its writebacks are told.
    Written,
    /// A read and own writes are told.
    Read,
    /// A refusal is told.
    Refused,
    /// The first stage finds no room.
    PreparesInVain,
    /// The delivery of a vote finds no room.
    LeftAsBefore,
    /// It finds room.
    WrittenBack,
    /// Of two raw frames the first finds room.
    TakesOne,
    /// A vote that the keys don't accept is shown.
    GoesOn,
}

fn attempt(alloc: Global, world: &mut World<ReplayKit>, trial: Trial) -> Result<bool, Fail> {
    match trial {
        Trial::Empty => is_empty(world),
        Trial::Written => is_written(alloc, world),
        Trial::Read => is_read(alloc, world),
        Trial::Refused => is_refused(alloc, world),
        Trial::PreparesInVain => prepares_in_vain(world),
        Trial::LeftAsBefore => is_left_as_before(alloc, world),
        Trial::WrittenBack => is_written_back(alloc, world),
        Trial::TakesOne => takes_one(world),
        Trial::GoesOn => goes_on_by_a_vote(world),
    }
}

/// Whether it comes out in a new world of one shard of 5f + 1 replicas with these limits.
pub(crate) fn comes_out(alloc: Global, f: u8, limits: Room, trial: Trial) -> Result<bool, Fail> {
    let kit = ReplayKit::new(alloc, cluster_of(f)?, KitKind::Plain)?;
    let mut world = world_of(alloc, f, limits, kit)?;
    attempt(alloc, &mut world, trial)
}

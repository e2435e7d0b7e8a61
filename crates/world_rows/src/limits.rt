//! The limits of a pool.

use crate::trials::{Trial, comes_out};
use crate::worlds::{AMPLE, deliver, step, take, take_all, write_one};
use basil_types::party::Party;
use cluster_run::fault::WorldFault;
use cluster_world::event::Event;
use cluster_world::fault::StepFault;
use cluster_world::world::World;
use message_pool::Room;
use replay_kit::ReplayKit;
use std::alloc::Global;
use std::test::Fail;

/// What the pool of a refused event holds.
fn full(done: Result<(), StepFault>) -> Option<(u64, u64)> {
    match done {
        Err(StepFault::World(WorldFault::PoolFull { messages, bytes })) => Some((messages, bytes)),
        _ => None,
    }
}

/// Room for so many messages.
fn few(messages: u64) -> Room {
    Room {
        messages,
        bytes: AMPLE.bytes,
    }
}

/// Whether a world has so many messages, and the first that waits is this one.
fn holds(world: &World<ReplayKit>, messages: u64, waits: Option<u64>) -> bool {
    !world.ended() && world.messages() == messages && world.undelivered(1) == waits
}

/// Whether the six first-stage messages of a transaction have no room.
pub(crate) fn prepares_in_vain(world: &mut World<ReplayKit>) -> Result<bool, Fail> {
    write_one(world)?;
    let done = step(world, Event::Prepare { tx: 0 })?;
    Ok(full(done) == Some((0, 0)) && holds(world, 0, None) && world.transaction(0).is_none())
}

/// In a pool of five messages nothing happens where six would enter.
#[test]
fn six_messages_have_no_room_for_five(rt: HostRuntime) -> Result<(), Fail> {
    assert!(rt; comes_out(rt.alloc(), 1, few(5), Trial::PreparesInVain)?);
    Ok(())
}

/// One replica, and one write up to its vote.
fn vote(alloc: Global, world: &mut World<ReplayKit>) -> Result<(), Fail> {
    write_one(world)?;
    take(world, Event::Prepare { tx: 0 })?;
    deliver(alloc, world, 1)
}

/// Whether the delivery of the vote, which would send a writeback, finds no room.
fn votes_in_vain(alloc: Global, world: &mut World<ReplayKit>) -> Result<bool, Fail> {
    let frame = match world.frame(2) {
        Some((_, _, frame)) => Vec::from_slice(alloc, frame)?,
        None => return Ok(false),
    };
    let given = frame.as_slice();
    let done = step(world, Event::Deliver { message: 2, given })?;
    Ok(full(done) == Some((2, 124)) && holds(world, 2, Some(2)) && world.committed()?.is_empty())
}

/// The same, twice, where the pool holds the first stage, of 53 bytes, and the vote, of 71: nothing happens, the vote
/// still waits, and nothing was seen.
pub(crate) fn is_left_as_before(alloc: Global, world: &mut World<ReplayKit>) -> Result<bool, Fail> {
    vote(alloc, world)?;
    Ok(votes_in_vain(alloc, world)? && votes_in_vain(alloc, world)?)
}

#[test]
fn a_delivery_without_room_leaves_all_as_before(rt: HostRuntime) -> Result<(), Fail> {
    assert!(rt; comes_out(rt.alloc(), 0, few(2), Trial::LeftAsBefore)?);
    Ok(())
}

#[test]
fn a_delivery_without_bytes_leaves_all_as_before(rt: HostRuntime) -> Result<(), Fail> {
    let limits = Room {
        messages: AMPLE.messages,
        bytes: 124,
    };
    assert!(rt; comes_out(rt.alloc(), 0, limits, Trial::LeftAsBefore)?);
    Ok(())
}

/// Whether with room for the writeback it is sent.
pub(crate) fn is_written_back(alloc: Global, world: &mut World<ReplayKit>) -> Result<bool, Fail> {
    vote(alloc, world)?;
    deliver(alloc, world, 2)?;
    Ok(holds(world, 3, Some(3)))
}

#[test]
fn a_delivery_with_room_is_done(rt: HostRuntime) -> Result<(), Fail> {
    assert!(rt; comes_out(rt.alloc(), 0, few(3), Trial::WrittenBack)?);
    Ok(())
}

/// Whether of two raw frames only the first enters.
pub(crate) fn takes_one(world: &mut World<ReplayKit>) -> Result<bool, Fail> {
    let raw = Event::Raw {
        from: Party::Client { number: 1 },
        to: Party::Replica { shard: 0, index: 0 },
        frame: &[3],
    };
    take_all(world, &[raw])?;
    let done = step(world, raw)?;
    Ok(full(done) == Some((1, 1)) && holds(world, 1, Some(1)))
}

#[test]
fn a_raw_frame_needs_room(rt: HostRuntime) -> Result<(), Fail> {
    assert!(rt; comes_out(rt.alloc(), 0, few(1), Trial::TakesOne)?);
    Ok(())
}

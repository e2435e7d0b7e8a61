//! What a world tells.

use crate::trials::{Trial, comes_out};
use crate::worlds::{AMPLE, deliver, take, take_all, write_one};
use basil_types::bytes::id_of;
use basil_types::party::{Decision, Party};
use client_core::ReadState;
use cluster_world::event::Event;
use cluster_world::world::World;
use replay_kit::ReplayKit;
use std::alloc::Global;
use std::test::Fail;

const CLIENT: Party = Party::Client { number: 1 };

const REPLICA: Party = Party::Replica { shard: 0, index: 0 };

/// Whether nothing is told.
pub(crate) fn is_empty(world: &World<ReplayKit>) -> Result<bool, Fail> {
    Ok(
        world.messages() == 0
            && world.undelivered(1).is_none()
            && world.frame(1).is_none()
            && world.transaction(0).is_none()
            && matches!(world.value(0, b"a"), ReadState::NotRead)
            && world.decision_of(&[0; 32]).is_none()
            && world.committed()?.is_empty()
            && world.last_refused().is_none()
            && !world.is_faulty(CLIENT)
            && !world.ended(),
    )
}

#[test]
fn a_new_world_tells_nothing(rt: HostRuntime) -> Result<(), Fail> {
    assert!(rt; comes_out(rt.alloc(), 0, AMPLE, Trial::Empty)?);
    Ok(())
}

/// The sender, the receiver and the length of a message.
fn told(world: &World<ReplayKit>, message: u64) -> Option<(Party, Party, usize)> {
    let (from, to, frame) = world.frame(message)?;
    Some((from, to, frame.len()))
}

/// The decision on a transaction that is formed.
fn decided(world: &World<ReplayKit>) -> Option<Decision> {
    let view = world.transaction(0)?;
    world.decision_of(&id_of(view.bytes()))
}

/// Whether a first stage has 53 bytes, and a vote 71, and both are told with their parties.
fn votes_are_told(alloc: Global, world: &mut World<ReplayKit>) -> Result<bool, Fail> {
    write_one(world)?;
    let unformed = world.transaction(0).is_none();
    take(world, Event::Prepare { tx: 0 })?;
    let first = told(world, 1) == Some((CLIENT, REPLICA, 53));
    deliver(alloc, world, 1)?;
    let second = told(world, 2) == Some((REPLICA, CLIENT, 71));
    Ok(unformed && first && second && decided(world).is_none())
}

/// Whether a writeback is seen as it enters the pool.
fn writebacks_are_seen(alloc: Global, world: &mut World<ReplayKit>) -> Result<bool, Fail> {
    deliver(alloc, world, 2)?;
    let sent = world.messages() == 3 && decided(world) == Some(Decision::Commit);
    deliver(alloc, world, 3)?;
    Ok(sent && world.committed()?.len() == 1 && world.undelivered(1).is_none())
}

/// Whether a write, its votes and its writebacks are told.
pub(crate) fn is_written(alloc: Global, world: &mut World<ReplayKit>) -> Result<bool, Fail> {
    Ok(votes_are_told(alloc, world)? && writebacks_are_seen(alloc, world)?)
}

#[test]
fn a_write_is_told(rt: HostRuntime) -> Result<(), Fail> {
    assert!(rt; comes_out(rt.alloc(), 0, AMPLE, Trial::Written)?);
    Ok(())
}

/// Whether a read tells nothing, then that it waits, then what it chose.
fn reads_are_told(alloc: Global, world: &mut World<ReplayKit>) -> Result<bool, Fail> {
    take(
        world,
        Event::Begin {
            client: 1,
            time: 10,
        },
    )?;
    let unread = matches!(world.value(0, b"a"), ReadState::NotRead);
    take(world, Event::Read { tx: 0, key: b"a" })?;
    let waits = matches!(world.value(0, b"a"), ReadState::Pending);
    deliver(alloc, world, 1)?;
    deliver(alloc, world, 2)?;
    Ok(unread && waits && matches!(world.value(0, b"a"), ReadState::Absent))
}

/// Whether a transaction's own write and deletion are told.
fn own_writes_are_told(world: &mut World<ReplayKit>) -> Result<bool, Fail> {
    let write = Event::Write {
        tx: 0,
        key: b"b",
        value: b"y1",
    };
    take(world, write)?;
    let written =
        matches!(world.value(0, b"b"), ReadState::Own { value } if value == b"y1".as_slice());
    take(world, Event::Delete { tx: 0, key: b"b" })?;
    Ok(written && matches!(world.value(0, b"b"), ReadState::OwnDeleted))
}

/// Whether a read and own writes are told.
pub(crate) fn is_read(alloc: Global, world: &mut World<ReplayKit>) -> Result<bool, Fail> {
    Ok(reads_are_told(alloc, world)? && own_writes_are_told(world)?)
}

#[test]
fn reads_and_own_writes_are_told(rt: HostRuntime) -> Result<(), Fail> {
    assert!(rt; comes_out(rt.alloc(), 0, AMPLE, Trial::Read)?);
    Ok(())
}

/// Whether a byte that is no frame is refused by its receiver.
pub(crate) fn is_refused(alloc: Global, world: &mut World<ReplayKit>) -> Result<bool, Fail> {
    let raw = Event::Raw {
        from: CLIENT,
        to: REPLICA,
        frame: &[3],
    };
    take_all(world, &[raw])?;
    deliver(alloc, world, 1)?;
    Ok(world.last_refused() == Some(1) && world.undelivered(1).is_none())
}

#[test]
fn a_refusal_is_told(rt: HostRuntime) -> Result<(), Fail> {
    assert!(rt; comes_out(rt.alloc(), 0, AMPLE, Trial::Refused)?);
    Ok(())
}

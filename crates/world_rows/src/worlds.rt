//! Worlds, and their events.

use basil_types::cluster::Cluster;
use cluster_world::building::Beginning;
use cluster_world::event::Event;
use cluster_world::fault::StepFault;
use cluster_world::world::World;
use message_pool::Room;
use premise_watch::faulty::Faulty;
use run_kit::Kit;
use std::alloc::Global;
use std::test::Fail;

/// Room for as many messages as a replay has.
pub(crate) const AMPLE: Room = Room {
    messages: 1_000_000,
    bytes: 1_073_741_824,
};

/// One shard of 5f + 1 replicas.
pub(crate) fn cluster_of(f: u8) -> Result<Cluster, Fail> {
    match Cluster::new(f, 1, f.saturating_add(1), 100) {
        Ok(cluster) => Ok(cluster),
        Err(_) => Err("no cluster".into()),
    }
}

/// A world of one shard over a kit, without faulty parties, whose first moment is 50.
pub(crate) fn world_of<K: Kit + Drop>(
    alloc: Global,
    f: u8,
    limits: Room,
    kit: K,
) -> Result<Box<World<K>>, Fail> {
    let cluster = cluster_of(f)?;
    let beginning = Beginning {
        cluster,
        clock: 50,
        limits,
    };
    let world = World::new(alloc, beginning, Faulty::new(), kit)?;
    Ok(Box::new(alloc, world)?)
}

/// What an event comes to in a world that hasn't ended.
pub(crate) fn step<K: Kit>(
    world: &mut World<K>,
    event: Event<'_>,
) -> Result<Result<(), StepFault>, Fail> {
    if world.ended() {
        return Err("ended".into());
    }
    Ok(world.step(event))
}

/// An event that the world must take.
pub(crate) fn take<K: Kit>(world: &mut World<K>, event: Event<'_>) -> Result<(), Fail> {
    match step(world, event)? {
        Ok(()) => Ok(()),
        Err(_) => Err("refused".into()),
    }
}

/// A message that entered is delivered, with its own bytes.
pub(crate) fn deliver<K: Kit>(
    alloc: Global,
    world: &mut World<K>,
    message: u64,
) -> Result<(), Fail> {
    let frame = match world.frame(message) {
        Some((_, _, frame)) => Vec::from_slice(alloc, frame)?,
        None => return Err("no message".into()),
    };
    let given = frame.as_slice();
    take(world, Event::Deliver { message, given })
}

/// Events that the world must take.
pub(crate) fn take_all<K: Kit>(world: &mut World<K>, events: &[Event<'_>]) -> Result<(), Fail> {
    for event in events {
        take(world, *event)?;
    }
    Ok(())
}

/// A client writes one key.
pub(crate) fn write_one<K: Kit>(world: &mut World<K>) -> Result<(), Fail> {
    let begin = Event::Begin {
        client: 1,
        time: 10,
    };
    let write = Event::Write {
        tx: 0,
        key: b"a",
        value: b"x1",
    };
    take_all(world, &[begin, write])
}

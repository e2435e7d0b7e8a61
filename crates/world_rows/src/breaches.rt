//! What breaks a premise of a run, and ends its world.

use crate::trials::{Trial, comes_out};
use crate::trusting::Trusting;
use crate::worlds::{AMPLE, step, world_of};
use basil_types::party::Party;
use cluster_run::fault::WorldFault;
use cluster_world::event::Event;
use cluster_world::fault::StepFault;
use cluster_world::world::World;
use premise_watch::broken::Broken;
use replay_kit::ReplayKit;
use run_kit::Kit;
use std::alloc::Global;
use std::test::Fail;

/// The abort vote of replica 0 of shard 0 on the id of 32 bytes 7, without a proof, with a signature of four bytes.
const VOTE: &[u8] = &[
    4, 0, 0, 7, 7, 7, 7, 7, 7, 7, 7, 7, 7, 7, 7, 7, 7, 7, 7, 7, 7, 7, 7, 7, 7, 7, 7, 7, 7, 7, 7, 7,
    7, 7, 7, 1, 0, 0, 4, 1, 2, 3, 4,
];

/// That signature.
const SIGNATURE: &[u8] = &[1, 2, 3, 4];

/// The vote as it is signed: 2, shard, index, the id, and 1 for abort.
const WORDS: &[u8] = &[
    2, 0, 0, 7, 7, 7, 7, 7, 7, 7, 7, 7, 7, 7, 7, 7, 7, 7, 7, 7, 7, 7, 7, 7, 7, 7, 7, 7, 7, 7, 7, 7,
    7, 7, 7, 1,
];

/// Whether a breach is that of a correct replica's signature on this vote.
fn is_forged(done: &Result<(), StepFault>) -> bool {
    match done {
        Err(
            StepFault::World(
                WorldFault::Broken(
                    Broken::Forged {
                        party,
                        words,
                        signature,
                    },
                ),
            ),
        ) => {
            *party == Party::Replica { shard: 0, index: 0 }
                && words.bytes() == WORDS
                && signature.as_slice() == SIGNATURE
        }
        _ => false,
    }
}

/// Whether an event ends a world as this breach.
fn breaks<K: Kit>(world: &mut World<K>, event: Event<'_>) -> Result<bool, Fail> {
    let done = step(world, event)?;
    Ok(is_forged(&done) && world.ended())
}

/// Whether it does so in a new world over keyrings that accept everything.
fn breaks_at_once(alloc: Global, event: Event<'_>) -> Result<bool, Fail> {
    let mut world = world_of(alloc, 0, AMPLE, Trusting)?;
    breaks(&mut world, event)
}

/// Whether a world takes the vote, and goes on.
pub(crate) fn goes_on_by_a_vote(world: &mut World<ReplayKit>) -> Result<bool, Fail> {
    let done = step(world, Event::Show { frame: VOTE })?;
    Ok(done.is_ok() && !world.ended())
}

/// Over keyrings that accept everything, a correct replica's vote that it didn't sign ends the world.
#[test]
fn an_accepted_vote_that_was_not_signed_breaks_the_run(rt: HostRuntime) -> Result<(), Fail> {
    assert!(rt; breaks_at_once(rt.alloc(), Event::Show { frame: VOTE })?);
    Ok(())
}

/// A raw frame is seen as it enters the pool.
#[test]
fn a_raw_vote_breaks_the_run_as_it_enters(rt: HostRuntime) -> Result<(), Fail> {
    let raw = Event::Raw {
        from: Party::Client { number: 1 },
        to: Party::Client { number: 2 },
        frame: VOTE,
    };
    assert!(rt; breaks_at_once(rt.alloc(), raw)?);
    Ok(())
}

/// Plain keys don't accept that signature, so nothing is broken.
#[test]
fn a_signature_that_is_not_accepted_breaks_nothing(rt: HostRuntime) -> Result<(), Fail> {
    assert!(rt; comes_out(rt.alloc(), 0, AMPLE, Trial::GoesOn)?);
    Ok(())
}

//! The pool of a run: what enters within its limits, and which messages a round delivers.

use basil_types::bytes::Bytes;
use basil_types::party::Party;
use message_pool::{Fate, Pool, Room};
use std::alloc::Global;
use std::test::Fail;

/// A message enters, if there is room for it.
fn send(alloc: Global, pool: &mut Pool, frame: &[u8]) -> Result<bool, Fail> {
    let room = pool.room();
    if room.messages < 1 || room.bytes < frame.len() as u64 {
        return Ok(false);
    }
    let frame = Bytes::copy_of(alloc, frame)?;
    let to = Party::Replica { shard: 0, index: 1 };
    pool.enter(Party::Client { number: 2 }, to, frame)?;
    Ok(true)
}

/// So many messages of one byte enter.
fn fill(alloc: Global, pool: &mut Pool, count: u64) -> Result<(), Fail> {
    for _ in 0..count {
        send(alloc, pool, b"x")?;
    }
    Ok(())
}

/// Something becomes of the messages of these numbers.
fn end(pool: &mut Pool, numbers: &[u64], fate: Fate) {
    for &number in numbers {
        if 1 <= number && number <= pool.len() {
            match fate {
                Fate::Waiting => {}
                Fate::Delivered => pool.deliver(number),
                Fate::Lost => pool.lose(number),
            }
        }
    }
}

/// What became of a message.
fn fate_of(pool: &Pool, number: u64) -> Option<Fate> {
    match pool.at(number) {
        Some(posted) => Some(posted.fate),
        None => None,
    }
}

// Frames that are sent one after another to a pool of three messages and ten bytes, and whether each enters.
const SENT: &[(&[u8], bool)] = &[
    // Four of the ten bytes are taken.
    (b"four", true),
    // Seven bytes more would be eleven.
    (b"sevenby", false),
    // Six bytes more are ten, which the pool may hold.
    (b"sixbyt", true),
    // A byte more would be the eleventh.
    (b"x", false),
    // A frame of no bytes still has room, as the third message.
    (b"", true),
    // A fourth message has no room, whatever its length.
    (b"", false),
];

#[test]
fn what_passes_a_limit_does_not_enter(rt: HostRuntime) -> Result<(), Fail> {
    let limits = Room {
        messages: 3,
        bytes: 10,
    };
    let mut pool = Pool::new(rt.alloc(), limits);
    for &(frame, enters) in SENT {
        assert!(rt; send(rt.alloc(), &mut pool, frame)? == enters);
    }
    assert!(rt; pool.len() == 3);
    assert!(rt; pool.bytes() == 10);
    let room = pool.room();
    assert!(rt; room.messages == 0 && room.bytes == 0);
    assert!(rt; room.has(0, 0) && !room.has(1, 0) && !room.has(0, 1));
    Ok(())
}

#[test]
fn a_message_is_told_as_it_was_sent(rt: HostRuntime) -> Result<(), Fail> {
    let limits = Room {
        messages: 1,
        bytes: 5,
    };
    let mut pool = Pool::new(rt.alloc(), limits);
    send(rt.alloc(), &mut pool, b"frame")?;
    assert!(rt; pool.at(0).is_none());
    assert!(rt; pool.at(2).is_none());
    let Some(posted) = pool.at(1) else {
        assert!(rt; false, "message 1 isn't there");
        return Ok(());
    };
    assert!(rt; posted.from == Party::Client { number: 2 });
    assert!(rt; posted.to == Party::Replica { shard: 0, index: 1 });
    assert!(rt; posted.frame.as_slice() == b"frame".as_slice());
    assert!(rt; posted.fate == Fate::Waiting);
    Ok(())
}

// Of five messages these were delivered and these lost; from a number on, the first that a round delivers.
const ROUNDS: &[(&[u64], &[u64], u64, Option<u64>)] = &[
    // All five wait: from 0 and 1 on it is the first, and from 5 on the last.
    (&[], &[], 0, Some(1)),
    (&[], &[], 1, Some(1)),
    (&[], &[], 5, Some(5)),
    // There is no message 6.
    (&[], &[], 6, None),
    // The first two were delivered.
    (&[1, 2], &[], 1, Some(3)),
    // The first was lost, and the second delivered.
    (&[2], &[1], 1, Some(3)),
    // From 2 on the fifth alone waits; the first waits too, and stands before that number.
    (&[2, 4], &[3], 2, Some(5)),
    // Three were delivered, not in their order, and one was lost.
    (&[4, 2, 1], &[3], 1, Some(5)),
    // The message of that number was delivered, so it is the one behind it.
    (&[3], &[], 3, Some(4)),
    // The last was lost, and those that wait stand before it.
    (&[3], &[5], 5, None),
    // None waits any more.
    (&[1, 2, 3, 4], &[5], 1, None),
];

#[test]
fn a_round_passes_over_what_was_delivered_or_lost(rt: HostRuntime) -> Result<(), Fail> {
    let limits = Room {
        messages: 5,
        bytes: 5,
    };
    for &(delivered, lost, from, wanted) in ROUNDS {
        let mut pool = Pool::new(rt.alloc(), limits);
        fill(rt.alloc(), &mut pool, 5)?;
        end(&mut pool, delivered, Fate::Delivered);
        end(&mut pool, lost, Fate::Lost);
        assert!(rt; pool.next_waiting(from) == wanted);
    }
    Ok(())
}

#[test]
fn what_was_delivered_is_not_lost_any_more(rt: HostRuntime) -> Result<(), Fail> {
    let limits = Room {
        messages: 2,
        bytes: 2,
    };
    let mut pool = Pool::new(rt.alloc(), limits);
    fill(rt.alloc(), &mut pool, 2)?;
    end(&mut pool, &[1], Fate::Delivered);
    end(&mut pool, &[1, 2], Fate::Lost);
    assert!(rt; fate_of(&pool, 1) == Some(Fate::Delivered));
    assert!(rt; fate_of(&pool, 2) == Some(Fate::Lost));
    end(&mut pool, &[2], Fate::Delivered);
    assert!(rt; fate_of(&pool, 2) == Some(Fate::Delivered));
    Ok(())
}

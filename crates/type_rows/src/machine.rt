//! Tests of the adapters, over the sockets and the clock of this machine.

use basil_types::clock::Clock;
use basil_types::links::{LinkFail, Links};
use machine_adapters::clock::SystemClock;
use machine_adapters::sockets::SocketLinks;
use std::test::Fail;

/// A frame longer than any piece, twice over the same links.
#[test]
fn a_long_frame_comes_back(rt: HostRuntime) -> Result<(), Fail> {
    let alloc = rt.alloc();
    let mut links = SocketLinks::new(&rt, alloc);
    let mut frame = vec![in alloc; 7u8; 1_000_000]?;
    frame.push(9)?;
    let mut given = Vec::new(alloc);
    for _ in 0..2 {
        links.carry(&frame, &mut given)?;
        assert!(rt; given.as_slice() == frame.as_slice());
    }
    Ok(())
}

/// Nothing listens, and nothing is open.
#[test]
fn calls_without_a_peer_fail(rt: HostRuntime) -> Result<(), Fail> {
    let mut links = SocketLinks::new(&rt, rt.alloc());
    assert!(rt; links.open("127.0.0.1:1") == Err(LinkFail::Failed));
    assert!(rt; links.accept() == Err(LinkFail::Failed));
    assert!(rt; links.write(b"a") == Err(LinkFail::Failed));
    assert!(rt; links.read(&mut [0u8; 1]) == Err(LinkFail::Failed));
    Ok(())
}

/// The clock stands behind the year 2020 and before the year 2200.
#[test]
fn the_clock_gives_milliseconds(rt: HostRuntime) -> Result<(), Fail> {
    let mut clock = SystemClock::new(&rt);
    let now = clock.now();
    assert!(rt; now > 1_577_836_800_000 && now < 7_258_118_400_000);
    Ok(())
}

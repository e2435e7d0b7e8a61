//! Sources, sinks and clocks in memory.

use basil_types::clock::{Clock, MemClock};
use basil_types::sink::{MemSink, Sink, SureSink};
use basil_types::source::{Failed, MemSource, Source, SureSource};
use std::test::Fail;

/// What each read of 1, 2, 3 in pieces of at most 2 answers, where the second fails, and the buffer's first byte then.
const READS: &[(Result<usize, Failed>, u8)] = &[
    (Ok(2), 1),
    (Err(Failed), 1),
    (Ok(1), 3),
    (Ok(0), 3),
];

#[test]
fn sources_give_pieces(rt: HostRuntime) -> Result<(), Fail> {
    let alloc = rt.alloc();
    let failing = Vec::from_slice(alloc, &[2u64])?;
    let mut source = MemSource::new(Vec::from_slice(alloc, &[1, 2, 3])?, 2, failing);
    let mut buf = [0u8; 8];
    for &(answer, first) in READS {
        assert!(rt; source.read(&mut buf) == answer);
        assert!(rt; buf[0] == first);
    }
    let mut sure = SureSource::new(Vec::from_slice(alloc, &[4, 5])?, 3);
    assert!(rt; sure.read(&mut buf) == Ok(2));
    assert!(rt; (buf[0], buf[1]) == (4, 5));
    assert!(rt; sure.read(&mut buf) == Ok(0));
    Ok(())
}

/// Writes to a sink with room for three bytes of which the second fails, and what they answer.
const WRITES: &[(&[u8], Result<(), Failed>)] = &[
    (&[1, 2], Ok(())),
    (&[3], Err(Failed)),
    (&[3, 4], Err(Failed)),
    (&[5], Ok(())),
];

#[test]
fn sinks_take_bytes(rt: HostRuntime) -> Result<(), Fail> {
    let alloc = rt.alloc();
    let mut sink = MemSink::new(alloc, 3, Vec::from_slice(alloc, &[2u64])?)?;
    for &(bytes, answer) in WRITES {
        assert!(rt; sink.write(bytes) == answer);
    }
    assert!(rt; sink.bytes() == [1, 2, 5].as_slice());
    let mut sure = SureSink::new();
    assert!(rt; sure.write(&[1, 2]) == Ok(()));
    Ok(())
}

#[test]
fn clocks_tick(rt: HostRuntime) -> Result<(), Fail> {
    let mut clock = MemClock::new(Vec::from_slice(rt.alloc(), &[5u64, 7])?);
    for moment in [5, 7, 0, 0] {
        assert!(rt; clock.now() == moment);
    }
    Ok(())
}

//! Replays whose replicas keep journals, and disks that stop.

use crate::replays::{ROUNDS, Trial, WRITE, comes_out, take_all};
use basil_types::links::MemLinks;
use schedule_replay::replay::Replay;
use std::alloc::Global;
use std::test::Fail;

/// The disk stops within the write of the gate and leaves it closed; then first stage, vote and writeback go out.
const CLOSED: &[&str] = &["stop 0 0 1 2 4d", "round", "round", "round"];

/// An open gate, then a record of 64 counted bytes at moment 50 by client 1, of a first stage.
const FIRST_RECORD: &[u8] = &[
    0x01, 0x00, 0x00, 0x00, 0x40, 0x00, 0x00, 0x00, 0x00, 0x00, 0x00, 0x00, 0x32, 0x01, 0x00, 0x01,
    0x03,
];

/// Whether the disk of the one replica had one stop, of the gate with this byte, and begins with these bytes.
fn shows(replay: &Replay, byte: u8, front: &[u8]) -> bool {
    let Some(disk) = replay.disk(0, 0) else {
        return false;
    };
    let is_stop = match disk.stops() {
        [stop] => stop.write == 2 && stop.bytes.as_slice() == [byte].as_slice(),
        _ => false,
    };
    is_stop && disk.bytes().starts_with(front)
}

/// Whether a disk shows the records of one write and the stop of its gate, and there is none of another replica.
pub(crate) fn shows_its_stop(
    alloc: Global,
    replay: &mut Replay,
    links: &mut MemLinks,
) -> Result<bool, Fail> {
    take_all(alloc, replay, WRITE, links, false)?;
    take_all(alloc, replay, CLOSED, links, false)?;
    Ok(shows(replay, 0x4d, FIRST_RECORD) && replay.disk(0, 1).is_none())
}

#[test]
fn a_disk_shows_its_records_and_its_stop(rt: HostRuntime) -> Result<(), Fail> {
    assert!(rt; comes_out(rt.alloc(), (0, true), &[], &[], Trial::Stops)?);
    Ok(())
}

/// Whether there is no disk behind one write.
pub(crate) fn has_no_disk(
    alloc: Global,
    replay: &mut Replay,
    links: &mut MemLinks,
) -> Result<bool, Fail> {
    take_all(alloc, replay, WRITE, links, false)?;
    take_all(alloc, replay, ROUNDS, links, false)?;
    Ok(replay.disk(0, 0).is_none())
}

#[test]
fn without_journals_there_is_no_disk(rt: HostRuntime) -> Result<(), Fail> {
    assert!(rt; comes_out(rt.alloc(), (0, false), &[], &[], Trial::HasNoDisk)?);
    Ok(())
}

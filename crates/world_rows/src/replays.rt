//! What is tried of replays, which are let go in one place.

use crate::carried::{leaves_half, writes_one};
use crate::stopped::{has_no_disk, shows_its_stop};
use crate::worlds::cluster_of;
use basil_types::links::MemLinks;
use premise_watch::faulty::Faulty;
use replay_kit::KitKind;
use report_lines::fault::ReplayFault;
use schedule_replay::replay::{Opening, Replay};
use schedule_text::line::Line;
use schedule_text::reading::read_line;
use std::alloc::Global;
use std::test::Fail;

/// A client writes one key, and asks for its votes.
pub(crate) const WRITE: &[&str] = &["begin t1 1 10", "write t1 a x1", "prepare t1"];

/// Three rounds bring first stages, votes and writebacks.
pub(crate) const ROUNDS: &[&str] = &["round", "round", "round"];

/// What is tried.
#[derive(Clone, Copy)]
pub(crate) enum Trial {
    /// One write, with these lines before its rounds, whose deliveries are carried or not, has this report.
    Writes {
        before: &'static [&'static str],
        carried: bool,
        report: &'static str,
    },
    /// A round that fails leaves its first two deliveries, and goes on.
    LeavesHalf,
    /// The disk of the one replica shows its records and its stop.
    Stops,
    /// Without journals there is no disk.
    HasNoDisk,
}

/// Links that alter the carries with these numbers, and fail at those.
fn links_of(alloc: Global, changed: &[u64], failing: &[u64]) -> Result<MemLinks, Fail> {
    let changed = Vec::from_slice(alloc, changed)?;
    let failing = Vec::from_slice(alloc, failing)?;
    Ok(MemLinks::new(alloc, Vec::new(alloc), changed, failing))
}

/// What a line comes to.
pub(crate) fn take(
    alloc: Global,
    replay: &mut Replay,
    text: &str,
    links: &mut MemLinks,
    carried: bool,
) -> Result<Result<(), ReplayFault>, Fail> {
    if replay.ended() {
        return Err("ended".into());
    }
    let line: Line = match read_line(alloc, text.as_bytes(), 2) {
        Ok(line) => line,
        Err(_) => return Err("no line".into()),
    };
    Ok(replay.line(&line, 2, links, carried))
}

/// Lines that must be taken.
pub(crate) fn take_all(
    alloc: Global,
    replay: &mut Replay,
    lines: &[&str],
    links: &mut MemLinks,
    carried: bool,
) -> Result<(), Fail> {
    for text in lines {
        match take(alloc, replay, text, links, carried)? {
            Ok(()) => {}
            Err(_) => return Err("refused".into()),
        }
    }
    Ok(())
}

fn attempt(
    alloc: Global,
    replay: &mut Replay,
    links: &mut MemLinks,
    trial: Trial,
) -> Result<bool, Fail> {
    match trial {
        Trial::Writes {
            before,
            carried,
            report,
        } => writes_one(alloc, replay, before, links, carried, report),
        Trial::LeavesHalf => leaves_half(alloc, replay, links),
        Trial::Stops => shows_its_stop(alloc, replay, links),
        Trial::HasNoDisk => has_no_disk(alloc, replay, links),
    }
}

/// One shard of 5f + 1 replicas over plain keys, without faulty parties, at moment 50.
fn opening_of(f: u8, journal: bool) -> Result<Opening, Fail> {
    Ok(Opening {
        cluster: cluster_of(f)?,
        clock: 50,
        keys: KitKind::Plain,
        journal,
    })
}

/// A replay before its first line.
fn replay_of(alloc: Global, opening: &Opening) -> Result<Box<Replay>, Fail> {
    let replay = Replay::new(alloc, opening, Faulty::new())?;
    Ok(Box::new(alloc, replay)?)
}

/// Whether it comes out of such a replay, over links.
fn comes_out_over(
    alloc: Global,
    opening: &Opening,
    links: &mut MemLinks,
    trial: Trial,
) -> Result<bool, Fail> {
    let mut replay = replay_of(alloc, opening)?;
    attempt(alloc, &mut replay, links, trial)
}

/// Whether it comes out of such a replay, with journals or without, over links that alter the carries with these
/// numbers, and fail at those.
pub(crate) fn comes_out(
    alloc: Global,
    (f, journal): (u8, bool),
    changed: &[u64],
    failing: &[u64],
    trial: Trial,
) -> Result<bool, Fail> {
    let opening = opening_of(f, journal)?;
    let mut links = links_of(alloc, changed, failing)?;
    comes_out_over(alloc, &opening, &mut links, trial)
}

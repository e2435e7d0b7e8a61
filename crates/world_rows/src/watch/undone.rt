//! Frames that are seen again, and taken back.

ghost use Rattle.frame_views.specs.Fitting.{IsSpoken};
ghost use Rattle.frame_views.specs.Shown.{message_of};

use crate::watch::frames::{SAMPLES, Sample};
use crate::watch::seen::{cluster_of, note_but};
use basil_types::cluster::Cluster;
use frame_views::frames::{MessageView, check};
use keyring::plain::PlainKeys;
use premise_watch::faulty::Faulty;
use premise_watch::watch::Watch;
use std::alloc::Global;
use std::test::Fail;

/// Whether a frame whose words are noted is seen twice, and once more after it was taken back.
fn is_seen_again(watch: &mut Watch, cluster: &Cluster, m: &MessageView<'_>) -> Result<bool, Fail>
    requires { IsSpoken (message_of m.now) }
{
    note_but(watch, m, usize::MAX, usize::MAX)?;
    let keys = PlainKeys::new(cluster);
    let faulty = Faulty::new();
    let twice = watch.see(&keys, &faulty, m).is_ok() && watch.see(&keys, &faulty, m).is_ok();
    watch.undo();
    watch.undo();
    Ok(twice && watch.see(&keys, &faulty, m).is_ok())
}

fn is_row_seen(alloc: Global, watch: &mut Watch, sample: &Sample) -> Result<bool, Fail> {
    let cluster = cluster_of(sample)?;
    let frame = hex::decode(alloc, sample.frame)?;
    match check(&frame, &cluster) {
        Ok(m) => is_seen_again(watch, &cluster, &m),
        Err(_) => Ok(false),
    }
}

/// Whether this is so of each sample, before one watch.
fn are_seen_again(alloc: Global, watch: &mut Watch) -> Result<bool, Fail> {
    for sample in SAMPLES {
        if !is_row_seen(alloc, watch, sample)? {
            return Ok(false);
        }
    }
    Ok(true)
}

/// One watch sees all frames, and some transactions in several of them. What was noted stays when a frame is taken
/// back.
#[test]
fn texts_are_seen_again(rt: HostRuntime) -> Result<(), Fail> {
    let mut watch = Box::new(rt.alloc(), Watch::new(rt.alloc()))?;
    assert!(rt; are_seen_again(rt.alloc(), &mut watch)?);
    Ok(())
}

//! What a sight tells of the certificates in frames.

ghost use Rattle.frame_views.specs.Fitting.{IsSpoken};
ghost use Rattle.frame_views.specs.Shown.{message_of};

use crate::watch::frames::{SAMPLES, Sample};
use crate::watch::seen::{cluster_of, only};
use basil_types::bytes::id_of;
use basil_types::cluster::Cluster;
use basil_types::memory::NoMemory;
use basil_types::party::{Decision, Party};
use frame_views::carried::pairs;
use frame_views::frames::{MessageView, check};
use frame_views::signed::signatures;
use keyring::plain::PlainKeys;
use premise_watch::faulty::Faulty;
use run_sight::Sight;
use std::alloc::Global;
use std::test::Fail;

/// The place of a sample, the decisions that its certificates prove, the outer one first, and how many transactions are
/// committed.
struct Case {
    sample: usize,
    decisions: &'static [Decision],
    committed: usize,
}

const PROVEN: &[Case] = &[
    // a vote to abort carries its rival's commit certificate
    Case {
        sample: 0,
        decisions: &[Decision::Commit],
        committed: 1,
    },
    // a conflict abort has its rival's commit certificate inside
    Case {
        sample: 2,
        decisions: &[Decision::Abort, Decision::Commit],
        committed: 1,
    },
    // a decide carries none
    Case {
        sample: 3,
        decisions: &[],
        committed: 0,
    },
];

/// Whether a sight tells these decisions of the pairs in a message, and none where they are not to be known.
fn tells(
    sight: &Sight<PlainKeys>,
    m: &MessageView<'_>,
    decisions: &[Decision],
    known: bool,
) -> bool {
    let mut place = 0usize;
    for pair in pairs(m) {
        let told = sight.decision_of(&id_of(pair.transaction.bytes()));
        let right = if known && place < decisions.len() {
            told == Some(decisions[place])
        } else {
            told.is_none()
        };
        if !right {
            return false;
        }
        place = place.wrapping_add(1);
    }
    place == decisions.len()
}

/// Whether so many transactions are committed.
fn commits(alloc: Global, sight: &Sight<PlainKeys>, count: usize) -> Result<bool, Fail> {
    Ok(sight.committed(alloc)?.len() == count)
}

/// Notes the words of all the frame's signatures.
fn note(sight: &mut Sight<PlainKeys>, m: &MessageView<'_>) -> Result<(), NoMemory>
    requires { IsSpoken (message_of m.now) }
{
    for item in signatures(m) {
        sight.note_all(item.party, &[item.words])?;
    }
    Ok(())
}

/// Whether a sight that knew nothing sees a frame, and tells what it proves.
fn is_seen(
    alloc: Global,
    sight: &mut Sight<PlainKeys>,
    frame: &[u8],
    m: &MessageView<'_>,
    case: &Case,
) -> Result<bool, Fail> {
    let before = tells(sight, m, case.decisions, false);
    let seen = sight.see(frame).is_ok();
    Ok(
        before
            && seen
            && tells(sight, m, case.decisions, true)
            && commits(alloc, sight, case.committed)?,
    )
}

/// Whether the frame is taken back, once.
fn is_taken_back(
    alloc: Global,
    sight: &mut Sight<PlainKeys>,
    m: &MessageView<'_>,
    case: &Case,
) -> Result<bool, Fail> {
    sight.undo();
    sight.undo();
    Ok(tells(sight, m, case.decisions, false) && commits(alloc, sight, 0)?)
}

/// Whether a frame that was taken back is seen twice more, and stays when the second of these is taken back.
fn is_seen_again(
    sight: &mut Sight<PlainKeys>,
    frame: &[u8],
    m: &MessageView<'_>,
    case: &Case,
) -> bool {
    let again = sight.see(frame).is_ok() && sight.see(frame).is_ok();
    sight.undo();
    again && tells(sight, m, case.decisions, true)
}

/// Whether a sight that knows what the frame's parties signed sees it, takes it back, and sees it again.
fn is_proven(
    alloc: Global,
    sight: &mut Sight<PlainKeys>,
    frame: &[u8],
    m: &MessageView<'_>,
    case: &Case,
) -> Result<bool, Fail>
    requires { IsSpoken (message_of m.now) }
{
    note(sight, m)?;
    Ok(
        is_seen(alloc, sight, frame, m, case)?
            && is_taken_back(alloc, sight, m, case)?
            && is_seen_again(sight, frame, m, case),
    )
}

/// Whether a sight without what the frame's parties signed refuses it, and knows nothing after.
fn is_refused(
    alloc: Global,
    sight: &mut Sight<PlainKeys>,
    frame: &[u8],
    m: &MessageView<'_>,
    case: &Case,
) -> Result<bool, Fail> {
    Ok(
        sight.see(frame).is_err()
            && tells(sight, m, case.decisions, false)
            && commits(alloc, sight, 0)?,
    )
}

/// A sight of a run with these faulty parties.
fn new_sight(
    alloc: Global,
    cluster: &Cluster,
    faulty: Faulty,
) -> Result<Box<Sight<PlainKeys>>, Fail> {
    let sight = Sight::new(alloc, *cluster, faulty, PlainKeys::new(cluster));
    Ok(Box::new(alloc, sight)?)
}

/// The first of these two of a new sight. It is owned here alone, and let go in one place.
fn is_proven_anew(
    alloc: Global,
    cluster: &Cluster,
    frame: &[u8],
    m: &MessageView<'_>,
    case: &Case,
) -> Result<bool, Fail>
    requires { IsSpoken (message_of m.now) }
{
    let mut sight = new_sight(alloc, cluster, Faulty::new())?;
    is_proven(alloc, &mut sight, frame, m, case)
}

/// The second, likewise.
fn is_refused_anew(
    alloc: Global,
    cluster: &Cluster,
    frame: &[u8],
    m: &MessageView<'_>,
    case: &Case,
) -> Result<bool, Fail> {
    let mut sight = new_sight(alloc, cluster, Faulty::new())?;
    is_refused(alloc, &mut sight, frame, m, case)
}

/// Whether a case is so before both sights.
fn is_so(
    alloc: Global,
    cluster: &Cluster,
    frame: &[u8],
    m: &MessageView<'_>,
    case: &Case,
) -> Result<bool, Fail>
    requires { IsSpoken (message_of m.now) }
{
    Ok(
        is_proven_anew(alloc, cluster, frame, m, case)?
            && is_refused_anew(alloc, cluster, frame, m, case)?,
    )
}

fn is_row_so(alloc: Global, sample: &Sample, case: &Case) -> Result<bool, Fail> {
    let cluster = cluster_of(sample)?;
    let frame = hex::decode(alloc, sample.frame)?;
    match check(&frame, &cluster) {
        Ok(m) => is_so(alloc, &cluster, &frame, &m, case),
        Err(_) => Ok(false),
    }
}

/// A frame shows what its certificates prove, nested ones too, until it is taken back; and nothing where a signature in
/// it was never made.
#[test]
fn certificates_are_seen(rt: HostRuntime) -> Result<(), Fail> {
    for case in PROVEN {
        let sample = SAMPLES.get(case.sample).ok_or("no sample")?;
        assert!(rt; is_row_so(rt.alloc(), sample, case)?);
    }
    Ok(())
}

const FAULTY: Party = Party::Replica { shard: 0, index: 0 };

const CORRECT: Party = Party::Replica { shard: 0, index: 1 };

/// Whether a sight sees bytes that are no frame, knows nothing after, and tells who is faulty.
fn shows_nothing(alloc: Global, sight: &mut Sight<PlainKeys>) -> Result<bool, Fail> {
    Ok(
        sight.see(&[1, 2, 3]).is_ok()
            && sight.is_faulty(FAULTY)
            && !sight.is_faulty(CORRECT)
            && commits(alloc, sight, 0)?,
    )
}

/// Bytes that are no frame show nothing, and a sight tells who is faulty.
#[test]
fn other_bytes_show_nothing(rt: HostRuntime) -> Result<(), Fail> {
    let cluster = Cluster::new(1, 1, 2, 100)?;
    let faulty = only(FAULTY, &cluster);
    let mut sight = new_sight(rt.alloc(), &cluster, faulty)?;
    assert!(rt; shows_nothing(rt.alloc(), &mut sight)?);
    Ok(())
}

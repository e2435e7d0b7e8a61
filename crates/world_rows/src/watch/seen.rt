//! What the watch refuses of a frame.

ghost use Rattle.frame_views.specs.Fitting.{IsSpoken};
ghost use Rattle.frame_views.specs.Shown.{message_of};

use crate::watch::frames::{By, SAMPLES, Sample, Signed, VOTE};
use basil_types::cluster::Cluster;
use basil_types::memory::NoMemory;
use basil_types::party::Party;
use frame_views::frames::{MessageView, check};
use frame_views::signed::signatures;
use keyring::plain::PlainKeys;
use premise_watch::broken::{Broken, WatchFault};
use premise_watch::faulty::Faulty;
use premise_watch::watch::Watch;
use std::alloc::Global;
use std::test::Fail;

pub(crate) fn party_of(by: &By) -> Party {
    match by {
        By::Replica(shard, index) => Party::Replica {
            shard: *shard,
            index: *index,
        },
        By::Client(number) => Party::Client { number: *number },
    }
}

pub(crate) fn cluster_of(sample: &Sample) -> Result<Cluster, Fail> {
    let [f, shards, reads, delta] = sample.cluster;
    Ok(Cluster::new(f, shards, reads, u64::from(delta))?)
}

/// Notes the words of a frame's signatures, but of those at two places.
pub(crate) fn note_but(
    watch: &mut Watch,
    m: &MessageView<'_>,
    first: usize,
    second: usize,
) -> Result<(), NoMemory>
    requires { IsSpoken (message_of m.now) }
{
    let mut place = 0usize;
    for item in signatures(m) {
        if place != first && place != second {
            watch.note(item.party, &item.words)?;
        }
        place = place.wrapping_add(1);
    }
    Ok(())
}

/// A watch that knows the words of all the frame's signatures but of those at two places, a faulty party or none, and
/// the signature that the watch tells to be forged, or none.
#[derive(Clone, Copy)]
struct Case<'a> {
    unnoted: (usize, usize),
    faulty: Option<&'a By>,
    forged: Option<&'a Signed>,
}

/// What a new watch answers to a frame once it knows the words of all its signatures but of those at two places.
fn answer_of(
    watch: &mut Watch,
    cluster: &Cluster,
    faulty: &Faulty,
    m: &MessageView<'_>,
    unnoted: (usize, usize),
) -> Result<(), WatchFault>
    requires { IsSpoken (message_of m.now) }
{
    note_but(watch, m, unnoted.0, unnoted.1)?;
    watch.see(&PlainKeys::new(cluster), faulty, m)
}

/// Whether a breach is this signature's.
fn is_told(alloc: Global, broken: &Broken, told: &Signed) -> Result<bool, Fail> {
    match broken {
        Broken::Forged {
            party,
            words,
            signature,
        } => Ok(
            *party == party_of(&told.0)
                && words.bytes() == hex::decode(alloc, told.1)?.as_slice()
                && signature.as_slice() == hex::decode(alloc, told.2)?.as_slice(),
        ),
        Broken::Collision { .. } => Ok(false),
    }
}

/// Whether the answer is that this signature is forged, or without one that nothing is.
fn is_answered(
    alloc: Global,
    answer: &Result<(), WatchFault>,
    told: Option<&Signed>,
) -> Result<bool, Fail> {
    match (answer, told) {
        (Ok(()), None) => Ok(true),
        (Err(WatchFault::Broken(broken)), Some(told)) => is_told(alloc, broken, told),
        _ => Ok(false),
    }
}

/// A set of one party, as far as it may be faulty.
pub(crate) fn only(party: Party, cluster: &Cluster) -> Faulty {
    let mut faulty = Faulty::new();
    let _ = faulty.add(party, cluster);
    faulty
}

/// The faulty parties of a case.
fn faulty_of(case: &Case<'_>, cluster: &Cluster) -> Faulty {
    match case.faulty {
        Some(by) => only(party_of(by), cluster),
        None => Faulty::new(),
    }
}

/// Whether the watch of a case answers so.
fn is_so(
    alloc: Global,
    cluster: &Cluster,
    m: &MessageView<'_>,
    case: &Case<'_>,
) -> Result<bool, Fail>
    requires { IsSpoken (message_of m.now) }
{
    let faulty = faulty_of(case, cluster);
    let mut watch = Box::new(alloc, Watch::new(alloc))?;
    let answer = answer_of(&mut watch, cluster, &faulty, m, case.unnoted);
    is_answered(alloc, &answer, case.forged)
}

/// Whether the first of two signatures whose words weren't noted is refused, and passes once its party is faulty.
fn is_refused_at(
    alloc: Global,
    cluster: &Cluster,
    m: &MessageView<'_>,
    signed: &[Signed],
    place: usize,
) -> Result<bool, Fail>
    requires { IsSpoken (message_of m.now) }
{
    let told = signed.get(place).ok_or("no signature")?;
    let both = Case {
        unnoted: (place, signed.len().wrapping_sub(1)),
        faulty: None,
        forged: Some(told),
    };
    let by_faulty = Case {
        unnoted: (place, place),
        faulty: Some(&told.0),
        forged: None,
    };
    Ok(is_so(alloc, cluster, m, &both)? && is_so(alloc, cluster, m, &by_faulty)?)
}

/// Whether this is so of each of the frame's signatures, and nothing is refused where all words were noted.
fn are_refused(
    alloc: Global,
    cluster: &Cluster,
    m: &MessageView<'_>,
    signed: &[Signed],
) -> Result<bool, Fail>
    requires { IsSpoken (message_of m.now) }
{
    for place in 0..signed.len() {
        if !is_refused_at(alloc, cluster, m, signed, place)? {
            return Ok(false);
        }
    }
    let all_noted = Case {
        unnoted: (signed.len(), signed.len()),
        faulty: None,
        forged: None,
    };
    is_so(alloc, cluster, m, &all_noted)
}

fn is_row_refused(alloc: Global, sample: &Sample) -> Result<bool, Fail> {
    let cluster = cluster_of(sample)?;
    let frame = hex::decode(alloc, sample.frame)?;
    match check(&frame, &cluster) {
        Ok(m) => are_refused(alloc, &cluster, &m, sample.signed),
        Err(_) => Ok(false),
    }
}

#[test]
fn a_vote_that_was_not_signed_is_refused(rt: HostRuntime) -> Result<(), Fail> {
    assert!(rt; is_row_refused(rt.alloc(), &VOTE)?);
    Ok(())
}

#[test]
fn each_signature_is_looked_at_in_order(rt: HostRuntime) -> Result<(), Fail> {
    for sample in SAMPLES {
        assert!(rt; is_row_refused(rt.alloc(), sample)?);
    }
    Ok(())
}

/// A case of one signature, whose words weren't noted, and which isn't told to be forged.
const NOT_TOLD: &Case<'static> = &Case {
    unnoted: (0, 0),
    faulty: None,
    forged: None,
};

/// Whether a frame passes whose last byte, one of its only signature, is another.
fn passes_changed(alloc: Global, sample: &Sample) -> Result<bool, Fail> {
    let cluster = cluster_of(sample)?;
    let mut frame = hex::decode(alloc, sample.frame)?;
    if let Some(last) = frame.last_mut() {
        *last ^= 1;
    }
    match check(&frame, &cluster) {
        Ok(m) => is_so(alloc, &cluster, &m, NOT_TOLD),
        Err(_) => Ok(false),
    }
}

/// A signature that isn't accepted shows nothing.
#[test]
fn a_signature_that_is_not_accepted_passes(rt: HostRuntime) -> Result<(), Fail> {
    assert!(rt; passes_changed(rt.alloc(), &VOTE)?);
    Ok(())
}

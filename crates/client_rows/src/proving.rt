//! Certificates of commits and aborts.

use crate::made::{conflict_abort, fast_abort, fast_commit, put_commit, put_logged_abort};
use crate::vectors::{
    CONFLICT, FAST_ABORT, FAST_COMMIT, LMS_COMMIT, LOGGED, WRITES_A, WRITES_B, WRITES_BOTH,
    WRITES_EIGHT,
};
use basil_types::cluster::Cluster;
use basil_types::party::Party;
use certificates::{CertRefusal, check_abort, check_commit};
use frame_views::frames::{MessageView, check};
use keyring::plain::PlainKeys;
use keyring::verifier::Verifier;
use keyring_lms::LmsKeys;
use lms_sign::LmsSet;
use std::alloc::Global;
use std::test::Fail;
use txn_meta::form::check_form;

type Answer = Result<(), CertRefusal>;

const MIXED: Answer = Err(CertRefusal::Mixed);

/// What `check_commit` and `check_abort` answer on a writeback. None where the frame is none.
fn judge<V: Verifier>(keys: &V, frame: &[u8], cluster: &Cluster) -> Option<(Answer, Answer)> {
    match check(frame, cluster) {
        Ok(MessageView::Writeback(m)) => match check_form(m.transaction) {
            Ok(()) => {
                let commit = check_commit(keys, cluster, m.transaction, &m.certificate);
                let abort = check_abort(keys, cluster, m.transaction, &m.certificate);
                Some((commit, abort))
            }
            Err(_) => None,
        },
        _ => None,
    }
}

/// Whether the calls answer so on a writeback, over plain keys.
fn is_judged(frame: &[u8], cluster: &Cluster, commit: Answer, abort: Answer) -> bool {
    judge(&PlainKeys::new(cluster), frame, cluster) == Some((commit, abort))
}

/// A writeback in hex with f and what the calls answer.
type Told = (&'static str, u8, Answer, Answer);

const TOLD: &[Told] = &[
    // A logged commit.
    (LOGGED, 1, Ok(()), MIXED),
    // A fast commit.
    (FAST_COMMIT, 1, Ok(()), MIXED),
    // A fast abort.
    (FAST_ABORT, 0, MIXED, Ok(())),
    // A conflict abort.
    (CONFLICT, 1, MIXED, Ok(())),
];

fn is_told(alloc: Global, row: &Told) -> Result<bool, Fail> {
    let &(frame, f, commit, abort) = row;
    let cluster = Cluster::new(f, 1, f.saturating_add(1), 100)?;
    let bytes = hex::decode(alloc, frame)?;
    Ok(is_judged(&bytes, &cluster, commit, abort))
}

#[test]
fn certificates_of_another_program_stand(rt: HostRuntime) -> Result<(), Fail> {
    for (place, row) in TOLD.iter().enumerate() {
        assert!(rt; is_told(rt.alloc(), row)?, "row {place}");
    }
    Ok(())
}

/// A fast commit: the transaction, the shards of the cluster, the votes of each shard, and what `check_commit` answers,
/// with f = 1.
type Commit = (&'static [u8], u8, &'static [(u8, u8)], Answer);

const COMMITS: &[Commit] = &[
    // All six replicas of the only shard vote.
    (WRITES_A, 1, &[(0, 6)], Ok(())),
    // Five of them vote, one too few.
    (
        WRITES_A,
        1,
        &[(0, 5)],
        Err(CertRefusal::Few {
            count: 5,
            needed: 6,
        }),
    ),
    // All six of both shards vote.
    (WRITES_BOTH, 2, &[(0, 6), (1, 6)], Ok(())),
    // Shard 1 is missing.
    (WRITES_BOTH, 2, &[(0, 6)], Err(CertRefusal::NotInvolved(1))),
    // Shard 0 is missing, which comes before the vote that shard 1 lacks.
    (WRITES_BOTH, 2, &[(1, 5)], Err(CertRefusal::NotInvolved(0))),
    // Of two shards a is of shard 1: shard 0 isn't involved.
    (WRITES_A, 2, &[(0, 6)], Err(CertRefusal::NotInvolved(0))),
];

fn is_commit_judged(alloc: Global, row: &Commit) -> Result<bool, Fail> {
    let &(transaction, shards, tallies, commit) = row;
    let cluster = Cluster::new(1, shards, 2, 100)?;
    let frame = fast_commit(alloc, transaction, tallies)?;
    Ok(is_judged(&frame, &cluster, commit, MIXED))
}

#[test]
fn each_involved_shard_votes(rt: HostRuntime) -> Result<(), Fail> {
    for (place, row) in COMMITS.iter().enumerate() {
        assert!(rt; is_commit_judged(rt.alloc(), row)?, "row {place}");
    }
    Ok(())
}

/// How many votes a fast abort has, and what `check_abort` answers, with f = 1.
const ABORTS: &[(u8, Answer)] = &[
    // Four are just enough.
    (4, Ok(())),
    // Three are one too few.
    (
        3,
        Err(CertRefusal::Few {
            count: 3,
            needed: 4,
        }),
    ),
];

fn is_abort_judged(alloc: Global, count: u8, abort: Answer) -> Result<bool, Fail> {
    let cluster = Cluster::new(1, 1, 2, 100)?;
    let frame = fast_abort(alloc, WRITES_A, count)?;
    Ok(is_judged(&frame, &cluster, MIXED, abort))
}

#[test]
fn votes_to_abort_are_counted(rt: HostRuntime) -> Result<(), Fail> {
    for &(count, abort) in ABORTS {
        assert!(rt; is_abort_judged(rt.alloc(), count, abort)?, "{count} votes");
    }
    Ok(())
}

const NO_CONFLICT: Answer = Err(CertRefusal::NoConflict);

/// Whether a rival is refused that is committed and doesn't conflict.
fn must_conflict(alloc: Global) -> Result<bool, Fail> {
    let cluster = Cluster::new(0, 1, 1, 100)?;
    let mut frame = conflict_abort(alloc, WRITES_A, WRITES_B)?;
    put_commit(&mut frame, WRITES_B, &[(0, 1)])?;
    Ok(is_judged(&frame, &cluster, MIXED, NO_CONFLICT))
}

/// Whether one is that a logged certificate aborts.
fn must_commit(alloc: Global) -> Result<bool, Fail> {
    let cluster = Cluster::new(0, 1, 1, 100)?;
    let mut frame = conflict_abort(alloc, WRITES_A, WRITES_B)?;
    put_logged_abort(&mut frame, WRITES_B)?;
    Ok(is_judged(&frame, &cluster, MIXED, MIXED))
}

#[test]
fn a_rival_must_conflict_and_commit(rt: HostRuntime) -> Result<(), Fail> {
    assert!(rt; must_conflict(rt.alloc())?);
    assert!(rt; must_commit(rt.alloc())?);
    Ok(())
}

/// A place in the conflict abort, one bit of whose byte is turned, and what the calls answer.
type Spoiled = (usize, Answer, Answer);

const SPOILED: &[Spoiled] = &[
    // In the outer vote's signature.
    (57, MIXED, Err(CertRefusal::BadSignature(0))),
    // In the id inside.
    (146, Err(CertRefusal::WrongId), Err(CertRefusal::WrongId)),
    // In the last signature of all.
    (389, MIXED, Err(CertRefusal::BadSignature(6))),
];

fn is_spoiled(alloc: Global, row: &Spoiled) -> Result<bool, Fail> {
    let &(place, commit, abort) = row;
    let cluster = Cluster::new(1, 1, 2, 100)?;
    let mut frame = hex::decode(alloc, CONFLICT)?;
    if let Some(byte) = frame.get_mut(place) {
        *byte ^= 1;
    }
    Ok(is_judged(&frame, &cluster, commit, abort))
}

#[test]
fn places_count_through_the_pair_inside(rt: HostRuntime) -> Result<(), Fail> {
    for (place, row) in SPOILED.iter().enumerate() {
        assert!(rt; is_spoiled(rt.alloc(), row)?, "row {place}");
    }
    Ok(())
}

/// The votes of 21 replicas of each of eight shards.
const ALL: &[(u8, u8)] = &[
    (0, 21),
    (1, 21),
    (2, 21),
    (3, 21),
    (4, 21),
    (5, 21),
    (6, 21),
    (7, 21),
];

/// The bits that are turned in the last byte of the 168th signature, and what `check_commit` answers.
const LAST: &[(u8, Answer)] = &[
    // None is turned.
    (0, Ok(())),
    // The last one is.
    (1, Err(CertRefusal::BadSignature(167))),
];

fn is_last_asked(alloc: Global, bits: u8, commit: Answer) -> Result<bool, Fail> {
    let cluster = Cluster::new(4, 8, 5, 100)?;
    let mut frame = fast_commit(alloc, WRITES_EIGHT, ALL)?;
    if let Some(byte) = frame.last_mut() {
        *byte ^= bits;
    }
    Ok(is_judged(&frame, &cluster, commit, MIXED))
}

#[test]
fn of_168_signatures_each_is_asked(rt: HostRuntime) -> Result<(), Fail> {
    for &(bits, commit) in LAST {
        assert!(rt; is_last_asked(rt.alloc(), bits, commit)?, "{bits} bits");
    }
    Ok(())
}

/// Whether `check_commit` answers so on the LMS commit, over these keys.
fn is_answered(keys: &LmsKeys, frame: &[u8], cluster: &Cluster, commit: Answer) -> bool {
    match judge(keys, frame, cluster) {
        Some((answer, _)) => answer == commit,
        None => false,
    }
}

/// Whether it stands over its replica's key.
fn stands_over_its_key(alloc: Global, frame: &[u8], cluster: &Cluster) -> Result<bool, Fail> {
    let replica = [Party::Replica { shard: 0, index: 0 }];
    let keys = LmsKeys::replay_of(alloc, cluster, LmsSet::W8H5, &replica)?;
    Ok(is_answered(&keys, frame, cluster, Ok(())))
}

/// Whether its signature is refused over no keys.
fn falls_over_none(alloc: Global, frame: &[u8], cluster: &Cluster) -> Result<bool, Fail> {
    let none = LmsKeys::from_publics(alloc, &[])?;
    let refused = Err(CertRefusal::BadSignature(0));
    Ok(is_answered(&none, frame, cluster, refused))
}

/// Whether both are so.
fn is_told_by_keys(alloc: Global) -> Result<bool, Fail> {
    let cluster = Cluster::new(0, 1, 1, 100)?;
    let frame = hex::decode(alloc, LMS_COMMIT)?;
    Ok(stands_over_its_key(alloc, &frame, &cluster)? && falls_over_none(alloc, &frame, &cluster)?)
}

#[test]
fn an_lms_certificate_of_another_program_stands(rt: HostRuntime) -> Result<(), Fail> {
    assert!(rt; is_told_by_keys(rt.alloc())?);
    Ok(())
}

//! Tallies that let a decision be logged.

use crate::vectors::{ABORT_TALLIES, COMMIT_TALLIES};
use basil_types::cluster::Cluster;
use basil_types::party::Decision;
use certificates::{CertRefusal, check_tallies};
use frame_views::frames::{MessageView, check};
use keyring::plain::PlainKeys;
use std::alloc::Global;
use std::test::Fail;
use txn_meta::form::check_form;

type Answer = Result<(), CertRefusal>;

/// What `check_tallies` answers on the tallies of an ST2, for this decision. None where the frame is none.
fn weigh(frame: &[u8], cluster: &Cluster, decision: Decision) -> Option<Answer> {
    let keys = PlainKeys::new(cluster);
    match check(frame, cluster) {
        Ok(MessageView::St2(m)) => match check_form(m.transaction) {
            Ok(()) => Some(check_tallies(&keys, cluster, m.transaction, decision, &m.tallies)),
            Err(_) => None,
        },
        _ => None,
    }
}

/// A frame in hex, the decision that is asked for, and what is answered, with f = 1 and one shard.
type Row = (&'static str, Decision, Answer);

const WEIGHED: &[Row] = &[
    (COMMIT_TALLIES, Decision::Commit, Ok(())),
    (ABORT_TALLIES, Decision::Abort, Ok(())),
    // The votes say commit.
    (
        COMMIT_TALLIES,
        Decision::Abort,
        Err(CertRefusal::BadSignature(0)),
    ),
    (
        ABORT_TALLIES,
        Decision::Commit,
        Err(CertRefusal::Few {
            count: 2,
            needed: 4,
        }),
    ),
];

/// Whether a row's answer is given.
fn is_weighed(alloc: Global, row: &Row) -> Result<bool, Fail> {
    let &(frame, decision, answer) = row;
    let cluster = Cluster::new(1, 1, 2, 100)?;
    let bytes = hex::decode(alloc, frame)?;
    Ok(weigh(&bytes, &cluster, decision) == Some(answer))
}

#[test]
fn tallies_of_another_program_are_weighed(rt: HostRuntime) -> Result<(), Fail> {
    for (place, row) in WEIGHED.iter().enumerate() {
        assert!(rt; is_weighed(rt.alloc(), row)?, "row {place}");
    }
    Ok(())
}

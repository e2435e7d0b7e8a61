//! Proofs of votes to abort.

use crate::made::fast_commit;
use crate::vectors::{FAST_ABORT, FAST_COMMIT, LOGGED, WRITES_A, WRITES_B};
use basil_types::cluster::Cluster;
use basil_types::transaction::TransactionView;
use certificates::{CertRefusal, check_proof};
use frame_views::frames::{CommittedView, MessageView, check};
use keyring::plain::PlainKeys;
use std::alloc::Global;
use std::test::Fail;

type Answer = Result<(), CertRefusal>;

/// What `check_proof` answers where a vote to abort the transaction proves it by the pair of a writeback. None where
/// the bytes are no transaction or no writeback.
fn judge(transaction: &[u8], frame: &[u8], cluster: &Cluster) -> Option<Answer> {
    let keys = PlainKeys::new(cluster);
    match (TransactionView::read(transaction, 0), check(frame, cluster)) {
        (Ok(t), Ok(MessageView::Writeback(m))) => {
            let proof = CommittedView {
                transaction: m.transaction,
                certificate: m.certificate,
            };
            Some(check_proof(&keys, cluster, t, &proof))
        }
        _ => None,
    }
}

/// The kind of a frame, where the byte 7 leaves it as it is.
const KIND: usize = 0;

/// The last byte of a transaction's time.
const TIME: usize = 9;

/// The first byte of the id in the fast commit.
const ID: usize = 58;

/// The last byte of the fast commit.
const END: usize = 302;

/// A transaction, the writeback of its rival with the place of a byte and that byte, and the answer.
type Row = (&'static [u8], &'static str, usize, u8, Answer);

const ROWS: &[Row] = &[
    (WRITES_A, FAST_COMMIT, KIND, 7, Ok(())),
    (WRITES_B, FAST_COMMIT, KIND, 7, Err(CertRefusal::NoConflict)),
    (WRITES_A, LOGGED, KIND, 7, Err(CertRefusal::NoConflict)),
    (WRITES_A, FAST_ABORT, KIND, 7, Err(CertRefusal::Mixed)),
    // The form comes before the id, this before the conflict, and the conflict before the signatures.
    (WRITES_A, FAST_COMMIT, TIME, 0, Err(CertRefusal::NoConflict)),
    (WRITES_A, FAST_COMMIT, ID, 0, Err(CertRefusal::WrongId)),
    (WRITES_B, FAST_COMMIT, ID, 0, Err(CertRefusal::WrongId)),
    (
        WRITES_A,
        FAST_COMMIT,
        END,
        0,
        Err(CertRefusal::BadSignature(5)),
    ),
    (WRITES_B, FAST_COMMIT, END, 0, Err(CertRefusal::NoConflict)),
];

/// Whether this is the answer on the pair in these bytes.
fn is_answered(transaction: &[u8], frame: &[u8], answer: Answer) -> Result<bool, Fail> {
    let cluster = Cluster::new(1, 1, 2, 100)?;
    Ok(judge(transaction, frame, &cluster) == Some(answer))
}

/// Whether a row's answer is given.
fn is_row_answered(alloc: Global, row: &Row) -> Result<bool, Fail> {
    let &(transaction, rival, place, byte, answer) = row;
    let mut frame = hex::decode(alloc, rival)?;
    if let Some(changed) = frame.get_mut(place) {
        *changed = byte;
    }
    is_answered(transaction, &frame, answer)
}

/// Too few votes come before the conflict that is wanting.
const FEW: Answer = Err(CertRefusal::Few {
    count: 5,
    needed: 6,
});

/// Whether that is the answer on five votes.
fn are_few(alloc: Global) -> Result<bool, Fail> {
    let five = fast_commit(alloc, WRITES_B, &[(0, 5)])?;
    is_answered(WRITES_A, &five, FEW)
}

#[test]
fn a_proof_shows_a_committed_rival(rt: HostRuntime) -> Result<(), Fail> {
    for (place, row) in ROWS.iter().enumerate() {
        assert!(rt; is_row_answered(rt.alloc(), row)?, "row {place}");
    }
    assert!(rt; are_few(rt.alloc())?);
    Ok(())
}

//! Checking certificates.

ghost use Rattle.std.specs.Prelude.{◌≡◌, None};
ghost use Rattle.basil_types.specs.Shown.{transaction_of};
ghost use Rattle.frame_views.specs.Fitting.{FitsCertificate, IsSpoken, bounds_of};
ghost use Rattle.frame_views.specs.Shown.{certificate_of, message_of};
ghost use Rattle.txn_meta.specs.Form.{form_fault};

use crate::made::{Votes, writeback};
use basil_types::cluster::Cluster;
use basil_types::memory::NoMemory;
use certificates::check_commit;
use frame_views::frames::{MessageView, WritebackView, check};
use frame_views::signed::signatures;
use keyring::plain::PlainKeys;
use keyring::verifier::Verifier;
use keyring_lms::LmsKeys;
use lms_sign::LmsSet;
use std::alloc::Global;
use txn_meta::form::check_form;

/// What is done with a certificate.
#[derive(Clone, Copy)]
pub enum Proving {
    /// It is checked.
    Certificate,
    /// Each of its signatures is asked for, and checked.
    Signatures,
}

/// How often a certificate proves the commit.
fn certify_often<V: Verifier>(keys: &V, cluster: &Cluster, m: &WritebackView<'_>, count: u32) -> u64
    requires form { form_fault (transaction_of m.now.transaction) ≡ None }
    requires fits { FitsCertificate (bounds_of cluster.now) (certificate_of m.now.certificate) }
{
    let mut sum = 0u64;
    for _ in 0..count {
        if check_commit(keys, cluster, m.transaction, &m.certificate).is_ok() {
            sum = sum.saturating_add(1);
        }
    }
    sum
}

/// How many signatures of a message are accepted.
fn accepted<V: Verifier>(keys: &V, m: &MessageView<'_>) -> u64
    requires { IsSpoken (message_of m.now) }
{
    let mut sum = 0u64;
    for item in signatures(m) {
        if keys.accepts(item.party, item.words.bytes(), item.signature) {
            sum = sum.saturating_add(1);
        }
    }
    sum
}

fn accept_often<V: Verifier>(keys: &V, m: &MessageView<'_>, count: u32) -> u64
    requires { IsSpoken (message_of m.now) }
{
    let mut sum = 0u64;
    for _ in 0..count {
        sum = sum.saturating_add(accepted(keys, m));
    }
    sum
}

/// Does so with the certificate of a writeback's frame.
fn prove_often<V: Verifier>(
    keys: &V,
    cluster: &Cluster,
    frame: &[u8],
    proving: Proving,
    count: u32,
) -> u64 {
    let Ok(m) = check(frame, cluster) else {
        return 0;
    };
    match proving {
        Proving::Signatures => accept_often(keys, &m, count),
        Proving::Certificate => match m {
            MessageView::Writeback(w) if check_form(w.transaction).is_ok() => certify_often(
                keys, cluster, &w, count,
            ),
            _ => 0,
        },
    }
}

/// Makes a fast commit of 21 replicas of so many shards and a keyring, and proves it so many times.
pub fn prove(
    alloc: Global,
    proving: Proving,
    votes: Votes,
    shards: u8,
    count: u32,
) -> Result<u64, NoMemory> {
    let Ok(cluster) = Cluster::new(4, shards, 5, 100) else {
        return Ok(0);
    };
    let frame = writeback(alloc, &cluster, votes)?;
    match votes {
        Votes::Filler => Ok(0),
        Votes::Plain => Ok(prove_often(
            &PlainKeys::new(&cluster),
            &cluster,
            &frame,
            proving,
            count,
        )),
        Votes::Lms(set) => {
            let keys = LmsKeys::replay(alloc, &cluster, set)?;
            Ok(prove_often(&keys, &cluster, &frame, proving, count))
        }
    }
}

/// Makes the keys of a replay of the largest cluster so many times.
pub fn make_rings(alloc: Global, set: LmsSet, count: u32) -> Result<u64, NoMemory> {
    let Ok(cluster) = Cluster::new(6, 8, 7, 100) else {
        return Ok(0);
    };
    let mut sum = 0u64;
    for _ in 0..count {
        let _keys = LmsKeys::replay(alloc, &cluster, set)?;
        sum = sum.saturating_add(1);
    }
    Ok(sum)
}

//! Pursuits that took frames, which are named by tokens.

use crate::answers::{Pursued, frame_of};
use crate::made::fast_commit;
use crate::told;
use crate::vectors::{WRITES_A, WRITES_BOTH};
use basil_types::bytes::Bytes;
use basil_types::cluster::Cluster;
use basil_types::transaction::TransactionView;
use client_recover::{FrameFault, Pursuit};
use frame_views::frames::{MessageView, check};
use keyring::plain::PlainKeys;
use std::alloc::Global;
use std::process::Abort;
use std::test::Fail;
use txn_meta::form::check_form;

/// Time 30, client 1, a read of a as genesis has it: committed, a rival of a writer of a at time 10.
pub(crate) const READS_A: &[u8] = &[
    1, 0, 0, 0, 0, 0, 0, 0, 30, 1, 1, 1, 0x61, 0, 0, 0, 0, 0, 0, 0, 0, 0, 0, 0, 0, 0, 0, 0, 0, 0,
    0, 0, 0, 0, 0, 0, 0, 0, 0, 0, 0, 0, 0, 0, 0, 0, 0, 0, 0, 0, 0, 0, 0, 0, 0, 0,
];

/// A pursuit for which no frame was taken; fails where the bytes are no transaction of good form.
pub(crate) fn pursuit_of(
    alloc: Global,
    transaction: &[u8],
    cluster: &Cluster,
) -> Result<Box<Pursuit>, Fail> {
    let signature = Bytes::copy_of(alloc, b"signature")?;
    match TransactionView::read(transaction, 0) {
        Ok(t) => {
            let owned = t.try_owned(alloc)?;
            match check_form(owned.view()) {
                Ok(()) => Ok(Box::new(alloc, Pursuit::new(alloc, owned, signature, *cluster))?),
                Err(_) => Err(Fail::new("no good form")),
            }
        }
        Err(_) => Err(Fail::new("no transaction")),
    }
}

/// What is pursued, with f = 1: a writer of a in a cluster of one shard, and one of a and b in a cluster of two, where
/// a is of shard 1 and b of shard 0.
fn pursued<'a>(shards: u8, rival: &'a [u8]) -> Pursued<'a> {
    if shards == 1 {
        Pursued {
            transaction: WRITES_A,
            rival,
            tallies: &[(0, 6)],
        }
    } else {
        Pursued {
            transaction: WRITES_BOTH,
            rival,
            tallies: &[(0, 6), (1, 6)],
        }
    }
}

/// Takes a frame by its kind; fails where it is no vote, log reply or writeback of the cluster.
pub(crate) fn take(pursuit: &mut Pursuit, frame: &[u8]) -> Result<Result<(), FrameFault>, Fail> {
    let cluster = *pursuit.cluster();
    let keys = PlainKeys::new(&cluster);
    match check(frame, &cluster) {
        Ok(m) => match m {
            MessageView::Vote(_) => Ok(pursuit.add_vote(&keys, &m)),
            MessageView::LogReply(_) => Ok(pursuit.add_log(&keys, &m)),
            MessageView::Writeback(_) => Ok(pursuit.add_certificate(&keys, &m)),
            _ => Err(Fail::new("another kind")),
        },
        Err(_) => Err(Fail::new("no frame")),
    }
}

/// Takes the frame of this name, or takes the last add back at `u`; `!` stands before the name of a frame that is
/// refused. Fails where it is otherwise.
fn follow(
    alloc: Global,
    pursuit: &mut Pursuit,
    pursued: &Pursued<'_>,
    token: &str,
) -> Result<(), Fail> {
    if token == "u" {
        pursuit.undo();
        return Ok(());
    }
    let (taken, name) = match token.strip_prefix('!') {
        Some(name) => (false, name),
        None => (true, token),
    };
    let frame = frame_of(alloc, pursued, name)?;
    if take(pursuit, &frame)?.is_ok() == taken {
        Ok(())
    } else {
        Err(Fail::new("taken or refused otherwise"))
    }
}

/// What is asked of a pursuit.
#[derive(Clone, Copy)]
pub(crate) enum Asked {
    /// Its outcome.
    Outcome,
    /// How many votes and log replies it holds.
    Held,
    /// Its second stage.
    Second,
    /// Its invoke.
    Invoke,
    /// How many it held and what it had decided before its last add, to which it goes back.
    Back,
}

/// Takes the frames of these names, in order, with all that `follow` reads among them.
fn follow_all(
    alloc: Global,
    pursuit: &mut Pursuit,
    pursued: &Pursued<'_>,
    tokens: &str,
) -> Result<(), Fail> {
    for token in tokens.split(' ') {
        follow(alloc, pursuit, pursued, token)?;
    }
    Ok(())
}

fn second(alloc: Global, pursuit: &Pursuit) -> Result<String, Fail> {
    told::asking(alloc, &pursuit.second()?)
}

fn invoke(alloc: Global, pursuit: &Pursuit) -> Result<String, Fail> {
    told::asking(alloc, &pursuit.invoke()?)
}

/// What a pursuit answers.
fn answer(alloc: Global, pursuit: &mut Pursuit, asked: Asked) -> Result<String, Fail> {
    match asked {
        Asked::Outcome => told::outcome(alloc, pursuit.outcome()),
        Asked::Held => told::number(alloc, pursuit.held()),
        Asked::Second => second(alloc, pursuit),
        Asked::Invoke => invoke(alloc, pursuit),
        Asked::Back => told::back(alloc, pursuit),
    }
}

/// What a pursuit answers once it took the frames of these names.
fn answer_behind(
    alloc: Global,
    pursuit: &mut Pursuit,
    pursued: &Pursued<'_>,
    tokens: &str,
    asked: Asked,
) -> Result<String, Fail> {
    follow_all(alloc, pursuit, pursued, tokens)?;
    answer(alloc, pursuit, asked)
}

/// What a new pursuit answers once it took the frames of these names. It is owned here alone, and let go in one place.
fn after(alloc: Global, shards: u8, tokens: &str, asked: Asked) -> Result<String, Fail> {
    let cluster = Cluster::new(1, shards, 2, 100)?;
    let rival = fast_commit(alloc, READS_A, &[(shards.saturating_sub(1), 6)])?;
    let pursued = pursued(shards, &rival);
    let mut pursuit = pursuit_of(alloc, pursued.transaction, &cluster)?;
    answer_behind(alloc, &mut pursuit, &pursued, tokens, asked)
}

/// Each row's answer is its last text: the shards of a cluster with f = 1, the frames that were taken, and the answer.
pub(crate) fn are_answered(
    rt: &impl Abort,
    alloc: Global,
    rows: &[(u8, &str, &str)],
    asked: Asked,
) -> Result<(), Fail> {
    for &(shards, tokens, wanted) in rows {
        let found = after(alloc, shards, tokens, asked)?;
        assert!(rt; found.as_str() == wanted, "{tokens}: {found}");
    }
    Ok(())
}

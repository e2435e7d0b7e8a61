//! Certificates, second stages, invokes and what a pursuit goes back to, as short texts.

use basil_types::party::Decision;
use client_recover::Pursuit;
use frame_values::owned::{
    Certificate, CertificateBody, InvokePart, LogPart, Message, ShardVotes, VotePart,
};
use std::alloc::{AllocError, Global};
use std::test::Fail;

/// A decision by its name.
pub(crate) fn name_of(decision: Decision) -> &'static str {
    match decision {
        Decision::Commit => "commit",
        Decision::Abort => "abort",
    }
}

/// ` 1:035`, the votes of the replicas 0, 3 and 5 of shard 1.
fn put_votes(text: &mut String, shard: u8, votes: &[VotePart]) -> Result<(), AllocError> {
    write!(text, " {shard}:")?;
    for vote in votes {
        write!(text, "{}", vote.replica)?;
    }
    Ok(())
}

fn put_tallies(text: &mut String, tallies: &[ShardVotes]) -> Result<(), AllocError> {
    for tally in tallies {
        put_votes(text, tally.shard, tally.votes.as_slice())?;
    }
    Ok(())
}

/// ` 0@2 3@2`, the log replies of the replicas 0 and 3, in view 2.
fn put_logs(text: &mut String, logs: &[LogPart]) -> Result<(), AllocError> {
    for log in logs {
        write!(text, " {}@{}", log.replica, log.current)?;
    }
    Ok(())
}

/// A certificate: what it is, and by whom.
fn put_certificate(text: &mut String, told: &Certificate) -> Result<(), AllocError> {
    match &told.body {
        CertificateBody::FastCommit { tallies } => {
            text.push_str("fast commit")?;
            put_tallies(text, tallies.as_slice())
        }
        CertificateBody::FastAbort { shard, votes } => {
            text.push_str("fast abort")?;
            put_votes(text, *shard, votes.as_slice())
        }
        CertificateBody::ConflictAbort { shard, replica, .. } => {
            write!(text, "conflict {shard}:{replica}")
        }
        CertificateBody::Logged {
            decision,
            decided,
            logs,
            ..
        } => {
            write!(text, "logged {} in {decided}:", name_of(*decision))?;
            put_logs(text, logs.as_slice())
        }
    }
}

/// ` 2@3 commit 1`, the log reply of replica 2 with view 3 current: it commits, decided in view 1.
fn put_replies(text: &mut String, replies: &[InvokePart]) -> Result<(), AllocError> {
    for reply in replies {
        write!(text, " {}@{} ", reply.replica, reply.current)?;
        write!(text, "{} {}", name_of(reply.decision), reply.decided)?;
    }
    Ok(())
}

/// A second stage or an invoke: what it says, and by whom. Nothing for another message.
fn put_message(text: &mut String, told: &Message) -> Result<(), AllocError> {
    match told {
        Message::St2(m) => {
            text.push_str(name_of(m.decision))?;
            put_tallies(text, m.tallies.as_slice())
        }
        Message::Invoke(m) => {
            write!(text, "{}:", m.shard)?;
            put_replies(text, m.replies.as_slice())
        }
        _ => Ok(()),
    }
}

/// An outcome, empty where there is none.
pub(crate) fn outcome(
    alloc: Global,
    outcome: Option<(Decision, &Certificate)>,
) -> Result<String, Fail> {
    let mut text = String::new(alloc);
    if let Some((_, told)) = outcome {
        put_certificate(&mut text, told)?;
    }
    Ok(text)
}

/// What a pursuit sends, empty where it sends nothing.
pub(crate) fn asking(alloc: Global, sent: &Option<Message>) -> Result<String, Fail> {
    let mut text = String::new(alloc);
    if let Some(told) = sent {
        put_message(&mut text, told)?;
    }
    Ok(text)
}

/// A number in decimal digits.
pub(crate) fn number(alloc: Global, number: u32) -> Result<String, Fail> {
    Ok(format!(in alloc; "{number}")?)
}

/// `2 fast commit 0:012345`, how many are held and the outcome, if there is one.
fn state(
    alloc: Global,
    held: u32,
    decided: Option<(Decision, &Certificate)>,
) -> Result<String, Fail> {
    let told = outcome(alloc, decided)?;
    let space = if told.is_empty() { "" } else { " " };
    Ok(format!(in alloc; "{held}{space}{told}")?)
}

fn before(alloc: Global, pursuit: &Pursuit) -> Result<String, Fail> {
    state(alloc, pursuit.held_before(), pursuit.outcome_before())
}

/// Whether a pursuit is in this state, and was before its last add.
fn is_in(alloc: Global, pursuit: &Pursuit, told: &str) -> Result<bool, Fail> {
    let now = state(alloc, pursuit.held(), pursuit.outcome())?;
    Ok(now.as_str() == told && before(alloc, pursuit)?.as_str() == told)
}

/// The state of a pursuit before its last add; fails where it isn't in it once that is taken back, or is taken back
/// twice.
pub(crate) fn back(alloc: Global, pursuit: &mut Pursuit) -> Result<String, Fail> {
    let told = before(alloc, pursuit)?;
    pursuit.undo();
    let is_back = is_in(alloc, pursuit, &told)?;
    pursuit.undo();
    if is_back && is_in(alloc, pursuit, &told)? {
        Ok(told)
    } else {
        Err(Fail::new("another state came back"))
    }
}

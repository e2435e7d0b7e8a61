//! Certificates of each kind, and the rules of their fields, wherever a certificate stands.

use super::fields::{
    DECISION, FIT, Fields, REPLICA, REPLIES, Rule, SHARD, SHARDS, SIGNATURE, SIGNERS, fit_but,
};
use super::is_fit;
use super::messages::{read_reply, vote};
use super::parts::{
    certificate_of, empty_commit, logs, prepared, some, tallies, transaction, votes,
};
use basil_codec::{Certificate, CertificateBody, CommittedPart, Message, WritebackMessage};
use std::alloc::Global;
use std::process::Abort;
use std::test::Fail;

/// A kind of certificate.
#[derive(Clone, Copy)]
enum Body {
    FastCommit,
    Logged,
    FastAbort,
    ConflictAbort,
}

/// A kind, its name, whether it may stand where a commit certificate must, and the rules of its fields.
type Row = (Body, &'static str, bool, &'static [Rule]);

const BODIES: &[Row] = &[
    (Body::FastCommit, "fast commit", true, &[SHARDS, SIGNERS]),
    (
        Body::Logged,
        "logged",
        true,
        &[SHARD, DECISION, REPLIES, SIGNERS],
    ),
    (Body::FastAbort, "fast abort", false, &[SHARD, SIGNERS]),
    (
        Body::ConflictAbort,
        "conflict abort",
        false,
        &[SHARD, REPLICA, SIGNATURE],
    ),
];

fn fast_commit(alloc: Global, fields: &Fields) -> Result<Certificate, Fail> {
    let tallies = tallies(alloc, fields)?;
    Ok(certificate_of(CertificateBody::FastCommit { tallies }))
}

fn logged(alloc: Global, fields: &Fields) -> Result<Certificate, Fail> {
    let logs = logs(alloc, fields)?;
    Ok(certificate_of(CertificateBody::Logged {
        shard: fields.shard,
        decision: fields.decision,
        decided: fields.decided,
        logs,
    }))
}

fn fast_abort(alloc: Global, fields: &Fields) -> Result<Certificate, Fail> {
    let votes = votes(alloc, fields.signers)?;
    Ok(certificate_of(CertificateBody::FastAbort {
        shard: fields.shard,
        votes,
    }))
}

/// A conflict abort with a fast commit inside.
fn conflict_abort(alloc: Global, fields: &Fields) -> Result<Certificate, Fail> {
    let signature = some(alloc, fields.signature)?;
    let other = transaction(alloc)?;
    let proof = Box::new(alloc, empty_commit(alloc))?;
    Ok(certificate_of(CertificateBody::ConflictAbort {
        shard: fields.shard,
        replica: fields.replica,
        signature,
        other,
        proof,
    }))
}

/// The certificate of a kind with these fields.
fn certificate(alloc: Global, body: Body, fields: &Fields) -> Result<Certificate, Fail> {
    match body {
        Body::FastCommit => fast_commit(alloc, fields),
        Body::Logged => logged(alloc, fields),
        Body::FastAbort => fast_abort(alloc, fields),
        Body::ConflictAbort => conflict_abort(alloc, fields),
    }
}

/// Whether a writeback of such a certificate fits.
fn is_writeback_fit(alloc: Global, body: Body, fields: &Fields) -> Result<bool, Fail> {
    let transaction = transaction(alloc)?;
    let certificate = certificate(alloc, body, fields)?;
    Ok(is_fit(Message::Writeback(WritebackMessage {
        transaction,
        certificate,
    })))
}

/// A committed transaction with such a certificate.
fn pair(alloc: Global, body: Body, fields: &Fields) -> Result<CommittedPart, Fail> {
    let transaction = transaction(alloc)?;
    let certificate = certificate(alloc, body, fields)?;
    Ok(CommittedPart {
        transaction,
        certificate,
    })
}

/// Whether a vote to abort fits whose proof has such a certificate.
fn is_vote_fit(alloc: Global, body: Body, fields: &Fields) -> Result<bool, Fail> {
    let signature = some(alloc, 1)?;
    let proof = pair(alloc, body, fields)?;
    Ok(is_fit(vote(&FIT, signature, Some(proof))))
}

/// Whether a read reply fits whose committed transaction has such a certificate.
fn is_read_reply_fit(alloc: Global, body: Body, fields: &Fields) -> Result<bool, Fail> {
    let key = some(alloc, 1)?;
    let signature = some(alloc, 1)?;
    let prepared = prepared(alloc, true)?;
    let committed = pair(alloc, body, fields)?;
    Ok(is_fit(read_reply(&FIT, key, signature, prepared, Some(committed))))
}

/// A conflict abort with such a certificate inside.
fn conflict_abort_over(alloc: Global, body: Body, fields: &Fields) -> Result<Certificate, Fail> {
    let signature = some(alloc, 1)?;
    let other = transaction(alloc)?;
    let proof = Box::new(alloc, certificate(alloc, body, fields)?)?;
    Ok(certificate_of(CertificateBody::ConflictAbort {
        shard: 1,
        replica: 5,
        signature,
        other,
        proof,
    }))
}

/// Whether a writeback of such a conflict abort fits.
fn is_conflict_abort_fit(alloc: Global, body: Body, fields: &Fields) -> Result<bool, Fail> {
    let transaction = transaction(alloc)?;
    let certificate = conflict_abort_over(alloc, body, fields)?;
    Ok(is_fit(Message::Writeback(WritebackMessage {
        transaction,
        certificate,
    })))
}

/// Whether such a certificate fits a writeback as it is said, and fits where a commit certificate must stand only if it
/// is one.
fn is_as_said(
    alloc: Global,
    body: Body,
    fields: &Fields,
    fit: bool,
    commits: bool,
) -> Result<bool, Fail> {
    Ok(
        is_writeback_fit(alloc, body, fields)? == fit
            && is_vote_fit(alloc, body, fields)? == (fit && commits)
            && is_read_reply_fit(alloc, body, fields)? == (fit && commits)
            && is_conflict_abort_fit(alloc, body, fields)? == (fit && commits),
    )
}

/// Whether a kind keeps a rule: its certificates fit as the rows say.
fn keeps(alloc: Global, body: Body, commits: bool, rule: &Rule) -> Result<bool, Fail> {
    for &(field, fit) in rule.rows {
        if !is_as_said(alloc, body, &fit_but(field), fit, commits)? {
            return Ok(false);
        }
    }
    Ok(true)
}

/// Fails with the first rule that a kind doesn't keep.
fn keeps_all(rt: &impl Abort, alloc: Global, row: &Row) -> Result<(), Fail> {
    let &(body, name, commits, rules) = row;
    for rule in rules {
        assert!(rt; keeps(alloc, body, commits, rule)?, "{name}: {}", rule.says);
    }
    Ok(())
}

#[test]
fn certificates_keep_each_rule_wherever_they_stand(rt: HostRuntime) -> Result<(), Fail> {
    for row in BODIES {
        keeps_all(&rt, rt.alloc(), row)?;
    }
    Ok(())
}

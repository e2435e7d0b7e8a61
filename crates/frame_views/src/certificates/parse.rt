//! Reading a certificate from left to right.

ghost use Rattle.std.specs.Prelude.{◌≡◌, IfOk, true};
ghost use Rattle.basil_types.specs.Steps.{Gives};
ghost use Rattle.frame_views.specs.Fitting.{Within, widest, is_commit};
ghost use Rattle.frame_views.specs.Forms.{made};
ghost use Rattle.frame_views.specs.Grammar.{logged_at, commit_body_at, commit_at, fast_abort_at, conflict_at, body_at};
ghost use Rattle.frame_views.specs.Grammar.{certificate_at};
ghost use Rattle.frame_views.specs.Values as values;
ghost use Rattle.frame_views.specs.Values.{as_certificate};
ghost use Rattle.frame_views.specs.Shown.{certificate_of, body_of, parts_of, HoldsCommit};

use super::body::{CertBody, CertParts};
use super::view::CertificateView;
use crate::bounds::Bounds;
use crate::fields::{decision, id, signature};
use crate::items::{LogsView, TalliesView, VotesView};
use basil_types::reading::{Fault, between, u64_at};
use basil_types::transaction::first;

/// Log replies: shard, decision, the view in which it was decided, and the replies.
#[tactic(auto, unfolding(crate::specs::Grammar::logged_at))]
fn logged<'a>(bounds: Bounds, bytes: &'a [u8]) -> Result<(CertBody<'a>, &'a [u8]), Fault>
    requires { Within bounds widest }
    ensures gives { Gives (λ x. (body_of x.0, x.1.now)) result
        (made values.Commits (made values.Logged (logged_at bounds)) bytes.now) }
    ensures commits { IfOk result (λ x. HoldsCommit x.0) }
{
    let (shard, rest) = between(0, bounds.shards, bytes)?;
    let (decision, rest) = decision(rest)?;
    let (decided, rest) = u64_at(rest)?;
    let (logs, rest) = LogsView::read(bounds, decided, rest)?;
    Ok((
        CertBody::Logged {
            shard,
            decision,
            decided,
            logs,
        },
        rest,
    ))
}

/// The body of a certificate of kind 1 or 2.
#[tactic(auto, unfolding(crate::specs::Grammar::commit_body_at))]
fn commit_body<'a>(
    bounds: Bounds,
    kind: u8,
    bytes: &'a [u8],
) -> Result<(CertBody<'a>, &'a [u8]), Fault>
    requires { Within bounds widest }
    ensures gives { Gives (λ x. (body_of x.0, x.1.now)) result
        (made values.Commits (commit_body_at bounds kind) bytes.now) }
    ensures commits { IfOk result (λ x. HoldsCommit x.0) }
{
    if kind == 1 {
        let (tallies, rest) = TalliesView::read(bounds, bytes)?;
        Ok((CertBody::FastCommit { tallies }, rest))
    } else {
        logged(bounds, bytes)
    }
}

/// A certificate of kind 1 or 2: kind, id and body.
#[tactic(auto, unfolding(crate::specs::Grammar::commit_at))]
fn commit_parts<'a>(bounds: Bounds, bytes: &'a [u8]) -> Result<(CertParts<'a>, &'a [u8]), Fault>
    requires { Within bounds widest }
    ensures { Gives (λ x. (parts_of x.0, x.1.now)) result (made as_certificate (commit_at bounds) bytes.now) }
{
    let (kind, rest) = between(1, 3, bytes)?;
    let (id, rest) = id(rest)?;
    let (body, rest) = commit_body(bounds, kind, rest)?;
    Ok((CertParts { id, body }, rest))
}

/// A certificate of kind 1 or 2, and the bytes behind it.
pub(crate) fn commit<'a>(
    bounds: Bounds,
    bytes: &'a [u8],
) -> Result<(CertificateView<'a>, &'a [u8]), Fault>
    requires { Within bounds widest }
    ensures gives { Gives (λ x. (certificate_of x.0, x.1.now)) result
        (made as_certificate (commit_at bounds) bytes.now) }
    ensures commits { IfOk result (λ x. is_commit (certificate_of x.0).body ≡ true) }
{
    match commit_parts(bounds, bytes) {
        Ok((_parts, rest)) => Ok((
            CertificateView::of(&bytes[..bytes.len() - rest.len()]),
            rest,
        )),
        Err(fault) => Err(fault),
    }
}

/// Abort votes of one shard.
#[tactic(auto, unfolding(crate::specs::Grammar::fast_abort_at))]
fn fast_abort<'a>(bounds: Bounds, bytes: &'a [u8]) -> Result<(CertBody<'a>, &'a [u8]), Fault>
    requires { Within bounds widest }
    ensures gives { Gives (λ x. (body_of x.0, x.1.now)) result
        (made values.FastAbort (fast_abort_at bounds) bytes.now) }
    ensures commits { IfOk result (λ x. HoldsCommit x.0) }
{
    let (shard, rest) = between(0, bounds.shards, bytes)?;
    let (votes, rest) = VotesView::read(bounds, rest)?;
    Ok((CertBody::FastAbort { shard, votes }, rest))
}

/// An abort vote, a transaction and its commit certificate.
#[tactic(auto, unfolding(crate::specs::Grammar::conflict_at))]
fn conflict<'a>(bounds: Bounds, bytes: &'a [u8]) -> Result<(CertBody<'a>, &'a [u8]), Fault>
    requires { Within bounds widest }
    ensures gives { Gives (λ x. (body_of x.0, x.1.now)) result
        (made values.ConflictAbort (conflict_at bounds) bytes.now) }
    ensures commits { IfOk result (λ x. HoldsCommit x.0) }
{
    let (shard, rest) = between(0, bounds.shards, bytes)?;
    let (replica, rest) = between(0, bounds.replicas, rest)?;
    let (signature, rest) = signature(rest)?;
    let (other, rest) = first(rest)?;
    let (proof, rest) = commit(bounds, rest)?;
    Ok((
        CertBody::ConflictAbort {
            shard,
            replica,
            signature,
            other,
            proof,
        },
        rest,
    ))
}

/// The body of a certificate of kind 1 to 4.
#[tactic(auto, unfolding(crate::specs::Grammar::body_at))]
fn body<'a>(bounds: Bounds, kind: u8, bytes: &'a [u8]) -> Result<(CertBody<'a>, &'a [u8]), Fault>
    requires { Within bounds widest }
    ensures gives { Gives (λ x. (body_of x.0, x.1.now)) result (body_at bounds kind bytes.now) }
    ensures commits { IfOk result (λ x. HoldsCommit x.0) }
{
    if kind < 3 {
        commit_body(bounds, kind, bytes)
    } else if kind == 3 {
        fast_abort(bounds, bytes)
    } else {
        conflict(bounds, bytes)
    }
}

/// A certificate of kind 1 to 4: kind, id and body.
#[tactic(auto, unfolding(crate::specs::Grammar::certificate_at))]
pub(crate) fn certificate_parts<'a>(
    bounds: Bounds,
    bytes: &'a [u8],
) -> Result<(CertParts<'a>, &'a [u8]), Fault>
    requires { Within bounds widest }
    ensures gives { Gives (λ x. (parts_of x.0, x.1.now)) result (certificate_at bounds bytes.now) }
    ensures commits { IfOk result (λ x. HoldsCommit x.0.body) }
{
    let (kind, rest) = between(1, 5, bytes)?;
    let (id, rest) = id(rest)?;
    let (body, rest) = body(bounds, kind, rest)?;
    Ok((CertParts { id, body }, rest))
}

/// A certificate, and the bytes behind it.
pub(crate) fn certificate<'a>(
    bounds: Bounds,
    bytes: &'a [u8],
) -> Result<(CertificateView<'a>, &'a [u8]), Fault>
    requires { Within bounds widest }
    ensures { Gives (λ x. (certificate_of x.0, x.1.now)) result (certificate_at bounds bytes.now) }
{
    match certificate_parts(bounds, bytes) {
        Ok((_parts, rest)) => Ok((
            CertificateView::of(&bytes[..bytes.len() - rest.len()]),
            rest,
        )),
        Err(fault) => Err(fault),
    }
}

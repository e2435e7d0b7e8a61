//! Owned copies of certificates.

ghost use Rattle.std.specs.Prelude.{◌≡◌, IfOk, true, option_map, List, ℕ};
ghost use Rattle.frame_views.specs.Items.{logs_of};
ghost use Rattle.frame_views.specs.Fitting.{is_commit};
ghost use Rattle.frame_values.specs.Owned.{certificate_value, commit_value, body_value, committed_value};
ghost use Rattle.frame_views.specs.Shown.{certificate_of, body_of, committed_of, HoldsCommit};
ghost use Rattle.frame_views.specs.Values as values;
ghost use Rattle.frame_views.specs.Values.{as_commit};

use super::lists::{own_logs, own_tallies, own_votes};
use crate::owned::{Certificate, CertificateBody, CommittedPart};
use basil_types::bytes::Bytes;
use basil_types::memory::NoMemory;
use basil_types::party::Decision;
use frame_views::certificates::{CertBody, CertificateView};
use frame_views::frames::CommittedView;
use frame_views::items::LogsView;
use std::alloc::Global;

fn own_logged(
    alloc: Global,
    shard: u8,
    decision: Decision,
    decided: u64,
    logs: &LogsView<'_>,
) -> Result<CertificateBody, NoMemory>
    ensures body { IfOk result (λ x. body_value x ≡ values.Commits (values.Logged (record {
      shard = shard;
      decision = decision;
      decided = decided;
      logs = logs_of logs.now;
    }))) }
    ensures commit { IfOk result (λ x. (id : List ℕ) → commit_value id x ≡ record {
      id = id;
      body = values.Logged (record {
        shard = shard;
        decision = decision;
        decided = decided;
        logs = logs_of logs.now;
      });
    }) }
{
    let logs = own_logs(alloc, logs)?;
    Ok(CertificateBody::Logged {
        shard,
        decision,
        decided,
        logs,
    })
}

/// An owned certificate of a kind that may commit.
fn own_commit(alloc: Global, certificate: &CertificateView<'_>) -> Result<Certificate, NoMemory>
    requires { is_commit (certificate_of certificate.now).body ≡ true }
    ensures { IfOk result (λ c. commit_value c.id c.body ≡ as_commit (certificate_of certificate.now)) }
{
    let id = certificate.id();
    match certificate.body() {
        CertBody::FastCommit { tallies } => {
            let tallies = own_tallies(alloc, &tallies)?;
            Ok(Certificate {
                id,
                body: CertificateBody::FastCommit { tallies },
            })
        }
        CertBody::Logged {
            shard,
            decision,
            decided,
            logs,
        } => {
            let body = own_logged(alloc, shard, decision, decided, &logs)?;
            Ok(Certificate { id, body })
        }
        CertBody::FastAbort { .. } | CertBody::ConflictAbort { .. } => unreachable!(),
    }
}

fn own_body(alloc: Global, body: &CertBody<'_>) -> Result<CertificateBody, NoMemory>
    requires { HoldsCommit body.now }
    ensures { IfOk result (λ x. body_value x ≡ body_of body.now) }
{
    match body {
        CertBody::FastCommit { tallies } => {
            let tallies = own_tallies(alloc, tallies)?;
            Ok(CertificateBody::FastCommit { tallies })
        }
        CertBody::Logged {
            shard,
            decision,
            decided,
            logs,
        } => own_logged(alloc, *shard, *decision, *decided, logs),
        CertBody::FastAbort { shard, votes } => {
            let votes = own_votes(alloc, votes)?;
            Ok(CertificateBody::FastAbort {
                shard: *shard,
                votes,
            })
        }
        CertBody::ConflictAbort {
            shard,
            replica,
            signature,
            other,
            proof,
        } => {
            let signature = Bytes::copy_of(alloc, *signature)?;
            let other = other.try_owned(alloc)?;
            let proof = own_commit(alloc, proof)?;
            Ok(CertificateBody::ConflictAbort {
                shard: *shard,
                replica: *replica,
                signature,
                other,
                proof: Box::new(alloc, proof)?,
            })
        }
    }
}

/// The certificate that a view shows, owned.
pub fn own_certificate(
    alloc: Global,
    certificate: &CertificateView<'_>,
) -> Result<Certificate, NoMemory>
    ensures { IfOk result (λ c. certificate_value c ≡ certificate_of certificate.now) }
{
    let id = certificate.id();
    let body = own_body(alloc, &certificate.body())?;
    Ok(Certificate { id, body })
}

/// An owned committed transaction, where it is there.
pub(super) fn own_committed(
    alloc: Global,
    part: &Option<CommittedView<'_>>,
) -> Result<Option<CommittedPart>, NoMemory>
    ensures { IfOk result (λ x. option_map committed_value x ≡ option_map committed_of part.now) }
{
    match part {
        Some(part) => {
            let transaction = part.transaction.try_owned(alloc)?;
            let certificate = own_certificate(alloc, &part.certificate)?;
            Ok(Some(CommittedPart {
                transaction,
                certificate,
            }))
        }
        None => Ok(None),
    }
}

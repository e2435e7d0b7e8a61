//! Certificates written: of borrowed parts, and of owned values.

ghost use Rattle.std.specs.Prelude.{◌≡◌, ◌++◌, ◌∷◌, [], ◌≤◌, length, map, OnOk, OnErr, true, List, ℕ, option_map};
ghost use Rattle.basil_types.specs.Shown.{transaction_of};
ghost use Rattle.basil_types.specs.Transaction.{canonical, long_text};
ghost use Rattle.frame_views.specs.Fitting.{widest, AreCounted, FitsTally, FitsTally, FitsTallies, FitsVotes};
ghost use Rattle.frame_views.specs.Fitting.{FitsLogged, FitsCommit, FitsCertificate, FitsPart, FitsCommitted};
ghost use Rattle.frame_views.specs.Fitting.{IsSignature, is_commit};
ghost use Rattle.frame_views.specs.Shown.{certificate_of};
ghost use Rattle.frame_views.specs.Spelling.{certificate_bytes, commit_bytes, committed_bytes, optional};
ghost use Rattle.frame_views.specs.Values as values;
ghost use Rattle.frame_views.specs.Values.{as_commit};
ghost use Rattle.frame_values.specs.Owned.{vote_value, tally_value, log_value, commit_value, certificate_value};
ghost use Rattle.frame_values.specs.Owned.{committed_value};
ghost use Rattle.frame_values.specs.Parts.{certificate_parts};
ghost use Rattle.frame_writing.specs.Draft.{Writes};

use super::draft::Draft;
use super::fields::{
    write_decision, write_number, write_owned_transaction, write_pair, write_signature,
};
use super::lists::{write_logs, write_tallies, write_votes};
use basil_types::memory::NoMemory;
use basil_types::party::Decision;
use basil_types::transaction::Transaction;
use frame_values::lending::{BodyParts, CertificateParts};
use frame_values::owned::{
    Certificate, CertificateBody, CommittedPart, LogPart, ShardVotes, VotePart,
};

/// The kind and the id of a certificate.
fn write_front(kind: u8, id: &[u8; 32], out: &mut Draft) -> Result<(), NoMemory>
    ensures kept { out.new.kept ≡ out.old.kept }
    ensures writes { OnOk result (Writes out.old out.new (kind ∷ id.now)) }
{
    out.push(kind)?;
    out.extend(id)?;
    Ok(())
}

fn write_fast_commit(id: &[u8; 32], tallies: &[ShardVotes], out: &mut Draft) -> Result<(), NoMemory>
    requires { FitsTallies widest (map tally_value tallies.now) }
    ensures kept { out.new.kept ≡ out.old.kept }
    ensures writes { OnOk result (Writes out.old out.new (commit_bytes (record {
      id = id.now;
      body = values.FastCommit (map tally_value tallies.now);
    }))) }
{
    write_front(1, id, out)?;
    write_tallies(tallies, out)?;
    Ok(())
}

fn write_logged(
    id: &[u8; 32],
    shard: u8,
    decision: Decision,
    decided: u64,
    logs: &[LogPart],
    out: &mut Draft,
) -> Result<(), NoMemory>
    requires { FitsLogged widest (record {
      shard = shard;
      decision = decision;
      decided = decided;
      logs = map log_value logs.now;
    }) }
    ensures kept { out.new.kept ≡ out.old.kept }
    ensures writes { OnOk result (Writes out.old out.new (commit_bytes (record {
      id = id.now;
      body = values.Logged (record {
        shard = shard;
        decision = decision;
        decided = decided;
        logs = map log_value logs.now;
      });
    }))) }
{
    write_front(2, id, out)?;
    out.push(shard)?;
    write_decision(decision, out)?;
    write_number(decided, out)?;
    write_logs(logs, out)?;
    Ok(())
}

fn write_fast_abort(
    id: &[u8; 32],
    shard: u8,
    votes: &[VotePart],
    out: &mut Draft,
) -> Result<(), NoMemory>
    requires { FitsVotes widest (map vote_value votes.now) }
    ensures kept { out.new.kept ≡ out.old.kept }
    ensures writes { OnOk result (Writes out.old out.new (certificate_bytes (record {
      id = id.now;
      body = values.FastAbort (record { shard = shard; votes = map vote_value votes.now });
    }))) }
{
    write_front(3, id, out)?;
    out.push(shard)?;
    write_votes(votes, out)?;
    Ok(())
}

/// A conflict abort up to its vote.
fn write_conflict(
    id: &[u8; 32],
    shard: u8,
    replica: u8,
    signature: &[u8],
    out: &mut Draft,
) -> Result<(), NoMemory>
    requires { IsSignature signature.now }
    ensures kept { out.new.kept ≡ out.old.kept }
    ensures writes { OnOk result (Writes out.old out.new (4 ∷ (id.now ++ shard ∷ replica ∷ long_text signature.now))) }
{
    write_front(4, id, out)?;
    out.push(shard)?;
    out.push(replica)?;
    write_signature(signature, out)?;
    Ok(())
}

/// An owned certificate of a kind that may commit.
fn write_commit(certificate: &Certificate, out: &mut Draft) -> Result<(), NoMemory>
    requires { FitsCommit widest (commit_value certificate.now.id certificate.now.body) }
    ensures kept { out.new.kept ≡ out.old.kept }
    ensures writes { OnOk result (out.new.written ≡ out.old.written
        ++ commit_bytes (commit_value certificate.now.id certificate.now.body)) }
{
    match &certificate.body {
        CertificateBody::FastCommit { tallies } => {
            write_fast_commit(&certificate.id, tallies.as_slice(), out)
        }
        CertificateBody::Logged {
            shard,
            decision,
            decided,
            logs,
        } => write_logged(
            &certificate.id,
            *shard,
            *decision,
            *decided,
            logs.as_slice(),
            out,
        ),
        CertificateBody::FastAbort { .. } | CertificateBody::ConflictAbort { .. } => unreachable!(),
    }
}

/// A transaction, and an owned certificate of a kind that may commit.
fn write_proof(
    transaction: &Transaction,
    certificate: &Certificate,
    out: &mut Draft,
) -> Result<(), NoMemory>
    requires { FitsCommit widest (commit_value certificate.now.id certificate.now.body) }
    ensures kept { out.new.kept ≡ out.old.kept }
    ensures writes { OnOk result (Writes out.old out.new ((canonical transaction.now
        ++ commit_bytes (commit_value certificate.now.id certificate.now.body)))) }
{
    write_owned_transaction(transaction, out)?;
    write_commit(certificate, out)?;
    Ok(())
}

/// An owned certificate.
pub(super) fn write_owned(certificate: &Certificate, out: &mut Draft) -> Result<(), NoMemory>
    requires { FitsCertificate widest (certificate_value certificate.now) }
    ensures kept { out.new.kept ≡ out.old.kept }
    ensures writes { OnOk result (Writes out.old out.new (certificate_bytes (certificate_value certificate.now))) }
{
    match &certificate.body {
        CertificateBody::FastCommit { tallies } => {
            write_fast_commit(&certificate.id, tallies.as_slice(), out)
        }
        CertificateBody::Logged {
            shard,
            decision,
            decided,
            logs,
        } => write_logged(
            &certificate.id,
            *shard,
            *decision,
            *decided,
            logs.as_slice(),
            out,
        ),
        CertificateBody::FastAbort { shard, votes } => {
            write_fast_abort(&certificate.id, *shard, votes.as_slice(), out)
        }
        CertificateBody::ConflictAbort {
            shard,
            replica,
            signature,
            other,
            proof,
        } => {
            write_conflict(&certificate.id, *shard, *replica, signature.as_slice(), out)?;
            write_proof(other, proof, out)?;
            Ok(())
        }
    }
}

/// A transaction, and an owned certificate.
fn write_owned_pair(
    transaction: &Transaction,
    certificate: &Certificate,
    out: &mut Draft,
) -> Result<(), NoMemory>
    requires { FitsCertificate widest (certificate_value certificate.now) }
    ensures kept { out.new.kept ≡ out.old.kept }
    ensures writes { OnOk result (Writes out.old out.new ((canonical transaction.now
        ++ certificate_bytes (certificate_value certificate.now)))) }
{
    write_owned_transaction(transaction, out)?;
    write_owned(certificate, out)?;
    Ok(())
}

/// An owned committed transaction behind a flag, which is 0 where there is none.
pub(super) fn write_owned_committed(
    part: &Option<CommittedPart>,
    out: &mut Draft,
) -> Result<(), NoMemory>
    requires { FitsPart true (FitsCommitted widest) (option_map committed_value part.now) }
    ensures kept { out.new.kept ≡ out.old.kept }
    ensures writes { OnOk result (out.new.written ≡ out.old.written
        ++ optional committed_bytes (option_map committed_value part.now)) }
{
    match part {
        Some(part) => {
            out.push(1)?;
            write_owned_pair(&part.transaction, &part.certificate, out)?;
            Ok(())
        }
        None => {
            out.push(0)?;
            Ok(())
        }
    }
}

/// The certificate of these parts.
fn write_parts(certificate: &CertificateParts<'_>, out: &mut Draft) -> Result<(), NoMemory>
    requires { FitsCertificate widest (certificate_parts certificate.now) }
    ensures kept { out.new.kept ≡ out.old.kept }
    ensures writes { OnOk result (Writes out.old out.new (certificate_bytes (certificate_parts certificate.now))) }
{
    match certificate.body {
        BodyParts::FastCommit { tallies } => write_fast_commit(&certificate.id, tallies, out),
        BodyParts::Logged {
            shard,
            decision,
            decided,
            logs,
        } => write_logged(&certificate.id, shard, decision, decided, logs, out),
        BodyParts::FastAbort { shard, votes } => {
            write_fast_abort(&certificate.id, shard, votes, out)
        }
        BodyParts::ConflictAbort {
            shard,
            replica,
            signature,
            other,
            proof,
        } => {
            write_conflict(&certificate.id, shard, replica, signature, out)?;
            write_pair(&other, &proof, out)?;
            Ok(())
        }
    }
}

/// Appends the bytes of the certificate of these parts, or finds memory wanting and leaves the bytes as they
/// were. The bytes spell a certificate, so they may be kept and viewed.
pub fn put_certificate(parts: &CertificateParts<'_>, out: &mut Vec<u8>) -> Result<(), NoMemory>
    requires { FitsCertificate widest (certificate_parts parts.now) }
    ensures appends { OnOk result (out.new.items ≡ out.old.items ++ certificate_bytes (certificate_parts parts.now)) }
    ensures as_before { OnErr result (out.new.items ≡ out.old.items) }
{
    let mut draft = Draft::behind(out);
    let written = write_parts(parts, &mut draft);
    draft.end(written, out)
}

/// Appends the bytes of an owned certificate, or finds memory wanting and leaves the bytes as they were. The
/// bytes spell the certificate, so they may be kept and viewed.
pub fn put_owned_certificate(owned: &Certificate, out: &mut Vec<u8>) -> Result<(), NoMemory>
    requires { FitsCertificate widest (certificate_value owned.now) }
    ensures appends { OnOk result (out.new.items ≡ out.old.items ++ certificate_bytes (certificate_value owned.now)) }
    ensures as_before { OnErr result (out.new.items ≡ out.old.items) }
{
    let mut draft = Draft::behind(out);
    let written = write_owned(owned, &mut draft);
    draft.end(written, out)
}

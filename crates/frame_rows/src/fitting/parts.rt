//! The parts of messages and of certificates, made of their fields.

use super::fields::{Fields, Signer};
use basil_codec::{
    Certificate, CertificateBody, CommittedPart, ElectPart, InvokePart, LogPart, ShardVotes,
    VotePart,
};
use basil_types::bytes::Bytes;
use basil_types::list::List;
use basil_types::transaction::Transaction;
use std::alloc::Global;
use std::test::Fail;

/// So many bytes.
pub(crate) fn some(alloc: Global, size: usize) -> Result<Bytes, Fail> {
    Ok(Bytes::from_vec(vec![in alloc; 7u8; size]?))
}

/// A transaction of time 10 and client 1 without reads and writes.
pub(crate) fn transaction(alloc: Global) -> Result<Transaction, Fail> {
    Ok(Transaction::build(alloc, 10, 1, &[], &[])?)
}

/// Votes of these replicas.
pub(crate) fn votes(alloc: Global, signers: &[Signer]) -> Result<List<VotePart>, Fail> {
    let mut votes = Vec::new(alloc);
    for &(replica, size) in signers {
        let signature = some(alloc, size)?;
        votes.push(VotePart { replica, signature })?;
    }
    Ok(List::from_vec(votes))
}

/// Tallies of the shards, each of votes of all the signers.
pub(crate) fn tallies(alloc: Global, fields: &Fields) -> Result<List<ShardVotes>, Fail> {
    let mut tallies = Vec::new(alloc);
    for &shard in fields.shards {
        let votes = votes(alloc, fields.signers)?;
        tallies.push(ShardVotes { shard, votes })?;
    }
    Ok(List::from_vec(tallies))
}

/// Log replies of a certificate.
pub(crate) fn logs(alloc: Global, fields: &Fields) -> Result<List<LogPart>, Fail> {
    let mut logs = Vec::new(alloc);
    for (place, &(replica, size)) in fields.signers.iter().enumerate() {
        let signature = some(alloc, size)?;
        logs.push(LogPart {
            replica,
            current: fields.current_at(place),
            signature,
        })?;
    }
    Ok(List::from_vec(logs))
}

/// Log replies of an invoke.
pub(crate) fn replies(alloc: Global, fields: &Fields) -> Result<List<InvokePart>, Fail> {
    let mut replies = Vec::new(alloc);
    for (place, &(replica, size)) in fields.signers.iter().enumerate() {
        let signature = some(alloc, size)?;
        replies.push(InvokePart {
            replica,
            decision: fields.decision,
            decided: fields.decided,
            current: fields.current_at(place),
            signature,
        })?;
    }
    Ok(List::from_vec(replies))
}

/// Election words of a decide.
pub(crate) fn words(alloc: Global, fields: &Fields) -> Result<List<ElectPart>, Fail> {
    let mut words = Vec::new(alloc);
    for &(replica, size) in fields.signers {
        let signature = some(alloc, size)?;
        words.push(ElectPart {
            replica,
            decision: fields.decision,
            signature,
        })?;
    }
    Ok(List::from_vec(words))
}

/// A certificate.
pub(crate) fn certificate_of(body: CertificateBody) -> Certificate {
    Certificate { id: [0; 32], body }
}

/// A fast commit without tallies.
pub(crate) fn empty_commit(alloc: Global) -> Certificate {
    certificate_of(CertificateBody::FastCommit {
        tallies: List::new(alloc),
    })
}

/// A committed transaction with a fast commit, where one is carried.
pub(crate) fn committed(alloc: Global, carried: bool) -> Result<Option<CommittedPart>, Fail> {
    if !carried {
        return Ok(None);
    }
    let transaction = transaction(alloc)?;
    let certificate = empty_commit(alloc);
    Ok(Some(CommittedPart {
        transaction,
        certificate,
    }))
}

/// A prepared transaction, where one is carried.
pub(crate) fn prepared(alloc: Global, carried: bool) -> Result<Option<Transaction>, Fail> {
    if !carried {
        return Ok(None);
    }
    Ok(Some(transaction(alloc)?))
}

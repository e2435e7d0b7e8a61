//! Frames that come to a client, by phrases, with plain signatures.
//!
//! `vote 0:35 D commit` are the votes of the replicas 3 and 5 of shard 0, one frame after the other, and `vote 0:3 D
//! abort by E fast 0:012345` is one to abort with the fast commit of E as its proof. `log 0:4 D commit 1 3` is a log
//! reply, decided in view 1, with view 3 current. `reply 0:12 a 40 3` answers a read of key a at time 40 by client 3:
//! nothing is there; behind it
//! `committed E fast 0:012345` and `prepared F` tell the transactions that it carries. Writebacks are
//! `writeback D fast 0:012345 1:012345`, `.. abort 0:0123`, `.. logged commit 1 0:01234`, which was decided in view 1,
//! and
//! `.. conflict 0:3 E fast 0:012345`, with the vote of replica 3 of shard 0 and the fast commit of E. `D/E` in the
//! place of D is the transaction D with a certificate of E's id. An x before a replica spoils its signature. `frame
//! 0301` are these bytes, and `zeros 9` are nine zeros.

use crate::casts::{
    Role, behind_token, byte_of, number_of, put_text, role_named, token_at, version_named,
};
use basil_types::bytes::id_of;
use basil_types::party::{Decision, Party};
use basil_types::version::Version;
use basil_types::words::Words;
use keyring::plain::PlainPen;
use keyring::signer::Signer;
use std::alloc::{AllocError, Global};
use std::test::Fail;

/// A replica that a token names, and whether its signature is spoiled.
#[derive(Clone, Copy)]
pub(crate) struct Sender {
    pub(crate) shard: u8,
    pub(crate) index: u8,
    spoiled: bool,
}

impl Sender {
    fn party(&self) -> Party {
        Party::Replica {
            shard: self.shard,
            index: self.index,
        }
    }
}

/// What stands before and behind the colon of a token.
fn halves(token: &str) -> (&str, &str) {
    token.split_once(':').unwrap_or((token, ""))
}

/// The replicas of a token like `0:01x2`: of shard 0 the replicas 0, 1 and 2, the last with a spoiled signature.
fn senders(alloc: Global, token: &str) -> Result<Vec<Sender>, AllocError> {
    let (shard, replicas) = halves(token);
    let shard = byte_of(shard);
    let mut senders = Vec::new(alloc);
    let mut spoiled = false;
    for byte in replicas.as_bytes() {
        if *byte == b'x' {
            spoiled = true;
        } else {
            let index = byte.saturating_sub(b'0');
            senders.push(Sender {
                shard,
                index,
                spoiled,
            })?;
            spoiled = false;
        }
    }
    Ok(senders)
}

pub(crate) fn decision_in(token: &str) -> Decision {
    if token == "abort" {
        Decision::Abort
    } else {
        Decision::Commit
    }
}

fn number_for(decision: Decision) -> u8 {
    match decision {
        Decision::Commit => 0,
        Decision::Abort => 1,
    }
}

/// The plain signature of a party.
pub(crate) fn plain_signature(party: Party, words: &Words) -> [u8; 32] {
    let mut pen = PlainPen::new(party);
    let mut signature = [0u8; 32];
    let _ = pen.sign_into(words.bytes(), &mut signature);
    signature
}

/// A replica's plain signature of words, behind its length.
fn put_signature(out: &mut Vec<u8>, sender: &Sender, words: &Words) -> Result<(), AllocError> {
    let mut signature = plain_signature(sender.party(), words);
    signature[31] ^= u8::from(sender.spoiled);
    out.extend_from_slice(&[0, 32])?;
    out.extend_from_slice(&signature)
}

fn put_count(out: &mut Vec<u8>, count: usize) -> Result<(), AllocError> {
    out.extend_from_slice(&[u8::try_from(count).unwrap_or(u8::MAX)])
}

// ---- certificates

/// Votes of these replicas behind their number.
fn put_voters(
    out: &mut Vec<u8>,
    id: &[u8; 32],
    decision: Decision,
    voters: &[Sender],
) -> Result<(), AllocError> {
    put_count(out, voters.len())?;
    for voter in voters {
        out.push(voter.index)?;
        let words = Words::vote(voter.shard, voter.index, id, decision);
        put_signature(out, voter, &words)?;
    }
    Ok(())
}

fn count_pairs(text: &str) -> usize {
    let mut count = 0usize;
    for token in text.split(' ') {
        if token.contains(':') {
            count = count.saturating_add(1);
        }
    }
    count
}

/// The shard of a token like `0:0123`, and votes of these replicas behind their number.
fn put_votes(
    alloc: Global,
    out: &mut Vec<u8>,
    id: &[u8; 32],
    decision: Decision,
    token: &str,
) -> Result<(), AllocError> {
    out.push(byte_of(halves(token).0))?;
    let voters = senders(alloc, token)?;
    put_voters(out, id, decision, &voters)
}

/// A fast commit, with the votes of each token.
fn put_fast(alloc: Global, out: &mut Vec<u8>, id: &[u8; 32], text: &str) -> Result<(), AllocError> {
    out.push(1)?;
    out.extend_from_slice(id)?;
    put_count(out, count_pairs(text))?;
    for token in text.split(' ') {
        if token.contains(':') {
            put_votes(alloc, out, id, Decision::Commit, token)?;
        }
    }
    Ok(())
}

/// These replicas behind their number, each with its log reply, in the view in which it was decided.
fn put_logs(
    out: &mut Vec<u8>,
    id: &[u8; 32],
    (decision, view): (Decision, u64),
    loggers: &[Sender],
) -> Result<(), AllocError> {
    put_count(out, loggers.len())?;
    for logger in loggers {
        out.push(logger.index)?;
        out.extend_from_slice(&view.to_be_bytes())?;
        let words = Words::log_reply(logger.shard, logger.index, id, decision, view, view);
        put_signature(out, logger, &words)?;
    }
    Ok(())
}

/// A logged certificate of a text like `logged commit 1 0:01234`.
fn put_logged(
    alloc: Global,
    out: &mut Vec<u8>,
    id: &[u8; 32],
    text: &str,
) -> Result<(), AllocError> {
    let decision = decision_in(token_at(text, 1));
    let view = number_of(token_at(text, 2));
    let token = token_at(text, 3);
    out.push(2)?;
    out.extend_from_slice(id)?;
    out.extend_from_slice(&[byte_of(halves(token).0), number_for(decision)])?;
    out.extend_from_slice(&view.to_be_bytes())?;
    let loggers = senders(alloc, token)?;
    put_logs(out, id, (decision, view), &loggers)
}

/// A certificate of a kind that may commit.
fn put_commit(
    alloc: Global,
    out: &mut Vec<u8>,
    id: &[u8; 32],
    text: &str,
) -> Result<(), AllocError> {
    if token_at(text, 0) == "logged" {
        put_logged(alloc, out, id, text)
    } else {
        put_fast(alloc, out, id, text)
    }
}

/// The transaction and the id that the first token of a pair names.
fn pair_in<'a>(cast: &'a [Role], pair: &str) -> Result<(&'a Role, [u8; 32]), Fail> {
    let token = token_at(pair, 0);
    let (transaction, named) = token.split_once('/').unwrap_or((token, token));
    let role = role_named(cast, transaction)?;
    let other = role_named(cast, named)?;
    Ok((role, id_of(&other.bytes)))
}

/// A transaction and its certificate, which is of a kind that may commit.
fn put_committed(alloc: Global, out: &mut Vec<u8>, cast: &[Role], pair: &str) -> Result<(), Fail> {
    let (role, id) = pair_in(cast, pair)?;
    out.extend_from_slice(&role.bytes)?;
    put_commit(alloc, out, &id, behind_token(pair))?;
    Ok(())
}

/// The first replica of a token, which names one.
fn first_sender(alloc: Global, token: &str) -> Result<Sender, Fail> {
    let named = senders(alloc, token)?;
    match named.first() {
        Some(sender) => Ok(*sender),
        None => Err(Fail::new("the token names no replica")),
    }
}

/// A conflict abort of a text like `conflict 0:3 E fast 0:012345`.
fn put_conflict(
    alloc: Global,
    out: &mut Vec<u8>,
    cast: &[Role],
    id: &[u8; 32],
    text: &str,
) -> Result<(), Fail> {
    let voter = first_sender(alloc, token_at(text, 1))?;
    out.push(4)?;
    out.extend_from_slice(id)?;
    out.extend_from_slice(&[voter.shard, voter.index])?;
    let words = Words::vote(voter.shard, voter.index, id, Decision::Abort);
    put_signature(out, &voter, &words)?;
    put_committed(alloc, out, cast, behind_token(behind_token(text)))
}

fn put_fast_abort(
    alloc: Global,
    out: &mut Vec<u8>,
    id: &[u8; 32],
    text: &str,
) -> Result<(), AllocError> {
    out.push(3)?;
    out.extend_from_slice(id)?;
    put_votes(alloc, out, id, Decision::Abort, token_at(text, 1))
}

// ---- frames

/// Nothing, or a flag and a committed transaction with its certificate.
fn put_proof(
    alloc: Global,
    out: &mut Vec<u8>,
    cast: &[Role],
    pair: Option<&str>,
) -> Result<(), Fail> {
    match pair {
        Some(pair) => {
            out.push(1)?;
            put_committed(alloc, out, cast, pair)?;
        }
        None => out.push(0)?,
    }
    Ok(())
}

/// What stands before and behind a token of a text.
fn parted<'a>(text: &'a str, token: &str) -> (&'a str, Option<&'a str>) {
    match text.split_once(token) {
        Some((head, rest)) => (head, Some(rest)),
        None => (text, None),
    }
}

/// `vote 0:3 D abort by E fast 0:012345`
fn put_vote(
    alloc: Global,
    out: &mut Vec<u8>,
    cast: &[Role],
    phrase: &str,
    sender: &Sender,
) -> Result<(), Fail> {
    let (head, proof) = parted(phrase, " by ");
    let id = id_of(&role_named(cast, token_at(head, 2))?.bytes);
    let decision = decision_in(token_at(head, 3));
    out.extend_from_slice(&[4, sender.shard, sender.index])?;
    out.extend_from_slice(&id)?;
    out.push(number_for(decision))?;
    put_proof(alloc, out, cast, proof)?;
    let words = Words::vote(sender.shard, sender.index, &id, decision);
    put_signature(out, sender, &words)?;
    Ok(())
}

/// `log 0:4 D commit 1 3`
fn put_log(out: &mut Vec<u8>, cast: &[Role], phrase: &str, sender: &Sender) -> Result<(), Fail> {
    let id = id_of(&role_named(cast, token_at(phrase, 2))?.bytes);
    let decision = decision_in(token_at(phrase, 3));
    let (decided, current) = (
        number_of(token_at(phrase, 4)),
        number_of(token_at(phrase, 5)),
    );
    out.extend_from_slice(&[6, sender.shard, sender.index])?;
    out.extend_from_slice(&id)?;
    out.push(number_for(decision))?;
    out.extend_from_slice(&decided.to_be_bytes())?;
    out.extend_from_slice(&current.to_be_bytes())?;
    let words = Words::log_reply(sender.shard, sender.index, &id, decision, decided, current);
    put_signature(out, sender, &words)?;
    Ok(())
}

/// Nothing, or a flag and a transaction.
fn put_prepared(out: &mut Vec<u8>, cast: &[Role], name: Option<&str>) -> Result<(), Fail> {
    match name {
        Some(name) => {
            out.push(1)?;
            out.extend_from_slice(&role_named(cast, name)?.bytes)?;
        }
        None => out.push(0)?,
    }
    Ok(())
}

/// The words of a read reply: its head is `reply 0:1 a 40 3`.
fn reply_words(
    head: &str,
    sender: &Sender,
    committed: Version,
    prepared: Version,
) -> Result<Words, Fail> {
    let key = token_at(head, 2).as_bytes();
    let (time, client) = (number_of(token_at(head, 3)), byte_of(token_at(head, 4)));
    if key.is_empty() || key.len() > 64 {
        return Err(Fail::new("a key is out of size"));
    }
    Ok(Words::read_reply(
        sender.shard,
        sender.index,
        key,
        time,
        client,
        committed,
        prepared,
    ))
}

/// The version of the transaction that a pair carries.
fn version_in(cast: &[Role], pair: Option<&str>) -> Result<Version, Fail> {
    match pair {
        Some(pair) => {
            let token = token_at(pair, 0);
            let (name, _) = token.split_once('/').unwrap_or((token, token));
            version_named(cast, name)
        }
        None => Ok(Version::genesis()),
    }
}

/// `reply 0:1 a 40 3 committed E fast 0:012345 prepared F`
fn put_reply(
    alloc: Global,
    out: &mut Vec<u8>,
    cast: &[Role],
    phrase: &str,
    sender: &Sender,
) -> Result<(), Fail> {
    let (rest, prepared) = parted(phrase, " prepared ");
    let (head, committed) = parted(rest, " committed ");
    out.extend_from_slice(&[2, sender.shard, sender.index])?;
    put_text(out, token_at(head, 2))?;
    out.extend_from_slice(&number_of(token_at(head, 3)).to_be_bytes())?;
    out.push(byte_of(token_at(head, 4)))?;
    put_proof(alloc, out, cast, committed)?;
    put_prepared(out, cast, prepared)?;
    let first = version_in(cast, committed)?;
    let words = reply_words(head, sender, first, version_in(cast, prepared)?)?;
    put_signature(out, sender, &words)?;
    Ok(())
}

/// `writeback D abort 0:0123`
fn put_writeback(
    alloc: Global,
    out: &mut Vec<u8>,
    cast: &[Role],
    phrase: &str,
) -> Result<(), Fail> {
    let pair = behind_token(phrase);
    let (role, id) = pair_in(cast, pair)?;
    let text = behind_token(pair);
    out.push(7)?;
    out.extend_from_slice(&role.bytes)?;
    match token_at(text, 0).as_bytes() {
        b"abort" => put_fast_abort(alloc, out, &id, text)?,
        b"conflict" => put_conflict(alloc, out, cast, &id, text)?,
        _ => put_commit(alloc, out, &id, text)?,
    }
    Ok(())
}

fn put_zeros(out: &mut Vec<u8>, count: u64) -> Result<(), AllocError> {
    for _ in 0..count {
        out.extend_from_slice(&[0])?;
    }
    Ok(())
}

/// The token that names who sends the frames of a phrase; of a writeback or of bytes, whose one frame names no sender,
/// anybody.
fn sending(phrase: &str) -> &str {
    match token_at(phrase, 0).as_bytes() {
        b"vote" | b"log" | b"reply" => token_at(phrase, 1),
        _ => "0:0",
    }
}

/// Who sends the frames of a phrase.
pub(crate) fn senders_of(alloc: Global, phrase: &str) -> Result<Vec<Sender>, AllocError> {
    senders(alloc, sending(phrase))
}

/// Who sends the first of them.
pub(crate) fn sender_of(alloc: Global, phrase: &str) -> Result<Sender, Fail> {
    first_sender(alloc, sending(phrase))
}

/// The frame of a phrase that this replica sends.
pub(crate) fn put_frame(
    alloc: Global,
    out: &mut Vec<u8>,
    cast: &[Role],
    phrase: &str,
    sender: &Sender,
) -> Result<(), Fail> {
    match token_at(phrase, 0).as_bytes() {
        b"vote" => put_vote(alloc, out, cast, phrase, sender),
        b"log" => put_log(out, cast, phrase, sender),
        b"reply" => put_reply(alloc, out, cast, phrase, sender),
        b"writeback" => put_writeback(alloc, out, cast, phrase),
        b"zeros" => Ok(put_zeros(out, number_of(token_at(phrase, 1)))?),
        b"frame" => {
            let bytes = hex::decode(alloc, token_at(phrase, 1))?;
            out.extend_from_slice(&bytes)?;
            Ok(())
        }
        _ => Err(Fail::new("no frame has this name")),
    }
}

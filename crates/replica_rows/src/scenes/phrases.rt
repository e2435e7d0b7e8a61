//! Frames by phrases, with plain signatures.
//!
//! A phrase begins with the sender, `c3` for client 3 and `r3` for replica 3 of the replica's own shard, and a frame's
//! name. `c3 read a 40 3` is a read of key a at time 40 by client 3; `c3 st1 D` and `c3 recover D` carry the
//! transaction D. `c3 st2 D commit 0:0123 1:1234` carries the votes of four replicas of each of two shards. Writebacks
//! are `c3 writeback D fast 0:012345`, `.. abort 0:0123`, `.. logged commit 1 0:01234`, which was decided in view 1,
//! and `.. conflict 0:3 E fast 0:012345`, with the vote of replica 3 of shard 0 and the fast commit of E.
//! `c3 invoke D 0:1 1:2a` carries a log reply of replica 0 to commit with view 1 current, and one of replica 1 to abort
//! with view 2 current. `r2 elect D abort 1` is replica 2's word for view 1, and `r5 decide D commit 1 0c 1c 3a`
//! replica 5's proposal in view 1 with the words of three replicas. A token `x` behind the rest spoils the frame's own
//! signature, an x inside of a token that which the token names; `@1` says shard 1 in the place of the replica's own.

use crate::scenes::casts::{Role, byte_of, initial, number_of, put_text, role_named, token_at};
use basil_types::bytes::id_of;
use basil_types::party::{Decision, Party};
use basil_types::words::Words;
use keyring::plain::PlainPen;
use keyring::signer::Signer;
use std::alloc::AllocError;
use std::test::Fail;

/// More tokens than a phrase has.
const TOKENS: usize = 20;

/// A phrase, the transactions that it may name, and the replica's shard.
#[derive(Clone, Copy)]
pub(crate) struct Line<'a> {
    pub(crate) phrase: &'a str,
    pub(crate) cast: &'a [Role],
    pub(crate) shard: u8,
}

impl<'a> Line<'a> {
    fn token(&self, place: usize) -> &'a str {
        token_at(self.phrase, place)
    }

    /// The transaction that the token at a place names.
    fn role(&self, place: usize) -> Result<&'a Role, Fail> {
        role_named(self.cast, self.token(place))
    }

    fn decision(&self, place: usize) -> Decision {
        decision_in(self.token(place))
    }

    /// Who sends it.
    pub(crate) fn sender(&self) -> Party {
        let token = self.token(0);
        if initial(token) == b'c' {
            Party::Client {
                number: byte_of(token),
            }
        } else {
            Party::Replica {
                shard: self.shard,
                index: byte_of(token),
            }
        }
    }

    /// Whether the frame's own signature is spoiled.
    fn is_spoiled(&self) -> bool {
        for token in self.phrase.split(' ') {
            if token == "x" {
                return true;
            }
        }
        false
    }

    /// The shard that the frame names.
    fn named_shard(&self) -> u8 {
        for token in self.phrase.split(' ') {
            if initial(token) == b'@' {
                return byte_of(token);
            }
        }
        self.shard
    }
}

/// Abort where the token has an a, and else commit.
fn decision_in(token: &str) -> Decision {
    if token.contains('a') {
        Decision::Abort
    } else {
        Decision::Commit
    }
}

fn number_for(decision: Decision) -> u8 {
    match decision {
        Decision::Commit => 0,
        Decision::Abort => 1,
    }
}

/// What stands before and behind the colon of a token.
fn halves(token: &str) -> (&str, &str) {
    token.split_once(':').unwrap_or((token, ""))
}

/// A plain signature of words, behind its length.
fn put_signature(
    out: &mut Vec<u8>,
    party: Party,
    words: &Words,
    spoiled: bool,
) -> Result<(), AllocError> {
    let mut pen = PlainPen::new(party);
    let mut signature = [0u8; 32];
    let _ = pen.sign_into(words.bytes(), &mut signature);
    signature[31] ^= u8::from(spoiled);
    out.extend_from_slice(&[0, 32])?;
    out.extend_from_slice(&signature)
}

/// A transaction with its client's signature.
fn put_signed(out: &mut Vec<u8>, role: &Role, spoiled: bool) -> Result<(), AllocError> {
    out.extend_from_slice(&role.bytes)?;
    let words = Words::transaction(&id_of(&role.bytes));
    let client = Party::Client {
        number: role.client,
    };
    put_signature(out, client, &words, spoiled)
}

/// A frame of this kind that carries the transaction of a phrase, signed.
fn put_first(out: &mut Vec<u8>, line: &Line<'_>, role: &Role, kind: u8) -> Result<(), AllocError> {
    out.push(kind)?;
    put_signed(out, role, line.is_spoiled())
}

fn count_digits(text: &str) -> u8 {
    let mut count = 0u8;
    for byte in text.as_bytes() {
        if byte.is_ascii_digit() {
            count = count.saturating_add(1);
        }
    }
    count
}

/// The shard of a token like `0:0123`, and votes of these replicas behind their number. An x spoils that of the next.
fn put_votes(
    out: &mut Vec<u8>,
    id: &[u8; 32],
    decision: Decision,
    token: &str,
) -> Result<(), AllocError> {
    let (shard, replicas) = halves(token);
    let shard = byte_of(shard);
    out.extend_from_slice(&[shard, count_digits(replicas)])?;
    let mut spoiled = false;
    for byte in replicas.as_bytes() {
        if *byte == b'x' {
            spoiled = true;
        } else {
            let index = byte.saturating_sub(b'0');
            out.push(index)?;
            let words = Words::vote(shard, index, id, decision);
            put_signature(out, Party::Replica { shard, index }, &words, spoiled)?;
            spoiled = false;
        }
    }
    Ok(())
}

/// How many tokens from a place on have a colon.
fn count_pairs(line: &Line<'_>, from: usize) -> u8 {
    let mut count = 0u8;
    for place in from..TOKENS {
        if line.token(place).contains(':') {
            count = count.saturating_add(1);
        }
    }
    count
}

/// The tallies of the tokens from a place on.
fn put_tallies(
    out: &mut Vec<u8>,
    line: &Line<'_>,
    id: &[u8; 32],
    decision: Decision,
    from: usize,
) -> Result<(), AllocError> {
    out.push(count_pairs(line, from))?;
    for place in from..TOKENS {
        let token = line.token(place);
        if token.contains(':') {
            put_votes(out, id, decision, token)?;
        }
    }
    Ok(())
}

fn put_read(out: &mut Vec<u8>, line: &Line<'_>) -> Result<(), AllocError> {
    out.push(1)?;
    put_text(out, line.token(2))?;
    out.extend_from_slice(&number_of(line.token(3)).to_be_bytes())?;
    out.push(byte_of(line.token(4)))?;
    Ok(())
}

fn put_second(out: &mut Vec<u8>, line: &Line<'_>, role: &Role) -> Result<(), AllocError> {
    put_first(out, line, role, 5)?;
    let decision = line.decision(3);
    out.push(number_for(decision))?;
    put_tallies(out, line, &id_of(&role.bytes), decision, 4)
}

/// A fast commit with the tallies of the tokens from a place on.
fn put_fast(
    out: &mut Vec<u8>,
    line: &Line<'_>,
    id: &[u8; 32],
    from: usize,
) -> Result<(), AllocError> {
    out.push(1)?;
    out.extend_from_slice(id)?;
    put_tallies(out, line, id, Decision::Commit, from)
}

/// The replicas of a token, each with its log reply, in the view in which it was decided.
fn put_logs(
    out: &mut Vec<u8>,
    id: &[u8; 32],
    decision: Decision,
    view: u64,
    token: &str,
) -> Result<(), AllocError> {
    let (shard, replicas) = halves(token);
    let shard = byte_of(shard);
    out.push(count_digits(replicas))?;
    for byte in replicas.as_bytes() {
        let index = byte.saturating_sub(b'0');
        out.push(index)?;
        out.extend_from_slice(&view.to_be_bytes())?;
        let words = Words::log_reply(shard, index, id, decision, view, view);
        put_signature(out, Party::Replica { shard, index }, &words, false)?;
    }
    Ok(())
}

fn put_logged(out: &mut Vec<u8>, line: &Line<'_>, id: &[u8; 32]) -> Result<(), AllocError> {
    let decision = line.decision(4);
    let view = number_of(line.token(5));
    let token = line.token(6);
    out.push(2)?;
    out.extend_from_slice(id)?;
    out.extend_from_slice(&[byte_of(halves(token).0), number_for(decision)])?;
    out.extend_from_slice(&view.to_be_bytes())?;
    put_logs(out, id, decision, view, token)
}

fn put_fast_abort(out: &mut Vec<u8>, line: &Line<'_>, id: &[u8; 32]) -> Result<(), AllocError> {
    out.push(3)?;
    out.extend_from_slice(id)?;
    put_votes(out, id, Decision::Abort, line.token(4))
}

fn put_conflict(
    out: &mut Vec<u8>,
    line: &Line<'_>,
    id: &[u8; 32],
    rival: &Role,
) -> Result<(), AllocError> {
    let (shard, index) = halves(line.token(4));
    let shard = byte_of(shard);
    let index = byte_of(index);
    out.push(4)?;
    out.extend_from_slice(id)?;
    out.extend_from_slice(&[shard, index])?;
    let words = Words::vote(shard, index, id, Decision::Abort);
    put_signature(out, Party::Replica { shard, index }, &words, false)?;
    out.extend_from_slice(&rival.bytes)?;
    put_fast(out, line, &id_of(&rival.bytes), 6)
}

fn put_certificate(out: &mut Vec<u8>, line: &Line<'_>, id: &[u8; 32]) -> Result<(), Fail> {
    match line.token(3).as_bytes() {
        b"fast" => Ok(put_fast(out, line, id, 4)?),
        b"logged" => Ok(put_logged(out, line, id)?),
        b"abort" => Ok(put_fast_abort(out, line, id)?),
        b"conflict" => Ok(put_conflict(out, line, id, line.role(5)?)?),
        _ => Err(Fail::new("no certificate has this name")),
    }
}

fn put_written(out: &mut Vec<u8>, role: &Role) -> Result<(), AllocError> {
    out.push(7)?;
    out.extend_from_slice(&role.bytes)
}

fn put_writeback(out: &mut Vec<u8>, line: &Line<'_>, role: &Role) -> Result<(), Fail> {
    put_written(out, role)?;
    put_certificate(out, line, &id_of(&role.bytes))
}

/// The log reply that a token like `0:1a` tells, which was decided in view 0.
fn put_report(out: &mut Vec<u8>, id: &[u8; 32], shard: u8, token: &str) -> Result<(), AllocError> {
    let (replica, view) = halves(token);
    let index = byte_of(replica);
    let current = number_of(view);
    let decision = decision_in(view);
    out.extend_from_slice(&[index, number_for(decision)])?;
    out.extend_from_slice(&[0u8; 8])?;
    out.extend_from_slice(&current.to_be_bytes())?;
    let words = Words::log_reply(shard, index, id, decision, 0, current);
    put_signature(
        out,
        Party::Replica { shard, index },
        &words,
        view.contains('x'),
    )
}

fn put_reports(out: &mut Vec<u8>, line: &Line<'_>, id: &[u8; 32]) -> Result<(), AllocError> {
    let shard = line.named_shard();
    out.extend_from_slice(&[shard, count_pairs(line, 3)])?;
    for place in 3..TOKENS {
        let token = line.token(place);
        if token.contains(':') {
            put_report(out, id, shard, token)?;
        }
    }
    Ok(())
}

fn put_invoke(out: &mut Vec<u8>, line: &Line<'_>, id: &[u8; 32]) -> Result<(), AllocError> {
    out.push(9)?;
    out.extend_from_slice(id)?;
    put_reports(out, line, id)
}

/// The kind, and the shard, the replica that sends, a decision and a view, behind the transaction.
fn put_view(out: &mut Vec<u8>, line: &Line<'_>, role: &Role, kind: u8) -> Result<(), AllocError> {
    out.push(kind)?;
    out.extend_from_slice(&role.bytes)?;
    out.extend_from_slice(&[line.named_shard(), byte_of(line.token(0))])?;
    out.push(number_for(line.decision(3)))?;
    out.extend_from_slice(&number_of(line.token(4)).to_be_bytes())
}

fn put_elect(out: &mut Vec<u8>, line: &Line<'_>, role: &Role) -> Result<(), AllocError> {
    put_view(out, line, role, 10)?;
    let id = id_of(&role.bytes);
    let (shard, index) = (line.named_shard(), byte_of(line.token(0)));
    let words = Words::election(
        shard,
        index,
        &id,
        line.decision(3),
        number_of(line.token(4)),
    );
    put_signature(
        out,
        Party::Replica { shard, index },
        &words,
        line.is_spoiled(),
    )
}

/// The election word that a token like `3a` tells.
fn put_word(
    out: &mut Vec<u8>,
    id: &[u8; 32],
    shard: u8,
    view: u64,
    token: &str,
) -> Result<(), AllocError> {
    let index = byte_of(token);
    let decision = decision_in(token);
    out.extend_from_slice(&[index, number_for(decision)])?;
    let words = Words::election(shard, index, id, decision, view);
    put_signature(
        out,
        Party::Replica { shard, index },
        &words,
        token.contains('x'),
    )
}

fn count_words(line: &Line<'_>) -> u8 {
    let mut count = 0u8;
    for place in 5..TOKENS {
        if initial(line.token(place)).is_ascii_digit() {
            count = count.saturating_add(1);
        }
    }
    count
}

fn put_words(out: &mut Vec<u8>, line: &Line<'_>, id: &[u8; 32]) -> Result<(), AllocError> {
    out.push(count_words(line))?;
    for place in 5..TOKENS {
        let token = line.token(place);
        if initial(token).is_ascii_digit() {
            put_word(out, id, line.named_shard(), number_of(line.token(4)), token)?;
        }
    }
    Ok(())
}

fn put_decide(out: &mut Vec<u8>, line: &Line<'_>, role: &Role) -> Result<(), AllocError> {
    put_view(out, line, role, 11)?;
    let id = id_of(&role.bytes);
    put_words(out, line, &id)?;
    let (shard, index) = (line.named_shard(), byte_of(line.token(0)));
    let words = Words::proposal(
        shard,
        index,
        &id,
        line.decision(3),
        number_of(line.token(4)),
    );
    put_signature(
        out,
        Party::Replica { shard, index },
        &words,
        line.is_spoiled(),
    )
}

/// `r1 vote A commit`: a vote of replica 1 that nobody signed.
fn put_vote(out: &mut Vec<u8>, line: &Line<'_>, id: &[u8; 32]) -> Result<(), AllocError> {
    out.extend_from_slice(&[4, line.shard, byte_of(line.token(0))])?;
    out.extend_from_slice(id)?;
    out.extend_from_slice(&[number_for(line.decision(3)), 0, 0, 1, 7])
}

/// `r1 log A commit 0 0`: a log reply of replica 1 that nobody signed.
fn put_log(out: &mut Vec<u8>, line: &Line<'_>, id: &[u8; 32]) -> Result<(), AllocError> {
    out.extend_from_slice(&[6, line.shard, byte_of(line.token(0))])?;
    out.extend_from_slice(id)?;
    out.push(number_for(line.decision(3)))?;
    out.extend_from_slice(&number_of(line.token(4)).to_be_bytes())?;
    out.extend_from_slice(&number_of(line.token(5)).to_be_bytes())?;
    out.extend_from_slice(&[0, 1, 7])
}

/// `r1 reply a 40 3`: a read reply of replica 1 with nothing found, that nobody signed.
fn put_reply(out: &mut Vec<u8>, line: &Line<'_>) -> Result<(), AllocError> {
    out.extend_from_slice(&[2, line.shard, byte_of(line.token(0))])?;
    put_text(out, line.token(2))?;
    out.extend_from_slice(&number_of(line.token(3)).to_be_bytes())?;
    out.extend_from_slice(&[byte_of(line.token(4)), 0, 0, 0, 1, 7])
}

/// `c1 bytes 12 0`: these bytes.
fn put_bytes(out: &mut Vec<u8>, line: &Line<'_>) -> Result<(), AllocError> {
    for place in 2..TOKENS {
        let token = line.token(place);
        if !token.is_empty() {
            out.push(byte_of(token))?;
        }
    }
    Ok(())
}

/// The frame of a phrase whose third token names a transaction.
fn put_frame_of(out: &mut Vec<u8>, line: &Line<'_>, role: &Role) -> Result<(), Fail> {
    let id = id_of(&role.bytes);
    match line.token(1).as_bytes() {
        b"st1" => Ok(put_first(out, line, role, 3)?),
        b"recover" => Ok(put_first(out, line, role, 8)?),
        b"st2" => Ok(put_second(out, line, role)?),
        b"writeback" => put_writeback(out, line, role),
        b"invoke" => Ok(put_invoke(out, line, &id)?),
        b"elect" => Ok(put_elect(out, line, role)?),
        b"decide" => Ok(put_decide(out, line, role)?),
        b"vote" => Ok(put_vote(out, line, &id)?),
        b"log" => Ok(put_log(out, line, &id)?),
        _ => Err(Fail::new("no frame has this name")),
    }
}

/// The frame of a phrase.
pub(crate) fn put_frame(out: &mut Vec<u8>, line: &Line<'_>) -> Result<(), Fail> {
    match line.token(1).as_bytes() {
        b"read" => Ok(put_read(out, line)?),
        b"reply" => Ok(put_reply(out, line)?),
        b"bytes" => Ok(put_bytes(out, line)?),
        _ => put_frame_of(out, line, line.role(2)?),
    }
}

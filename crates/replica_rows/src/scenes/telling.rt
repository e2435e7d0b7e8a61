//! What a replica sent, as a text that is spelled as phrases are.
//!
//! `vote D abort by E fast 0:012345 #3 to c3 c4` is a vote to abort with the fast commit of E as its proof, which leaf
//! 3 of the replica's key signed, in one frame to each of two clients. `log D commit 0 1` was decided in view 0, with
//! view 1 current.

ghost use Rattle.frame_views.specs.Fitting.{IsSpoken};
ghost use Rattle.frame_views.specs.Shown.{message_of};

use crate::scenes::casts::{Role, name_with};
use basil_types::bytes::id_of;
use basil_types::cluster::Cluster;
use basil_types::outbox::Envelope;
use basil_types::party::{Decision, Party};
use basil_types::transaction::TransactionView;
use frame_views::certificates::{CertBody, CertificateView};
use frame_views::frames::{
    CommittedView, DecideView, ElectView, LogReplyView, MessageView, ReadReplyView, VoteView,
    WritebackView, check,
};
use frame_views::items::{LogsView, TalliesView, VotesView};
use frame_views::signed::signatures;
use keyring::plain::PlainKeys;
use keyring::verifier::Verifier;
use keyring_lms::LmsKeys;
use std::alloc::AllocError;

/// What the frames of a scene are read by: its cluster and transactions, and the key of the replica.
#[derive(Clone, Copy)]
pub(crate) struct Reader<'a> {
    pub(crate) cluster: &'a Cluster,
    pub(crate) cast: &'a [Role],
    pub(crate) key: &'a LmsKeys,
}

impl<'a> Reader<'a> {
    fn name(&self, t: TransactionView<'_>) -> &'static str {
        name_with(self.cast, &id_of(t.bytes()))
    }
}

pub(crate) fn name_of(decision: Decision) -> &'static str {
    match decision {
        Decision::Commit => "commit",
        Decision::Abort => "abort",
    }
}

fn letter_of(decision: Decision) -> &'static str {
    match decision {
        Decision::Commit => "c",
        Decision::Abort => "a",
    }
}

fn tell_votes(text: &mut String, shard: u8, votes: &VotesView<'_>) -> Result<(), AllocError> {
    write!(text, " {shard}:")?;
    for vote in votes.iter() {
        write!(text, "{}", vote.replica)?;
    }
    Ok(())
}

fn tell_tallies(text: &mut String, tallies: &TalliesView<'_>) -> Result<(), AllocError> {
    text.push_str(" fast")?;
    for tally in tallies.iter() {
        tell_votes(text, tally.shard, &tally.votes)?;
    }
    Ok(())
}

fn tell_logs(text: &mut String, shard: u8, logs: &LogsView<'_>) -> Result<(), AllocError> {
    write!(text, " {shard}:")?;
    for log in logs.iter() {
        write!(text, "{}", log.replica)?;
    }
    Ok(())
}

/// A certificate of a kind that may commit.
fn tell_commit(text: &mut String, certificate: &CertificateView<'_>) -> Result<(), AllocError> {
    match certificate.body() {
        CertBody::FastCommit { tallies } => tell_tallies(text, &tallies),
        CertBody::Logged {
            shard,
            decision,
            decided,
            logs,
        } => {
            write!(text, " logged {} {decided}", name_of(decision))?;
            tell_logs(text, shard, &logs)
        }
        CertBody::FastAbort { .. } | CertBody::ConflictAbort { .. } => text.push_str(" abort"),
    }
}

fn tell_certificate(
    text: &mut String,
    reader: &Reader<'_>,
    certificate: &CertificateView<'_>,
) -> Result<(), AllocError> {
    match certificate.body() {
        CertBody::FastAbort { shard, votes } => {
            text.push_str(" abort")?;
            tell_votes(text, shard, &votes)
        }
        CertBody::ConflictAbort {
            shard,
            replica,
            other,
            proof,
            ..
        } => {
            write!(text, " conflict {shard}:{replica} {}", reader.name(other))?;
            tell_commit(text, &proof)
        }
        CertBody::FastCommit { .. } | CertBody::Logged { .. } => tell_commit(text, certificate),
    }
}

/// A transaction with its certificate.
fn tell_committed(
    text: &mut String,
    reader: &Reader<'_>,
    part: &CommittedView<'_>,
) -> Result<(), AllocError> {
    text.push_str(reader.name(part.transaction))?;
    tell_commit(text, &part.certificate)
}

fn tell_reply(
    text: &mut String,
    reader: &Reader<'_>,
    m: &ReadReplyView<'_>,
) -> Result<(), AllocError> {
    let key = str::from_utf8(m.key).unwrap_or("no text");
    write!(text, "read {key} {} {} committed ", m.time, m.client)?;
    match &m.committed {
        Some(part) => tell_committed(text, reader, part)?,
        None => text.push_str("-")?,
    }
    text.push_str(" prepared ")?;
    match m.prepared {
        Some(t) => text.push_str(reader.name(t)),
        None => text.push_str("-"),
    }
}

fn tell_vote(text: &mut String, reader: &Reader<'_>, m: &VoteView<'_>) -> Result<(), AllocError> {
    let name = name_with(reader.cast, &m.id);
    write!(text, "vote {name} {}", name_of(m.decision))?;
    match &m.proof {
        Some(part) => {
            text.push_str(" by ")?;
            tell_committed(text, reader, part)
        }
        None => Ok(()),
    }
}

fn tell_log(
    text: &mut String,
    reader: &Reader<'_>,
    m: &LogReplyView<'_>,
) -> Result<(), AllocError> {
    let name = name_with(reader.cast, &m.id);
    let decision = name_of(m.decision);
    write!(text, "log {name} {decision} {} {}", m.decided, m.current)
}

fn tell_writeback(
    text: &mut String,
    reader: &Reader<'_>,
    m: &WritebackView<'_>,
) -> Result<(), AllocError> {
    write!(text, "writeback {}", reader.name(m.transaction))?;
    tell_certificate(text, reader, &m.certificate)
}

fn tell_elect(text: &mut String, reader: &Reader<'_>, m: &ElectView<'_>) -> Result<(), AllocError> {
    let name = reader.name(m.transaction);
    write!(text, "elect {name} {} {}", name_of(m.decision), m.view)
}

fn tell_decide(
    text: &mut String,
    reader: &Reader<'_>,
    m: &DecideView<'_>,
) -> Result<(), AllocError> {
    let name = reader.name(m.transaction);
    write!(text, "decide {name} {} {}", name_of(m.decision), m.view)?;
    for word in m.words.iter() {
        write!(text, " {}{}", word.replica, letter_of(word.decision))?;
    }
    Ok(())
}

fn tell_message(
    text: &mut String,
    reader: &Reader<'_>,
    m: &MessageView<'_>,
) -> Result<(), AllocError> {
    match m {
        MessageView::ReadReply(m) => tell_reply(text, reader, m),
        MessageView::Vote(m) => tell_vote(text, reader, m),
        MessageView::LogReply(m) => tell_log(text, reader, m),
        MessageView::Writeback(m) => tell_writeback(text, reader, m),
        MessageView::Elect(m) => tell_elect(text, reader, m),
        MessageView::Decide(m) => tell_decide(text, reader, m),
        MessageView::Read(_)
        | MessageView::St1(_)
        | MessageView::St2(_)
        | MessageView::Recover(_)
        | MessageView::Invoke(_) => text.push_str("a kind that no replica sends"),
    }
}

/// The leaf that made an LMS signature.
pub(crate) fn leaf_of(signature: &[u8]) -> u8 {
    signature.get(3).copied().unwrap_or(0)
}

/// The leaf of each signature that is the replica's, and each signature that nobody accepts.
fn tell_signatures(
    text: &mut String,
    reader: &Reader<'_>,
    m: &MessageView<'_>,
) -> Result<(), AllocError>
    requires { IsSpoken (message_of m.now) }
{
    let plain = PlainKeys::new(reader.cluster);
    for item in signatures(m) {
        let words = item.words.bytes();
        if reader.key.accepts(item.party, words, item.signature) {
            write!(text, " #{}", leaf_of(item.signature))?;
        } else if !plain.accepts(item.party, words, item.signature) {
            text.push_str(" unsigned")?;
        }
    }
    Ok(())
}

fn tell_frame(text: &mut String, reader: &Reader<'_>, frame: &[u8]) -> Result<(), AllocError> {
    match check(frame, reader.cluster) {
        Ok(m) => {
            tell_message(text, reader, &m)?;
            tell_signatures(text, reader, &m)
        }
        Err(_) => text.push_str("no frame"),
    }
}

fn tell_party(text: &mut String, party: Party) -> Result<(), AllocError> {
    match party {
        Party::Client { number } => write!(text, " c{number}"),
        Party::Replica { index, .. } => write!(text, " r{index}"),
    }
}

/// The messages from a place of an outbox on. A frame that goes to one party after the other is told once.
pub(crate) fn tell(
    text: &mut String,
    reader: &Reader<'_>,
    messages: &[Envelope],
    from: usize,
) -> Result<(), AllocError> {
    let mut last: &[u8] = &[];
    for envelope in messages.iter().skip(from) {
        let frame = envelope.frame.as_slice();
        if frame != last {
            if !text.is_empty() {
                text.push_str("; ")?;
            }
            tell_frame(text, reader, frame)?;
            text.push_str(" to")?;
        }
        tell_party(text, envelope.to)?;
        last = frame;
    }
    Ok(())
}

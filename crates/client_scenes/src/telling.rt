//! What a client sent, as a text that is spelled as phrases are.
//!
//! `st1 D #3 to 0:012345 1:012345` is a first stage that leaf 3 of the client's key signed, in a frame to each of
//! twelve replicas.
//! `st2 D commit 0:0123` has the votes of four replicas. `invoke D 0 1c0/2 4a1/1` says of shard 0 that replica 1 logged
//! commit in view 0, with view 2 current, and replica 4 abort in view 1.

ghost use Rattle.frame_views.specs.Fitting.{IsSpoken};
ghost use Rattle.frame_views.specs.Shown.{message_of};

use crate::casts::{Role, name_with};
use basil_types::bytes::id_of;
use basil_types::cluster::Cluster;
use basil_types::outbox::Envelope;
use basil_types::party::{Decision, Party};
use basil_types::transaction::TransactionView;
use frame_values::owned::{Certificate, CertificateBody, LogPart, VotePart};
use frame_views::certificates::{CertBody, CertificateView};
use frame_views::frames::{InvokeView, MessageView, ReadView, St2View, WritebackView, check};
use frame_views::items::{LogsView, TalliesView, VotesView};
use frame_views::signed::signatures;
use keyring::plain::PlainKeys;
use keyring::verifier::Verifier;
use keyring_lms::LmsKeys;
use std::alloc::AllocError;

/// What the frames of a scene are read by: its cluster and transactions, and the key of the client.
#[derive(Clone, Copy)]
pub(crate) struct Reader<'a> {
    pub(crate) cluster: &'a Cluster,
    pub(crate) cast: &'a [Role],
    pub(crate) key: &'a LmsKeys,
}

impl<'a> Reader<'a> {
    fn name(&self, t: TransactionView<'_>) -> &'static str {
        name_with(self.cast, &id_of(t.bytes()))
    }
}

pub(crate) fn name_of(decision: Decision) -> &'static str {
    match decision {
        Decision::Commit => "commit",
        Decision::Abort => "abort",
    }
}

fn letter_of(decision: Decision) -> &'static str {
    match decision {
        Decision::Commit => "c",
        Decision::Abort => "a",
    }
}

pub(crate) fn push_bytes(text: &mut String, bytes: &[u8]) -> Result<(), AllocError> {
    text.push_str(str::from_utf8(bytes).unwrap_or("no text"))
}

// ---- certificates

fn tell_votes(text: &mut String, shard: u8, votes: &VotesView<'_>) -> Result<(), AllocError> {
    write!(text, " {shard}:")?;
    for vote in votes.iter() {
        write!(text, "{}", vote.replica)?;
    }
    Ok(())
}

fn tell_tallies(text: &mut String, tallies: &TalliesView<'_>) -> Result<(), AllocError> {
    for tally in tallies.iter() {
        tell_votes(text, tally.shard, &tally.votes)?;
    }
    Ok(())
}

fn tell_logs(text: &mut String, shard: u8, logs: &LogsView<'_>) -> Result<(), AllocError> {
    write!(text, " {shard}:")?;
    for log in logs.iter() {
        write!(text, "{}", log.replica)?;
    }
    Ok(())
}

/// A certificate of a kind that may commit.
fn tell_commit(text: &mut String, certificate: &CertificateView<'_>) -> Result<(), AllocError> {
    match certificate.body() {
        CertBody::FastCommit { tallies } => {
            text.push_str(" fast")?;
            tell_tallies(text, &tallies)
        }
        CertBody::Logged {
            shard,
            decision,
            decided,
            logs,
        } => {
            write!(text, " logged {} {decided}", name_of(decision))?;
            tell_logs(text, shard, &logs)
        }
        CertBody::FastAbort { .. } | CertBody::ConflictAbort { .. } => text.push_str(" abort"),
    }
}

fn tell_certificate(
    text: &mut String,
    reader: &Reader<'_>,
    certificate: &CertificateView<'_>,
) -> Result<(), AllocError> {
    match certificate.body() {
        CertBody::FastAbort { shard, votes } => {
            text.push_str(" abort")?;
            tell_votes(text, shard, &votes)
        }
        CertBody::ConflictAbort {
            shard,
            replica,
            other,
            proof,
            ..
        } => {
            write!(text, " conflict {shard}:{replica} {}", reader.name(other))?;
            tell_commit(text, &proof)
        }
        CertBody::FastCommit { .. } | CertBody::Logged { .. } => tell_commit(text, certificate),
    }
}

// ---- frames

fn tell_read(text: &mut String, m: &ReadView<'_>) -> Result<(), AllocError> {
    text.push_str("read ")?;
    push_bytes(text, m.key)?;
    write!(text, " {} {}", m.time, m.client)
}

fn tell_second(text: &mut String, reader: &Reader<'_>, m: &St2View<'_>) -> Result<(), AllocError> {
    let name = reader.name(m.transaction);
    write!(text, "st2 {name} {}", name_of(m.decision))?;
    tell_tallies(text, &m.tallies)
}

fn tell_writeback(
    text: &mut String,
    reader: &Reader<'_>,
    m: &WritebackView<'_>,
) -> Result<(), AllocError> {
    write!(text, "writeback {}", reader.name(m.transaction))?;
    tell_certificate(text, reader, &m.certificate)
}

fn tell_invoke(
    text: &mut String,
    reader: &Reader<'_>,
    m: &InvokeView<'_>,
) -> Result<(), AllocError> {
    let name = name_with(reader.cast, &m.id);
    write!(text, "invoke {name} {}", m.shard)?;
    for reply in m.replies.iter() {
        let letter = letter_of(reply.decision);
        let (decided, current) = (reply.decided, reply.current);
        write!(text, " {}{letter}{decided}/{current}", reply.replica)?;
    }
    Ok(())
}

fn tell_message(
    text: &mut String,
    reader: &Reader<'_>,
    m: &MessageView<'_>,
) -> Result<(), AllocError> {
    match m {
        MessageView::Read(m) => tell_read(text, m),
        MessageView::St1(m) => write!(text, "st1 {}", reader.name(m.transaction)),
        MessageView::St2(m) => tell_second(text, reader, m),
        MessageView::Writeback(m) => tell_writeback(text, reader, m),
        MessageView::Recover(m) => write!(text, "recover {}", reader.name(m.transaction)),
        MessageView::Invoke(m) => tell_invoke(text, reader, m),
        MessageView::ReadReply(_)
        | MessageView::Vote(_)
        | MessageView::LogReply(_)
        | MessageView::Elect(_)
        | MessageView::Decide(_) => text.push_str("a kind that no client sends"),
    }
}

/// The leaf that made an LMS signature.
pub(crate) fn leaf_of(signature: &[u8]) -> u8 {
    signature.get(3).copied().unwrap_or(0)
}

/// The leaf of each signature that is the client's, and each signature that nobody accepts.
fn tell_signatures(
    text: &mut String,
    reader: &Reader<'_>,
    m: &MessageView<'_>,
) -> Result<(), AllocError>
    requires { IsSpoken (message_of m.now) }
{
    let plain = PlainKeys::new(reader.cluster);
    for item in signatures(m) {
        let words = item.words.bytes();
        if reader.key.accepts(item.party, words, item.signature) {
            write!(text, " #{}", leaf_of(item.signature))?;
        } else if !plain.accepts(item.party, words, item.signature) {
            text.push_str(" unsigned")?;
        }
    }
    Ok(())
}

fn tell_frame(text: &mut String, reader: &Reader<'_>, frame: &[u8]) -> Result<(), AllocError> {
    match check(frame, reader.cluster) {
        Ok(m) => {
            tell_message(text, reader, &m)?;
            tell_signatures(text, reader, &m)
        }
        Err(_) => text.push_str("no frame"),
    }
}

/// A receiver: a replica behind its shard, which is told where it isn't the one before.
fn tell_party(text: &mut String, party: Party, before: Option<Party>) -> Result<(), AllocError> {
    match (party, before) {
        (Party::Client { number }, _) => write!(text, " c{number}"),
        (Party::Replica { shard, index }, Some(Party::Replica { shard: last, .. })) => {
            if shard == last {
                write!(text, "{index}")
            } else {
                write!(text, " {shard}:{index}")
            }
        }
        (Party::Replica { shard, index }, _) => write!(text, " {shard}:{index}"),
    }
}

/// The messages from a place of an outbox on. A frame that goes to one party after the other is told once.
pub(crate) fn tell(
    text: &mut String,
    reader: &Reader<'_>,
    messages: &[Envelope],
    from: usize,
) -> Result<(), AllocError> {
    let mut last: &[u8] = &[];
    let mut before = None;
    for envelope in messages.iter().skip(from) {
        let frame = envelope.frame.as_slice();
        if frame != last {
            if !text.is_empty() {
                text.push_str("; ")?;
            }
            tell_frame(text, reader, frame)?;
            text.push_str(" to")?;
            before = None;
        }
        tell_party(text, envelope.to, before)?;
        before = Some(envelope.to);
        last = frame;
    }
    Ok(())
}

// ---- an outcome

fn tell_voters(text: &mut String, shard: u8, votes: &[VotePart]) -> Result<(), AllocError> {
    write!(text, " {shard}:")?;
    for vote in votes {
        write!(text, "{}", vote.replica)?;
    }
    Ok(())
}

fn tell_loggers(text: &mut String, logs: &[LogPart]) -> Result<(), AllocError> {
    for log in logs {
        write!(text, "{}", log.replica)?;
    }
    Ok(())
}

/// A certificate that a client holds.
pub(crate) fn tell_held(
    text: &mut String,
    cast: &[Role],
    certificate: &Certificate,
) -> Result<(), AllocError> {
    match &certificate.body {
        CertificateBody::FastCommit { tallies } => {
            text.push_str(" fast")?;
            for tally in tallies.as_slice() {
                tell_voters(text, tally.shard, tally.votes.as_slice())?;
            }
            Ok(())
        }
        CertificateBody::FastAbort { shard, votes } => {
            text.push_str(" abort")?;
            tell_voters(text, *shard, votes.as_slice())
        }
        CertificateBody::ConflictAbort {
            shard,
            replica,
            other,
            ..
        } => {
            let name = name_with(cast, &id_of(other.view().bytes()));
            write!(text, " conflict {shard}:{replica} {name}")
        }
        CertificateBody::Logged {
            shard,
            decision,
            decided,
            logs,
        } => {
            write!(text, " logged {} {decided} {shard}:", name_of(*decision))?;
            tell_loggers(text, logs.as_slice())
        }
    }
}

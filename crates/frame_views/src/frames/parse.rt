//! Reading the body of each kind of frame from left to right.

ghost use Rattle.std.specs.Prelude.{◌≡◌};
ghost use Rattle.basil_types.specs.Steps.{Gives};
ghost use Rattle.frame_views.specs.Fitting.{Within, widest};
ghost use Rattle.frame_views.specs.Grammar.{read_message_at, read_reply_at, signed_at, voted_at, st2_at, log_reply_at};
ghost use Rattle.frame_views.specs.Grammar.{writeback_at, invoke_at, elect_at, decide_at, message_at};
ghost use Rattle.frame_views.specs.Shown.{read_of, read_reply_of, st1_of, voted_of, st2_of, log_reply_of, writeback_of};
ghost use Rattle.frame_views.specs.Shown.{recover_of, invoke_of, elect_message_of, decide_of, message_of};

use super::parts::{maybe_committed, maybe_prepared};
use super::views::{
    DecideView, ElectView, InvokeView, LogReplyView, MessageView, ReadReplyView, ReadView,
    RecoverView, St1View, St2View, VoteView, WritebackView,
};
use crate::bounds::Bounds;
use crate::certificates::parse::certificate;
use crate::fields::{decision, id, number_from, signature};
use crate::items::{ElectsView, InvokesView, TalliesView};
use crate::kind::Kind;
use basil_types::party::is_abort;
use basil_types::reading::{Fault, between, key, u64_at};
use basil_types::transaction::first;

/// Kind 1: key, time, client.
#[tactic(auto, unfolding(crate::specs::Grammar::read_message_at))]
fn read<'a>(bytes: &'a [u8]) -> Result<(ReadView<'a>, &'a [u8]), Fault>
    ensures { Gives (λ x. (read_of x.0, x.1.now)) result (read_message_at bytes.now) }
{
    let (key, rest) = key(bytes)?;
    let (time, rest) = u64_at(rest)?;
    let (client, rest) = between(1, 17, rest)?;
    Ok((ReadView { key, time, client }, rest))
}

/// Kind 2: shard, replica, key, time, client, a committed transaction behind a flag, a prepared one behind a flag,
/// signature.
#[tactic(auto, unfolding(crate::specs::Grammar::read_reply_at))]
fn read_reply<'a>(bounds: Bounds, bytes: &'a [u8]) -> Result<(ReadReplyView<'a>, &'a [u8]), Fault>
    requires { Within bounds widest }
    ensures { Gives (λ x. (read_reply_of x.0, x.1.now)) result (read_reply_at bounds bytes.now) }
{
    let (shard, rest) = between(0, bounds.shards, bytes)?;
    let (replica, rest) = between(0, bounds.replicas, rest)?;
    let (asked, rest) = read(rest)?;
    let (committed, rest) = maybe_committed(bounds, true, rest)?;
    let (prepared, rest) = maybe_prepared(rest)?;
    let (signature, rest) = signature(rest)?;
    Ok((
        ReadReplyView {
            shard,
            replica,
            key: asked.key,
            time: asked.time,
            client: asked.client,
            committed,
            prepared,
            signature,
        },
        rest,
    ))
}

/// Kind 3: transaction, signature.
#[tactic(auto, unfolding(crate::specs::Grammar::signed_at))]
fn st1<'a>(bytes: &'a [u8]) -> Result<(St1View<'a>, &'a [u8]), Fault>
    ensures { Gives (λ x. (st1_of x.0, x.1.now)) result (signed_at bytes.now) }
{
    let (transaction, rest) = first(bytes)?;
    let (signature, rest) = signature(rest)?;
    Ok((
        St1View {
            transaction,
            signature,
        },
        rest,
    ))
}

/// Kind 4: shard, replica, id, decision, a proof behind a flag, which is 0 where the decision is commit, signature.
#[tactic(auto, unfolding(crate::specs::Grammar::voted_at))]
fn vote<'a>(bounds: Bounds, bytes: &'a [u8]) -> Result<(VoteView<'a>, &'a [u8]), Fault>
    requires { Within bounds widest }
    ensures { Gives (λ x. (voted_of x.0, x.1.now)) result (voted_at bounds bytes.now) }
{
    let (shard, rest) = between(0, bounds.shards, bytes)?;
    let (replica, rest) = between(0, bounds.replicas, rest)?;
    let (id, rest) = id(rest)?;
    let (decision, rest) = decision(rest)?;
    let (proof, rest) = maybe_committed(bounds, is_abort(decision), rest)?;
    let (signature, rest) = signature(rest)?;
    Ok((
        VoteView {
            shard,
            replica,
            id,
            decision,
            proof,
            signature,
        },
        rest,
    ))
}

/// Kind 5: transaction, signature, decision, tallies.
#[tactic(auto, unfolding(crate::specs::Grammar::st2_at))]
fn st2<'a>(bounds: Bounds, bytes: &'a [u8]) -> Result<(St2View<'a>, &'a [u8]), Fault>
    requires { Within bounds widest }
    ensures { Gives (λ x. (st2_of x.0, x.1.now)) result (st2_at bounds bytes.now) }
{
    let (transaction, rest) = first(bytes)?;
    let (signature, rest) = signature(rest)?;
    let (decision, rest) = decision(rest)?;
    let (tallies, rest) = TalliesView::read(bounds, rest)?;
    Ok((
        St2View {
            transaction,
            signature,
            decision,
            tallies,
        },
        rest,
    ))
}

/// Kind 6: shard, replica, id, decision, decided, current, signature.
#[tactic(auto, unfolding(crate::specs::Grammar::log_reply_at))]
fn log_reply<'a>(bounds: Bounds, bytes: &'a [u8]) -> Result<(LogReplyView<'a>, &'a [u8]), Fault>
    requires { Within bounds widest }
    ensures { Gives (λ x. (log_reply_of x.0, x.1.now)) result (log_reply_at bounds bytes.now) }
{
    let (shard, rest) = between(0, bounds.shards, bytes)?;
    let (replica, rest) = between(0, bounds.replicas, rest)?;
    let (id, rest) = id(rest)?;
    let (decision, rest) = decision(rest)?;
    let (decided, rest) = u64_at(rest)?;
    let (current, rest) = number_from(decided, rest)?;
    let (signature, rest) = signature(rest)?;
    Ok((
        LogReplyView {
            shard,
            replica,
            id,
            decision,
            decided,
            current,
            signature,
        },
        rest,
    ))
}

/// Kind 7: transaction, certificate.
#[tactic(auto, unfolding(crate::specs::Grammar::writeback_at))]
fn writeback<'a>(bounds: Bounds, bytes: &'a [u8]) -> Result<(WritebackView<'a>, &'a [u8]), Fault>
    requires { Within bounds widest }
    ensures { Gives (λ x. (writeback_of x.0, x.1.now)) result (writeback_at bounds bytes.now) }
{
    let (transaction, rest) = first(bytes)?;
    let (certificate, rest) = certificate(bounds, rest)?;
    Ok((
        WritebackView {
            transaction,
            certificate,
        },
        rest,
    ))
}

/// Kind 8: transaction, signature.
#[tactic(auto, unfolding(crate::specs::Grammar::signed_at))]
fn recover<'a>(bytes: &'a [u8]) -> Result<(RecoverView<'a>, &'a [u8]), Fault>
    ensures { Gives (λ x. (recover_of x.0, x.1.now)) result (signed_at bytes.now) }
{
    let (transaction, rest) = first(bytes)?;
    let (signature, rest) = signature(rest)?;
    Ok((
        RecoverView {
            transaction,
            signature,
        },
        rest,
    ))
}

/// Kind 9: id, shard, log replies.
#[tactic(auto, unfolding(crate::specs::Grammar::invoke_at))]
fn invoke<'a>(bounds: Bounds, bytes: &'a [u8]) -> Result<(InvokeView<'a>, &'a [u8]), Fault>
    requires { Within bounds widest }
    ensures { Gives (λ x. (invoke_of x.0, x.1.now)) result (invoke_at bounds bytes.now) }
{
    let (id, rest) = id(bytes)?;
    let (shard, rest) = between(0, bounds.shards, rest)?;
    let (replies, rest) = InvokesView::read(bounds, rest)?;
    Ok((InvokeView { id, shard, replies }, rest))
}

/// Kind 10: transaction, shard, replica, decision, view, signature.
#[tactic(auto, unfolding(crate::specs::Grammar::elect_at))]
fn elect<'a>(bounds: Bounds, bytes: &'a [u8]) -> Result<(ElectView<'a>, &'a [u8]), Fault>
    requires { Within bounds widest }
    ensures { Gives (λ x. (elect_message_of x.0, x.1.now)) result (elect_at bounds bytes.now) }
{
    let (transaction, rest) = first(bytes)?;
    let (shard, rest) = between(0, bounds.shards, rest)?;
    let (replica, rest) = between(0, bounds.replicas, rest)?;
    let (decision, rest) = decision(rest)?;
    let (view, rest) = number_from(1, rest)?;
    let (signature, rest) = signature(rest)?;
    Ok((
        ElectView {
            transaction,
            shard,
            replica,
            decision,
            view,
            signature,
        },
        rest,
    ))
}

/// Kind 11: transaction, shard, replica, decision, view, election words, signature.
#[tactic(auto, unfolding(crate::specs::Grammar::decide_at))]
fn decide<'a>(bounds: Bounds, bytes: &'a [u8]) -> Result<(DecideView<'a>, &'a [u8]), Fault>
    requires { Within bounds widest }
    ensures { Gives (λ x. (decide_of x.0, x.1.now)) result (decide_at bounds bytes.now) }
{
    let (transaction, rest) = first(bytes)?;
    let (shard, rest) = between(0, bounds.shards, rest)?;
    let (replica, rest) = between(0, bounds.replicas, rest)?;
    let (decision, rest) = decision(rest)?;
    let (view, rest) = number_from(1, rest)?;
    let (words, rest) = ElectsView::read(bounds, rest)?;
    let (signature, rest) = signature(rest)?;
    Ok((
        DecideView {
            transaction,
            shard,
            replica,
            decision,
            view,
            words,
            signature,
        },
        rest,
    ))
}

/// The body of a frame of this kind, and the bytes behind it.
#[tactic(auto, unfolding(crate::specs::Grammar::message_at))]
pub(super) fn message<'a>(
    bounds: Bounds,
    kind: Kind,
    bytes: &'a [u8],
) -> Result<(MessageView<'a>, &'a [u8]), Fault>
    requires { Within bounds widest }
    ensures { Gives (λ x. (message_of x.0, x.1.now)) result (message_at bounds kind bytes.now) }
{
    match kind {
        Kind::Read => {
            let (m, rest) = read(bytes)?;
            Ok((MessageView::Read(m), rest))
        }
        Kind::ReadReply => {
            let (m, rest) = read_reply(bounds, bytes)?;
            Ok((MessageView::ReadReply(m), rest))
        }
        Kind::St1 => {
            let (m, rest) = st1(bytes)?;
            Ok((MessageView::St1(m), rest))
        }
        Kind::Vote => {
            let (m, rest) = vote(bounds, bytes)?;
            Ok((MessageView::Vote(m), rest))
        }
        Kind::St2 => {
            let (m, rest) = st2(bounds, bytes)?;
            Ok((MessageView::St2(m), rest))
        }
        Kind::LogReply => {
            let (m, rest) = log_reply(bounds, bytes)?;
            Ok((MessageView::LogReply(m), rest))
        }
        Kind::Writeback => {
            let (m, rest) = writeback(bounds, bytes)?;
            Ok((MessageView::Writeback(m), rest))
        }
        Kind::Recover => {
            let (m, rest) = recover(bytes)?;
            Ok((MessageView::Recover(m), rest))
        }
        Kind::Invoke => {
            let (m, rest) = invoke(bounds, bytes)?;
            Ok((MessageView::Invoke(m), rest))
        }
        Kind::Elect => {
            let (m, rest) = elect(bounds, bytes)?;
            Ok((MessageView::Elect(m), rest))
        }
        Kind::Decide => {
            let (m, rest) = decide(bounds, bytes)?;
            Ok((MessageView::Decide(m), rest))
        }
    }
}

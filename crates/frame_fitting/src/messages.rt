//! Room for messages, and which of them fit.

ghost use Rattle.std.specs.Prelude.{◌≡◌, ◌≤◌, ◌↔◌, length, IsTrue, OnSome};
ghost use Rattle.basil_types.specs.Shown.{transaction_of};
ghost use Rattle.basil_types.specs.Texts.{IsBytes};
ghost use Rattle.basil_types.specs.Transaction.{IsTransaction};
ghost use Rattle.frame_views.specs.Fitting.{bounds_of};
ghost use Rattle.frame_views.specs.Shown.{read_of, log_reply_of, elect_message_of};
ghost use Rattle.frame_fitting.specs.Wider.{IsFit};
ghost use Rattle.frame_fitting.specs.Known.{Known, KnownBody, KnownCommitted, KnownReply};
ghost use Rattle.frame_values.specs.Owned.{message_value};
ghost use Rattle.frame_values.specs.Parts.{read_reply_parts, vote_parts, st2_parts, writeback_parts, invoke_parts};
ghost use Rattle.frame_values.specs.Parts.{decide_parts, message_parts};
ghost use Rattle.frame_fitting.specs.Room as rooms;

use super::certificates::{certificate_room, committed_room, prepared_room};
use super::fields::{
    client_room, decision_room, id_room, key_room, long_room, number_room, place_room,
    signature_room, spent, transaction_room,
};
use super::lists::{replies_room, tallies_room, words_room};
use basil_types::cluster::Cluster;
use basil_types::limits::FRAME_LIMIT;
use basil_types::party::{Decision, is_abort};
use basil_types::transaction::TransactionView;
use frame_values::lending::{
    DecideParts, InvokeParts, MessageParts, ReadReplyParts, St2Parts, VoteParts, WritebackParts,
    lent,
};
use frame_values::owned::Message;
use frame_views::frames::{ElectView, LogReplyView, ReadView};

#[tactic(auto, unfolding(crate::specs::Room::read_room))]
fn read_room(m: &ReadView<'_>, room: usize) -> Option<usize>
    ensures value { result ≡ rooms.read_room (read_of m.now) room }
    ensures known { IsBytes m.now.key.now }
{
    let room = key_room(m.key, room)?;
    let room = long_room(0, m.time, room)?;
    client_room(m.client, room)
}

#[tactic(auto, unfolding(crate::specs::Room::read_reply_room))]
fn read_reply_room(cluster: &Cluster, m: &ReadReplyParts<'_>, room: usize) -> Option<usize>
    ensures value { result ≡ rooms.read_reply_room (bounds_of cluster.now) (read_reply_parts m.now) room }
    ensures known { OnSome result (KnownReply (read_reply_parts m.now)) }
{
    let room = place_room(cluster, m.shard, m.replica, room)?;
    let room = key_room(m.key, room)?;
    let room = long_room(0, m.time, room)?;
    let room = client_room(m.client, room)?;
    let room = committed_room(cluster, true, m.committed, room)?;
    let room = prepared_room(m.prepared, room)?;
    signature_room(m.signature, room)
}

/// A transaction that its client signed.
#[tactic(auto, unfolding(crate::specs::Room::signed_room))]
fn signed_room(transaction: &TransactionView<'_>, signature: &[u8], room: usize) -> Option<usize>
    ensures value { result ≡ rooms.signed_room (record {
      transaction = transaction_of transaction.now;
      signature = signature.now;
    }) room }
    ensures known { IsTransaction (transaction_of transaction.now) }
{
    let room = transaction_room(transaction, room)?;
    signature_room(signature, room)
}

#[tactic(auto, unfolding(crate::specs::Room::voted_room))]
fn vote_room(cluster: &Cluster, m: &VoteParts<'_>, room: usize) -> Option<usize>
    ensures value { result ≡ rooms.voted_room (bounds_of cluster.now) (vote_parts m.now) room }
    ensures known { OnSome result (KnownCommitted (vote_parts m.now).proof) }
{
    let room = place_room(cluster, m.shard, m.replica, room)?;
    let room = id_room(&m.id, room)?;
    let room = decision_room(m.decision, room)?;
    let room = committed_room(cluster, is_abort(m.decision), m.proof, room)?;
    signature_room(m.signature, room)
}

#[tactic(auto, unfolding(crate::specs::Room::st2_room))]
fn st2_room(cluster: &Cluster, m: &St2Parts<'_>, room: usize) -> Option<usize>
    ensures value { result ≡ rooms.st2_room (bounds_of cluster.now) (st2_parts m.now) room }
    ensures known { IsTransaction (transaction_of m.now.transaction) }
{
    let room = transaction_room(&m.transaction, room)?;
    let room = signature_room(m.signature, room)?;
    let room = decision_room(m.decision, room)?;
    tallies_room(cluster, m.tallies, room)
}

#[tactic(auto, unfolding(crate::specs::Room::log_reply_room))]
fn log_reply_room(cluster: &Cluster, m: &LogReplyView<'_>, room: usize) -> Option<usize>
    ensures { result ≡ rooms.log_reply_room (bounds_of cluster.now) (log_reply_of m.now) room }
{
    let room = place_room(cluster, m.shard, m.replica, room)?;
    let room = id_room(&m.id, room)?;
    let room = decision_room(m.decision, room)?;
    let room = long_room(0, m.decided, room)?;
    let room = long_room(m.decided, m.current, room)?;
    signature_room(m.signature, room)
}

#[tactic(auto, unfolding(crate::specs::Room::writeback_room))]
fn writeback_room(cluster: &Cluster, m: &WritebackParts<'_>, room: usize) -> Option<usize>
    ensures value { result ≡ rooms.writeback_room (bounds_of cluster.now) (writeback_parts m.now) room }
    ensures transaction { IsTransaction (transaction_of m.now.transaction) }
    ensures certificate { OnSome result (KnownBody (writeback_parts m.now).certificate.body) }
{
    let room = transaction_room(&m.transaction, room)?;
    certificate_room(cluster, m.certificate, room)
}

#[tactic(auto, unfolding(crate::specs::Room::invoke_room))]
fn invoke_room(cluster: &Cluster, m: &InvokeParts<'_>, room: usize) -> Option<usize>
    ensures { result ≡ rooms.invoke_room (bounds_of cluster.now) (invoke_parts m.now) room }
{
    let room = id_room(&m.id, room)?;
    let room = number_room(cluster.shards, 0, m.shard, room)?;
    replies_room(cluster, m.replies, room)
}

#[tactic(auto, unfolding(crate::specs::Room::elect_room))]
fn elect_room(cluster: &Cluster, m: &ElectView<'_>, room: usize) -> Option<usize>
    ensures value { result ≡ rooms.elect_room (bounds_of cluster.now) (elect_message_of m.now) room }
    ensures known { IsTransaction (transaction_of m.now.transaction) }
{
    let room = transaction_room(&m.transaction, room)?;
    let room = place_room(cluster, m.shard, m.replica, room)?;
    let room = decision_room(m.decision, room)?;
    let room = long_room(1, m.view, room)?;
    signature_room(m.signature, room)
}

#[tactic(auto, unfolding(crate::specs::Room::decide_room))]
fn decide_room(cluster: &Cluster, m: &DecideParts<'_>, room: usize) -> Option<usize>
    ensures value { result ≡ rooms.decide_room (bounds_of cluster.now) (decide_parts m.now) room }
    ensures known { IsTransaction (transaction_of m.now.transaction) }
{
    let room = transaction_room(&m.transaction, room)?;
    let room = place_room(cluster, m.shard, m.replica, room)?;
    let room = decision_room(m.decision, room)?;
    let room = long_room(1, m.view, room)?;
    let room = words_room(cluster, m.words, room)?;
    signature_room(m.signature, room)
}

#[tactic(auto, unfolding(crate::specs::Room::message_room))]
fn message_room(cluster: &Cluster, m: &MessageParts<'_>, room: usize) -> Option<usize>
    ensures value { result ≡ rooms.message_room (bounds_of cluster.now) (message_parts m.now) room }
    ensures known { OnSome result (Known (message_parts m.now)) }
{
    let room = spent(1, room)?;
    match m {
        MessageParts::Read(m) => read_room(m, room),
        MessageParts::ReadReply(m) => read_reply_room(cluster, m, room),
        MessageParts::St1(m) => signed_room(&m.transaction, m.signature, room),
        MessageParts::Vote(m) => vote_room(cluster, m, room),
        MessageParts::St2(m) => st2_room(cluster, m, room),
        MessageParts::LogReply(m) => log_reply_room(cluster, m, room),
        MessageParts::Writeback(m) => writeback_room(cluster, m, room),
        MessageParts::Recover(m) => signed_room(&m.transaction, m.signature, room),
        MessageParts::Invoke(m) => invoke_room(cluster, m, room),
        MessageParts::Elect(m) => elect_room(cluster, m, room),
        MessageParts::Decide(m) => decide_room(cluster, m, room),
    }
}

/// Whether a message breaks no rule for the cluster, and its frame has at most `FRAME_LIMIT` bytes. Takes no
/// memory.
pub fn fits(m: &Message, cluster: &Cluster) -> bool
    ensures { IsTrue result ↔ IsFit (bounds_of cluster.now) (message_value m.now) }
{
    message_room(cluster, &lent(m), FRAME_LIMIT).is_some()
}

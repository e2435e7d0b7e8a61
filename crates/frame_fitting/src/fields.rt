//! Room for the fields of frames. Each call gives the room, in bytes, that is left of `room` behind the
//! field, or None where the field breaks a rule or the room is too small.

ghost use Rattle.std.specs.Prelude.{◌≡◌};
ghost use Rattle.basil_types.specs.Shown.{transaction_of};
ghost use Rattle.basil_types.specs.Texts.{IsBytes};
ghost use Rattle.basil_types.specs.Transaction.{IsTransaction};
ghost use Rattle.frame_views.specs.Fitting.{bounds_of};
ghost use Rattle.frame_fitting.specs.Room as rooms;

use basil_types::cluster::Cluster;
use basil_types::limits::{MOST_CLIENTS, SIGNATURE_LIMIT};
use basil_types::party::Decision;
use basil_types::reading::in_range;
use basil_types::transaction::TransactionView;

/// So many bytes.
#[tactic(auto, unfolding(crate::specs::Room::spent))]
pub(super) fn spent(count: usize, room: usize) -> Option<usize>
    ensures { result ≡ rooms.spent count room }
{
    if count <= room {
        Some(room - count)
    } else {
        None
    }
}

/// A number from `floor` on and below `high`.
#[tactic(auto, unfolding(crate::specs::Room::number_room))]
pub(super) fn number_room(high: u8, floor: u16, number: u8, room: usize) -> Option<usize>
    ensures { result ≡ rooms.number_room high floor number room }
{
    if floor <= u16::from(number) && number < high {
        spent(1, room)
    } else {
        None
    }
}

/// A number of eight bytes that is at least `low`.
#[tactic(auto, unfolding(crate::specs::Room::long_room))]
pub(super) fn long_room(low: u64, number: u64, room: usize) -> Option<usize>
    ensures { result ≡ rooms.long_room low number room }
{
    if low <= number { spent(8, room) } else { None }
}

/// An id.
#[tactic(auto, unfolding(crate::specs::Room::id_room))]
pub(super) fn id_room(_id: &[u8; 32], room: usize) -> Option<usize>
    ensures { result ≡ rooms.id_room _id.now room }
{
    spent(32, room)
}

/// A decision, which breaks no rule.
pub(super) fn decision_room(_decision: Decision, room: usize) -> Option<usize>
    ensures { result ≡ rooms.spent 1 room }
{
    spent(1, room)
}

/// A signature of 1 to `SIGNATURE_LIMIT` bytes.
#[tactic(auto, unfolding(crate::specs::Room::signature_room))]
pub(super) fn signature_room(signature: &[u8], room: usize) -> Option<usize>
    ensures { result ≡ rooms.signature_room signature.now room }
{
    let len = signature.len();
    if 1 <= len && len <= SIGNATURE_LIMIT {
        spent(len + 2, room)
    } else {
        None
    }
}

/// A key of 1 to 64 bytes.
#[tactic(auto, unfolding(crate::specs::Room::key_room))]
pub(super) fn key_room(key: &[u8], room: usize) -> Option<usize>
    ensures value { result ≡ rooms.key_room key.now room }
    ensures known { IsBytes key.now }
{
    let len = in_range(key).len();
    if 1 <= len && len <= 64 {
        spent(len + 1, room)
    } else {
        None
    }
}

/// A client.
#[tactic(auto, unfolding(crate::specs::Room::client_room))]
pub(super) fn client_room(client: u8, room: usize) -> Option<usize>
    ensures { result ≡ rooms.client_room client room }
{
    if 1 <= client && client <= MOST_CLIENTS {
        spent(1, room)
    } else {
        None
    }
}

/// A transaction.
#[tactic(auto, unfolding(crate::specs::Room::transaction_room))]
pub(super) fn transaction_room(transaction: &TransactionView<'_>, room: usize) -> Option<usize>
    ensures value { result ≡ rooms.transaction_room (transaction_of transaction.now) room }
    ensures known { IsTransaction (transaction_of transaction.now) }
{
    spent(transaction.bytes().len(), room)
}

/// A replica's place: its shard and its number.
#[tactic(auto, unfolding(crate::specs::Room::place_room))]
pub(super) fn place_room(cluster: &Cluster, shard: u8, replica: u8, room: usize) -> Option<usize>
    ensures { result ≡ rooms.place_room (bounds_of cluster.now) shard replica room }
{
    let room = number_room(cluster.shards, 0, shard, room)?;
    number_room(cluster.n(), 0, replica, room)
}

//! Room for lists, whose numbers ascend strictly.

ghost use Rattle.std.specs.Prelude.{◌≡◌, map, length, ◌<◌};
ghost use Rattle.frame_views.specs.Fitting.{bounds_of, after_vote, after_tally, after_log, after_reply, after_word};
ghost use Rattle.frame_values.specs.Owned.{vote_value, tally_value, log_value, reply_value, word_value};
ghost use Rattle.frame_fitting.specs.Room as rooms;
ghost use Rattle.frame_fitting.specs.Room.{items_room};

use super::fields::{decision_room, long_room, number_room, signature_room, spent};
use basil_types::cluster::Cluster;
use frame_values::owned::{ElectPart, InvokePart, LogPart, ShardVotes, VotePart};

#[tactic(auto, unfolding(crate::specs::Room::vote_room))]
fn vote_room(cluster: &Cluster, floor: u16, vote: &VotePart, room: usize) -> Option<usize>
    ensures { result ≡ rooms.vote_room (bounds_of cluster.now) floor (vote_value vote.now) room }
{
    let room = number_room(cluster.n(), floor, vote.replica, room)?;
    signature_room(vote.signature.as_slice(), room)
}

fn each_vote_room(cluster: &Cluster, votes: &[VotePart], room: usize) -> Option<usize>
    ensures { result ≡ items_room (rooms.vote_room (bounds_of cluster.now)) after_vote 0
        (map vote_value votes.now) room }
{
    let mut left = room;
    let mut floor = 0u16;
    for part in votes {
        match vote_room(cluster, floor, part, left) {
            Some(after) => left = after,
            None => return None,
        }
        floor = part.replica as u16 + 1;
    }
    Some(left)
}

/// Votes behind their number.
#[tactic(auto, unfolding(crate::specs::Room::votes_room))]
pub(super) fn votes_room(cluster: &Cluster, votes: &[VotePart], room: usize) -> Option<usize>
    ensures { result ≡ rooms.votes_room (bounds_of cluster.now) (map vote_value votes.now) room }
{
    if votes.len() < 256 {
        each_vote_room(cluster, votes, spent(1, room)?)
    } else {
        None
    }
}

#[tactic(auto, unfolding(crate::specs::Room::tally_room))]
fn tally_room(cluster: &Cluster, floor: u16, tally: &ShardVotes, room: usize) -> Option<usize>
    ensures { result ≡ rooms.tally_room (bounds_of cluster.now) floor (tally_value tally.now) room }
{
    let room = number_room(cluster.shards, floor, tally.shard, room)?;
    votes_room(cluster, tally.votes.as_slice(), room)
}

fn each_tally_room(cluster: &Cluster, tallies: &[ShardVotes], room: usize) -> Option<usize>
    ensures { result ≡ items_room (rooms.tally_room (bounds_of cluster.now)) after_tally 0
        (map tally_value tallies.now) room }
{
    let mut left = room;
    let mut floor = 0u16;
    for part in tallies {
        match tally_room(cluster, floor, part, left) {
            Some(after) => left = after,
            None => return None,
        }
        floor = part.shard as u16 + 1;
    }
    Some(left)
}

/// Tallies behind their number.
#[tactic(auto, unfolding(crate::specs::Room::tallies_room))]
pub(super) fn tallies_room(cluster: &Cluster, tallies: &[ShardVotes], room: usize) -> Option<usize>
    ensures { result ≡ rooms.tallies_room (bounds_of cluster.now) (map tally_value tallies.now) room }
{
    if tallies.len() < 256 {
        each_tally_room(cluster, tallies, spent(1, room)?)
    } else {
        None
    }
}

#[tactic(auto, unfolding(crate::specs::Room::log_room))]
fn log_room(
    cluster: &Cluster,
    decided: u64,
    floor: u16,
    log: &LogPart,
    room: usize,
) -> Option<usize>
    ensures { result ≡ rooms.log_room (bounds_of cluster.now) decided floor (log_value log.now) room }
{
    let room = number_room(cluster.n(), floor, log.replica, room)?;
    let room = long_room(decided, log.current, room)?;
    signature_room(log.signature.as_slice(), room)
}

fn each_log_room(cluster: &Cluster, decided: u64, logs: &[LogPart], room: usize) -> Option<usize>
    ensures { result ≡ items_room (rooms.log_room (bounds_of cluster.now) decided) after_log 0
        (map log_value logs.now) room }
{
    let mut left = room;
    let mut floor = 0u16;
    for part in logs {
        match log_room(cluster, decided, floor, part, left) {
            Some(after) => left = after,
            None => return None,
        }
        floor = part.replica as u16 + 1;
    }
    Some(left)
}

/// Log replies of a certificate behind their number.
#[tactic(auto, unfolding(crate::specs::Room::logs_room))]
pub(super) fn logs_room(
    cluster: &Cluster,
    decided: u64,
    logs: &[LogPart],
    room: usize,
) -> Option<usize>
    ensures { result ≡ rooms.logs_room (bounds_of cluster.now) decided (map log_value logs.now) room }
{
    if logs.len() < 256 {
        each_log_room(cluster, decided, logs, spent(1, room)?)
    } else {
        None
    }
}

#[tactic(auto, unfolding(crate::specs::Room::reply_room))]
fn reply_room(cluster: &Cluster, floor: u16, reply: &InvokePart, room: usize) -> Option<usize>
    ensures { result ≡ rooms.reply_room (bounds_of cluster.now) floor (reply_value reply.now) room }
{
    let room = number_room(cluster.n(), floor, reply.replica, room)?;
    let room = decision_room(reply.decision, room)?;
    let room = long_room(0, reply.decided, room)?;
    let room = long_room(reply.decided, reply.current, room)?;
    signature_room(reply.signature.as_slice(), room)
}

fn each_reply_room(cluster: &Cluster, replies: &[InvokePart], room: usize) -> Option<usize>
    ensures { result ≡ items_room (rooms.reply_room (bounds_of cluster.now)) after_reply 0
        (map reply_value replies.now) room }
{
    let mut left = room;
    let mut floor = 0u16;
    for part in replies {
        match reply_room(cluster, floor, part, left) {
            Some(after) => left = after,
            None => return None,
        }
        floor = part.replica as u16 + 1;
    }
    Some(left)
}

/// Log replies of an invoke behind their number.
#[tactic(auto, unfolding(crate::specs::Room::replies_room))]
pub(super) fn replies_room(cluster: &Cluster, replies: &[InvokePart], room: usize) -> Option<usize>
    ensures { result ≡ rooms.replies_room (bounds_of cluster.now) (map reply_value replies.now) room }
{
    if replies.len() < 256 {
        each_reply_room(cluster, replies, spent(1, room)?)
    } else {
        None
    }
}

#[tactic(auto, unfolding(crate::specs::Room::word_room))]
fn word_room(cluster: &Cluster, floor: u16, word: &ElectPart, room: usize) -> Option<usize>
    ensures { result ≡ rooms.word_room (bounds_of cluster.now) floor (word_value word.now) room }
{
    let room = number_room(cluster.n(), floor, word.replica, room)?;
    let room = decision_room(word.decision, room)?;
    signature_room(word.signature.as_slice(), room)
}

fn each_word_room(cluster: &Cluster, words: &[ElectPart], room: usize) -> Option<usize>
    ensures { result ≡ items_room (rooms.word_room (bounds_of cluster.now)) after_word 0
        (map word_value words.now) room }
{
    let mut left = room;
    let mut floor = 0u16;
    for part in words {
        match word_room(cluster, floor, part, left) {
            Some(after) => left = after,
            None => return None,
        }
        floor = part.replica as u16 + 1;
    }
    Some(left)
}

/// Election words behind their number.
#[tactic(auto, unfolding(crate::specs::Room::words_room))]
pub(super) fn words_room(cluster: &Cluster, words: &[ElectPart], room: usize) -> Option<usize>
    ensures { result ≡ rooms.words_room (bounds_of cluster.now) (map word_value words.now) room }
{
    if words.len() < 256 {
        each_word_room(cluster, words, spent(1, room)?)
    } else {
        None
    }
}

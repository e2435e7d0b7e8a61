//! What is heard of the replicas of a shard in the messages of a pool: of each the first answer to a question.

ghost use Rattle.std.specs.Prelude.{◌≡◌, ◌<◌, ◌==◌, IfSome, OnOk, length, map, option_and_then, option_map, slice_get};
ghost use Rattle.std.specs.List.{list_any};
ghost use Rattle.cluster_run.specs.Faulty.{vote_in, word_in};
ghost use Rattle.frame_values.specs.Owned.{word_value};
ghost use Rattle.frame_views.specs.Fitting.{IsSignature};
ghost use Rattle.frame_views.specs.Shown.{elect_message_of, message_of, voted_of};
ghost use Rattle.faulty_parties.specs.Heard.{AreSigned, said_of};
ghost use Rattle.faulty_parties.specs.Hearing as hearing;
ghost use Rattle.faulty_parties.specs.Hearing.{heard_in, heard_of, is_vote_so, is_word_so, joined};
ghost use Rattle.faulty_parties.specs.Hearing.{joined_all, joined_some, same_bool, vote_heard, word_heard};

use crate::question::Question;
use basil_types::bytes::Bytes;
use basil_types::cluster::Cluster;
use basil_types::memory::NoMemory;
use basil_types::party::{Decision, Party, same_decision};
use basil_types::words::Words;
use frame_values::owned::ElectPart;
use frame_views::frames::{ElectView, MessageView, VoteView, check};
use keyring::verifier::Verifier;
use message_pool::{Pool, Posted};
use std::alloc::Global;

/// A replica's decision, with its signature.
#[derive(Clone, Copy)]
pub(crate) struct Heard<'a> {
    pub(crate) replica: u8,
    pub(crate) decision: Decision,
    pub(crate) signature: &'a [u8],
}

/// Whether a vote of this shard is on the transaction of this id, with this decision, and accepted.
fn is_vote<V: Verifier>(
    keys: &V,
    id: &[u8; 32],
    shard: u8,
    decision: Decision,
    v: &VoteView<'_>,
) -> bool
    ensures { result ≡ is_vote_so (V.accepted keys.now) id.now shard decision (voted_of v.now) }
{
    let party = Party::Replica {
        shard: v.shard,
        index: v.replica,
    };
    let words = Words::vote(v.shard, v.replica, &v.id, v.decision);
    v.shard == shard
        && v.id == *id
        && same_decision(v.decision, decision)
        && keys.accepts(party, words.bytes(), v.signature)
}

/// What a vote answers to a question for votes.
fn heard_vote<'a, V: Verifier>(
    keys: &V,
    id: &[u8; 32],
    shard: u8,
    decision: Decision,
    v: VoteView<'a>,
) -> Option<Heard<'a>>
    ensures { option_map said_of result ≡ vote_heard (V.accepted keys.now) id.now shard decision (voted_of v.entry) }
{
    if is_vote(keys, id, shard, decision, &v) {
        Some(Heard {
            replica: v.replica,
            decision: v.decision,
            signature: v.signature,
        })
    } else {
        None
    }
}

/// Whether a word of this shard is on the transaction of this id, for this view, and accepted.
fn is_word<V: Verifier>(keys: &V, id: &[u8; 32], shard: u8, view: u64, m: &ElectView<'_>) -> bool
    ensures { result ≡ is_word_so (V.accepted keys.now) id.now shard view (elect_message_of m.now) }
{
    let own = m.transaction.id();
    let party = Party::Replica {
        shard: m.shard,
        index: m.replica,
    };
    let words = Words::election(m.shard, m.replica, &own, m.decision, m.view);
    m.shard == shard
        && m.view == view
        && own == *id
        && keys.accepts(party, words.bytes(), m.signature)
}

/// Whether two are the same.
fn same(a: bool, b: bool) -> bool
    ensures { result ≡ same_bool a b }
{
    if a { b } else { !b }
}

/// The words of a question.
#[derive(Clone, Copy)]
struct Wanted {
    shard: u8,
    view: u64,
    decision: Decision,
    agrees: bool,
}

/// What an election word answers to a question for words.
fn heard_word<'a, V: Verifier>(
    keys: &V,
    id: &[u8; 32],
    wanted: Wanted,
    m: ElectView<'a>,
) -> Option<Heard<'a>>
    ensures { option_map said_of result ≡ word_heard (V.accepted keys.now) id.now wanted.shard wanted.view
        wanted.decision wanted.agrees (elect_message_of m.entry) }
{
    if is_word(keys, id, wanted.shard, wanted.view, &m)
        && same(wanted.agrees, same_decision(m.decision, wanted.decision))
    {
        Some(Heard {
            replica: m.replica,
            decision: m.decision,
            signature: m.signature,
        })
    } else {
        None
    }
}

/// The vote that a message is.
fn vote_of(m: MessageView<'_>) -> Option<VoteView<'_>>
    ensures { option_map voted_of result ≡ vote_in (message_of m.entry) }
{
    match m {
        MessageView::Vote(v) => Some(v),
        _ => None,
    }
}

/// The election word that a message is.
fn word_of(m: MessageView<'_>) -> Option<ElectView<'_>>
    ensures { option_map elect_message_of result ≡ word_in (message_of m.entry) }
{
    match m {
        MessageView::Elect(m) => Some(m),
        _ => None,
    }
}

/// What a message answers to a question for votes.
fn heard_votes<'a, V: Verifier>(
    keys: &V,
    id: &[u8; 32],
    shard: u8,
    decision: Decision,
    m: MessageView<'a>,
) -> Option<Heard<'a>>
    ensures { option_map said_of result
        ≡ option_and_then (vote_heard (V.accepted keys.now) id.now shard decision) (vote_in (message_of m.entry)) }
{
    match vote_of(m) {
        Some(v) => heard_vote(keys, id, shard, decision, v),
        None => None,
    }
}

/// What a message answers to a question for words.
fn heard_words<'a, V: Verifier>(
    keys: &V,
    id: &[u8; 32],
    wanted: Wanted,
    m: MessageView<'a>,
) -> Option<Heard<'a>>
    ensures { option_map said_of result
        ≡ option_and_then (word_heard (V.accepted keys.now) id.now wanted.shard wanted.view wanted.decision
        wanted.agrees) (word_in (message_of m.entry)) }
{
    match word_of(m) {
        Some(m) => heard_word(keys, id, wanted, m),
        None => None,
    }
}

/// What a message answers.
fn heard_of<'a, V: Verifier>(
    keys: &V,
    id: &[u8; 32],
    q: Question,
    m: MessageView<'a>,
) -> Option<Heard<'a>>
    ensures { option_map said_of result ≡ hearing.heard (V.accepted keys.now) id.now q (message_of m.entry) }
{
    match q {
        Question::Votes { shard, decision } => heard_votes(keys, id, shard, decision, m),
        Question::Words {
            shard,
            view,
            decision,
            agrees,
        } => {
            let wanted = Wanted {
                shard,
                view,
                decision,
                agrees,
            };
            heard_words(keys, id, wanted, m)
        }
    }
}

/// What a frame answers.
fn heard_in<'a, V: Verifier>(
    keys: &V,
    cluster: &Cluster,
    id: &[u8; 32],
    q: Question,
    frame: &'a [u8],
) -> Option<Heard<'a>>
    ensures heard { option_map said_of result ≡ hearing.heard_in (V.accepted keys.now) cluster.now id.now q frame.now }
    ensures signed { IfSome result (λ h. IsSignature h.signature.now) }
{
    match check(frame, cluster) {
        Ok(m) => heard_of(keys, id, q, m),
        Err(_) => None,
    }
}

/// Whether one of these is of this replica.
fn is_of(words: &[ElectPart], replica: u8) -> bool
    ensures { result ≡ list_any (λ (w : ElectPart). replica == w.replica) words.now }
{
    words.iter().any(|word| replica == word.replica)
}

/// Appends what was heard of a replica, unless something was heard of it before; or memory is wanting.
fn join(alloc: Global, words: &mut Vec<ElectPart>, heard: Heard<'_>) -> Result<(), NoMemory>
    ensures { OnOk result
        (map word_value words.new.items ≡ joined (said_of heard.entry) (map word_value words.old.items)) }
{
    if is_of(words.as_slice(), heard.replica) {
        return Ok(());
    }
    words.push(ElectPart {
        replica: heard.replica,
        decision: heard.decision,
        signature: Bytes::copy_of(alloc, heard.signature)?,
    })?;
    Ok(())
}

/// Appends what a frame answers, if it does.
fn join_frame<V: Verifier>(
    alloc: Global,
    words: &mut Vec<ElectPart>,
    keys: &V,
    cluster: &Cluster,
    id: &[u8; 32],
    q: Question,
    frame: &[u8],
) -> Result<(), NoMemory>
    requires { AreSigned (map word_value words.old.items) }
    ensures joins { OnOk result (map word_value words.new.items
        ≡ joined_some (hearing.heard_in (V.accepted keys.now) cluster.now id.now q frame.now)
        (map word_value words.old.items)) }
    ensures signed { OnOk result (AreSigned (map word_value words.new.items)) }
{
    match heard_in(keys, cluster, id, q, frame) {
        Some(heard) => join(alloc, words, heard),
        None => Ok(()),
    }
}

/// The message at a place of a pool, from 0.
fn post_at(pool: &Pool, place: u64) -> Option<&Posted>
    requires { place < length pool.now.posts }
    ensures { option_map (λ p. p.now) result ≡ slice_get pool.now.posts place }
{
    let _ = pool.len();
    pool.at(place + 1)
}

/// Appends what the messages of a pool answer to a question, of each replica the first answer alone.
pub(crate) fn hear<V: Verifier>(
    alloc: Global,
    words: &mut Vec<ElectPart>,
    keys: &V,
    cluster: &Cluster,
    pool: &Pool,
    id: &[u8; 32],
    q: Question,
) -> Result<(), NoMemory>
    requires { AreSigned (map word_value words.old.items) }
    ensures hears { OnOk result (map word_value words.new.items
        ≡ joined_all (hearing.heard_of (V.accepted keys.now) cluster.now id.now q pool.now.posts)
        (map word_value words.old.items)) }
    ensures signed { OnOk result (AreSigned (map word_value words.new.items)) }
{
    for place in 0..pool.len() {
        match post_at(pool, place) {
            Some(post) => join_frame(alloc, words, keys, cluster, id, q, post.frame.as_slice())?,
            None => {}
        }
    }
    Ok(())
}

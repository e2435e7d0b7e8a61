//! Every signature of a frame.

ghost use Rattle.std.specs.Prelude.{◌≡◌, ◌∷◌, [], length};
ghost use Rattle.frame_views.specs.Fitting.{IsSpoken, IsKeyLength};
ghost use Rattle.frame_views.specs.Shown.{message_of, read_reply_of, voted_of, st2_of, log_reply_of, writeback_of};
ghost use Rattle.frame_views.specs.Shown.{invoke_of, elect_message_of, decide_of};
ghost use Rattle.frame_views.specs.Signed.{signed_in};
ghost use Rattle.frame_views.specs.Values as values;
ghost use Rattle.frame_views.specs.Walks.{signed_of, signed_left};

use super::item::{SignedItem, client, id_in, log, proposal, read_reply, vote, word};
use super::runs::{RepliesRun, Run, TalliesRun, WordsRun};
use super::walk::{Signatures, certified, proved};
use crate::frames::{
    DecideView, ElectView, InvokeView, LogReplyView, MessageView, ReadReplyView, St2View, VoteView,
    WritebackView,
};
use crate::items::{ElectItem, InvokeItem, VoteItem};

/// Every signature of the frame with its party and its words, nested ones too, in the order of the frame's bytes, and
/// no other. Takes no memory. A read reply's key has 1 to 64 bytes, as in each frame that `check` gives.
pub fn signatures<'a>(m: &MessageView<'a>) -> Signatures<'a>
    requires { IsSpoken (message_of m.now) }
    ensures { signed_left result ≡ signed_in (message_of m.now) }
{
    match m {
        MessageView::Read(_) => nothing(),
        MessageView::ReadReply(m) => of_read_reply(m),
        MessageView::St1(m) => alone(client(m.transaction, m.signature)),
        MessageView::Vote(m) => of_vote(m),
        MessageView::St2(m) => of_st2(m),
        MessageView::LogReply(m) => of_log_reply(m),
        MessageView::Writeback(m) => of_writeback(m),
        MessageView::Recover(m) => alone(client(m.transaction, m.signature)),
        MessageView::Invoke(m) => of_invoke(m),
        MessageView::Elect(m) => of_elect(m),
        MessageView::Decide(m) => of_decide(m),
    }
}

fn nothing<'a>() -> Signatures<'a>
    ensures { signed_left result ≡ [] }
{
    Signatures {
        front: None,
        run: Run::Nothing,
        back: None,
    }
}

fn alone<'a>(item: SignedItem<'a>) -> Signatures<'a>
    ensures { signed_left result ≡ signed_of item.entry ∷ [] }
{
    Signatures {
        front: Some(item),
        run: Run::Nothing,
        back: None,
    }
}

/// The signatures of the committed part, and then the replica's.
fn of_read_reply<'a>(m: &ReadReplyView<'a>) -> Signatures<'a>
    requires { IsKeyLength (length m.now.key.now) }
    ensures { signed_left result ≡ signed_in (values.ReadReply (read_reply_of m.now)) }
{
    let (front, run) = proved(m.committed);
    Signatures {
        front,
        run,
        back: Some(read_reply(m)),
    }
}

/// The signatures of the proof, and then the vote's.
fn of_vote<'a>(m: &VoteView<'a>) -> Signatures<'a>
    ensures { signed_left result ≡ signed_in (values.Vote (voted_of m.now)) }
{
    let (front, run) = proved(m.proof);
    let own = VoteItem {
        replica: m.replica,
        signature: m.signature,
    };
    Signatures {
        front,
        run,
        back: Some(vote(m.shard, &m.id, m.decision, own)),
    }
}

/// The client's signature, and then the votes'.
fn of_st2<'a>(m: &St2View<'a>) -> Signatures<'a>
    ensures { signed_left result ≡ signed_in (values.St2 (st2_of m.now)) }
{
    let id = id_in(m.transaction);
    Signatures {
        front: Some(client(m.transaction, m.signature)),
        run: Run::Tallies(TalliesRun::of_tallies(id, m.decision, m.tallies)),
        back: None,
    }
}

/// The replica's signature.
fn of_log_reply<'a>(m: &LogReplyView<'a>) -> Signatures<'a>
    ensures { signed_left result ≡ signed_in (values.LogReply (log_reply_of m.now)) }
{
    let own = InvokeItem {
        replica: m.replica,
        decision: m.decision,
        decided: m.decided,
        current: m.current,
        signature: m.signature,
    };
    alone(log(m.shard, &m.id, own))
}

/// The signatures of the certificate.
fn of_writeback<'a>(m: &WritebackView<'a>) -> Signatures<'a>
    ensures { signed_left result ≡ signed_in (values.Writeback (writeback_of m.now)) }
{
    let (front, run) = certified(m.certificate);
    Signatures {
        front,
        run,
        back: None,
    }
}

/// The signatures of the log replies.
fn of_invoke<'a>(m: &InvokeView<'a>) -> Signatures<'a>
    ensures { signed_left result ≡ signed_in (values.Invoke (invoke_of m.now)) }
{
    Signatures {
        front: None,
        run: Run::Replies(RepliesRun::of(m.id, m.shard, m.replies)),
        back: None,
    }
}

/// The replica's signature of its word.
fn of_elect<'a>(m: &ElectView<'a>) -> Signatures<'a>
    ensures { signed_left result ≡ signed_in (values.Elect (elect_message_of m.now)) }
{
    let own = ElectItem {
        replica: m.replica,
        decision: m.decision,
        signature: m.signature,
    };
    alone(word(m.shard, &id_in(m.transaction), m.view, own))
}

/// The signatures of the election words, and then the leader's.
fn of_decide<'a>(m: &DecideView<'a>) -> Signatures<'a>
    ensures { signed_left result ≡ signed_in (values.Decide (decide_of m.now)) }
{
    let id = id_in(m.transaction);
    let own = ElectItem {
        replica: m.replica,
        decision: m.decision,
        signature: m.signature,
    };
    Signatures {
        front: None,
        run: Run::Words(WordsRun::of(id, m.shard, m.view, m.words)),
        back: Some(proposal(m.shard, &id, m.view, own)),
    }
}

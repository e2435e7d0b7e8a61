//! The log replies that a pursuit keeps.

ghost use Rattle.std.specs.Prelude.{◌≡◌, ℕ, ◌<◌, ◌+◌, ◌≤◌, ◌^◌, ◌++◌, ◌∷◌, [], IfOk, OnOk, OnErr, filter_map, take};
ghost use Rattle.std.specs.Prelude.{length, nat_le, is_some, not};
ghost use Rattle.std.specs.Option.{option_copied};
ghost use Rattle.basil_types.specs.declared.party.Decision.{Decision};
ghost use Rattle.frame_views.specs.Shown.{log_reply_of};
ghost use Rattle.quorum_laws.specs.Numbers.{log_quorum, replicas};
ghost use Rattle.client_recover.specs.Counting.{all_replicas};
ghost use Rattle.client_recover.specs.declared.logs.Logs as declared;
ghost use Rattle.client_recover.specs.Kept.{as_part, as_latest};
ghost use Rattle.client_recover.specs.Replies.{AreBelow, earliest_at, latest_at, put_back, HasPlace, HoldsLogs};
ghost use Rattle.client_recover.specs.Replies.{HoldsBefore};
ghost use Rattle.client_recover.specs.Replies.{LogReplies, IsBefore, SameLogs, NotesFirst, ForgetsFirst, NotesLatest};
ghost use Rattle.client_recover.specs.Replies.{RestoresLatest};
ghost use Rattle.client_recover.specs.Writable.{AreSound, IsSound, PutsBack};

use crate::earliest::Earliest;
use basil_types::bytes::Bytes;
use basil_types::cluster::Cluster;
use basil_types::list::List;
use basil_types::memory::NoMemory;
use basil_types::party::{Decision, is_commit};
use frame_values::owned::{InvokePart, LogPart};
use frame_views::frames::LogReplyView;
use indexmap::IndexMap;
use std::alloc::Global;

/// What counts of the log replies that were taken: for each decision and view in which it was decided the earliest of
/// each replica, the latest of each replica, and how many there were.
#[derive(Drop)]
pub struct Logs {
    earliest: Earliest,
    latest: IndexMap<u8, InvokePart>,
    count: u32,
}

/// What a replica's latest log reply was before the last one.
#[derive(Drop)]
pub enum Latest {
    /// The same.
    Kept,
    /// There was none.
    New,
    /// This one.
    Replaced(InvokePart),
}

/// What the last log reply changed.
#[derive(Drop)]
pub struct LastLog {
    decision: Decision,
    decided: u64,
    replica: u8,
    /// Whether it was its replica's first for the decision and the view.
    first: bool,
    latest: Latest,
}

/// A copy of what is kept of a log reply.
fn copy_of_part(alloc: Global, part: &LogPart) -> Result<LogPart, NoMemory>
    ensures { IfOk result (λ copy. copy ≡ part.now) }
{
    Ok(LogPart {
        replica: part.replica,
        current: part.current,
        signature: Bytes::copy_of(alloc, part.signature.as_slice())?,
    })
}

/// A copy of a latest log reply.
fn copy_of_latest(alloc: Global, part: &InvokePart) -> Result<InvokePart, NoMemory>
    ensures { IfOk result (λ copy. copy ≡ part.now) }
{
    Ok(InvokePart {
        replica: part.replica,
        decision: part.decision,
        decided: part.decided,
        current: part.current,
        signature: Bytes::copy_of(alloc, part.signature.as_slice())?,
    })
}

/// What is kept of a log reply as an earliest one.
fn part_of(alloc: Global, reply: &LogReplyView<'_>) -> Result<LogPart, NoMemory>
    ensures { IfOk result (λ part. part ≡ as_part (log_reply_of reply.now)) }
{
    Ok(LogPart {
        replica: reply.replica,
        current: reply.current,
        signature: Bytes::copy_of(alloc, reply.signature)?,
    })
}

/// What is kept of a log reply as a latest one.
fn latest_of(alloc: Global, reply: &LogReplyView<'_>) -> Result<InvokePart, NoMemory>
    ensures { IfOk result (λ part. part ≡ as_latest (log_reply_of reply.now)) }
{
    Ok(InvokePart {
        replica: reply.replica,
        decision: reply.decision,
        decided: reply.decided,
        current: reply.current,
        signature: Bytes::copy_of(alloc, reply.signature)?,
    })
}

impl Logs {
    /// No log reply. Takes no memory.
    pub(crate) fn new(alloc: Global) -> Logs
        ensures holds { HoldsLogs result [] }
        ensures sound { AreSound result }
        ensures below { (n : ℕ) → AreBelow n result }
        ensures count { result.count ≡ 0 }
    {
        Logs {
            earliest: Earliest::new(alloc),
            latest: IndexMap::new(alloc),
            count: 0,
        }
    }

    /// How many were taken.
    pub(crate) fn count(&self) -> u32
        ensures { result ≡ self.now.count }
    {
        self.count
    }

    /// The earliest of a replica for a decision in a view.
    fn earliest(&self, decision: Decision, decided: u64, replica: u8) -> Option<&LogPart>
        ensures { option_copied result ≡ earliest_at self.now decision decided replica }
    {
        self.earliest.get((is_commit(decision), decided), replica)
    }

    /// The latest of a replica.
    fn latest(&self, replica: u8) -> Option<&InvokePart>
        ensures { option_copied result ≡ latest_at self.now replica }
    {
        self.latest.get(&replica)
    }

    /// Keeps a log reply where it is its replica's first for its decision and view, and tells whether it is.
    fn note_first(&mut self, alloc: Global, reply: &LogReplyView<'_>) -> Result<bool, NoMemory>
        ensures noted { IfOk result (λ first. NotesFirst self.old self.new (log_reply_of reply.now) first) }
        ensures as_before { OnErr result (SameLogs self.old self.new) }
    {
        let logged = (is_commit(reply.decision), reply.decided);
        if self.earliest.get(logged, reply.replica).is_some() {
            return Ok(false);
        }
        let part = part_of(alloc, reply)?;
        self.earliest.add(logged, reply.replica, part)?;
        Ok(true)
    }

    /// Forgets a replica's first for a decision in a view.
    fn forget_first(&mut self, decision: Decision, decided: u64, replica: u8)
        ensures { ForgetsFirst self.old self.new decision decided replica }
    {
        self.earliest
            .forget((is_commit(decision), decided), replica);
    }

    /// Keeps a log reply where its replica has none with as great a current view, and tells what that one was.
    fn note_latest(&mut self, alloc: Global, reply: &LogReplyView<'_>) -> Result<Latest, NoMemory>
        ensures noted { IfOk result (λ latest. NotesLatest self.old self.new (log_reply_of reply.now) latest) }
        ensures as_before { OnErr result (SameLogs self.old self.new) }
    {
        let newer = match self.latest(reply.replica) {
            Some(part) => part.current < reply.current,
            None => true,
        };
        if !newer {
            return Ok(Latest::Kept);
        }
        let part = latest_of(alloc, reply)?;
        match self.latest.insert(reply.replica, part)? {
            Some(before) => Ok(Latest::Replaced(before)),
            None => Ok(Latest::New),
        }
    }

    /// Takes a log reply, and tells what it changed.
    pub(crate) fn add(
        &mut self,
        alloc: Global,
        reply: &LogReplyView<'_>,
    ) -> Result<LastLog, NoMemory>
        requires { self.old.count + 1 < 2 ^ 32 }
        ensures holds { OnOk result ((replies : LogReplies) → HoldsLogs self.old replies →
            HoldsLogs self.new (replies ++ log_reply_of reply.now ∷ [])) }
        ensures back { IfOk result (λ last. IsBefore last self.old self.new) }
        ensures sound { OnOk result (IsSound (log_reply_of reply.now) → AreSound self.old → AreSound self.new) }
        ensures below { OnOk result ((n : ℕ) → (log_reply_of reply.now).replica < n → AreBelow n self.old
            → AreBelow n self.new) }
        ensures sound_back { IfOk result (λ last. AreSound self.old → PutsBack last.replica last.latest) }
        ensures as_before { OnErr result (SameLogs self.old self.new) }
        ensures count { OnOk result (self.new.count ≡ self.old.count + 1) }
    {
        let first = self.note_first(alloc, reply)?;
        match self.note_latest(alloc, reply) {
            Ok(latest) => {
                self.count += 1;
                Ok(LastLog {
                    decision: reply.decision,
                    decided: reply.decided,
                    replica: reply.replica,
                    first,
                    latest,
                })
            }
            Err(refused) => {
                if first {
                    self.forget_first(reply.decision, reply.decided, reply.replica);
                }
                Err(refused)
            }
        }
    }

    /// Takes the last log reply back. Takes no memory.
    pub(crate) fn take_back(&mut self, last: LastLog)
        ensures holds { (replies : LogReplies) → HoldsBefore last self.old replies →
            HoldsLogs self.new replies }
        ensures same { (before : declared.Logs) → IsBefore last before self.old → SameLogs before self.new }
        ensures sound { AreSound self.old → PutsBack last.replica last.latest → AreSound self.new }
        ensures below { (n : ℕ) → AreBelow n self.old → AreBelow n self.new }
        ensures count { self.new.count ≤ self.old.count }
    {
        if last.first {
            self.forget_first(last.decision, last.decided, last.replica);
        }
        self.restore_latest(last.replica, last.latest);
        self.count = self.count.saturating_sub(1);
    }

    /// Makes a replica's latest what it was.
    fn restore_latest(&mut self, replica: u8, before: Latest)
        ensures restores { RestoresLatest self.old self.new replica before }
        ensures sound { AreSound self.old → PutsBack replica before → AreSound self.new }
    {
        match before {
            Latest::Kept => {}
            Latest::New => {
                let _ = self.latest.swap_remove(&replica);
            }
            Latest::Replaced(part) => {
                // Only a new key could be refused, and the replica has a place.
                let _ = self.latest.insert(replica, part);
            }
        }
    }

    /// Whether a log quorum of replicas has one for this decision in this view.
    pub(crate) fn has_quorum(&self, cluster: &Cluster, decision: Decision, decided: u64) -> bool
        requires { AreBelow (replicas cluster.now.f) self.now }
        ensures { result ≡ nat_le (log_quorum cluster.now.f)
            (length (filter_map (earliest_at self.now decision decided) (all_replicas cluster.now))) }
    {
        let _ = cluster.n();
        u32::from(cluster.log_quorum()) <= self.earliest.number((is_commit(decision), decided))
    }

    /// The earliest ones of the lowest replicas, a log quorum or as many as there are.
    pub(crate) fn quorum(
        &self,
        alloc: Global,
        cluster: &Cluster,
        decision: Decision,
        decided: u64,
    ) -> Result<List<LogPart>, NoMemory>
        ensures { IfOk result (λ logs. logs.items ≡ take (log_quorum cluster.now.f)
            (filter_map (earliest_at self.now decision decided) (all_replicas cluster.now))) }
    {
        let needed = usize::from(cluster.log_quorum());
        let mut parts = Vec::new(alloc);
        for replica in 0..cluster.n() {
            if parts.len() < needed {
                match self.earliest(decision, decided, replica) {
                    Some(part) => parts.push(copy_of_part(alloc, part)?)?,
                    None => {}
                }
            }
        }
        Ok(List::from_vec(parts))
    }

    /// The latest of each replica, ascending.
    pub(crate) fn latest_of_each(
        &self,
        alloc: Global,
        cluster: &Cluster,
    ) -> Result<List<InvokePart>, NoMemory>
        ensures { IfOk result (λ replies.
            replies.items ≡ filter_map (latest_at self.now) (all_replicas cluster.now)) }
    {
        let mut parts = Vec::new(alloc);
        for replica in 0..cluster.n() {
            match self.latest(replica) {
                Some(part) => parts.push(copy_of_latest(alloc, part)?)?,
                None => {}
            }
        }
        Ok(List::from_vec(parts))
    }
}

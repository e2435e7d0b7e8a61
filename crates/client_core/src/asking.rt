//! A read that a client asked for, and its choice.

ghost use Rattle.std.specs.Prelude.{◌≡◌, ◌≤◌, ◌<◌, ◌++◌, ◌∷◌, [], ◌==◌, ℕ, IfOk};
ghost use Rattle.std.specs.Prelude.{Option, OnOk, option_map, length, nat_le};
ghost use Rattle.std.specs.List.{list_any};
ghost use Rattle.client_core.specs.Clients.{AskedRead};
ghost use Rattle.client_core.specs.Kept.{carried_of_two, kept_read, shown_read, KeptRead};
ghost use Rattle.client_core.specs.Keeping as keeping;
ghost use Rattle.client_core.specs.Keeping.{HasReplyRoom, told_state};
ghost use Rattle.client_core.specs.Slots as slots;

use crate::replies::{Carried, KeptReply};
use crate::state::ReadState;
use basil_types::bytes::Bytes;
use basil_types::cluster::Cluster;
use basil_types::list::List;
use basil_types::memory::NoMemory;
use basil_types::transaction::parts::{ReadPart, WritePart};
use basil_types::version::Version;
use client_reads::{Choice, ReplyVersions, choose};
use std::alloc::Global;

/// A key that was asked for, with what is kept of the replies.
#[derive(Drop)]
pub struct Asking {
    pub key: Bytes,
    pub replied: List<u8>,
    pub versions: List<ReplyVersions>,
    pub carried: List<Carried>,
}

impl Asking {
    /// A key without replies, or memory is wanting.
    pub(crate) fn new(alloc: Global, key: &[u8]) -> Result<Asking, NoMemory>
        ensures { IfOk result (λ a. shown_read a ≡ kept_read (record { key = key.now; replies = [] })) }
    {
        let key = Bytes::copy_of(alloc, key)?;
        Ok(Asking {
            key,
            replied: List::new(alloc),
            versions: List::new(alloc),
            carried: List::new(alloc),
        })
    }

    /// Whether there are enough replies for the choice.
    pub(crate) fn is_chosen(&self, cluster: &Cluster) -> bool
        ensures { result ≡ nat_le cluster.now.reads (length self.now.versions.items) }
    {
        usize::from(cluster.reads) <= self.versions.as_slice().len()
    }

    /// The choice among the replies.
    pub(crate) fn choice(&self, cluster: &Cluster) -> Choice
        ensures { result ≡ keeping.choice_kept cluster.now (shown_read self.now) }
    {
        choose(cluster, self.versions.as_slice())
    }

    /// The read of the transaction, or memory is wanting.
    pub(crate) fn part(&self, alloc: Global, cluster: &Cluster) -> Result<ReadPart, NoMemory>
        ensures { IfOk result (λ p. p ≡ keeping.part_kept cluster.now (shown_read self.now)) }
    {
        let choice = self.choice(cluster);
        let key = Bytes::copy_of(alloc, self.key.as_slice())?;
        Ok(ReadPart {
            key,
            version: choice.version,
            dependency: choice.dependency,
        })
    }

    /// Whether this replica replied.
    pub(crate) fn has_reply_of(&self, replica: u8) -> bool
        ensures { result ≡ list_any (λ (r : ℕ). r == replica) self.now.replied.items }
    {
        self.replied.as_slice().contains(&replica)
    }

    /// The first transaction of this version that was carried.
    fn carrier(&self, version: &Version) -> Option<&Carried>
        ensures { option_map (λ c. c.now) result ≡ keeping.carrier_kept version.now (shown_read self.now) }
    {
        self.carried
            .as_slice()
            .iter()
            .find(|c| c.version.is_same(version))
    }

    /// What it tells.
    pub(crate) fn state(&self, cluster: &Cluster) -> ReadState<'_>
        ensures { told_state result ≡ keeping.state_kept cluster.now (shown_read self.now) }
    {
        if !self.is_chosen(cluster) {
            return ReadState::Pending;
        }
        let version = self.choice(cluster).version;
        if version.is_same(&Version::genesis()) {
            return ReadState::Absent;
        }
        match self.carrier(&version) {
            Some(carried) => found(version, &carried.write),
            None => ReadState::Absent,
        }
    }

    /// Makes room for one more reply, or finds memory wanting. Either way it keeps what it kept.
    pub(crate) fn make_room(&mut self) -> Result<(), NoMemory>
        ensures kept { shown_read self.new ≡ shown_read self.old }
        ensures room { OnOk result (HasReplyRoom self.new) }
    {
        self.replied.room_for(1)?;
        self.versions.room_for(1)?;
        self.carried.room_for(2)
    }

    /// Keeps one more reply. Takes no memory.
    pub(crate) fn add(&mut self, reply: KeptReply)
        requires { HasReplyRoom self.old }
        ensures { shown_read self.new ≡ keeping.with_kept (shown_read self.old) reply }
    {
        self.replied.push(reply.replica);
        self.versions.push(reply.versions);
        add_carried(&mut self.carried, reply.committed, reply.prepared);
    }
}

/// Appends the transactions that a reply carried.
fn add_carried(carried: &mut List<Carried>, committed: Option<Carried>, prepared: Option<Carried>)
    requires { 2 ≤ carried.old.room }
    ensures { carried.new.items ≡ carried.old.items ++ carried_of_two committed prepared }
{
    match committed {
        Some(c) => {
            carried.push(c);
            push_one(carried, prepared);
        }
        None => push_one(carried, prepared),
    }
}

/// Appends one, if there is one.
fn push_one(carried: &mut List<Carried>, one: Option<Carried>)
    requires { 1 ≤ carried.old.room }
    ensures { carried.new.items ≡ carried.old.items ++ carried_of_two None one }
{
    if let Some(c) = one {
        carried.push(c);
    }
}

/// What was found in a version.
fn found(writer: Version, write: &Option<WritePart>) -> ReadState<'_>
    ensures { told_state result ≡ slots.found_by writer write.now }
{
    match write {
        Some(w) => {
            if w.deletes {
                ReadState::Deleted { writer }
            } else {
                ReadState::Found {
                    writer,
                    value: w.value.as_slice(),
                }
            }
        }
        None => ReadState::Absent,
    }
}

//! A world: a run of a cluster, event by event.

ghost use Rattle.std.specs.Prelude.{◌≡◌, ◌<◌, ◌^◌, false, IfOk, length, option_map};
ghost use Rattle.basil_types.specs.Setting.{IsSetting};
ghost use Rattle.basil_types.specs.Shown.{transaction_of};
ghost use Rattle.basil_types.specs.Texts.{IsBytes};
ghost use Rattle.client_core.specs.Keeping.{told_state};
ghost use Rattle.cluster_run.specs.Events.{happens};
ghost use Rattle.cluster_run.specs.Safety.{IsEvent};
ghost use Rattle.cluster_run.specs.States.{Setup, State, start};
ghost use Rattle.cluster_run.specs.States as states;
ghost use Rattle.cluster_run.specs.Telling as telling;
ghost use Rattle.cluster_world.specs.Building.{setup_of};
ghost use Rattle.cluster_world.specs.Comes.{Comes};
ghost use Rattle.cluster_world.specs.EventValues.{event_value};
ghost use Rattle.cluster_world.specs.Shows.{AreMembers, Shows};
ghost use Rattle.cluster_world.specs.Telling.{told_mail};
ghost use Rattle.cluster_world.specs.Worlds.{Ran, RanSafely, is_end};
ghost use Rattle.premise_watch.specs.Parties.{AreCounted};

use crate::building::{Beginning, begin_engine};
use crate::engine::Engine;
use crate::event::Event;
use crate::fault::StepFault;
use basil_types::cluster::Cluster;
use basil_types::memory::NoMemory;
use basil_types::party::{Decision, Party};
use basil_types::transaction::{Transaction, TransactionView};
use client_core::ReadState;
use cluster_run::fault::WorldFault;
use cluster_run::safety::runs_are_safe;
use premise_watch::faulty::Faulty;
use premise_watch::laws::counted_are_few;
use run_kit::Kit;
use std::alloc::Global;

/// A run of a cluster: its replicas and clients, the messages between them, and what was seen of them. Contracts see
/// the states of a run that it shows.
///
/// A world that hasn't ended is a run without a breach: its type carries the run, and `is_safe` says that it is safe.
#[derive(Drop)]
pub struct World<K: Kit> {
    kit: K,
    pub(crate) core: Engine<K::Keys, K::Pen>,
    ended: bool,
    ghost ran: { ended ≡ false → ∥ Ran core (K.value kit) ∥₁ },
}

/// Whether what an event comes to ends a world: a breach does, and want of memory.
fn ends(done: &Result<(), StepFault>) -> bool
    ensures { result ≡ is_end done.now }
{
    match done {
        Err(StepFault::World(WorldFault::Broken(_))) => true,
        Err(StepFault::NoMemory) => true,
        _ => false,
    }
}

/// A cluster is in range.
fn is_setting(cluster: &Cluster)
    ensures { IsSetting cluster.now }
{
    let _ = cluster.n();
}

/// These are bytes.
fn are_bytes(bytes: &[u8])
    ensures { IsBytes bytes.now }
{}

/// A time is a number of 64 bits.
fn is_time(time: u64)
    ensures { time < 2 ^ 64 }
{}

/// An event's time is a number of 64 bits, and its key and value are bytes.
fn is_sized(event: &Event<'_>)
    ensures { IsEvent (event_value event.now) }
{
    match event {
        Event::Begin { time, .. } => is_time(*time),
        Event::Read { key, .. } => are_bytes(key),
        Event::Write { key, value, .. } => {
            are_bytes(key);
            are_bytes(value);
        }
        Event::Delete { key, .. } => are_bytes(key),
        _ => {}
    }
}

impl<K: Kit> World<K> {
    /// The world before its first event. The faulty parties are of the cluster, at most f replicas of each shard.
    pub fn new(
        alloc: Global,
        beginning: Beginning,
        faulty: Faulty,
        kit: K,
    ) -> Result<World<K>, NoMemory>
    where
        K: Drop,
        requires members { AreMembers beginning.cluster faulty }
        requires few { AreCounted beginning.cluster.f faulty }
        ensures shows { IfOk result (λ world. let s = setup_of beginning faulty (K.value kit) in Shows s world.core
            (start s)) }
        ensures kit { IfOk result (λ world. world.kit ≡ kit) }
        ensures going { IfOk result (λ world. world.ended ≡ false) }
    {
        counted_are_few();
        is_setting(&beginning.cluster);
        let core = begin_engine(alloc, beginning, faulty, &kit)?;
        Ok(World {
            kit,
            core,
            ended: false,
        })
    }

    /// An event happens, as the rules of a run say. A breach, and want of memory, end the world; every other refusal
    /// leaves it as before.
    pub fn step(&mut self, event: Event<'_>) -> Result<(), StepFault>
        requires { self.old.ended ≡ false }
        ensures happens { (s : Setup) (st : State) → Shows s self.old.core st →
            Comes s st (happens s (event_value event.entry) st) self.new.core result }
        ensures kit { self.new.kit ≡ self.old.kit }
        ensures ended { self.new.ended ≡ is_end result }
    {
        is_sized(&event);
        let done = self.core.step(event);
        self.ended = ends(&done);
        done
    }

    /// Whether a breach, or want of memory, has ended it.
    pub fn ended(&self) -> bool
        ensures { result ≡ self.now.ended }
    {
        self.ended
    }

    /// A world that hasn't ended is safe: it shows what a run comes to in which no transaction has both certificates,
    /// and each committed transaction of a correct client read, per key, what the latest committed writer before it
    /// wrote.
    pub fn is_safe(&self)
        requires { self.now.ended ≡ false }
        ensures { ∥ RanSafely self.now.core (K.value self.now.kit) ∥₁ }
    {
        runs_are_safe();
    }

    /// How many messages have entered the pool.
    pub fn messages(&self) -> u64
        ensures { (s : Setup) (st : State) → Shows s self.now.core st → result ≡ length st.pool }
    {
        self.core.messages()
    }

    /// The least number, of this and later ones, of a message that is neither delivered nor lost.
    pub fn undelivered(&self, from: u64) -> Option<u64>
        ensures { (s : Setup) (st : State) → Shows s self.now.core st → result ≡ telling.undelivered st from }
    {
        self.core.undelivered(from)
    }

    /// The sender, the receiver and the frame of a message. Messages are numbered from 1.
    pub fn frame(&self, message: u64) -> Option<(Party, Party, &[u8])>
        ensures { (s : Setup) (st : State) → Shows s self.now.core st →
            option_map told_mail result ≡ telling.mail_at st message }
    {
        self.core.frame(message)
    }

    /// What the clock of a replica of the cluster shows.
    pub fn moment(&self, shard: u8, index: u8) -> Option<u64>
        ensures { (s : Setup) (st : State) → Shows s self.now.core st → result ≡ telling.moment_at st shard index }
    {
        self.core.moment(shard, index)
    }

    /// Where the keyrings and the pens of its parties come from.
    pub fn kit(&self) -> &K
        ensures { result.now ≡ self.now.kit }
    {
        &self.kit
    }

    /// The transaction of a number, from 0 on, once it is formed.
    pub fn transaction(&self, tx: u32) -> Option<TransactionView<'_>>
        ensures { (s : Setup) (st : State) → Shows s self.now.core st →
            option_map transaction_of result ≡ telling.transaction_at st tx }
    {
        self.core.transaction(tx)
    }

    /// What a key gives to a begun transaction of a correct client; of a faulty one nothing was read.
    pub fn value(&self, tx: u32, key: &[u8]) -> ReadState<'_>
        ensures { (s : Setup) (st : State) → Shows s self.now.core st →
            told_state result ≡ telling.value_at s st tx key.now }
    {
        self.core.value(tx, key)
    }

    /// The decision on the transaction with this id that the first certificate proved, of those that were seen.
    pub fn decision_of(&self, id: &[u8; 32]) -> Option<Decision>
        ensures { (s : Setup) (st : State) → Shows s self.now.core st → result ≡ telling.decision_at st id.now }
    {
        self.core.decision_of(id)
    }

    /// The transactions that a certificate which was seen proves to be committed, each once, ascending by version.
    pub fn committed(&self) -> Result<Vec<Transaction>, NoMemory>
        ensures { IfOk result (λ ts. (s : Setup) (st : State) → Shows s self.now.core st →
            ts.items ≡ telling.committed_by_version st) }
    {
        self.core.committed()
    }

    /// The message that a node refused last.
    pub fn last_refused(&self) -> Option<u64>
        ensures { (s : Setup) (st : State) → Shows s self.now.core st → result ≡ st.refused }
    {
        self.core.last_refused()
    }

    /// Whether a party is one of the faulty ones.
    pub fn is_faulty(&self, party: Party) -> bool
        ensures { (s : Setup) (st : State) → Shows s self.now.core st → result ≡ states.is_faulty s party }
    {
        self.core.is_faulty(party)
    }
}

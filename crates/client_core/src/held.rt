//! The transactions that a client holds.

ghost use Rattle.std.specs.Prelude.{◌≡◌, ◌≤◌, Option, length, option_map};
ghost use Rattle.client_core.specs.Clusters.{AreOf};
ghost use Rattle.client_core.specs.Finding.{AreIds};
ghost use Rattle.client_core.specs.Keeping.{told_state};
ghost use Rattle.client_core.specs.Slots as slots;
ghost use Rattle.client_core.specs.Slots.{most_slots};

use crate::asking::Asking;
use crate::ordered::{put_in, put_reserved};
use crate::state::ReadState;
use basil_types::bytes::Bytes;
use basil_types::cluster::Cluster;
use basil_types::memory::NoMemory;
use basil_types::transaction::Transaction;
use basil_types::transaction::parts::WritePart;
use client_recover::Pursuit;
use client_steps::fault::CallFault;
use std::alloc::Global;

/// A formed transaction: its pursuit, whether its second stage has started, and whether the last frame that the pursuit
/// took is held back: it is planned, and a client shows the pursuit without it.
#[derive(Drop)]
pub struct Formed {
    pub pursuit: Pursuit,
    pub second: bool,
    pub held_back: bool,
}

/// A held transaction, begun or recovered. Its reads and its writes ascend by key.
#[derive(Drop)]
pub struct Slot {
    pub begun: bool,
    pub time: u64,
    pub reads: Vec<Asking>,
    pub writes: Vec<WritePart>,
    pub formed: Option<Formed>,
}

/// What a client holds: the last time that it began, its transactions by slot, and the cluster in which it pursues
/// them.
#[derive(Drop)]
pub struct Held {
    pub cluster: Cluster,
    pub last: u64,
    pub slots: Vec<Slot>,
    /// The ids of those that are formed, by slot, side by side for the search of one.
    pub(crate) ids: Vec<Option<[u8; 32]>>,
    ghost clusters: { AreOf cluster slots.items },
    ghost most: { length slots.items ≤ most_slots },
    ghost named: { AreIds ids.items slots.items },
}

/// The most slots that a client holds.
pub(crate) const MOST_SLOTS: usize = 4_294_967_295;

impl Slot {
    ghost use Rattle.std.specs.Prelude.{◌==◌, List, None, [], find, true};
    ghost use Rattle.std.specs.List.{list_any};
    ghost use Rattle.std.specs.Str.{bytes_eq};
    ghost use Rattle.client_core.specs.Calls as calls;
    ghost use Rattle.client_core.specs.Clients.{AskedRead};
    ghost use Rattle.client_core.specs.Showing.{KeepsReads, slot_value};
    ghost use Rattle.client_recover.specs.Taken.{PursuitValue};

    /// A transaction that begins.
    fn begun(alloc: Global, time: u64) -> Slot
        ensures begun { result.begun ≡ true }
        ensures value { slot_value result [] None ≡ calls.begun_slot time }
        ensures reads { result.reads.items ≡ [] }
        ensures formed { result.formed ≡ None }
    {
        Slot {
            begun: true,
            time,
            reads: Vec::new(alloc),
            writes: Vec::new(alloc),
            formed: None,
        }
    }

    /// Whether it wrote or deleted this key.
    pub(crate) fn is_written(&self, key: &[u8]) -> bool
        ensures { result ≡ list_any (λ (w : WritePart). bytes_eq w.key key.now) self.now.writes.items }
    {
        self.writes.iter().any(|w| w.key.as_slice() == key)
    }

    /// Its write to this key.
    fn write_to(&self, key: &[u8]) -> Option<&WritePart>
        ensures { option_map (λ w. w.now) result ≡ slots.write_in key.now self.now.writes.items }
    {
        self.writes.iter().find(|w| w.key.as_slice() == key)
    }

    /// Its read of this key.
    pub(crate) fn asked(&self, key: &[u8]) -> Option<&Asking>
        ensures { option_map (λ a. a.now) result ≡ find (λ (a : Asking). bytes_eq a.key key.now) self.now.reads.items }
    {
        self.reads.iter().find(|a| a.key.as_slice() == key)
    }

    /// What a key gives to it.
    pub(crate) fn value(&self, cluster: &Cluster, key: &[u8]) -> ReadState<'_>
        ensures { (reads : List AskedRead) (p : Option PursuitValue) → KeepsReads self.now.reads.items reads →
            told_state result ≡ slots.value cluster.now (slot_value self.now reads p) key.now }
    {
        match self.asked(key) {
            Some(asked) => asked.state(cluster),
            None => own(self.write_to(key)),
        }
    }
}

impl Slot {
    ghost use Rattle.std.specs.Prelude.{IfSome};
    ghost use Rattle.certificates.specs.Deciding.{HasGoodForm};
    ghost use Rattle.frame_views.specs.Fitting.{IsSignature};
    ghost use Rattle.client_core.specs.Forming.{shown_signed, started};
    ghost use Rattle.client_core.specs.Showing.{ShowsFormed};
    ghost use Rattle.client_recover.specs.Pursuits.{signed_part};
    ghost use Rattle.client_recover.specs.Taken.{PursuitValue};

    /// The second stage starts, if the transaction is formed.
    fn start(&mut self)
        ensures { self.new ≡ record self.old { formed = option_map started self.old.formed } }
    {
        match &mut self.formed {
            Some(formed) => formed.second = true,
            None => {}
        }
    }

    /// The formed transaction and its client's signature.
    pub(crate) fn formed_parts(&self) -> Option<(&Transaction, &[u8])>
        ensures parts { (p : Option PursuitValue) → ShowsFormed self.now.formed p →
            option_map shown_signed result ≡ option_map signed_part p }
        ensures fits { IfSome result (λ x. IsSignature x.1.now) }
        ensures form { IfSome result (λ x. HasGoodForm x.0.now) }
    {
        match &self.formed {
            Some(formed) => {
                let transaction = formed.pursuit.transaction();
                let signature = formed.pursuit.signature();
                Some((transaction, signature))
            }
            None => None,
        }
    }
}

/// What the transaction wrote itself.
fn own(write: Option<&WritePart>) -> ReadState<'_>
    ensures { told_state result ≡ slots.own_state (option_map (λ w. w.now) write.entry) }
{
    match write {
        Some(w) => {
            if w.deletes {
                ReadState::OwnDeleted
            } else {
                ReadState::Own {
                    value: w.value.as_slice(),
                }
            }
        }
        None => ReadState::NotRead,
    }
}

impl Held {
    ghost use Rattle.std.specs.Prelude.{IfOk, OnErr, OnOk};
    ghost use Rattle.client_core.specs.Calls.{begin_done, call_begin};
    ghost use Rattle.client_core.specs.Clients.{ClientValue, empty_client};
    ghost use Rattle.client_core.specs.Showing.{Answers, SameHeld, ShowsHeld};
    ghost use Rattle.client_core.specs.Works.{HasSlotRoom};
    ghost use Rattle.node_steps.specs.Pens.{PenValue};

    /// How many transactions it has.
    pub(crate) fn count(&self) -> u32
        ensures { result ≡ length self.now.slots.items }
    {
        self.slots.len() as u32
    }

    /// Nothing is held.
    pub(crate) fn new(alloc: Global, cluster: Cluster) -> Held
        ensures shown { (pen : PenValue) → ShowsHeld result (empty_client pen) }
        ensures cluster { result.cluster ≡ cluster }
    {
        Held {
            cluster,
            last: 0,
            slots: Vec::new(alloc),
            ids: Vec::new(alloc),
        }
    }

    /// Begins a transaction of this time.
    pub(crate) fn begin(&mut self, alloc: Global, time: u64) -> Result<u32, CallFault>
        ensures answer { (v : ClientValue) → ShowsHeld self.old v →
            Answers result (call_begin v time) (begin_done v time) }
        ensures shown { (v : ClientValue) → ShowsHeld self.old v →
            OnOk result (ShowsHeld self.new (begin_done v time).client) }
        ensures slot { (v : ClientValue) → ShowsHeld self.old v → IfOk result (λ slot. slot ≡ length v.slots) }
        ensures as_before { OnErr result (SameHeld self.old self.new) }
        ensures cluster { self.new.cluster ≡ self.old.cluster }
    {
        if time <= self.last {
            return Err(CallFault::TimeNotAbove(self.last));
        }
        let slot = self.room_for_slot()?;
        self.slots.push_reserved(Slot::begun(alloc, time));
        self.ids.push_reserved(None);
        self.last = time;
        Ok(slot)
    }

    /// Makes room for one more slot, and tells which that is; or finds memory wanting.
    pub(crate) fn room_for_slot(&mut self) -> Result<u32, NoMemory>
        ensures same { SameHeld self.old self.new }
        ensures room { OnOk result (HasSlotRoom self.new) }
        ensures slot { IfOk result (λ slot. slot ≡ length self.old.slots.items) }
    {
        let place = self.slots.len();
        if place >= MOST_SLOTS {
            return Err(NoMemory);
        }
        self.slots.reserve(1)?;
        self.ids.reserve(1)?;
        Ok(place as u32)
    }
}

impl Held {
    ghost use Rattle.std.specs.Option.{ForSome};
    ghost use Rattle.std.specs.Prelude.{◌<◌, OnErr, OnOk, [], slice_get};
    ghost use Rattle.certificates.specs.Deciding.{HasGoodForm};
    ghost use Rattle.client_core.specs.Calls as calls;
    ghost use Rattle.client_core.specs.Clients.{ClientValue};
    ghost use Rattle.client_core.specs.Clusters.{IsOf};
    ghost use Rattle.client_core.specs.Kept.{kept_read, shown_read};
    ghost use Rattle.client_core.specs.Showing.{ShowsHeld};
    ghost use Rattle.client_core.specs.Works.{Adds, Changes, HasReadRoom, HasSlotRoom, Written};
    ghost use Rattle.client_core.specs.Works.{asks, pursues, starts, writes};
    ghost use Rattle.frame_views.specs.Fitting.{IsSignature};

    /// Makes room for one more read, or finds memory wanting. Either way it shows what it showed.
    pub(crate) fn room_for_read(&mut self, slot: usize) -> Result<(), NoMemory>
        requires { slot < length self.old.slots.items }
        ensures shown { (v : ClientValue) → ShowsHeld self.old v → ShowsHeld self.new v }
        ensures room { OnOk result (ForSome (slice_get self.new.slots.items slot) HasReadRoom) }
        ensures count { length self.new.slots.items ≡ length self.old.slots.items }
        ensures cluster { self.new.cluster ≡ self.old.cluster }
    {
        let slot = &mut self.slots[slot];
        slot.reads.reserve(1)?;
        Ok(())
    }

    /// Asks for a key. Takes no memory.
    pub(crate) fn ask(&mut self, slot: usize, asked: Asking)
        requires held { slot < length self.old.slots.items }
        requires room { ForSome (slice_get self.old.slots.items slot) HasReadRoom }
        requires none { shown_read asked ≡ kept_read (record { key = asked.key; replies = [] }) }
        ensures shown { (v after : ClientValue) → ShowsHeld self.old v → Changes v slot (asks asked) after →
            ShowsHeld self.new after }
        ensures cluster { self.new.cluster ≡ self.old.cluster }
    {
        let slot = &mut self.slots[slot];
        put_reserved(&mut slot.reads, asked);
    }

    /// Writes or deletes a key, or refuses to.
    pub(crate) fn write(
        &mut self,
        alloc: Global,
        slot: usize,
        key: &[u8],
        value: &[u8],
        deletes: bool,
    ) -> Result<(), CallFault>
        requires { slot < length self.old.slots.items }
        ensures answer { (v : ClientValue) → ShowsHeld self.old v → Written self.new v
            (calls.call_write v slot (record { key = key.now; value = value.now; deletes = deletes })) result }
        ensures as_before { (v : ClientValue) → ShowsHeld self.old v → OnErr result (ShowsHeld self.new v) }
        ensures count { length self.new.slots.items ≡ length self.old.slots.items }
        ensures cluster { self.new.cluster ≡ self.old.cluster }
    {
        let place = &self.slots[slot];
        match place.write_fault(key, value, deletes) {
            Some(fault) => return Err(fault),
            None => {}
        }
        let key = Bytes::copy_of(alloc, key)?;
        let value = Bytes::copy_of(alloc, value)?;
        let write = WritePart {
            key,
            value,
            deletes,
        };
        self.put_write(slot, write)?;
        Ok(())
    }

    /// Keeps a write, or finds memory wanting and keeps what it kept.
    fn put_write(&mut self, slot: usize, write: WritePart) -> Result<(), NoMemory>
        requires { slot < length self.old.slots.items }
        ensures kept { (v after : ClientValue) → ShowsHeld self.old v →
            Changes v slot (writes write) after → OnOk result (ShowsHeld self.new after) }
        ensures as_before { (v : ClientValue) → ShowsHeld self.old v → OnErr result (ShowsHeld self.new v) }
        ensures count { length self.new.slots.items ≡ length self.old.slots.items }
        ensures cluster { self.new.cluster ≡ self.old.cluster }
    {
        let slot = &mut self.slots[slot];
        match put_in(&mut slot.writes, write) {
            Ok(()) => Ok(()),
            Err(refused) => Err(refused),
        }
    }

    /// Pursues a transaction of good form with its signature. Takes no memory.
    pub(crate) fn pursue(
        &mut self,
        alloc: Global,
        slot: usize,
        formed: Transaction,
        signature: Bytes,
    )
        requires held { slot < length self.old.slots.items }
        requires form { HasGoodForm formed }
        requires signature { IsSignature signature }
        ensures shown { (v after : ClientValue) → ShowsHeld self.old v →
            Changes v slot (pursues formed signature) after → ShowsHeld self.new after }
        ensures cluster { self.new.cluster ≡ self.old.cluster }
    {
        let pursuit = Pursuit::new(alloc, formed, signature, self.cluster);
        self.ids[slot] = Some(*pursuit.id());
        let slot = &mut self.slots[slot];
        slot.formed = Some(Formed {
            pursuit,
            second: false,
            held_back: false,
        });
    }

    /// The second stage of the transaction in a slot starts. Takes no memory.
    pub(crate) fn start(&mut self, slot: usize)
        requires { slot < length self.old.slots.items }
        ensures shown { (v after : ClientValue) → ShowsHeld self.old v → Changes v slot starts after →
            ShowsHeld self.new after }
        ensures cluster { self.new.cluster ≡ self.old.cluster }
    {
        let slot = &mut self.slots[slot];
        slot.start();
    }

    /// Holds one more transaction, for whose slot there is room. Takes no memory.
    pub(crate) fn hold(&mut self, recovered: Slot)
        requires room { HasSlotRoom self.old }
        requires cluster { IsOf self.old.cluster recovered.formed }
        ensures shown { (v after : ClientValue) → ShowsHeld self.old v → Adds v recovered after →
            ShowsHeld self.new after }
        ensures cluster { self.new.cluster ≡ self.old.cluster }
    {
        let id = recovered.id();
        self.slots.push_reserved(recovered);
        self.ids.push_reserved(id);
    }
}

//! A transaction that an event began, and what a faulty client adds to it.

ghost use Rattle.std.specs.Prelude.{◌≡◌, ◌≢◌, ◌≤◌, length, None, Some, Ok, Err, true, false, is_some};
ghost use Rattle.std.specs.Prelude.{option_map, IfErr, IfNone, IfOk, OnErr, OnOk, ◌==◌, ◌&&◌};
ghost use Rattle.basil_types.specs.Limits.{most_keys};
ghost use Rattle.basil_types.specs.Built as built_of;
ghost use Rattle.basil_types.specs.Built.{built, key_fault, size_fault};
ghost use Rattle.client_core.specs.Slots.{put_write};
ghost use Rattle.cluster_run.specs.Events.{begun_by, put_claim};
ghost use Rattle.cluster_run.specs.States.{BegunValue};
ghost use Rattle.frame_views.specs.Fitting.{IsClient};
ghost use Rattle.run_begun.specs.Adding as adding;
ghost use Rattle.run_begun.specs.Adding.{added, claimed, written};

use crate::formed::Formed;
use crate::parts::{key_fits, read_of, write_fits, write_of};
use basil_types::memory::NoMemory;
use basil_types::transaction::parts::{ReadPart, WritePart};
use basil_types::transaction::{BuildFault, Transaction};
use basil_types::version::Version;
use client_core::CallFault;
use client_core::ordered::put_in;
use std::alloc::Global;
use std::marker::Model;

/// The most keys of a transaction's reads, and of its writes.
const MOST_KEYS: usize = 32;

/// A begun transaction: of a correct client its slot, of a faulty one its reads and writes so far, which ascend by key.
#[derive(Drop)]
pub struct Begun {
    client: u8,
    time: u64,
    slot: Option<u32>,
    reads: Vec<ReadPart>,
    writes: Vec<WritePart>,
    formed: Option<Formed>,
    ghost someone: { slot ≡ None → IsClient client },
    ghost sized: { size_fault reads.items writes.items ≡ None },
    ghost ascend: { key_fault reads.items writes.items ≡ None },
}

impl Model for Begun {
    ghost use Rattle.cluster_run.specs.States.{BegunValue};

    ghost Value = { BegunValue };

    ghost view = { λ b. record {
      client = b.client;
      time = b.time;
      slot = b.slot;
      reads = b.reads.items;
      writes = b.writes.items;
      formed = b.formed;
    } };
}

impl Begun {
    /// What a correct client begins: a transaction that it holds in this slot. Takes no memory.
    pub fn of_slot(alloc: Global, client: u8, time: u64, slot: u32) -> Begun
        ensures { result ≡ begun_by client time (Some slot) }
    {
        Begun {
            client,
            time,
            slot: Some(slot),
            reads: Vec::new(alloc),
            writes: Vec::new(alloc),
            formed: None,
        }
    }

    /// What a faulty client, 1 to 16, begins: a transaction without reads and writes. Takes no memory.
    pub fn of_faulty(alloc: Global, client: u8, time: u64) -> Begun
        requires { IsClient client }
        ensures { result ≡ begun_by client time None }
    {
        Begun {
            client,
            time,
            slot: None,
            reads: Vec::new(alloc),
            writes: Vec::new(alloc),
            formed: None,
        }
    }

    /// The client that began it; one that forms it itself is 1 to 16.
    pub fn client(&self) -> u8
        ensures exact { result ≡ self.now.client }
        ensures someone { self.now.slot ≡ None → IsClient result }
    {
        self.client
    }

    /// The time of the transaction.
    pub fn time(&self) -> u64
        ensures { result ≡ self.now.time }
    {
        self.time
    }

    /// Where a correct client holds it.
    pub fn slot(&self) -> Option<u32>
        ensures { result ≡ self.now.slot }
    {
        self.slot
    }

    /// The transaction that its client formed.
    pub fn formed(&self) -> Option<&Formed>
        ensures { option_map (λ f. f.now) result ≡ self.now.formed }
    {
        self.formed.as_ref()
    }

    /// Keeps what its client formed.
    pub fn set_formed(&mut self, formed: Option<Formed>)
        ensures { self.new ≡ record self.old { formed = formed } }
    {
        self.formed = formed;
    }

    /// Refuses what is added to a formed transaction, and what doesn't fit.
    fn refuse(&self, fits: bool) -> Result<(), CallFault>
        ensures fits { OnOk result (fits ≡ true) }
        ensures taken { OnOk result ((after : BegunValue) → added self.now fits after ≡ Ok after) }
        ensures refused { IfErr result (λ e. (after : BegunValue) → added self.now fits after ≡ Err e) }
    {
        if self.formed.is_some() {
            return Err(CallFault::NotOpen);
        }
        if !fits {
            return Err(CallFault::SizeOut);
        }
        Ok(())
    }

    /// A write that fits is among the writes from now on, or memory is wanting and all is as before.
    fn add_write(&mut self, write: WritePart) -> Result<(), NoMemory>
        requires { built_of.write_fits write ≡ true }
        ensures put { OnOk result (self.new ≡ record self.old { writes = put_write write self.old.writes }) }
        ensures as_before { OnErr result (self.new ≡ self.old) }
    {
        put_in(&mut self.writes, write)
    }

    /// A read that fits is among the reads from now on, or memory is wanting and all is as before.
    fn add_read(&mut self, read: ReadPart) -> Result<(), NoMemory>
        requires { built_of.read_fits read ≡ true }
        ensures put { OnOk result (self.new ≡ record self.old { reads = put_claim read self.old.reads }) }
        ensures as_before { OnErr result (self.new ≡ self.old) }
    {
        put_in(&mut self.reads, read)
    }

    /// A faulty client writes or deletes a key. NotOpen where the transaction is formed, then SizeOut where the key
    /// isn't 1 to 64 bytes or the value is longer than 256 bytes, or there is one where the write deletes. A refusal
    /// leaves it as before.
    pub fn put_write(
        &mut self,
        alloc: Global,
        key: &[u8],
        value: &[u8],
        deletes: bool,
    ) -> Result<(), CallFault>
        ensures put { OnOk result
            (written (record { key = key.now; value = value.now; deletes = deletes }) self.old ≡ Ok self.new) }
        ensures refused { IfErr result (λ e. e ≢ CallFault.NoMemory →
            written (record { key = key.now; value = value.now; deletes = deletes }) self.old ≡ Err e) }
        ensures as_before { OnErr result (self.new ≡ self.old) }
    {
        let fits = write_fits(key, value, deletes);
        self.refuse(fits)?;
        let write = write_of(alloc, key, value, deletes)?;
        self.add_write(write)?;
        Ok(())
    }

    /// A faulty client claims to have read a key at this version. NotOpen where the transaction is formed, then SizeOut
    /// where the key isn't 1 to 64 bytes. A refusal leaves it as before.
    pub fn put_claim(
        &mut self,
        alloc: Global,
        key: &[u8],
        version: &Version,
    ) -> Result<(), CallFault>
        ensures put { OnOk result (claimed key.now version.now self.old ≡ Ok self.new) }
        ensures refused { IfErr result (λ e. e ≢ CallFault.NoMemory →
            claimed key.now version.now self.old ≡ Err e) }
        ensures as_before { OnErr result (self.new ≡ self.old) }
    {
        let fits = key_fits(key);
        self.refuse(fits)?;
        let read = read_of(alloc, key, version)?;
        self.add_read(read)?;
        Ok(())
    }

    /// Why a faulty client can't form the transaction, whatever it signs: NotOpen where it is formed, then TooMany
    /// where there are more than 32 reads or writes, then Empty where there are neither.
    pub fn forming_fault(&self) -> Option<CallFault>
        ensures exact { result ≡ adding.forming_fault self.now }
        ensures few_reads { IfNone result (length self.now.reads ≤ most_keys) }
        ensures few_writes { IfNone result (length self.now.writes ≤ most_keys) }
        ensures some { IfNone result ((length self.now.reads == 0 && length self.now.writes == 0) ≡ false) }
    {
        if self.formed.is_some() {
            return Some(CallFault::NotOpen);
        }
        if self.reads.len() > MOST_KEYS {
            return Some(CallFault::TooMany);
        }
        if self.writes.len() > MOST_KEYS {
            return Some(CallFault::TooMany);
        }
        if self.reads.is_empty() && self.writes.is_empty() {
            return Some(CallFault::Empty);
        }
        None
    }

    /// The transaction of a faulty client's reads and writes, or want of memory.
    pub fn build(&self, alloc: Global) -> Result<Transaction, NoMemory>
        requires own { self.now.slot ≡ None }
        requires few_reads { length self.now.reads ≤ most_keys }
        requires few_writes { length self.now.writes ≤ most_keys }
        ensures { IfOk result
            (λ t. t ≡ built self.now.time self.now.client self.now.reads self.now.writes) }
    {
        let built = Transaction::build(
            alloc,
            self.time,
            self.client,
            self.reads.as_slice(),
            self.writes.as_slice(),
        );
        match built {
            Ok(transaction) => Ok(transaction),
            Err(fault) => {
                if fault == BuildFault::NoMemory {
                    Err(NoMemory)
                } else {
                    unreachable!()
                }
            }
        }
    }
}

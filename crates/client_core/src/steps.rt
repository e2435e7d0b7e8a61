//! What a read or a write does to an open transaction, or why it is refused.

ghost use Rattle.std.specs.Prelude.{◌≡◌, ◌||◌, ◌&&◌, true, ℕ, Option, List};
ghost use Rattle.std.specs.Prelude.{is_some, length, nat_le, not, find, option_map};
ghost use Rattle.std.specs.List.{list_any};
ghost use Rattle.std.specs.Str.{bytes_eq};
ghost use Rattle.basil_types.specs.Limits.{most_keys};
ghost use Rattle.basil_types.specs.Built as built_of;
ghost use Rattle.basil_types.specs.declared.transaction.parts.WritePart.{WritePart};
ghost use Rattle.client_core.specs.declared.asking.Asking.{Asking};
ghost use Rattle.client_core.specs.Calls as calls;
ghost use Rattle.client_core.specs.Calls.{read_at, read_done};
ghost use Rattle.client_core.specs.Clients.{AskedRead, ClientSelf, ClientValue, quiet};
ghost use Rattle.client_core.specs.Showing.{KeepsReads, ShowsFormed, slot_value};
ghost use Rattle.client_core.specs.Steps.{by_step};
ghost use Rattle.client_recover.specs.Taken.{PursuitValue};
ghost use Rattle.client_steps.specs.Refusals.{RefusesCall};

use crate::asking::Asking;
use crate::held::Slot;
use basil_types::cluster::Cluster;
use basil_types::limits::MOST_KEYS;
use client_steps::fault::CallFault;
use client_steps::stages::refuse_pending;
use client_steps::steps::{ReadStep, fault_of, key_fits, step_of, write_fits};
use std::alloc::Global;

impl Slot {
    /// Whether this key was written or asked for.
    fn knows(&self, key: &[u8]) -> bool
        ensures { result ≡ (list_any (λ (w : WritePart). bytes_eq w.key key.now) self.now.writes.items
            || is_some (find (λ (a : Asking). bytes_eq a.key key.now) self.now.reads.items)) }
    {
        self.is_written(key) || self.asked(key).is_some()
    }

    /// Whether the list of writes has no room for a write to this key.
    fn is_full_for(&self, key: &[u8]) -> bool
        ensures { result ≡ (not (list_any (λ (w : WritePart). bytes_eq w.key key.now) self.now.writes.items)
            && nat_le most_keys (length self.now.writes.items)) }
    {
        !self.is_written(key) && MOST_KEYS <= self.writes.len()
    }

    /// What a read of this key does.
    pub(crate) fn read_step(&self, key: &[u8]) -> ReadStep
        ensures exact { (me : ClientSelf) (v : ClientValue) (place : ℕ) (reads : List AskedRead)
            (p : Option PursuitValue) →
            KeepsReads self.now.reads.items reads → ShowsFormed self.now.formed p →
            read_at me v place key.now (slot_value self.now reads p)
            ≡ by_step result (quiet v) (read_done me v place (slot_value self.now reads p) key.now) }
        ensures fits { result ≡ ReadStep.Asks → built_of.key_fits key.now ≡ true }
    {
        let formed = self.formed.is_some();
        let known = self.knows(key);
        let full = MOST_KEYS <= self.reads.len();
        step_of(formed, known, full, key_fits(key))
    }

    /// The first fault of a write.
    pub(crate) fn write_fault(&self, key: &[u8], value: &[u8], deletes: bool) -> Option<CallFault>
        ensures { (reads : List AskedRead) (p : Option PursuitValue) → ShowsFormed self.now.formed p →
            result ≡ calls.write_fault (slot_value self.now reads p)
            (record { key = key.now; value = value.now; deletes = deletes }) }
    {
        let formed = self.formed.is_some();
        let full = self.is_full_for(key);
        fault_of(formed, full, write_fits(key, value, deletes))
    }

    /// The first read without a choice.
    fn first_pending(&self, cluster: &Cluster) -> Option<&Asking>
        ensures { option_map (λ a. a.now) result
            ≡ find (λ (a : Asking). not (nat_le cluster.now.reads (length a.versions.items))) self.now.reads.items }
    {
        self.reads.iter().find(|a| !a.is_chosen(cluster))
    }

    /// Refuses to go on where a read has no choice yet.
    pub(crate) fn refuse_pending(&self, alloc: Global, cluster: &Cluster) -> Result<(), CallFault>
        ensures { (reads : List AskedRead) (p : Option PursuitValue) → KeepsReads self.now.reads.items reads →
            RefusesCall result (calls.pending cluster.now (slot_value self.now reads p)) }
    {
        match self.first_pending(cluster) {
            Some(asked) => refuse_pending(alloc, Some(asked.key.as_slice())),
            None => refuse_pending(alloc, None),
        }
    }
}

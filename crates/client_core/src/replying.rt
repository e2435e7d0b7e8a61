//! What a reply does to a read that was asked for.

ghost use Rattle.std.specs.Prelude.{◌≡◌, ◌<◌, true, List, OnOk, Some, length, position, slice_get};
ghost use Rattle.std.specs.Option.{ForSome};
ghost use Rattle.std.specs.Str.{bytes_eq};
ghost use Rattle.basil_types.specs.Refusals.{Refuses};
ghost use Rattle.client_core.specs.Clients.{AskedRead, ClientValue, SlotValue};
ghost use Rattle.client_core.specs.Frames.{with_reply};
ghost use Rattle.client_core.specs.Kept.{kept_read, shown_read};
ghost use Rattle.client_core.specs.Replying.{asked_fault, HasReplyRoomAt, IsPlaceOf};
ghost use Rattle.client_core.specs.Replying.{Replies, TakesReply, TakesReplyAt, TellsAt};
ghost use Rattle.client_core.specs.Showing.{KeepsReads, ShowsHeld, ShowsSlot};
ghost use Rattle.client_core.specs.Slots.{put_read};
ghost use Rattle.frame_views.specs.Fitting.{FitsReadReply, bounds_of};
ghost use Rattle.frame_views.specs.Shown.{read_reply_of};

use crate::asking::Asking;
use crate::held::{Held, Slot};
use crate::ordered::{Place, place_of};
use crate::replies::{KeptReply, keep_reply};
use crate::seat::Seat;
use basil_types::memory::NoMemory;
use certificates::FrameFault;
use client_reads::check_reply;
use frame_views::frames::ReadReplyView;
use keyring::verifier::Verifier;

impl Asking {
    /// Refuses a reply to this read of a transaction of this time; once the choice is made no reply is waited for.
    fn refuse_reply<V: Verifier>(
        &self,
        keys: &V,
        seat: &Seat,
        time: u64,
        reply: &ReadReplyView<'_>,
    ) -> Result<(), FrameFault>
        requires { FitsReadReply (bounds_of seat.now.cluster) (read_reply_of reply.now) }
        ensures { (r : AskedRead) → shown_read self.now ≡ kept_read r → Refuses result (asked_fault
            (V.accepted keys.now) seat.now.cluster seat.now.number time (read_reply_of reply.now) r) }
    {
        if self.is_chosen(&seat.cluster) {
            return Err(FrameFault::NotMine);
        }
        check_reply(
            keys,
            &seat.cluster,
            self.key.as_slice(),
            time,
            seat.number,
            reply,
        )
    }

    /// What is kept of a reply, which is nothing where its replica replied before.
    fn take_reply<V: Verifier>(
        &self,
        keys: &V,
        seat: &Seat,
        time: u64,
        reply: &ReadReplyView<'_>,
    ) -> Result<Option<KeptReply>, FrameFault>
        requires { FitsReadReply (bounds_of seat.now.cluster) (read_reply_of reply.now) }
        ensures { (r : AskedRead) → shown_read self.now ≡ kept_read r → TakesReply (shown_read self.now) result
            (asked_fault (V.accepted keys.now) seat.now.cluster seat.now.number time (read_reply_of reply.now) r)
            (with_reply (read_reply_of reply.now) r) }
    {
        match self.refuse_reply(keys, seat, time, reply) {
            Ok(()) => {}
            Err(fault) => return Err(fault),
        }
        if self.has_reply_of(reply.replica) {
            return Ok(None);
        }
        let kept = keep_reply(seat.alloc, reply, self.key.as_slice())?;
        Ok(Some(kept))
    }
}

impl Slot {
    /// The place of the first read of this key.
    pub(crate) fn asked_at(&self, key: &[u8]) -> Option<usize>
        ensures { result ≡ position (λ (a : Asking). bytes_eq a.key key.now) self.now.reads.items }
    {
        self.reads.iter().position(|a| a.key.as_slice() == key)
    }

    /// Whether a read of this key is put into this place.
    fn is_place_of(&self, key: &[u8], read: usize) -> bool
        ensures { result ≡ true → IsPlaceOf key.now read self.now.reads.items }
    {
        match place_of(self.reads.as_slice(), key) {
            Place::At(place) => place == read,
            Place::Before(_) => false,
        }
    }

    /// What is kept of a reply to the read at a place, which is nothing where its replica replied before. Where the
    /// read doesn't stand in its order, the answer is want of memory.
    pub(crate) fn take_reply<V: Verifier>(
        &self,
        keys: &V,
        seat: &Seat,
        read: usize,
        reply: &ReadReplyView<'_>,
    ) -> Result<Option<KeptReply>, FrameFault>
        requires read { read < length self.now.reads.items }
        requires fits { FitsReadReply (bounds_of seat.now.cluster) (read_reply_of reply.now) }
        ensures { (reads : List AskedRead) (r : AskedRead) → KeepsReads self.now.reads.items reads →
            slice_get reads read ≡ Some r → TakesReplyAt self.now read result (asked_fault (V.accepted keys.now)
            seat.now.cluster seat.now.number self.now.time (read_reply_of reply.now) r)
            (with_reply (read_reply_of reply.now) r) }
    {
        let asked = &self.reads[read];
        if !self.is_place_of(asked.key.as_slice(), read) {
            return Err(FrameFault::NoMemory);
        }
        match asked.take_reply(keys, seat, self.time, reply) {
            Ok(kept) => Ok(kept),
            Err(fault) => Err(fault),
        }
    }

    /// Makes room for one more reply to the read at a place, or finds memory wanting. Either way it tells what it told.
    fn room_for_reply(&mut self, read: usize) -> Result<(), NoMemory>
        requires { read < length self.old.reads.items }
        ensures shown { (s : SlotValue) → ShowsSlot self.old s → ShowsSlot self.new s }
        ensures room { OnOk result (HasReplyRoomAt read self.new) }
        ensures formed { self.new.formed ≡ self.old.formed }
    {
        let asked = &mut self.reads[read];
        match asked.make_room() {
            Ok(()) => Ok(()),
            Err(refused) => Err(refused),
        }
    }

    /// The read at a place keeps one more reply. Takes no memory.
    fn reply(&mut self, read: usize, reply: KeptReply)
        requires { HasReplyRoomAt read self.old }
        ensures shown { (s : SlotValue) (r : AskedRead) → ShowsSlot self.old s → TellsAt read (Some reply) r self.old →
            ShowsSlot self.new (record s { reads = put_read r s.reads }) }
        ensures formed { self.new.formed ≡ self.old.formed }
    {
        let asked = &mut self.reads[read];
        asked.add(reply);
    }
}

impl Held {
    /// Makes room for one more reply to a read of a slot, or finds memory wanting. Either way it shows what it showed.
    pub(crate) fn room_for_reply(&mut self, slot: usize, read: usize) -> Result<(), NoMemory>
        requires held { slot < length self.old.slots.items }
        requires read { ForSome (slice_get self.old.slots.items slot) (λ (x : Slot). read < length x.reads.items) }
        ensures shown { (v : ClientValue) → ShowsHeld self.old v → ShowsHeld self.new v }
        ensures room { OnOk result (ForSome (slice_get self.new.slots.items slot) (HasReplyRoomAt read)) }
        ensures count { length self.new.slots.items ≡ length self.old.slots.items }
        ensures cluster { self.new.cluster ≡ self.old.cluster }
    {
        let slot = &mut self.slots[slot];
        match slot.room_for_reply(read) {
            Ok(()) => Ok(()),
            Err(refused) => Err(refused),
        }
    }

    /// The read at a place of a slot keeps one more reply. Takes no memory.
    pub(crate) fn reply(&mut self, slot: usize, read: usize, reply: KeptReply)
        requires held { slot < length self.old.slots.items }
        requires room { ForSome (slice_get self.old.slots.items slot) (HasReplyRoomAt read) }
        ensures shown { (v after : ClientValue) → ShowsHeld self.old v → Replies self.old v slot read reply after →
            ShowsHeld self.new after }
        ensures cluster { self.new.cluster ≡ self.old.cluster }
    {
        let slot = &mut self.slots[slot];
        slot.reply(read, reply);
    }
}

//! Planning that a transaction is formed, signed and pursued.

ghost use Rattle.std.specs.Prelude.{◌≡◌, ◌<◌, ◌≤◌, ℕ, All, List, [], None, Some, Option};
ghost use Rattle.std.specs.Prelude.{IfOk, OnOk, length, map, slice_get, ◌==◌, ◌&&◌};
ghost use Rattle.basil_types.specs.Built.{built};
ghost use Rattle.basil_types.specs.Limits.{signature_limit};
ghost use Rattle.basil_types.specs.Transaction as transactions;
ghost use Rattle.basil_types.specs.Transaction.{TransactionValue};
ghost use Rattle.basil_types.specs.Words.{TransactionWords, words_of};
ghost use Rattle.certificates.specs.Accepted.{Accepted};
ghost use Rattle.client_steps.specs.Addressing.{parties_in, fronted};
ghost use Rattle.client_steps.specs.Refusals.{RefusesCall};
ghost use Rattle.client_core.specs.Calls.{call_prepare, prepare_fault};
ghost use Rattle.client_core.specs.Clients.{AskedRead, ClientSelf, ClientValue, SlotValue};
ghost use Rattle.client_core.specs.Keeping.{part_kept};
ghost use Rattle.client_core.specs.Kept.{shown_read};
ghost use Rattle.client_core.specs.Preparing.{pursue_done, rest_fault};
ghost use Rattle.client_core.specs.Seats.{self_at};
ghost use Rattle.client_core.specs.Showing.{KeepsReads, ShowsFormed, ShowsHeld, slot_value};
ghost use Rattle.client_core.specs.Slots.{as_read};
ghost use Rattle.client_core.specs.Works.{CanPerform, IsPlanned, WillDo};
ghost use Rattle.client_recover.specs.Taken.{PursuitValue};
ghost use Rattle.frame_writing.specs.Unsigned.{unsigned_st1};
ghost use Rattle.keyring.specs.Signing.{Signing};
ghost use Rattle.node_steps.specs.Pendings.{front_of, HasRoomFor, IsReady};
ghost use Rattle.node_steps.specs.Pens.{pen_value};
ghost use Rattle.txn_meta.specs.Form.{form_fault};

use crate::asking::Asking;
use crate::held::{Held, Slot};
use crate::seat::Seat;
use crate::work::{ClientPlan, Work};
use basil_types::cluster::Cluster;
use basil_types::memory::NoMemory;
use basil_types::transaction::Transaction;
use basil_types::transaction::parts::ReadPart;
use basil_types::words::Words;
use client_steps::address::{frames_reach_shards, involved_parties, unsigned_to};
use client_steps::fault::CallFault;
use frame_views::frames::St1View;
use frame_writing::{put_unsigned_st1, signatures_end_frames};
use keyring::signer::Signer;
use node_steps::pending::{Pending, Unsigned, make_room, outbox};
use std::alloc::Global;
use txn_meta::form::check_form;

/// What was read of these keys.
fn read_parts(alloc: Global, cluster: &Cluster, reads: &[Asking]) -> Result<Vec<ReadPart>, NoMemory>
    ensures { IfOk result (λ parts. parts.items ≡ map (part_kept cluster.now) (map shown_read reads.now)) }
{
    let mut parts = Vec::new(alloc);
    for asked in reads {
        parts.push(asked.part(alloc, cluster)?)?;
    }
    Ok(parts)
}

impl Slot {
    /// Refuses to form a transaction that is formed, has a read without a choice, is empty, or can't be signed.
    fn refuse_prepare(&self, alloc: Global, cluster: &Cluster, left: u64) -> Result<(), CallFault>
        ensures exact { (me : ClientSelf) (v : ClientValue) (reads : List AskedRead) (p : Option PursuitValue) →
            KeepsReads self.now.reads.items reads → ShowsFormed self.now.formed p → me.cluster ≡ cluster.now →
            v.pen.left ≡ left → RefusesCall result (prepare_fault me v (slot_value self.now reads p)) }
        ensures left { OnOk result (0 < left) }
    {
        let formed = self.formed.is_some();
        if formed {
            return Err(CallFault::NotOpen);
        }
        match self.refuse_pending(alloc, cluster) {
            Ok(()) => refuse_rest(self.has_nothing(), left),
            Err(fault) => Err(fault),
        }
    }

    /// Whether it has neither reads nor writes.
    fn has_nothing(&self) -> bool
        ensures { result ≡ ((length self.now.reads.items == 0) && (length self.now.writes.items == 0)) }
    {
        self.reads.is_empty() && self.writes.is_empty()
    }

    /// The transaction. Where the parts make none of good form, the answer is want of memory.
    fn form(&self, alloc: Global, cluster: &Cluster, number: u8) -> Result<Transaction, NoMemory>
        ensures formed { (reads : List AskedRead) → KeepsReads self.now.reads.items reads → IfOk result
            (λ t. t ≡ built self.now.time number (map (as_read cluster.now) reads) self.now.writes.items) }
        ensures good { IfOk result (λ t. form_fault t ≡ None) }
    {
        let parts = read_parts(alloc, cluster, self.reads.as_slice())?;
        let built = Transaction::build(
            alloc,
            self.time,
            number,
            parts.as_slice(),
            self.writes.as_slice(),
        );
        match built {
            Ok(t) => refuse_bad_form(t),
            Err(_) => Err(NoMemory),
        }
    }
}

/// Refuses to form a transaction that is empty, or that can't be signed.
fn refuse_rest(nothing: bool, left: u64) -> Result<(), CallFault>
    ensures exact { RefusesCall result (rest_fault nothing (left == 0)) }
    ensures left { OnOk result (0 < left) }
{
    if nothing {
        return Err(CallFault::Empty);
    }
    if left == 0 {
        return Err(CallFault::Exhausted);
    }
    Ok(())
}

/// A transaction of good form.
fn refuse_bad_form(t: Transaction) -> Result<Transaction, NoMemory>
    ensures same { IfOk result (λ u. u ≡ t) }
    ensures good { IfOk result (λ u. form_fault u ≡ None) }
{
    match check_form(t.view()) {
        Ok(()) => Ok(t),
        Err(_) => Err(NoMemory),
    }
}

/// The first-stage frames, which lack their signature, for every replica of every involved shard.
fn first_frames(seat: &Seat, t: &Transaction, size: usize) -> Result<Vec<Unsigned>, NoMemory>
    requires { size ≤ signature_limit }
    ensures fronts { IfOk result (λ u. map front_of u.items
        ≡ map (fronted (unsigned_st1 (record { transaction = t.now; signature = [] })))
        (parties_in seat.now.cluster t.now)) }
    ensures rooms { IfOk result (λ u. All (HasRoomFor size) u.items) }
{
    let mut frame = Vec::new(seat.alloc);
    let first = St1View {
        transaction: t.view(),
        signature: &[],
    };
    put_unsigned_st1(&first, &mut frame)?;
    let parties = involved_parties(seat.alloc, &seat.cluster, t.view())?;
    unsigned_to(seat.alloc, parties.as_slice(), frame.as_slice(), size)
}

/// The words and the frames of a first stage, which wait for its signature.
fn pending_for(seat: &Seat, t: &Transaction, size: usize) -> Result<Pending, NoMemory>
    requires some { 1 ≤ size }
    requires short { size ≤ signature_limit }
    ensures ready { IfOk result (IsReady size) }
    ensures words { IfOk result (λ p. p.words ≡ words_of (TransactionWords (transactions.id t.now))) }
    ensures fronts { IfOk result (λ p. map front_of p.frames.items
        ≡ map (fronted (unsigned_st1 (record { transaction = t.now; signature = [] })))
        (parties_in seat.now.cluster t.now)) }
{
    let frames = first_frames(seat, t, size)?;
    let id = t.view().id();
    let pending = Pending::new(seat.alloc, Words::transaction(&id), frames, size)?;
    Ok(pending)
}

/// Plans that a transaction is pursued.
fn plan_pursue(
    seat: &Seat,
    slot: usize,
    size: usize,
    formed: Transaction,
) -> Result<ClientPlan, NoMemory>
    requires some { 1 ≤ size }
    requires short { size ≤ signature_limit }
    requires good { form_fault formed ≡ None }
    ensures planned { (me : ClientSelf) (held : Held) (v : ClientValue) (s : SlotValue) → ShowsHeld held v →
        slice_get v.slots slot ≡ Some s → me.cluster ≡ seat.now.cluster →
        IfOk result (λ plan. WillDo me.signing held v plan (pursue_done me v slot s formed)) }
    ensures ready { (left : ℕ) (held : Held) → 0 < left → slot < length held.slots.items →
        IfOk result (CanPerform size left held) }
    ensures slot { IfOk result (λ plan. plan.slot ≡ None) }
{
    let pending = pending_for(seat, &formed, size)?;
    let mut out = outbox(seat.alloc);
    make_room(&mut out, pending.frames.len(), 1)?;
    signatures_end_frames();
    frames_reach_shards();
    let work = Work::Pursue {
        slot,
        formed,
        pending,
    };
    let plan = ClientPlan::of(work, out, size)?;
    Ok(plan)
}

/// Plans that the transaction in a slot is formed, signed and pursued.
pub(crate) fn plan_prepare<S: Signer>(
    held: &Held,
    seat: &Seat,
    pen: &S,
    slot: usize,
) -> Result<ClientPlan, CallFault>
    requires { slot < length held.now.slots.items }
    ensures answer { (accepts : Accepted) (v : ClientValue) → ShowsHeld held.now v →
        v.pen ≡ pen_value (S.spent pen.now) (S.left_of pen.now) → IsPlanned (S.fixed pen.now) held.now v result
        (call_prepare (self_at seat.now accepts (S.fixed pen.now)) v slot) }
    ensures ready { IfOk result (CanPerform (S.fixed pen.now).size (S.left_of pen.now) held.now) }
    ensures slot { IfOk result (λ plan. plan.slot ≡ None) }
{
    let place = &held.slots[slot];
    match place.refuse_prepare(seat.alloc, &seat.cluster, pen.left()) {
        Ok(()) => {}
        Err(fault) => return Err(fault),
    }
    match place.form(seat.alloc, &seat.cluster, seat.number) {
        Ok(formed) => match plan_pursue(seat, slot, pen.size(), formed) {
            Ok(plan) => Ok(plan),
            Err(_) => Err(CallFault::NoMemory),
        },
        Err(_) => Err(CallFault::NoMemory),
    }
}

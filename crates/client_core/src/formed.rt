//! Frames for a formed transaction: each is taken and held back, and then let go or kept.

ghost use Rattle.std.specs.Prelude.{◌≡◌, ◌≢◌, ◌<◌, false, is_some, length, option_map};
ghost use Rattle.std.specs.Prelude.{slice_get, Some, Ok, Err, OnOk, OnErr, IfErr, IfSome};
ghost use Rattle.std.specs.Option.{ForSome};
ghost use Rattle.basil_types.specs.Setting.{Setting};
ghost use Rattle.certificates.specs.declared.fault.FrameFault.TheVariants as faults;
ghost use Rattle.client_core.specs.Clients.{ClientValue, SlotValue};
ghost use Rattle.client_core.specs.Clusters.{IsOf};
ghost use Rattle.client_core.specs.Finding.{id_in};
ghost use Rattle.client_core.specs.declared.held.Formed.{Formed};
ghost use Rattle.client_core.specs.declared.held.Slot.{Slot};
ghost use Rattle.client_core.specs.Showing.{ShowsHeld, ShowsPursuit, ShowsSlot};
ghost use Rattle.client_core.specs.Slots.{with_pursuit};
ghost use Rattle.client_core.specs.Taking.{taken_of, TakesIn, WillStand};
ghost use Rattle.client_recover.specs.Counting.{replies_held};
ghost use Rattle.client_recover.specs.Owned.{shown_outcome};
ghost use Rattle.client_recover.specs.Pursuits.{outcome, take_frame};
ghost use Rattle.client_recover.specs.Standing.{StandsFor, IsAsBefore, SameTask, TakesOf};
ghost use Rattle.client_recover.specs.Taken.{PursuitValue, TakenValue};
ghost use Rattle.frame_values.specs.Owned.{certificate_value};
ghost use Rattle.frame_views.specs.Fitting.{FitsCertificate, FitsMessage, bounds_of, widest};
ghost use Rattle.frame_views.specs.Shown.{message_of};

use crate::held::{Formed, Held, Slot};
use basil_types::party::Decision;
use certificates::FrameFault;
use client_recover::Pursuit;
use frame_values::owned::Certificate;
use frame_views::frames::MessageView;
use keyring::verifier::Verifier;

/// A pursuit takes a vote, a log reply or a certificate, or answers the first fault of the frame. A refusal leaves all
/// as before.
fn add_frame<V: Verifier>(
    pursuit: &mut Pursuit,
    keys: &V,
    m: &MessageView<'_>,
) -> Result<(), FrameFault>
    requires { FitsMessage (bounds_of pursuit.old.cluster) (message_of m.now) }
    ensures taken { OnOk result (TakesOf (taken_of (V.accepted keys.now) pursuit.old.cluster pursuit.old.transaction
        (message_of m.now)) pursuit.old pursuit.new) }
    ensures refused { IfErr result (λ e. e ≢ faults.NoMemory → taken_of (V.accepted keys.now) pursuit.old.cluster
        pursuit.old.transaction (message_of m.now) ≡ Err e) }
    ensures as_before { OnErr result (IsAsBefore pursuit.old pursuit.new) }
    ensures same_task { SameTask pursuit.old pursuit.new }
{
    match m {
        MessageView::Vote(_) => pursuit.add_vote(keys, m),
        MessageView::LogReply(_) => pursuit.add_log(keys, m),
        MessageView::Writeback(_) => pursuit.add_certificate(keys, m),
        MessageView::Read(_)
        | MessageView::ReadReply(_)
        | MessageView::St1(_)
        | MessageView::St2(_)
        | MessageView::Recover(_)
        | MessageView::Invoke(_)
        | MessageView::Elect(_)
        | MessageView::Decide(_) => Err(FrameFault::NotMine),
    }
}

impl Formed {
    /// Lets a frame go that is held back. Takes no memory.
    pub(crate) fn let_go(&mut self)
        ensures shown { (p : PursuitValue) → ShowsPursuit self.old p → ShowsPursuit self.new p }
        ensures none { self.new.held_back ≡ false }
        ensures cluster { self.new.pursuit.cluster ≡ self.old.pursuit.cluster }
        ensures transaction { self.new.pursuit.transaction ≡ self.old.pursuit.transaction }
        ensures second { self.new.second ≡ self.old.second }
    {
        if !self.held_back {
            return;
        }
        self.pursuit.undo();
        self.held_back = false;
    }

    /// Takes a frame and holds it back, or answers its first fault, where none is held back.
    pub(crate) fn hold_back<V: Verifier>(
        &mut self,
        keys: &V,
        m: &MessageView<'_>,
    ) -> Result<(), FrameFault>
        requires none { self.old.held_back ≡ false }
        requires fits { FitsMessage (bounds_of self.old.pursuit.cluster) (message_of m.now) }
        ensures taken { (p : PursuitValue) → ShowsPursuit self.old p → OnOk result ((x : TakenValue)
            × (taken_of (V.accepted keys.now) self.old.pursuit.cluster p.transaction (message_of m.now) ≡ Ok x)
            × StandsFor self.new.pursuit (take_frame self.old.pursuit.cluster p x).pursuit) }
        ensures refused { (p : PursuitValue) → ShowsPursuit self.old p → IfErr result (λ e. e ≢ faults.NoMemory →
            taken_of (V.accepted keys.now) self.old.pursuit.cluster p.transaction (message_of m.now) ≡ Err e) }
        ensures shown { (p : PursuitValue) → ShowsPursuit self.old p → ShowsPursuit self.new p }
        ensures cluster { self.new.pursuit.cluster ≡ self.old.pursuit.cluster }
        ensures transaction { self.new.pursuit.transaction ≡ self.old.pursuit.transaction }
        ensures second { self.new.second ≡ self.old.second }
    {
        match add_frame(&mut self.pursuit, keys, m) {
            Ok(()) => {
                self.held_back = true;
                Ok(())
            }
            Err(fault) => Err(fault),
        }
    }

    /// Keeps the frame that is held back; the second stage may start. Takes no memory.
    fn take(&mut self, starts: bool)
        ensures shown { (p : PursuitValue) → WillStand starts p (Some self.old) → ShowsPursuit self.new p }
        ensures cluster { self.new.pursuit.cluster ≡ self.old.pursuit.cluster }
        ensures transaction { self.new.pursuit.transaction ≡ self.old.pursuit.transaction }
    {
        self.held_back = false;
        self.second = starts || self.second;
    }

    /// The decision and its certificate, without a frame that is held back.
    pub(crate) fn outcome(&self) -> Option<(Decision, &Certificate)>
        ensures value { (p : PursuitValue) → ShowsPursuit self.now p →
            option_map shown_outcome result ≡ outcome self.now.pursuit.cluster p }
        // The certificate has a spelling.
        ensures fits { IfSome result (λ o. FitsCertificate widest (certificate_value o.1.now)) }
    {
        if self.held_back {
            self.pursuit.outcome_before()
        } else {
            self.pursuit.outcome()
        }
    }

    /// How many votes count, and log replies were taken, together, without a frame that is held back.
    pub(crate) fn held(&self) -> u32
        ensures { (p : PursuitValue) → ShowsPursuit self.now p → result ≡ replies_held p.taken }
    {
        if self.held_back {
            self.pursuit.held_before()
        } else {
            self.pursuit.held()
        }
    }

    /// Whether the frames that were taken decide, also one that is held back.
    pub(crate) fn is_decided(&self) -> bool
        ensures { (p : PursuitValue) → StandsFor self.now.pursuit p →
            result ≡ is_some (outcome self.now.pursuit.cluster p) }
    {
        self.pursuit.outcome().is_some()
    }
}

impl Slot {
    /// Lets a frame go that is held back. Takes no memory.
    fn let_go(&mut self)
        ensures shown { (s : SlotValue) → ShowsSlot self.old s → ShowsSlot self.new s }
        ensures none { ForSome self.new.formed (λ (f : Formed). f.held_back ≡ false) }
        ensures cluster { (k : Setting) → IsOf k self.old.formed → IsOf k self.new.formed }
        ensures id { id_in self.new ≡ id_in self.old }
    {
        match &mut self.formed {
            Some(formed) => formed.let_go(),
            None => {}
        }
    }

    /// The pursuit takes the frame that is held back; its second stage may start. Takes no memory.
    fn take(&mut self, starts: bool)
        ensures shown { (s : SlotValue) (p : PursuitValue) → ShowsSlot self.old s →
            WillStand starts p self.old.formed → ShowsSlot self.new (with_pursuit s p) }
        ensures cluster { (k : Setting) → IsOf k self.old.formed → IsOf k self.new.formed }
        ensures id { id_in self.new ≡ id_in self.old }
    {
        match &mut self.formed {
            Some(formed) => formed.take(starts),
            None => {}
        }
    }
}

impl Held {
    /// The pursuit in a slot lets a frame go that is held back. Takes no memory.
    pub(crate) fn let_go(&mut self, slot: usize)
        requires { slot < length self.old.slots.items }
        ensures shown { (v : ClientValue) → ShowsHeld self.old v → ShowsHeld self.new v }
        ensures none { ForSome (slice_get self.new.slots.items slot)
            (λ (x : Slot). ForSome x.formed (λ (f : Formed). f.held_back ≡ false)) }
        ensures count { length self.new.slots.items ≡ length self.old.slots.items }
        ensures cluster { self.new.cluster ≡ self.old.cluster }
    {
        let slot = &mut self.slots[slot];
        slot.let_go();
    }

    /// The pursuit in a slot takes the frame that is held back; its second stage may start. Takes no memory.
    pub(crate) fn take(&mut self, slot: usize, starts: bool)
        requires { slot < length self.old.slots.items }
        ensures shown { (v after : ClientValue) → ShowsHeld self.old v → TakesIn self.old v slot starts after →
            ShowsHeld self.new after }
        ensures cluster { self.new.cluster ≡ self.old.cluster }
    {
        let slot = &mut self.slots[slot];
        slot.take(starts);
    }
}

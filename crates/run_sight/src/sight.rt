//! The sight of a run.

ghost use Rattle.std.specs.Prelude.{◌≡◌, IfErr, IfOk, OnErr, OnOk, false, true};
ghost use Rattle.frame_views.specs.Fitting.{FitsMessage, IsSpoken, bounds_of};
ghost use Rattle.frame_views.specs.Shown.{message_of};
ghost use Rattle.premise_watch.specs.Watches as watches;
ghost use Rattle.cluster_run.specs.States as states;
ghost use Rattle.cluster_run.specs.States.{Setup, State, start};
ghost use Rattle.cluster_run.specs.Telling.{committed_by_version, decision_at};
ghost use Rattle.run_sight.specs.Keeping.{AreOf};
ghost use Rattle.run_sight.specs.Sights.{SightValue, sight_of};

use crate::certified::{Certified, Lengths};
use basil_types::cluster::Cluster;
use basil_types::memory::NoMemory;
use basil_types::party::{Decision, Party};
use basil_types::reading::in_range;
use basil_types::transaction::Transaction;
use basil_types::words::Words;
use frame_views::frames::{MessageView, check};
use keyring::verifier::Verifier;
use premise_watch::broken::WatchFault;
use premise_watch::faulty::Faulty;
use premise_watch::watch::Watch;
use sight_laws::seen_shows_nothing;
use std::alloc::Global;

/// What a run has seen of its frames: the words that parties signed, the transactions that were seen, and of each id
/// the first decision that a certificate proves. Contracts see it by `Sees`: of which runs it is a sight, and to what
/// `undo` would go back.
#[derive(Drop)]
pub struct Sight<V: Verifier> {
    cluster: Cluster,
    faulty: Faulty,
    keys: V,
    watch: Watch,
    certified: Certified,
    /// Whether the last frame that was seen was a message that was new, so that the watch goes back.
    shown: bool,
    /// How much was kept before it.
    before: Lengths,
}

impl<V: Verifier> Sight<V> {
    ghost use Rattle.run_sight.specs.Sights.{Sees, SeesFrame, SeesMessage, BreaksByFrame, BreaksByMessage, KeepsSight};
    ghost use Rattle.run_sight.specs.Sights.{GoesBack, Looks, Notes, NotesSome, SeesNothing};

    /// The sight of a run of this cluster with these faulty parties and this keyring, before its first frame. Takes no
    /// memory.
    pub fn new(alloc: Global, cluster: Cluster, faulty: Faulty, keys: V) -> Sight<V>
        ensures { (s : Setup) → AreOf (V.accepted keys) cluster s → faulty ≡ s.faulty →
            Sees V.Verifier result s (sight_of (start s)) (sight_of (start s)) }
    {
        let certified = Certified::new(alloc);
        let before = certified.lengths();
        Sight {
            cluster,
            faulty,
            keys,
            watch: Watch::new(alloc),
            certified,
            shown: false,
            before,
        }
    }

    /// Whether a party is one of the faulty ones.
    pub fn is_faulty(&self, party: Party) -> bool
        ensures { (s : Setup) (now earlier : SightValue) → Sees V.Verifier self.now s now earlier →
            result ≡ states.is_faulty s party }
    {
        self.faulty.has(party)
    }

    /// The cluster.
    pub fn cluster(&self) -> &Cluster
        ensures { (s : Setup) (now earlier : SightValue) → Sees V.Verifier self.now s now earlier →
            result.now ≡ s.cluster }
    {
        &self.cluster
    }

    /// The keyring.
    pub fn keys(&self) -> &V
        ensures { (s : Setup) (now earlier : SightValue) → Sees V.Verifier self.now s now earlier →
            V.accepted result.now ≡ s.kit.accepts }
    {
        &self.keys
    }

    /// Notes that a party signed these words. Where memory is wanting, only a first part of them is noted.
    pub fn note_all(&mut self, party: Party, signed: &[Words]) -> Result<(), NoMemory>
        ensures noted { OnOk result (Notes V.Verifier self.old self.new party signed.now) }
        ensures wanting { OnErr result (NotesSome V.Verifier self.old self.new party signed.now) }
    {
        for words in signed {
            self.watch.note(party, words)?;
        }
        Ok(())
    }

    /// Sees a frame, nested certificates too. It is refused by the first breach of a premise that it shows. Bytes that
    /// are no frame of the cluster show nothing. A refusal, also for want of memory, leaves the sight as before.
    ///
    /// A certificate's signatures are asked for only where it tells anything new of its transaction.
    pub fn see(&mut self, frame: &[u8]) -> Result<(), WatchFault>
        ensures seen { OnOk result (SeesFrame V.Verifier self.old self.new frame.now) }
        ensures breach { IfErr result (BreaksByFrame V.Verifier self.old frame.now) }
        ensures as_before { OnErr result (KeepsSight V.Verifier self.old self.new) }
    {
        match check(in_range(frame), &self.cluster) {
            Ok(m) => self.see_message(&m),
            Err(_) => {
                self.see_nothing();
                Ok(())
            }
        }
    }

    /// Sees a frame as `see` does. Of one that was seen before, as each message of a pool was when it entered, nothing
    /// is read, since it shows nothing new.
    pub fn look(&mut self, frame: &[u8], was_seen: bool) -> Result<(), WatchFault>
        ensures seen { OnOk result (Looks V.Verifier self.old self.new frame.now was_seen) }
        ensures breach { IfErr result (BreaksByFrame V.Verifier self.old frame.now) }
        ensures as_before { OnErr result (KeepsSight V.Verifier self.old self.new) }
    {
        if was_seen {
            seen_shows_nothing();
            self.see_nothing();
            return Ok(());
        }
        self.see(frame)
    }

    /// Takes back the last frame that was seen, once: where there is none, it showed nothing or it was taken back,
    /// nothing changes. What was noted stays. Takes no memory.
    pub fn undo(&mut self)
        ensures { GoesBack V.Verifier self.old self.new }
    {
        take_back(&mut self.watch, self.shown);
        self.certified.cut(self.before);
    }

    /// The decision on the transaction with this id that the first certificate proved, of those that were seen.
    pub fn decision_of(&self, id: &[u8; 32]) -> Option<Decision>
        ensures { (s : Setup) (st : State) (earlier : SightValue) → Sees V.Verifier self.now s (sight_of st) earlier →
            result ≡ decision_at st id.now }
    {
        self.certified.decision_of(id)
    }

    /// The transactions that a certificate which was seen proves to be committed, each once, ascending by version.
    pub fn committed(&self, alloc: Global) -> Result<Vec<Transaction>, NoMemory>
        ensures { IfOk result (λ ts. (s : Setup) (st : State) (earlier : SightValue) →
            Sees V.Verifier self.now s (sight_of st) earlier → ts.items ≡ committed_by_version st) }
    {
        self.certified.committed(alloc)
    }

    /// Sees a message.
    fn see_message(&mut self, m: &MessageView<'_>) -> Result<(), WatchFault>
        requires fits { FitsMessage (bounds_of self.old.cluster) (message_of m.now) }
        requires spoken { IsSpoken (message_of m.now) }
        ensures seen { OnOk result (SeesMessage V.Verifier self.old self.new (message_of m.now)) }
        ensures breach { IfErr result (BreaksByMessage V.Verifier self.old (message_of m.now)) }
        ensures as_before { OnErr result (KeepsSight V.Verifier self.old self.new) }
    {
        let before = self.certified.lengths();
        self.certified.certify(&self.keys, &self.cluster, m)?;
        match self.watch.see(&self.keys, &self.faulty, m) {
            Ok(()) => {
                self.shown = true;
                self.before = before;
                Ok(())
            }
            Err(fault) => {
                self.certified.cut(before);
                Err(fault)
            }
        }
    }

    /// Sees bytes that are no frame.
    fn see_nothing(&mut self)
        ensures { SeesNothing V.Verifier self.old self.new }
    {
        self.shown = false;
        self.before = self.certified.lengths();
    }
}

/// Takes back what a watch saw last, if it is to be taken back.
fn take_back(watch: &mut Watch, shown: bool)
    ensures back { shown ≡ true → watches.GoesBack watch.old watch.new }
    ensures same { shown ≡ false → watch.new ≡ watch.old }
{
    if shown {
        watch.undo();
    }
}

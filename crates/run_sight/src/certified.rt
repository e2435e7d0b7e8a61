//! What is kept of the pairs of a transaction and a certificate that proves its decision.

ghost use Rattle.std.specs.Prelude.{◌≡◌, [], ◌∷◌, ◌&&◌, ◌||◌, IfOk, OnOk, OnErr, length, map, take};
ghost use Rattle.std.specs.Map.{lookup};
ghost use Rattle.std.specs.Str.{bytes_eq};
ghost use Rattle.basil_types.specs.Decision as decisions;
ghost use Rattle.basil_types.specs.Replayed as replayed;
ghost use Rattle.basil_types.specs.Shown.{transaction_of};
ghost use Rattle.basil_types.specs.declared.party.Decision.TheVariants as verdict;
ghost use Rattle.frame_views.specs.Carried.{pairs_in};
ghost use Rattle.frame_views.specs.CarriedWalks.{pair_of};
ghost use Rattle.frame_views.specs.Fitting.{FitsCertificate, FitsMessage, bounds_of};
ghost use Rattle.frame_views.specs.Shown.{certificate_of, message_of};

use crate::ordered;
use crate::proven::is_proven;
use basil_types::cluster::Cluster;
use basil_types::memory::NoMemory;
use basil_types::party::{Decision, is_abort};
use basil_types::transaction::{Transaction, TransactionView};
use certificates::decision_of;
use frame_views::carried::{PairItem, pairs};
use frame_views::frames::MessageView;
use id_maps::map::{IdMap, empty_map};
use keyring::verifier::Verifier;
use std::alloc::Global;

/// The first decision and the first committed transaction of each id, in the order in which they came.
#[derive(Drop)]
pub(crate) struct Certified {
    alloc: Global,
    decisions: IdMap<[u8; 32], Decision>,
    commits: IdMap<[u8; 32], Transaction>,
}

/// How many decisions and committed transactions there were.
#[derive(Clone, Copy)]
pub(crate) struct Lengths {
    pub(crate) decisions: usize,
    pub(crate) commits: usize,
}

impl Certified {
    ghost use Rattle.run_sight.specs.Keeping.{AddsProven, HasGrown, SameKept, commits_of, decisions_of, has};
    ghost use Rattle.run_sight.specs.Keeping.{with_first};

    /// Nothing is kept. Takes no memory.
    pub(crate) fn new(alloc: Global) -> Certified
        ensures decisions { decisions_of result ≡ [] }
        ensures commits { commits_of result ≡ [] }
    {
        Certified {
            alloc,
            decisions: empty_map(alloc),
            commits: empty_map(alloc),
        }
    }

    /// How much is kept.
    pub(crate) fn lengths(&self) -> Lengths
        ensures decisions { result.decisions ≡ length (decisions_of self.now) }
        ensures commits { result.commits ≡ length (commits_of self.now) }
    {
        Lengths {
            decisions: self.decisions.len(),
            commits: self.commits.len(),
        }
    }

    /// Keeps the first of what was kept, so much, and no more. Takes no memory.
    pub(crate) fn cut(&mut self, lengths: Lengths)
        ensures decisions { decisions_of self.new ≡ take lengths.decisions (decisions_of self.old) }
        ensures commits { commits_of self.new ≡ take lengths.commits (commits_of self.old) }
    {
        self.decisions.truncate(lengths.decisions);
        self.commits.truncate(lengths.commits);
    }

    /// The decision of an id.
    pub(crate) fn decision_of(&self, id: &[u8; 32]) -> Option<Decision>
        ensures { result ≡ lookup (bytes_eq id.now) (decisions_of self.now) }
    {
        match self.decisions.get(id) {
            Some(decision) => Some(*decision),
            None => None,
        }
    }

    /// The committed transactions, by version.
    pub(crate) fn committed(&self, alloc: Global) -> Result<Vec<Transaction>, NoMemory>
        ensures { IfOk result (λ ts. ts.items ≡ replayed.by_version (map (λ e. e.1) (commits_of self.now))) }
    {
        ordered::by_version(alloc, self.commits.values().as_slice())
    }

    /// Keeps the pairs of a message that prove their decisions, where they tell anything new. Want of memory leaves
    /// what is kept as before.
    pub(crate) fn certify<V: Verifier>(
        &mut self,
        keys: &V,
        cluster: &Cluster,
        m: &MessageView<'_>,
    ) -> Result<(), NoMemory>
        requires { FitsMessage (bounds_of cluster.now) (message_of m.now) }
        ensures added { OnOk result
            (AddsProven (V.accepted keys.now) cluster.now (pairs_in (message_of m.now)) self.old self.new) }
        ensures grown { OnOk result (HasGrown self.old self.new) }
        ensures as_before { OnErr result (SameKept self.old self.new) }
    {
        let before = self.lengths();
        match self.certify_all(keys, cluster, m) {
            Ok(()) => Ok(()),
            Err(NoMemory) => {
                self.cut(before);
                Err(NoMemory)
            }
        }
    }

    /// Keeps such pairs up to the first for which memory is wanting.
    fn certify_all<V: Verifier>(
        &mut self,
        keys: &V,
        cluster: &Cluster,
        m: &MessageView<'_>,
    ) -> Result<(), NoMemory>
        requires { FitsMessage (bounds_of cluster.now) (message_of m.now) }
        ensures added { OnOk result
            (AddsProven (V.accepted keys.now) cluster.now (pairs_in (message_of m.now)) self.old self.new) }
        ensures grown { HasGrown self.old self.new }
    {
        for pair in pairs(m) {
            self.certify_pair(keys, cluster, pair)?;
        }
        Ok(())
    }

    /// Keeps a pair, if it tells anything new and proves its decision. Only then its signatures are asked for.
    fn certify_pair<V: Verifier>(
        &mut self,
        keys: &V,
        cluster: &Cluster,
        pair: PairItem<'_>,
    ) -> Result<(), NoMemory>
        requires { FitsCertificate (bounds_of cluster.now) (certificate_of pair.certificate) }
        ensures added { OnOk result
            (AddsProven (V.accepted keys.now) cluster.now (pair_of pair.entry ∷ []) self.old self.new) }
        ensures grown { HasGrown self.old self.new }
    {
        let id = pair.transaction.id();
        let decision = decision_of(&pair.certificate.body());
        if self.knows(&id, decision) {
            return Ok(());
        }
        if !is_proven(keys, cluster, &pair) {
            return Ok(());
        }
        self.keep(id, decision, pair.transaction)
    }

    /// Whether a pair of this id and this decision tells nothing new.
    fn knows(&self, id: &[u8; 32], decision: Decision) -> bool
        ensures { result ≡ (has (decisions_of self.now) id.now
            && (decisions.is_abort decision || has (commits_of self.now) id.now)) }
    {
        self.decisions.contains_key(id) && (is_abort(decision) || self.commits.contains_key(id))
    }

    /// Keeps a decision on a transaction of this id, and the transaction if it commits.
    fn keep(
        &mut self,
        id: [u8; 32],
        decision: Decision,
        t: TransactionView<'_>,
    ) -> Result<(), NoMemory>
        ensures decisions { OnOk result (decisions_of self.new ≡ with_first (decisions_of self.old) id decision) }
        ensures commits { OnOk result (decision ≡ verdict.Commit
            → commits_of self.new ≡ with_first (commits_of self.old) id (transaction_of t.entry)) }
        ensures aborts { OnOk result (decision ≡ verdict.Abort → commits_of self.new ≡ commits_of self.old) }
        ensures grown { HasGrown self.old self.new }
    {
        self.keep_decision(id, decision)?;
        match decision {
            Decision::Commit => self.keep_commit(id, t),
            Decision::Abort => Ok(()),
        }
    }

    /// Keeps the decision of an id that has none.
    fn keep_decision(&mut self, id: [u8; 32], decision: Decision) -> Result<(), NoMemory>
        ensures kept { OnOk result (decisions_of self.new ≡ with_first (decisions_of self.old) id decision) }
        ensures as_before { OnErr result (decisions_of self.new ≡ decisions_of self.old) }
        ensures commits { commits_of self.new ≡ commits_of self.old }
    {
        if self.decisions.contains_key(&id) {
            return Ok(());
        }
        self.decisions.insert(id, decision)?;
        Ok(())
    }

    /// Keeps the committed transaction of an id that has none.
    fn keep_commit(&mut self, id: [u8; 32], t: TransactionView<'_>) -> Result<(), NoMemory>
        ensures kept { OnOk result
            (commits_of self.new ≡ with_first (commits_of self.old) id (transaction_of t.entry)) }
        ensures as_before { OnErr result (commits_of self.new ≡ commits_of self.old) }
        ensures decisions { decisions_of self.new ≡ decisions_of self.old }
    {
        if self.commits.contains_key(&id) {
            return Ok(());
        }
        let transaction = t.try_owned(self.alloc)?;
        self.commits.insert(id, transaction)?;
        Ok(())
    }
}

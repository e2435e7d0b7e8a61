//! A replica: its book, and its answer to every frame, in one step or in two halves (Basil, sections 4 and 5).

ghost use Rattle.node_steps.specs.Pens.{pen_value};
ghost use Rattle.replica_core.specs.Nodes.{IsShown};

use crate::answering::plan_frame;
use crate::parts::Parts;
use crate::plan::Plan;
use crate::refusal::Refusal;
use crate::seat::Seat;
use basil_types::cluster::Cluster;
use basil_types::outbox::Outbox;
use basil_types::party::Party;
use decision_log::LogCell;
use keyring::signer::Signer;
use keyring::verifier::Verifier;
use std::alloc::Global;
use txn_table::released::Home;
use txn_table::table::Table;

/// A replica of a shard, with the keyring by which it tests signatures and the pen by which it signs. Some book is
/// always shown: what it holds, with noted reads for which its store stands.
#[derive(Drop)]
pub struct Replica<V: Verifier, S: Signer> {
    keys: V,
    pen: S,
    seat: Seat,
    parts: Parts,
    ghost shown: { ∥ IsShown parts (pen_value (S.spent pen) (S.left_of pen)) ∥₁ },
}

impl<V: Verifier, S: Signer> Replica<V, S> {
    ghost use Rattle.std.specs.Prelude.{◌≡◌, ◌<◌, [], None, IfOk, OnErr, length, option_map};
    ghost use Rattle.basil_types.specs.declared.party.Party.TheVariants as parties;
    ghost use Rattle.node_steps.specs.Pendings.{bytes_sent};
    ghost use Rattle.quorum_laws.specs.Numbers.{replicas};
    ghost use Rattle.replica_core.specs.declared.replica.Replica.{Replica};
    ghost use Rattle.replica_core.specs.Answers.{answer};
    ghost use Rattle.replica_core.specs.Known.{logged_with};
    ghost use Rattle.replica_core.specs.Leads.{kept_next};
    ghost use Rattle.replica_core.specs.Nodes.{Shows, ShowsSame, Performs, Steps, CanCommit, perform_plan};
    ghost use Rattle.replica_core.specs.Replicas.{BookValue, empty_book};
    ghost use Rattle.replica_core.specs.Seats.{self_at};
    ghost use Rattle.replica_core.specs.Shown.{ShowsBook};
    ghost use Rattle.replica_core.specs.Telling.{IsPlanned, begun};
    ghost use Rattle.replica_core.specs.Works.{word_count};

    /// A replica of this index of a shard of the cluster, before its first frame. Takes no memory.
    pub fn new(
        alloc: Global,
        cluster: Cluster,
        shard: u8,
        index: u8,
        keys: V,
        signer: S,
    ) -> Replica<V, S>
        requires shard { shard < cluster.shards }
        requires index { index < replicas cluster.f }
        requires party { (S.fixed signer).party ≡ parties.Replica shard index }
        ensures shown { let pen = pen_value (S.spent signer) (S.left_of signer) in
            Shows result.parts pen (empty_book pen) }
        ensures seat { result.seat ≡
            record { home = record { cluster = cluster; shard = shard }; index = index; alloc = alloc } }
        ensures keys { result.keys ≡ keys }
        ensures signer { result.pen ≡ signer }
    {
        Replica {
            keys,
            pen: signer,
            seat: Seat {
                home: Home { cluster, shard },
                index,
                alloc,
            },
            parts: Parts::new(alloc),
        }
    }

    /// Tests a frame that this sender sent, at this moment, and takes all memory of its answer; or its first refusal.
    /// What the replica shows stays as it was, and nothing is signed.
    pub fn plan(&mut self, now: u64, from: Party, frame: &[u8]) -> Result<Plan, Refusal>
        ensures answer { (book : BookValue) → ShowsBook self.old book →
            IsPlanned (perform_plan (S.fixed self.old.pen) (kept_next self.new.parts.leading)) book result
            (answer (self_at self.old.seat (V.accepted self.old.keys) (S.fixed self.old.pen)) now from book frame.now) }
        ensures ready { IfOk result
            (CanCommit (S.fixed self.new.pen).size (S.left_of self.new.pen) self.new.parts) }
        ensures same { ShowsSame self.old.parts self.new.parts }
        ensures keys { self.new.keys ≡ self.old.keys }
        ensures pen { self.new.pen ≡ self.old.pen }
        ensures seat { self.new.seat ≡ self.old.seat }
    {
        match plan_frame(
            &mut self.parts,
            &self.keys,
            &self.pen,
            &self.seat,
            now,
            from,
            frame,
        ) {
            Ok(work) => {
                let plan = Plan::of(self.seat.alloc, work, self.pen.size())?;
                Ok(plan)
            }
            Err(refused) => Err(refused),
        }
    }

    /// Does what was planned, and gives its messages and words in order. Takes no memory.
    pub fn commit(&mut self, plan: Plan) -> Outbox
        requires { CanCommit (S.fixed self.old.pen).size (S.left_of self.old.pen) self.old.parts plan }
        ensures done { (book : BookValue) → ShowsBook self.old book →
            Performs self.new.parts (pen_value (S.spent self.new.pen) (S.left_of self.new.pen)) result
            (perform_plan (S.fixed self.old.pen) (kept_next self.old.parts.leading) (begun book) plan) }
        ensures messages { length result.messages.items ≡ plan.messages }
        ensures bytes { bytes_sent result.messages.items ≡ plan.bytes }
        ensures words { length result.signed.items ≡ word_count plan.work }
        ensures keys { self.new.keys ≡ self.old.keys }
        ensures seat { self.new.seat ≡ self.old.seat }
        ensures fixed { S.fixed self.new.pen ≡ S.fixed self.old.pen }
    {
        let Plan { work, out, .. } = plan;
        let mut out = out;
        work.perform(&mut self.parts, &mut self.pen, &mut out);
        out
    }

    /// Lets a plan go: what the replica shows is what it was before the plan. Takes no memory.
    pub fn give_up(&mut self, plan: Plan)
        ensures same { ShowsSame self.old.parts self.new.parts }
        // No word is held back.
        ensures let_go { self.new.parts.leading.next ≡ None }
        ensures keys { self.new.keys ≡ self.old.keys }
        ensures pen { self.new.pen ≡ self.old.pen }
        ensures seat { self.new.seat ≡ self.old.seat }
    {
        drop(plan);
        self.parts.leading.give_up();
    }

    /// Answers a frame that this sender sent, at this moment: both halves, with what is sent and signed behind what the
    /// outbox held; or its first refusal, or want of memory, which leave the replica and the outbox as they were.
    pub fn step(
        &mut self,
        now: u64,
        from: Party,
        frame: &[u8],
        out: &mut Outbox,
    ) -> Result<(), Refusal>
        ensures answer { (book : BookValue) → ShowsBook self.old book →
            Steps self.new.parts (pen_value (S.spent self.new.pen) (S.left_of self.new.pen)) out.old out.new result
            (answer (self_at self.old.seat (V.accepted self.old.keys) (S.fixed self.old.pen)) now from book frame.now) }
        ensures as_before { OnErr result (ShowsSame self.old.parts self.new.parts) }
        ensures same_pen { OnErr result (self.new.pen ≡ self.old.pen) }
        ensures same_messages { OnErr result (out.new.messages.items ≡ out.old.messages.items) }
        ensures same_words { OnErr result (out.new.signed.items ≡ out.old.signed.items) }
        ensures keys { self.new.keys ≡ self.old.keys }
        ensures seat { self.new.seat ≡ self.old.seat }
        ensures fixed { S.fixed self.new.pen ≡ S.fixed self.old.pen }
    {
        match plan_frame(
            &mut self.parts,
            &self.keys,
            &self.pen,
            &self.seat,
            now,
            from,
            frame,
        ) {
            Ok(work) => {
                work.room_in(out)?;
                work.perform(&mut self.parts, &mut self.pen, out);
                Ok(())
            }
            Err(refused) => Err(refused),
        }
    }

    /// The known transactions, in order of arrival.
    pub fn table(&self) -> &Table
        ensures { (book : BookValue) → ShowsBook self.now book →
            result.now.entries ≡ book.entries }
    {
        &self.parts.known.table
    }

    /// What is logged of the transaction with this id, None where nothing is.
    pub fn cell(&self, id: &[u8; 32]) -> Option<LogCell>
        ensures { (book : BookValue) → ShowsBook self.now book →
            result ≡ option_map (λ l. l.cell) (logged_with book.logged id.now) }
    {
        match self.parts.logged.find(id) {
            Some(log) => Some(log.cell),
            None => None,
        }
    }
}

//! The pursuit of a transaction.

ghost use Rattle.std.specs.Prelude.{◌≡◌, ◌+◌, ◌<◌, ◌^◌, [], None, length};
ghost use Rattle.basil_types.specs.Transaction as transactions;
ghost use Rattle.certificates.specs.Deciding.{HasGoodForm};
ghost use Rattle.certificates.specs.Refusals as refusals;
ghost use Rattle.frame_values.specs.Owned.{certificate_value};
ghost use Rattle.frame_views.specs.Fitting.{IsId, IsSignature};
ghost use Rattle.txn_meta.specs.Places as places;
ghost use Rattle.client_recover.specs.Certifying.{certificate_by};
ghost use Rattle.quorum_laws.specs.Numbers.{replicas};
ghost use Rattle.client_recover.specs.Replies.{AreBelow};
ghost use Rattle.client_recover.specs.Writable.{AreSigned, AreSound, IsSoundLast, FitsOutcome, FitsOutcome-prop};

use crate::checks::{check_certificate, check_log, check_vote};
use crate::fast::{conflict, fast};
use crate::involved::Involved;
use crate::logs::{LastLog, Logs};
use crate::second::{ToLog, decision_by, logged};
use crate::votes::{CountedVote, Votes};
use basil_types::bytes::Bytes;
use basil_types::cluster::Cluster;
use basil_types::memory::NoMemory;
use basil_types::party::Decision;
use basil_types::transaction::{Transaction, TransactionView};
use certificates::FrameFault;
use frame_fitting::wider::may_be_written;
use frame_values::decoding::own_certificate;
use frame_values::owned::{Certificate, CertificateBody, InvokeMessage, Message, St2Message};
use frame_views::frames::{LogReplyView, MessageView, VoteView, WritebackView};
use keyring::verifier::Verifier;
use std::alloc::Global;
use std::mem;
use txn_meta::places::log_shard;

/// What the last frame that was taken changed. What changes a pursuit changes one without an outcome.
#[derive(Drop)]
pub enum Last {
    /// Nothing that is kept.
    Same,
    /// A vote counts.
    Vote,
    /// A log reply counts.
    Log(LastLog),
    /// A certificate is the outcome.
    Outcome,
}

/// A transaction that a client pursues. Contracts see the list of the valid frames that were taken for it before it had
/// an outcome; of these only what counts is kept.
#[derive(Drop)]
pub struct Pursuit {
    alloc: Global,
    cluster: Cluster,
    transaction: Transaction,
    signature: Bytes,
    id: [u8; 32],
    shards: Involved,
    votes: Votes,
    logs: Logs,
    outcome: Option<Certificate>,
    last: Last,
    ghost form: { HasGoodForm transaction },
    ghost signed: { IsSignature signature },
    ghost named: { id ≡ transactions.id transaction },
    ghost involves: { shards ≡ places.involved cluster transaction },
    ghost few: { length votes + logs.count < 2 ^ 32 },
    ghost votes_signed: { AreSigned votes },
    ghost logs_sound: { AreSound logs },
    ghost logs_below: { AreBelow (replicas cluster.f) logs },
    ghost last_sound: { IsSoundLast last },
    ghost outcome_fits: { FitsOutcome outcome } by { FitsOutcome-prop outcome },
}

impl Pursuit {
    ghost use Rattle.std.specs.Prelude.{◌≢◌, ◌∷◌, Bool, false, Some, Err, IfOk, IfSome, OnOk, OnErr, IfErr, is_some};
    ghost use Rattle.std.specs.Prelude.{option_map, if◌then◌else◌, ◌==◌};
    ghost use Rattle.std.specs.Option.{ForSome};
    ghost use Rattle.std.specs.Str.{bytes_eq};
    ghost use Rattle.basil_types.specs.Built.{or_else};
    ghost use Rattle.basil_types.specs.Shown.{transaction_of};
    ghost use Rattle.certificates.specs.declared.fault.FrameFault.TheVariants as faults;
    ghost use Rattle.frame_values.specs.Owned.{message_value};
    ghost use Rattle.frame_views.specs.Fitting.{FitsMessage, FitsVoted, FitsLogReply, FitsWriteback, FitsCertificate};
    ghost use Rattle.frame_views.specs.Fitting.{bounds_of, widest};
    ghost use Rattle.frame_views.specs.Shown.{message_of, voted_of};
    ghost use Rattle.frame_views.specs.Shown as shown;
    ghost use Rattle.frame_views.specs.Values.{CertificateValue};
    ghost use Rattle.client_recover.specs.Taken.{PursuitValue, TakenVote, TakenLog, TakenCertificate};
    ghost use Rattle.client_recover.specs.Certifying as certifying;
    ghost use Rattle.client_recover.specs.Certifying.{conflict_by};
    ghost use Rattle.client_recover.specs.Counting.{replies_held, replies_of};
    ghost use Rattle.client_recover.specs.Frames.{vote_of, log_reply_of, writeback_of};
    ghost use Rattle.client_recover.specs.Frames.{vote_taken, log_taken, certificate_taken};
    ghost use Rattle.client_recover.specs.Kept as kept;
    ghost use Rattle.client_recover.specs.Kept.{fast_by, logged_by};
    ghost use Rattle.client_recover.specs.Owned.{shown_outcome, logged_value, unstarted, invoked};
    ghost use Rattle.client_recover.specs.Pursuits as pursuits;
    ghost use Rattle.client_recover.specs.Pursuits.{second_stage, invoke_message};
    ghost use Rattle.client_recover.specs.Quorums as quorums;
    ghost use Rattle.client_recover.specs.Standing.{StandsFor, GoesBackTo, SameTask, Takes, TakesOf, IsAsBefore};

    /// The pursuit of a transaction of good form that its client signed, for which no frame was taken. Takes no memory.
    pub fn new(
        alloc: Global,
        transaction: Transaction,
        signature: Bytes,
        cluster: Cluster,
    ) -> Pursuit
        requires form { HasGoodForm transaction }
        requires signature { IsSignature signature }
        ensures stands { (second : Bool) → StandsFor result
            (record { transaction = transaction; signature = signature; taken = []; second = second }) }
        ensures transaction { result.transaction ≡ transaction }
        ensures signature { result.signature ≡ signature }
        ensures cluster { result.cluster ≡ cluster }
    {
        nothing_decided(&transaction, &cluster);
        let id = own_id(&transaction);
        let shards = own_shards(&transaction, &cluster);
        Pursuit {
            alloc,
            cluster,
            transaction,
            signature,
            id,
            shards,
            votes: Votes::new(alloc),
            logs: Logs::new(alloc),
            outcome: None,
            last: Last::Same,
        }
    }

    /// Takes a vote on the transaction, or answers the first fault of the frame; the first valid vote of each replica
    /// counts (Basil, stage 1). NotMine where the frame is no vote, names another transaction or is of a shard that
    /// isn't involved; then BadSignature, and BadCertificate of its proof. It is for a frame of the pursuit's cluster.
    /// A refusal, want of memory too, leaves all as before. The time depends on the frame and on the cluster alone.
    pub fn add_vote<V: Verifier>(&mut self, keys: &V, m: &MessageView<'_>) -> Result<(), FrameFault>
        requires { FitsMessage (bounds_of self.old.cluster) (message_of m.now) }
        ensures taken { OnOk result (TakesOf (vote_taken (V.accepted keys.now) self.old.cluster self.old.transaction
            (vote_of (message_of m.now))) self.old self.new) }
        ensures refused { IfErr result (λ e. e ≢ faults.NoMemory → vote_taken (V.accepted keys.now) self.old.cluster
            self.old.transaction (vote_of (message_of m.now)) ≡ Err e) }
        ensures as_before { OnErr result (IsAsBefore self.old self.new) }
        ensures same_task { SameTask self.old self.new }
    {
        match m {
            MessageView::Vote(vote) => self.add_one_vote(keys, vote),
            MessageView::Read(_)
            | MessageView::ReadReply(_)
            | MessageView::St1(_)
            | MessageView::St2(_)
            | MessageView::LogReply(_)
            | MessageView::Writeback(_)
            | MessageView::Recover(_)
            | MessageView::Invoke(_)
            | MessageView::Elect(_)
            | MessageView::Decide(_) => Err(FrameFault::NotMine),
        }
    }

    /// Takes a log reply on the transaction, or answers the first fault of the frame; each valid one counts (Basil,
    /// stage 2). NotMine where the frame is no log reply, names another transaction or is of another shard than the log
    /// shard; then BadSignature. It is for a frame of the pursuit's cluster.
    /// A refusal, want of memory too, leaves all as before. The time depends on the frame and on the cluster alone.
    pub fn add_log<V: Verifier>(&mut self, keys: &V, m: &MessageView<'_>) -> Result<(), FrameFault>
        requires { FitsMessage (bounds_of self.old.cluster) (message_of m.now) }
        ensures taken { OnOk result (TakesOf (log_taken (V.accepted keys.now) self.old.cluster self.old.transaction
            (log_reply_of (message_of m.now))) self.old self.new) }
        ensures refused { IfErr result (λ e. e ≢ faults.NoMemory → log_taken (V.accepted keys.now) self.old.cluster
            self.old.transaction (log_reply_of (message_of m.now)) ≡ Err e) }
        ensures as_before { OnErr result (IsAsBefore self.old self.new) }
        ensures same_task { SameTask self.old self.new }
    {
        match m {
            MessageView::LogReply(reply) => self.add_one_log(keys, reply),
            MessageView::Read(_)
            | MessageView::ReadReply(_)
            | MessageView::St1(_)
            | MessageView::Vote(_)
            | MessageView::St2(_)
            | MessageView::Writeback(_)
            | MessageView::Recover(_)
            | MessageView::Invoke(_)
            | MessageView::Elect(_)
            | MessageView::Decide(_) => Err(FrameFault::NotMine),
        }
    }

    /// Takes the certificate of a writeback of the transaction, or answers the first fault of the frame; the first
    /// valid one decides. NotMine where the frame is no writeback or is of another transaction; then BadCertificate. It
    /// is for a frame of the pursuit's cluster.
    /// A refusal, want of memory too, leaves all as before.
    pub fn add_certificate<V: Verifier>(
        &mut self,
        keys: &V,
        m: &MessageView<'_>,
    ) -> Result<(), FrameFault>
        requires { FitsMessage (bounds_of self.old.cluster) (message_of m.now) }
        ensures taken { OnOk result (TakesOf (certificate_taken (V.accepted keys.now) self.old.cluster
            self.old.transaction (writeback_of (message_of m.now))) self.old self.new) }
        ensures refused { IfErr result (λ e. e ≢ faults.NoMemory → certificate_taken (V.accepted keys.now)
            self.old.cluster self.old.transaction (writeback_of (message_of m.now)) ≡ Err e) }
        ensures as_before { OnErr result (IsAsBefore self.old self.new) }
        ensures same_task { SameTask self.old self.new }
    {
        match m {
            MessageView::Writeback(writeback) => self.add_one_certificate(keys, writeback),
            MessageView::Read(_)
            | MessageView::ReadReply(_)
            | MessageView::St1(_)
            | MessageView::Vote(_)
            | MessageView::St2(_)
            | MessageView::LogReply(_)
            | MessageView::Recover(_)
            | MessageView::Invoke(_)
            | MessageView::Elect(_)
            | MessageView::Decide(_) => Err(FrameFault::NotMine),
        }
    }

    /// Takes back the last add that was Ok, once: where there is none, or it was taken back, nothing changes. Takes no
    /// memory.
    pub fn undo(&mut self)
        ensures now { (p : PursuitValue) → GoesBackTo self.old p → StandsFor self.new p }
        ensures once { (p : PursuitValue) → GoesBackTo self.old p → GoesBackTo self.new p }
        ensures same_task { SameTask self.old self.new }
    {
        match mem::replace(&mut self.last, Last::Same) {
            Last::Same => {}
            Last::Vote => {
                self.votes.pop();
                self.outcome = None;
            }
            Last::Log(last) => {
                self.logs.take_back(last);
                self.outcome = None;
            }
            Last::Outcome => self.outcome = None,
        }
    }

    /// The decision that the second stage would log, by the votes that count: commit where each involved shard has a
    /// commit tally, else abort where some has an abort tally (Basil, stage 2).
    pub fn settled(&self) -> Option<Decision>
        ensures { (p : PursuitValue) → StandsFor self.now p →
            result ≡ option_map (λ l. l.decision) (certifying.settled self.now.cluster p.transaction p.taken) }
    {
        decision_by(&self.cluster, self.shards.as_slice(), &self.votes)
    }

    /// The message of the second stage, with the tallies of the lowest voters, or want of memory. None exactly where
    /// `settled` is None.
    pub fn second(&self) -> Result<Option<Message>, NoMemory>
        ensures value { (p : PursuitValue) → StandsFor self.now p → IfOk result (λ m. option_map message_value m
            ≡ option_map (second_stage p) (certifying.settled self.now.cluster p.transaction p.taken)) }
        // It has a spelling.
        ensures fits { IfOk result (λ m. IfSome m (λ m. FitsMessage widest (message_value m))) }
    {
        self.seconds_fit();
        let to_log = logged(
            self.alloc,
            &self.cluster,
            self.shards.as_slice(),
            &self.votes,
        )?;
        match to_log {
            Some(to_log) => {
                let message = self.second_of(to_log)?;
                Ok(Some(message))
            }
            None => Ok(None),
        }
    }

    /// The message that invokes the fallback, with each replica's latest log reply, or want of memory. None exactly
    /// where no log reply was taken (Basil, fallback).
    pub fn invoke(&self) -> Result<Option<Message>, NoMemory>
        ensures value { (p : PursuitValue) → StandsFor self.now p → IfOk result (λ m. option_map message_value m
            ≡ (if length (replies_of p.taken) == 0 then None else Some (invoke_message self.now.cluster p))) }
        // It has a spelling.
        ensures fits { IfOk result (λ m. IfSome m (λ m. FitsMessage widest (message_value m))) }
    {
        self.invokes_fit();
        if self.logs.count() == 0 {
            return Ok(None);
        }
        let message = self.invoke_message()?;
        Ok(Some(message))
    }

    /// Whether every replica of every involved shard has a vote that counts.
    pub fn all_voted(&self) -> bool
        ensures { (p : PursuitValue) → StandsFor self.now p →
            result ≡ certifying.all_voted self.now.cluster p.transaction p.taken }
    {
        self.votes
            .each_has_all(&self.cluster, self.shards.as_slice())
    }

    /// How many votes count, and log replies were taken, together.
    pub fn held(&self) -> u32
        ensures { (p : PursuitValue) → StandsFor self.now p → result ≡ replies_held p.taken }
    {
        self.count()
    }

    /// What `held` told before the last add that `undo` would take back.
    pub fn held_before(&self) -> u32
        ensures { (p : PursuitValue) → GoesBackTo self.now p → result ≡ replies_held p.taken }
    {
        let votes = self.votes.len() as u32;
        let logs = self.logs.count();
        match &self.last {
            Last::Same | Last::Outcome => votes + logs,
            Last::Vote => votes.saturating_sub(1) + logs,
            Last::Log(_) => votes + logs.saturating_sub(1),
        }
    }

    /// The cluster whose frames it takes.
    pub fn cluster(&self) -> &Cluster
        ensures { result.now ≡ self.now.cluster }
    {
        &self.cluster
    }

    /// The transaction, which has a good form.
    pub fn transaction(&self) -> &Transaction
        ensures value { result.now ≡ self.now.transaction }
        ensures form { HasGoodForm self.now.transaction }
    {
        &self.transaction
    }

    /// The signature of the transaction's client, 1 to 8,192 bytes.
    pub fn signature(&self) -> &[u8]
        ensures value { result.now ≡ self.now.signature }
        ensures fits { IsSignature result.now }
    {
        self.signature.as_slice()
    }

    /// The transaction's id.
    pub fn id(&self) -> &[u8; 32]
        ensures { result.now ≡ transactions.id self.now.transaction }
    {
        &self.id
    }

    /// The shards of the transaction's keys, ascending.
    pub fn shards(&self) -> &[u8]
        ensures { result.now ≡ places.involved self.now.cluster self.now.transaction }
    {
        self.shards.as_slice()
    }

    /// The decision and its certificate. None exactly where the frames that were taken decide nothing.
    pub fn outcome(&self) -> Option<(Decision, &Certificate)>
        ensures value { (p : PursuitValue) → StandsFor self.now p →
            option_map shown_outcome result ≡ pursuits.outcome self.now.cluster p }
        // The certificate has a spelling.
        ensures fits { IfSome result (λ o. FitsCertificate widest (certificate_value o.1.now)) }
    {
        match &self.outcome {
            Some(certificate) => Some((decision_of(certificate), certificate)),
            None => None,
        }
    }

    /// What `outcome` told before the last add that `undo` would take back.
    pub fn outcome_before(&self) -> Option<(Decision, &Certificate)>
        ensures value { (p : PursuitValue) → GoesBackTo self.now p →
            option_map shown_outcome result ≡ pursuits.outcome self.now.cluster p }
        // The certificate has a spelling.
        ensures fits { IfSome result (λ o. FitsCertificate widest (certificate_value o.1.now)) }
    {
        match &self.last {
            Last::Same => self.outcome(),
            Last::Vote | Last::Log(_) | Last::Outcome => None,
        }
    }

    /// A second stage that the votes allow has a spelling.
    fn seconds_fit(&self)
        ensures { ForSome (logged_by self.now.cluster self.now.shards self.now.votes)
            (λ l. FitsMessage widest (second_stage (unstarted self.now.transaction self.now.signature) l)) }
    {
        let _ = self.cluster.n();
        let _ = self.transaction.view();
    }

    /// The invoke with the log replies that are kept has a spelling.
    fn invokes_fit(&self)
        ensures { FitsMessage widest (invoked self.now.cluster self.now.transaction self.now.logs) }
    {
        let _ = self.cluster.n();
        let _ = self.log_shard();
        id_fits(&self.id);
    }

    /// What the votes decide has a spelling, where this is the last of them.
    fn decided_fits(&self, vote: &VoteView<'_>)
        requires { FitsVoted (bounds_of self.now.cluster) (voted_of vote.now) }
        ensures { ForSome (or_else (fast_by self.now.cluster self.now.id self.now.shards self.now.votes)
            (conflict_by self.now.transaction (voted_of vote.now))) (FitsCertificate widest) }
    {
        let _ = self.cluster.n();
        id_fits(&self.id);
        may_be_written();
    }

    /// What the log replies decide has a spelling.
    fn logged_fits(&self, decision: Decision, decided: u64)
        ensures { ForSome (quorums.logged_as self.now.cluster self.now.transaction self.now.logs decision decided)
            (FitsCertificate widest) }
    {
        let _ = self.cluster.n();
        let _ = self.log_shard();
        id_fits(&self.id);
    }

    /// A certificate that fits the cluster has a spelling.
    fn certificates_fit(&self)
        ensures { (c : CertificateValue) → FitsCertificate (bounds_of self.now.cluster) c → FitsCertificate widest c }
    {
        let _ = self.cluster.n();
        may_be_written();
    }

    /// The message of a second stage that logs this.
    fn second_of(&self, to_log: ToLog) -> Result<Message, NoMemory>
        ensures { IfOk result (λ m. message_value m
            ≡ second_stage (unstarted self.now.transaction self.now.signature) (logged_value to_log)) }
    {
        Ok(Message::St2(St2Message {
            transaction: self.transaction.try_copy(self.alloc)?,
            signature: Bytes::copy_of(self.alloc, self.signature.as_slice())?,
            decision: to_log.decision,
            tallies: to_log.tallies,
        }))
    }

    /// The message of an invoke, with the log replies that are kept.
    fn invoke_message(&self) -> Result<Message, NoMemory>
        ensures { IfOk result (λ m. message_value m ≡ invoked self.now.cluster self.now.transaction self.now.logs) }
    {
        let shard = self.log_shard();
        let replies = self.logs.latest_of_each(self.alloc, &self.cluster)?;
        Ok(Message::Invoke(InvokeMessage {
            id: self.id,
            shard,
            replies,
        }))
    }

    /// The log shard.
    fn log_shard(&self) -> u8
        ensures value { result ≡ places.log_shard self.now.cluster self.now.transaction }
        ensures in_range { result < self.now.cluster.shards }
    {
        log_shard(self.transaction.view(), &self.cluster)
    }

    /// How many votes and log replies are counted.
    fn count(&self) -> u32
        ensures { result ≡ length self.now.votes + self.now.logs.count }
    {
        self.votes.len() as u32 + self.logs.count()
    }

    /// Takes a vote, or answers its first fault.
    fn add_one_vote<V: Verifier>(&mut self, keys: &V, vote: &VoteView<'_>) -> Result<(), FrameFault>
        requires { FitsVoted (bounds_of self.old.cluster) (voted_of vote.now) }
        ensures taken { OnOk result (TakesOf (vote_taken (V.accepted keys.now) self.old.cluster self.old.transaction
            (Some (voted_of vote.now))) self.old self.new) }
        ensures refused { IfErr result (λ e. e ≢ faults.NoMemory → vote_taken (V.accepted keys.now) self.old.cluster
            self.old.transaction (Some (voted_of vote.now)) ≡ Err e) }
        ensures as_before { OnErr result (IsAsBefore self.old self.new) }
        ensures same_task { SameTask self.old self.new }
    {
        if !self.is_named(&vote.id) {
            return Err(FrameFault::NotMine);
        }
        match check_vote(keys, &self.cluster, self.transaction.view(), vote) {
            Ok(()) => {
                self.take_vote(vote)?;
                Ok(())
            }
            Err(fault) => Err(fault),
        }
    }

    /// Whether this is the id of the transaction that is pursued.
    fn is_named(&self, id: &[u8; 32]) -> bool
        ensures { result ≡ bytes_eq id.now (transactions.id self.now.transaction) }
    {
        id.as_slice() == self.id.as_slice()
    }

    /// Whether there is an outcome.
    fn is_decided(&self) -> bool
        ensures { result ≡ is_some self.now.outcome }
    {
        self.outcome.is_some()
    }

    /// Takes a valid vote.
    fn take_vote(&mut self, vote: &VoteView<'_>) -> Result<(), NoMemory>
        requires { FitsVoted (bounds_of self.old.cluster) (voted_of vote.now) }
        ensures taken { OnOk result (Takes self.old self.new (TakenVote (voted_of vote.now))) }
        ensures as_before { OnErr result (IsAsBefore self.old self.new) }
        ensures same_task { SameTask self.old self.new }
    {
        if self.is_decided() {
            self.last = Last::Same;
            return Ok(());
        }
        let _ = self.cluster.n();
        if self.votes.has_voted(vote.shard, vote.replica) {
            self.last = Last::Same;
            return Ok(());
        }
        self.count_vote(vote)
    }

    /// Counts a vote, and decides by it.
    fn count_vote(&mut self, vote: &VoteView<'_>) -> Result<(), NoMemory>
        requires open { self.old.outcome ≡ None }
        requires first { kept.has_voted (voted_of vote.now).shard
            (voted_of vote.now).replica self.old.votes ≡ false }
        requires fits { FitsVoted (bounds_of self.old.cluster) (voted_of vote.now) }
        ensures taken { OnOk result (Takes self.old self.new (TakenVote (voted_of vote.now))) }
        ensures as_before { OnErr result (IsAsBefore self.old self.new) }
        ensures same_task { SameTask self.old self.new }
    {
        if self.count() == u32::MAX {
            return Err(NoMemory);
        }
        let counted = CountedVote {
            shard: vote.shard,
            replica: vote.replica,
            decision: vote.decision,
            signature: Bytes::copy_of(self.alloc, vote.signature)?,
        };
        let _ = self.cluster.n();
        self.votes.push(counted)?;
        self.decided_fits(vote);
        match self.decided_by(vote) {
            Ok(outcome) => {
                self.outcome = outcome;
                self.last = Last::Vote;
                Ok(())
            }
            Err(refused) => {
                self.votes.pop();
                Err(refused)
            }
        }
    }

    /// What the votes that count decide, where this is the last of them.
    fn decided_by(&self, vote: &VoteView<'_>) -> Result<Option<Certificate>, NoMemory>
        ensures { IfOk result (λ o. option_map certificate_value o ≡ or_else
            (fast_by self.now.cluster self.now.id self.now.shards self.now.votes)
            (conflict_by self.now.transaction (voted_of vote.now))) }
    {
        let decided = fast(
            self.alloc,
            &self.cluster,
            &self.id,
            self.shards.as_slice(),
            &self.votes,
        )?;
        match decided {
            Some(certificate) => Ok(Some(certificate)),
            None => conflict(self.alloc, &self.id, vote),
        }
    }

    /// Takes a log reply, or answers its first fault.
    fn add_one_log<V: Verifier>(
        &mut self,
        keys: &V,
        reply: &LogReplyView<'_>,
    ) -> Result<(), FrameFault>
        requires { FitsLogReply (bounds_of self.old.cluster) (shown.log_reply_of reply.now) }
        ensures taken { OnOk result (TakesOf (log_taken (V.accepted keys.now) self.old.cluster self.old.transaction
            (Some (shown.log_reply_of reply.now))) self.old self.new) }
        ensures refused { IfErr result (λ e. e ≢ faults.NoMemory → log_taken (V.accepted keys.now) self.old.cluster
            self.old.transaction (Some (shown.log_reply_of reply.now)) ≡ Err e) }
        ensures as_before { OnErr result (IsAsBefore self.old self.new) }
        ensures same_task { SameTask self.old self.new }
    {
        if !self.is_named(&reply.id) {
            return Err(FrameFault::NotMine);
        }
        match check_log(keys, &self.cluster, self.transaction.view(), reply) {
            Ok(()) => {
                self.take_log(reply)?;
                Ok(())
            }
            Err(fault) => Err(fault),
        }
    }

    /// Takes a valid log reply.
    fn take_log(&mut self, reply: &LogReplyView<'_>) -> Result<(), NoMemory>
        requires { FitsLogReply (bounds_of self.old.cluster) (shown.log_reply_of reply.now) }
        ensures taken { OnOk result (Takes self.old self.new (TakenLog (shown.log_reply_of reply.now))) }
        ensures as_before { OnErr result (IsAsBefore self.old self.new) }
        ensures same_task { SameTask self.old self.new }
    {
        if self.is_decided() {
            self.last = Last::Same;
            return Ok(());
        }
        self.count_log(reply)
    }

    /// Counts a log reply, and decides by it.
    fn count_log(&mut self, reply: &LogReplyView<'_>) -> Result<(), NoMemory>
        requires open { self.old.outcome ≡ None }
        requires fits { FitsLogReply (bounds_of self.old.cluster) (shown.log_reply_of reply.now) }
        ensures taken { OnOk result (Takes self.old self.new (TakenLog (shown.log_reply_of reply.now))) }
        ensures as_before { OnErr result (IsAsBefore self.old self.new) }
        ensures same_task { SameTask self.old self.new }
    {
        if self.count() == u32::MAX {
            return Err(NoMemory);
        }
        let last = self.logs.add(self.alloc, reply)?;
        self.logged_fits(reply.decision, reply.decided);
        match self.logged_as(reply.decision, reply.decided) {
            Ok(outcome) => {
                self.outcome = outcome;
                self.last = Last::Log(last);
                Ok(())
            }
            Err(refused) => {
                self.logs.take_back(last);
                Err(refused)
            }
        }
    }

    /// The certificate of this decision, where a log quorum logged it in this view.
    fn logged_as(&self, decision: Decision, decided: u64) -> Result<Option<Certificate>, NoMemory>
        ensures { IfOk result (λ o. option_map certificate_value o ≡ quorums.logged_as
            self.now.cluster self.now.transaction self.now.logs decision decided) }
    {
        if !self.logs.has_quorum(&self.cluster, decision, decided) {
            return Ok(None);
        }
        let logs = self
            .logs
            .quorum(self.alloc, &self.cluster, decision, decided)?;
        Ok(Some(Certificate {
            id: self.id,
            body: CertificateBody::Logged {
                shard: self.log_shard(),
                decision,
                decided,
                logs,
            },
        }))
    }

    /// Takes a certificate, or answers the first fault of its frame.
    fn add_one_certificate<V: Verifier>(
        &mut self,
        keys: &V,
        m: &WritebackView<'_>,
    ) -> Result<(), FrameFault>
        requires { FitsWriteback (bounds_of self.old.cluster) (shown.writeback_of m.now) }
        ensures taken { OnOk result (TakesOf (certificate_taken (V.accepted keys.now) self.old.cluster
            self.old.transaction (Some (shown.writeback_of m.now))) self.old self.new) }
        ensures refused { IfErr result (λ e. e ≢ faults.NoMemory → certificate_taken (V.accepted keys.now)
            self.old.cluster self.old.transaction (Some (shown.writeback_of m.now)) ≡ Err e) }
        ensures as_before { OnErr result (IsAsBefore self.old self.new) }
        ensures same_task { SameTask self.old self.new }
    {
        if !self.is_of(m.transaction) {
            return Err(FrameFault::NotMine);
        }
        match check_certificate(keys, &self.cluster, self.transaction.view(), m) {
            Ok(()) => {
                self.take_certificate(m)?;
                Ok(())
            }
            Err(fault) => Err(fault),
        }
    }

    /// Whether a transaction has the id of the one that is pursued.
    fn is_of(&self, t: TransactionView<'_>) -> bool
        ensures { result ≡ bytes_eq (transactions.id (transaction_of t.entry)) (transactions.id self.now.transaction) }
    {
        t.id().as_slice() == self.id.as_slice()
    }

    /// Takes a valid certificate.
    fn take_certificate(&mut self, m: &WritebackView<'_>) -> Result<(), NoMemory>
        requires { FitsWriteback (bounds_of self.old.cluster) (shown.writeback_of m.now) }
        ensures taken { OnOk result
            (Takes self.old self.new (TakenCertificate (shown.writeback_of m.now).certificate)) }
        ensures as_before { OnErr result (IsAsBefore self.old self.new) }
        ensures same_task { SameTask self.old self.new }
    {
        if self.is_decided() {
            self.last = Last::Same;
            return Ok(());
        }
        let certificate = own_certificate(self.alloc, &m.certificate)?;
        self.certificates_fit();
        self.outcome = Some(certificate);
        self.last = Last::Outcome;
        Ok(())
    }
}

/// The decision that an owned certificate is for.
fn decision_of(certificate: &Certificate) -> Decision
    ensures { result ≡ refusals.decision_of (certificate_value certificate.now).body }
{
    match &certificate.body {
        CertificateBody::FastCommit { .. } => Decision::Commit,
        CertificateBody::Logged { decision, .. } => *decision,
        CertificateBody::FastAbort { .. } | CertificateBody::ConflictAbort { .. } => {
            Decision::Abort
        }
    }
}

/// An id has 32 bytes.
fn id_fits(id: &[u8; 32])
    ensures { IsId id.now }
{}

/// The id of a transaction.
fn own_id(t: &Transaction) -> [u8; 32]
    ensures { result ≡ transactions.id t.now }
{
    t.id()
}

/// The shards of a transaction's keys.
fn own_shards(t: &Transaction, cluster: &Cluster) -> Involved
    ensures { result ≡ places.involved cluster.now t.now }
{
    Involved::of(t.view(), cluster)
}

/// With no frame there is no decision: some shard is involved, and it has no vote.
fn nothing_decided(t: &Transaction, cluster: &Cluster)
    requires { HasGoodForm t.now }
    ensures { certificate_by cluster.now t.now [] ≡ None }
{
    let _ = cluster.n();
    let _ = log_shard(t.view(), cluster);
}

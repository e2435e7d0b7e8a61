//! Election words and leaders' decisions are planned (Basil, fallback).

ghost use Rattle.node_steps.specs.Pendings.{Sends};
ghost use Rattle.replica_core.specs.LeadWorks.{lead_bytes};
ghost use Rattle.std.specs.Prelude.{◌≡◌, ◌≤◌, [], None, Some, All, IfOk, IfSome, length, map, option_map};
ghost use Rattle.std.specs.List.{range_with_len};
ghost use Rattle.basil_types.specs.declared.party.Party.TheVariants as parties;
ghost use Rattle.basil_types.specs.Limits.{signature_limit};
ghost use Rattle.basil_types.specs.Shown.{transaction_of};
ghost use Rattle.basil_types.specs.Transaction as transactions;
ghost use Rattle.basil_types.specs.Words.{words_of};
ghost use Rattle.certificates.specs.Accepted.{Accepted};
ghost use Rattle.fallback_leader.specs.Elections.{proposal_value, ProposalValue};
ghost use Rattle.frame_values.specs.Owned.{word_value};
ghost use Rattle.frame_views.specs.Fitting.{widest, after_word, AreCounted, FitsWord, IsSignature};
ghost use Rattle.frame_views.specs.Shown.{elect_message_of, decide_of};
ghost use Rattle.frame_writing.specs.Unsigned.{unsigned_decide};
ghost use Rattle.node_steps.specs.Pendings.{front_of, fronts_of, HasRoomFor, IsReady};
ghost use Rattle.node_steps.specs.Pens.{pen_value};
ghost use Rattle.node_steps.specs.Refusing.{unless};
ghost use Rattle.quorum_laws.specs.Numbers.{replicas};
ghost use Rattle.replica_core.specs.Replicas.{BookValue, LoggedEntry};
ghost use Rattle.basil_types.specs.Built.{or_else};
ghost use Rattle.basil_types.specs.Transaction.{TransactionValue};
ghost use Rattle.decision_log.specs.Cells.{cell_of, adopt_fault};
ghost use Rattle.frame_views.specs.Values.{ElectValue, DecideValue};
ghost use Rattle.keyring.specs.Signing.{Signing};
ghost use Rattle.std.specs.Prelude.{Option, OnOk, IfErr, not, ◌==◌};
ghost use Rattle.txn_meta.specs.Places.{leader_of};
ghost use Rattle.replica_core.specs.Elections.{answer_elect, answer_decide, collect, propose_done, fault_of};
ghost use Rattle.replica_core.specs.Elections.{bad_election};
ghost use Rattle.replica_core.specs.Elections.{adopt_done, askers_with};
ghost use Rattle.replica_core.specs.Holding.{KeepsNoted, arrived_in};
ghost use Rattle.replica_core.specs.Known as tables;
ghost use Rattle.replica_core.specs.KnownWorks as works;
ghost use Rattle.replica_core.specs.ElectFronts.{front_for, decide_said};
ghost use Rattle.replica_core.specs.Known.{with_known};
ghost use Rattle.replica_core.specs.Leads.{kept_next};
ghost use Rattle.replica_core.specs.LeadWorks.{CanLead, lead_book_of, lead_book_at, perform_lead, lead_messages};
ghost use Rattle.replica_core.specs.LeadWorks.{lead_words, kept_after, adopts};
ghost use Rattle.replica_core.specs.LogFronts.{pen_at};
ghost use Rattle.replica_core.specs.LogWorks.{CanSay, CanLog, log_book_of, perform_log};
ghost use Rattle.replica_core.specs.Seats.{self_at, book_of};
ghost use Rattle.replica_core.specs.Signing.{exhausted};
ghost use Rattle.replica_core.specs.Telling.{IsPlanned, told_with};

use crate::arriving::newcomer;
use crate::known::Known;
use crate::leading::Leading;
use crate::logged::{Logged, copy_of};
use crate::logging::{LogWork, Said};
use crate::refusal::Refusal;
use crate::seat::Seat;
use crate::second::{reply_frame, reply_words};
use basil_types::bytes::Bytes;
use basil_types::memory::NoMemory;
use basil_types::outbox::Outbox;
use basil_types::party::Party;
use basil_types::transaction::{Transaction, TransactionView};
use basil_types::words::Words;
use decision_log::{LogCell, LogFault, adopt};
use fallback_leader::{ElectWord, Naming, Proposal};
use frame_values::lending::DecideParts;
use frame_views::frames::{DecideView, ElectView};
use frame_writing::{put_unsigned_decide_parts, signatures_end_frames};
use keyring::signer::Signer;
use node_steps::pending::{Pending, Unsigned, sign};
use std::alloc::Global;
use txn_meta::places::leader_of;
use txn_table::laws::ids_tell_places;

/// A word that is taken, and the proposal that it makes, if any, which waits for its signature.
#[derive(Drop)]
pub(crate) struct LeadWork {
    pub(crate) pending: Option<Pending>,
}

impl LeadWork {
    /// How many messages it sends.
    pub(crate) fn messages(&self) -> usize
        ensures { result ≡ lead_messages self.now }
    {
        match &self.pending {
            Some(pending) => pending.frames.len(),
            None => 0,
        }
    }

    /// How many words it signs.
    pub(crate) fn words(&self) -> usize
        ensures { result ≡ lead_words self.now }
    {
        match &self.pending {
            Some(_) => 1,
            None => 0,
        }
    }

    /// The bytes of its frames, with signatures of this size. None only where the sum passes 2^64 - 1.
    pub(crate) fn bytes(&self, size: usize) -> Option<u64>
        ensures { IfSome result (λ n. n ≡ lead_bytes size self.now) }
    {
        match &self.pending {
            Some(pending) => pending.bytes(size),
            None => Some(0),
        }
    }

    /// Does what was planned. Takes no memory.
    pub(crate) fn perform<S: Signer>(self, leading: &mut Leading, pen: &mut S, out: &mut Outbox)
        requires can { CanLead (S.fixed pen.old).size (S.left_of pen.old) self }
        requires room { works.HasRoomFor out.old (lead_messages self) (lead_words self) }
        ensures told { (book : BookValue)
            → told_with (lead_book_at book leading.new (S.spent pen.new) (S.left_of pen.new)) out.new
            ≡ perform_lead (S.fixed pen.old) (kept_next leading.old)
            (told_with (lead_book_at book leading.old (S.spent pen.old) (S.left_of pen.old)) out.old) self }
        ensures sends { Sends out.old out.new (lead_messages self) (lead_bytes (S.fixed pen.old).size self) }
        ensures next { leading.new.next ≡ None }
        ensures fixed { S.fixed pen.new ≡ S.fixed pen.old }
    {
        leading.take();
        match self.pending {
            Some(pending) => drop(sign(pen, pending, out)),
            None => {}
        }
    }
}

/// Whether another replica leads a view of a transaction of this time.
fn is_led_by_another(seat: &Seat, time: u64, view: u64, replica: u8) -> bool
    ensures { result ≡ not (leader_of seat.now.home.cluster time view == replica) }
{
    leader_of(time, view, &seat.home.cluster) != replica
}

/// The known transaction of this id, whatever other bytes of this id came, or these.
pub(crate) fn known_text<'a>(
    known: &'a Known,
    id: &[u8; 32],
    t: TransactionView<'a>,
) -> TransactionView<'a>
    requires { id.now ≡ transactions.id (transaction_of t) }
    ensures text { transaction_of result ≡ tables.known_of known.now.table.entries (transaction_of t.entry) }
    ensures named { transactions.id (transaction_of result) ≡ id.now }
{
    ids_tell_places();
    match known.table.place_of(id) {
        Some(place) => known.table.entry(place).view(),
        None => t,
    }
}

/// A frame that lacks its signature, for one party.
fn copy_for(alloc: Global, size: usize, front: &[u8], to: Party) -> Result<Unsigned, NoMemory>
    requires { size ≤ signature_limit }
    ensures front { IfOk result (λ u. front_of u ≡ front_for front.now to) }
    ensures room { IfOk result (HasRoomFor size) }
{
    let copy = copy_of(alloc, front)?;
    Unsigned::with_room(to, copy, size)
}

/// A frame that lacks its signature, for one party after the other.
fn copies_for(
    alloc: Global,
    size: usize,
    front: &[u8],
    to: &[Party],
) -> Result<Vec<Unsigned>, NoMemory>
    requires { size ≤ signature_limit }
    ensures fronts { IfOk result (λ frames. map front_of frames.items ≡ map (front_for front.now) to.now) }
    ensures rooms { IfOk result (λ frames. All (HasRoomFor size) frames.items) }
{
    let mut frames = Vec::new(alloc);
    for party in to {
        let unsigned = copy_for(alloc, size, front, *party)?;
        frames.push(unsigned)?;
    }
    Ok(frames)
}

/// Words and a frame that lacks its signature, for these parties.
fn pending_for(
    alloc: Global,
    size: usize,
    words: Words,
    front: &[u8],
    to: &[Party],
) -> Result<Pending, NoMemory>
    requires some { 1 ≤ size }
    requires short { size ≤ signature_limit }
    ensures ready { IfOk result (IsReady size) }
    ensures words { IfOk result (λ p. p.words ≡ words) }
    ensures fronts { IfOk result (λ p. fronts_of p ≡ map (front_for front.now) to.now) }
{
    let frames = copies_for(alloc, size, front, to)?;
    Pending::new(alloc, words, frames, size)
}

/// The replicas of a shard, ascending.
fn replicas_of(alloc: Global, shard: u8, n: u8) -> Result<Vec<Party>, NoMemory>
    ensures { IfOk result (λ all. all.items ≡ map (parties.Replica shard) (range_with_len 0 n)) }
{
    let mut all = Vec::new(alloc);
    for index in 0..n {
        all.push(Party::Replica { shard, index })?;
    }
    Ok(all)
}

/// These clients.
fn clients_of(alloc: Global, numbers: &[u8]) -> Result<Vec<Party>, NoMemory>
    ensures { IfOk result (λ all. all.items ≡ map parties.Client numbers.now) }
{
    let all: Vec<Party> = numbers
        .iter()
        .map(|number| Party::Client { number: *number })
        .collect(alloc)?;
    Ok(all)
}

/// A proposal, but its signature.
fn decide_frame(
    seat: &Seat,
    t: TransactionView<'_>,
    view: u64,
    proposal: &Proposal,
) -> Result<Vec<u8>, NoMemory>
    requires { AreCounted (FitsWord widest) after_word (map word_value proposal.now.words.items) }
    ensures { IfOk result (λ f. f.items
        ≡ unsigned_decide (decide_said seat.now (transaction_of t.entry) view (proposal_value proposal.now))) }
{
    let mut frame = Vec::new(seat.alloc);
    let parts = DecideParts {
        transaction: t,
        shard: seat.home.shard,
        replica: seat.index,
        decision: proposal.decision,
        view,
        words: proposal.words.as_slice(),
        signature: &[],
    };
    put_unsigned_decide_parts(&parts, &mut frame)?;
    Ok(frame)
}

/// Plans that a proposal is signed and sent to every replica of the shard.
fn plan_proposal<S: Signer>(
    pen: &S,
    seat: &Seat,
    id: &[u8; 32],
    t: TransactionView<'_>,
    view: u64,
    proposal: &Proposal,
) -> Result<LeadWork, Refusal>
    requires named { id.now ≡ transactions.id (transaction_of t) }
    requires counted { AreCounted (FitsWord widest) after_word (map word_value proposal.now.words.items) }
    ensures answer { (accepts : Accepted) (book : BookValue) (m : ElectValue) → m.view ≡ view
        → IsPlanned (perform_lead (S.fixed pen.now) (kept_after seat.now book (transaction_of t.entry) m))
        (pen_at book (S.spent pen.now) (S.left_of pen.now)) result
        (unless (exhausted 1 (pen_value (S.spent pen.now) (S.left_of pen.now)))
        (propose_done (self_at seat.now accepts (S.fixed pen.now)) (pen_at book (S.spent pen.now) (S.left_of pen.now))
        (transaction_of t.entry) m (proposal_value proposal.now))) }
    ensures ready { IfOk result (CanLead (S.fixed pen.now).size (S.left_of pen.now)) }
{
    signatures_end_frames();
    let left = pen.left();
    if left == 0 {
        return Err(Refusal::Exhausted(left));
    }
    let front = decide_frame(seat, t, view, proposal)?;
    let words = Words::proposal(seat.home.shard, seat.index, id, proposal.decision, view);
    let to = replicas_of(seat.alloc, seat.home.shard, seat.home.cluster.n())?;
    let pending = pending_for(
        seat.alloc,
        pen.size(),
        words,
        front.as_slice(),
        to.as_slice(),
    )?;
    Ok(LeadWork {
        pending: Some(pending),
    })
}

/// Plans the answer to a word for the own election of a view of this transaction.
fn plan_collect<S: Signer>(
    leading: &mut Leading,
    pen: &S,
    seat: &Seat,
    id: &[u8; 32],
    t: TransactionView<'_>,
    m: &ElectView<'_>,
) -> Result<LeadWork, Refusal>
    requires named { id.now ≡ transactions.id (transaction_of t) }
    requires signature { IsSignature m.now.signature.now }
    ensures answer { (accepts : Accepted) (book : BookValue)
        → IsPlanned (perform_lead (S.fixed pen.now) (kept_next leading.new))
        (lead_book_at book leading.old (S.spent pen.now) (S.left_of pen.now)) result
        (collect (self_at seat.now accepts (S.fixed pen.now))
        (lead_book_at book leading.old (S.spent pen.now) (S.left_of pen.now)) (transaction_of t.entry)
        (elect_message_of m.now)) }
    ensures ready { IfOk result (CanLead (S.fixed pen.now).size (S.left_of pen.now)) }
    ensures kept { leading.new.kept ≡ leading.old.kept }
{
    let word = ElectWord {
        replica: m.replica,
        decision: m.decision,
        signature: Bytes::copy_of(seat.alloc, m.signature)?,
    };
    match leading.collect(id, m.view, word, &seat.home.cluster)? {
        Some(proposal) => plan_proposal(pen, seat, id, t, m.view, &proposal),
        None => Ok(LeadWork { pending: None }),
    }
}

/// Plans the answer to an election word. A proposal that it makes is held back with the word.
pub(crate) fn plan_elect<S: Signer>(
    known: &Known,
    leading: &mut Leading,
    pen: &S,
    seat: &Seat,
    m: &ElectView<'_>,
) -> Result<LeadWork, Refusal>
    requires { IsSignature m.now.signature.now }
    ensures answer { (accepts : Accepted) (book : BookValue)
        → IsPlanned (perform_lead (S.fixed pen.now) (kept_next leading.new))
        (lead_book_of book known.now leading.old (S.spent pen.now) (S.left_of pen.now)) result
        (answer_elect (self_at seat.now accepts (S.fixed pen.now))
        (lead_book_of book known.now leading.old (S.spent pen.now) (S.left_of pen.now)) (elect_message_of m.now)) }
    ensures ready { IfOk result (CanLead (S.fixed pen.now).size (S.left_of pen.now)) }
    ensures kept { leading.new.kept ≡ leading.old.kept }
{
    let id = m.transaction.id();
    let t = known_text(known, &id, m.transaction);
    if is_led_by_another(seat, t.time(), m.view, seat.index) {
        return Err(Refusal::NotLeader);
    }
    plan_collect(leading, pen, seat, &id, t, m)
}

/// Why a decision isn't adopted, as a refusal.
fn refusal_of(fault: LogFault) -> Refusal
    ensures { result ≡ fault_of fault }
{
    match fault {
        LogFault::StaleView(view) => Refusal::StaleView(view),
        LogFault::AlreadyDecidedIn(view) => Refusal::AlreadyDecidedIn(view),
    }
}

/// What a leader's decision is adopted by, or why it isn't.
fn adopted(seat: &Seat, cell: Option<LogCell>, m: &DecideView<'_>) -> Result<LogCell, Refusal>
    ensures cell { IfOk result (λ new. new ≡ cell_of m.now.decision m.now.view) }
    ensures adopted { (accepts : Accepted) (signing : Signing) → OnOk result
        (or_else (option_map fault_of (adopt_fault cell m.now.view))
        (bad_election (self_at seat.now accepts signing) (decide_of m.now)) ≡ None) }
    ensures refused { (accepts : Accepted) (signing : Signing) → IfErr result (λ e.
        or_else (option_map fault_of (adopt_fault cell m.now.view))
        (bad_election (self_at seat.now accepts signing) (decide_of m.now)) ≡ Some e) }
{
    let new = match adopt(cell, m.decision, m.view) {
        Ok(new) => new,
        Err(fault) => return Err(refusal_of(fault)),
    };
    let naming = Naming::of(&m.words, m.decision);
    if naming.is_election(&seat.home.cluster) {
        Ok(new)
    } else {
        Err(Refusal::BadElection {
            words: u32::from(naming.words),
            agreeing: u32::from(naming.agreeing),
        })
    }
}

/// Plans that an adopted cell is told to all who wait.
fn plan_told<S: Signer>(
    pen: &S,
    seat: &Seat,
    id: &[u8; 32],
    cell: LogCell,
    askers: &[u8],
    arrives: Option<Transaction>,
) -> Result<LogWork, Refusal>
    ensures answer { (accepts : Accepted) (book : BookValue) (t : TransactionValue)
        (m : DecideValue) (l : Option LoggedEntry) → arrived_in book.entries arrives ≡ with_known book.entries t
        → transactions.id t ≡ id.now → cell_of m.decision m.view ≡ cell → askers_with l ≡ askers.now
        → IsPlanned (perform_log (S.fixed pen.now)) (pen_at book (S.spent pen.now) (S.left_of pen.now)) result
        (unless (exhausted 1 (pen_value (S.spent pen.now) (S.left_of pen.now)))
        (adopt_done (self_at seat.now accepts (S.fixed pen.now)) (pen_at book (S.spent pen.now) (S.left_of pen.now))
        t m l)) }
    ensures says { IfOk result (λ w. CanSay (S.fixed pen.now).size (S.left_of pen.now) w.said) }
    ensures arrives { IfOk result (λ w. w.arrives ≡ arrives) }
{
    signatures_end_frames();
    let left = pen.left();
    if left == 0 {
        return Err(Refusal::Exhausted(left));
    }
    let front = reply_frame(seat, id, cell)?;
    let words = reply_words(seat, id, cell);
    let to = clients_of(seat.alloc, askers)?;
    let pending = pending_for(
        seat.alloc,
        pen.size(),
        words,
        front.as_slice(),
        to.as_slice(),
    )?;
    let askers = copy_of(seat.alloc, askers)?;
    Ok(LogWork {
        arrives,
        id: *id,
        cell,
        askers,
        said: Said::Anew { pending },
    })
}

/// Plans that an adopted cell of a transaction, which may arrive with it, is told to all who wait.
fn plan_new<S: Signer>(
    known: &mut Known,
    pen: &S,
    seat: &Seat,
    id: &[u8; 32],
    cell: LogCell,
    askers: &[u8],
    t: TransactionView<'_>,
) -> Result<LogWork, Refusal>
    requires { id.now ≡ transactions.id (transaction_of t) }
    ensures answer { (accepts : Accepted) (book : BookValue) (m : DecideValue) (l : Option LoggedEntry)
        → cell_of m.decision m.view ≡ cell → askers_with l ≡ askers.now
        → IsPlanned (perform_log (S.fixed pen.now))
        (book_of book known.old (S.spent pen.now) (S.left_of pen.now)) result
        (unless (exhausted 1 (pen_value (S.spent pen.now) (S.left_of pen.now)))
        (adopt_done (self_at seat.now accepts (S.fixed pen.now))
        (book_of book known.old (S.spent pen.now) (S.left_of pen.now))
        (tables.known_of known.old.table.entries (transaction_of t.entry)) m l)) }
    ensures says { IfOk result (λ w. CanSay (S.fixed pen.now).size (S.left_of pen.now) w.said) }
    ensures arrives { IfOk result (λ w. works.CanArrive known.new.table w.arrives) }
    ensures entries { known.new.table.entries ≡ known.old.table.entries }
    ensures noted { KeepsNoted known.old known.new }
{
    ids_tell_places();
    let arrives = newcomer(known, seat.alloc, t)?;
    plan_told(pen, seat, id, cell, askers, arrives)
}

/// Plans that a leader's decision is adopted, in the place of this cell, and told to those who wait.
fn plan_adopt<S: Signer>(
    known: &mut Known,
    pen: &S,
    seat: &Seat,
    id: &[u8; 32],
    cell: Option<LogCell>,
    askers: &[u8],
    m: &DecideView<'_>,
) -> Result<LogWork, Refusal>
    requires { id.now ≡ transactions.id (transaction_of m.now.transaction) }
    ensures answer { (accepts : Accepted) (book : BookValue) (l : Option LoggedEntry)
        → option_map (λ (l : LoggedEntry). l.cell) l ≡ cell → askers_with l ≡ askers.now
        → IsPlanned (perform_log (S.fixed pen.now))
        (book_of book known.old (S.spent pen.now) (S.left_of pen.now)) result
        (unless
        (adopts (self_at seat.now accepts (S.fixed pen.now)) (decide_of m.now) l
        (pen_value (S.spent pen.now) (S.left_of pen.now)))
        (adopt_done (self_at seat.now accepts (S.fixed pen.now))
        (book_of book known.old (S.spent pen.now) (S.left_of pen.now))
        (tables.known_of known.old.table.entries (transaction_of m.now.transaction)) (decide_of m.now) l)) }
    ensures says { IfOk result (λ w. CanSay (S.fixed pen.now).size (S.left_of pen.now) w.said) }
    ensures arrives { IfOk result (λ w. works.CanArrive known.new.table w.arrives) }
    ensures entries { known.new.table.entries ≡ known.old.table.entries }
    ensures noted { KeepsNoted known.old known.new }
{
    match adopted(seat, cell, m) {
        Ok(new) => plan_new(known, pen, seat, id, new, askers, m.transaction),
        Err(refused) => Err(refused),
    }
}

/// Plans the answer to a leader's decision.
pub(crate) fn plan_decide<S: Signer>(
    known: &mut Known,
    logged: &mut Logged,
    pen: &S,
    seat: &Seat,
    m: &DecideView<'_>,
) -> Result<LogWork, Refusal>
    ensures answer { (accepts : Accepted) (book : BookValue)
        → IsPlanned (perform_log (S.fixed pen.now))
        (log_book_of book known.old logged.old (S.spent pen.now) (S.left_of pen.now)) result
        (answer_decide (self_at seat.now accepts (S.fixed pen.now))
        (log_book_of book known.old logged.old (S.spent pen.now) (S.left_of pen.now)) (decide_of m.now)) }
    ensures ready { IfOk result (CanLog (S.fixed pen.now).size (S.left_of pen.now) known.new logged.new) }
    ensures entries { known.new.table.entries ≡ known.old.table.entries }
    ensures noted { KeepsNoted known.old known.new }
    ensures logged { logged.new.entries ≡ logged.old.entries }
{
    let id = m.transaction.id();
    let time = known_text(known, &id, m.transaction).time();
    if is_led_by_another(seat, time, m.view, m.replica) {
        return Err(Refusal::NotLeader);
    }
    logged.make_room()?;
    match logged.find(&id) {
        Some(log) => plan_adopt(
            known,
            pen,
            seat,
            &id,
            Some(log.cell),
            log.askers.as_slice(),
            m,
        ),
        None => plan_adopt(known, pen, seat, &id, None, &[], m),
    }
}

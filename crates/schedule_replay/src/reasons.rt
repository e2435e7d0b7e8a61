//! Why a line is refused before its events.

ghost use Rattle.std.specs.Prelude.{◌≡◌, None, false, not};
ghost use Rattle.std.specs.Option.{option_map_or};
ghost use Rattle.cluster_run.specs.States.{is_faulty};
ghost use Rattle.schedule_replay.specs.Names as naming;
ghost use Rattle.schedule_replay.specs.Reasons as reasons;
ghost use Rattle.schedule_replay.specs.Reasons.{CanStop};
ghost use Rattle.schedule_replay.specs.Replays.{ReplayValue};
ghost use Rattle.schedule_replay.specs.Shown.{CanName, Stands};
ghost use Rattle.keyring_lms.specs.Replay.{is_party_of};

use crate::course::Course;
use basil_types::bytes::Bytes;
use basil_types::cluster::Cluster;
use basil_types::party::Party;
use keyring_lms::has_party;
use line_fields::reason::Reason;
use schedule_text::line::Line;

/// Reason 2: a header that isn't the first.
fn is_late_header(line: &Line) -> bool
    ensures { result ≡ reasons.is_late_header line.now }
{
    matches!(line, Line::Header { .. })
}

/// Whether the cluster has no replica of this index in this shard.
fn has_no_replica(cluster: &Cluster, shard: u8, index: u8) -> bool
    ensures { result ≡ not (is_party_of cluster.now (Party.Replica shard index)) }
{
    !has_party(cluster, Party::Replica { shard, index })
}

/// Whether a disk can stop so: within one of the two writes of a record, and it leaves some bytes there.
fn is_stop(write: u64, bytes: &[u8]) -> bool
    ensures { result ≡ reasons.is_stop write bytes.now }
{
    (write == 1 || write == 2) && !bytes.is_empty()
}

/// Reason 3: the cluster has no such replica, or no disk stops so.
fn is_outside(cluster: &Cluster, line: &Line) -> bool
    ensures { result ≡ reasons.is_outside cluster.now line.now }
{
    match line {
        Line::Faulty { party } => !has_party(cluster, *party),
        Line::Divert { to, .. } => !has_party(cluster, *to),
        Line::Clock { shard, replica, .. } => has_no_replica(cluster, *shard, *replica),
        Line::Vote { shard, replica, .. } => has_no_replica(cluster, *shard, *replica),
        Line::Second { replica, .. } => *replica >= cluster.n(),
        Line::Logged { shard, replica, .. } => has_no_replica(cluster, *shard, *replica),
        Line::Elect { shard, replica, .. } => has_no_replica(cluster, *shard, *replica),
        Line::Decide {
            shard,
            replica,
            to,
            ..
        } => { has_no_replica(cluster, *shard, *replica) || has_no_replica(cluster, *shard, *to) }
        Line::Raw { from, to, .. } => !has_party(cluster, *from) || !has_party(cluster, *to),
        Line::Stop {
            shard,
            replica,
            write,
            bytes,
            ..
        } => has_no_replica(cluster, *shard, *replica) || !is_stop(*write, bytes.as_slice()),
        _ => false,
    }
}

/// Reason 5: a faulty party that is named behind another line.
fn is_late_faulty(line: &Line) -> bool
    ensures { result ≡ reasons.is_late_faulty line.now }
{
    matches!(line, Line::Faulty { .. })
}

impl Course {
    /// Whether a name has begun a transaction.
    fn is_begun(&self, name: &Bytes) -> bool
        ensures exact { (r : ReplayValue) → Stands self.now r → result ≡ naming.is_begun r.names name.now }
        ensures names { result ≡ naming.is_begun self.now.names name.now }
    {
        self.names.number_of(name).is_some()
    }

    /// Whether the transaction that a name began is formed.
    fn is_formed(&self, name: &Bytes) -> bool
        ensures { (r : ReplayValue) → Stands self.now r → result ≡ naming.is_formed r name.now }
    {
        match self.names.number_of(name) {
            Some(tx) => self.world.transaction(tx).is_some(),
            None => false,
        }
    }

    /// Whether the transaction that a name began is a faulty client's.
    fn is_by_faulty(&self, name: &Bytes) -> bool
        ensures { (r : ReplayValue) → Stands self.now r → result ≡ naming.is_by_faulty r name.now }
    {
        match self.names.client_of(name) {
            Some(number) => self.world.is_faulty(Party::Client { number }),
            None => false,
        }
    }

    /// Whether a client is faulty.
    fn is_faulty_client(&self, number: u8) -> bool
        ensures { (r : ReplayValue) → Stands self.now r → result ≡ is_faulty r.setup (Party.Client number) }
    {
        self.world.is_faulty(Party::Client { number })
    }

    /// Whether a replica is correct.
    fn is_correct_replica(&self, shard: u8, index: u8) -> bool
        ensures { (r : ReplayValue) → Stands self.now r →
            result ≡ not (is_faulty r.setup (Party.Replica shard index)) }
    {
        !self.world.is_faulty(Party::Replica { shard, index })
    }

    /// Whether a claimed writer, if one is named, isn't formed.
    fn has_no_writer(&self, writer: &Option<Bytes>) -> bool
        ensures { (r : ReplayValue) → Stands self.now r →
            result ≡ option_map_or (λ name. not (naming.is_formed r name)) writer.now false }
    {
        match writer {
            Some(name) => !self.is_formed(name),
            None => false,
        }
    }

    /// Reason 4: a name that isn't begun, is begun twice, or isn't formed where it must be.
    fn misnames(&self, line: &Line) -> bool
        ensures exact { (r : ReplayValue) → Stands self.now r → result ≡ reasons.misnames r line.now }
        ensures names { result ≡ false → CanName self.now.names line.now }
    {
        match line {
            Line::Begin { name, .. } => self.is_begun(name),
            Line::Read { name, .. } => !self.is_begun(name),
            Line::Write { name, .. } => !self.is_begun(name),
            Line::Delete { name, .. } => !self.is_begun(name),
            Line::Claim { name, writer, .. } => {
                !self.is_begun(name) || self.has_no_writer(writer)
            }
            Line::Prepare { name } => !self.is_begun(name),
            Line::Settle { name, .. } => !self.is_formed(name),
            Line::Recover { name, .. } => !self.is_formed(name),
            Line::Invoke { name, .. } => !self.is_formed(name),
            Line::Vote { name, .. } => !self.is_formed(name),
            Line::Second { name, .. } => !self.is_formed(name),
            Line::Logged { name, .. } => !self.is_formed(name),
            Line::Elect { name, .. } => !self.is_formed(name),
            Line::Decide { name, .. } => !self.is_formed(name),
            _ => false,
        }
    }

    /// Reason 6: a line for a faulty party names a correct one, or the other way round.
    fn is_of_others(&self, line: &Line) -> bool
        ensures { (r : ReplayValue) → Stands self.now r → result ≡ reasons.is_of_others r line.now }
    {
        match line {
            Line::Read { name, .. } => self.is_by_faulty(name),
            Line::Claim { name, .. } => !self.is_by_faulty(name),
            Line::Settle { client, .. } => self.is_faulty_client(*client),
            Line::Recover { client, .. } => self.is_faulty_client(*client),
            Line::Invoke { client, .. } => self.is_faulty_client(*client),
            Line::Vote { shard, replica, .. } => self.is_correct_replica(*shard, *replica),
            Line::Second { name, .. } => !self.is_by_faulty(name),
            Line::Logged { shard, replica, .. } => self.is_correct_replica(*shard, *replica),
            Line::Elect { shard, replica, .. } => self.is_correct_replica(*shard, *replica),
            Line::Decide { shard, replica, .. } => self.is_correct_replica(*shard, *replica),
            Line::Stop { shard, replica, .. } => !self.is_correct_replica(*shard, *replica),
            _ => false,
        }
    }

    /// Whether a message hasn't entered the pool.
    fn has_no_message(&self, message: u64) -> bool
        ensures { (r : ReplayValue) → Stands self.now r → result ≡ not (reasons.is_message r.state message) }
    {
        message < 1 || self.world.messages() < message
    }

    /// Reason 7: a message that isn't there.
    fn misses(&self, line: &Line) -> bool
        ensures { (r : ReplayValue) → Stands self.now r → result ≡ reasons.misses r.state line.now }
    {
        match line {
            Line::Deliver { message } => self.has_no_message(*message),
            Line::Lose { message } => self.has_no_message(*message),
            Line::Divert { message, .. } => self.has_no_message(*message),
            Line::Stop { message, .. } => self.has_no_message(*message),
            _ => false,
        }
    }

    /// Reason 11: a disk is stopped of a replica that keeps no journal.
    fn lacks_journal(&self, line: &Line) -> bool
        ensures { (r : ReplayValue) → Stands self.now r → result ≡ reasons.lacks_journal r.journals line.now }
    {
        match line {
            Line::Stop { shard, replica, .. } => !self.journals.has(*shard, *replica),
            _ => false,
        }
    }

    /// The first reason why a line is refused before its events, if there is one.
    pub(crate) fn reason_of(&self, line: &Line) -> Option<Reason>
        ensures exact { (r : ReplayValue) → Stands self.now r → result ≡ reasons.reason_of r line.now }
        ensures names { result ≡ None → CanName self.now.names line.now }
        ensures stop { result ≡ None → CanStop line.now }
    {
        if is_late_header(line) {
            Some(Reason::Misspelt)
        } else if is_outside(&self.cluster, line) {
            Some(Reason::OutOfRange)
        } else if self.misnames(line) {
            Some(Reason::WrongName)
        } else if is_late_faulty(line) {
            Some(Reason::CannotBeFaulty)
        } else if self.is_of_others(line) {
            Some(Reason::WrongParty)
        } else if self.misses(line) {
            Some(Reason::NoMessage)
        } else if self.lacks_journal(line) {
            Some(Reason::NoJournal)
        } else {
            None
        }
    }
}

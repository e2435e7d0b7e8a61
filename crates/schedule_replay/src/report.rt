//! The report of a run.

ghost use Rattle.std.specs.Prelude.{◌≡◌, ◌++◌, [], IfOk, OnOk, is_some, option_map, unwrap_or};
ghost use Rattle.basil_types.specs.Transaction as transactions;
ghost use Rattle.client_core.specs.Keeping.{told_state};
ghost use Rattle.cluster_run.specs.Telling.{transaction_at, value_at};
ghost use Rattle.schedule_replay.specs.Names.{keys_of};
ghost use Rattle.schedule_replay.specs.Naming.{name_at};
ghost use Rattle.schedule_replay.specs.Replays.{ReplayValue};
ghost use Rattle.schedule_replay.specs.Reports as reports;
ghost use Rattle.schedule_replay.specs.Shown.{Stands};
ghost use Rattle.schedule_replay.specs.Telling.{AddsPlace, AreFirst, Tells, transaction_lines};

use crate::course::Course;
use basil_types::bytes::Bytes;
use basil_types::memory::NoMemory;
use basil_types::party::Decision;
use basil_types::version::Version;
use client_core::ReadState;
use hex::encode;
use id_maps::map::{IdMap, empty_map};
use report_lines::lines::{put, put_asked, put_end, put_fate, put_pairs};
use schedule_text::writing::spell_value;
use serial_audit::maps::replay_map;

/// The places of the first formed transactions of each id, from 0.
type Places = IdMap<[u8; 32], u32>;

/// The report of what a course shows.
pub(crate) fn text_of(course: &Course) -> Result<Vec<u8>, NoMemory>
    ensures { IfOk result (λ text. (r : ReplayValue) → Stands course.now r → text.items ≡ reports.report r) }
{
    let mut out = Vec::new(course.alloc);
    let places = course.places()?;
    course.put_transactions(&places, &mut out)?;
    course.put_keys(&mut out)?;
    put_end(&mut out, course.world.messages())?;
    Ok(out)
}

/// Whether a read has its choice.
fn is_chosen(state: &ReadState<'_>) -> bool
    ensures { (r : ReplayValue) → result ≡ is_some (reports.chosen_tokens r (told_state state.now)) }
{
    matches!(
        state,
        ReadState::Absent | ReadState::Found { .. } | ReadState::Deleted { .. }
    )
}

impl Course {
    /// The id of a transaction, once it is formed.
    fn id_at(&self, tx: u32) -> Option<[u8; 32]>
        ensures { (r : ReplayValue) → Stands self.now r →
            result ≡ option_map transactions.id (transaction_at r.state tx) }
    {
        match self.world.transaction(tx) {
            Some(view) => Some(view.id()),
            None => None,
        }
    }

    /// The places of ids.
    fn places(&self) -> Result<Places, NoMemory>
        ensures { IfOk result (λ places. (r : ReplayValue) → Stands self.now r → AreFirst places.entries r) }
    {
        let mut places = empty_map(self.alloc);
        for place in 0..self.names.len() {
            self.place(&mut places, place as u32)?;
        }
        Ok(places)
    }

    /// A transaction has its place, where it is formed and no other of its id has one.
    fn place(&self, places: &mut Places, tx: u32) -> Result<(), NoMemory>
        ensures { OnOk result ((r : ReplayValue) → Stands self.now r →
            AddsPlace r.state tx places.old.entries places.new.entries) }
    {
        let Some(id) = self.id_at(tx) else {
            return Ok(());
        };
        if places.contains_key(&id) {
            return Ok(());
        }
        places.insert(id, tx)?;
        Ok(())
    }

    /// The writer of a version, by its name, or by its id in hex.
    fn put_writer(
        &self,
        places: &Places,
        writer: &Version,
        out: &mut Vec<u8>,
    ) -> Result<(), NoMemory>
        ensures { OnOk result ((r : ReplayValue) → Tells self.now places.now.entries r →
            out.new.items ≡ out.old.items ++ reports.writer_token r writer.now) }
    {
        match places.get(&writer.id) {
            Some(tx) => put(out, self.names.at(*tx as usize)),
            None => {
                let spelled = encode(self.alloc, &writer.id)?;
                put(out, spelled.as_bytes())
            }
        }
    }

    /// What stands behind the key of a read: `-`, `WRITER VALUE`, or `WRITER` of a deletion; nothing of one that has no
    /// choice.
    fn put_chosen(
        &self,
        places: &Places,
        state: &ReadState<'_>,
        out: &mut Vec<u8>,
    ) -> Result<(), NoMemory>
        ensures { OnOk result ((r : ReplayValue) → Tells self.now places.now.entries r →
            out.new.items ≡ out.old.items ++ unwrap_or (reports.chosen_tokens r (told_state state.now)) []) }
    {
        match state {
            ReadState::Absent => put(out, b"-"),
            ReadState::Found { writer, value } => {
                let value = spell_value(self.alloc, value)?;
                self.put_writer(places, writer, out)?;
                put(out, b" ")?;
                put(out, &value)
            }
            ReadState::Deleted { writer } => self.put_writer(places, writer, out),
            _ => Ok(()),
        }
    }

    /// `read NAME KEY` and what was chosen, or nothing of a read that has no choice.
    fn put_read(
        &self,
        places: &Places,
        tx: u32,
        key: &Bytes,
        out: &mut Vec<u8>,
    ) -> Result<(), NoMemory>
        ensures { OnOk result ((r : ReplayValue) → Tells self.now places.now.entries r →
            let tokens = reports.chosen_tokens r (value_at r.setup r.state tx key.now) in
            out.new.items ≡ out.old.items ++ reports.read_line (name_at r.names tx) key.now tokens) }
    {
        let state = self.world.value(tx, key.as_slice());
        if !is_chosen(&state) {
            return Ok(());
        }
        put_asked(out, self.names.at(tx as usize), key.as_slice())?;
        self.put_chosen(places, &state, out)?;
        put(out, b"\n")
    }

    /// A line for each of the keys that a transaction was to read, where it has its choice.
    fn put_reads(&self, places: &Places, tx: u32, out: &mut Vec<u8>) -> Result<(), NoMemory>
        ensures { OnOk result ((r : ReplayValue) → Tells self.now places.now.entries r →
            out.new.items ≡ out.old.items ++ reports.read_lines r tx (name_at r.names tx) (keys_of r.names tx)) }
    {
        let Some(keys) = self.names.keys_at(tx as usize) else {
            return Ok(());
        };
        for key in keys {
            self.put_read(places, tx, key, out)?;
        }
        Ok(())
    }

    /// What became of a transaction.
    pub(crate) fn fate_of(&self, tx: u32) -> Option<Decision>
        ensures { (r : ReplayValue) → Stands self.now r → result ≡ reports.decided r.state tx }
    {
        let id = self.id_at(tx)?;
        self.world.decision_of(&id)
    }

    /// The lines of a transaction.
    fn put_transaction(&self, places: &Places, tx: u32, out: &mut Vec<u8>) -> Result<(), NoMemory>
        ensures { OnOk result ((r : ReplayValue) → Tells self.now places.now.entries r →
            out.new.items ≡ out.old.items ++ transaction_lines r tx) }
    {
        put_fate(out, self.names.at(tx as usize), self.fate_of(tx))?;
        self.put_reads(places, tx, out)
    }

    /// The lines of the transactions, in the order of their beginning.
    fn put_transactions(&self, places: &Places, out: &mut Vec<u8>) -> Result<(), NoMemory>
        ensures { OnOk result ((r : ReplayValue) → Tells self.now places.now.entries r →
            out.new.items ≡ out.old.items ++ reports.tx_lines r 0 r.names.begun) }
    {
        for place in 0..self.names.len() {
            self.put_transaction(places, place as u32, out)?;
        }
        Ok(())
    }

    /// A line for each key that the committed transactions leave with a value, ascending.
    fn put_keys(&self, out: &mut Vec<u8>) -> Result<(), NoMemory>
        ensures { OnOk result ((r : ReplayValue) → Stands self.now r →
            out.new.items ≡ out.old.items ++ reports.key_lines r.state) }
    {
        let committed = self.world.committed()?;
        let pairs = replay_map(self.alloc, &committed, None)?;
        put_pairs(out, &pairs)
    }
}

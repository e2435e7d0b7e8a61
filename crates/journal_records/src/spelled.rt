//! A record as it is written.

ghost use Rattle.std.specs.Prelude.{◌≡◌, ◌+◌, ◌≤◌, ◌++◌, IfOk, length};
ghost use Rattle.journal_records.specs.Journal.{IsEntry};
ghost use Rattle.journal_records.specs.Steps.{closed_record};

use crate::gates::CLOSED;
use crate::limits::GATE_AND_LENGTH;
use basil_types::memory::NoMemory;
use std::alloc::Global;
use std::marker::Model;

/// A record with the closed gate behind it, as it is written to a disk: the length, the bytes that it counts, the gate.
/// Its meaning is the bytes that it counts.
#[derive(Drop)]
pub struct SpelledRecord {
    bytes: Vec<u8>,
}

impl Model for SpelledRecord {
    ghost use Rattle.std.specs.Prelude.{List, ℕ};
    ghost use Rattle.journal_records.specs.Steps.{entry_in, IsSpelled};

    ghost Value = { List ℕ };

    ghost view = { λ r. entry_in r.bytes.items };

    ghost invariant = { λ r. IsSpelled r.bytes.items };
}

impl SpelledRecord {
    /// The record that counts the bytes of both pieces.
    pub fn new(alloc: Global, front: &[u8], rest: &[u8]) -> Result<SpelledRecord, NoMemory>
        requires { IsEntry (front.now ++ rest.now) }
        ensures { IfOk result (λ r. r ≡ front.now ++ rest.now) }
    {
        let count = front.len() + rest.len();
        let mut bytes = Vec::with_capacity(alloc, count + GATE_AND_LENGTH as usize)?;
        bytes.extend_from_slice(&(count as u32).to_be_bytes())?;
        bytes.extend_from_slice(front)?;
        bytes.extend_from_slice(rest)?;
        bytes.push(CLOSED)?;
        Ok(SpelledRecord { bytes })
    }

    /// The record and its gate, lent.
    pub fn bytes(&self) -> &[u8]
        ensures spelled { result.now ≡ closed_record self.now }
        ensures fits { IsEntry self.now }
    {
        self.bytes.as_slice()
    }
}

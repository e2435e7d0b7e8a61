//! A frame that is being appended to bytes.

ghost use Rattle.std.specs.Prelude.{◌≡◌, ◌++◌, ◌∷◌, [], OnOk, OnErr};

use basil_types::memory::NoMemory;
use std::marker::Model;
use std::mem::replace;

/// Bytes that stay as they are, and behind them what is written of a frame so far.
#[derive(Drop)]
pub(super) struct Draft {
    bytes: Vec<u8>,
    start: usize,
}

impl Model for Draft {
    ghost use Rattle.std.specs.Prelude.{◌≤◌, take, drop, length};
    ghost use Rattle.frame_writing.specs.Draft.{DraftValue};

    ghost Value = { DraftValue };

    ghost view = { λ d. record { kept = take d.start d.bytes.items; written = drop d.start d.bytes.items } };

    ghost invariant = { λ d. d.start ≤ length d.bytes.items };
}

impl Draft {
    /// Nothing written behind these bytes, which the draft takes until it ends.
    pub(super) fn behind(out: &mut Vec<u8>) -> Draft
        ensures kept { result.kept ≡ out.old.items }
        ensures written { result.written ≡ [] }
    {
        let start = out.len();
        let empty = Vec::new(*out.allocator());
        Draft {
            bytes: replace(out, empty),
            start,
        }
    }

    /// Writes a byte, or finds memory wanting.
    pub(super) fn push(&mut self, byte: u8) -> Result<(), NoMemory>
        ensures kept { self.new.kept ≡ self.old.kept }
        ensures writes { OnOk result (self.new.written ≡ self.old.written ++ byte ∷ []) }
    {
        self.bytes.push(byte)?;
        Ok(())
    }

    /// Writes some bytes, or finds memory wanting.
    pub(super) fn extend(&mut self, bytes: &[u8]) -> Result<(), NoMemory>
        ensures kept { self.new.kept ≡ self.old.kept }
        ensures writes { OnOk result (self.new.written ≡ self.old.written ++ bytes.now) }
    {
        self.bytes.extend_from_slice(bytes)?;
        Ok(())
    }

    /// Gives the bytes back: with what is written behind them, or, where memory was wanting, cut back to what
    /// they were.
    pub(super) fn end(
        self,
        written: Result<(), NoMemory>,
        out: &mut Vec<u8>,
    ) -> Result<(), NoMemory>
        ensures result { result ≡ written }
        ensures appends { OnOk result (out.new.items ≡ self.kept ++ self.written) }
        ensures as_before { OnErr result (out.new.items ≡ self.kept) }
    {
        let mut bytes = self.bytes;
        if written.is_err() {
            bytes.truncate(self.start);
        }
        *out = bytes;
        written
    }
}

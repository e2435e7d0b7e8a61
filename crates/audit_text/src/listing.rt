//! The transactions that the lines of an audit's input list.

ghost use Rattle.std.specs.Prelude.{◌≡◌, ◌≤◌, ◌+◌, ◌<◌, ◌^◌, IfOk, OnOk, length, option_map};
ghost use Rattle.audit_text.specs.Listing as lists;
ghost use Rattle.audit_text.specs.Listing.{nothing, line_step, step_said, step, closed, closed_before, list_lines};
ghost use Rattle.audit_text.specs.Listing.{listed, begun, changed, draft_named, with_read, writer_version};
ghost use Rattle.audit_text.specs.Grammar.{line_at};
ghost use Rattle.audit_text.specs.Drafts as drafts;
ghost use Rattle.audit_text.specs.Parts.{Did, Ran, Lists};
ghost use Rattle.line_fields.specs.TextLines.{lines_of};

use crate::draft::Draft;
use crate::line::AuditLine;
use crate::names::Names;
use crate::reading::{is_tx, read_line};
use crate::stop::{Failure, Stop};
use basil_types::bytes::Bytes;
use basil_types::memory::NoMemory;
use basil_types::transaction::Transaction;
use basil_types::version::Version;
use line_fields::lines::next_line;
use line_fields::reason::Reason;
use std::alloc::Global;
use std::marker::Model;
use txn_meta::form::version_of;

/// The transactions whose lines have ended, in order, with their names, and the one whose lines are read.
#[derive(Drop)]
pub(crate) struct Listing {
    pub(crate) names: Names,
    pub(crate) list: Vec<Transaction>,
    draft: Option<Draft>,
}

impl Model for Listing {
    ghost use Rattle.audit_text.specs.Listing.{ListingValue};

    ghost Value = { ListingValue };

    ghost view = { λ l. record { names = l.names; list = l.list.items; draft = l.draft } };
}

impl Listing {
    /// No line was read.
    fn new(alloc: Global) -> Listing
        ensures { result ≡ nothing }
    {
        Listing {
            names: Names::new(alloc),
            list: Vec::new(alloc),
            draft: None,
        }
    }

    /// `tx NAME TIME C`
    fn begin(
        &mut self,
        alloc: Global,
        number: u64,
        name: &Bytes,
        time: u64,
        client: u8,
    ) -> Result<(), Stop>
        ensures { Did result self.new (line_step self.old number (AuditLine.Tx name.now time client)) }
    {
        if self.names.version_named(name.as_slice()).is_some() {
            return Err(Stop::Refused {
                reason: Reason::WrongName,
            });
        }
        let name = Bytes::copy_of(alloc, name.as_slice())?;
        self.draft = Some(Draft::new(alloc, number, name, time, client));
        Ok(())
    }

    /// The version of a writer, or of genesis.
    fn version_of_writer(&self, writer: &Option<Bytes>) -> Option<Version>
        ensures { result ≡ writer_version self.now.names writer.now }
    {
        match writer {
            Some(name) => self.names.version_named(name.as_slice()),
            None => Some(Version::genesis()),
        }
    }

    /// `read NAME KEY WRITER`
    fn read(
        &mut self,
        alloc: Global,
        number: u64,
        name: &Bytes,
        key: &Bytes,
        writer: &Option<Bytes>,
    ) -> Result<(), Stop>
        ensures { Did result self.new (line_step self.old number (AuditLine.Read name.now key.now writer.now)) }
    {
        let Some(version) = self.version_of_writer(writer) else {
            return Err(Stop::Refused {
                reason: Reason::WrongName,
            });
        };
        match &mut self.draft {
            Some(draft) => {
                if name.as_slice() != draft.name.as_slice() {
                    return Err(Stop::Refused {
                        reason: Reason::WrongName,
                    });
                }
                draft.add_read(alloc, key.as_slice(), version)?;
                Ok(())
            }
            None => Err(Stop::Refused {
                reason: Reason::WrongName,
            }),
        }
    }

    /// `write NAME KEY VALUE`, or `delete NAME KEY` where there is no value.
    fn write(
        &mut self,
        alloc: Global,
        name: &Bytes,
        key: &Bytes,
        value: Option<Bytes>,
    ) -> Result<(), Stop>
        ensures { Did result self.new (changed self.old
            (option_map (drafts.add_write key.now value) (draft_named name.now self.old.draft))) }
    {
        match &mut self.draft {
            Some(draft) => {
                if name.as_slice() != draft.name.as_slice() {
                    return Err(Stop::Refused {
                        reason: Reason::WrongName,
                    });
                }
                draft.add_write(alloc, key.as_slice(), value)?;
                Ok(())
            }
            None => Err(Stop::Refused {
                reason: Reason::WrongName,
            }),
        }
    }

    /// What a line's value does.
    fn take_value(&mut self, alloc: Global, number: u64, line: AuditLine) -> Result<(), Stop>
        ensures { Did result self.new (line_step self.old number line) }
    {
        match line {
            AuditLine::Skipped => Ok(()),
            AuditLine::Tx { name, time, client } => self.begin(alloc, number, &name, time, client),
            AuditLine::Read { name, key, writer } => self.read(alloc, number, &name, &key, &writer),
            AuditLine::Write { name, key, value } => self.write(alloc, &name, &key, Some(value)),
            AuditLine::Delete { name, key } => self.write(alloc, &name, &key, None),
        }
    }

    /// What a line by itself does.
    fn take_said(&mut self, alloc: Global, line: &[u8], number: u64) -> Result<(), Stop>
        ensures { Did result self.new (step_said self.old number (line_at line.now number)) }
    {
        match read_line(alloc, line, number) {
            Ok(value) => self.take_value(alloc, number, value),
            Err(stop) => Err(stop),
        }
    }

    /// Adds the transaction whose lines have ended, if there is one.
    fn close(&mut self, alloc: Global) -> Result<(), Failure>
        ensures ran { Ran result self.new (closed self.old) }
        ensures few { OnOk result (length self.new.list ≤ length self.old.list + 1) }
    {
        let Some(draft) = self.draft.take() else {
            return Ok(());
        };
        let line = draft.line;
        let (name, ended) = draft.end(alloc)?;
        let Some(t) = ended else {
            return Err(Failure::Refused {
                line,
                reason: Reason::RefusedCall,
            });
        };
        self.names
            .add(alloc, name.as_slice(), version_of(t.view()))?;
        self.list.push(t)?;
        Ok(())
    }

    /// A line with the first token `tx` ends the lines of the transaction before it.
    fn close_before(&mut self, alloc: Global, line: &[u8]) -> Result<(), Failure>
        ensures ran { Ran result self.new (closed_before line.now self.old) }
        ensures few { OnOk result (length self.new.list ≤ length self.old.list + 1) }
    {
        if is_tx(line) {
            return self.close(alloc);
        }
        Ok(())
    }

    /// What the line of this number does.
    fn take_line(&mut self, alloc: Global, line: &[u8], number: u64) -> Result<(), Failure>
        ensures ran { Ran result self.new (step self.old line.now number) }
        ensures few { OnOk result (length self.new.list ≤ length self.old.list + 1) }
    {
        self.close_before(alloc, line)?;
        match self.take_said(alloc, line, number) {
            Ok(()) => Ok(()),
            Err(Stop::Refused { reason }) => Err(Failure::Refused {
                line: number,
                reason,
            }),
            Err(Stop::NoMemory) => Err(Failure::NoMemory),
        }
    }

    /// The lines of these bytes, from the first on.
    fn take_lines(&mut self, alloc: Global, bytes: &[u8]) -> Result<(), Failure>
        requires numbers { 1 + length bytes.now < 2 ^ 64 }
        ensures ran { Ran result self.new (list_lines (lines_of bytes.now) 1 self.old) }
        ensures few { OnOk result (length self.new.list ≤ length self.old.list + length bytes.now) }
    {
        let mut rest = bytes;
        let mut number = 1u64;
        'lines: while !rest.is_empty() {
            let (line, more) = next_line(rest);
            match self.take_line(alloc, line, number) {
                Ok(()) => {}
                Err(failure) => return Err(failure),
            }
            rest = more;
            number += 1;
        }
        Ok(())
    }
}

/// What the lines of these bytes list.
pub(crate) fn list_of(alloc: Global, bytes: &[u8]) -> Result<Listing, Failure>
    requires numbers { 1 + length bytes.now < 2 ^ 64 }
    ensures lists { Lists result (listed bytes.now) }
    ensures few { IfOk result (λ l. length l.list ≤ length bytes.now + 1) }
{
    let mut listing = Listing::new(alloc);
    listing.take_lines(alloc, bytes)?;
    listing.close(alloc)?;
    Ok(listing)
}

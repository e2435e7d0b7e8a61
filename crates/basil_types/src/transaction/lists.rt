//! The parts of a transaction's bytes.

ghost use Rattle.std.specs.Prelude.{◌≡◌, [], IsTrue};
ghost use Rattle.basil_types.specs.Lists.{items_at, is_read, list_of};
ghost use Rattle.basil_types.specs.Parsed.{read_at, write_at};
ghost use Rattle.basil_types.specs.Transaction.{key_of_read, key_of_write};
ghost use Rattle.basil_types.specs.Items.{read_of, write_of};

use super::items::{read, write};
use super::parts::{ReadItem, WriteItem};

/// The numbers before the lists.
#[derive(Clone, Copy)]
pub(crate) struct Front {
    pub(crate) format: u8,
    pub(crate) time: u64,
    pub(crate) client: u8,
}

/// Bytes that begin with so many reads.
#[derive(Clone, Copy)]
pub(crate) struct ReadsView<'a> {
    count: u8,
    bytes: &'a [u8],
    ghost begins: { IsTrue (is_read (items_at read_at key_of_read count [] bytes.now)) },
}

/// Bytes that begin with so many writes of this format.
#[derive(Clone, Copy)]
pub(crate) struct WritesView<'a> {
    format: u8,
    count: u8,
    bytes: &'a [u8],
    ghost begins: { IsTrue (is_read (items_at (write_at format) key_of_write count [] bytes.now)) },
}

/// The reads that are left of a transaction, one after the other, ascending by key.
#[derive(Drop)]
pub struct ReadsIter<'a> {
    left: u8,
    before: &'a [u8],
    rest: &'a [u8],
    ghost begins: { IsTrue (is_read (items_at read_at key_of_read left before.now rest.now)) },
}

/// The writes that are left of a transaction, one after the other, ascending by key.
#[derive(Drop)]
pub struct WritesIter<'a> {
    format: u8,
    left: u8,
    before: &'a [u8],
    rest: &'a [u8],
    ghost begins: { IsTrue (is_read (items_at (write_at format) key_of_write left before.now rest.now)) },
}

/// What a transaction's bytes show.
#[derive(Clone, Copy)]
pub(crate) struct Parts<'a> {
    pub(crate) front: Front,
    pub(crate) reads: ReadsView<'a>,
    pub(crate) writes: WritesView<'a>,
}

impl<'a> ReadsView<'a> {
    ghost use Rattle.std.specs.Prelude.{option_map, slice_get};
    ghost use Rattle.basil_types.specs.Inner.{reads_of};
    ghost use Rattle.basil_types.specs.Shown.{reads_left};

    /// Bytes that begin with so many items.
    pub(crate) fn new(count: u8, bytes: &'a [u8]) -> ReadsView<'a>
        requires { IsTrue (is_read (items_at read_at key_of_read count [] bytes.now)) }
        ensures { reads_of result ≡ list_of (items_at read_at key_of_read count [] bytes.now) }
    {
        ReadsView { count, bytes }
    }

    /// The reads one after the other.
    pub(crate) fn iter(&self) -> ReadsIter<'a>
        ensures { reads_left result ≡ reads_of self.now }
    {
        ReadsIter {
            left: self.count,
            before: &[],
            rest: self.bytes,
        }
    }

    /// The read at a place. None exactly past the end.
    pub(crate) fn at(&self, place: usize) -> Option<ReadItem<'a>>
        ensures { option_map read_of result ≡ slice_get (reads_of self.now) place }
    {
        let mut before: &'a [u8] = &self.bytes[..0];
        let mut rest = self.bytes;
        for i in 0..self.count {
            match read(before, rest) {
                Ok((item, after)) => {
                    if i as usize == place {
                        return Some(item);
                    }
                    before = item.key;
                    rest = after;
                }
                Err(_) => return None,
            }
        }
        None
    }
}

impl<'a> WritesView<'a> {
    ghost use Rattle.std.specs.Prelude.{option_map, slice_get};
    ghost use Rattle.basil_types.specs.Inner.{writes_of};
    ghost use Rattle.basil_types.specs.Shown.{writes_left};

    /// Bytes that begin with so many items.
    pub(crate) fn new(format: u8, count: u8, bytes: &'a [u8]) -> WritesView<'a>
        requires { IsTrue (is_read (items_at (write_at format) key_of_write count [] bytes.now)) }
        ensures { writes_of result ≡ list_of (items_at (write_at format) key_of_write count [] bytes.now) }
    {
        WritesView {
            format,
            count,
            bytes,
        }
    }

    /// The writes one after the other.
    pub(crate) fn iter(&self) -> WritesIter<'a>
        ensures { writes_left result ≡ writes_of self.now }
    {
        WritesIter {
            format: self.format,
            left: self.count,
            before: &[],
            rest: self.bytes,
        }
    }

    /// The write at a place. None exactly past the end.
    pub(crate) fn at(&self, place: usize) -> Option<WriteItem<'a>>
        ensures { option_map write_of result ≡ slice_get (writes_of self.now) place }
    {
        let mut before: &'a [u8] = &self.bytes[..0];
        let mut rest = self.bytes;
        for i in 0..self.count {
            match write(self.format, before, rest) {
                Ok((item, after)) => {
                    if i as usize == place {
                        return Some(item);
                    }
                    before = item.key;
                    rest = after;
                }
                Err(_) => return None,
            }
        }
        None
    }
}

impl<'a> Iterator for ReadsIter<'a> {
    type Item = ReadItem<'a>;

    ghost use Rattle.std.specs.Iterator.{YieldsFirstBy, item_count};
    ghost use Rattle.basil_types.specs.Shown.{reads_left};

    ghost next_gives = { YieldsFirstBy read_of reads_left };

    ghost remaining = { item_count reads_left };

    fn next(&mut self) -> Option<ReadItem<'a>> {
        if self.left == 0 {
            return None;
        }
        match read(self.before, self.rest) {
            Ok((item, after)) => {
                self.left -= 1;
                self.before = item.key;
                self.rest = after;
                Some(item)
            }
            Err(_) => unreachable!(),
        }
    }
}

impl<'a> Iterator for WritesIter<'a> {
    type Item = WriteItem<'a>;

    ghost use Rattle.std.specs.Iterator.{YieldsFirstBy, item_count};
    ghost use Rattle.basil_types.specs.Shown.{writes_left};

    ghost next_gives = { YieldsFirstBy write_of writes_left };

    ghost remaining = { item_count writes_left };

    fn next(&mut self) -> Option<WriteItem<'a>> {
        if self.left == 0 {
            return None;
        }
        match write(self.format, self.before, self.rest) {
            Ok((item, after)) => {
                self.left -= 1;
                self.before = item.key;
                self.rest = after;
                Some(item)
            }
            Err(_) => unreachable!(),
        }
    }
}

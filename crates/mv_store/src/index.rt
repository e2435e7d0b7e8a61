//! Which transactions read and wrote one key.

ghost use Rattle.std.specs.Prelude.{◌≡◌, IsSome, OnOk, None, Some, option_map, is_some, true};
ghost use Rattle.std.specs.BTreeMap.{IsOrdered};
ghost use Rattle.basil_types.specs.Version.{version_cmp, below};
ghost use Rattle.mv_store.specs.Index;
ghost use Rattle.mv_store.specs.Noted;

use crate::hits::Hits;
use crate::slots::Slots;
use basil_types::version::Version;
use std::alloc::Global;
use std::ops::Bound;

/// An entered transaction: its place in order of arrival, and whether it is committed.
#[derive(Clone, Copy)]
pub(crate) struct Entered {
    pub(crate) place: u32,
    pub(crate) committed: bool,
}

impl Entered {
    /// The place of a committed one.
    pub(crate) fn committed_place(&self) -> Option<u32>
        ensures { result ≡ Index.place_if_committed self.now }
    {
        if self.committed {
            Some(self.place)
        } else {
            None
        }
    }
}

/// An entered transaction that read the key, with the version that it read.
#[derive(Clone, Copy)]
pub(crate) struct Reader {
    pub(crate) read: Version,
    pub(crate) entered: Entered,
}

/// Which entered transactions wrote and read one key, by their versions, and the greatest noted read of it.
#[derive(Drop)]
pub(crate) struct KeyIndex {
    pub(crate) writers: Slots<Entered>,
    pub(crate) readers: Slots<Reader>,
    /// The time and the client of the greatest noted read.
    pub(crate) noted: Option<(u64, u8)>,
}

impl KeyIndex {
    ghost use Rattle.basil_types.specs.declared.version.Version.{Version};
    ghost use Rattle.mv_store.specs.Slots.{slot_at};
    ghost use Rattle.mv_store.specs.Noted.{is_above, greatest};

    /// The index of a key that no transaction reads or writes.
    pub(crate) fn new(alloc: Global) -> KeyIndex
        ensures writers { (v : Version) → slot_at result.writers v ≡ None }
        ensures readers { (v : Version) → slot_at result.readers v ≡ None }
        ensures noted { result.noted ≡ None }
    {
        KeyIndex {
            writers: Slots::new(alloc),
            readers: Slots::new(alloc),
            noted: None,
        }
    }

    /// Notes a read.
    pub(crate) fn note_read(&mut self, time: u64, client: u8)
        ensures { self.new ≡ record self.old { noted = Some (greatest self.old.noted (time, client)) } }
    {
        let read = (time, client);
        self.noted = match self.noted {
            Some(noted) => {
                if comes_before(noted, read) {
                    Some(read)
                } else {
                    Some(noted)
                }
            }
            None => Some(read),
        };
    }

    /// Whether a greater read is noted.
    pub(crate) fn is_read_above(&self, time: u64, client: u8) -> bool
        ensures { result ≡ is_above self.now.noted (time, client) }
    {
        match self.noted {
            Some(noted) => comes_before((time, client), noted),
            None => false,
        }
    }

    /// The latest writer below a version, of the committed or of the prepared ones, with its place.
    pub(crate) fn latest(&self, committed: bool, below: &Version) -> Option<(Version, u32)>
        ensures value { result ≡ Index.latest committed below.now self.now.writers.map.entries }
        ensures ordered { IsOrdered version_cmp self.now.writers.map }
    {
        let (version, slot) = self.last_told(committed, below)?;
        let entered = slot?;
        Some((version, entered.place))
    }

    /// The last slot below a version that tells of a committed, or of a prepared writer.
    fn last_told(&self, committed: bool, below: &Version) -> Option<(Version, Option<Entered>)>
        ensures value { result ≡ Index.last_told committed below.now self.now.writers.map.entries }
        ensures ordered { IsOrdered version_cmp self.now.writers.map }
    {
        self.writers
            .map
            .range(..*below)
            .rev()
            .find(|(_, slot)| is_told(slot, committed))
            .map(|(version, slot)| (*version, *slot))
    }

    /// The writers strictly between two versions.
    pub(crate) fn writers_between(&self, low: &Version, high: &Version) -> Hits
        ensures value { result ≡ Index.writers_between low.now high.now self.now.writers.map.entries }
        ensures ordered { IsOrdered version_cmp self.now.writers.map }
    {
        // The length tells beside it that the versions ascend.
        let _ = self.writers.map.len();
        if !low.is_below(high) {
            return Hits::none();
        }
        self.walked_between(low, high)
    }

    /// What one walk over the writers strictly between two versions tells.
    fn walked_between(&self, low: &Version, high: &Version) -> Hits
        requires { below low.now high.now ≡ true }
        ensures { result ≡ Index.walked Index.writer_hit
            (Index.slots_between low.now high.now self.now.writers.map.entries) }
    {
        self.writers
            .map
            .range((Bound::Excluded(*low), Bound::Excluded(*high)))
            .fold(Hits::none(), |found, (_, slot)| {
                found.join(writer_hit(slot))
            })
    }

    /// The readers above a version that read the key below it.
    pub(crate) fn readers_across(&self, at: &Version) -> Hits
        ensures value { result ≡ Index.readers_across at.now self.now.readers.map.entries }
        ensures ordered { IsOrdered version_cmp self.now.readers.map }
    {
        // The length tells beside it that the versions ascend.
        let _ = self.readers.map.len();
        self.walked_above(at)
    }

    /// What one walk over the readers above a version tells of those that read the key below it.
    fn walked_above(&self, at: &Version) -> Hits
        ensures { result ≡ Index.walked (Index.reader_hit at.now)
            (Index.slots_above at.now self.now.readers.map.entries) }
    {
        self.readers
            .map
            .range((Bound::Excluded(*at), Bound::Unbounded))
            .fold(Hits::none(), |found, (_, slot)| {
                found.join(reader_hit(slot, at))
            })
    }
}

/// Whether a slot tells of a committed, or of a prepared transaction.
fn is_told(slot: &Option<Entered>, committed: bool) -> bool
    ensures { result ≡ Index.is_told committed slot.now }
{
    match slot {
        Some(entered) => entered.committed == committed,
        None => false,
    }
}

/// What the slot of a writer tells.
fn writer_hit(slot: &Option<Entered>) -> Hits
    ensures { result ≡ Index.writer_hit slot.now }
{
    Hits {
        any: slot.is_some(),
        committed: committed_place(slot),
    }
}

/// The place of a committed writer.
fn committed_place(slot: &Option<Entered>) -> Option<u32>
    ensures { result ≡ Index.committed_place slot.now }
{
    match slot {
        Some(entered) => entered.committed_place(),
        None => None,
    }
}

/// What the slot of a reader tells, if it read the key below a version.
fn reader_hit(slot: &Option<Reader>, at: &Version) -> Hits
    ensures { result ≡ Index.reader_hit at.now slot.now }
{
    Hits {
        any: reads_below(slot, at),
        committed: committed_place_below(slot, at),
    }
}

/// Whether a slot tells of a reader that read the key below a version.
fn reads_below(slot: &Option<Reader>, at: &Version) -> bool
    ensures { result ≡ Index.reads_below at.now slot.now }
{
    match slot {
        Some(reader) => reader.read.is_below(at),
        None => false,
    }
}

/// The place of a committed reader that read the key below a version.
fn committed_place_below(slot: &Option<Reader>, at: &Version) -> Option<u32>
    ensures { result ≡ Index.committed_place_below at.now slot.now }
{
    match slot {
        Some(reader) => {
            if reader.read.is_below(at) {
                reader.entered.committed_place()
            } else {
                None
            }
        }
        None => None,
    }
}

/// Whether a read comes before another, by time, then by client.
fn comes_before(first: (u64, u8), second: (u64, u8)) -> bool
    ensures { result ≡ Noted.comes_before first second }
{
    first.cmp(&second).is_lt()
}

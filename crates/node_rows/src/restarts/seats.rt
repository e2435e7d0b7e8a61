//! A replica with plain keys, alone and with a disk.

ghost use Rattle.std.specs.Prelude.{◌≡◌, ◌<◌};
ghost use Rattle.basil_types.specs.declared.party.Party.TheVariants as parties;
ghost use Rattle.quorum_laws.specs.Numbers.{replicas};

use basil_types::cluster::Cluster;
use basil_types::party::Party;
use journal_disk::disk::Disk;
use journal_disk::memory::MemDisk;
use keyring::plain::{PlainKeys, PlainPen};
use node_journal::{JournalFault, Journaled, Refused, StepFault};
use node_steps::pending::outbox;
use replica_core::Replica;
use std::alloc::Global;
use std::test::Fail;

/// A replica alone.
pub(crate) type Plain = Replica<PlainKeys, PlainPen>;

/// A replica and its disk.
pub(crate) type Kept = Journaled<PlainKeys, PlainPen, MemDisk>;

/// A replica and its disk, or why it isn't there, and the disk.
pub(crate) type Opened = Result<Box<Kept>, Refused<MemDisk>>;

/// Which replica it is of the only shard of a cluster.
#[derive(Clone, Copy)]
pub(crate) struct Seat {
    cluster: Cluster,
    index: u8,
    ghost some: { 0 < cluster.shards },
    ghost within: { index < replicas cluster.f },
}

impl Seat {
    /// The replica of this index where so many are faulty, and times may be 1000 ahead.
    pub(crate) fn new(f: u8, index: u8) -> Result<Seat, Fail> {
        let cluster = Cluster::new(f, 1, f.saturating_add(1), 1000)?;
        if index < cluster.n() {
            Ok(Seat { cluster, index })
        } else {
            Err(Fail::new("no such replica"))
        }
    }

    fn party(&self) -> Party
        ensures { result ≡ parties.Replica 0 self.now.index }
    {
        Party::Replica {
            shard: 0,
            index: self.index,
        }
    }

    /// The replica without a disk.
    pub(crate) fn alone(&self, alloc: Global) -> Result<Box<Plain>, Fail> {
        let keys = PlainKeys::new(&self.cluster);
        let pen = PlainPen::new(self.party());
        let replica = Replica::new(alloc, self.cluster, 0, self.index, keys, pen);
        Ok(Box::new(alloc, replica)?)
    }

    /// The replica with a disk on which its journal begins.
    pub(crate) fn create(&self, alloc: Global, disk: MemDisk) -> Opened {
        let keys = PlainKeys::new(&self.cluster);
        let pen = PlainPen::new(self.party());
        let answer = Journaled::create(alloc, disk, self.cluster, 0, self.index, keys, pen);
        boxed(alloc, answer)
    }

    /// The replica that starts again from a disk.
    pub(crate) fn open(&self, alloc: Global, disk: MemDisk) -> Opened {
        let keys = PlainKeys::new(&self.cluster);
        let pen = PlainPen::new(self.party());
        let answer = Journaled::open(alloc, disk, self.cluster, 0, self.index, keys, pen);
        boxed(alloc, answer)
    }

    /// Has the replica start again where it is.
    pub(crate) fn start_again(&self, kept: &mut Kept) -> Result<(), JournalFault> {
        let keys = PlainKeys::new(&self.cluster);
        let pen = PlainPen::new(self.party());
        kept.start_again(self.cluster, 0, self.index, keys, pen)
    }
}

/// Keeps the replica apart.
fn boxed(alloc: Global, answer: Result<Kept, Refused<MemDisk>>) -> Opened {
    match Box::new(alloc, answer?) {
        Ok(kept) => Ok(kept),
        Err(wanting) => Err(Refused {
            disk: wanting.value.into_disk(),
            fault: JournalFault::NoMemory,
        }),
    }
}

/// The disk of a replica that is let go.
pub(crate) fn disk_of(kept: Box<Kept>) -> MemDisk {
    Box::into_inner(kept).into_disk()
}

/// The replica and its disk, if it isn't refused.
pub(crate) fn taken(answer: Opened) -> Option<Box<Kept>> {
    match answer {
        Ok(kept) => Some(kept),
        Err(Refused { disk, fault: _ }) => {
            drop(disk);
            None
        }
    }
}

/// Whether the frame is taken, or why it isn't; what is sent is let go.
pub(crate) fn hand(
    alloc: Global,
    kept: &mut Kept,
    moment: u64,
    from: Party,
    frame: &[u8],
) -> Result<(), StepFault> {
    let mut out = outbox(alloc);
    kept.step(moment, from, frame, &mut out)
}

/// A disk that has these bytes, if there is memory for them.
pub(crate) fn disk_with(alloc: Global, bytes: &[u8]) -> Option<MemDisk> {
    let mut disk = MemDisk::new(alloc);
    match disk.write_at(0, bytes) {
        Ok(()) => Some(disk),
        Err(_) => None,
    }
}

//! A disk, as its user sees it.

ghost use Rattle.std.specs.Prelude.{◌≡◌, ◌⊎◌, ℕ, Option, OnOk, OnErr, IfOk, is_err, length, option_map, true};
ghost use Rattle.std.specs.Io.{ReadsAtMost};
ghost use Rattle.basil_types.specs.Causes.{HasCause};
ghost use Rattle.journal_disk.specs.Disk.{DiskState, BothTold, MayStay, OnTold, Reads, Writes, Tears, keeps};
ghost use Rattle.journal_disk.specs.Foreseen.{MayHappen, Passes, StopState};

use basil_types::bytes::Bytes;
use basil_types::source::Failed;

/// A stop: within which write it happens, counted from 1, and what the written range then holds, repeated from the
/// front.
#[derive(Drop)]
pub struct Stop {
    pub write: u64,
    pub bytes: Bytes,
}

/// Bytes that outlast a stop, in part. Its meaning is what its reads give and what it did, where it tells them; the
/// stop that awaits, where one is foreseen, and those that happened; and a count of faults that never falls, rises
/// where a call fails, and only there. A disk that doesn't tell what its reads give keeps no rules of them.
pub trait Disk {
    // What reads give, and what it did, where they are told.
    ghost told: { Self → Option DiskState };
    // The stop that awaits, where one is foreseen, and those that happened.
    ghost stops: { Self → StopState };
    // How many calls have failed.
    ghost faults: { Self → ℕ };

    /// Reads the bytes from the place `at` to the front of the buffer, up to the buffer's end or the disk's, and says
    /// how many.
    fn read_at(&mut self, at: u64, buf: &mut [u8]) -> Result<usize, Failed>
        ensures bound { ReadsAtMost result buf.new }
        ensures bytes { IfOk result (λ count. OnTold (Reads at count buf.new) (told self.old)) }
        ensures may_stay { OnTold MayStay (told self.old) }
        ensures as_before { told self.new ≡ told self.old }
        ensures stops { stops self.new ≡ stops self.old }
        ensures after_stop { (stops self.old).is_stopped ≡ true → is_err result ≡ true }
        ensures cause { HasCause (faults self.old) (faults self.new) result };

    /// Writes the bytes at the place `at`. After a failure some of them may have been written.
    fn write_at(&mut self, at: u64, bytes: &[u8]) -> Result<(), Failed>
        ensures written { OnOk result (BothTold (Writes at bytes.now) (told self.old) (told self.new)) }
        ensures torn { OnErr result (
            (told self.new ≡ told self.old) ⊎ BothTold (Tears at (length bytes.now)) (told self.old) (told self.new)
            ) }
        ensures passed { OnOk result (Passes (stops self.old) (stops self.new)) }
        ensures stopped { OnErr result
            (MayHappen at (length bytes.now) (stops self.old) (stops self.new) (told self.old) (told self.new)) }
        ensures after_stop { (stops self.old).is_stopped ≡ true → is_err result ≡ true }
        ensures cause { HasCause (faults self.old) (faults self.new) result };

    /// Has the disk keep what its reads give. After a failure it need not.
    fn sync(&mut self) -> Result<(), Failed>
        ensures kept { OnOk result (told self.new ≡ option_map keeps (told self.old)) }
        ensures as_before { OnErr result (told self.new ≡ told self.old) }
        ensures stops { stops self.new ≡ stops self.old }
        ensures after_stop { (stops self.old).is_stopped ≡ true → is_err result ≡ true }
        ensures cause { HasCause (faults self.old) (faults self.new) result };
}

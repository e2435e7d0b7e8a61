//! Connections to other parties.

mod connections;
mod memory;

ghost use Rattle.std.specs.Prelude.{◌≡◌, ℕ, OnOk, Option, option_map};
ghost use Rattle.std.specs.Io.{ReadsAtMost};
ghost use Rattle.std.specs.Io.KnownBytes.{ReadConsumes};
ghost use Rattle.std.specs.Result.{IsErrOf};
ghost use Rattle.basil_types.specs.Causes.{HasLinkCause};
ghost use Rattle.basil_types.specs.Links.{LinkState, Changes, WrotePrefix, unread};
ghost use Rattle.basil_types.specs.Links.{carries, opens, listens, accepts, reads, writes, closes};

use crate::memory::NoMemory;
pub use memory::{MemLinks, SureLinks};

/// Why a call of a link did nothing.
#[derive(Clone, Copy, Debug, PartialEq, Eq)]
pub enum LinkFail {
    /// The outside did not do what was asked.
    Failed,
    /// Memory is wanting.
    NoMemory,
}

impl From<NoMemory> for LinkFail {
    ghost use Rattle.std.specs.Prelude.{◌≡◌};
    ghost use Rattle.basil_types.specs.declared.links.LinkFail.TheVariants.{NoMemory};

    ghost from_gives = { λ _ e. e ≡ NoMemory };

    fn from(_refused: NoMemory) -> LinkFail {
        LinkFail::NoMemory
    }
}

/// One connection at a time, and a loopback that carries a frame through the network and back.
/// Its meaning is what it has over memory, where it tells this, and a count of faults that never falls, rises where a
/// call fails, and only there. A call that fails, or finds memory wanting, leaves what is told as it was, but for a
/// failed write.
pub trait Links {
    // What they have over memory, where it is told.
    ghost told: { Self → Option LinkState };
    // How many calls have failed.
    ghost faults: { Self → ℕ };

    /// Carries a frame through a loopback socket and back; `given` is then what came out. Want of memory leaves it as
    /// it was.
    fn carry(&mut self, frame: &[u8], given: &mut Vec<u8>) -> Result<(), LinkFail>
        ensures carried { Changes (λ _. carries given.new.items) (told self.old) (told self.new) result }
        ensures as_before { IsErrOf result LinkFail.NoMemory → given.new.items ≡ given.old.items }
        ensures cause { HasLinkCause (faults self.old) (faults self.new) result };

    /// Opens a connection to an address.
    fn open(&mut self, address: &str) -> Result<(), LinkFail>
        ensures opened { Changes (λ _. opens address.now) (told self.old) (told self.new) result }
        ensures cause { HasLinkCause (faults self.old) (faults self.new) result };

    /// Listens at an address.
    fn listen(&mut self, address: &str) -> Result<(), LinkFail>
        ensures listened { Changes (λ _. listens address.now) (told self.old) (told self.new) result }
        ensures cause { HasLinkCause (faults self.old) (faults self.new) result };

    /// Accepts the next connection.
    fn accept(&mut self) -> Result<(), LinkFail>
        ensures accepted { Changes (λ _. accepts) (told self.old) (told self.new) result }
        ensures cause { HasLinkCause (faults self.old) (faults self.new) result };

    /// Puts the next bytes of the connection at the front of the buffer, and says how many; 0 for a buffer that isn't
    /// empty is the connection's end.
    fn read(&mut self, buf: &mut [u8]) -> Result<usize, LinkFail>
        ensures bound { ReadsAtMost result buf.new }
        ensures bytes { ReadConsumes (unread (told self.old)) (unread (told self.new)) result buf.new }
        ensures read { Changes reads (told self.old) (told self.new) result }
        ensures cause { HasLinkCause (faults self.old) (faults self.new) result };

    /// Writes the bytes to the connection. After a failure a prefix of them was taken, and for want of memory none.
    fn write(&mut self, bytes: &[u8]) -> Result<(), LinkFail>
        ensures all { OnOk result (told self.new ≡ option_map (writes bytes.now) (told self.old)) }
        ensures prefix { WrotePrefix (told self.old) (told self.new) bytes.now }
        ensures as_before { IsErrOf result LinkFail.NoMemory → told self.new ≡ told self.old }
        ensures cause { HasLinkCause (faults self.old) (faults self.new) result };

    /// Closes the connection.
    fn close(&mut self)
        ensures closed { told self.new ≡ option_map closes (told self.old) }
        ensures kept { faults self.new ≡ faults self.old };
}

//! Words and frames that wait for the signature of a faulty party.

ghost use Rattle.std.specs.Prelude.{◌≡◌, ℕ, IfOk, List, length, map};
ghost use Rattle.node_steps.specs.Framed.{framed};
ghost use Rattle.node_steps.specs.Pendings.{IsReady, bytes_sent};
ghost use Rattle.faulty_parties.specs.Lies.{CanBeSaid, Says};
ghost use Rattle.faulty_parties.specs.Unsaid.{Unsaid};

use basil_types::memory::NoMemory;
use basil_types::outbox::Outbox;
use node_steps::pending::{Pending, make_room, outbox};
use std::alloc::Global;

/// Words and frames that wait for the signature of a faulty party, and an outbox with room for both.
#[derive(Drop)]
pub struct Lie {
    pub(crate) pending: Pending,
    pub(crate) out: Outbox,
    pub(crate) bytes: u64,
}

impl Lie {
    /// A lie with what waits for a signature of this size, or memory is wanting.
    pub(crate) fn of(alloc: Global, pending: Pending, size: usize) -> Result<Lie, NoMemory>
        requires { IsReady size pending }
        ensures pending { IfOk result (λ lie. lie.pending ≡ pending) }
        ensures ready { IfOk result (CanBeSaid size) }
    {
        let mut out = outbox(alloc);
        make_room(&mut out, pending.frames.len(), 1)?;
        match pending.bytes(size) {
            Some(bytes) => Ok(Lie {
                pending,
                out,
                bytes,
            }),
            None => Err(NoMemory),
        }
    }

    /// How many messages it will send.
    pub fn messages(&self) -> u64
        ensures count { result ≡ length self.now.pending.frames.items }
        ensures said { (u : Unsaid) (signature : List ℕ) → Says u self.now →
            length (map framed (u.sent signature)) ≡ result }
    {
        self.pending.frames.len() as u64
    }

    /// How many bytes the frames of its messages will have, with a signature of the size that it is ready for.
    pub fn bytes(&self) -> u64
        ensures bytes { result ≡ self.now.bytes }
        ensures said { (u : Unsaid) (signature : List ℕ) → Says u self.now → CanBeSaid (length signature) self.now →
            bytes_sent (map framed (u.sent signature)) ≡ result }
    {
        self.bytes
    }
}

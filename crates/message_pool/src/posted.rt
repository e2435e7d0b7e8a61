//! A message of a pool.

ghost use Rattle.std.specs.Prelude.{◌≡◌};
ghost use Rattle.message_pool.specs.Posts.{is_waiting};

use basil_types::bytes::Bytes;
use basil_types::party::Party;

/// What became of a message. A round passes over what was delivered or lost.
#[derive(Clone, Copy, PartialEq, Eq)]
pub enum Fate {
    Waiting,
    Delivered,
    Lost,
}

/// A message of a pool: a frame from a party to a party.
#[derive(Drop)]
pub struct Posted {
    pub from: Party,
    pub to: Party,
    pub frame: Bytes,
    pub fate: Fate,
}

impl Posted {
    /// Whether it was neither delivered nor lost.
    pub fn waits(&self) -> bool
        ensures { result ≡ is_waiting self.now.fate }
    {
        match self.fate {
            Fate::Waiting => true,
            Fate::Delivered => false,
            Fate::Lost => false,
        }
    }
}

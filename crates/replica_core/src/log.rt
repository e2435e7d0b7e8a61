//! What is logged of one transaction.

ghost use Rattle.std.specs.Prelude.{IsTrue};
ghost use Rattle.replica_core.specs.ShortReplies.{is_short_reply};

use basil_types::bytes::Bytes;
use decision_log::LogCell;

/// What is logged of one transaction.
#[derive(Drop)]
pub(crate) struct Log {
    pub(crate) cell: LogCell,
    /// The signature of the log reply that says the cell, until that changes.
    pub(crate) reply: Option<Bytes>,
    /// The numbers of the clients that wait for a change, ascending.
    pub(crate) askers: Vec<u8>,
    pub(crate) ghost short: { IsTrue (is_short_reply reply) },
}

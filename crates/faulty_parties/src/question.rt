//! What is asked of the messages of a pool.

use basil_types::party::Decision;

/// What is asked of the replicas of a shard on a transaction.
#[derive(Clone, Copy)]
pub(crate) enum Question {
    /// Their votes for a decision.
    Votes {
        shard: u8,
        decision: Decision,
    },
    /// Their election words for a view: those with the decision, or else those with the other.
    Words {
        shard: u8,
        view: u64,
        decision: Decision,
        agrees: bool,
    },
}

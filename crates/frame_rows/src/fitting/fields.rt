//! The rules of fields, and what stands on either side of each.

use basil_types::party::Decision;

/// A replica in a list, and the length of its signature.
pub(crate) type Signer = (u8, usize);

/// The fields of messages and of certificates. Keys and signatures are told by their lengths.
#[derive(Clone, Copy)]
pub(crate) struct Fields {
    pub(crate) shard: u8,
    pub(crate) replica: u8,
    pub(crate) key: usize,
    pub(crate) time: u64,
    pub(crate) client: u8,
    pub(crate) decision: Decision,
    /// The view in which it was decided, and the current one, which is an election's view too.
    pub(crate) decided: u64,
    pub(crate) current: u64,
    /// The current view of the first reply of a list; the others have the one above.
    pub(crate) first: u64,
    /// Whether a committed transaction is carried, with its certificate, and whether a prepared one is.
    pub(crate) committed: bool,
    pub(crate) prepared: bool,
    pub(crate) signature: usize,
    /// The shards of tallies, and those who signed what a list holds.
    pub(crate) shards: &'static [u8],
    pub(crate) signers: &'static [Signer],
}

impl Fields {
    /// The current view of the reply in this place of a list.
    pub(crate) fn current_at(&self, place: usize) -> u64 {
        if place == 0 { self.first } else { self.current }
    }
}

/// Fields that break no rule.
pub(crate) const FIT: Fields = Fields {
    shard: 1,
    replica: 5,
    key: 64,
    time: 10,
    client: 16,
    decision: Decision::Abort,
    decided: 3,
    current: 3,
    first: 3,
    committed: true,
    prepared: true,
    signature: 1,
    shards: &[0, 1],
    signers: &[(0, 1), (5, 1)],
};

/// A field, or two that one rule speaks of.
#[derive(Clone, Copy)]
pub(crate) enum Field {
    Shard(u8),
    Replica(u8),
    Key(usize),
    Time(u64),
    Client(u8),
    Decided(Decision),
    /// Whether a committed transaction is carried, and whether a prepared one is.
    Carried(bool, bool),
    /// The decision of a vote, and whether it carries a committed transaction.
    Proved(Decision, bool),
    /// The view of an election.
    View(u64),
    /// The view in which it was decided, and the current one.
    Views(u64, u64),
    /// The view in which it was decided, the current one of a list's first reply, and that of the others.
    Replies(u64, u64, u64),
    Signature(usize),
    Shards(&'static [u8]),
    Signers(&'static [Signer]),
}

use Decision::{Abort, Commit};
use Field::{
    Carried, Client, Decided, Key, Proved, Replica, Replies, Shard, Shards, Signature, Signers,
    Time, View, Views,
};

/// The fields that break no rule, with another one in place of theirs.
pub(crate) fn fit_but(field: Field) -> Fields {
    match field {
        Shard(shard) => Fields { shard, ..FIT },
        Replica(replica) => Fields { replica, ..FIT },
        Key(key) => Fields { key, ..FIT },
        Time(time) => Fields { time, ..FIT },
        Client(client) => Fields { client, ..FIT },
        Decided(decision) => Fields { decision, ..FIT },
        Carried(committed, prepared) => Fields {
            committed,
            prepared,
            ..FIT
        },
        Proved(decision, committed) => Fields {
            decision,
            committed,
            ..FIT
        },
        View(current) => Fields { current, ..FIT },
        Views(decided, current) => Fields {
            decided,
            current,
            ..FIT
        },
        Replies(decided, first, current) => Fields {
            decided,
            current,
            first,
            ..FIT
        },
        Signature(signature) => Fields { signature, ..FIT },
        Shards(shards) => Fields { shards, ..FIT },
        Signers(signers) => Fields { signers, ..FIT },
    }
}

/// What a rule says, and fields on both sides of it, each with whether it fits.
#[derive(Clone, Copy)]
pub(crate) struct Rule {
    pub(crate) says: &'static str,
    pub(crate) rows: &'static [(Field, bool)],
}

pub(crate) const SHARD: Rule = Rule {
    says: "a shard is below 2",
    rows: &[
        (Shard(0), true),
        (Shard(1), true),
        (Shard(2), false),
        (Shard(255), false),
    ],
};

pub(crate) const REPLICA: Rule = Rule {
    says: "a replica is below 6",
    rows: &[
        (Replica(0), true),
        (Replica(5), true),
        (Replica(6), false),
        (Replica(255), false),
    ],
};

pub(crate) const KEY: Rule = Rule {
    says: "a key has 1 to 64 bytes",
    rows: &[
        (Key(0), false),
        (Key(1), true),
        (Key(64), true),
        (Key(65), false),
        (Key(257), false),
    ],
};

pub(crate) const TIME: Rule = Rule {
    says: "a time is any number",
    rows: &[(Time(0), true), (Time(u64::MAX), true)],
};

pub(crate) const CLIENT: Rule = Rule {
    says: "a client is 1 to 16",
    rows: &[
        (Client(0), false),
        (Client(1), true),
        (Client(16), true),
        (Client(17), false),
        (Client(255), false),
    ],
};

pub(crate) const DECISION: Rule = Rule {
    says: "a decision is either of two",
    rows: &[(Decided(Commit), true), (Decided(Abort), true)],
};

pub(crate) const CARRIED: Rule = Rule {
    says: "a committed and a prepared transaction are carried or not",
    rows: &[
        (Carried(false, false), true),
        (Carried(false, true), true),
        (Carried(true, false), true),
        (Carried(true, true), true),
    ],
};

pub(crate) const PROOF: Rule = Rule {
    says: "a vote to commit has no proof",
    rows: &[
        (Proved(Commit, false), true),
        (Proved(Commit, true), false),
        (Proved(Abort, false), true),
        (Proved(Abort, true), true),
    ],
};

pub(crate) const VIEW: Rule = Rule {
    says: "an election is of a view from 1 on",
    rows: &[(View(0), false), (View(1), true), (View(u64::MAX), true)],
};

pub(crate) const VIEWS: Rule = Rule {
    says: "a current view isn't below the decided one",
    rows: &[
        (Views(0, 0), true),
        (Views(0, u64::MAX), true),
        (Views(4, 3), false),
        (Views(4, 4), true),
        (Views(4, 5), true),
        (Views(u64::MAX, u64::MAX), true),
        (Views(u64::MAX, u64::MAX - 1), false),
        (Views(u64::MAX, 0), false),
    ],
};

pub(crate) const REPLIES: Rule = Rule {
    says: "no reply of a list has a current view below the decided one",
    rows: &[
        (Replies(0, 0, 0), true),
        (Replies(4, 4, 4), true),
        (Replies(4, 3, 4), false),
        (Replies(4, 4, 3), false),
        (Replies(4, 3, 3), false),
        (Replies(4, 5, 4), true),
        (Replies(4, 4, u64::MAX), true),
        (Replies(u64::MAX, u64::MAX, u64::MAX - 1), false),
        (Replies(u64::MAX, u64::MAX, u64::MAX), true),
    ],
};

pub(crate) const SIGNATURE: Rule = Rule {
    says: "a signature has 1 to 8,192 bytes",
    rows: &[
        (Signature(0), false),
        (Signature(1), true),
        (Signature(8192), true),
        (Signature(8193), false),
    ],
};

pub(crate) const SHARDS: Rule = Rule {
    says: "the shards of tallies are below 2 and ascend strictly",
    rows: &[
        (Shards(&[]), true),
        (Shards(&[1]), true),
        (Shards(&[2]), false),
        (Shards(&[0, 1]), true),
        (Shards(&[0, 2]), false),
        (Shards(&[1, 1]), false),
        (Shards(&[1, 0]), false),
        (Shards(&[0, 1, 1]), false),
    ],
};

/// All replicas of a shard.
const ALL: &[Signer] = &[(0, 1), (1, 1), (2, 1), (3, 1), (4, 1), (5, 1)];

const AND_ONE_MORE: &[Signer] = &[(0, 1), (1, 1), (2, 1), (3, 1), (4, 1), (5, 1), (6, 1)];

pub(crate) const SIGNERS: Rule = Rule {
    says: "the replicas of a list are below 6 and ascend strictly, each with a signature",
    rows: &[
        (Signers(&[]), true),
        (Signers(&[(5, 1)]), true),
        (Signers(&[(6, 1)]), false),
        (Signers(ALL), true),
        (Signers(AND_ONE_MORE), false),
        (Signers(&[(4, 1), (5, 1)]), true),
        (Signers(&[(5, 1), (6, 1)]), false),
        (Signers(&[(5, 1), (5, 1)]), false),
        (Signers(&[(5, 1), (4, 1)]), false),
        (Signers(&[(0, 0), (5, 1)]), false),
        (Signers(&[(0, 1), (5, 0)]), false),
        (Signers(&[(0, 8192), (5, 1)]), true),
        (Signers(&[(0, 1), (5, 8192)]), true),
        (Signers(&[(0, 8193), (5, 1)]), false),
        (Signers(&[(0, 1), (5, 8193)]), false),
    ],
};

//! The lines of a schedule.

use basil_types::bytes::Bytes;
use basil_types::cluster::Cluster;
use basil_types::party::{Decision, Party};
use line_fields::keys_kind::KeysKind;
use line_fields::reason::Reason;

/// What one line of a schedule says. Names are a lower-case letter and up to 15 lower-case letters or digits, keys
/// have 1 to 64 bytes, values up to 256 and frames up to `FRAME_LIMIT`. A shard is 0 to 7, a replica's index 0 to 30
/// and a client 1 to 16: the widest ranges that any cluster gives.
#[derive(Drop)]
pub enum Line {
    /// `basil 1 f=F shards=N reads=Q delta=D clock=T keys=K`, and after it the token `journal` or nothing.
    Header {
        cluster: Cluster,
        clock: u64,
        keys: KeysKind,
        journal: bool,
    },
    /// An empty line, or one that begins with `#`.
    Skipped,
    /// `faulty PARTY`
    Faulty {
        party: Party,
    },
    /// `begin NAME C TIME`
    Begin {
        name: Bytes,
        client: u8,
        time: u64,
    },
    /// `read NAME KEY`
    Read {
        name: Bytes,
        key: Bytes,
    },
    /// `write NAME KEY VALUE`
    Write {
        name: Bytes,
        key: Bytes,
        value: Bytes,
    },
    /// `delete NAME KEY`
    Delete {
        name: Bytes,
        key: Bytes,
    },
    /// `claim NAME KEY WRITER`; no writer is genesis, spelled `-`.
    Claim {
        name: Bytes,
        key: Bytes,
        writer: Option<Bytes>,
    },
    /// `prepare NAME`
    Prepare {
        name: Bytes,
    },
    /// `settle NAME C`
    Settle {
        name: Bytes,
        client: u8,
    },
    /// `recover NAME C`
    Recover {
        name: Bytes,
        client: u8,
    },
    /// `invoke NAME C`
    Invoke {
        name: Bytes,
        client: u8,
    },
    /// `round`
    Round,
    /// `deliver I`
    Deliver {
        message: u64,
    },
    /// `lose I`
    Lose {
        message: u64,
    },
    /// `divert I PARTY`
    Divert {
        message: u64,
        to: Party,
    },
    /// `clock S R T`
    Clock {
        shard: u8,
        replica: u8,
        moment: u64,
    },
    /// `vote S R NAME D C`
    Vote {
        shard: u8,
        replica: u8,
        name: Bytes,
        decision: Decision,
        client: u8,
    },
    /// `second NAME D R`
    Second {
        name: Bytes,
        decision: Decision,
        replica: u8,
    },
    /// `logged S R NAME D DECIDED CURRENT C`; the current view isn't below the decided one.
    Logged {
        shard: u8,
        replica: u8,
        name: Bytes,
        decision: Decision,
        decided: u64,
        current: u64,
        client: u8,
    },
    /// `elect S R NAME D VIEW`; the view is at least 1.
    Elect {
        shard: u8,
        replica: u8,
        name: Bytes,
        decision: Decision,
        view: u64,
    },
    /// `decide S R NAME D VIEW Q`; the view is at least 1.
    Decide {
        shard: u8,
        replica: u8,
        name: Bytes,
        decision: Decision,
        view: u64,
        to: u8,
    },
    /// `raw PARTY PARTY HEX`
    Raw {
        from: Party,
        to: Party,
        frame: Bytes,
    },
    /// `show HEX`
    Show {
        frame: Bytes,
    },
    /// `stop S R I W HEX`; the write is 1 or 2.
    Stop {
        shard: u8,
        replica: u8,
        message: u64,
        write: u64,
        bytes: Bytes,
    },
}

/// Why a line has no value.
#[derive(Clone, Copy, Debug, PartialEq, Eq)]
pub enum LineFault {
    /// The line of this number is refused, for this reason: `NoHeader` for a header whose cluster is refused,
    /// `Misspelt`, `OutOfRange` or `OutOfSize`.
    BadLine { number: u64, reason: Reason },
    /// Memory is wanting.
    NoMemory,
}

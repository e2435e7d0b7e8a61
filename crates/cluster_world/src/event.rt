//! The events of a run.

use basil_types::party::{Decision, Party};

/// An event of a run. Transactions are numbered from 0 as they begin, messages from 1 as they enter the pool.
#[derive(Clone, Copy)]
pub enum Event<'a> {
    /// A client begins a transaction of this time.
    Begin {
        client: u8,
        time: u64,
    },
    /// A correct client reads a key.
    Read {
        tx: u32,
        key: &'a [u8],
    },
    /// A client writes a key.
    Write {
        tx: u32,
        key: &'a [u8],
        value: &'a [u8],
    },
    /// A client deletes a key.
    Delete {
        tx: u32,
        key: &'a [u8],
    },
    /// A faulty client claims to have read a key at the version of a formed transaction, or at genesis.
    Claim {
        tx: u32,
        key: &'a [u8],
        writer: Option<u32>,
    },
    /// A client forms and signs a transaction, and sends it.
    Prepare {
        tx: u32,
    },
    /// A correct client starts the second stage of a transaction that it holds.
    Settle {
        tx: u32,
        client: u8,
    },
    /// A correct client recovers a transaction.
    Recover {
        tx: u32,
        client: u8,
    },
    /// A correct client invokes the fallback of a transaction that it holds.
    Invoke {
        tx: u32,
        client: u8,
    },
    /// A message is delivered: its receiver is handed these bytes.
    Deliver {
        message: u64,
        given: &'a [u8],
    },
    /// A message is lost.
    Lose {
        message: u64,
    },
    /// Another party is handed these bytes as a message.
    Divert {
        message: u64,
        to: Party,
        given: &'a [u8],
    },
    /// A replica's clock is set.
    Clock {
        shard: u8,
        replica: u8,
        moment: u64,
    },
    /// A faulty replica votes.
    Vote {
        shard: u8,
        replica: u8,
        tx: u32,
        decision: Decision,
        client: u8,
    },
    /// A faulty client's second stage goes to a replica of the log shard.
    Second {
        tx: u32,
        decision: Decision,
        replica: u8,
    },
    /// A faulty replica's log reply goes to a client.
    Logged {
        shard: u8,
        replica: u8,
        tx: u32,
        decision: Decision,
        decided: u64,
        current: u64,
        client: u8,
    },
    /// A faulty replica's election word goes to the leader of a view.
    Elect {
        shard: u8,
        replica: u8,
        tx: u32,
        decision: Decision,
        view: u64,
    },
    /// A faulty replica's proposal goes to a replica of its shard.
    Decide {
        shard: u8,
        replica: u8,
        tx: u32,
        decision: Decision,
        view: u64,
        to: u8,
    },
    /// A frame enters the pool.
    Raw {
        from: Party,
        to: Party,
        frame: &'a [u8],
    },
    /// A frame is shown to nobody.
    Show {
        frame: &'a [u8],
    },
}

//! Lines against their values: each kind, each field with a value of its own, and each token that a field may have.

use crate::lines::spells;
use crate::support::joined;
use basil_types::bytes::Bytes;
use basil_types::memory::NoMemory;
use basil_types::party::{Decision, Party};
use line_fields::keys_kind::KeysKind;
use schedule_text::line::Line;
use schedule_text::reading::read_line;
use std::alloc::Global;
use std::test::Fail;

/// One line of each kind. Its fields are numbered in their order.
const TEXTS: &[&[u8]] = &[
    b"basil 1 f=1 shards=2 reads=3 delta=4 clock=5 keys=w8h5 journal",
    b"faulty replica 1 2",
    b"begin t1 2 3",
    b"read t1 k2",
    b"write t1 k2 v3",
    b"delete t1 k2",
    b"claim t1 k2 t3",
    b"prepare t1",
    b"settle t1 2",
    b"recover t1 2",
    b"invoke t1 2",
    b"round",
    b"deliver 1",
    b"lose 1",
    b"divert 1 replica 2 3",
    b"clock 1 2 3",
    b"vote 1 2 t3 abort 4",
    b"second t1 abort 2",
    b"logged 1 2 t3 abort 4 5 6",
    b"elect 1 2 t3 abort 4",
    b"decide 1 2 t3 abort 4 5",
    b"raw replica 1 2 client 3 0405",
    b"show 0102",
    b"stop 1 3 4 2 0506",
];

/// The first token of a kind's lines.
fn first_token(line: &Line) -> &'static str {
    match line {
        Line::Header { .. } => "basil",
        Line::Skipped => "#",
        Line::Faulty { .. } => "faulty",
        Line::Begin { .. } => "begin",
        Line::Read { .. } => "read",
        Line::Write { .. } => "write",
        Line::Delete { .. } => "delete",
        Line::Claim { .. } => "claim",
        Line::Prepare { .. } => "prepare",
        Line::Settle { .. } => "settle",
        Line::Recover { .. } => "recover",
        Line::Invoke { .. } => "invoke",
        Line::Round => "round",
        Line::Deliver { .. } => "deliver",
        Line::Lose { .. } => "lose",
        Line::Divert { .. } => "divert",
        Line::Clock { .. } => "clock",
        Line::Vote { .. } => "vote",
        Line::Second { .. } => "second",
        Line::Logged { .. } => "logged",
        Line::Elect { .. } => "elect",
        Line::Decide { .. } => "decide",
        Line::Raw { .. } => "raw",
        Line::Show { .. } => "show",
        Line::Stop { .. } => "stop",
    }
}

/// Whether a line is of the kind that its first token tells.
fn is_of_its_kind(line: &Line, text: &[u8]) -> bool {
    text.split(|byte| *byte == b' ').next() == Some(first_token(line).as_bytes())
}

/// That a value is this text.
fn is(bytes: &Bytes, text: &[u8]) -> bool {
    bytes.as_slice() == text
}

/// That a line that takes no name has its values.
fn has_numbers(line: &Line) -> bool {
    match line {
        Line::Header {
            cluster,
            clock: 5,
            keys,
            journal: true,
        } => {
            *keys == KeysKind::W8H5
                && (cluster.f, cluster.shards, cluster.reads, cluster.delta) == (1, 2, 3, 4)
        }
        Line::Faulty { party } => *party == Party::Replica { shard: 1, index: 2 },
        Line::Round => true,
        Line::Deliver { message: 1 } | Line::Lose { message: 1 } => true,
        Line::Divert { message: 1, to } => *to == Party::Replica { shard: 2, index: 3 },
        Line::Clock {
            shard: 1,
            replica: 2,
            moment: 3,
        } => true,
        Line::Raw { from, to, frame } => {
            *from == Party::Replica { shard: 1, index: 2 }
                && *to == Party::Client { number: 3 }
                && is(frame, b"\x04\x05")
        }
        Line::Show { frame } => is(frame, b"\x01\x02"),
        Line::Stop {
            shard: 1,
            replica: 3,
            message: 4,
            write: 2,
            bytes,
        } => is(bytes, b"\x05\x06"),
        _ => false,
    }
}

/// That a client's line has its values.
fn has_names(line: &Line) -> bool {
    match line {
        Line::Begin {
            name,
            client: 2,
            time: 3,
        } => is(name, b"t1"),
        Line::Read { name, key } | Line::Delete { name, key } => is(name, b"t1") && is(key, b"k2"),
        Line::Write { name, key, value } => is(name, b"t1") && is(key, b"k2") && is(value, b"v3"),
        Line::Claim {
            name,
            key,
            writer: Some(writer),
        } => is(name, b"t1") && is(key, b"k2") && is(writer, b"t3"),
        Line::Prepare { name } => is(name, b"t1"),
        Line::Settle { name, client: 2 }
        | Line::Recover { name, client: 2 }
        | Line::Invoke { name, client: 2 } => is(name, b"t1"),
        _ => false,
    }
}

/// That a line of faulty parties has its values.
fn has_views(line: &Line) -> bool {
    match line {
        Line::Vote {
            shard: 1,
            replica: 2,
            name,
            decision: Decision::Abort,
            client: 4,
        } => is(name, b"t3"),
        Line::Second {
            name,
            decision: Decision::Abort,
            replica: 2,
        } => is(name, b"t1"),
        Line::Logged {
            shard: 1,
            replica: 2,
            name,
            decision: Decision::Abort,
            decided: 4,
            current: 5,
            client: 6,
        } => is(name, b"t3"),
        Line::Elect {
            shard: 1,
            replica: 2,
            name,
            decision: Decision::Abort,
            view: 4,
        } => is(name, b"t3"),
        Line::Decide {
            shard: 1,
            replica: 2,
            name,
            decision: Decision::Abort,
            view: 4,
            to: 5,
        } => is(name, b"t3"),
        _ => false,
    }
}

/// Whether a line is read as its kind and its values, and written again.
fn has_values(alloc: Global, text: &[u8]) -> bool {
    match read_line(alloc, text, 1) {
        Ok(line) => {
            is_of_its_kind(&line, text)
                && (has_numbers(&line) || has_names(&line) || has_views(&line))
                && spells(alloc, &line, text)
        }
        Err(_) => false,
    }
}

#[test]
fn each_kind_is_read_as_its_values_and_written_again(rt: HostRuntime) {
    for text in TEXTS {
        assert!(rt; has_values(rt.alloc(), text), "{text:?}");
    }
}

/// The decision in a line.
fn decision_of(line: &Line) -> Option<Decision> {
    match line {
        Line::Vote { decision, .. } => Some(*decision),
        Line::Second { decision, .. } => Some(*decision),
        Line::Logged { decision, .. } => Some(*decision),
        Line::Elect { decision, .. } => Some(*decision),
        Line::Decide { decision, .. } => Some(*decision),
        _ => None,
    }
}

/// Lines that decide to commit. Those of the kinds above decide to abort.
const COMMITS: &[&[u8]] = &[
    b"vote 1 2 t3 commit 4",
    b"second t1 commit 2",
    b"logged 1 2 t3 commit 4 5 6",
    b"elect 1 2 t3 commit 4",
    b"decide 1 2 t3 commit 4 5",
];

/// Whether a line is read as one of its kind that commits, and written again.
fn commits(alloc: Global, text: &[u8]) -> bool {
    match read_line(alloc, text, 1) {
        Ok(line) => {
            is_of_its_kind(&line, text)
                && decision_of(&line) == Some(Decision::Commit)
                && spells(alloc, &line, text)
        }
        Err(_) => false,
    }
}

#[test]
fn each_kind_with_a_decision_may_commit(rt: HostRuntime) {
    for text in COMMITS {
        assert!(rt; commits(rt.alloc(), text), "{text:?}");
    }
}

/// The first and the last party in a line.
fn parties_of(line: &Line) -> Option<(Party, Party)> {
    match line {
        Line::Faulty { party } => Some((*party, *party)),
        Line::Divert { to, .. } => Some((*to, *to)),
        Line::Raw { from, to, .. } => Some((*from, *to)),
        _ => None,
    }
}

const CLIENT: Party = Party::Client { number: 1 };

const REPLICA: Party = Party::Replica { shard: 2, index: 3 };

const ANOTHER: Party = Party::Replica { shard: 4, index: 5 };

/// Lines, and their first and their last party.
const PARTIES: &[(&[u8], Party, Party)] = &[
    (b"faulty client 1", CLIENT, CLIENT),
    (b"faulty replica 2 3", REPLICA, REPLICA),
    (b"divert 6 client 1", CLIENT, CLIENT),
    (b"divert 6 replica 2 3", REPLICA, REPLICA),
    (b"raw client 1 client 1 06", CLIENT, CLIENT),
    (b"raw client 1 replica 2 3 06", CLIENT, REPLICA),
    (b"raw replica 2 3 client 1 06", REPLICA, CLIENT),
    (b"raw replica 2 3 replica 4 5 06", REPLICA, ANOTHER),
];

/// Whether a line is read as one of its kind with these parties, and written again.
fn has_parties(alloc: Global, text: &[u8], first: Party, last: Party) -> bool {
    match read_line(alloc, text, 1) {
        Ok(line) => {
            is_of_its_kind(&line, text)
                && parties_of(&line) == Some((first, last))
                && spells(alloc, &line, text)
        }
        Err(_) => false,
    }
}

#[test]
fn each_party_is_told(rt: HostRuntime) {
    for &(text, first, last) in PARTIES {
        assert!(rt; has_parties(rt.alloc(), text, first, last), "{text:?}");
    }
}

/// The keys in a header, and whether there are journals.
const KEYS: &[(&[u8], KeysKind, bool)] = &[
    (b"plain", KeysKind::Plain, false),
    (b"w4h5", KeysKind::W4H5, false),
    (b"w4h10", KeysKind::W4H10, false),
    (b"w8h5", KeysKind::W8H5, false),
    (b"w8h10", KeysKind::W8H10, false),
    (b"batch", KeysKind::Batch, false),
    (b"plain journal", KeysKind::Plain, true),
];

/// Whether a line is a header with these keys.
fn is_header_with(line: &Line, kind: KeysKind, with_journal: bool) -> bool {
    match line {
        Line::Header { keys, journal, .. } => *keys == kind && *journal == with_journal,
        _ => false,
    }
}

/// Whether a header with these last tokens is read as one with these keys.
fn has_keys(alloc: Global, tokens: &[u8], kind: KeysKind, journal: bool) -> Result<bool, NoMemory> {
    let front: &[u8] = b"basil 1 f=1 shards=2 reads=3 delta=4 clock=5 keys=";
    let text = joined(alloc, &[front, tokens])?;
    match read_line(alloc, &text, 1) {
        Ok(line) => Ok(is_header_with(&line, kind, journal) && spells(alloc, &line, &text)),
        Err(_) => Ok(false),
    }
}

#[test]
fn each_token_for_keys_is_told(rt: HostRuntime) -> Result<(), Fail> {
    for &(tokens, kind, journal) in KEYS {
        assert!(rt; has_keys(rt.alloc(), tokens, kind, journal)?, "{tokens:?}");
    }
    Ok(())
}

/// Whether a line is a claim of genesis.
fn is_of_genesis(alloc: Global, text: &[u8]) -> bool {
    match read_line(alloc, text, 1) {
        Ok(
            Line::Claim {
                name,
                key,
                writer: None,
            },
        ) => is(&name, b"t1") && is(&key, b"k2"),
        _ => false,
    }
}

#[test]
fn a_claim_may_be_of_genesis(rt: HostRuntime) {
    assert!(rt; is_of_genesis(rt.alloc(), b"claim t1 k2 -"));
    assert!(rt; !is_of_genesis(rt.alloc(), b"claim t1 k2 t3"));
}

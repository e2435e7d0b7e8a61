//! Frames of each kind with one fault, and their neighbours that have none, by an independent program: order, range
//! before order, and lengths. The cluster has f = 1, two shards and two reads of a quorum.

use crate::answers::fault_of;
use basil_codec::BadFrame;
use basil_types::cluster::Cluster;
use std::alloc::Global;
use std::test::Fail;

/// A frame in hex, and its first fault, or none.
struct Read {
    frame: &'static str,
    refused: Option<BadFrame>,
}

/// The first fault of a frame in the cluster.
fn fault_there(frame: &[u8]) -> Result<Option<BadFrame>, Fail> {
    let cluster = Cluster::new(1, 2, 2, 100)?;
    Ok(fault_of(frame, &cluster))
}

/// Whether each frame has its first fault, or is read where that is none.
fn are_answered(alloc: Global, rows: &[Read]) -> Result<bool, Fail> {
    for row in rows {
        let bytes = hex::decode(alloc, row.frame)?;
        if fault_there(&bytes)? != row.refused {
            return Ok(false);
        }
    }
    Ok(true)
}

const SIGNED_BY_MANY: &[Read] = &[
    // writeback, votes 0,1 and 2
    Read {
        frame: "0701000000000000000a01000101610002783101000102030405060708090a0b0c0d0e0f101112131415161718191a1b1c1d1e1f0200020000010701000107010102000107",
        refused: None,
    },
    // votes of one replica twice
    Read {
        frame: "0701000000000000000a01000101610002783101000102030405060708090a0b0c0d0e0f101112131415161718191a1b1c1d1e1f0100020100010701000107",
        refused: Some(BadFrame::Order(59)),
    },
    // votes out of order
    Read {
        frame: "0701000000000000000a01000101610002783101000102030405060708090a0b0c0d0e0f101112131415161718191a1b1c1d1e1f0100020100010700000107",
        refused: Some(BadFrame::Order(59)),
    },
    // shards out of order
    Read {
        frame: "0701000000000000000a01000101610002783101000102030405060708090a0b0c0d0e0f101112131415161718191a1b1c1d1e1f0201000000",
        refused: Some(BadFrame::Order(55)),
    },
    // a shard twice
    Read {
        frame: "0501000000000000000a010001016100027831000107000200000000",
        refused: Some(BadFrame::Order(26)),
    },
    // replica 6 behind replica 5: range before order
    Read {
        frame: "0701000000000000000a01000101610002783101000102030405060708090a0b0c0d0e0f101112131415161718191a1b1c1d1e1f0100020500010706000107",
        refused: Some(BadFrame::Range(59)),
    },
    // shard 2
    Read {
        frame: "0501000000000000000a01000101610002783100010700010200",
        refused: Some(BadFrame::Range(24)),
    },
    // no tallies
    Read {
        frame: "0501000000000000000a0100010161000278310001070100",
        refused: None,
    },
    // decision 2
    Read {
        frame: "0501000000000000000a0100010161000278310001070200",
        refused: Some(BadFrame::Range(22)),
    },
    // signature of no bytes
    Read {
        frame: "0301000000000000000a0100010161000278310000",
        refused: Some(BadFrame::Range(19)),
    },
    // certificate of kind 5
    Read {
        frame: "0701000000000000000a01000101610002783105000102030405060708090a0b0c0d0e0f101112131415161718191a1b1c1d1e1f",
        refused: Some(BadFrame::Range(19)),
    },
    // certificate of kind 0
    Read {
        frame: "0701000000000000000a01000101610002783100000102030405060708090a0b0c0d0e0f101112131415161718191a1b1c1d1e1f",
        refused: Some(BadFrame::Range(19)),
    },
    // logged, current below decided
    Read {
        frame: "0701000000000000000a01000101610002783102000102030405060708090a0b0c0d0e0f101112131415161718191a1b1c1d1e1f0000000000000000000301000000000000000002000107",
        refused: Some(BadFrame::Range(64)),
    },
    // logged, replicas out of order
    Read {
        frame: "0701000000000000000a01000101610002783102000102030405060708090a0b0c0d0e0f101112131415161718191a1b1c1d1e1f0000000000000000000002010000000000000000000107000000000000000000000107",
        refused: Some(BadFrame::Order(75)),
    },
    // conflict abort whose proof is a conflict abort
    Read {
        frame: "0701000000000000000a01000101610002783104000102030405060708090a0b0c0d0e0f101112131415161718191a1b1c1d1e1f000000010701000000000000000a01000101610002783104000102030405060708090a0b0c0d0e0f101112131415161718191a1b1c1d1e1f",
        refused: Some(BadFrame::Range(75)),
    },
    // conflict abort whose proof is a logged abort: stands
    Read {
        frame: "0701000000000000000a01000101610002783104000102030405060708090a0b0c0d0e0f101112131415161718191a1b1c1d1e1f000000010701000000000000000a01000101610002783102000102030405060708090a0b0c0d0e0f101112131415161718191a1b1c1d1e1f0001000000000000000000",
        refused: None,
    },
    // keys of writes out of order
    Read {
        frame: "0301000000000000000a0100020162000001610000000107",
        refused: Some(BadFrame::Order(17)),
    },
    // keys of writes twice
    Read {
        frame: "0301000000000000000a0100020161000001610000000107",
        refused: Some(BadFrame::Order(17)),
    },
];

/// First and second stages, and writebacks.
#[test]
fn stages_and_writebacks_are_answered(rt: HostRuntime) -> Result<(), Fail> {
    assert!(rt; are_answered(rt.alloc(), SIGNED_BY_MANY)?);
    Ok(())
}

const OTHERS: &[Read] = &[
    // log reply, current below decided
    Read {
        frame: "060000000102030405060708090a0b0c0d0e0f101112131415161718191a1b1c1d1e1f0000000000000000050000000000000004000107",
        refused: Some(BadFrame::Range(44)),
    },
    // log reply, equal views
    Read {
        frame: "060000000102030405060708090a0b0c0d0e0f101112131415161718191a1b1c1d1e1f0000000000000000050000000000000005000107",
        refused: None,
    },
    // invoke, current below decided
    Read {
        frame: "09000102030405060708090a0b0c0d0e0f101112131415161718191a1b1c1d1e1f0001000000000000000000050000000000000004000107",
        refused: Some(BadFrame::Range(45)),
    },
    // invoke, replicas out of order
    Read {
        frame: "09000102030405060708090a0b0c0d0e0f101112131415161718191a1b1c1d1e1f0002010000000000000000000000000000000000000107000000000000000000000000000000000000000107",
        refused: Some(BadFrame::Order(56)),
    },
    // invoke, shard 2
    Read {
        frame: "09000102030405060708090a0b0c0d0e0f101112131415161718191a1b1c1d1e1f0200",
        refused: Some(BadFrame::Range(33)),
    },
    // elect, view 0
    Read {
        frame: "0a01000000000000000a0100010161000278310000000000000000000000000107",
        refused: Some(BadFrame::Range(22)),
    },
    // elect, replica 6
    Read {
        frame: "0a01000000000000000a0100010161000278310006000000000000000001000107",
        refused: Some(BadFrame::Range(20)),
    },
    // decide, view 0
    Read {
        frame: "0b01000000000000000a010001016100027831000000000000000000000000000107",
        refused: Some(BadFrame::Range(22)),
    },
    // decide, a word twice
    Read {
        frame: "0b01000000000000000a01000101610002783100000000000000000000010203000001070301000107000107",
        refused: Some(BadFrame::Order(36)),
    },
    // vote to commit with a proof
    Read {
        frame: "040000000102030405060708090a0b0c0d0e0f101112131415161718191a1b1c1d1e1f000101000000000000000a01000101610002783101000102030405060708090a0b0c0d0e0f101112131415161718191a1b1c1d1e1f0200020000010701000107010102000107000107",
        refused: Some(BadFrame::Range(36)),
    },
    // vote to abort with a proof
    Read {
        frame: "040000000102030405060708090a0b0c0d0e0f101112131415161718191a1b1c1d1e1f010101000000000000000a01000101610002783101000102030405060708090a0b0c0d0e0f101112131415161718191a1b1c1d1e1f0200020000010701000107010102000107000107",
        refused: None,
    },
    // vote to abort whose proof is a fast abort
    Read {
        frame: "040000000102030405060708090a0b0c0d0e0f101112131415161718191a1b1c1d1e1f010101000000000000000a01000101610002783103000102030405060708090a0b0c0d0e0f101112131415161718191a1b1c1d1e1f000100000107000107",
        refused: Some(BadFrame::Range(55)),
    },
    // vote, flag 2
    Read {
        frame: "040000000102030405060708090a0b0c0d0e0f101112131415161718191a1b1c1d1e1f0102",
        refused: Some(BadFrame::Range(36)),
    },
    // read reply whose committed part has a fast abort
    Read {
        frame: "02000001610000000000000001010101000000000000000a01000101610002783103000102030405060708090a0b0c0d0e0f101112131415161718191a1b1c1d1e1f00010000010700000107",
        refused: Some(BadFrame::Range(33)),
    },
    // read reply of client 17
    Read {
        frame: "02000001610000000000000001110000000107",
        refused: Some(BadFrame::Range(13)),
    },
    // read of client 0
    Read {
        frame: "010161000000000000000100",
        refused: Some(BadFrame::Range(11)),
    },
    // read of a key of 65 bytes
    Read {
        frame: "01416b6b6b6b6b6b6b6b6b6b6b6b6b6b6b6b6b6b6b6b6b6b6b6b6b6b6b6b6b6b6b6b6b6b6b6b6b6b6b6b6b6b6b6b6b6b6b6b6b6b6b6b6b6b6b6b6b6b6b6b6b6b6b6b6b000000000000000101",
        refused: Some(BadFrame::Range(1)),
    },
];

/// Reads, their replies, votes, log replies, and the frames of recovery.
#[test]
fn other_kinds_are_answered(rt: HostRuntime) -> Result<(), Fail> {
    assert!(rt; are_answered(rt.alloc(), OTHERS)?);
    Ok(())
}

/// The first stage of a transaction of 18 bytes with a signature of so many bytes.
fn first_stage(alloc: Global, size: u16) -> Result<Vec<u8>, Fail> {
    let mut frame = hex::decode(alloc, "0301000000000000000a010001016100027831")?;
    frame.extend_from_slice(&size.to_be_bytes())?;
    frame.extend_from_slice(&vec![in alloc; 7u8; size as usize]?)?;
    Ok(frame)
}

/// A signature has at most 8,192 bytes.
#[test]
fn signatures_have_a_limit(rt: HostRuntime) -> Result<(), Fail> {
    for (size, fault) in [(8192, None), (8193, Some(BadFrame::Range(19)))] {
        assert!(rt; fault_there(&first_stage(rt.alloc(), size)?)? == fault);
    }
    Ok(())
}

/// A frame of more than 1,048,576 bytes is too long, whatever it says.
#[test]
fn frames_have_a_limit(rt: HostRuntime) -> Result<(), Fail> {
    let mut frame = vec![in rt.alloc(); 0u8; 1_048_576]?;
    assert!(rt; fault_there(&frame)? == Some(BadFrame::Kind));
    frame.push(0)?;
    assert!(rt; fault_there(&frame)? == Some(BadFrame::Length));
    Ok(())
}

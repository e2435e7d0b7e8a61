//! Frames that are refused, each for its first fault.

use crate::answers::fault_of;
use basil_codec::BadFrame;
use basil_types::cluster::Cluster;
use std::test::Fail;

/// Frames in hex, each with its first fault, in a cluster of one shard with f = 1.
const REFUSED: &[(&str, BadFrame)] = &[
    ("", BadFrame::Short(0)),
    ("03", BadFrame::Short(1)),
    ("0c", BadFrame::Kind),
    ("010161000000000000000a0100", BadFrame::Trailing(12)),
    ("010161000000000000000a11", BadFrame::Range(11)),
    ("0100", BadFrame::Range(1)),
    ("0404", BadFrame::Range(1)),
];

#[test]
fn faults_come_first(rt: HostRuntime) -> Result<(), Fail> {
    let cluster = Cluster::new(1, 1, 2, 100)?;
    for (frame, fault) in REFUSED {
        let bytes = hex::decode(rt.alloc(), frame)?;
        assert!(rt; fault_of(&bytes, &cluster) == Some(*fault));
    }
    Ok(())
}

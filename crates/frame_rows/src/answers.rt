//! What is answered of a frame or of a message, by the calls whose values are large: each in one small function.

use basil_codec::wider::fitting_may_be_written;
use basil_codec::{BadFrame, Message, check, encode_into, fits};
use basil_types::cluster::Cluster;
use std::alloc::Global;
use std::test::Fail;

/// The first fault of a frame. None where it is read.
pub(crate) fn fault_of(frame: &[u8], cluster: &Cluster) -> Option<BadFrame> {
    check(frame, cluster).err()
}

/// The frame of a message. None where it doesn't fit.
fn frame_of(alloc: Global, cluster: &Cluster, message: &Message) -> Result<Option<Vec<u8>>, Fail> {
    if !fits(message, cluster) {
        return Ok(None);
    }
    fitting_may_be_written(cluster, message);
    let mut out = Vec::new(alloc);
    encode_into(message, &mut out)?;
    Ok(Some(out))
}

/// The same of a message that is used no further.
pub(crate) fn encoded(
    alloc: Global,
    cluster: &Cluster,
    message: Message,
) -> Result<Option<Vec<u8>>, Fail> {
    frame_of(alloc, cluster, &message)
}

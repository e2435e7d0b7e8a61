//! Which reply answers a read.

ghost use Rattle.basil_types.specs.Refusals.{Refuses};
ghost use Rattle.frame_views.specs.Shown.{read_of, read_reply_of};
ghost use Rattle.client_reads.specs.Replies.{not_mine};

use basil_types::cluster::Cluster;
use certificates::FrameFault;
use frame_views::frames::{ReadReplyView, ReadView};
use txn_meta::shards::shard_of;

/// Refuses a reply to another read, or of another shard than the key's.
pub(crate) fn check_mine(
    cluster: &Cluster,
    read: &ReadView<'_>,
    reply: &ReadReplyView<'_>,
) -> Result<(), FrameFault>
    ensures { Refuses result (not_mine cluster.now (read_of read.now) (read_reply_of reply.now)) }
{
    if reply.shard == shard_of(read.key, cluster)
        && reply.key == read.key
        && reply.time == read.time
        && reply.client == read.client
    {
        Ok(())
    } else {
        Err(FrameFault::NotMine)
    }
}

//! Whether the replica that a reply names signed it.

ghost use Rattle.basil_types.specs.Refusals.{Refuses};
ghost use Rattle.frame_views.specs.Fitting.{FitsReadReply, bounds_of};
ghost use Rattle.frame_views.specs.Shown.{read_reply_of};
ghost use Rattle.client_reads.specs.Replies.{bad_signature};

use crate::versions::versions_of;
use basil_types::cluster::Cluster;
use basil_types::party::Party;
use basil_types::words::Words;
use certificates::FrameFault;
use frame_views::frames::ReadReplyView;
use keyring::verifier::Verifier;

/// Refuses a reply whose signature isn't accepted for the replica that it names.
pub(crate) fn check_signature<V: Verifier>(
    keys: &V,
    cluster: &Cluster,
    reply: &ReadReplyView<'_>,
) -> Result<(), FrameFault>
    requires { FitsReadReply (bounds_of cluster.now) (read_reply_of reply.now) }
    ensures { Refuses result (bad_signature (V.accepted keys.now) (read_reply_of reply.now)) }
{
    let party = Party::Replica {
        shard: reply.shard,
        index: reply.replica,
    };
    let told = versions_of(reply);
    let words = Words::read_reply(
        reply.shard,
        reply.replica,
        reply.key,
        reply.time,
        reply.client,
        told.committed,
        told.prepared,
    );
    if keys.accepts(party, words.bytes(), reply.signature) {
        Ok(())
    } else {
        Err(FrameFault::BadSignature)
    }
}

//! Whether the committed transaction of a reply is committed.

ghost use Rattle.frame_views.specs.Fitting.{FitsReadReply, bounds_of};
ghost use Rattle.frame_views.specs.Shown.{read_reply_of};
ghost use Rattle.std.specs.Prelude.{IfSome};
ghost use Rattle.basil_types.specs.Refusals.{Refuses};
ghost use Rattle.certificates.specs.Deciding.{HasGoodForm};
ghost use Rattle.client_reads.specs.Replies.{bad_certificate};

use basil_types::cluster::Cluster;
use certificates::{FrameFault, check_commit};
use frame_views::frames::ReadReplyView;
use keyring::verifier::Verifier;

/// Refuses a reply whose certificate doesn't prove that the transaction beside it is committed.
pub(crate) fn check_certificate<V: Verifier>(
    keys: &V,
    cluster: &Cluster,
    reply: &ReadReplyView<'_>,
) -> Result<(), FrameFault>
    requires fits { FitsReadReply (bounds_of cluster.now) (read_reply_of reply.now) }
    requires form { IfSome (read_reply_of reply.now).committed (λ part. HasGoodForm part.transaction) }
    ensures { Refuses result (bad_certificate (V.accepted keys.now) cluster.now (read_reply_of reply.now)) }
{
    match reply.committed {
        Some(part) => match check_commit(keys, cluster, part.transaction, &part.certificate) {
            Ok(()) => Ok(()),
            Err(refusal) => Err(FrameFault::BadCertificate(refusal)),
        },
        None => Ok(()),
    }
}

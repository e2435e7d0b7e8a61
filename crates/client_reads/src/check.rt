//! Which read replies a client takes.

ghost use Rattle.std.specs.Prelude.{◌≡◌, ◌↔◌, IsOk, IfErr};
ghost use Rattle.basil_types.specs.Refusals.{Refuses};
ghost use Rattle.frame_views.specs.Fitting.{FitsReadReply, bounds_of};
ghost use Rattle.frame_views.specs.Shown.{read_of, read_reply_of};
ghost use Rattle.client_reads.specs.Faults.{IsOfContents};
ghost use Rattle.client_reads.specs.Replies.{IsValidReply, reply_fault};

use crate::certificate::check_certificate;
use crate::laws::replies_exactly;
use crate::mine::check_mine;
use crate::seen::check_versions;
use crate::signature::check_signature;
use basil_types::cluster::Cluster;
use certificates::FrameFault;
use frame_views::frames::{ReadReplyView, ReadView};
use keyring::verifier::Verifier;

/// The first fault of a reply to this read.
fn refuse<V: Verifier>(
    keys: &V,
    cluster: &Cluster,
    read: &ReadView<'_>,
    reply: &ReadReplyView<'_>,
) -> Result<(), FrameFault>
    requires { FitsReadReply (bounds_of cluster.now) (read_reply_of reply.now) }
    ensures { Refuses result
        (reply_fault (V.accepted keys.now) cluster.now (read_of read.now) (read_reply_of reply.now)) }
{
    check_mine(cluster, read, reply)?;
    check_signature(keys, cluster, reply)?;
    check_versions(read, reply)?;
    check_certificate(keys, cluster, reply)
}

/// Whether a client takes a reply to a read of `key` by its transaction of this time, or the first fault: NotMine,
/// BadSignature, BadVersion and BadCertificate, in this order. Takes no memory.
///
/// It is for a reply that fits the cluster, as each that a frame of the cluster carries. A reply is taken where it
/// answers this read, the replica that it names signed it, each transaction that it carries has a good form and wrote
/// or deleted the key below the reader's time and client, and the committed one has a commit certificate (Basil,
/// reads).
pub fn check_reply<V: Verifier>(
    keys: &V,
    cluster: &Cluster,
    key: &[u8],
    time: u64,
    client: u8,
    reply: &ReadReplyView<'_>,
) -> Result<(), FrameFault>
    requires { FitsReadReply (bounds_of cluster.now) (read_reply_of reply.now) }
    // The reply is signed, is to this read, and carries only what the read sees.
    ensures valid { IsOk result ↔ IsValidReply (V.accepted keys.now) cluster.now
        (record { key = key.now; time = time; client = client }) (read_reply_of reply.now) }
    // The first fault, and none exactly at Ok.
    ensures exact { Refuses result (reply_fault (V.accepted keys.now) cluster.now
        (record { key = key.now; time = time; client = client }) (read_reply_of reply.now)) }
    // Neither BadFrame nor NoMemory.
    ensures only { IfErr result IsOfContents }
{
    let _ = cluster.n();
    replies_exactly();
    let read = ReadView { key, time, client };
    refuse(keys, cluster, &read, reply)
}

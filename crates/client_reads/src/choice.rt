//! Which version a client reads.

ghost use Rattle.std.specs.Prelude.{◌≡◌};
ghost use Rattle.client_reads.specs.Choosing as choosing;
ghost use Rattle.client_reads.specs.Choosing.{choice, IsCarried, NoneAbove};

use crate::versions::ReplyVersions;
use basil_types::cluster::Cluster;
use basil_types::version::Version;

/// What a client makes of the replies to a read.
#[derive(Clone, Copy, PartialEq, Eq)]
pub struct Choice {
    /// The version that it reads.
    pub version: Version,
    /// Whether it counts as prepared alone: then the reader may commit only if the version's transaction does.
    pub dependency: bool,
}

/// Whether some reply carries a version as committed.
fn carries_committed(replies: &[ReplyVersions], version: Version) -> bool
    ensures { result ≡ choosing.carries_committed replies.now version }
{
    replies.iter().any(|reply| reply.committed == version)
}

/// Whether a version is genesis, or some reply carries it as committed.
fn is_committed(replies: &[ReplyVersions], version: Version) -> bool
    ensures { result ≡ choosing.is_committed replies.now version }
{
    version == Version::genesis() || carries_committed(replies, version)
}

/// Whether at least f + 1 replies carry a version as prepared.
fn is_prepared(cluster: &Cluster, replies: &[ReplyVersions], version: Version) -> bool
    ensures { result ≡ choosing.is_prepared cluster.now replies.now version }
{
    let prepared = replies
        .iter()
        .filter(|reply| reply.prepared == version)
        .count();
    usize::from(cluster.f) + 1 <= prepared
}

/// Whether a version may be read.
fn counts(cluster: &Cluster, replies: &[ReplyVersions], version: Version) -> bool
    ensures { result ≡ choosing.counts cluster.now replies.now version }
{
    is_committed(replies, version) || is_prepared(cluster, replies, version)
}

/// The greatest version that counts.
fn chosen(cluster: &Cluster, replies: &[ReplyVersions]) -> Version
    ensures { result ≡ choosing.chosen cluster.now replies.now }
{
    let committed = replies.iter().map(|reply| reply.committed);
    let prepared = replies.iter().map(|reply| reply.prepared);
    committed
        .chain(prepared)
        .filter(|version| counts(cluster, replies, *version))
        .fold(
            Version::genesis(),
            |greatest, version| greatest.max(version),
        )
}

/// The version that a client reads, by the versions that the replies to the read carry. Takes no memory.
///
/// Genesis counts, a committed version that some reply carries, and a prepared one that at least f + 1 replies carry.
/// The greatest that counts is read; it is a dependency where it counts as prepared alone (Basil, reads).
pub fn choose(cluster: &Cluster, replies: &[ReplyVersions]) -> Choice
    ensures value { result ≡ choice cluster.now replies.now }
    // It is genesis, what some reply carries as committed, or a dependency that f + 1 replies carry as prepared.
    ensures carried { IsCarried cluster.now replies.now result }
    // No version that counts stands above it.
    ensures greatest { NoneAbove cluster.now replies.now result.version }
{
    let version = chosen(cluster, replies);
    Choice {
        version,
        dependency: !is_committed(replies, version),
    }
}

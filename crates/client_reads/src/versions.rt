//! The versions that a reply carries.

ghost use Rattle.std.specs.Prelude.{◌≡◌, option_map};
ghost use Rattle.basil_types.specs.Shown.{transaction_of};
ghost use Rattle.frame_views.specs.Shown.{committed_of, read_reply_of};
ghost use Rattle.frame_views.specs.Signed.{committed_told, version_told};
ghost use Rattle.client_reads.specs.Versions.{carried_versions};

use basil_types::version::Version;
use frame_views::frames::ReadReplyView;
use frame_views::signed::{committed_version, prepared_version};

/// The versions of a key that a read reply carries; a missing one is genesis.
#[derive(Clone, Copy, PartialEq, Eq)]
pub struct ReplyVersions {
    /// Of the latest committed transaction that wrote the key.
    pub committed: Version,
    /// Of the latest prepared transaction that wrote the key.
    pub prepared: Version,
}

/// The versions that a read reply carries. Takes no memory.
pub fn versions_of(reply: &ReadReplyView<'_>) -> ReplyVersions
    ensures { result ≡ carried_versions (read_reply_of reply.now) }
{
    ReplyVersions {
        committed: committed_version(reply.committed),
        prepared: prepared_version(reply.prepared),
    }
}

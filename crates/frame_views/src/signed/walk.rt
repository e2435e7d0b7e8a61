//! The walk over the signatures of a frame.

ghost use Rattle.std.specs.Prelude.{◌≡◌, ◌++◌, option_map, true};
ghost use Rattle.frame_views.specs.Fitting.{is_commit};
ghost use Rattle.frame_views.specs.Shown.{certificate_of, committed_of};
ghost use Rattle.frame_views.specs.Signed.{certificate_signed, commit_signed, committed_signed};
ghost use Rattle.frame_views.specs.Values.{as_commit};
ghost use Rattle.frame_views.specs.Walks.{signed_of, run_left, maybe_left};

use super::item::{SignedItem, vote};
use super::runs::{LogsRun, Run, TalliesRun};
use crate::certificates::{CertBody, CertificateView};
use crate::frames::CommittedView;
use crate::items::VoteItem;
use basil_types::party::Decision;

/// The signatures of a frame that are left, in the order of the frame's bytes.
#[derive(Drop)]
pub struct Signatures<'a> {
    pub(crate) front: Option<SignedItem<'a>>,
    pub(crate) run: Run<'a>,
    pub(crate) back: Option<SignedItem<'a>>,
}

impl<'a> Iterator for Signatures<'a> {
    type Item = SignedItem<'a>;

    ghost use Rattle.std.specs.Iterator.{YieldsFirstBy, item_count};
    ghost use Rattle.frame_views.specs.Walks.{signed_of, signed_left};

    ghost next_gives = { YieldsFirstBy signed_of signed_left };

    ghost remaining = { item_count signed_left };

    fn next(&mut self) -> Option<SignedItem<'a>> {
        if let Some(item) = self.front.take() {
            return Some(item);
        }
        if let Some(item) = self.run.next() {
            return Some(item);
        }
        self.back.take()
    }
}

/// The signatures of a certificate of a kind that may commit.
fn commit_run<'a>(certificate: CertificateView<'a>) -> Run<'a>
    requires { is_commit (certificate_of certificate).body ≡ true }
    ensures { run_left result ≡ commit_signed (as_commit (certificate_of certificate.entry)).id
        (as_commit (certificate_of certificate.entry)).body }
{
    let id = certificate.id();
    match certificate.body() {
        CertBody::FastCommit { tallies } => {
            Run::Tallies(TalliesRun::of_tallies(id, Decision::Commit, tallies))
        }
        CertBody::Logged {
            shard,
            decision,
            decided,
            logs,
        } => Run::Logs(LogsRun::of(id, shard, decision, decided, logs)),
        CertBody::FastAbort { .. } | CertBody::ConflictAbort { .. } => Run::Nothing,
    }
}

/// The signatures of a certificate: one of its own, or none, and then a list's.
pub(super) fn certified<'a>(certificate: CertificateView<'a>) -> (Option<SignedItem<'a>>, Run<'a>)
    ensures { maybe_left result.0 ++ run_left result.1 ≡ certificate_signed (certificate_of certificate.entry) }
{
    let id = certificate.id();
    match certificate.body() {
        CertBody::FastCommit { tallies } => (
            None,
            Run::Tallies(TalliesRun::of_tallies(id, Decision::Commit, tallies)),
        ),
        CertBody::Logged {
            shard,
            decision,
            decided,
            logs,
        } => (
            None,
            Run::Logs(LogsRun::of(id, shard, decision, decided, logs)),
        ),
        CertBody::FastAbort { shard, votes } => (
            None,
            Run::Tallies(TalliesRun::of_votes(id, Decision::Abort, shard, votes)),
        ),
        CertBody::ConflictAbort {
            shard,
            replica,
            signature,
            other: _,
            proof,
        } => (
            Some(vote(shard, &id, Decision::Abort, VoteItem { replica, signature })),
            commit_run(proof),
        ),
    }
}

/// The signatures of a committed transaction, where it is there.
pub(super) fn proved<'a>(part: Option<CommittedView<'a>>) -> (Option<SignedItem<'a>>, Run<'a>)
    ensures { maybe_left result.0 ++ run_left result.1 ≡ committed_signed (option_map committed_of part.entry) }
{
    match part {
        Some(part) => certified(part.certificate),
        None => (None, Run::Nothing),
    }
}

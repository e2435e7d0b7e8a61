//! Laws of certificates and tallies, over every keyring.

ghost use Rattle.std.specs.Prelude.{◌≡◌};
ghost use Rattle.frame_views.specs.Shown.{certificate_of};
ghost use Rattle.frame_views.specs.Spelling.{certificate_bytes};
ghost use Rattle.certificates.specs.Laws.{CertificatesExactly, TalliesExactly, ConflictsExactly};
ghost use Rattle.certificates.specs.Laws.{CommitsShow, CommitsCan, AbortsShow, AbortsCan, TalliesShow};
ghost use Rattle.certificates.specs.Laws.{ProofsGrow, LongerTallies, LongerFastAborts, LongerLogs};
ghost use Rattle.certificates.specs.Laws.{CertificatesAlike, TalliesAlike, ConflictsAlike, CertificatesOfBytes};
ghost use Rattle.certificates.specs.Laws.{CertificatesCarry, TalliesCarry, ConflictsCarry};

use frame_views::certificates::CertificateView;
use frame_views::laws::kept_certificate;

/// There is no refusal exactly where a certificate proves the decision, where tallies let it be logged, and where the
/// proof of a vote to abort shows a rival that is committed.
pub fn no_refusal_exactly()
    ensures certificates { CertificatesExactly }
    ensures tallies { TalliesExactly }
    ensures conflicts { ConflictsExactly }
{}

/// A commit certificate shows, in accepted signatures alone, that every replica of each involved shard voted to commit,
/// or that a log quorum of the log shard logged a commit in one view.
pub fn commits_show_quorums()
    ensures by_kind { CommitsShow }
    ensures can_commit { CommitsCan }
{}

/// An abort certificate shows, in accepted signatures alone, 3f + 1 votes to abort of an involved shard, a log quorum
/// of an abort, or one vote to abort beside the commit quorum of its rival, the transaction that it carries.
pub fn aborts_show_quorums()
    ensures by_kind { AbortsShow }
    ensures can_abort { AbortsCan }
{}

/// Tallies show, in accepted signatures alone, 3f + 1 votes to commit of each involved shard, or f + 1 votes to abort
/// of one.
pub fn tallies_show_quorums()
    ensures { TalliesShow }
{}

/// What a certificate proves stays proved over a keyring that accepts more.
pub fn proofs_grow()
    ensures { ProofsGrow }
{}

/// Tallies with one accepted vote more still let their decision be logged, and certificates with one accepted vote or
/// log reply more still prove theirs.
pub fn longer_lists_stand()
    ensures tallies { LongerTallies }
    ensures fast_aborts { LongerFastAborts }
    ensures logs { LongerLogs }
{}

/// A refusal is a function of the transaction, of the certificate or the tallies, and of what is accepted of their own
/// signatures; what else a keyring accepts doesn't matter.
pub fn refusals_rest_on_signatures()
    ensures certificates { CertificatesAlike }
    ensures tallies { TalliesAlike }
    ensures conflicts { ConflictsAlike }
{}

/// A certificate that fits a cluster is a function of its bytes, and so is each refusal of it.
pub fn bytes_tell_certificates()
    ensures { CertificatesOfBytes }
{
    kept_certificate();
}

/// What is proved stays proved over any relation that accepts those of its own signatures which the keyring accepts.
pub fn proofs_carry()
    ensures certificates { CertificatesCarry }
    ensures tallies { TalliesCarry }
    ensures conflicts { ConflictsCarry }
{}

/// Views of certificates with the same bytes show the same certificate.
pub fn same_certificate(c: &CertificateView<'_>, d: &CertificateView<'_>)
    requires { certificate_bytes (certificate_of c.now) ≡ certificate_bytes (certificate_of d.now) }
    ensures { certificate_of c.now ≡ certificate_of d.now }
{
    let _ = c.bytes();
    let _ = d.bytes();
}

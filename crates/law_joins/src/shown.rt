//! Certificates and tallies over accepted signatures.

ghost use Rattle.law_joins.specs.Shown.{CommitsAreCommits, AbortsAreAborts, TalliesAreTallies};
ghost use Rattle.law_joins.specs.Shown.{CertificatesAreCertificates};

use certificates::laws::{aborts_show_quorums, commits_show_quorums};

/// What can be committed over accepted signatures, of which none is forged, can be so in the laws.
pub fn commits_are_commits()
    ensures { CommitsAreCommits }
{}

/// What an abort certificate shows over accepted signatures, of which none is forged, can be shown in the laws.
pub fn aborts_are_aborts()
    ensures { AbortsAreAborts }
{
    commits_are_commits();
}

/// Tallies over accepted signatures, of which none is forged, are those of the laws.
pub fn tallies_are_tallies()
    ensures { TalliesAreTallies }
{}

/// A certificate that decides a transaction by accepted signatures, of which none is forged, is one of the laws.
pub fn certificates_are_certificates()
    ensures { CertificatesAreCertificates }
{
    commits_show_quorums();
    aborts_show_quorums();
    commits_are_commits();
    aborts_are_aborts();
}

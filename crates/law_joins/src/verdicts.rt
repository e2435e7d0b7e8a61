//! What a replica's verdict and the end of a transaction let it vote.

ghost use Rattle.law_joins.specs.Books.{VerdictsAreSound, ReleasesAreSound};

use mvtso_check::laws::{dependencies_are_settled, nothing_that_stands_conflicts};

/// What a verdict tests over a replica's book is what the laws ask of a vote to commit and of one that is put off.
pub fn verdicts_are_sound()
    ensures { VerdictsAreSound }
{
    nothing_that_stands_conflicts();
    dependencies_are_settled();
}

/// The votes that an outcome releases are lawful once that outcome is taken, each also after the ones before it.
pub fn releases_are_sound()
    ensures { ReleasesAreSound }
{}

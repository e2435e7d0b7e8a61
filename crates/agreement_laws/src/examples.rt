//! Runs that reach certificates, so that the laws speak of something.

ghost use Rattle.agreement_laws.specs.DividedLog.{IsSettled};
ghost use Rattle.agreement_laws.specs.Examples.{AreReached};

/// Each kind of certificate comes about in one lawful run of a sane setting: a fast and a logged commit, the log one
/// through an election, a conflict abort, a fast and a logged abort.
pub fn certificates_are_reached()
    ensures { AreReached }
{}

/// Where one of six replicas is faulty, a lawful run whose first logs differ is settled by an election, and ends in a
/// commit certificate.
pub fn a_divided_log_is_settled()
    ensures { IsSettled }
{}

//! The laws of runs speak of something.

ghost use Rattle.cluster_run.specs.Examples.{OneForgeryBreaks, OneWriteCommits};

/// In the smallest cluster a run of one write meets what the laws ask, is without a breach, and ends with the
/// transaction committed.
pub fn a_write_is_committed()
    ensures { OneWriteCommits }
{}

/// There, a vote that its replica never signed breaks a run when it is shown.
pub fn a_forgery_breaks()
    ensures { OneForgeryBreaks }
{}

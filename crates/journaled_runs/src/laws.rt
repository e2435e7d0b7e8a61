//! Whose the journals of a run are.

ghost use Rattle.journaled_runs.specs.Owners.{OwnersAreCorrect, OwnersOutlastStops, OwnersStay};

/// Before the first event the replicas that have a journal are the correct ones of the cluster, where replicas keep
/// journals, and none where they don't.
pub fn owners_are_correct()
    ensures { OwnersAreCorrect }
{}

/// No event adds a journal or takes one away.
pub fn owners_stay()
    ensures { OwnersStay }
{}

/// Nor does a stop.
pub fn owners_outlast_stops()
    ensures { OwnersOutlastStops }
{}

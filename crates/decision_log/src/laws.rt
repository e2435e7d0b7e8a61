//! Laws of the cells that a replica goes through for one transaction.

ghost use Rattle.decision_log.specs.Laws.{OneDecisionPerDecidedView, ViewsNeverFall};

/// Two cells of one run that were decided in the same view have the same decision.
pub fn one_decision_per_decided_view()
    ensures { OneDecisionPerDecidedView }
{}

/// Over a run neither the current view nor the decided one falls.
pub fn views_never_fall()
    ensures { ViewsNeverFall }
{}

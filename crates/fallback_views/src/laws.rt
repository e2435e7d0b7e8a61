//! Laws of the view rule.

ghost use Rattle.fallback_views.specs.Views.{RaisedIsView};

/// What is raised stays below 2^64.
pub fn raised_is_a_view()
    ensures { RaisedIsView }
{}

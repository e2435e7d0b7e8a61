//! What plans tell of what they will send.

ghost use Rattle.cluster_nodes.specs.Sizes.{ClientPlansTell, PlansTell};

/// A replica's plan tells how many messages it will send, and with how many bytes, where each signature of its pen has
/// its size.
pub fn plans_tell()
    ensures { PlansTell }
{}

/// A client's plan tells how many messages it will send, and with how many bytes, where each signature of its pen has
/// its size.
pub fn client_plans_tell()
    ensures { ClientPlansTell }
{}

//! What fits a cluster may be written: it fits all that one byte can number.

ghost use Rattle.frame_values.specs.Owned.{message_value};
ghost use Rattle.frame_views.specs.Fitting.{bounds_of, widest, FitsMessage, FitsCertificate};
ghost use Rattle.frame_views.specs.Shown.{message_of};
ghost use Rattle.frame_fitting.specs.Wider.{Widens};

use basil_types::cluster::Cluster;
use frame_values::owned::Message;
use frame_views::frames::MessageView;

/// What fits a cluster may be written: it fits all that one byte can number.
pub fn may_be_written()
    ensures message { Widens FitsMessage }
    ensures certificate { Widens FitsCertificate }
{}

/// The message of a checked frame may be written.
pub fn checked_may_be_written(cluster: &Cluster, m: &MessageView<'_>)
    requires { FitsMessage (bounds_of cluster.now) (message_of m.now) }
    ensures { FitsMessage widest (message_of m.now) }
{
    let _in_range = cluster.n();
}

/// A message for which `fits` is true may be written.
pub fn fitting_may_be_written(cluster: &Cluster, m: &Message)
    requires { FitsMessage (bounds_of cluster.now) (message_value m.now) }
    ensures { FitsMessage widest (message_value m.now) }
{
    let _in_range = cluster.n();
    may_be_written();
}

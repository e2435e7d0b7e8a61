//! The views that replicas report, and the view that these raise a replica to.

ghost use Rattle.std.specs.Prelude.{◌≡◌, ◌<◌, ◌≤◌, ◌+◌, ◌-◌, filter, nat_lt};
ghost use Rattle.quorum_laws.specs.Numbers.{catch_up};
ghost use Rattle.fallback_views.specs.Views.{count, reached_by, greatest, raised};

use basil_types::cluster::Cluster;

/// The view of a replica after the views that the replicas of the log shard report, which are their current views in
/// the log replies of an invoke, one of each replica (Basil, fallback: vote subsumption).
///
/// A report counts for each view up to the reported one. The greatest reported view for which 3f+1 reports count is
/// over: the replica moves to the view after it, and stays in a later one. Where there is no such view, it moves to the
/// greatest reported view above its own for which f+1 reports count. Else it stays. The greatest u64 has none after it.
///
/// There may be any number of reports, of any views. The time is quadratic in their number; a shard has at most 31
/// replicas.
pub fn raise(cluster: &Cluster, views: &[u64], current: u64) -> u64
    ensures value { result ≡ raised cluster.now.f views.now current }
    ensures never_falls { current ≤ result }

    // f+1 reports count for the view below the new one, so a correct replica reached it
    ensures backed { current < result → catch_up cluster.now.f ≤ count views.now (result - 1) }
{
    let faulty = usize::from(cluster.f);
    if let Some(over) = greatest_reached(views, 3 * faulty + 1) {
        return over.saturating_add(1).max(current);
    }
    greatest_above(views, faulty + 1, current).unwrap_or(current)
}

/// The greatest reported view for which this many reports count.
fn greatest_reached(views: &[u64], many: usize) -> Option<u64>
    ensures { result ≡ greatest (reached_by many views.now) }
{
    views
        .iter()
        .copied()
        .filter(|view| many <= reports_for(views, *view))
        .max()
}

/// The greatest one of these above a view.
fn greatest_above(views: &[u64], many: usize, current: u64) -> Option<u64>
    ensures { result ≡ greatest (filter (nat_lt current) (reached_by many views.now)) }
{
    views
        .iter()
        .copied()
        .filter(|view| many <= reports_for(views, *view))
        .filter(|view| current < *view)
        .max()
}

/// How many reports count for a view.
fn reports_for(views: &[u64], view: u64) -> usize
    ensures { result ≡ count views.now view }
{
    views.iter().filter(|reported| view <= **reported).count()
}

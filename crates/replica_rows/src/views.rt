//! The view that reported views raise a replica to.

use basil_types::cluster::Cluster;
use fallback_views::raise;
use std::test::Fail;

/// Where one replica may be faulty: the reported views, the current one, and the one that it is raised to.
const RAISED: &[(&[u64], u64, u64)] = &[
    // All six report view 0, which is over: on to view 1.
    (&[0, 0, 0, 0, 0, 0], 0, 1),
    // Three reports of view 1 are one too few for it to be over; view 0 is, by five: on to view 1.
    (&[1, 1, 1, 0, 0], 0, 1),
    // Three reports end no view; two of them reach view 2: up to it.
    (&[2, 2, 1], 0, 2),
    // Three reports end no view; one reaches view 2, which is too few, and two reach view 1: up to that.
    (&[2, 1, 0], 0, 1),
    // View 0 is over by four reports, but the current view is beyond view 1 already: it stays.
    (&[5, 0, 0, 0], 3, 3),
    // Two reports of the current view itself: it stays.
    (&[1, 1], 1, 1),
    // No report: it stays.
    (&[], 0, 0),
    // The greatest view is over by four reports, and has none after it: up to that view.
    (&[u64::MAX, u64::MAX, u64::MAX, u64::MAX], 0, u64::MAX),
];

#[test]
fn reported_views_raise_the_view(rt: HostRuntime) -> Result<(), Fail> {
    let cluster = Cluster::new(1, 1, 2, 100)?;
    for &(views, current, raised) in RAISED {
        let found = raise(&cluster, views, current);
        assert!(rt; found == raised, "from {current} to {found}");
    }
    Ok(())
}

//! How many shards and replicas a frame may name.

ghost use Rattle.std.specs.Prelude.{◌≡◌};
ghost use Rattle.frame_views.specs.Fitting.{Within, bounds_of, widest};

use basil_types::cluster::Cluster;

/// Shards and replicas of a shard, which are numbered from 0.
#[derive(Clone, Copy)]
pub struct Bounds {
    pub shards: u16,
    pub replicas: u16,
}

/// All that one byte can number.
pub(crate) const WIDEST: Bounds = Bounds {
    shards: 256,
    replicas: 256,
};

impl Bounds {
    /// The bounds of a cluster.
    pub(crate) fn of(cluster: &Cluster) -> Bounds
        ensures value { result ≡ bounds_of cluster.now }
        ensures within { Within result widest }
    {
        Bounds {
            shards: u16::from(cluster.shards),
            replicas: u16::from(cluster.n()),
        }
    }
}

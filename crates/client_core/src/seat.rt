//! Where a client sits.

use basil_types::cluster::Cluster;
use std::alloc::Global;

/// What doesn't change of a client: its cluster, its number and its allocator.
#[derive(Clone, Copy)]
pub struct Seat {
    pub cluster: Cluster,
    /// 1 to 16.
    pub number: u8,
    pub alloc: Global,
}

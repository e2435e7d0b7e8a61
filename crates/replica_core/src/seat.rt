//! Where a replica sits.

use std::alloc::Global;
use txn_table::released::Home;

/// The cluster and the shard of a replica, its index there, and its allocator.
#[derive(Clone, Copy)]
pub(crate) struct Seat {
    pub(crate) home: Home,
    pub(crate) index: u8,
    pub(crate) alloc: Global,
}

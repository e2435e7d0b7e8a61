//! The places of replicas.

/// The replica with this index of this shard, both from 0.
#[derive(Clone, Copy)]
pub struct Place {
    pub shard: u8,
    pub index: u8,
}

//! The parts of a world.

use basil_types::cluster::Cluster;
use cluster_nodes::calling::StandingClient;
use cluster_nodes::standing::StandingReplica;
use faulty_parties::pens::Pens;
use keyring::signer::Signer;
use keyring::verifier::Verifier;
use message_pool::Pool;
use run_begun::Begun;
use run_sight::Sight;
use std::alloc::Global;

/// The nodes, the messages and what was seen, of a run of a cluster.
#[derive(Drop)]
pub struct Engine<V: Verifier, S: Signer> {
    pub(crate) alloc: Global,
    pub(crate) cluster: Cluster,
    pub(crate) sight: Sight<V>,
    pub(crate) pens: Pens<S>,
    /// Shard by shard.
    pub(crate) replicas: Vec<StandingReplica<V, S>>,
    /// From client 1 on.
    pub(crate) clients: Vec<StandingClient<V, S>>,
    /// In the order in which they began.
    pub(crate) begun: Vec<Begun>,
    pub(crate) pool: Pool,
    /// The number of the message that a node refused last.
    pub(crate) refused: Option<u64>,
}

//! Which owned messages fit, by two tables: the rules of the fields of each kind of message, and of each kind of
//! certificate. For each rule `fields` has values on both sides of it. They stand in messages that break no other rule,
//! and none where the value fits. The cluster has f = 1, so six replicas of a shard, and two shards.
//!
//! Some rules no owned message can break. By their types an id has 32 bytes, and a decision and a flag are one of two.
//! A list of 256 items can't ascend below 6 or below 2. A transaction that breaks a rule isn't built, as `transactions`
//! shows. How long a frame may get is tested in `longest`.

mod certificates;
mod fields;
mod messages;
mod parts;
mod transactions;

use basil_codec::{Message, fits};
use basil_types::cluster::Cluster;

/// Whether a message fits the cluster.
fn fits_there(message: &Message) -> bool {
    match Cluster::new(1, 2, 2, 100) {
        Ok(cluster) => fits(message, &cluster),
        Err(_) => false,
    }
}

/// The same of a message that is used no further.
pub(crate) fn is_fit(message: Message) -> bool {
    fits_there(&message)
}

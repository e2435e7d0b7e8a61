//! A replica in its seat.

ghost use Rattle.std.specs.Prelude.{◌≡◌, true, IfOk, IfErr};
ghost use Rattle.basil_types.specs.declared.party.Party.TheVariants as parties;
ghost use Rattle.cluster_file.specs.Listing.{is_replica_of};
ghost use Rattle.party_seat.specs.Keys.{Tells};
ghost use Rattle.party_seat.specs.Stations.{SitsAt, self_in};

use crate::fault::SeatFault;
use crate::pen::pen_of;
use basil_types::party::Party;
use cluster_file::ClusterFile;
use keyring_lms::{LmsKeys, LmsPen};
use replica_core::Replica;
use std::alloc::Global;

/// What a replica is told of itself: its place in the cluster, the SEED of its key (RFC 8554, appendix A), and the
/// first leaf that it may sign with.
#[derive(Clone, Copy)]
pub struct NodeSeat {
    pub shard: u8,
    pub index: u8,
    pub seed: [u8; 32],
    pub leaf: u32,
}

/// The replica of a seat, before its first frame: it accepts what is valid under the file's public keys, and signs with
/// its own. `WrongKey` where the seed doesn't give the public key that the file lists, and then `WrongLeaf`.
pub fn replica_of(
    alloc: Global,
    file: &ClusterFile,
    seat: &NodeSeat,
) -> Result<Replica<LmsKeys, LmsPen>, SeatFault>
    requires { is_replica_of file.now.cluster (parties.Replica seat.now.shard seat.now.index) ≡ true }
    ensures sits { IfOk result (λ replica. SitsAt replica (self_in file.now seat.now)) }
    ensures refused { IfErr result (λ fault. Tells fault (self_in file.now seat.now)) }
{
    let (shard, index) = (seat.shard, seat.index);
    let party = Party::Replica { shard, index };
    let pen = pen_of(alloc, file, party, &seat.seed, seat.leaf)?;
    let keys = LmsKeys::from_publics(alloc, file.publics())?;
    Ok(Replica::new(alloc, file.cluster, shard, index, keys, pen))
}

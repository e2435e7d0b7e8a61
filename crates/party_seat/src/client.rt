//! A client in its seat.

ghost use Rattle.std.specs.Prelude.{◌≡◌, ◌≤◌, IfOk, IfErr};
ghost use Rattle.basil_types.specs.Limits.{most_clients};
ghost use Rattle.party_seat.specs.Clients.{ClientSitsAt, client_in};
ghost use Rattle.party_seat.specs.Keys.{Tells};

use crate::fault::SeatFault;
use crate::pen::pen_of;
use basil_types::party::Party;
use client_core::Client;
use cluster_file::ClusterFile;
use keyring_lms::{LmsKeys, LmsPen};
use std::alloc::Global;

/// What a client is told of itself: its number, 1 to 16, the SEED of its key (RFC 8554, appendix A), and the first leaf
/// that it may sign with.
#[derive(Clone, Copy)]
pub struct ClientSeat {
    pub number: u8,
    pub seed: [u8; 32],
    pub leaf: u32,
}

/// The client of a seat, before its first call: it accepts what is valid under the file's public keys, and signs with
/// its own. `WrongKey` where the file doesn't list it or the seed doesn't give the public key that the file lists, and
/// then `WrongLeaf`.
pub fn client_of(
    alloc: Global,
    file: &ClusterFile,
    seat: &ClientSeat,
) -> Result<Client<LmsKeys, LmsPen>, SeatFault>
    requires { (1 ≤ seat.now.number) × (seat.now.number ≤ most_clients) }
    ensures sits { IfOk result (λ client. ClientSitsAt client (client_in file.now seat.now)) }
    ensures cluster { IfOk result (λ client. client.seat.cluster ≡ file.now.cluster) }
    ensures number { IfOk result (λ client. client.seat.number ≡ seat.now.number) }
    ensures refused { IfErr result (λ fault. Tells fault (client_in file.now seat.now)) }
{
    let number = seat.number;
    let party = Party::Client { number };
    let pen = pen_of(alloc, file, party, &seat.seed, seat.leaf)?;
    let keys = LmsKeys::from_publics(alloc, file.publics())?;
    Ok(Client::new(alloc, file.cluster, number, keys, pen))
}

//! A file that stood every test.

ghost use Rattle.std.specs.Prelude.{◌≡◌, true, map, option_map, is_some, string_bytes};
ghost use Rattle.std.specs.List.{list_all, zip};
ghost use Rattle.keyring_lms.specs.Keys.{is_same};
ghost use Rattle.keyring_lms.specs.Replay.{is_party_of};
ghost use Rattle.cluster_file.specs.Seats.{are_distinct};
ghost use Rattle.cluster_file.specs.Listing as listing;
ghost use Rattle.cluster_file.specs.Listing.{address_in, is_replica_of, parties_in};

use basil_types::cluster::Cluster;
use basil_types::party::Party;
use lms_sign::LmsSet;
use std::marker::Model;

/// A cluster, the parameter set of its signatures, the public keys of its parties, and where its replicas are.
/// Every replica of the cluster stands there once, and each client at most once.
#[derive(Drop)]
pub struct ClusterFile {
    pub cluster: Cluster,
    pub set: LmsSet,
    /// The replicas in the file's order, and then the clients in theirs.
    pub(crate) publics: Vec<(Party, [u8; 56])>,
    /// Those of the replicas, in the same order.
    pub(crate) addresses: Vec<String>,
}

impl Model for ClusterFile {
    ghost use Rattle.std.specs.Prelude.{map, string_bytes};
    ghost use Rattle.cluster_file.specs.Listing.{Listing, listing_made, IsListing};

    ghost Value = { Listing };

    ghost view = { λ c. listing_made c.cluster c.set c.publics.items (map string_bytes c.addresses.items) };

    ghost invariant = { λ c.
        IsListing (listing_made c.cluster c.set c.publics.items (map string_bytes c.addresses.items)) };
}

/// Whether an entry is a party's.
fn is_of(entry: &(Party, [u8; 56]), party: Party) -> bool
    ensures { result ≡ is_same entry.now.0 party }
{
    entry.0 == party
}

/// The text that stands beside a party.
fn address_beside<'a>(
    publics: &[(Party, [u8; 56])],
    addresses: &'a [String],
    party: Party,
) -> Option<&'a str>
    ensures { option_map (λ s. s.now) result
        ≡ listing.address_beside (zip publics.now (map string_bytes addresses.now)) party }
{
    let count = publics.len().min(addresses.len());
    for place in 0..count {
        if is_of(&publics[place], party) {
            return Some(addresses[place].as_str());
        }
    }
    None
}

impl ClusterFile {
    /// The parties of the file with their public keys: the replicas in the file's order, and then the clients in
    /// theirs.
    pub fn publics(&self) -> &[(Party, [u8; 56])]
        ensures list { result.now ≡ self.now.publics }
        ensures known { list_all (is_party_of self.now.cluster) (parties_in result.now) ≡ true }
        ensures once { are_distinct (parties_in result.now) ≡ true }
    {
        &self.publics
    }

    /// Where a replica of the cluster is; none for any other party.
    pub fn address(&self, party: Party) -> Option<&str>
        ensures text { option_map (λ s. s.now) result ≡ address_in self.now party }
        ensures replicas { is_some result ≡ is_replica_of self.now.cluster party }
    {
        address_beside(&self.publics, &self.addresses, party)
    }
}

//! Lists of parties.

ghost use Rattle.std.specs.Prelude.{◌≡◌};
ghost use Rattle.premise_watch.specs.Parties as defined;
ghost use Rattle.basil_types.specs.declared.party.Party.TheVariants as variant;
ghost use Rattle.txn_table.specs.Entries as entries;

use basil_types::party::Party;

/// Whether a party is one of these.
pub(crate) fn is_among(parties: &[Party], party: Party) -> bool
    ensures { result ≡ defined.is_among parties.now party }
{
    parties.iter().any(|known| is_same(party, *known))
}

/// Whether two parties are the same.
fn is_same(a: Party, b: Party) -> bool
    ensures { result ≡ entries.same_party a b }
{
    match a {
        Party::Replica { shard, index } => is_replica(b, shard, index),
        Party::Client { number } => is_client(b, number),
    }
}

/// Whether a party is this replica.
fn is_replica(party: Party, shard: u8, index: u8) -> bool
    ensures { result ≡ entries.same_party (variant.Replica shard index) party }
{
    match party {
        Party::Replica {
            shard: own,
            index: place,
        } => shard == own && index == place,
        Party::Client { .. } => false,
    }
}

/// Whether a party is this client.
fn is_client(party: Party, number: u8) -> bool
    ensures { result ≡ entries.same_party (variant.Client number) party }
{
    match party {
        Party::Replica { .. } => false,
        Party::Client { number: own } => number == own,
    }
}

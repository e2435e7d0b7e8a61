//! Parties and decisions.

ghost use Rattle.std.specs.Prelude.{◌≡◌};
ghost use Rattle.basil_types.specs.Decision as decisions;
ghost use Rattle.basil_types.specs.Parties as parties;

/// Who sends, receives and signs.
#[derive(Clone, Copy, Debug, PartialEq, Eq, PartialOrd, Ord)]
pub enum Party {
    /// The replica with this index in this shard, both from 0.
    Replica { shard: u8, index: u8 },
    /// The client with this number, from 1 to 16.
    Client { number: u8 },
}

/// Three bytes that name a party: 0, the shard and the index of a replica, or 1, 0 and the number of a client.
pub fn party_bytes(party: Party) -> [u8; 3]
    ensures { result ≡ parties.party_bytes party }
{
    match party {
        Party::Replica { shard, index } => [0, shard, index],
        Party::Client { number } => [1, 0, number],
    }
}

/// What a vote, a log reply or a certificate says.
#[derive(Clone, Copy, PartialEq, Eq, PartialOrd, Ord)]
pub enum Decision {
    Commit,
    Abort,
}

/// Whether two decisions are the same.
pub fn same_decision(a: Decision, b: Decision) -> bool
    ensures { result ≡ decisions.same_decision a b }
{
    match a {
        Decision::Commit => is_commit(b),
        Decision::Abort => is_abort(b),
    }
}

/// Whether it is to commit.
pub fn is_commit(decision: Decision) -> bool
    ensures { result ≡ decisions.is_commit decision }
{
    match decision {
        Decision::Commit => true,
        Decision::Abort => false,
    }
}

/// Whether it is to abort.
pub fn is_abort(decision: Decision) -> bool
    ensures { result ≡ decisions.is_abort decision }
{
    match decision {
        Decision::Commit => false,
        Decision::Abort => true,
    }
}

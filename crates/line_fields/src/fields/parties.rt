//! Parties, which are two or three tokens.

ghost use Rattle.std.specs.Prelude.{◌≡◌, option_copied, MatchOption, None, Some};
ghost use Rattle.line_fields.specs.Tokens.{tokens_after};
ghost use Rattle.line_fields.specs.Parties.{party, replica_party, client_party, place};

use crate::complaint::{Complaint, read_both};
use crate::fields::numbers::{read_client, read_replica, read_shard};
use crate::fields::spellings::is_text;
use crate::tokens::next;
use basil_types::party::Party;

/// A replica's shard, and its index there.
pub fn read_place(shard: &[u8], replica: &[u8]) -> Result<(u8, u8), Complaint>
    ensures { result ≡ place shard.now replica.now }
{
    read_both(read_shard(shard), read_replica(replica))
}

/// `S R`, and what stands behind.
fn read_replica_party(rest: Option<&[u8]>) -> Option<(Result<Party, Complaint>, Option<&[u8]>)>
    ensures { MatchOption result (replica_party (tokens_after (option_copied rest.entry)) ≡ None)
        (λ t. replica_party (tokens_after (option_copied rest.entry)) ≡ Some (t.0, tokens_after (option_copied t.1))) }
{
    let (shard, rest) = next(rest)?;
    let (replica, rest) = next(rest)?;
    let party = match read_place(shard, replica) {
        Ok((shard, index)) => Ok(Party::Replica { shard, index }),
        Err(complaint) => Err(complaint),
    };
    Some((party, rest))
}

/// `C`, and what stands behind.
fn read_client_party(rest: Option<&[u8]>) -> Option<(Result<Party, Complaint>, Option<&[u8]>)>
    ensures { MatchOption result (client_party (tokens_after (option_copied rest.entry)) ≡ None)
        (λ t. client_party (tokens_after (option_copied rest.entry)) ≡ Some (t.0, tokens_after (option_copied t.1))) }
{
    let (client, rest) = next(rest)?;
    let party = match read_client(client) {
        Ok(number) => Ok(Party::Client { number }),
        Err(complaint) => Err(complaint),
    };
    Some((party, rest))
}

#[tactic(auto, unfolding(crate::specs::Parties::party))]
/// `replica S R` or `client C`, and what stands behind; none where the tokens begin otherwise.
pub fn read_party(rest: Option<&[u8]>) -> Option<(Result<Party, Complaint>, Option<&[u8]>)>
    ensures { MatchOption result (party (tokens_after (option_copied rest.entry)) ≡ None)
        (λ t. party (tokens_after (option_copied rest.entry)) ≡ Some (t.0, tokens_after (option_copied t.1))) }
{
    let (kind, rest) = next(rest)?;
    if is_text(kind, b"replica") {
        read_replica_party(rest)
    } else if is_text(kind, b"client") {
        read_client_party(rest)
    } else {
        None
    }
}

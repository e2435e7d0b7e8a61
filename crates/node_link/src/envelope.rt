//! Readers of the parts of an envelope, from left to right. Each gives the part and the bytes behind it; or nothing,
//! where bytes are missing; or why the rules end the connection there.

ghost use Rattle.std.specs.Prelude.{◌≡◌, ◌<◌, ◌≤◌, IfOk, length};
ghost use Rattle.basil_types.specs.Steps.{Gives};
ghost use Rattle.node_link.specs.Envelopes.{envelope_at, frame_at, length_at, party_at, party_named};

use crate::cause::EndCause;
use basil_types::cluster::Cluster;
use basil_types::limits::{FRAME_LIMIT, MOST_CLIENTS};
use basil_types::party::Party;

/// An envelope whose frame is lent.
#[derive(Clone, Copy)]
pub(crate) struct Lent<'a> {
    pub(crate) to: Party,
    pub(crate) frame: &'a [u8],
}

/// Who of the cluster is named by three bytes.
fn name_of(cluster: &Cluster, kind: u8, shard: u8, number: u8) -> Option<Party>
    ensures { result ≡ party_named cluster.now kind shard number }
{
    if kind == 0 && shard < cluster.shards && number < cluster.n() {
        return Some(Party::Replica {
            shard,
            index: number,
        });
    }
    if kind == 1 && shard == 0 && 1 <= number && number <= MOST_CLIENTS {
        return Some(Party::Client { number });
    }
    None
}

/// The party of an envelope.
#[tactic(auto, unfolding(crate::specs::Envelopes::party_at))]
fn party<'a>(cluster: &Cluster, bytes: &'a [u8]) -> Result<(Party, &'a [u8]), Option<EndCause>>
    ensures gives { Gives (λ x. (x.0, x.1.now)) result (party_at cluster.now bytes.now) }
    ensures behind { IfOk result (λ x. length x.1.now ≤ length bytes.now) }
{
    match bytes {
        [kind, shard, number, rest @ ..] => match name_of(cluster, *kind, *shard, *number) {
            Some(party) => Ok((party, rest)),
            None => Err(Some(EndCause::Party)),
        },
        _ => Err(None),
    }
}

/// The length of its frame.
#[tactic(auto, unfolding(crate::specs::Envelopes::length_at))]
fn frame_length(bytes: &[u8]) -> Result<(u32, &[u8]), Option<EndCause>>
    ensures gives { Gives (λ x. (x.0, x.1.now)) result (length_at bytes.now) }
    ensures behind { IfOk result (λ x. length x.1.now < length bytes.now) }
{
    if bytes.len() < 4 {
        return Err(None);
    }
    let (front, rest) = bytes.split_at(4);
    let count = u32::from_be_bytes([front[0], front[1], front[2], front[3]]);
    if count == 0 {
        return Err(Some(EndCause::Empty));
    }
    if count as usize <= FRAME_LIMIT {
        Ok((count, rest))
    } else {
        Err(Some(EndCause::TooLong(count)))
    }
}

/// Its frame.
#[tactic(auto, unfolding(crate::specs::Envelopes::frame_at))]
fn frame(count: usize, bytes: &[u8]) -> Result<(&[u8], &[u8]), Option<EndCause>>
    ensures gives { Gives (λ x. (x.0.now, x.1.now)) result (frame_at count bytes.now) }
    ensures behind { IfOk result (λ x. length x.1.now ≤ length bytes.now) }
{
    if bytes.len() < count {
        return Err(None);
    }
    Ok(bytes.split_at(count))
}

/// The envelope at the front.
#[tactic(auto, unfolding(crate::specs::Envelopes::envelope_at))]
pub(crate) fn envelope<'a>(
    cluster: &Cluster,
    bytes: &'a [u8],
) -> Result<(Lent<'a>, &'a [u8]), Option<EndCause>>
    ensures gives { Gives (λ x. (record { to = x.0.to; frame = x.0.frame.now }, x.1.now)) result
        (envelope_at cluster.now bytes.now) }
    ensures behind { IfOk result (λ x. length x.1.now < length bytes.now) }
{
    let (to, rest) = party(cluster, bytes)?;
    let (count, rest) = frame_length(rest)?;
    let (frame, rest) = frame(count as usize, rest)?;
    Ok((Lent { to, frame }, rest))
}

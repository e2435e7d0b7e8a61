//! To whom a client sends, and the frames that it sends to them.

ghost use Rattle.std.specs.Prelude.{◌≡◌, ◌≤◌, ◌++◌, [], ℕ, All, IfOk, OnOk, map, slice_get};
ghost use Rattle.basil_types.specs.Limits.{signature_limit};
ghost use Rattle.basil_types.specs.Setting.{Setting};
ghost use Rattle.basil_types.specs.Shown.{transaction_of};
ghost use Rattle.basil_types.specs.Transaction.{TransactionValue};
ghost use Rattle.client_recover.specs.Pursuits.{to_involved, to_shard};
ghost use Rattle.client_steps.specs.Addressing.{parties_at, parties_of, parties_in, enveloped, fronted};
ghost use Rattle.frame_views.specs.Spelling.{spelling};
ghost use Rattle.frame_views.specs.Values.{MessageValue};
ghost use Rattle.node_steps.specs.Framed.{framed};
ghost use Rattle.node_steps.specs.Pendings.{front_of, HasRoomFor};
ghost use Rattle.txn_meta.specs.Places.{members};

use basil_types::bytes::Bytes;
use basil_types::cluster::Cluster;
use basil_types::list::List;
use basil_types::memory::NoMemory;
use basil_types::outbox::{Envelope, Outbox};
use basil_types::party::Party;
use basil_types::transaction::TransactionView;
use node_steps::pending::Unsigned;
use std::alloc::Global;
use txn_meta::shards::{Shards, involved};

/// Appends every replica of a shard, ascending.
pub(crate) fn add_shard(
    parties: &mut Vec<Party>,
    cluster: &Cluster,
    shard: u8,
) -> Result<(), NoMemory>
    ensures { OnOk result (parties.new.items ≡ parties.old.items ++ parties_of cluster.now shard) }
{
    for index in 0..cluster.n() {
        parties.push(Party::Replica { shard, index })?;
    }
    Ok(())
}

/// Every replica of a shard, ascending.
pub fn shard_parties(alloc: Global, cluster: &Cluster, shard: u8) -> Result<Vec<Party>, NoMemory>
    ensures { IfOk result (λ p. p.items ≡ parties_of cluster.now shard) }
{
    let mut parties = Vec::new(alloc);
    add_shard(&mut parties, cluster, shard)?;
    Ok(parties)
}

/// Appends every replica of the shard at a place of a set, ascending, or nothing past its end.
fn add_involved(
    parties: &mut Vec<Party>,
    cluster: &Cluster,
    shards: &Shards,
    place: u8,
) -> Result<(), NoMemory>
    ensures { OnOk result
        (parties.new.items ≡ parties.old.items ++ parties_at cluster.now (slice_get (members shards.now) place)) }
{
    match shards.nth(place) {
        Some(shard) => add_shard(parties, cluster, shard),
        None => Ok(()),
    }
}

/// Every replica of every involved shard, ascending.
pub fn involved_parties(
    alloc: Global,
    cluster: &Cluster,
    t: TransactionView<'_>,
) -> Result<Vec<Party>, NoMemory>
    ensures { IfOk result (λ p. p.items ≡ parties_in cluster.now (transaction_of t.entry)) }
{
    let shards = involved(t, cluster);
    let mut parties = Vec::new(alloc);
    for place in 0..8u8 {
        add_involved(&mut parties, cluster, &shards, place)?;
    }
    Ok(parties)
}

/// This frame for each of these parties, and nothing signed.
pub fn sent_to(alloc: Global, parties: &[Party], frame: &[u8]) -> Result<Outbox, NoMemory>
    ensures messages { IfOk result (λ out. out.messages.items ≡ map (enveloped frame.now) parties.now) }
    ensures signed { IfOk result (λ out. out.signed.items ≡ []) }
{
    let mut messages = Vec::new(alloc);
    for to in parties {
        let frame = Bytes::copy_of(alloc, frame)?;
        messages.push(Envelope { to: *to, frame })?;
    }
    Ok(Outbox {
        messages: List::from_vec(messages),
        signed: List::new(alloc),
    })
}

/// A frame that lacks its signature, for each of these parties.
pub fn unsigned_to(
    alloc: Global,
    parties: &[Party],
    frame: &[u8],
    size: usize,
) -> Result<Vec<Unsigned>, NoMemory>
    requires { size ≤ signature_limit }
    ensures fronts { IfOk result (λ u. map front_of u.items ≡ map (fronted frame.now) parties.now) }
    ensures rooms { IfOk result (λ u. All (HasRoomFor size) u.items) }
{
    let mut frames = Vec::new(alloc);
    for to in parties {
        let frame = Vec::from_slice(alloc, frame)?;
        frames.push(Unsigned::with_room(*to, frame, size)?)?;
    }
    Ok(frames)
}

/// A law: the frame of a message for each replica of a shard is the message for that shard, framed; and so for each
/// involved shard.
pub fn frames_reach_shards()
    ensures shard { (c : Setting) (m : MessageValue) (shard : ℕ) →
        map framed (to_shard c m shard) ≡ map (enveloped (spelling m)) (parties_of c shard) }
    ensures involved { (c : Setting) (t : TransactionValue) (m : MessageValue) →
        map framed (to_involved c t m) ≡ map (enveloped (spelling m)) (parties_in c t) }
{}

//! A connection that is served.

ghost use Rattle.std.specs.Prelude.{◌≡◌, ◌+◌, ◌-◌, ◌^◌, ◌<◌, ◌≤◌, ℕ, List, [], IfErr, OnOk, length};
ghost use Rattle.basil_types.specs.Causes.{HasLinkCause};
ghost use Rattle.basil_types.specs.Links.{LinkState, closes};
ghost use Rattle.node_link.specs.Dialogue.{dialogue_of};
ghost use Rattle.node_link.specs.Serving.{HasServed, IsAt, Served, ServesAll, ServesSome, serves_all};
ghost use Rattle.replica_core.specs.Shown.{own};

use crate::node::answer_one;
use crate::reader::{CONNECTION_LIMIT, FrameReader};
use basil_types::clock::Clock;
use basil_types::cluster::Cluster;
use basil_types::links::{LinkFail, Links};
use keyring::signer::Signer;
use keyring::verifier::Verifier;
use replica_core::Replica;
use std::alloc::Global;

/// Bytes that are read at once, at most.
const PIECE: usize = 4096;

/// Handles the frames of all envelopes that wait, counts them, and writes their answers.
fn answer_waiting<V: Verifier, S: Signer, L: Links, C: Clock>(
    alloc: Global,
    reader: &mut FrameReader,
    replica: &mut Replica<V, S>,
    links: &mut L,
    clock: &mut C,
    frames: &mut u64,
) -> Result<(), LinkFail>
    requires { frames.old + length reader.old.waiting < 2 ^ 64 }
    ensures taken { OnOk result (reader.new ≡ record reader.old { waiting = [] }) }
    ensures all { (state : LinkState) (s : Served) →
        IsAt replica.old (C.moments clock.old) (L.told links.old) state s →
        OnOk result (IsAt replica.new (C.moments clock.new) (L.told links.new) state
        (serves_all (own replica.old) s reader.old.waiting)) }
    ensures some { (state : LinkState) (s : Served) →
        IsAt replica.old (C.moments clock.old) (L.told links.old) state s →
        IfErr result (λ fail. HasServed replica.new (C.moments clock.new) (L.told links.new) (own replica.old) state s
        reader.old.waiting (frames.new - frames.old) fail) }
    ensures counted { OnOk result (frames.new ≡ frames.old + length reader.old.waiting) }
    ensures later { frames.old ≤ frames.new }
    ensures few { frames.new ≤ frames.old + length reader.old.waiting }
    ensures own { own replica.new ≡ own replica.old }
    ensures cause { HasLinkCause (L.faults links.old) (L.faults links.new) result }
{
    while let Some(envelope) = reader.next() {
        answer_one(alloc, replica, links, clock, &envelope, frames)?;
    }
    Ok(())
}

/// Reads the open connection until its peer closes it or the rules end it, and answers its envelopes; or a read or a
/// write of it fails.
fn talk<V: Verifier, S: Signer, L: Links, C: Clock>(
    alloc: Global,
    cluster: Cluster,
    replica: &mut Replica<V, S>,
    links: &mut L,
    clock: &mut C,
    frames: &mut u64,
) -> Result<(), LinkFail>
    requires { frames.old + CONNECTION_LIMIT < 2 ^ 64 }
    ensures all { (state : LinkState) (bytes : List ℕ) (s : Served) → state.rest ≡ Some bytes →
        IsAt replica.old (C.moments clock.old) (L.told links.old) state s →
        OnOk result (ServesAll replica.new (C.moments clock.new) (L.told links.new) (own replica.old) state s
        (dialogue_of cluster bytes).envelopes) }
    ensures counted { (state : LinkState) (bytes : List ℕ) (s : Served) → state.rest ≡ Some bytes →
        IsAt replica.old (C.moments clock.old) (L.told links.old) state s →
        OnOk result (frames.new ≡ frames.old + length (dialogue_of cluster bytes).envelopes) }
    ensures some { (state : LinkState) (bytes : List ℕ) (s : Served) → state.rest ≡ Some bytes →
        IsAt replica.old (C.moments clock.old) (L.told links.old) state s →
        IfErr result (λ fail. ServesSome replica.new (C.moments clock.new) (L.told links.new) (own replica.old) state s
        (dialogue_of cluster bytes).envelopes (frames.new - frames.old) fail) }
    ensures later { frames.old ≤ frames.new }
    ensures few { frames.new ≤ frames.old + CONNECTION_LIMIT }
    ensures own { own replica.new ≡ own replica.old }
    ensures cause { HasLinkCause (L.faults links.old) (L.faults links.new) result }
{
    let mut reader = FrameReader::new(alloc, cluster);
    let mut buf = [0u8; PIECE];
    while reader.ended().is_none() {
        let count = links.read(&mut buf)?;
        if count == 0 {
            return Ok(());
        }
        reader.feed(&buf[..count])?;
        answer_waiting(alloc, &mut reader, replica, links, clock, frames)?;
    }
    Ok(())
}

/// Serves the open connection until its peer closes it, a read or a write of it fails, or the rules end it; and closes
/// it.
pub(crate) fn converse<V: Verifier, S: Signer, L: Links, C: Clock>(
    alloc: Global,
    cluster: Cluster,
    replica: &mut Replica<V, S>,
    links: &mut L,
    clock: &mut C,
    frames: &mut u64,
) -> Result<(), LinkFail>
    requires { frames.old + CONNECTION_LIMIT < 2 ^ 64 }
    ensures all { (state : LinkState) (bytes : List ℕ) (s : Served) → state.rest ≡ Some bytes →
        IsAt replica.old (C.moments clock.old) (L.told links.old) state s →
        OnOk result (IsAt replica.new (C.moments clock.new) (L.told links.new) (closes state)
        (serves_all (own replica.old) s (dialogue_of cluster bytes).envelopes)) }
    ensures counted { (state : LinkState) (bytes : List ℕ) (s : Served) → state.rest ≡ Some bytes →
        IsAt replica.old (C.moments clock.old) (L.told links.old) state s →
        OnOk result (frames.new ≡ frames.old + length (dialogue_of cluster bytes).envelopes) }
    ensures some { (state : LinkState) (bytes : List ℕ) (s : Served) → state.rest ≡ Some bytes →
        IsAt replica.old (C.moments clock.old) (L.told links.old) state s →
        IfErr result (λ fail. HasServed replica.new (C.moments clock.new) (L.told links.new) (own replica.old)
        (closes state) s (dialogue_of cluster bytes).envelopes (frames.new - frames.old) fail) }
    ensures later { frames.old ≤ frames.new }
    ensures few { frames.new ≤ frames.old + CONNECTION_LIMIT }
    ensures own { own replica.new ≡ own replica.old }
    ensures cause { HasLinkCause (L.faults links.old) (L.faults links.new) result }
{
    let ended = talk(alloc, cluster, replica, links, clock, frames);
    links.close();
    ended
}

//! The envelopes of bytes.

ghost use Rattle.std.specs.Prelude.{◌≡◌, ◌++◌, ◌∷◌, [], IfOk, OnOk, length};
ghost use Rattle.node_link.specs.Dialogue.{spoken_in, without};
ghost use Rattle.node_link.specs.Finding.{IsFound};

use crate::cause::EndCause;
use crate::envelope::{Lent, envelope};
use basil_types::bytes::Bytes;
use basil_types::cluster::Cluster;
use basil_types::memory::NoMemory;
use basil_types::outbox::Envelope;
use std::alloc::Global;
use std::collections::VecDeque;

/// The whole envelopes of bytes, how many bytes are left of one that isn't whole, and why the rules end them.
#[derive(Drop)]
pub(crate) struct Found {
    pub(crate) envelopes: VecDeque<Envelope>,
    pub(crate) left: usize,
    pub(crate) ended: Option<EndCause>,
}

/// Appends an envelope, whose frame is copied.
fn keep(alloc: Global, envelopes: &mut VecDeque<Envelope>, lent: &Lent<'_>) -> Result<(), NoMemory>
    ensures { OnOk result (envelopes.new.items ≡
        envelopes.old.items ++ record { to = lent.now.to; frame = lent.now.frame.now } ∷ []) }
{
    let frame = Bytes::copy_of(alloc, lent.frame)?;
    envelopes.push_back(Envelope { to: lent.to, frame })?;
    Ok(())
}

/// How many bytes are left, where there is no whole envelope at their front.
fn left_of(bytes: &[u8], ended: Option<EndCause>) -> usize
    ensures { result ≡ length (without bytes.now ended).partial }
{
    if ended.is_some() { 0 } else { bytes.len() }
}

/// What the dialogue of these bytes has.
pub(crate) fn find(alloc: Global, cluster: &Cluster, bytes: &[u8]) -> Result<Found, NoMemory>
    ensures { IfOk result (λ found. IsFound (spoken_in cluster.now bytes.now) bytes.now found) }
{
    let mut envelopes = VecDeque::new(alloc);
    let mut rest = bytes;
    loop {
        match envelope(cluster, rest) {
            Ok((lent, others)) => {
                keep(alloc, &mut envelopes, &lent)?;
                rest = others;
            }
            Err(ended) => {
                let left = left_of(rest, ended);
                return Ok(Found {
                    envelopes,
                    left,
                    ended,
                });
            }
        }
    }
}

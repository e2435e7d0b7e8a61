//! Log replies of faulty replicas.

ghost use Rattle.std.specs.Prelude.{◌≡◌, ◌≤◌, [], IfOk};
ghost use Rattle.basil_types.specs.Limits.{signature_limit};
ghost use Rattle.basil_types.specs.Shown.{transaction_of};
ghost use Rattle.frame_writing.specs.Unsigned.{unsigned_log_reply};
ghost use Rattle.faulty_parties.specs.Lies.{CanBeSaid, Says};
ghost use Rattle.faulty_parties.specs.Unsaid.{replied, unsaid_reply};

use crate::lie::Lie;
use crate::place::Place;
use basil_types::memory::NoMemory;
use basil_types::party::{Decision, Party};
use basil_types::transaction::TransactionView;
use basil_types::words::Words;
use frame_views::frames::LogReplyView;
use frame_writing::{put_unsigned_log_reply, signatures_end_frames};
use node_steps::pending::Pending;
use std::alloc::Global;

/// What a log reply says: a decision, the view in which it was decided, and the current view.
#[derive(Clone, Copy)]
pub struct Logged {
    pub decision: Decision,
    pub decided: u64,
    pub current: u64,
}

/// A log reply but its signature.
fn reply_frame(
    alloc: Global,
    place: Place,
    id: &[u8; 32],
    logged: Logged,
) -> Result<Vec<u8>, NoMemory>
    ensures { IfOk result (λ f. f.items ≡ unsigned_log_reply
        (replied place.shard place.index id.now logged.decision logged.decided logged.current [])) }
{
    let mut frame = Vec::new(alloc);
    let view = LogReplyView {
        shard: place.shard,
        replica: place.index,
        id: *id,
        decision: logged.decision,
        decided: logged.decided,
        current: logged.current,
        signature: &[],
    };
    put_unsigned_log_reply(&view, &mut frame)?;
    Ok(frame)
}

/// A log reply of a replica on a transaction, for a client, which waits for a signature of this size; or memory is
/// wanting.
pub fn log_reply(
    alloc: Global,
    place: Place,
    t: TransactionView<'_>,
    logged: Logged,
    client: u8,
    size: usize,
) -> Result<Lie, NoMemory>
    requires some { 1 ≤ size }
    requires short { size ≤ signature_limit }
    ensures ready { IfOk result (CanBeSaid size) }
    ensures says { IfOk result (Says (unsaid_reply place.shard place.index (transaction_of t.entry)
        logged.decision logged.decided logged.current client)) }
{
    signatures_end_frames();
    let id = t.id();
    let frame = reply_frame(alloc, place, &id, logged)?;
    let Logged {
        decision,
        decided,
        current,
    } = logged;
    let words = Words::log_reply(place.shard, place.index, &id, decision, decided, current);
    let to = Party::Client { number: client };
    let pending = Pending::of_one(alloc, words, to, frame, size)?;
    Lie::of(alloc, pending, size)
}

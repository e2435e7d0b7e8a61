//! What the transactions that a client signs have read.

ghost use Rattle.client_laws.specs.Reading.{ReadsWereShown};

use client_reads::laws::{choices_rest_on_replies, replies_exactly};
use frame_views::laws::read_frames_fit;

/// A client signs the id of a transaction that a slot has formed, and each read of it is the choice among valid replies
/// of different replicas that it was handed: genesis, what one of them carries with an accepted commit certificate, or
/// a dependency that f + 1 of them carry as prepared.
pub fn reads_were_shown()
    ensures { ReadsWereShown }
{
    choices_rest_on_replies();
    replies_exactly();
    read_frames_fit();
}

//! Whole frames.

ghost use Rattle.std.specs.Prelude.{◌≡◌, IfOk, Ok};
ghost use Rattle.frame_views.specs.Fitting.{Within, widest, bounds_of, IsSpoken};
ghost use Rattle.frame_views.specs.Frames.{IsFrame, kind_in, body_in, message_in, frame_in, Answers};
ghost use Rattle.frame_views.specs.Shown.{message_of};
ghost use Rattle.frame_views.specs.Values.{MessageValue};

use super::parse::message;
use super::views::MessageView;
use crate::bounds::Bounds;
use crate::fault::{BadFrame, place};
use crate::kind::Kind;
use basil_types::cluster::Cluster;
use basil_types::limits::FRAME_LIMIT;
use basil_types::reading::byte;

/// The kind that a frame's first byte names.
fn kind(first: u8) -> Result<Kind, BadFrame>
    ensures { Answers (λ x. x) result (kind_in first) }
{
    match first {
        1 => Ok(Kind::Read),
        2 => Ok(Kind::ReadReply),
        3 => Ok(Kind::St1),
        4 => Ok(Kind::Vote),
        5 => Ok(Kind::St2),
        6 => Ok(Kind::LogReply),
        7 => Ok(Kind::Writeback),
        8 => Ok(Kind::Recover),
        9 => Ok(Kind::Invoke),
        10 => Ok(Kind::Elect),
        11 => Ok(Kind::Decide),
        _ => Err(BadFrame::Kind),
    }
}

/// The body behind the kind, in a frame of `len` bytes, with nothing behind it.
#[tactic(auto, unfolding(crate::specs::Frames::body_in))]
fn body<'a>(
    bounds: Bounds,
    len: usize,
    kind: Kind,
    bytes: &'a [u8],
) -> Result<MessageView<'a>, BadFrame>
    requires { Within bounds widest }
    ensures { Answers message_of result (body_in bounds len kind bytes.now) }
{
    match message(bounds, kind, bytes) {
        Ok((message, rest)) => {
            if rest.is_empty() {
                Ok(message)
            } else {
                Err(BadFrame::Trailing(len.saturating_sub(rest.len())))
            }
        }
        Err(fault) => Err(place(fault, len)),
    }
}

/// The kind and the body.
#[tactic(auto, unfolding(crate::specs::Frames::message_in))]
fn behind_kind<'a>(bounds: Bounds, frame: &'a [u8]) -> Result<MessageView<'a>, BadFrame>
    requires { Within bounds widest }
    ensures { Answers message_of result (message_in bounds frame.now) }
{
    match byte(frame) {
        Ok((first, rest)) => {
            let kind = kind(first)?;
            body(bounds, frame.len(), kind, rest)
        }
        Err(fault) => Err(place(fault, frame.len())),
    }
}

#[tactic(auto, unfolding(crate::specs::Frames::frame_in))]
fn checked<'a>(bounds: Bounds, frame: &'a [u8]) -> Result<MessageView<'a>, BadFrame>
    requires { Within bounds widest }
    ensures { Answers message_of result (frame_in bounds frame.now) }
{
    if frame.len() > FRAME_LIMIT {
        return Err(BadFrame::Length);
    }
    behind_kind(bounds, frame)
}

/// Reads a frame of a cluster: Ok exactly where it is in the grammar, and otherwise the first fault. Takes no memory.
///
/// A length above `FRAME_LIMIT` comes first. Then the fields are read from left to right; at one field its range comes
/// before its order, and bytes behind the body come last.
pub fn check<'a>(frame: &'a [u8], cluster: &Cluster) -> Result<MessageView<'a>, BadFrame>
    // What is read fits the cluster, and the frame is its spelling.
    ensures found { IfOk result (λ m. IsFrame cluster.now frame.now (message_of m)) }
    // Each frame of the grammar is read.
    ensures only { (m : MessageValue) → IsFrame cluster.now frame.now m → Answers message_of result (Ok m) }
    // Its words may be asked for.
    ensures spoken { IfOk result (λ m. IsSpoken (message_of m)) }
    // Which message, and which fault.
    ensures exact { Answers message_of result (frame_in (bounds_of cluster.now) frame.now) }
{
    checked(Bounds::of(cluster), frame)
}

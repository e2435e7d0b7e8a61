//! Frames written up to their signature, and then the signature.

ghost use Rattle.basil_codec.specs.Fitting.{widest, FitsMessage};
ghost use Rattle.basil_codec.specs.Shown.{message_of};

use basil_codec::{
    MessageView, put_signature, put_signature_reserved, put_unsigned_decide, put_unsigned_elect,
    put_unsigned_log_reply, put_unsigned_read_reply, put_unsigned_recover, put_unsigned_st1,
    put_unsigned_vote,
};
use std::test::Fail;

/// Whether the message is of a kind that a node signs as it sends it; its frame is then written in two parts.
pub(crate) fn put_in_two(m: &MessageView<'_>, out: &mut Vec<u8>) -> Result<bool, Fail>
    requires { FitsMessage widest (message_of m.now) }
{
    match m {
        MessageView::ReadReply(m) => {
            put_unsigned_read_reply(m, out)?;
            put_signature(m.signature, out)?;
        }
        MessageView::St1(m) => {
            put_unsigned_st1(m, out)?;
            put_signature(m.signature, out)?;
        }
        MessageView::Vote(m) => {
            put_unsigned_vote(m, out)?;
            out.reserve(m.signature.len() + 2)?;
            put_signature_reserved(m.signature, out);
        }
        MessageView::LogReply(m) => {
            put_unsigned_log_reply(m, out)?;
            put_signature(m.signature, out)?;
        }
        MessageView::Recover(m) => {
            put_unsigned_recover(m, out)?;
            put_signature(m.signature, out)?;
        }
        MessageView::Elect(m) => {
            put_unsigned_elect(m, out)?;
            put_signature(m.signature, out)?;
        }
        MessageView::Decide(m) => {
            put_unsigned_decide(m, out)?;
            put_signature(m.signature, out)?;
        }
        _ => return Ok(false),
    }
    Ok(true)
}

//! Frames and certificates written: of borrowed parts, and of owned values. Each call appends in place, and cuts
//! the bytes back to what they were where memory is wanting.
#![tactic(auto)]

mod certificates;
mod draft;
mod fields;
mod frames;
mod lists;
mod parts;
mod signatures;
mod unsigned;

pub use certificates::{put_certificate, put_owned_certificate};
pub use frames::{
    put_decide, put_elect, put_invoke, put_log_reply, put_message, put_read, put_read_reply,
    put_recover, put_st1, put_st2, put_vote, put_writeback,
};
pub use parts::{
    encode_into, put_decide_parts, put_invoke_parts, put_read_reply_parts, put_st2_parts,
    put_unsigned_decide_parts, put_unsigned_read_reply_parts, put_unsigned_vote_parts,
    put_vote_parts, put_writeback_parts,
};
pub use signatures::{put_signature, put_signature_reserved};
pub use unsigned::{
    put_unsigned_decide, put_unsigned_elect, put_unsigned_log_reply, put_unsigned_read_reply,
    put_unsigned_recover, put_unsigned_st1, put_unsigned_vote, signatures_end_frames,
};

//! The ways of signing that a header names.

/// How the parties of a run sign.
#[derive(Clone, Copy, PartialEq, Eq)]
pub enum KeysKind {
    /// `plain`: no signing at all.
    Plain,
    /// `w4h5`: LMS with Winternitz width 4 and height 5 (RFC 8554).
    W4H5,
    /// `w4h10`: LMS with Winternitz width 4 and height 10.
    W4H10,
    /// `w8h5`: LMS with Winternitz width 8 and height 5.
    W8H5,
    /// `w8h10`: LMS with Winternitz width 8 and height 10.
    W8H10,
    /// `batch`: batches of one over plain keys.
    Batch,
}

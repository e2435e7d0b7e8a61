//! How long frames and certificates get.

ghost use Rattle.std.specs.Prelude.{◌≡◌, ◌<◌, ◌≤◌, length};
ghost use Rattle.basil_types.specs.Setting.{Setting, IsSetting};
ghost use Rattle.basil_types.specs.Transaction.{TransactionValue, IsTransaction, canonical};
ghost use Rattle.frame_views.specs.Fitting.{bounds_of, FitsMessage, FitsCommit, FitsCertificate};
ghost use Rattle.frame_views.specs.Frames.{frame_limit};
ghost use Rattle.frame_views.specs.Signed.{signed_in, commit_signed, certificate_signed};
ghost use Rattle.frame_views.specs.Spelling.{spelling, commit_bytes, certificate_bytes};
ghost use Rattle.frame_views.specs.Values.{MessageValue, CommitValue, CertificateValue};
ghost use Rattle.frame_fitting.specs.Lengths.{AreShort};

/// A frame of any kind whose signatures have at most 2,510 bytes each is below the limit of 1,048,576 bytes,
/// whatever the cluster: with f = 6 and 8 shards too.
pub fn below_the_limit()
    ensures { (cluster : Setting) (m : MessageValue) → IsSetting cluster → FitsMessage (bounds_of cluster) m →
        AreShort 2510 (signed_in m) → length (spelling m) < frame_limit }
{}

/// A transaction has at most 13,804 canonical bytes.
pub fn longest_transaction()
    ensures { (t : TransactionValue) → IsTransaction t → length (canonical t) ≤ 13804 }
{}

/// With signatures of at most 2,508 bytes each, as those of the parameter set W4H10, a commit certificate has
/// at most 622,778 bytes, which is a fast commit with f = 6, 8 shards and 248 votes, and any certificate at
/// most 639,127, which is a conflict abort that holds such a one.
pub fn longest_certificates()
    ensures commit { (cluster : Setting) (c : CommitValue) → IsSetting cluster → FitsCommit (bounds_of cluster) c →
        AreShort 2508 (commit_signed c.id c.body) → length (commit_bytes c) ≤ 622778 }
    ensures any { (s : Setting) (c : CertificateValue) → IsSetting s → FitsCertificate (bounds_of s) c →
        AreShort 2508 (certificate_signed c) → length (certificate_bytes c) ≤ 639127 }
{}

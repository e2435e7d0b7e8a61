//! Laws of frames and certificates.

ghost use Rattle.std.specs.Prelude.{◌≡◌, ◌++◌, [], List, ℕ, IsTrue, Ok};
ghost use Rattle.basil_types.specs.Setting.{Setting, IsSetting};
ghost use Rattle.basil_types.specs.Texts.{IsBytes};
ghost use Rattle.frame_views.specs.Fitting.{FitsCertificate, bounds_of};
ghost use Rattle.frame_views.specs.Frames.{IsFrame, frame_in};
ghost use Rattle.frame_views.specs.Spelling.{certificate_bytes};
ghost use Rattle.frame_views.specs.Stored.{spells_certificate, certificate_in};
ghost use Rattle.frame_views.specs.Values.{MessageValue, CertificateValue};

/// A frame is the spelling of exactly one message.
pub fn one_message()
    ensures { (cluster : Setting) (frame : List ℕ) (m n : MessageValue) → IsFrame cluster frame m
        → IsFrame cluster frame n → m ≡ n }
{}

/// What is read of bytes fits the cluster, and the bytes are its spelling.
pub fn read_frames_fit()
    ensures { (cluster : Setting) (frame : List ℕ) (m : MessageValue)
        → IsBytes frame → frame_in (bounds_of cluster) frame ≡ Ok m → IsFrame cluster frame m }
{}

/// No frame is a proper prefix of another.
pub fn no_prefix()
    ensures { (cluster : Setting) (frame rest : List ℕ) (m n : MessageValue) → IsFrame cluster frame m
        → IsFrame cluster (frame ++ rest) n → rest ≡ [] }
{}

/// The bytes of a certificate that fits a cluster may be kept, and viewed again as that certificate.
pub fn kept_certificate()
    ensures spells { (cluster : Setting) (c : CertificateValue) → IsSetting cluster
        → FitsCertificate (bounds_of cluster) c → IsTrue (spells_certificate (certificate_bytes c)) }
    ensures same { (cluster : Setting) (c : CertificateValue) → IsSetting cluster
        → FitsCertificate (bounds_of cluster) c → certificate_in (certificate_bytes c) ≡ c }
{}

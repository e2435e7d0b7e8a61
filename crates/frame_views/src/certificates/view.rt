//! Views of certificates.

ghost use Rattle.std.specs.Prelude.{IsTrue};
ghost use Rattle.frame_views.specs.Stored.{spells_certificate};

use super::body::CertBody;
use super::parse::certificate_parts;
use crate::bounds::WIDEST;
use basil_types::reading::in_range;

/// A certificate, by its bytes, which were checked.
#[derive(Clone, Copy)]
pub struct CertificateView<'a> {
    bytes: &'a [u8],
    ghost whole: { IsTrue (spells_certificate bytes.now) },
}

impl<'a> CertificateView<'a> {
    ghost use Rattle.std.specs.Prelude.{◌≡◌};
    ghost use Rattle.frame_views.specs.Fitting.{FitsCertificate, widest};
    ghost use Rattle.frame_views.specs.Spelling.{certificate_bytes};
    ghost use Rattle.frame_views.specs.Stored.{certificate_in};
    ghost use Rattle.frame_views.specs.Shown.{certificate_of, body_of, HoldsCommit};

    /// The view of bytes that, whole, spell a certificate, as those that `bytes` gave.
    pub fn of(bytes: &'a [u8]) -> CertificateView<'a>
        requires { IsTrue (spells_certificate bytes.now) }
        ensures { certificate_of result ≡ certificate_in bytes.now }
    {
        CertificateView { bytes }
    }

    /// The bytes: kind, id and body.
    pub fn bytes(&self) -> &'a [u8]
        ensures spelled { result.now ≡ certificate_bytes (certificate_of self.now) }
        ensures fits { FitsCertificate widest (certificate_of self.now) }
        // These bytes may be kept and viewed again.
        ensures whole { IsTrue (spells_certificate result.now) }
        ensures same { certificate_in result.now ≡ certificate_of self.now }
    {
        in_range(self.bytes)
    }

    /// The id of the transaction that it is about.
    pub fn id(&self) -> [u8; 32]
        ensures { result ≡ (certificate_of self.now).id }
    {
        match certificate_parts(WIDEST, self.bytes) {
            Ok((parts, _rest)) => parts.id,
            Err(_) => unreachable!(),
        }
    }

    /// What stands behind the id, by kinds.
    pub fn body(&self) -> CertBody<'a>
        ensures shows { body_of result ≡ (certificate_of self.now).body }
        ensures commits { HoldsCommit result }
    {
        match certificate_parts(WIDEST, self.bytes) {
            Ok((parts, _rest)) => parts.body,
            Err(_) => unreachable!(),
        }
    }
}

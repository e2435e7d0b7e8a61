//! Why a certificate or tallies prove no decision.

ghost use Rattle.std.specs.Prelude.{◌≡◌};
ghost use Rattle.certificates.specs.Numbers.{number_of};

/// The first rule that a certificate or tallies break, in the order of these variants. Of one variant, a certificate
/// comes before the one that stands inside of it.
#[derive(Clone, Copy, Debug, PartialEq, Eq)]
pub enum CertRefusal {
    /// The certificate's id isn't the transaction's.
    WrongId,
    /// The certificate is for the other decision.
    Mixed,
    /// This shard is listed and not involved, or involved and missing, or isn't the log shard of a logged certificate.
    NotInvolved(u8),
    /// Fewer votes of a shard, or log replies, stand there than are needed.
    Few { count: u32, needed: u32 },
    /// The transaction inside of a conflict abort doesn't conflict, or has no good form.
    NoConflict,
    /// The signature at this place, from 0, of all that the certificate or the tallies list isn't accepted.
    BadSignature(usize),
}

impl CertRefusal {
    /// The number of the rule, from 1 to 6.
    pub fn number(&self) -> u8
        ensures { result ≡ number_of self.now }
    {
        match self {
            CertRefusal::WrongId => 1,
            CertRefusal::Mixed => 2,
            CertRefusal::NotInvolved(_) => 3,
            CertRefusal::Few { .. } => 4,
            CertRefusal::NoConflict => 5,
            CertRefusal::BadSignature(_) => 6,
        }
    }
}

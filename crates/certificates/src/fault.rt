//! Why a client refuses a frame.

use crate::refusal::CertRefusal;
use basil_types::memory::NoMemory;
use frame_views::fault::BadFrame;

/// Why a client refuses a frame: want of memory, or the first of the others, in this order, that holds.
#[derive(Clone, Copy, Debug, PartialEq, Eq)]
pub enum FrameFault {
    /// The bytes are no frame of the cluster.
    BadFrame(BadFrame),
    /// The frame answers nothing that the client asked for.
    NotMine,
    /// The sender's signature isn't accepted.
    BadSignature,
    /// A carried transaction can't be a version that the read sees.
    BadVersion,
    /// The certificate doesn't prove the decision that it came with.
    BadCertificate(CertRefusal),
    /// There is no memory for what the frame says.
    NoMemory,
}

impl From<NoMemory> for FrameFault {
    ghost use Rattle.std.specs.Prelude.{◌≡◌};
    ghost use Rattle.certificates.specs.declared.fault.FrameFault.TheVariants.{NoMemory};

    ghost from_gives = { λ _ e. e ≡ NoMemory };

    fn from(_refused: NoMemory) -> FrameFault {
        FrameFault::NoMemory
    }
}

//! What it means that a pair of a run is certified.

ghost use Rattle.cluster_run.specs.Certified.{TestIsExact, CertifiedAreProven, ProvenAreCertified, CertifiedStay};

use certificates::laws::no_refusal_exactly;
use frame_views::laws::read_frames_fit;

/// Certified are exactly the pairs that were seen and prove their decision: in every run each certified pair is of a
/// transaction with a good form and a certificate of it for the decision that it names; and each such pair of a message
/// is certified once the message is seen, and stays so.
pub fn certified_exactly()
    ensures test { TestIsExact }
    ensures proven { CertifiedAreProven }
    ensures complete { ProvenAreCertified }
    ensures stay { CertifiedStay }
{
    read_frames_fit();
    no_refusal_exactly();
}

//! The kits of a run meet what its safety asks of them.

ghost use Rattle.cluster_run.specs.Kits.{PlainKitsSign, LmsKitsSign};

use lms_sign::has_its_size;

/// What a plain pen gives has 32 bytes, so it fits a frame.
pub fn plain_kits_sign()
    ensures { PlainKitsSign }
{}

/// What an LMS pen gives has the bytes of its set, so it fits a frame.
pub fn lms_kits_sign()
    ensures { LmsKitsSign }
{
    has_its_size();
}

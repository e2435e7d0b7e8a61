//! Laws of batches.

ghost use Rattle.batch_sign.specs.Laws.{FindingsAreReal};

/// Where a message is found in a batch by a signature of good form, it stands there; and two texts that are told differ
/// and have one digest.
pub fn findings_are_real()
    ensures { FindingsAreReal }
{}

//! What is added to a begun transaction is what an event of a run does, and so is why it isn't formed.

ghost use Rattle.run_begun.specs.Adding.{ClaimsAreAdded, FormingIsRefused, WritesAreAdded};

/// A write of a faulty client does to a run what it does to the begun transaction.
pub fn writes_are_added()
    ensures { WritesAreAdded }
{}

/// So does a claim of a read.
pub fn claims_are_added()
    ensures { ClaimsAreAdded }
{}

/// A faulty client's transaction is refused for what stands in it, and then for want of a signature.
pub fn forming_is_refused()
    ensures { FormingIsRefused }
{}

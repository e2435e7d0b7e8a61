//! A run that reaches reads, so that the laws speak of something.

ghost use Rattle.serial_laws.specs.Examples.{ReadsAreReached};

/// In one lawful run a write is read as a dependency, deleted, and read as deleted; all have certificates shown. It
/// says so wherever SHA-256 tells the three transactions apart.
pub fn reads_are_reached()
    ensures { ReadsAreReached }
{}

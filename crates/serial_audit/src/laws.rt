//! What a verdict says of a list.

ghost use Rattle.serial_audit.specs.Laws.{SerialIsRight, StrayIsFirst};

/// A list is serial exactly where each listed read is of the version that the map before its reader has at the key, or
/// of genesis where that map has none.
pub fn serial_is_right()
    ensures { SerialIsRight }
{}

/// The stray of a list that isn't serial is a read of it that is of another version, and none comes before it by its
/// reader's version, then by key, then by its reader's place.
pub fn stray_is_first()
    ensures { StrayIsFirst }
{}

//! What replayed writes leave at a key.

ghost use Rattle.basil_types.specs.Latest.{MapsAreLatest, MapsBeforeAreLatest, MapsForgetOrder};

use crate::bytes::Bytes;
use crate::version::Version;

/// The latest write of a key: its version, and its value, or none where it deletes the key.
#[derive(Drop)]
pub struct Latest {
    pub version: Version,
    pub value: Option<Bytes>,
}

/// A law: a replayed map has at each key what the latest writer of the list left there, or nothing where none wrote it.
pub fn maps_are_latest()
    ensures { MapsAreLatest }
{}

/// A law: the map before a transaction has at each key what the latest writer below it left there.
pub fn maps_before_are_latest()
    ensures { MapsBeforeAreLatest }
{}

/// A law: a replayed map depends on which transactions are of the list, and not on their order.
pub fn maps_forget_order()
    ensures { MapsForgetOrder }
{}

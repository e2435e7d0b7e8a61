//! Laws of trees and keys: functions that do nothing, and whose contracts say them.
ghost use Rattle.lms_sign.specs.Laws.{PathLeadsToRoot, SignsOncePerLeaf, UnrefusedIsValid, MadeIsValid, HasItsSize};

/// The path of each leaf of a tree leads to the tree's root.
pub fn path_leads_to_root()
    ensures { PathLeadsToRoot }
{}

/// No two signatures of one key name the same leaf, whichever messages it is given in turn.
pub fn signs_once_per_leaf()
    ensures { SignsOncePerLeaf }
{}

/// No test refuses a signature exactly where it is valid.
pub fn unrefused_is_valid()
    ensures { UnrefusedIsValid }
{}

/// What a tree signs with any of its leaves is valid under its public key.
pub fn made_is_valid()
    ensures { MadeIsValid }
{}

/// Each signature of a tree has the bytes of its set, each public key has 56, and each identifier of a seed 16.
pub fn has_its_size()
    ensures { HasItsSize }
{}

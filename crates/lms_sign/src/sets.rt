//! The parameter sets.
ghost use Rattle.std.specs.Prelude.{◌≡◌, ◌≤◌};
ghost use Rattle.lms_sign.specs.Sets.{one_time_of, one_time_type_of, one_time_length};
ghost use Rattle.lms_sign.specs.Sets.{height_of, leaves_of, type_of, size_of, set_of_types};
ghost use Rattle.lms_sign.specs.Verifying.{set_in};

use crate::bytes::read_number;
use lms_ots::OtsSet;

/// A parameter set of RFC 8554, section 5.1, with SHA-256 and m = 32, over one of section 4.1.
#[derive(Clone, Copy, PartialEq, Eq)]
pub enum LmsSet {
    /// LMS_SHA256_M32_H5 over LMOTS_SHA256_N32_W4: 32 leaves, signatures of 2,348 bytes.
    W4H5,
    /// LMS_SHA256_M32_H10 over LMOTS_SHA256_N32_W4: 1,024 leaves, signatures of 2,508 bytes.
    W4H10,
    /// LMS_SHA256_M32_H5 over LMOTS_SHA256_N32_W8: 32 leaves, signatures of 1,292 bytes.
    W8H5,
    /// LMS_SHA256_M32_H10 over LMOTS_SHA256_N32_W8: 1,024 leaves, signatures of 1,452 bytes.
    W8H10,
}

impl LmsSet {
    /// The set with these type numbers of the tree and of the one-time signatures.
    pub(crate) fn of_types(tree: u32, one_time: u32) -> Option<LmsSet>
        ensures { result ≡ set_of_types tree one_time }
    {
        match (tree, one_time) {
            (5, 3) => Some(LmsSet::W4H5),
            (6, 3) => Some(LmsSet::W4H10),
            (5, 4) => Some(LmsSet::W8H5),
            (6, 4) => Some(LmsSet::W8H10),
            _ => None,
        }
    }

    /// The set of a public key, if its types are those of one.
    pub fn of_key(key: &[u8; 56]) -> Option<LmsSet>
        ensures { result ≡ set_in key.now }
    {
        LmsSet::of_types(read_number(key, 0), read_number(key, 4))
    }

    /// The set of the one-time signatures.
    pub(crate) fn one_time(self) -> OtsSet
        ensures { result ≡ one_time_of self }
    {
        match self {
            LmsSet::W4H5 | LmsSet::W4H10 => OtsSet::W4,
            LmsSet::W8H5 | LmsSet::W8H10 => OtsSet::W8,
        }
    }

    /// The number of the type of the one-time signatures.
    pub(crate) fn one_time_type_number(self) -> u32
        ensures { result ≡ one_time_type_of self }
    {
        self.one_time().type_number()
    }

    /// The bytes of a one-time signature.
    pub(crate) fn one_time_size(self) -> usize
        ensures value { result ≡ one_time_length self }
        ensures bound { result ≤ 2180 }
    {
        self.one_time().signature_size()
    }

    /// The height of the tree.
    pub(crate) fn height(self) -> usize
        ensures value { result ≡ height_of self }
        ensures bound { result ≤ 10 }
    {
        match self {
            LmsSet::W4H5 | LmsSet::W8H5 => 5,
            LmsSet::W4H10 | LmsSet::W8H10 => 10,
        }
    }

    /// The number of leaves.
    pub fn leaves(self) -> u32
        ensures value { result ≡ leaves_of self }
        ensures bound { result ≤ 1024 }
    {
        match self {
            LmsSet::W4H5 | LmsSet::W8H5 => 32,
            LmsSet::W4H10 | LmsSet::W8H10 => 1024,
        }
    }

    /// The number of the type of the tree.
    pub(crate) fn type_number(self) -> u32
        ensures { result ≡ type_of self }
    {
        match self {
            LmsSet::W4H5 | LmsSet::W8H5 => 5,
            LmsSet::W4H10 | LmsSet::W8H10 => 6,
        }
    }

    /// The bytes of a signature, 12 + 32(p + 1) + 32h.
    pub fn size(self) -> usize
        ensures value { result ≡ size_of self }
        ensures bound { result ≤ 2508 }
    {
        match self {
            LmsSet::W4H5 => 2348,
            LmsSet::W4H10 => 2508,
            LmsSet::W8H5 => 1292,
            LmsSet::W8H10 => 1452,
        }
    }
}

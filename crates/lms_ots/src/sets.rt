//! The parameter sets.
ghost use Rattle.std.specs.Prelude.{◌≡◌, ◌≤◌};
ghost use Rattle.lms_ots.specs.Sets.{chains_of, last_of, type_of, signature_length};

/// A parameter set of RFC 8554, section 4.1, with SHA-256 and n = 32.
#[derive(Clone, Copy, PartialEq, Eq)]
pub enum OtsSet {
    /// LMOTS_SHA256_N32_W4: digits of 4 bits, 67 chains.
    W4,
    /// LMOTS_SHA256_N32_W8: digits of 8 bits, 34 chains.
    W8,
}

impl OtsSet {
    /// The number of chains, p.
    pub(crate) fn chains(self) -> u16
        ensures { result ≡ chains_of self }
    {
        match self {
            OtsSet::W4 => 67,
            OtsSet::W8 => 34,
        }
    }

    /// The last place of a chain, 2^w - 1.
    pub(crate) fn last(self) -> u8
        ensures { result ≡ last_of self }
    {
        match self {
            OtsSet::W4 => 15,
            OtsSet::W8 => 255,
        }
    }

    /// The number of the type in keys and signatures.
    pub fn type_number(self) -> u32
        ensures { result ≡ type_of self }
    {
        match self {
            OtsSet::W4 => 3,
            OtsSet::W8 => 4,
        }
    }

    /// The bytes of a one-time signature, 4 + 32(p + 1).
    pub fn signature_size(self) -> usize
        ensures value { result ≡ signature_length self }
        ensures bound { result ≤ 2180 }
    {
        match self {
            OtsSet::W4 => 2180,
            OtsSet::W8 => 1124,
        }
    }
}

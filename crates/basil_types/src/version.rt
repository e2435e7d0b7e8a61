//! Versions and their order (Basil, multiversion timestamp ordering).

ghost use Rattle.std.specs.Prelude.{◌≡◌};
ghost use Rattle.basil_types.specs.Version.{below, same_version, is_between, AreInOrder, AreToldApart};

use std::cmp::Ordering;

/// A version of a key: the time, the client and the id of the transaction that wrote it, in that order.
/// Genesis, the version (0, 0, 32 zero bytes), stands for an absent key.
#[derive(Clone, Copy, PartialEq, Eq, PartialOrd, Ord)]
pub struct Version {
    pub time: u64,
    pub client: u8,
    pub id: [u8; 32],
}

impl Version {
    /// The version of an absent key.
    pub fn genesis() -> Version
        ensures { result ≡ Rattle.basil_types.specs.Version.genesis }
    {
        Version {
            time: 0,
            client: 0,
            id: [0; 32],
        }
    }

    /// Whether this version comes before another.
    pub fn is_below(&self, other: &Version) -> bool
        ensures { result ≡ below self.now other.now }
    {
        match self.cmp(other) {
            Ordering::Less => true,
            Ordering::Equal | Ordering::Greater => false,
        }
    }

    /// Whether two versions are the same: their times, clients and ids.
    pub fn is_same(&self, other: &Version) -> bool
        ensures { result ≡ same_version self.now other.now }
    {
        self.time == other.time && self.client == other.client && self.id == other.id
    }

    /// Whether this version stands strictly between two others.
    pub fn is_between(&self, low: &Version, high: &Version) -> bool
        ensures { result ≡ is_between low.now self.now high.now }
    {
        low.is_below(self) && self.is_below(high)
    }
}

/// A law: of two versions one is below the other, or they are equal.
pub fn versions_are_in_order()
    ensures { AreInOrder }
{}

/// A law: two versions are the same where all their parts are.
pub fn versions_are_told_apart()
    ensures { AreToldApart }
{}

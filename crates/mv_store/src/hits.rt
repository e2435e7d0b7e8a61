//! What a search among entered transactions tells.

ghost use Rattle.std.specs.Prelude.{◌≡◌};
ghost use Rattle.mv_store.specs.Hits as hits;

/// Whether a search found an entered transaction, and the least place of a committed one that it found.
#[derive(Clone, Copy, PartialEq, Eq)]
pub struct Hits {
    /// Whether there is one, prepared or committed.
    pub any: bool,
    /// The least place of a committed one.
    pub committed: Option<u32>,
}

impl Hits {
    ghost use Rattle.mv_store.specs.Hits.{no_hits, joined};

    /// Nothing was found.
    pub fn none() -> Hits
        ensures { result ≡ no_hits }
    {
        Hits {
            any: false,
            committed: None,
        }
    }

    /// What two searches tell together.
    pub fn join(self, other: Hits) -> Hits
        ensures { result ≡ joined self other }
    {
        Hits {
            any: self.any || other.any,
            committed: least(self.committed, other.committed),
        }
    }
}

/// The lesser of two places, as far as there are.
fn least(a: Option<u32>, b: Option<u32>) -> Option<u32>
    ensures { result ≡ hits.least a b }
{
    match a {
        None => b,
        Some(first) => match b {
            None => Some(first),
            Some(second) => Some(first.min(second)),
        },
    }
}

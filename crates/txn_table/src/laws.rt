//! Laws of tables.

ghost use Rattle.std.specs.Prelude.{List, ℕ, Bool};
ghost use Rattle.txn_table.specs.Laws.{IdsTellPlaces, StoredStays, ReleasedAscend};

/// What an id tells is what its place tells, also after each change.
pub fn ids_tell_places()
    ensures { IdsTellPlaces }
{}

/// Stored signatures and certificates stay what they are: whatever test all of them pass.
pub fn stored_ones_stay()
    ensures { (signature certificate : List ℕ → Bool) → StoredStays signature certificate }
{}

/// The places of released votes ascend. Each entry there waits, has no outcome, and isn't the supposed one.
pub fn released_votes_ascend()
    ensures { ReleasedAscend }
{}

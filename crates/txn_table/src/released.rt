//! Votes that an outcome releases (Basil, first stage: a replica votes once a transaction's dependencies are decided).

ghost use Rattle.std.specs.Prelude.{◌≡◌, ◌<◌, ◌≤◌, ◌&&◌, ◌||◌, None, Some, IfOk};
ghost use Rattle.std.specs.Prelude.{length, slice_get, option_map, true, false};
ghost use Rattle.std.specs.Option.{option_and_then};
ghost use Rattle.basil_types.specs.Shown.{transaction_of, read_of};
ghost use Rattle.txn_table.specs.Tables.{decision_at};
ghost use Rattle.txn_table.specs.Released as votes;
ghost use Rattle.txn_table.specs.Released.{depends, some_aborted, all_committed, dependencies};

use crate::table::Table;
use basil_types::cluster::Cluster;
use basil_types::memory::NoMemory;
use basil_types::party::Decision;
use basil_types::transaction::TransactionView;
use basil_types::transaction::parts::ReadItem;
use txn_meta::shards::shard_of;

/// A cluster, and a replica's shard in it.
#[derive(Clone, Copy)]
pub struct Home {
    pub cluster: Cluster,
    pub shard: u8,
}

/// A place, and the outcome that it is supposed to have.
#[derive(Clone, Copy)]
pub struct Supposed {
    pub place: u32,
    pub outcome: Decision,
}

/// What a transaction's dependencies amount to.
#[derive(Clone, Copy)]
pub(crate) struct Dependencies {
    /// Whether some are on the supposed place.
    pub(crate) here: bool,
    /// Whether some are aborted.
    pub(crate) aborted: bool,
    /// Whether all are committed.
    pub(crate) committed: bool,
}

impl Table {
    /// The votes that an outcome at a held place, which has none yet, would release: of exactly the entries that wait,
    /// have no outcome, depend on this place by a key of the shard, and have among their dependencies on keys of the
    /// shard an aborted one (vote abort) or only committed ones (vote commit). They ascend by place. Looks
    /// at those that depend on this place by any key.
    pub fn released(
        &self,
        place: u32,
        outcome: Decision,
        cluster: &Cluster,
        shard: u8,
    ) -> Result<Vec<(u32, Decision)>, NoMemory>
        requires held { place < length self.now.entries }
        requires open { decision_at self.now.entries place ≡ None }
        ensures { IfOk result (λ released. released.items
            ≡ votes.released (record { cluster = cluster.now; shard = shard })
            (record { place = place; outcome = outcome }) self.now.entries) }
    {
        let home = Home {
            cluster: *cluster,
            shard,
        };
        let supposed = Supposed { place, outcome };
        match self.places_on(&self.entry(place).id()) {
            Some(places) => self.released_among(&home, &supposed, places),
            None => self.released_of_all(&home, &supposed),
        }
    }

    /// The votes that are released among these places.
    fn released_among(
        &self,
        home: &Home,
        supposed: &Supposed,
        places: &[u32],
    ) -> Result<Vec<(u32, Decision)>, NoMemory>
        ensures { IfOk result (λ released. released.items
            ≡ votes.released_among home.now supposed.now self.now.entries places.now) }
    {
        let mut released = Vec::new(self.alloc());
        for i in 0..places.len() {
            if let Some(vote) = self.vote_among(home, supposed, places, i) {
                released.push(vote)?;
            }
        }
        Ok(released)
    }

    /// The place at an index of these, and the vote that is released there.
    fn vote_among(
        &self,
        home: &Home,
        supposed: &Supposed,
        places: &[u32],
        i: usize,
    ) -> Option<(u32, Decision)>
        ensures { result ≡ option_and_then (votes.placed_vote home.now supposed.now self.now.entries)
            (slice_get places.now i) }
    {
        match place_in(places, i) {
            Some(place) => placed(place, self.vote_at(home, supposed, place)),
            None => None,
        }
    }

    /// The vote that is released at a place, which may not be held.
    fn vote_at(&self, home: &Home, supposed: &Supposed, at: u32) -> Option<Decision>
        ensures { result ≡ votes.vote_at home.now supposed.now self.now.entries at }
    {
        if self.holds(at) {
            self.released_vote(home, supposed, at)
        } else {
            None
        }
    }

    /// Whether a place is held.
    fn holds(&self, at: u32) -> bool
        ensures held { result ≡ true → at < length self.now.entries }
        ensures past { result ≡ false → length self.now.entries ≤ at }
    {
        at < self.len()
    }

    /// The votes that are released among all entries.
    fn released_of_all(
        &self,
        home: &Home,
        supposed: &Supposed,
    ) -> Result<Vec<(u32, Decision)>, NoMemory>
        ensures { IfOk result (λ released. released.items
            ≡ votes.released home.now supposed.now self.now.entries) }
    {
        let mut released = Vec::new(self.alloc());
        for at in 0..self.len() {
            if let Some(vote) = self.released_vote(home, supposed, at) {
                released.push((at, vote))?;
            }
        }
        Ok(released)
    }

    /// The vote that is released at a held place.
    fn released_vote(&self, home: &Home, supposed: &Supposed, at: u32) -> Option<Decision>
        requires { at < length self.now.entries }
        ensures { result ≡ option_and_then (votes.released_vote home.now supposed.now self.now.entries at)
            (slice_get self.now.entries at) }
    {
        let entry = self.entry(at);
        if !entry.is_waiting() || self.outcome_at(supposed, at).is_some() {
            return None;
        }
        let found = self.dependencies(home, supposed, entry.view());
        if !found.here {
            None
        } else if found.aborted {
            Some(Decision::Abort)
        } else if found.committed {
            Some(Decision::Commit)
        } else {
            None
        }
    }

    /// What the dependencies of a transaction on keys of the shard amount to.
    fn dependencies(&self, home: &Home, supposed: &Supposed, t: TransactionView<'_>) -> Dependencies
        ensures here { result.here
            ≡ depends supposed.now self.now.entries (dependencies home.now (transaction_of t.entry)) }
        ensures aborted { result.aborted
            ≡ some_aborted supposed.now self.now.entries (dependencies home.now (transaction_of t.entry)) }
        ensures committed { result.committed
            ≡ all_committed supposed.now self.now.entries (dependencies home.now (transaction_of t.entry)) }
    {
        let _ = t.bytes();
        let mut found = Dependencies {
            here: false,
            aborted: false,
            committed: true,
        };
        for place in 0..32usize {
            let Some(item) = t.read_at(place) else {
                return found;
            };
            if is_dependency(&item, home) {
                found = self.with(found, supposed, &item);
            }
        }
        found
    }

    /// What dependencies amount to with one more.
    fn with(&self, found: Dependencies, supposed: &Supposed, item: &ReadItem<'_>) -> Dependencies
        ensures here { result.here
            ≡ (found.here || votes.is_place supposed.now.place (votes.place_read self.now.entries (read_of item.now))) }
        ensures aborted { result.aborted
            ≡ (found.aborted
            || votes.is_aborted (votes.outcome_read supposed.now self.now.entries (read_of item.now))) }
        ensures committed { result.committed
            ≡ (found.committed
            && votes.is_committed (votes.outcome_read supposed.now self.now.entries (read_of item.now))) }
    {
        let Some(place) = self.place_of(&item.version.id) else {
            return Dependencies {
                committed: false,
                ..found
            };
        };
        let outcome = self.outcome_at(supposed, place);
        Dependencies {
            here: found.here || place == supposed.place,
            aborted: found.aborted || outcome == Some(Decision::Abort),
            committed: found.committed && outcome == Some(Decision::Commit),
        }
    }

    /// The outcome of a held place.
    fn outcome_at(&self, supposed: &Supposed, place: u32) -> Option<Decision>
        requires { place < length self.now.entries }
        ensures { result ≡ votes.outcome_at supposed.now self.now.entries place }
    {
        if place == supposed.place {
            Some(supposed.outcome)
        } else {
            self.entry(place).decision()
        }
    }
}

/// Whether a read is a dependency on a key of the shard.
pub fn is_dependency(item: &ReadItem<'_>, home: &Home) -> bool
    ensures { result ≡ votes.is_dependency home.now (read_of item.now) }
{
    item.dependency && shard_of(item.key, &home.cluster) == home.shard
}

/// The place at an index of these.
fn place_in(places: &[u32], i: usize) -> Option<u32>
    ensures { result ≡ slice_get places.now i }
{
    match places.get(i) {
        Some(place) => Some(*place),
        None => None,
    }
}

/// A place with its vote, if there is one.
fn placed(place: u32, vote: Option<Decision>) -> Option<(u32, Decision)>
    ensures { result ≡ option_map (λ v. (place, v)) vote }
{
    match vote {
        Some(vote) => Some((place, vote)),
        None => None,
    }
}

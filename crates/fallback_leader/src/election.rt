//! The words for one view of one transaction.

ghost use Rattle.std.specs.Prelude.{◌≡◌, ◌++◌, ◌∷◌, [], IfOk, OnOk, length, map};
ghost use Rattle.std.specs.BTreeMap.{insert_entry, IsOrdered};
ghost use Rattle.std.specs.List.Sorted.{IsStrictlyIncreasing};
ghost use Rattle.std.specs.Ordering.{nat_cmp};
ghost use Rattle.fallback_leader.specs.Elections.{words_of, has_word, by_replica, ascending, elected, is_heard};
ghost use Rattle.fallback_leader.specs.Index.{word_at, words_at, is_heard_at, IsIndexOf};

use crate::index::Index;
use crate::words::{ElectWord, KeptWord, Proposal, copy_of};
use basil_types::cluster::Cluster;
use basil_types::list::List;
use basil_types::memory::NoMemory;
use basil_types::party::Decision;
use std::alloc::Global;
use std::collections::BTreeMap;

/// How many words are kept for a view of a transaction.
pub(crate) fn count_of(_kept: &[KeptWord], index: &Index, id: &[u8; 32], view: u64) -> usize
    requires { IsIndexOf _kept.now index.now }
    ensures { result ≡ length (words_of _kept.now id.now view) }
{
    index.places(id, view).len()
}

/// Whether a word of a replica is kept for a view of a transaction.
pub(crate) fn has_word_of(
    kept: &[KeptWord],
    index: &Index,
    id: &[u8; 32],
    view: u64,
    replica: u8,
) -> bool
    requires { IsIndexOf kept.now index.now }
    ensures { result ≡ has_word kept.now id.now view replica }
{
    has_word_at(kept, index.places(id, view), replica)
}

/// Whether a word of a replica is at one of these places.
fn has_word_at(kept: &[KeptWord], places: &[usize], replica: u8) -> bool
    ensures { result ≡ is_heard_at kept.now places.now replica }
{
    places.iter().any(|place| is_word_of(kept, *place, replica))
}

/// Whether a word of a replica is at a place.
fn is_word_of(kept: &[KeptWord], place: usize, replica: u8) -> bool
    ensures { result ≡ is_heard (word_at kept.now place) replica }
{
    match kept.get(place) {
        Some(known) => known.word.replica == replica,
        None => false,
    }
}

/// The proposal of the words that are kept for a view of a transaction and one more, or want of memory.
pub(crate) fn propose(
    alloc: Global,
    kept: &[KeptWord],
    index: &Index,
    id: &[u8; 32],
    view: u64,
    last: &ElectWord,
    cluster: &Cluster,
) -> Result<Proposal, NoMemory>
    requires { IsIndexOf kept.now index.now }
    ensures words { IfOk result (λ p. p.words.items ≡ ascending (words_of kept.now id.now view ++ last.now ∷ [])) }
    ensures decision { IfOk result (λ p. p.decision ≡ elected cluster.now.f p.words.items) }
    ensures ascend { IfOk result (λ p. IsStrictlyIncreasing (map (λ w. w.replica) p.words.items)) }
{
    let mut copies = copies_of(alloc, kept, index, id, view)?;
    put_copy(alloc, &mut copies, last)?;
    let words: Vec<ElectWord> = copies.into_values().collect(alloc)?;
    let decision = elected(words.as_slice(), cluster);
    Ok(Proposal {
        decision,
        words: List::from_vec(words),
    })
}

/// Copies of the words that are kept for a view of a transaction, by their replicas.
fn copies_of(
    alloc: Global,
    kept: &[KeptWord],
    index: &Index,
    id: &[u8; 32],
    view: u64,
) -> Result<BTreeMap<u8, ElectWord>, NoMemory>
    requires { IsIndexOf kept.now index.now }
    ensures { IfOk result (λ copies. copies.entries ≡ by_replica (words_of kept.now id.now view)) }
{
    copies_at(alloc, kept, index.places(id, view))
}

/// Copies of the words at these places, by their replicas.
fn copies_at(
    alloc: Global,
    kept: &[KeptWord],
    places: &[usize],
) -> Result<BTreeMap<u8, ElectWord>, NoMemory>
    ensures { IfOk result (λ copies. copies.entries ≡ by_replica (words_at kept.now places.now)) }
{
    let mut copies = BTreeMap::new(alloc);
    for place in places {
        match kept.get(*place) {
            Some(known) => put_copy(alloc, &mut copies, &known.word)?,
            None => {}
        }
    }
    Ok(copies)
}

/// Puts a copy of a word at its replica.
fn put_copy(
    alloc: Global,
    copies: &mut BTreeMap<u8, ElectWord>,
    word: &ElectWord,
) -> Result<(), NoMemory>
    ensures entries { OnOk result
        (copies.new.entries ≡ insert_entry nat_cmp copies.old.entries word.now.replica word.now) }
    ensures ordered { OnOk result (IsOrdered nat_cmp copies.new) }
{
    copies.insert(word.replica, copy_of(word, alloc)?)?;
    Ok(())
}

/// The decision that a majority of the words names: of 4f+1 words exactly one is named by 2f+1.
fn elected(words: &[ElectWord], cluster: &Cluster) -> Decision
    ensures { result ≡ elected cluster.now.f words.now }
{
    let commits = words
        .iter()
        .filter(|word| word.decision == Decision::Commit)
        .count();
    if usize::from(cluster.majority()) <= commits {
        Decision::Commit
    } else {
        Decision::Abort
    }
}

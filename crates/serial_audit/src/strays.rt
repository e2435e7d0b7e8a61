//! Reads that aren't those of the map before their reader.

ghost use Rattle.std.specs.Prelude.{◌≡◌, ◌∷◌, [], List, ℕ, ◌^◌, ◌<◌, length, option_map, option_to_list};
ghost use Rattle.basil_types.specs.Replayed as replayed;
ghost use Rattle.basil_types.specs.Shown.{read_of};
ghost use Rattle.basil_types.specs.Transaction as transactions;
ghost use Rattle.basil_types.specs.Transaction.{TransactionValue};
ghost use Rattle.mv_store.specs.Store.{Stands};
ghost use Rattle.serial_audit.specs.Parts.{all_told, first_with, stray_found};
ghost use Rattle.serial_audit.specs.Strays as strays;

use crate::ordered::version_of;
use crate::writers::expected;
use basil_types::transaction::Transaction;
use basil_types::transaction::parts::ReadItem;
use basil_types::version::Version;
use mv_store::store::Store;

/// A read that isn't that of the map before its reader.
#[derive(Clone, Copy)]
pub(crate) struct Found<'a> {
    pub(crate) reader: Version,
    pub(crate) place: u32,
    pub(crate) key: &'a [u8],
    pub(crate) found: Version,
    pub(crate) expected: Version,
}

/// Whether the first comes before the second: by the reader's version, then by key, then by place.
fn comes_before(a: &Found<'_>, b: &Found<'_>) -> bool
    ensures { result ≡ strays.comes_before (stray_found a.now) (stray_found b.now) }
{
    a.reader
        .cmp(&b.reader)
        .then(a.key.cmp(b.key))
        .then(a.place.cmp(&b.place))
        .is_lt()
}

/// The first, or the next if it comes before.
fn earlier<'a>(first: Option<Found<'a>>, next: Option<Found<'a>>) -> Option<Found<'a>>
    ensures { option_map stray_found result
        ≡ first_with (option_map stray_found first.entry) (option_to_list (option_map stray_found next.entry)) }
{
    match (first, next) {
        (None, next) => next,
        (Some(first), None) => Some(first),
        (Some(first), Some(next)) => {
            if comes_before(&next, &first) {
                Some(next)
            } else {
                Some(first)
            }
        }
    }
}

/// The read, if it isn't right.
fn stray_in<'a>(
    writers: &Store,
    reader: &Version,
    place: u32,
    item: &ReadItem<'a>,
) -> Option<Found<'a>>
    ensures { (ts : List TransactionValue) → Stands writers.now (all_told (replayed.by_version ts)) [] →
        option_to_list (option_map stray_found result)
        ≡ strays.strays_among ts reader.now place (read_of item.now ∷ []) }
{
    let expected = expected(writers, reader, item.key);
    if item.version.is_same(&expected) {
        return None;
    }
    Some(Found {
        reader: *reader,
        place,
        key: item.key,
        found: item.version,
        expected,
    })
}

/// The first stray of a transaction, if it comes before the first so far.
fn first_in<'a>(
    writers: &Store,
    place: u32,
    t: &'a Transaction,
    so_far: Option<Found<'a>>,
) -> Option<Found<'a>>
    ensures { (ts : List TransactionValue) → Stands writers.now (all_told (replayed.by_version ts)) [] →
        option_map stray_found result
        ≡ first_with (option_map stray_found so_far.entry) (strays.strays_at ts (place, t.now)) }
{
    let reader = version_of(t);
    let mut first = so_far;
    for item in t.view().reads() {
        first = earlier(first, stray_in(writers, &reader, place, &item));
    }
    first
}

/// The first stray of a list.
pub(crate) fn first_of<'a>(writers: &Store, list: &'a [Transaction]) -> Option<Found<'a>>
    requires { length list.now < 2 ^ 32 }
    ensures { Stands writers.now (all_told (replayed.by_version list.now)) [] →
        option_map stray_found result ≡ strays.first_stray list.now }
{
    let mut first = None;
    for (place, t) in list.iter().enumerate() {
        first = first_in(writers, place as u32, t, first);
    }
    first
}

//! Maps by ids.

ghost use Rattle.std.specs.Prelude.{◌≡◌};
ghost use Rattle.indexmap.specs.IndexMap.{IsEmpty, IsUnique, index_map_len};

use crate::hasher::IdHasher;
use indexmap::IndexMap;
use std::alloc::Global;
use std::hash::{BuildHasherDefault, Hash};

/// A map whose keys are ids, or hold one.
pub type IdMap<K, V> = IndexMap<K, V, BuildHasherDefault<IdHasher>>;

/// A map of nothing. Takes no memory.
pub fn empty_map<K: Eq + Hash, V>(alloc: Global) -> IdMap<K, V>
    ensures empty { IsEmpty result }
    ensures len { index_map_len result ≡ 0 }
    ensures unique { IsUnique K.eq result }
{
    IndexMap::with_hasher(alloc, BuildHasherDefault::new())
}

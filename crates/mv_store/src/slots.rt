//! Slots by version: each holds what is told at its version, or stands for room alone.

ghost use Rattle.std.specs.Prelude.{◌≡◌, IsSome, OnOk, None, Some, option_map, is_some, true};
ghost use Rattle.basil_types.specs.declared.version.Version.{Version};

use basil_types::memory::NoMemory;
use basil_types::version::Version;
use std::alloc::Global;
use std::collections::BTreeMap;

/// What is told at versions. A slot with nothing in it stands for room alone.
#[derive(Drop)]
pub(crate) struct Slots<T> {
    pub(crate) map: BTreeMap<Version, Option<T>>,
}

impl<T: Drop> Slots<T> {
    ghost use Rattle.mv_store.specs.Slots.{slot_at, told_at, slot_after};

    /// No slot.
    pub(crate) fn new(alloc: Global) -> Slots<T>
        ensures { (v : Version) → slot_at result v ≡ None }
    {
        Slots {
            map: BTreeMap::new(alloc),
        }
    }

    /// Makes room at a version. What is told stays, also where memory is wanting.
    pub(crate) fn make_room(&mut self, version: &Version) -> Result<(), NoMemory>
        ensures told { (v : Version) → told_at self.new v ≡ told_at self.old v }
        ensures kept { (v : Version) → IsSome (slot_at self.old v) → IsSome (slot_at self.new v) }
        ensures room { OnOk result (IsSome (slot_at self.new version.now)) }
    {
        if self.map.contains_key(version) {
            return Ok(());
        }
        self.map.insert(*version, None)?;
        Ok(())
    }

    /// Tells this of a version with room, or takes its slot out where nothing is told.
    pub(crate) fn put(&mut self, version: &Version, told: Option<T>)
        requires { IsSome told → IsSome (slot_at self.old version.now) }
        ensures { (v : Version) → slot_at self.new v
            ≡ slot_after version.now (option_map Some told) v (slot_at self.old v) }
    {
        match told {
            Some(told) => match self.map.insert(*version, Some(told)) {
                Ok(_) => {}
                Err(_) => unreachable!(),
            },
            None => {
                let _ = self.map.remove(version);
            }
        }
    }
}

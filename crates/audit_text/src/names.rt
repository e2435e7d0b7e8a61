//! Names of transactions, with their versions.

ghost use Rattle.std.specs.Prelude.{◌≡◌, [], OnOk, find, option_copied, option_map, slice_get};
ghost use Rattle.std.specs.Str.{bytes_eq};
ghost use Rattle.indexmap.specs.IndexMap.{insert_entry};
ghost use Rattle.audit_text.specs.Findings as findings;
ghost use Rattle.audit_text.specs.Findings.{name_token};
ghost use Rattle.audit_text.specs.Listing.{version_named};
ghost use Rattle.basil_types.specs.Version.{same_version};

use basil_types::memory::NoMemory;
use basil_types::version::Version;
use indexmap::IndexMap;
use std::alloc::Global;
use std::marker::Model;

/// The names of the transactions whose lines have ended, each with its transaction's version, in order.
#[derive(Drop)]
pub(crate) struct Names {
    versions: IndexMap<Vec<u8>, Version>,
}

impl Model for Names {
    ghost use Rattle.audit_text.specs.Listing.{Names};
    ghost use Rattle.audit_text.specs.Parts.{names_in};

    ghost Value = { Names };

    ghost view = { λ n. names_in n.versions.entries };
}

impl Names {
    /// No name.
    pub(crate) fn new(alloc: Global) -> Names
        ensures { result ≡ [] }
    {
        Names {
            versions: IndexMap::new(alloc),
        }
    }

    /// The version of a transaction, by its name.
    pub(crate) fn version_named(&self, name: &[u8]) -> Option<Version>
        ensures { result ≡ version_named self.now name.now }
    {
        match self.versions.get(name) {
            Some(version) => Some(*version),
            None => None,
        }
    }

    /// Adds a name behind the others, or gives one of them this version.
    pub(crate) fn add(
        &mut self,
        alloc: Global,
        name: &[u8],
        version: Version,
    ) -> Result<(), NoMemory>
        ensures { OnOk result (self.new ≡ insert_entry bytes_eq self.old name.now version) }
    {
        let key = Vec::from_slice(alloc, name)?;
        self.versions.insert(key, version)?;
        Ok(())
    }

    /// The name at a place, from 0; the empty one past the end.
    pub(crate) fn at(&self, place: usize) -> &[u8]
        ensures { result.now ≡ name_token (slice_get self.now place) }
    {
        match self.versions.get_index(place) {
            Some((name, _version)) => name.as_slice(),
            None => &[],
        }
    }

    /// The first name of a version, or `-` for genesis.
    pub(crate) fn token_of(&self, version: &Version) -> &[u8]
        ensures { result.now ≡ findings.version_token self.now version.now }
    {
        if version.is_same(&Version::genesis()) {
            return b"-";
        }
        match first_of(&self.versions, version) {
            Some(name) => name.as_slice(),
            None => &[],
        }
    }
}

/// The first name of a version.
fn first_of<'a>(versions: &'a IndexMap<Vec<u8>, Version>, version: &Version) -> Option<&'a Vec<u8>>
    ensures { option_copied result
        ≡ option_map (λ e. e.0) (find (λ e. same_version e.1 version.now) versions.entry.now.entries) }
{
    for place in 0..versions.len() {
        let (name, v) = versions.get_index(place)?;
        if v.is_same(version) {
            return Some(name);
        }
    }
    None
}

// The files of the catalog, by path. Contracts see the list of paths with their entries, in the order in which they came.
ghost use Rattle.std.specs.Prelude.{◌≡◌, ◌<◌, ◌^◌, List, ℕ, [], ◌∷◌, ◌++◌, length, OnOk, OnErr, IfOk, IfSome, Some, None, slice_get, slice_set};
ghost use Rattle.std.specs.Option.{option_map};
ghost use Rattle.std.specs.List.{IsDistinct};
ghost use Rattle.std.specs.Map.{keys_of};
ghost use Rattle.indexmap.specs.IndexMap.{set_value_at};
ghost use Rattle.pfc_catalog.specs.Files.{same_path, entry_at};

use crate::entry::Entry;
use indexmap::IndexMap;
use pfc_base::{Memory, Path};
use std::alloc::Global;
use std::marker::Model;

#[derive(Drop)]
pub(crate) struct Files {
    map: IndexMap<Path, Entry>,
}

impl Model for Files {
    ghost use Rattle.std.specs.Prelude.{ℕ, List};
    ghost use Rattle.pfc_catalog.specs.declared.entry.Entry.{Entry};

    ghost Value = { List (List ℕ × Entry) };

    ghost use Rattle.std.specs.List.{IsDistinct};
    ghost use Rattle.std.specs.Map.{keys_of};
    ghost use Rattle.pfc_catalog.specs.Files.{same_path};

    ghost view = { λ f. f.map.entries };

    ghost invariant = { λ f. IsDistinct same_path (keys_of f.map.entries) };
}

impl Files {
    pub fn new(alloc: Global) -> Files
        ensures { result ≡ [] }
    {
        Files {
            map: IndexMap::new(alloc),
        }
    }

    /// How many there are.
    pub fn len(&self) -> usize
        ensures len { result ≡ length self.now }
        ensures small { result < 2 ^ 63 }
        ensures distinct { IsDistinct same_path (keys_of self.now) }
    {
        self.map.len()
    }

    /// Where the file is, and what is known of it.
    pub fn find(&self, path: &Path) -> Option<(usize, Entry)>
        ensures entry { option_map (λ f. f.1) result ≡ entry_at path.now self.now }
        ensures place { IfSome result (λ f. slice_get self.now f.0 ≡ Some (path.now, f.1)) }
        ensures distinct { IsDistinct same_path (keys_of self.now) }
    {
        match self.map.get_full(path) {
            Some((place, _, entry)) => Some((place, *entry)),
            None => None,
        }
    }

    /// The file at a place.
    pub fn at(&self, place: usize) -> Option<(&Path, Entry)>
        ensures { option_map (λ f. (f.0.now, f.1)) result ≡ slice_get self.now place }
    {
        match self.map.get_index(place) {
            Some((path, entry)) => Some((path, *entry)),
            None => None,
        }
    }

    /// What is known of the file at a place changes.
    pub fn set(&mut self, place: usize, entry: Entry)
        requires { place < length self.old }
        ensures { self.new ≡ set_value_at self.old place entry }
    {
        self.map[place] = entry;
    }

    /// A file comes last that wasn't there.
    pub fn add(&mut self, path: Path, entry: Entry) -> Result<usize, Memory>
        requires { entry_at path self.old ≡ None }
        ensures ok { OnOk result (self.new ≡ self.old ++ (path, entry) ∷ []) }
        ensures place { IfOk result (λ place. place ≡ length self.old) }
        ensures err { OnErr result (self.new ≡ self.old) }
    {
        let place = self.map.len();
        let _ = self.map.insert(path, entry)?;
        Ok(place)
    }
}

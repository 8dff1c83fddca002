// The catalog: a map from paths to files, with 256 shells. Contracts see the list of its files by path.
ghost use Rattle.std.specs.Prelude.{◌≡◌, ◌<◌, ◌≤◌, ◌+◌, ◌++◌, ◌∷◌, [], ℕ, OnOk, OnErr, IfOk, IfSome, IfNone, Some, None, true, false, length, slice_get, is_some, option_and_then};
ghost use Rattle.std.specs.Option.{option_map, option_copied};
ghost use Rattle.indexmap.specs.IndexMap.{set_value_at};
ghost use Rattle.pfc_catalog.specs.Entry.{shell_of, place_of, capped, fresh};
ghost use Rattle.std.specs.List.{IsDistinct};
ghost use Rattle.std.specs.Map.{keys_of};
ghost use Rattle.pfc_catalog.specs.Files.{same_path, entry_at};
ghost use Rattle.pfc_catalog.specs.Shells.{holder, live_at, MayHold};
ghost use Rattle.pfc_catalog.specs.Catalog.{put, usage_of, drawn, IsCatalog};

mod moves;
mod open;
mod plans;
mod purge;

use crate::entry::Entry;
use crate::files::Files;
use crate::order::Order;
use crate::shells::Shells;
use pfc_base::{Memory, Path};
pub use plans::plan;
use std::alloc::Global;
use std::marker::Model;

/// What an open of a path is told.
#[derive(Clone, Copy, Debug, PartialEq, Eq)]
pub enum Entered {
    /// It is open in this shell, and has one descriptor more.
    Join { shell: u32, instance: u64 },
    /// It is being opened, on its way home, or being removed.
    Wait,
    /// It was at home, and is being opened in this shell, which was free.
    New { shell: u32, instance: u64 },
    /// It is at home, and all 256 shells are held.
    NoShell { instance: u64 },
}

/// What a purge is told.
#[derive(Drop)]
pub enum Victim {
    /// This file is removed next.
    Take(Path),
    /// The usage is at most the low mark, both in bytes.
    Enough { usage: u64, low: u64 },
    /// The usage is above the low mark, and no file may be removed.
    NoneLeft,
}

#[derive(Drop)]
pub struct Catalog {
    files: Files,
    shells: Shells,
    total: u128,
    order: Order,
    next: u64,
}

impl Model for Catalog {
    ghost use Rattle.pfc_catalog.specs.View.{CatalogView};

    ghost Value = { CatalogView };

    ghost use Rattle.pfc_catalog.specs.Kept.{catalog_of, IsKept};

    ghost view = { catalog_of };

    ghost invariant = { IsKept };
}

impl Catalog {
    /// A catalog without files.
    pub fn new(alloc: Global) -> Catalog
        ensures { result ≡ record { entries = []; next = 0 } }
    {
        Catalog {
            files: Files::new(alloc),
            shells: Shells::new(),
            total: 0,
            order: Order::new(alloc),
            next: 0,
        }
    }

    /// The bytes of all files; the sum stays at `2^64 - 1`.
    pub fn usage(&self) -> u64
        ensures { result ≡ usage_of self.now.entries }
    {
        self.total.min(u64::MAX as u128) as u64
    }

    /// The file at a path.
    pub fn entry(&self, path: &Path) -> Option<Entry>
        ensures { result ≡ entry_at path.now self.now.entries }
    {
        match self.files.find(path) {
            Some((_, entry)) => Some(entry),
            None => None,
        }
    }

    /// Whether there is a file at a path.
    pub fn known(&self, path: &Path) -> bool
        ensures known { result ≡ is_some (entry_at path.now self.now.entries) }
        // One path has one file, and one shell is held by one file.
        ensures catalog { IsCatalog self.now.entries }
    {
        self.files.find(path).is_some()
    }

    /// Gives out the next instance number; the last one, `2^64 - 1`, is given out again and again.
    pub fn draw(&mut self) -> u64
        ensures number { result ≡ self.old.next }
        ensures drawn { self.new ≡ drawn self.old }
    {
        let instance = self.next;
        self.next = instance.saturating_add(1);
        instance
    }

    /// The shell and the instance of the file at a path, if it is open or on its way home.
    pub fn find(&self, path: &Path) -> Option<(u32, u64)>
        ensures { result ≡ option_and_then (λ e. place_of e.state) (entry_at path.now self.now.entries) }
    {
        match self.files.find(path) {
            Some((_, entry)) => entry.place(),
            None => None,
        }
    }

    /// The path of the file that is open in a shell.
    pub fn at(&self, shell: u32) -> Option<&Path>
        requires { shell < 256 }
        ensures { option_copied result ≡ live_at shell self.now.entries }
    {
        let place = self.shells.at(shell)?;
        let (path, entry) = self.files.at(place)?;
        if entry.is_live() {
            return Some(path);
        }
        None
    }

    /// What is known of a file changes. It holds the shell that it held, or none, or one that was free.
    fn put(&mut self, path: &Path, place: usize, was: Entry, entry: Entry)
        requires there { slice_get self.old.entries place ≡ Some (path.now, was) }
        requires shell { MayHold self.old.entries (shell_of was.state) (shell_of entry.state) }
        ensures set { self.new ≡ record self.old { entries = set_value_at self.old.entries place entry } }
        ensures distinct { IsDistinct same_path (keys_of self.old.entries) }
    {
        let _count = self.files.len();
        self.total = self.total - was.usage as u128 + entry.usage as u128;
        self.order.forget(path, was);
        self.order.note(path, entry);
        self.shells.free(was.shell());
        self.shells.give(entry.shell(), place);
        self.files.set(place, entry);
    }

    /// A file comes last that wasn't there, and that nobody holds.
    fn add(&mut self, path: &Path, entry: Entry) -> Result<usize, Memory>
        requires absent { entry_at path.now self.old.entries ≡ None }
        requires free { shell_of entry.state ≡ None }
        ensures ok { OnOk result (self.new ≡ record self.old { entries = self.old.entries ++ (path.now, entry) ∷ [] }) }
        ensures place { IfOk result (λ place. place ≡ length self.old.entries) }
        ensures err { OnErr result (self.new ≡ self.old) }
    {
        let _count = self.files.len();
        let place = self.files.add(path.copy(), entry)?;
        self.total += entry.usage as u128;
        self.order.note(path, entry);
        Ok(place)
    }
}

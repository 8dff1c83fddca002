// How files come into the catalog, and how they are opened.
ghost use Rattle.std.specs.Prelude.{◌≡◌, ◌<◌, ◌++◌, ◌∷◌, [], ℕ, OnOk, OnErr, IfOk, IfSome, IfNone, IsSome, Some, None, true, slice_get};
ghost use Rattle.indexmap.specs.IndexMap.{set_value_at};
ghost use Rattle.pfc_catalog.specs.Entry.{shell_of, with_state, is_home, known_entry};
ghost use Rattle.pfc_catalog.specs.Files.{entry_at};
ghost use Rattle.pfc_catalog.specs.Shells.{holder};
ghost use Rattle.pfc_catalog.specs.Catalog.{put, drawn, Enters};

use crate::catalog::{Catalog, Entered};
use crate::entry::{Entry, State};
use pfc_base::{Memory, Path};

impl Catalog {
    /// A file comes in that was found on disk: at home, with its usage in bytes and the moment of its last access in
    /// seconds. `known` tells whether it is there already.
    pub fn learn(&mut self, path: &Path, usage: u64, last: u64, marked: bool) -> Result<(), Memory>
        requires { entry_at path.now self.old.entries ≡ None }
        ensures ok { OnOk result (self.new ≡ record self.old { entries = put path.now (known_entry usage last marked) self.old.entries }) }
        ensures err { OnErr result (self.new ≡ self.old) }
    {
        let entry = Entry {
            state: State::Home,
            usage,
            last,
            marked,
        };
        self.add(path, entry)?;
        Ok(())
    }

    /// A shell that no file holds.
    fn free_shell(&self) -> Option<u32>
        ensures free { IfSome result (λ s. (s < 256) × (holder s self.now.entries ≡ None)) }
        ensures none { IfNone result ((s : ℕ) → s < 256 → IsSome (holder s self.now.entries)) }
    {
        self.shells.first_free()
    }

    /// A file that nobody holds gets a shell and an instance number.
    fn enter(&mut self, path: &Path, place: usize, was: Entry, shell: u32) -> u64
        requires there { slice_get self.old.entries place ≡ Some (path.now, was) }
        requires home { is_home was.state ≡ true }
        requires low { shell < 256 }
        requires free { holder shell self.old.entries ≡ None }
        ensures { Enters path.now self.old (Entered.New shell result) self.new }
    {
        let instance = self.draw();
        self.put(
            path,
            place,
            was,
            was.with(State::Opening { shell, instance }),
        );
        instance
    }

    /// Opens a file that is in the catalog.
    fn open_known(&mut self, path: &Path, place: usize, was: Entry) -> Entered
        requires there { slice_get self.old.entries place ≡ Some (path.now, was) }
        requires entry { entry_at path.now self.old.entries ≡ Some was }
        ensures { Enters path.now self.old result self.new }
    {
        match was.state {
            State::Live {
                shell,
                instance,
                count,
            } => {
                let count = count.saturating_add(1);
                let joined = was.with(State::Live {
                    shell,
                    instance,
                    count,
                });
                self.put(path, place, was, joined);
                Entered::Join { shell, instance }
            }
            State::Home => match self.free_shell() {
                Some(shell) => {
                    let instance = self.enter(path, place, was, shell);
                    Entered::New { shell, instance }
                }
                None => {
                    let instance = self.draw();
                    Entered::NoShell { instance }
                }
            },
            _ => Entered::Wait,
        }
    }

    /// Opens a file that isn't in the catalog. Its memory is taken before an instance number is given out.
    fn open_new(&mut self, path: &Path) -> Result<Entered, Memory>
        requires { entry_at path.now self.old.entries ≡ None }
        ensures entered { IfOk result (λ entered. Enters path.now self.old entered self.new) }
        ensures err { OnErr result (self.new ≡ self.old) }
    {
        let Some(shell) = self.free_shell() else {
            let instance = self.draw();
            return Ok(Entered::NoShell { instance });
        };
        let entry = Entry::fresh();
        let place = self.add(path, entry)?;
        let instance = self.enter(path, place, entry, shell);
        Ok(Entered::New { shell, instance })
    }

    /// Opens the file at a path; one that isn't there comes in. All memory is taken before anything changes.
    pub fn open_entry(&mut self, path: &Path) -> Result<Entered, Memory>
        ensures entered { IfOk result (λ entered. Enters path.now self.old entered self.new) }
        ensures err { OnErr result (self.new ≡ self.old) }
    {
        match self.files.find(path) {
            Some((place, was)) => Ok(self.open_known(path, place, was)),
            None => self.open_new(path),
        }
    }
}

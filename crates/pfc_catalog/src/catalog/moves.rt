// The calls that change one file, where it is in a state for it.
ghost use Rattle.std.specs.Prelude.{◌≡◌};
ghost use Rattle.pfc_catalog.specs.Entry.{opened, abandoned, closed, sent, homed, grown, gone, kept};
ghost use Rattle.pfc_catalog.specs.Moves.{moved};
ghost use Rattle.pfc_catalog.specs.Catalog.{Turns};

use crate::catalog::Catalog;
use crate::entry::Move;
use pfc_base::Path;

impl Catalog {
    /// Lets a call change a file.
    fn turn(&mut self, path: &Path, call: Move) -> bool
        ensures { Turns (moved call) path.now self.old result self.new }
    {
        let Some((place, was)) = self.files.find(path) else {
            return false;
        };
        let Some(entry) = was.moved(call) else {
            return false;
        };
        self.put(path, place, was, entry);
        true
    }

    /// A file that was being opened is open, with one descriptor, and with the usage in bytes where it is given.
    pub fn opened(&mut self, path: &Path, usage: Option<u64>) -> bool
        ensures { Turns (opened usage) path.now self.old result self.new }
    {
        self.turn(path, Move::Opened(usage))
    }

    /// A file that was being opened goes home, and its shell is free.
    pub fn abandon(&mut self, path: &Path) -> bool
        ensures { Turns abandoned path.now self.old result self.new }
    {
        self.turn(path, Move::Abandon)
    }

    /// An open file has one descriptor less.
    pub fn close_entry(&mut self, path: &Path) -> bool
        ensures { Turns closed path.now self.old result self.new }
    {
        self.turn(path, Move::Close)
    }

    /// An open file without descriptors begins its way home.
    pub fn away(&mut self, path: &Path) -> bool
        ensures { Turns sent path.now self.old result self.new }
    {
        self.turn(path, Move::Away)
    }

    /// A file on its way home is there, and its shell is free. What was found on its disk is its usage in bytes and the
    /// moment of its last access in seconds.
    pub fn home(&mut self, path: &Path, found: Option<(u64, u64)>) -> bool
        ensures { Turns (homed found) path.now self.old result self.new }
    {
        self.turn(path, Move::Home(found))
    }

    /// An open file takes so many bytes more; its usage stays at `2^64 - 1`.
    pub fn grew(&mut self, path: &Path, bytes: u64) -> bool
        ensures { Turns (grown bytes) path.now self.old result self.new }
    {
        self.turn(path, Move::Grew(bytes))
    }

    /// What a purge took was removed: it is at home, and takes no bytes.
    pub fn gone(&mut self, path: &Path) -> bool
        ensures { Turns gone path.now self.old result self.new }
    {
        self.turn(path, Move::Gone)
    }

    /// What a purge took couldn't be removed: it is at home, and no purge takes it again.
    pub fn kept(&mut self, path: &Path) -> bool
        ensures { Turns kept path.now self.old result self.new }
    {
        self.turn(path, Move::Kept)
    }
}

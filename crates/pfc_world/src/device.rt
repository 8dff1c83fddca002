ghost use Rattle.std.specs.Prelude.{◌≡◌, ◌<◌, ◌≤◌, ℕ, Bool, IsTrue, IfOk, IfSome, is_ok, vec_len};
ghost use Rattle.pfc_world.specs.Counts.{HasCause, RefusalCause};
ghost use Rattle.pfc_world.specs.Run.{Run, Goes};
ghost use Rattle.pfc_world.specs.Disk.{Disk, Read, Write, Sync, Clear};
ghost use Rattle.pfc_world.specs.Info.{Info, IsCutOf, bytes_of, WriteTemp, SyncTemp, Rename, Remove, Settle};

use crate::{Fault, Refusal, World};
use std::alloc::Global;

/// The most bytes that a read of a main file gives. A longer main file is cut there.
pub const MAIN_READ_MOST: usize = 4194305;

/// A file's data on a disk.
pub trait DataDev<W: World>: Send + Drop {
    /// Whether it tells its bytes and its images.
    ghost told: { Bool };

    /// What it reads and what a crash may leave of it, now and before each call.
    ghost seen: { Self → Run Disk };

    /// How many calls failed.
    ghost faults: { Self → ℕ };

    /// The bytes from a place, as many as `into` takes. A range past the end is a fault.
    fn read_at(&mut self, at: u64, into: &mut [u8]) -> Result<(), Fault>
        ensures read { IsTrue told → Read at into.new (is_ok result) (seen self.old) (seen self.new) }
        ensures cause { HasCause (faults self.old) (faults self.new) result };

    /// Puts bytes at a place. A gap before it is filled with zeros.
    fn write_at(&mut self, at: u64, from: &[u8]) -> Result<(), Fault>
        ensures write { IsTrue told → Goes (Write at from.now (is_ok result)) (seen self.old) (seen self.new) }
        ensures cause { HasCause (faults self.old) (faults self.new) result };

    /// Settles what was written since the last sync.
    fn sync(&mut self) -> Result<(), Fault>
        ensures sync { IsTrue told → Goes (Sync (is_ok result)) (seen self.old) (seen self.new) }
        ensures cause { HasCause (faults self.old) (faults self.new) result };

    /// Takes all bytes away.
    fn clear(&mut self) -> Result<(), Fault>
        ensures clear { IsTrue told → Clear (is_ok result) (seen self.old) (seen self.new) }
        ensures cause { HasCause (faults self.old) (faults self.new) result };

    /// How many calls failed. This is no call on the disk.
    fn faults(&self) -> u64
        ensures { result ≡ faults self.now };
}

/// A small file beside a file's data: a main file, which a temporary replaces whole.
pub trait InfoDev<W: World>: Send + Drop {
    /// Whether it tells its main file and its images.
    ghost told: { Bool };

    /// What it reads and what a crash may leave of it, now and before each call.
    ghost seen: { Self → Run Info };

    /// How many calls failed.
    ghost faults: { Self → ℕ };

    /// The main file, cut at `MAIN_READ_MOST` bytes; `None` where there is none.
    fn read_main(&mut self, alloc: Global) -> Result<Option<Vec<u8>>, Refusal>
        ensures shown { IsTrue told → IfOk result (λ main. IsCutOf MAIN_READ_MOST (seen self.old).now.shown (bytes_of main)) }
        ensures most { IfOk result (λ main. IfSome main (λ bytes. vec_len bytes ≤ MAIN_READ_MOST)) }
        ensures same { IsTrue told → seen self.new ≡ seen self.old }
        ensures cause { RefusalCause (faults self.old) (faults self.new) result };

    /// Puts these bytes in the place of the temporary.
    fn write_temp(&mut self, from: &[u8]) -> Result<(), Fault>
        ensures write { IsTrue told → Goes (WriteTemp from.now (is_ok result)) (seen self.old) (seen self.new) }
        ensures cause { HasCause (faults self.old) (faults self.new) result };

    /// Makes the temporary stable.
    fn sync_temp(&mut self) -> Result<(), Fault>
        ensures sync { IsTrue told → Goes (SyncTemp (is_ok result)) (seen self.old) (seen self.new) }
        ensures cause { HasCause (faults self.old) (faults self.new) result };

    /// Puts the temporary in the place of the main file.
    fn rename(&mut self) -> Result<(), Fault>
        requires { IsTrue told → IsTrue (seen self.old).now.settled }
        ensures rename { IsTrue told → Goes (Rename (is_ok result)) (seen self.old) (seen self.new) }
        ensures cause { HasCause (faults self.old) (faults self.new) result };

    /// Takes the main file away.
    fn remove(&mut self) -> Result<(), Fault>
        requires { IsTrue told → IsTrue (seen self.old).now.settled }
        ensures remove { IsTrue told → Goes (Remove (is_ok result)) (seen self.old) (seen self.new) }
        ensures cause { HasCause (faults self.old) (faults self.new) result };

    /// Has a crash leave what a read gives. A device that comes fresh from a depot isn't known to be settled.
    fn settle(&mut self) -> Result<(), Fault>
        ensures settle { IsTrue told → Goes (Settle (is_ok result)) (seen self.old) (seen self.new) }
        ensures cause { HasCause (faults self.old) (faults self.new) result };

    /// How many calls failed. This is no call on the disk.
    fn faults(&self) -> u64
        ensures { result ≡ faults self.now };
}

ghost use Rattle.std.specs.Prelude.{◌≡◌, ◌+◌, ◌<◌, ◌≤◌, ◌^◌, ℕ, Bool, List, length, IsTrue, IfOk, IfSome, option_map, OnOk};
ghost use Rattle.pfc_world.specs.Files.{Files, file_at, size_at, AreShort, LiesIn, Holds};
ghost use Rattle.pfc_world.specs.Counts.{HasCause, add_count};

use crate::Fault;
use pfc_base::Path;

/// A world of files that never change. It is a type and no value, so they are the same at every moment; it has no calls.
pub trait World: Send + Sync {
    /// The files, by path.
    ghost files: { Files };

    /// Whether the world tells them.
    ghost told: { Bool };

    /// Each file is shorter than 2^44 bytes, so that each block number is below 2^32.
    ghost short: { AreShort files };
}

/// A link to the origin of the world's files.
pub trait Origin<W: World>: Send + Drop {
    /// Whose link it is.
    ghost number: { Self → ℕ };

    /// How many calls were made; each call counts once, whatever it answers.
    ghost calls: { Self → ℕ };

    /// How many of them failed.
    ghost faults: { Self → ℕ };

    /// The length of the path's file in bytes, and `None` where there is none.
    fn stat(&mut self, path: &Path) -> Result<Option<u64>, Fault>
        ensures number { number self.new ≡ number self.old }
        ensures calls { calls self.new ≡ add_count (calls self.old) 1 }
        ensures cause { HasCause (faults self.old) (faults self.new) result }
        ensures told { IsTrue W.told → IfOk result (λ found. found ≡ size_at W.files path.now) }
        ensures short { IfOk result (λ found. IfSome found (λ size. size < 2 ^ 44)) };

    /// The bytes of the path's file from a place, as many as `into` takes. Where the world isn't told, a range past the
    /// file's end is a fault.
    fn fetch(&mut self, path: &Path, at: u64, into: &mut [u8]) -> Result<(), Fault>
        requires { LiesIn W.told W.files path.now at (length into.old) }
        ensures number { number self.new ≡ number self.old }
        ensures calls { calls self.new ≡ add_count (calls self.old) 1 }
        ensures cause { HasCause (faults self.old) (faults self.new) result }
        ensures told { OnOk result (Holds W.told W.files path.now at into.new) };
}

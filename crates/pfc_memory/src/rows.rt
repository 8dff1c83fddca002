// Worlds in memory.
ghost use Rattle.std.specs.Prelude.{◌≡◌, ◌+◌, ◌<◌, ◌^◌, ◌≤◌, IsTrue, true, length, ℕ, Option, refl};
ghost use Rattle.pfc_world.specs.Files.{file_at, size_at, LiesIn, Holds};
ghost use Rattle.pfc_memory.specs.Rows.{row_files, row_sizes, short-with_rows, row_sizes-small, size_in, row_bytes};

use pfc_base::Path;
use pfc_world::World;

/// A world that is told, and gives its files.
pub trait MemoryWorld: World {
    /// The length of the path's file in bytes, and `None` where there is none.
    fn size(path: &Path) -> Option<u64>
        ensures { result ≡ size_at Self.files path.now };

    /// Fills `into` with the bytes of the path's file from a place on.
    fn fill(path: &Path, at: u64, into: &mut [u8])
        requires { LiesIn true Self.files path.now at (length into.old) }
        ensures { Holds true Self.files path.now at into.new };

    /// It is told.
    ghost is_told: { IsTrue Self.told };
}

/// The files `/a` of 8193 bytes, `/a.cinfo` of 3, `/b` of 20480, `/e` of none, and `/w`, `/x`, `/y` and `/z` of 4096.
/// Byte j of each is j modulo 251.
pub struct RowWorld;

impl World for RowWorld {
    ghost files = { row_files };

    ghost told = { true };

    ghost short = { short-with_rows row_sizes row_sizes-small };
}

impl MemoryWorld for RowWorld {
    ghost is_told = { refl };

    #[tactic(auto, using(crate::proofs::RowFiles::row_laws))]
    fn size(path: &Path) -> Option<u64> {
        row_size(path.as_bytes())
    }

    fn fill(path: &Path, at: u64, into: &mut [u8]) {
        let _ = path;
        fill_rows(at, into);
    }
}

fn row_size(path: &[u8]) -> Option<u64>
    ensures { result ≡ size_in row_sizes path.now }
{
    if path == b"/a".as_slice() {
        Some(8193)
    } else if path == b"/a.cinfo".as_slice() {
        Some(3)
    } else if path == b"/b".as_slice() {
        Some(20480)
    } else if path == b"/e".as_slice() {
        Some(0)
    } else if path == b"/w".as_slice() {
        Some(4096)
    } else if path == b"/x".as_slice() {
        Some(4096)
    } else if path == b"/y".as_slice() {
        Some(4096)
    } else if path == b"/z".as_slice() {
        Some(4096)
    } else {
        None
    }
}

fn fill_rows(at: u64, into: &mut [u8])
    requires { at + length into.old < 2 ^ 44 }
    ensures { into.new ≡ row_bytes at (length into.old) }
{
    for (j, byte) in into.iter_mut().enumerate() {
        *byte = ((at + j as u64) % 251) as u8;
    }
}

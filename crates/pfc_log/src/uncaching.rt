// Which files aren't cached, whatever becomes of their volumes.
ghost use Rattle.std.specs.Prelude.{◌≡◌};
ghost use Rattle.pfc_log.specs.Uncaching.{cause_of, is_companion};

use crate::Uncached;
use pfc_base::Path;

/// The most blocks of a file that is cached. Its bitmap has 2 MiB then.
pub const MOST_BLOCKS: u64 = 16777216;

/// Whether the path is that of a cinfo file or of its temporary, whose names the cache needs for its own.
fn is_companion(path: &Path) -> bool
    ensures { result ≡ is_companion path.now }
{
    path.as_bytes().ends_with(b".cinfo") || path.as_bytes().ends_with(b".cinfo.tmp")
}

/// Why a file of this path, with so many blocks, isn't cached.
pub fn uncached_cause(path: &Path, blocks: u64) -> Option<Uncached>
    ensures { result ≡ cause_of path.now blocks }
{
    if is_companion(path) {
        return Some(Uncached::Suffix);
    }
    if blocks > MOST_BLOCKS {
        return Some(Uncached::Blocks);
    }
    None
}

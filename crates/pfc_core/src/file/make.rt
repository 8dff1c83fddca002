// How a core begins.
ghost use Rattle.std.specs.Prelude.{◌≡◌, ◌<◌, ◌≤◌, length, IfOk};
ghost use Rattle.pfc_base.specs.Block.{count_of};
ghost use Rattle.pfc_core.specs.New.{IsNew, IsNewUncached};

use super::FileCore;
use crate::access::Access;
use crate::held::Tokens;
use crate::sets::Sets;
use crate::shelf::Shelf;
use pfc_base::{BlockSet, Memory};
use pfc_cinfo::{Head, Records};
use pfc_log::{FileLog, Start, Uncached};
use pfc_world::{Known, World};
use std::alloc::Global;

impl<W: World> FileCore<W> {
    /// A core that nobody uses yet, with an empty log. The blocks of this set are on disk for good, and claimed by a cinfo with
    /// this head.
    pub fn new(
        alloc: Global,
        instance: u64,
        known: Known<W>,
        block_size: u64,
        start: BlockSet,
        head: Head,
    ) -> Result<FileCore<W>, Memory>
        requires some { 0 < block_size }
        requires most { block_size ≤ 16777216 }
        requires blocks { count_of known.size block_size ≤ 16777216 }
        requires bound { length start ≡ count_of known.size block_size }
        ensures { IfOk result (λ core. IsNew instance known.path known.size block_size start head core) }
    {
        let sets = Sets::new(alloc, &start)?;
        let mut log = FileLog::new(alloc, Start::Stored(start));
        log.reserve(1)?;
        Ok(FileCore {
            instance,
            log,
            sets,
            shelf: Shelf::new(alloc, known, block_size),
            stays: Tokens::new(alloc),
            readings: Tokens::new(alloc),
            pins: Tokens::new(alloc),
            disks: Tokens::new(alloc),
            loan: None,
            lent: 0,
            begun: 0,
            claim: None,
            visited: 0,
            access: Access::new(head),
        })
    }

    /// A core of a file that isn't cached for this cause: each part is read straight from the origin.
    pub fn direct_only(
        alloc: Global,
        instance: u64,
        known: Known<W>,
        block_size: u64,
        why: Uncached,
    ) -> Result<FileCore<W>, Memory>
        requires some { 0 < block_size }
        requires most { block_size ≤ 16777216 }
        ensures { IfOk result (λ core. IsNewUncached instance known.path known.size block_size why core) }
    {
        let sets = Sets::new(alloc, &BlockSet::new(alloc, 0)?)?;
        let mut log = FileLog::new(alloc, Start::Uncached(why));
        log.reserve(1)?;
        Ok(FileCore {
            instance,
            log,
            sets,
            shelf: Shelf::new(alloc, known, block_size),
            stays: Tokens::new(alloc),
            readings: Tokens::new(alloc),
            pins: Tokens::new(alloc),
            disks: Tokens::new(alloc),
            loan: None,
            lent: 0,
            begun: 0,
            claim: None,
            visited: 0,
            access: Access::new(Head {
                created: 0,
                accesses: 0,
                records: Records::new(alloc),
            }),
        })
    }
}
